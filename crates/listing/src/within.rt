// A listing made in lent scratch: where it is too short, and only then, the answer says so.
ghost use Rattle.std.specs.Prelude.{◌≤◌, ◌≡◌, length};
ghost use Rattle.answers.specs.Refusals.{NoneDue};
ghost use Rattle.answers.specs.Lent.{held, room, left};
ghost use Rattle.sheet.specs.Text.{records_in};
ghost use Rattle.sheet.specs.Shape.{records_checks};
ghost use Rattle.sheet.specs.Inner.{Roomy};
ghost use Rattle.listing.specs.InnerListing.{listed_sheet, listed_records, Suffices, ListsWithin, listed_method};
ghost use Rattle.listing.specs.InnerListing.{Listable, edges_overflow, lists_room, edges_room};

use super::whole::put_listing;
use answers::Refusal;
use borrowing_param::BorrowingParamVisitor;
use elision::lower;
use lifetimes::{LifetimeEnv, set};
use methods::{MAX_PARAMS, used_method_lifetimes};
use records::MAX_WORDS;
use sheet::{Records, read_sheet};

// How many lowered words a word of steps or returns gives at most: a step has two words or more and gives at most 16.
pub(crate) const PER_WORD: usize = 8;

// So many words take what any steps, and any returns, give.
pub(crate) const LOWERED_ROOM: usize = PER_WORD * MAX_WORDS;

// So many words take the longer lists of any method.
pub(crate) const LISTS_ROOM: usize = LifetimeEnv::MAX_LIFETIMES * LifetimeEnv::MAX_LIFETIMES;

// How many edges a listing may have.
const MAX_EDGES: usize = 4096;

// So many words take them.
pub(crate) const EDGES_ROOM: usize = BorrowingParamVisitor::EDGE_WORDS * MAX_EDGES;

// Scratch, lent: for the lowered words of steps and of returns, for the longer lists, for the edges.
#[derive(Drop)]
pub(crate) struct Scratch<'a> {
    pub(crate) given: &'a mut [usize],
    pub(crate) taken: &'a mut [usize],
    pub(crate) lists: &'a mut [usize],
    pub(crate) edges: &'a mut [usize],
}

// List a sheet. `words` takes the words of any sheet of so many bytes. None: the scratch is too short.
// That the edges have no more room than a listing takes stays a clause: it is of one slice of `Scratch`, and taken
// apart with it.
pub(crate) fn list_within(
    sheet: &[u8],
    words: &mut [usize],
    scratch: Scratch,
    out: &mut [u8],
) -> Result<Option<usize>, Refusal>
    requires { Roomy sheet.now (length words.old) × (length scratch.edges.now ≤ edges_room) }
    ensures { ListsWithin (listed_sheet sheet.now) (Suffices scratch.entry) (held out) result (left out) }
{
    let text = read_sheet(sheet, words)?;
    list_records(Records::laid(words, text.ends), scratch, out)
}

// The same of the sheet's records, read.
fn list_records(
    records: Records,
    scratch: Scratch,
    out: &mut [u8],
) -> Result<Option<usize>, Refusal>
    requires { NoneDue (records_checks (records_in records)) × (length scratch.edges.now ≤ edges_room) }
    ensures { ListsWithin (listed_records (records_in records.entry)) (Suffices scratch.entry)
        (held out) result (left out) }
{
    let Scratch {
        given,
        taken,
        lists,
        edges,
    } = scratch;
    if given.len() / PER_WORD < records.steps.len() {
        return Ok(None);
    }
    if taken.len() / PER_WORD < records.returns.len() {
        return Ok(None);
    }
    let ast = ast_lifetimes::LifetimeEnv::from_method_item(
        records.names,
        records.bounds,
        records.types,
    )?;
    let mut own = [0usize; 1];
    let lowered = lower(
        ast,
        records.own,
        records.steps,
        records.returns,
        &mut own,
        given,
        taken,
    )?;
    let used = used_method_lifetimes(
        lowered.env,
        records.structs,
        records.params,
        records.output,
        records.force,
    )?;
    list_method(
        lowered.env,
        used,
        records,
        &own[0..lowered.selves],
        &given[0..lowered.steps],
        &taken[0..lowered.returns],
        lists,
        edges,
        out,
    )
}

// List an accepted method. Its lowered words are three slices and no struct: what was moved out of a struct cannot be
// lent in another but by a caller whose proof is written by hand.
fn list_method(
    env: LifetimeEnv,
    used: u64,
    records: Records,
    own: &[usize],
    given: &[usize],
    taken: &[usize],
    lists: &mut [usize],
    edges: &mut [usize],
    out: &mut [u8],
) -> Result<Option<usize>, Refusal>
    requires { Listable env used records.structs.now records.params.now own.now given.now taken.now
        × (length edges.old ≤ edges_room) }
    ensures { ListsWithin
        (listed_method env used records.entry.structs.now records.entry.params.now own.now given.now
        taken.now)
        ((lists_room ≤ room lists) × (edges_room ≤ room edges)) (held out) result (left out) }
{
    let count = env.count;
    if lists.len() < count * count {
        return Ok(None);
    }
    let mut ends = [0usize; LifetimeEnv::MAX_LIFETIMES];
    let longer = env.all_lists(true, lists, &mut ends)?;
    let visitor = BorrowingParamVisitor::from_sets(used, &longer.sets);
    let mut answers = [0usize; MAX_PARAMS];
    // The refusal is not handed on: it says that the scratch is too short, or that the edges are too many.
    let Ok(map) = visitor.borrow_map(records.structs, records.params, &mut answers, edges) else {
        return too_many(edges.len());
    };
    let counts = [count, set::count(used), map.params, map.edges];
    let length = put_listing(
        out,
        &counts,
        own,
        given,
        taken,
        lists,
        &ends[0..count],
        &answers[0..map.params],
        &edges[0..map.edges * BorrowingParamVisitor::EDGE_WORDS],
    );
    Ok(Some(length))
}

// More edges than so many words take: the scratch is too short, or they are more than a listing has.
fn too_many(room: usize) -> Result<Option<usize>, Refusal>
    ensures { result ≡ edges_overflow room }
{
    if room < EDGES_ROOM {
        return Ok(None);
    }
    Err(Refusal::NoRoom)
}
