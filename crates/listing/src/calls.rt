// The listing of a sheet, from bytes to bytes.
//
// A sheet is judged and its answers are made in scratch that is lent (`list_within`), of one of four sizes (`list_in`),
// so that a small sheet does not pay for a large one. Printing into no room at all measures, so nothing is written
// before it is known that all fits.
ghost use Rattle.std.specs.Prelude.{◌≤◌, ◌≡◌, length, Ok};
ghost use Rattle.answers.specs.Lent.{counted, held, room, left, Fills};
ghost use Rattle.sheet.specs.Inner.{Roomy};
ghost use Rattle.listing.specs.Listing as spec;
ghost use Rattle.listing.specs.InnerListing.{listed_sheet, ListsTo, ListsWithin, Ample, NoWider};

use super::sections::put_headed;
use super::within::{EDGES_ROOM, LISTS_ROOM, LOWERED_ROOM, PER_WORD, Scratch, list_within};
use answers::Refusal;
use borrowing_param::BorrowingParamVisitor;
use sheet::Text;

// Scratch for sheets of at most `Text::SMALL` bytes: a word takes two of them; for what 24 words of steps and 12 of
// returns give; for 12 lifetimes; for 20 edges.
const SMALL_WORDS: usize = Text::SMALL / 2;

const SMALL_GIVEN: usize = 24 * PER_WORD;

const SMALL_TAKEN: usize = 12 * PER_WORD;

const SMALL_LISTS: usize = 12 * 12;

const SMALL_EDGES: usize = 20 * BorrowingParamVisitor::EDGE_WORDS;

// The same of at most `Text::MIDDLE`: 64 words of steps, 32 of returns, 32 lifetimes, 128 edges.
const MIDDLE_WORDS: usize = Text::MIDDLE / 2;

const MIDDLE_GIVEN: usize = 64 * PER_WORD;

const MIDDLE_TAKEN: usize = 32 * PER_WORD;

const MIDDLE_LISTS: usize = 32 * 32;

const MIDDLE_EDGES: usize = 128 * BorrowingParamVisitor::EDGE_WORDS;

// The same of at most `Text::LARGE`: 128 words of steps, 64 of returns, 64 lifetimes, 512 edges.
const LARGE_WORDS: usize = Text::LARGE / 2;

const LARGE_GIVEN: usize = 128 * PER_WORD;

const LARGE_TAKEN: usize = 64 * PER_WORD;

const LARGE_EDGES: usize = 512 * BorrowingParamVisitor::EDGE_WORDS;

// So many bytes take any answer of the program: twice as many as a sheet may have.
pub const ROOM: usize = 2 * Text::MAX_BYTES;

// Write the listing of a sheet to a slice. The answer is how many bytes it has. Refused as the sheet is (10; 1 over all
// records; 13; 2 to 7 at the first bad place; 8), then by 9 for more than 4,096 edges or where the slice is too short.
pub fn listing(sheet: &[u8], out: &mut [u8]) -> Result<usize, Refusal>
    ensures answer { result ≡ counted (spec.listing sheet.now (room out)) }
    ensures stored { Fills (spec.listing sheet.now (room out)) out }
{
    if out.len() < ROOM {
        return list_tight(sheet, out);
    }
    list_sheet(sheet, out)
}

// The same where the slice may be too short: the listing is measured first.
fn list_tight(sheet: &[u8], out: &mut [u8]) -> Result<usize, Refusal>
    ensures value { result ≡ counted (spec.listing sheet.now (room out)) }
    ensures fills { Fills (spec.listing sheet.now (room out)) out }
{
    let mut none = [0u8; 0];
    let count = list_sheet(sheet, &mut none)?;
    if out.len() < count {
        return Err(Refusal::NoRoom);
    }
    list_sheet(sheet, out)
}

// What the program answers: the listing, or the line `refusal` and a line with the number. It is never refused; what
// stands behind the answer stays.
pub fn respond(sheet: &[u8], out: &mut [u8; ROOM]) -> usize
    ensures answer { result ≡ length (spec.response sheet.now) }
    ensures stored { Fills (Ok (spec.response sheet.now)) out }
{
    match list_sheet(sheet, out) {
        Ok(count) => count,
        Err(refusal) => put_headed(out, 0, b"refusal\n", &[refusal.number()]),
    }
}

// List a sheet, as far as the slice goes.
fn list_sheet(sheet: &[u8], out: &mut [u8]) -> Result<usize, Refusal>
    ensures { ListsTo (listed_sheet sheet.now) (held out) result (left out) }
{
    list_sized(sheet, out, sheet.len())
}

// The same in scratch for sheets of so many bytes, as many as this one has or more, and where that is too short, in the
// next larger. That it calls itself keeps the arrays of the larger sizes out of the frame of the smaller ones, so that
// the sizes are no loop and no argument.
fn list_sized(sheet: &[u8], out: &mut [u8], bytes: usize) -> Result<usize, Refusal>
    requires { length sheet.now ≤ bytes }
    ensures { ListsTo (listed_sheet sheet.now) (held out) result (left out) }
{
    if bytes <= Text::SMALL {
        return match list_in::<SMALL_WORDS, SMALL_GIVEN, SMALL_TAKEN, SMALL_LISTS, SMALL_EDGES>(
            sheet, out,
        )? {
            Some(count) => Ok(count),
            None => list_sized(sheet, out, Text::MIDDLE),
        };
    }
    if bytes <= Text::MIDDLE {
        return match list_in::<
            MIDDLE_WORDS,
            MIDDLE_GIVEN,
            MIDDLE_TAKEN,
            MIDDLE_LISTS,
            MIDDLE_EDGES,
        >(sheet, out)?
        {
            Some(count) => Ok(count),
            None => list_sized(sheet, out, Text::LARGE),
        };
    }
    if bytes <= Text::LARGE {
        return match list_in::<LARGE_WORDS, LARGE_GIVEN, LARGE_TAKEN, LISTS_ROOM, LARGE_EDGES>(
            sheet, out,
        )? {
            Some(count) => Ok(count),
            None => list_sized(sheet, out, Text::MAX_BYTES),
        };
    }
    // That much is enough for any sheet, so that there is always an answer.
    list_in::<{ Text::MAX_WORDS }, LOWERED_ROOM, LOWERED_ROOM, LISTS_ROOM, EDGES_ROOM>(
        sheet, out,
    )?.ok_or(Refusal::NoRoom)
}

// In scratch of one size: so many words for the words of the sheet, for the lowered words of steps and of returns, for
// the longer lists and for the edges. None: that is too short.
fn list_in<
    const WORDS: usize,
    const GIVEN: usize,
    const TAKEN: usize,
    const LISTS: usize,
    const EDGES: usize,
>(sheet: &[u8], out: &mut [u8]) -> Result<Option<usize>, Refusal>
    requires { Roomy sheet.now WORDS × NoWider WORDS GIVEN TAKEN LISTS EDGES }
    ensures { ListsWithin (listed_sheet sheet.now) (Ample GIVEN TAKEN LISTS EDGES) (held out) result (left out) }
{
    let mut words = [0usize; WORDS];
    let mut given = [0usize; GIVEN];
    let mut taken = [0usize; TAKEN];
    let mut lists = [0usize; LISTS];
    let mut edges = [0usize; EDGES];
    let scratch = Scratch {
        given: &mut given,
        taken: &mut taken,
        lists: &mut lists,
        edges: &mut edges,
    };
    list_within(sheet, &mut words, scratch, out)
}
