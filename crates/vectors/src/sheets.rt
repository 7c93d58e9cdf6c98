// Questions about whole sheets, for the crates `borrowing_param`, `listing` and `exports`.
//
// Each is the record of the sheet's bytes, and the record of how long the lent slices are.
ghost use Rattle.input.specs.Left.{TakesFront};

use super::questions::Questions;
use super::{borrows, environments, print, rooms, scan};
use borrowing_param::{SheetMethod, borrow_sheet, lower_sheet};
use exports::{borrows_listing, borrows_sheet};
use lifetimes::LifetimeEnv;
use listing::listing;
use sheet::Text;

// Kind 24, one slice for words: `lower_sheet`. The refusal's number or 0, the ten ends, the whole environment, and all
// words of the slice. Refused, the ends are 0, and there is no lifetime.
pub(crate) fn lower(rt: &impl Print, questions: &mut Questions<'_>)
    ensures left { TakesFront questions.old.left.now questions.new.left.now }
{
    let mut bytes = rooms::bytes();
    let n = scan::lay(questions.record(), &mut bytes);
    let mut lengths = Questions {
        left: questions.record(),
    };
    lowered(rt, &bytes[..n], lengths.number());
    print::end(rt);
}

// `lower_sheet`, with a slice of this length.
fn lowered(rt: &impl Print, sheet: &[u8], length: usize) {
    let mut words = rooms::words();
    let words = &mut words[..length.min(rooms::WORDS)];
    let method = lower_sheet(sheet, words);
    print::first(rt, print::number_of(&method));
    let method = method.unwrap_or(SheetMethod {
        ends: [0; Text::RECORDS],
        env: LifetimeEnv::none(),
    });
    print::all(rt, &method.ends);
    environments::print_environment(rt, method.env);
    print::all(rt, words);
}

// Kind 25, slices for used lifetimes, answers, edges and counts: `borrow_sheet`, lent the first three, what it answers
// and all words of the slices; then `borrows_sheet`, its status and all words of the four.
pub(crate) fn borrow(rt: &impl Print, questions: &mut Questions<'_>)
    ensures left { TakesFront questions.old.left.now questions.new.left.now }
{
    let mut bytes = rooms::bytes();
    let n = scan::lay(questions.record(), &mut bytes);
    let lengths = questions.record();
    called(rt, &bytes[..n], Questions { left: lengths });
    exported(rt, &bytes[..n], Questions { left: lengths });
    print::end(rt);
}

// `borrow_sheet`, with slices of these lengths.
fn called(rt: &impl Print, sheet: &[u8], given: Questions<'_>) {
    let mut lengths = given;
    let mut used = rooms::words();
    let mut answers = rooms::words();
    let mut edges = rooms::edges();
    let used = &mut used[..lengths.number().min(rooms::WORDS)];
    let answers = &mut answers[..lengths.number().min(rooms::WORDS)];
    let edges = &mut edges[..lengths.number().min(rooms::EDGES)];
    borrows::print_borrows(rt, borrow_sheet(sheet, used, answers, edges));
    print::all(rt, used);
    print::all(rt, answers);
    print::all(rt, edges);
}

// `borrows_sheet`, with slices of these lengths.
fn exported(rt: &impl Print, sheet: &[u8], given: Questions<'_>) {
    let mut lengths = given;
    let mut used = rooms::words();
    let mut answers = rooms::words();
    let mut edges = rooms::edges();
    let mut counts = rooms::words();
    let used = &mut used[..lengths.number().min(rooms::WORDS)];
    let answers = &mut answers[..lengths.number().min(rooms::WORDS)];
    let edges = &mut edges[..lengths.number().min(rooms::EDGES)];
    let counts = &mut counts[..lengths.number().min(rooms::WORDS)];
    print::next(rt, borrows_sheet(sheet, used, answers, edges, counts));
    print::all(rt, used);
    print::all(rt, answers);
    print::all(rt, edges);
    print::all(rt, counts);
}

// Kind 26, a slice for bytes and one for their number: `listing`, lent the first, the refusal's number or 0, the count
// and all bytes of the slice; then `borrows_listing`, its status, and all bytes and words of both.
pub(crate) fn list(rt: &impl Print, questions: &mut Questions<'_>)
    ensures left { TakesFront questions.old.left.now questions.new.left.now }
{
    let mut bytes = rooms::bytes();
    let n = scan::lay(questions.record(), &mut bytes);
    let sheet = &bytes[..n];
    let mut lengths = Questions {
        left: questions.record(),
    };
    let length = lengths.number();
    let counted = lengths.number();
    listed(rt, sheet, length);
    exported_listing(rt, sheet, length, counted);
    print::end(rt);
}

// `listing`, with a slice of this length.
fn listed(rt: &impl Print, sheet: &[u8], length: usize) {
    let mut out = rooms::bytes();
    let lent = &mut out[..length.min(rooms::BYTES)];
    let listed = listing(sheet, lent);
    print::first(rt, print::number_of(&listed));
    print::next(rt, listed.unwrap_or(0));
    print::bytes(rt, lent);
}

// `borrows_listing`, with slices of these lengths.
fn exported_listing(rt: &impl Print, sheet: &[u8], length: usize, counted: usize) {
    let mut out = rooms::bytes();
    let mut counts = rooms::words();
    let lent = &mut out[..length.min(rooms::BYTES)];
    let counts = &mut counts[..counted.min(rooms::WORDS)];
    print::next(rt, borrows_listing(sheet, lent, counts));
    print::bytes(rt, lent);
    print::all(rt, counts);
}
