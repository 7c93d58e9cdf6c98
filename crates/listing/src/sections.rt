// The sections of a listing, each its heading and its lines.
//
// Each is lent the slice and told the place, and answers the place behind its text, as the printers of `text` that it
// calls: a struct of the two would be taken apart at each of those calls.
ghost use Rattle.std.specs.Prelude.{length};
ghost use mathlib.Core.List.{◌++◌, flat_map};
ghost use Rattle.answers.specs.Lent.{held, left};
ghost use Rattle.text.specs.Decimal.{line};
ghost use Rattle.text.specs.Printing.{Prints};
ghost use Rattle.listing.specs.Listing.{lowered_heading, longer_heading};
ghost use Rattle.listing.specs.Listing.{answer_lines_from, answer_lines};
ghost use Rattle.listing.specs.Listing.{edge_line, edge_lines};
ghost use Rattle.listing.specs.InnerSections.{list_lines, cut_from, Ascend, edges_of_words};

use borrowing_param::BorrowingParamVisitor;
use text::{put_following, put_line, put_number, put_text};

// A heading and a line of numbers: how many there are of each, or a refusal.
pub(crate) fn put_headed(out: &mut [u8], at: usize, heading: &[u8], numbers: &[usize]) -> usize
    ensures { Prints (heading.now ++ line numbers.now) at (held out) result (left out) }
{
    let next = put_text(out, at, heading);
    put_line(out, next, numbers)
}

// The lowered words of self, steps and returns.
pub(crate) fn put_lowered(
    out: &mut [u8],
    at: usize,
    own: &[usize],
    given: &[usize],
    taken: &[usize],
) -> usize
    ensures { Prints (lowered_heading ++ (line own.now ++ (line given.now ++ line taken.now)))
        at (held out) result (left out) }
{
    let first = put_text(out, at, b"lowered\n");
    let second = put_line(out, first, own);
    let third = put_line(out, second, given);
    put_line(out, third, taken)
}

// Each lifetime and its list: the lists stand one after another in a slice, and another says where each ends.
// That the ends ascend stays a clause: it speaks of two slices, as `all_lists` writes them.
pub(crate) fn put_longer(out: &mut [u8], at: usize, words: &[usize], ends: &[usize]) -> usize
    requires { Ascend 0 (length words.now) ends.now }
    ensures { Prints (longer_heading ++ list_lines 0 (cut_from 0 words.now ends.now)) at (held out) result (left out) }
{
    let next = put_text(out, at, b"lifetime longer\n");
    put_numbered(out, next, words, ends)
}

// The lines of numbered lists.
fn put_numbered(out: &mut [u8], at: usize, words: &[usize], ends: &[usize]) -> usize
    requires { Ascend 0 (length words.now) ends.now }
    ensures { Prints (list_lines 0 (cut_from 0 words.now ends.now)) at (held out) result (left out) }
{
    let mut next = at;
    let mut from = 0;
    for (number, to) in ends.iter().enumerate() {
        let start = put_number(out, next, number);
        next = put_following(out, start, &words[from..*to]);
        from = *to;
    }
    next
}

// Each parameter and the number of its answer.
pub(crate) fn put_answers(out: &mut [u8], at: usize, answers: &[usize]) -> usize
    ensures { Prints (answer_lines answers.now) at (held out) result (left out) }
{
    let next = put_text(out, at, b"param answer\n");
    put_each_answer(out, next, answers)
}

fn put_each_answer(out: &mut [u8], at: usize, answers: &[usize]) -> usize
    ensures { Prints (answer_lines_from 0 answers.now) at (held out) result (left out) }
{
    let mut next = at;
    for (param, answer) in answers.iter().enumerate() {
        next = put_line(out, next, &[param, *answer]);
    }
    next
}

// Each edge, by the values that stand for it.
pub(crate) fn put_edges(out: &mut [u8], at: usize, edges: &[usize]) -> usize
    ensures { Prints (edge_lines (edges_of_words edges.now)) at (held out) result (left out) }
{
    let next = put_text(out, at, b"used param kind def option\n");
    put_each_edge(out, next, edges)
}

fn put_each_edge(out: &mut [u8], at: usize, edges: &[usize]) -> usize
    ensures { Prints (flat_map edge_line (edges_of_words edges.now)) at (held out) result (left out) }
{
    let mut next = at;
    for edge in edges.chunks_exact(BorrowingParamVisitor::EDGE_WORDS) {
        next = put_line(out, next, edge);
    }
    next
}
