// The static library for C and Rust: the three calls of the crate `exports` with C's calling convention, under the
// names that include/borrows.h declares. A slice is a pointer, then a length. Each call promises what that of `exports`
// does.
#![tactic(auto)]

ghost use Rattle.answers.specs.Lent.{room};
ghost use Rattle.exports.specs.Calls.{listing_to, sheet_to, writing_to, SheetAnswers, TextAnswers};

#[unsafe(no_mangle)]
pub extern "C" fn borrows_listing(sheet: &[u8], out: &mut [u8], written: &mut [usize]) -> usize
    ensures answer { TextAnswers (listing_to sheet.now (room out) (room written)) result out written }
{
    exports::borrows_listing(sheet, out, written)
}

#[unsafe(no_mangle)]
pub extern "C" fn borrows_sheet(
    sheet: &[u8],
    used: &mut [usize],
    answers: &mut [usize],
    edges: &mut [usize],
    counts: &mut [usize],
) -> usize
    ensures answer { SheetAnswers (sheet_to sheet.now (room used) (room answers) (room edges) (room counts)) result
        used answers edges counts }
{
    exports::borrows_sheet(sheet, used, answers, edges, counts)
}

#[unsafe(no_mangle)]
pub extern "C" fn borrows_write_sheet(
    words: &[usize],
    ends: &[usize],
    out: &mut [u8],
    written: &mut [usize],
) -> usize
    ensures answer { TextAnswers (writing_to words.now ends.now (room out) (room written)) result
        out written }
{
    exports::borrows_write_sheet(words, ends, out, written)
}
