// What a sheet's wrapper has to hold on to, with the numbers of words in a slice beside it.
ghost use Rattle.answers.specs.Lent.{room};
ghost use Rattle.exports.specs.Calls.{sheet_to, SheetAnswers};

use super::unplaced::unplaced;
use borrowing_param::borrow_sheet;

// Write a sheet's used lifetimes, ascending, to the first slice; the number of each parameter's answer to the second;
// the edges, five words each in listing order, to the third; and to the fourth how many lifetimes, parameters and edges
// these are. Refused as the sheet is (10; 1 over all records; 13; 2 to 7 at the first bad place; 8), then by 9 where a
// slice is too short. 34, 16, 43,520 and 3 words are always enough.
pub fn borrows_sheet(
    sheet: &[u8],
    used: &mut [usize],
    answers: &mut [usize],
    edges: &mut [usize],
    counts: &mut [usize],
) -> usize
    ensures answer { SheetAnswers (sheet_to sheet.now (room used) (room answers) (room edges) (room counts)) result
        used answers edges counts }
{
    if counts.len() < 3 {
        return unplaced(borrow_sheet(sheet, &mut [], &mut [], &mut [])).number();
    }
    match borrow_sheet(sheet, used, answers, edges) {
        Ok(borrows) => {
            counts[..3].copy_from_slice(&[borrows.used, borrows.params, borrows.edges]);
            0
        }
        Err(refusal) => refusal.number(),
    }
}
