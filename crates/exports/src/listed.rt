// A sheet's listing, with its length in a word beside it.
ghost use Rattle.answers.specs.Lent.{held, room};
ghost use Rattle.exports.specs.Calls.{listing_to, TextAnswers};

use super::unplaced::unplaced;
use listing::listing;

// Write the listing of a sheet to the first slice and its length in bytes to the first word of the second. Refused as
// the sheet is (10; 1 over all records; 13; 2 to 7 at the first bad place; 8), then by 9 for more than 4,096 edges,
// where the first slice is too short, or where the second has no word. 131,072 bytes and one word are always enough.
pub fn borrows_listing(sheet: &[u8], out: &mut [u8], written: &mut [usize]) -> usize
    ensures answer { TextAnswers (listing_to sheet.now (room out) (room written)) result out written }
{
    if written.is_empty() {
        return unplaced(listing(sheet, &mut [])).number();
    }
    match listing(sheet, out) {
        Ok(count) => {
            written[0] = count;
            0
        }
        Err(refusal) => refusal.number(),
    }
}
