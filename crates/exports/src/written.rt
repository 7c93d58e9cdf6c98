// A sheet written from records one after another, with its length in a word beside it.
ghost use Rattle.answers.specs.Lent.{held, room};
ghost use Rattle.exports.specs.Calls.{writing_to, TextAnswers};

use super::unplaced::unplaced;
use sheet_writer::write_laid;

// Write the sheet of ten records to the third slice and its length in bytes to the first word of the fourth. The words
// of the records stand one record after another in the first; the second says where each ends. Refused by 1 where these
// are not ten ends, ascending, none past the words; then by 10 for a word above 65535 in any record, however long it
// is; then by 1 where a record is not in shape; then by 13 for 1 in `force`; then by 9 where the third slice is too
// short or the fourth has no word. 61,506 bytes and one word are always enough.
pub fn borrows_write_sheet(
    words: &[usize],
    ends: &[usize],
    out: &mut [u8],
    written: &mut [usize],
) -> usize
    ensures answer { TextAnswers (writing_to words.now ends.now (room out) (room written)) result
        out written }
{
    if written.is_empty() {
        return unplaced(write_laid(words, ends, &mut [])).number();
    }
    match write_laid(words, ends, out) {
        Ok(count) => {
            written[0] = count;
            0
        }
        Err(refusal) => refusal.number(),
    }
}
