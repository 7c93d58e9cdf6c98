// The call that writes ten lent records.
//
// A refused call writes nothing, so the records are judged first; where the slice may be too short, the text is
// measured before it is written.
ghost use Rattle.std.specs.Prelude.{◌≡◌, leb, length};
ghost use Rattle.answers.specs.Refusals.{NoneDue};
ghost use Rattle.answers.specs.Lent.{counted, judged, held, room, Fills};
ghost use Rattle.sheet.specs.Text.{records_in, text};
ghost use Rattle.sheet_writer.specs.Writing.{write_checks, write_sheet};

use super::large::any_large;
use super::print::put_sheet;
use answers::Refusal;
use sheet::{Records, Text, sheet_shape};

// So many bytes take any sheet that is written: the heading, and for each word at most five digits and the byte behind
// them.
pub const MAX_WRITTEN: usize = Text::HEADING + 6 * Text::MAX_WORDS;

// Write the sheet of ten records to a slice. The answer is how many bytes it has. Refused by 10 for a word above 65535
// in any record, however long the record is; then by 1 where a record is not in shape or has more than 1,024 words;
// then by 13 for 1 in `force`; then by 9 where the slice is too short. Nothing else prevents writing, such as a name
// that is declared twice. `MAX_WRITTEN` bytes are always enough; with fewer the text is measured first.
pub fn write_sheet(records: Records, out: &mut [u8]) -> Result<usize, Refusal>
    ensures answer { result ≡ counted (write_sheet (records_in records.entry) (room out)) }
    ensures stored { Fills (write_sheet (records_in records.entry) (room out)) out }
{
    judge(records)?;
    let room = out.len();
    if !fits(room, records) {
        return Err(Refusal::NoRoom);
    }
    Ok(put_sheet(out, records))
}

// The first refusal of ten records, whatever room there is.
fn judge(records: Records) -> Result<(), Refusal>
    ensures { result ≡ judged (write_checks (records_in records.entry)) }
{
    if any_large(records) {
        return Err(Refusal::Unreadable);
    }
    sheet_shape(records)
}

// Whether the text of ten records that are not refused has at most `room` bytes.
fn fits(room: usize, records: Records) -> bool
    requires { NoneDue (write_checks (records_in records)) }
    ensures { result ≡ leb (length (text (records_in records.entry))) room }
{
    if MAX_WRITTEN <= room {
        return true;
    }
    let mut none = [0u8; 0];
    put_sheet(&mut none, records) <= room
}
