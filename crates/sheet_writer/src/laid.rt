// Writing records that stand one after another in a slice, as reading a sheet gives them.
ghost use Rattle.std.specs.Prelude.{◌≡◌, length};
ghost use Rattle.answers.specs.Lent.{counted, held, room, Fills};
ghost use Rattle.sheet.specs.Text.{record_count};
ghost use Rattle.sheet_writer.specs.Laid.{ascend_to, are_ends, write_laid};

use super::write::write_sheet;
use answers::Refusal;
use sheet::{Records, Text};

// Write the sheet of ten records whose words stand one record after another; `ends` says where each ends. Refused by 1
// where these are not ten ends, where they do not ascend, or where one is past the words: there are no ten records
// then. Else as `write_sheet` writes the ten. Words behind the last end are not looked at.
pub fn write_laid(words: &[usize], ends: &[usize], out: &mut [u8]) -> Result<usize, Refusal>
    ensures answer { result ≡ counted (write_laid words.now ends.now (room out)) }
    ensures stored { Fills (write_laid words.now ends.now (room out)) out }
{
    if !are_ends(words.len(), ends) {
        return Err(Refusal::Malformed);
    }
    write_sheet(Records::laid(words, ten_of(ends)), out)
}

// Whether these are ten ends of records in so many words.
fn are_ends(count: usize, ends: &[usize]) -> bool
    ensures { result ≡ are_ends count ends.now }
{
    if ends.len() != Text::RECORDS {
        return false;
    }
    ascend(count, ends)
}

// Whether ends ascend, to so many words at most.
fn ascend(count: usize, ends: &[usize]) -> bool
    ensures { result ≡ ascend_to count 0 ends.now }
{
    let mut from = 0;
    for end in ends {
        if *end < from {
            return false;
        }
        from = *end;
    }
    from <= count
}

// Ten ends as an array.
fn ten_of(ends: &[usize]) -> [usize; Text::RECORDS]
    requires { length ends.now ≡ record_count }
    ensures { result ≡ ends.now }
{
    let mut ten = [0usize; Text::RECORDS];
    ten.copy_from_slice(ends);
    ten
}
