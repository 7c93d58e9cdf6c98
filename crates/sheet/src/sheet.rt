// The call that reads a sheet and judges its records as far as their shape and `force` go.
//
// A refused call writes nothing, so the words are read into scratch, judged there, and copied once nothing can be
// refused any more. Scratch has four sizes, so that a small sheet does not pay for a large one.
ghost use Rattle.std.specs.Prelude.{◌≡◌, ◌*◌, ◌≤◌, length};
ghost use Rattle.answers.specs.Lent.{held, room, Fills};
ghost use Rattle.sheet.specs.Shape.{sheet_answer, sheet_words};
ghost use Rattle.records.specs.Reading.{most_words};
ghost use Rattle.sheet.specs.Text.{record_count};
ghost use Rattle.sheet.specs.Inner.{Roomy};

use super::reading::{Text, scan};
use super::record::Records;
use super::shapes::sheet_shape;
use answers::Refusal;
use records::copy_words;

// The four sizes: for sheets of 256, 1,024 and 4,096 bytes half as many words, since a word takes two bytes at least,
// and for any sheet the most words that there are.
const SMALL_WORDS: usize = Text::SMALL / 2;

const MIDDLE_WORDS: usize = Text::MIDDLE / 2;

const LARGE_WORDS: usize = Text::LARGE / 2;

const MOST_WORDS: usize = Text::MAX_WORDS;

// Read a sheet whose records are all in shape. The words of its ten records are written to a slice, one record after
// another; the answer says where each ends. Refused by 10 where the bytes are not the text of a sheet, then by 1 where
// a record has more than 1,024 words or is not in shape, then by 13 for 1 in `force`, then by 9 where the slice is too
// short. 10,240 words are always enough. Reads each byte once.
pub fn read_sheet(sheet: &[u8], words: &mut [usize]) -> Result<Text, Refusal>
    ensures answer { result ≡ sheet_answer sheet.now (room words) }
    ensures stored { Fills (sheet_words sheet.now (room words)) words }
{
    read_sized(sheet, words, Text::SMALL)
}

// The same with scratch for sheets of so many bytes, or of more where this sheet has more. That it calls itself keeps
// the arrays of the larger sizes out of the frame of the smaller ones: the compiler puts no large frame into that of a
// function that calls itself.
fn read_sized(sheet: &[u8], words: &mut [usize], bytes: usize) -> Result<Text, Refusal>
    ensures value { result ≡ sheet_answer sheet.now (room words) }
    ensures fills { Fills (sheet_words sheet.now (room words)) words }
{
    if bytes <= Text::SMALL {
        if sheet.len() <= Text::SMALL {
            return read_in::<SMALL_WORDS>(sheet, words);
        }
        return read_sized(sheet, words, Text::MIDDLE);
    }
    if bytes <= Text::MIDDLE {
        if sheet.len() <= Text::MIDDLE {
            return read_in::<MIDDLE_WORDS>(sheet, words);
        }
        return read_sized(sheet, words, Text::LARGE);
    }
    if sheet.len() <= Text::LARGE {
        return read_in::<LARGE_WORDS>(sheet, words);
    }
    read_in::<MOST_WORDS>(sheet, words)
}

// The same in scratch of one size.
// `Roomy` stays a clause, here and in the crates above: it speaks of a sheet and of the scratch beside it, and a struct
// that lends both would be taken apart at once.
fn read_in<const N: usize>(sheet: &[u8], words: &mut [usize]) -> Result<Text, Refusal>
    requires enough { Roomy sheet.now N }
    requires most { N ≤ record_count * most_words }
    ensures value { result ≡ sheet_answer sheet.now (room words) }
    ensures fills { Fills (sheet_words sheet.now (room words)) words }
{
    let mut scratch = [0usize; N];
    read_within(sheet, &mut scratch, words)
}

// The same with scratch that takes the words of any sheet of so many bytes.
fn read_within(sheet: &[u8], scratch: &mut [usize], words: &mut [usize]) -> Result<Text, Refusal>
    requires { Roomy sheet.now (length scratch.old) }
    ensures value { result ≡ sheet_answer sheet.now (room words) }
    ensures fills { Fills (sheet_words sheet.now (room words)) words }
{
    let text = scan(sheet, scratch)?;
    sheet_shape(Records::laid(scratch, text.ends))?;
    copy_words(scratch, text.ends[Text::FORCE], words)?;
    Ok(text)
}
