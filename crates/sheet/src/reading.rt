// The call that reads ten records of any words: judge and count first, then write.
ghost use Rattle.std.specs.Prelude.{cond, ◌≡◌, leb, drop, None, Some};
ghost use Rattle.std.proofs.lemmas.List.Edits.{sets};
ghost use Rattle.answers.specs.Refusals.{NoneDue};
ghost use Rattle.answers.specs.Lent.{held, room, left, Fills};
ghost use Rattle.sheet.specs.Text.{heading, words_of};
ghost use Rattle.sheet.specs.Reading.{strip_prefix, sheet_of, text_checks};
ghost use Rattle.sheet.specs.Answer.{measured, read_answer, read_words};

use super::lines::lines;
use answers::Refusal;
use records::MAX_WORDS;

// Where the words of each of the ten records of a text end, one record after another.
#[derive(Clone, Copy)]
pub struct Text {
    pub ends: [usize; Text::RECORDS],
}

impl Text {
    // How many bytes a sheet may have.
    pub const MAX_BYTES: usize = 65536;

    // So many bytes have sheets for which smaller scratch is kept: a word takes two bytes at least.
    pub const SMALL: usize = 256;

    pub const MIDDLE: usize = 1024;

    pub const LARGE: usize = 4096;

    // No word is above this.
    pub const MAX_WORD: usize = 65535;

    // How many words its records may have together.
    pub const MAX_WORDS: usize = Text::RECORDS * MAX_WORDS;

    // How many records it has, and the number of each.
    pub const RECORDS: usize = 10;

    pub const NAMES: usize = 0;

    pub const BOUNDS: usize = 1;

    pub const TYPES: usize = 2;

    pub const SELF: usize = 3;

    pub const STEPS: usize = 4;

    pub const RETURNS: usize = 5;

    pub const STRUCTS: usize = 6;

    pub const PARAMS: usize = 7;

    pub const OUTPUT: usize = 8;

    pub const FORCE: usize = 9;

    // How many bytes the heading line has.
    pub const HEADING: usize = 66;
}

// Read the text of a sheet, whatever the shape of its records. The words of its ten records are written to a slice, one
// record after another; the answer says where each ends. Refused by 10 where the bytes are not the text of a sheet,
// then by 1 for a record above 1,024 words, then by 9 where the slice is too short. 10,240 words are always enough.
// Reads each byte twice: once to judge and to count, once to write.
pub fn read_text(sheet: &[u8], words: &mut [usize]) -> Result<Text, Refusal>
    ensures answer { result ≡ read_answer sheet.now (room words) }
    ensures stored { Fills (read_words sheet.now (room words)) words }
{
    let text = measure(sheet)?;
    if !write_all(sheet, text.ends[Text::FORCE], words) {
        return Err(Refusal::NoRoom);
    }
    Ok(text)
}

// Judge a text and count its words, without writing any. Refused by 10, then by 1.
fn measure(sheet: &[u8]) -> Result<Text, Refusal>
    ensures { result ≡ measured sheet.now }
{
    let mut unused = [0usize; 1];
    scan(sheet, &mut unused)
}

// The same, and the words of an accepted text are left in scratch, one record after another, as far as it goes.
pub(crate) fn scan(sheet: &[u8], scratch: &mut [usize]) -> Result<Text, Refusal>
    ensures value { result ≡ measured sheet.now }
    ensures scratch_value { NoneDue (text_checks sheet.now) → left scratch
        ≡ sets (held scratch) 0 (words_of (sheet_of sheet.now)) }
{
    if Text::MAX_BYTES < sheet.len() {
        return Err(Refusal::Unreadable);
    }
    if !headed(sheet) {
        return Err(Refusal::Unreadable);
    }
    lines(sheet, Text::HEADING, scratch)
}

// Write the words of an accepted text, `count` of them, where the slice takes them all; else none. Says whether it
// does.
// A bool and no Result: by it the contract says which of two things the slice holds.
fn write_all(sheet: &[u8], count: usize, words: &mut [usize]) -> bool
    requires { NoneDue (text_checks sheet.now) }
    ensures value { result ≡ leb count (room words) }
    ensures words_value { left words ≡ cond result (sets (held words) 0 (words_of (sheet_of sheet.now))) (held words) }
{
    let fits = count <= words.len();
    if fits {
        write(sheet, words);
    }
    fits
}

// Write the words of an accepted text, one record after another, as far as the slice goes.
fn write(sheet: &[u8], words: &mut [usize])
    requires { NoneDue (text_checks sheet.now) }
    ensures { left words ≡ sets (held words) 0 (words_of (sheet_of sheet.now)) }
{
    let _ = lines(sheet, Text::HEADING, words);
}

// Whether the first line is the heading. All its bytes are compared: without an early end the compiler compares many at
// a time.
fn headed(bytes: &[u8]) -> bool
    ensures { strip_prefix heading bytes.now ≡ cond result (Some (drop 66 bytes.now)) None }
{
    let line = b"names bounds types self steps returns structs params output force\n";
    if bytes.len() < Text::HEADING {
        return false;
    }
    let mut same = true;
    for i in 0..Text::HEADING {
        same &= bytes[i] == line[i];
    }
    same
}
