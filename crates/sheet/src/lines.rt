// The words of a line, and of ten lines.
//
// Words are stored as far as the slice goes, so that the same reading counts (with a slice of one word) and writes.
ghost use Rattle.std.specs.Prelude.{◌≤◌, ◌≡◌, set};
ghost use Rattle.answers.specs.Lent.{held, left};
ghost use Rattle.sheet.specs.Text.{record_count};
ghost use Rattle.sheet.specs.Inner.{LineRead, LinesStored, lines_answer};

use super::reading::Text;
use answers::Refusal;
use records::MAX_WORDS;
use text::read_number;

// The place behind a line, and how many words are read so far.
#[derive(Clone, Copy)]
struct LineEnd {
    at: usize,
    count: usize,
}

// Store a word, where the slice has the place.
// elision has these three lines too: a public function for them, with its contract, would be no plainer.
fn put(words: &mut [usize], at: usize, word: usize)
    ensures { left words ≡ set (held words) at word }
{
    if at < words.len() {
        words[at] = word;
    }
}

// The line that starts at a place; its words are stored from `to` on. None at the end of the bytes, and where they
// cannot be read.
fn line(bytes: &[u8], from: usize, words: &mut [usize], to: usize) -> Option<LineEnd>
    requires { to ≤ from }
    ensures { LineRead bytes.now from (held words) (left words) to result }
{
    let n = bytes.len();
    if n <= from {
        return None;
    }
    let mut at = from;
    let mut count = to;
    if bytes[at] == b'\n' {
        at += 1;
        return Some(LineEnd { at, count });
    }
    loop {
        let found = read_number(bytes, at, Text::MAX_WORD)?;
        if n <= found.at {
            return None;
        }
        let b = bytes[found.at];
        put(words, count, found.value);
        count += 1;
        at = found.at + 1;
        if b == b'\n' {
            return Some(LineEnd { at, count });
        }
        if b != b' ' {
            return None;
        }
    }
}

// Read ten lines, from a place on to the end of the bytes: where each one's words end. The words are stored from the
// front. Refused by 10 where the bytes are not ten lines, then by 1 for a line above 1,024 words.
pub(crate) fn lines(bytes: &[u8], from: usize, words: &mut [usize]) -> Result<Text, Refusal>
    ensures value { result ≡ lines_answer bytes.now from }
    ensures words_value { LinesStored bytes.now from (held words) (left words) }
{
    let mut at = from;
    let mut count = 0;
    let mut short = true;
    let mut ends = [0usize; Text::RECORDS];
    for i in 0..Text::RECORDS {
        let line = line(bytes, at, words, count).ok_or(Refusal::Unreadable)?;
        short &= line.count - count <= MAX_WORDS;
        at = line.at;
        count = line.count;
        ends[i] = count;
    }
    if at < bytes.len() {
        return Err(Refusal::Unreadable);
    }
    if !short {
        return Err(Refusal::Malformed);
    }
    Ok(Text { ends })
}
