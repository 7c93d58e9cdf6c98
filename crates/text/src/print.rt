// Printing: texts, numbers and lines of words into a slice of bytes.
//
// Each printer stores its text from a place on, as far as the slice goes, and answers the place behind the text, at
// most `usize::MAX`. A slice ends there at the latest, so a place behind a byte that was stored is never held to that.
// Slice and place are no struct: the answer is the next place.
ghost use Rattle.std.specs.Prelude.{◌+◌, ◌-◌, ◌^◌, min, ◌≡◌, [], ◌∷◌, length, replicate};
ghost use Rattle.std.proofs.lemmas.List.Edits.{sets};
ghost use Rattle.answers.specs.Lent.{held, left};
ghost use Rattle.text.specs.Decimal.{space, digits, padded, following, line};
ghost use Rattle.text.specs.Printing.{behind, Prints};

// One byte.
fn put(out: &mut [u8], at: usize, byte: u8) -> usize
    ensures { Prints (byte ∷ []) at (held out) result (left out) }
{
    if at < out.len() {
        out[at] = byte;
        return at + 1;
    }
    at.saturating_add(1)
}

// A text.
pub fn put_text(out: &mut [u8], at: usize, text: &[u8]) -> usize
    ensures answer { result ≡ behind at text.now }
    ensures stored { left out ≡ sets (held out) at text.now }
{
    let n = text.len().min(out.len().saturating_sub(at));
    // Byte by byte, here and below: the place may be behind the slice's end, where no part of it can be lent to the
    // library's copying.
    for i in 0..n {
        out[at + i] = text[i];
    }
    at.saturating_add(text.len())
}

// So many blanks.
fn put_blanks(out: &mut [u8], at: usize, count: usize) -> usize
    ensures { Prints (replicate count space) at (held out) result (left out) }
{
    let n = count.min(out.len().saturating_sub(at));
    for i in 0..n {
        out[at + i] = b' ';
    }
    at.saturating_add(count)
}

// A number digit by digit.
fn put_digits(out: &mut [u8], at: usize, number: usize) -> usize
    ensures { Prints (digits number) at (held out) result (left out) }
{
    if number < 10 {
        return put(out, at, b'0' + number as u8);
    }
    let next = put_digits(out, at, number / 10);
    put(out, next, b'0' + (number % 10) as u8)
}

// A number in decimal, without leading noughts.
pub fn put_number(out: &mut [u8], at: usize, number: usize) -> usize
    ensures answer { result ≡ behind at (digits number) }
    ensures stored { left out ≡ sets (held out) at (digits number) }
{
    if number < 10 {
        return put(out, at, b'0' + number as u8);
    }
    if number < 100 {
        let next = put(out, at, b'0' + (number / 10) as u8);
        return put(out, next, b'0' + (number % 10) as u8);
    }
    put_digits(out, at, number)
}

// A number at the right of a column: blanks in front, up to the width. A number with more digits is printed whole.
pub fn put_padded(out: &mut [u8], at: usize, number: usize, width: usize) -> usize
    ensures answer { result ≡ behind at (padded width number) }
    ensures stored { left out ≡ sets (held out) at (padded width number) }
{
    let mut none = [0u8; 0];
    let count = put_number(&mut none, 0, number);
    let next = put_blanks(out, at, width.saturating_sub(count));
    put_number(out, next, number)
}

// A word behind a space; before `safe` there is room for it and for two digits.
fn put_word(out: &mut [u8], at: usize, word: usize, safe: usize) -> usize
    requires { safe ≡ length out.old - 2 }
    ensures { Prints (space ∷ digits word) at (held out) result (left out) }
{
    if safe <= at {
        let next = put(out, at, b' ');
        return put_digits(out, next, word);
    }
    out[at] = b' ';
    if word < 10 {
        out[at + 1] = b'0' + word as u8;
        return at + 2;
    }
    if word < 100 {
        out[at + 1] = b'0' + (word / 10) as u8;
        out[at + 2] = b'0' + (word % 10) as u8;
        return at + 3;
    }
    put_digits(out, at + 1, word)
}

// The words that follow in a line, each behind a space, and the line's end.
pub fn put_following(out: &mut [u8], at: usize, words: &[usize]) -> usize
    ensures answer { result ≡ behind at (following words.now) }
    ensures stored { left out ≡ sets (held out) at (following words.now) }
{
    let safe = out.len().saturating_sub(2);
    let mut to = at;
    for word in words {
        to = put_word(out, to, *word, safe);
    }
    put(out, to, b'\n')
}

// A line of words; an empty one is a line's end alone.
pub fn put_line(out: &mut [u8], at: usize, words: &[usize]) -> usize
    ensures answer { result ≡ behind at (line words.now) }
    ensures stored { left out ≡ sets (held out) at (line words.now) }
{
    if words.is_empty() {
        return put(out, at, b'\n');
    }
    let next = put_number(out, at, words[0]);
    put_following(out, next, &words[1..])
}
