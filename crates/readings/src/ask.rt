// Asking: both calls of the crate `sheet`, or `respond` of the crate `listing`, each with a slice of its own.
ghost use Rattle.std.specs.Prelude.{◌≡◌, length};

use super::print;
use answers::Refusal;
use listing::{ROOM, respond};
use sheet::{Text, read_sheet, read_text};

// The longest slice that is lent for words.
const WORDS: usize = Text::MAX_WORDS;

// A word that no sheet has, so that each word that is written shows.
const UNWRITTEN: usize = Text::MAX_WORD + 1;

// What is printed as the ends of a refused text.
const NO_ENDS: [usize; Text::RECORDS] = [0; Text::RECORDS];

// A text asked about, by the kind of the question.
// The kinds are numbers and no enum: their names would stand twice, in the questions and here.
pub(crate) fn ask(rt: &impl Print, text: &[u8], kind: usize, length: usize) {
    match kind {
        1 => response(rt, text),
        _ => both(rt, text, length),
    }
}

// What the program answers to a text, behind a line with the number of its bytes.
fn response(rt: &impl Print, text: &[u8]) {
    let mut out = [0u8; ROOM];
    let n = respond(text, &mut out);
    print::counted(rt, &out[..n]);
}

// Room for words, none of them written.
fn unwritten() -> [usize; WORDS]
    ensures size { 10240 ≡ length result }
{
    [UNWRITTEN; WORDS]
}

// The line of a text: its bytes, then for `read_text` and for `read_sheet`, each lent so many words (at most 10,240),
// the refusal's number or 0, the ten ends, and the words of the lent slice up to the last that was written, with their
// number in front.
fn both(rt: &impl Print, text: &[u8], length: usize) {
    let n = length.min(WORDS);
    let mut words = unwritten();
    let lent = &mut words[..n];
    print::first(rt, text.len());
    let answer = read_text(text, lent);
    print_answer(rt, answer, lent);
    lent.fill(UNWRITTEN);
    let answer = read_sheet(text, lent);
    print_answer(rt, answer, lent);
    print::end(rt);
}

// What a call answered, and what it left in the slice.
fn print_answer(rt: &impl Print, answer: Result<Text, Refusal>, words: &[usize]) {
    let unwritten = words
        .iter()
        .rev()
        .take_while(|word| **word == UNWRITTEN)
        .count();
    let written = &words[..words.len() - unwritten];
    print::next(rt, print::number_of(&answer));
    print::all(rt, &answer.map_or(NO_ENDS, |text| text.ends));
    print::next(rt, written.len());
    print::all(rt, written);
}
