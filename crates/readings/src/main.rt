// The readings replayed: what the crates `sheet` and `listing` answer to bytes, beside what the scope paper ("01")
// says.
//
// Standard input holds questions, at most 262,144 bytes of them. A question is a LF, its kind, the length of the lent
// slice, and how many pieces the text has; then the pieces. A piece is how many times it stands in the text, and how
// many bytes it has; then exactly these bytes, whatever they are. Behind each number stands one byte, a blank or a LF.
// Kind 0 asks `read_text` and `read_sheet`; its answer is a line of numbers on standard output. Kind 1 asks `respond`,
// whose slice has one length only; its answer is a line with the number of the response's bytes, then these bytes. The
// files stdin and stdout beside src/ are made by tests/readings.py.
#![tactic(auto)]

mod ask;
mod pieces;
mod print;
mod questions;

ghost use Rattle.std.specs.Prelude.{◌≡◌, length};
ghost use Rattle.input.specs.Left.{TakesFront};

use input::{read_input, room};
use questions::Questions;

// Print the answer to the first question, whose LF is read, with room for its text.
fn answer(rt: &impl Print, questions: &mut Questions<'_>, text: &mut [u8])
    ensures left { TakesFront questions.old.left.now questions.new.left.now }
{
    let kind = questions.number();
    let length = questions.number();
    let count = questions.number();
    let size = pieces::lay_all(questions, count, text);
    ask::ask(rt, &text[..size], kind, length);
}

// Print the answers to all questions.
fn answer_all(rt: &impl Print, bytes: &[u8], text: &mut [u8]) {
    let mut questions = Questions { left: bytes };
    while let Some(_) = questions.left.split_off_first() {
        answer(rt, &mut questions, text);
    }
}

// How many bytes of questions are read.
const BYTES: usize = 262144;

// How many a text has room for: more than any sheet may have.
const TEXT: usize = 69632;

// Room for the bytes that are read.
fn room_for_bytes() -> [u8; BYTES]
    ensures size { 262144 ≡ length result }
{
    room(0)
}

// Room for a text.
fn room_for_text() -> [u8; TEXT]
    ensures size { 69632 ≡ length result }
{
    room(0)
}

fn main(rt: HostRuntime) {
    let mut bytes = room_for_bytes();
    let mut stdin = rt.stdin();
    let n = read_input(&mut stdin, &mut bytes).count;
    let mut text = room_for_text();
    answer_all(&rt, &bytes[..n], &mut text);
}
