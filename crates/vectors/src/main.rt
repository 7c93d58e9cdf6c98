// The probe: a program that answers questions about the library's calls. The gate replays questions whose answers the
// scope paper ("01"), the Rust, and for calls that neither has the definitions gave; compare/run asks it for what the
// program `borrows` does not list.
//
// Standard input holds numbers, at most 524,288 bytes of them. A question is its kind and what the kind asks for; a
// record in it is the number of its words, then they. Each answer is a line of numbers on standard output. The files
// stdin and stdout beside src/ are made by tests/vectors.py.
//
// To add a kind: a function in the module of its crate that takes the question off the front and prints one line; a
// line in `answer` below; question and answer in tests/model/questions.py; cases in tests/vectors.py.
#![tactic(auto)]

mod ast;
mod borrows;
mod bounds;
mod environments;
mod lowered;
mod lowerer;
mod lowering;
mod print;
mod questions;
mod reach;
mod rooms;
mod scan;
mod sheets;
mod texts;
mod visits;
mod words;
mod writes;

ghost use Rattle.std.specs.Prelude.{◌≡◌, length};
ghost use Rattle.input.specs.Left.{TakesFront};

use ast_lifetimes::{bounds_shape, names_shape, types_shape};
use elision::{self_shape, steps_shape};
use input::{read_input, room};
use questions::Questions;

// Print the answer to the first question, whose kind is read. Behind a kind that is not known all is taken off, so that
// the answers stop. The kinds are numbers and no enum: their names would stand twice, there and here.
fn answer(rt: &impl Print, kind: usize, questions: &mut Questions<'_>)
    ensures left { TakesFront questions.old.left.now questions.new.left.now }
{
    match kind {
        1 => ast::from_method_item(rt, questions),
        // A record, and its shape: names, bounds, types; self, and steps or returns.
        2 => print::verdict(rt, names_shape(questions.record())),
        3 => print::verdict(rt, bounds_shape(questions.record())),
        4 => print::verdict(rt, types_shape(questions.record())),
        8 => print::verdict(rt, self_shape(questions.record())),
        9 => print::verdict(rt, steps_shape(questions.record())),
        5 => ast::lists(rt, questions),
        6 => ast::extend_implicit_lifetime_bounds(rt, questions),
        7 => lowering::lower(rt, questions),
        10 => lowered::used_method_lifetimes(rt, questions),
        11 => lowered::compute_for_struct_field(rt, questions),
        12 => lowered::type_lifetimes(rt, questions),
        13 => visits::visit_params(rt, questions),
        14 => lowerer::step(rt, questions),
        15 => lowerer::finish(rt, questions),
        16 => reach::all_lists(rt, questions),
        17 => environments::new(rt, questions),
        18 => environments::push_bound(rt, questions),
        19 => words::list(rt, questions),
        20 => words::word(rt, questions),
        21 => lowerer::start(rt, questions),
        22 => lowerer::input_then_output(rt, questions),
        23..=26 => answer_large(rt, kind, questions),
        27 => visits::edge(rt, questions),
        28 => texts::put(rt, questions),
        29 => texts::read(rt, questions),
        30 => visits::from_sets(rt, questions),
        31 => bounds::check(rt, questions),
        32 => environments::none(rt),
        33 => writes::ten(rt, questions),
        34 => writes::laid(rt, questions),
        _ => questions.left = &[],
    }
}

// Print the answer to a question of the kinds that are lent the most. It stands by itself: in `answer` each question,
// of whatever kind, would pay at entry for these arrays.
fn answer_large(rt: &impl Print, kind: usize, questions: &mut Questions<'_>)
    ensures left { TakesFront questions.old.left.now questions.new.left.now }
{
    match kind {
        23 => borrows::borrow(rt, questions),
        24 => sheets::lower(rt, questions),
        25 => sheets::borrow(rt, questions),
        _ => sheets::list(rt, questions),
    }
}

// Print the answers to all questions. Each has its kind, so that there are no more of them than numbers.
fn answer_all(rt: &impl Print, words: &[usize]) {
    let mut questions = Questions { left: words };
    for _ in words {
        // None is the end of the questions.
        let Some(kind) = questions.left.split_off_first() else {
            return;
        };
        answer(rt, *kind, &mut questions);
    }
}

// How many bytes of questions are read.
const BYTES: usize = 524288;

// How many numbers: every other byte may be one.
const NUMBERS: usize = 262144;

// Room for the bytes that are read.
fn room_for_bytes() -> [u8; BYTES]
    ensures size { 524288 ≡ length result }
{
    room(0)
}

// Room for their numbers.
fn room_for_numbers() -> [usize; NUMBERS]
    ensures size { 262144 ≡ length result }
{
    room(0)
}

fn main(rt: HostRuntime) {
    let mut bytes = room_for_bytes();
    let mut stdin = rt.stdin();
    let n = read_input(&mut stdin, &mut bytes).count;
    let mut words = room_for_numbers();
    let count = scan::numbers(&bytes[..n], &mut words);
    answer_all(&rt, &words[..count]);
}
