// Questions for the crate `borrowing_param` that borrow a whole method.
ghost use Rattle.input.specs.Left.{TakesFront};

use super::questions::Questions;
use super::{lowered, print, rooms};
use answers::Refusal;
use borrowing_param::{Borrows, borrow_method};

// Kind 23: a method made by hand, and the record of how long the three lent slices are: used lifetimes, answers, edges.
// `borrow_method`: what it answers, and all words of the slices.
pub(crate) fn borrow(rt: &impl Print, questions: &mut Questions<'_>)
    ensures left { TakesFront questions.old.left.now questions.new.left.now }
{
    let m = lowered::made_by_hand(questions);
    let mut lengths = Questions {
        left: questions.record(),
    };
    // As in `called` and `exported`: a function that made the three arrays could not lend them to its caller.
    let mut used = rooms::words();
    let mut answers = rooms::words();
    let mut edges = rooms::edges();
    let used = &mut used[..lengths.number().min(rooms::WORDS)];
    let answers = &mut answers[..lengths.number().min(rooms::WORDS)];
    let edges = &mut edges[..lengths.number().min(rooms::EDGES)];
    let borrows = borrow_method(
        m.env, m.structs, m.params, m.output, m.force, used, answers, edges,
    );
    print_borrows(rt, borrows);
    print::all(rt, used);
    print::all(rt, answers);
    print::all(rt, edges);
    print::end(rt);
}

// The refusal's number or 0, and how many used lifetimes, parameters and edges there are; refused, none.
pub(crate) fn print_borrows(rt: &impl Print, borrows: Result<Borrows, Refusal>) {
    print::first(rt, print::number_of(&borrows));
    print::all(
        rt,
        &borrows.map_or([0; 3], |some| [some.used, some.params, some.edges]),
    );
}
