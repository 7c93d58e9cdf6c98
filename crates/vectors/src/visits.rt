// Questions for the crate `borrowing_param`.
ghost use Rattle.input.specs.Left.{TakesFront};

use super::questions::Questions;
use super::{lowered, print, rooms, words};
use answers::Refusal;
use borrowing_param::{BorrowingParamVisitor, ParamBorrowInfo, edge_at};
use lifetimes::{LifetimeEnv, set};

// Kind 13: a method made by hand, how many words the lent slice has, at most 20,480, and the record of the params to
// visit. The number of `new` if it refuses; else 0, for each visit what it answers, then how many edges are stored and
// all words of the slice, which were 99.
pub(crate) fn visit_params(rt: &impl Print, questions: &mut Questions<'_>)
    ensures left { TakesFront questions.old.left.now questions.new.left.now }
{
    let m = lowered::made_by_hand(questions);
    let length = questions.number();
    let visits = questions.record();
    let created = BorrowingParamVisitor::new(m.env, m.structs, m.params, m.output, m.force);
    print::first(rt, print::number_of(&created));
    if let Ok(visitor) = created {
        print_visits(rt, visitor, m.structs, m.params, visits, length);
    }
    print::end(rt);
}

// What each visit answers, all of them lent one slice of this length; then how many edges are stored, and all words of
// the slice.
fn print_visits(
    rt: &impl Print,
    first: BorrowingParamVisitor,
    structs: &[usize],
    params: &[usize],
    visits: &[usize],
    length: usize,
) {
    let mut edges = rooms::edges();
    let edges = &mut edges[..length.min(rooms::EDGES)];
    let mut visitor = first;
    for param in visits {
        let visited = visitor.visit_param(structs, params, *param, edges);
        print_info(rt, visited.info);
        visitor = visited.visitor;
    }
    print::next(rt, visitor.stored);
    print::all(rt, edges);
}

// What a visit answers: the refusal's number or 0, the answer's number, and of how many definition lifetimes there are
// pairs; for each of these it, how many used lifetimes it has, and they. Refused, the other two are 0.
fn print_info(rt: &impl Print, answer: Result<ParamBorrowInfo, Refusal>) {
    print::next(rt, print::number_of(&answer));
    let info = answer.unwrap_or(ParamBorrowInfo {
        number: 0,
        pairs: [set::EMPTY; ParamBorrowInfo::MAX_DEFS],
    });
    print::next(rt, info.number);
    print::next(
        rt,
        info.pairs
            .iter()
            .filter(|used| **used != set::EMPTY)
            .count(),
    );
    for (def, used) in info.pairs.iter().enumerate() {
        if *used != set::EMPTY {
            print::next(rt, def);
            print::next(rt, set::count(*used));
            lowered::print_members(rt, *used);
        }
    }
}

// Kind 27: a record of words, and a place. `edge_at`: 0 for none; or 1 and the values of the edge.
pub(crate) fn edge(rt: &impl Print, questions: &mut Questions<'_>)
    ensures left { TakesFront questions.old.left.now questions.new.left.now }
{
    let edges = questions.record();
    match edge_at(edges, questions.number()) {
        None => print::first(rt, 0),
        Some(edge) => {
            print::first(rt, 1);
            print::all(
                rt,
                &[edge.used, edge.param, edge.kind, edge.def, edge.option],
            );
        }
    }
    print::end(rt);
}

// Kind 30: a record of lifetimes, of which those below 64 are used, and a record of sets, one for each lifetime from 0
// on, each as a number; the first 64 are taken, and the others are empty. `BorrowingParamVisitor::from_sets`: the set
// of the used lifetimes as a number, how many edges are stored, and the drawn sets up to the last that is not empty,
// with their number in front.
pub(crate) fn from_sets(rt: &impl Print, questions: &mut Questions<'_>)
    ensures left { TakesFront questions.old.left.now questions.new.left.now }
{
    let used = words::set_of(questions.record());
    let mut sets = [set::EMPTY; LifetimeEnv::MAX_LIFETIMES];
    for (set, number) in sets.iter_mut().zip(questions.record()) {
        *set = *number as u64;
    }
    let visitor = BorrowingParamVisitor::from_sets(used, &sets);
    print::first(rt, visitor.used as usize);
    print::next(rt, visitor.stored);
    print_drawn(rt, &visitor.draws);
    print::end(rt);
}

// The drawn sets up to the last that is not empty, with their number in front.
fn print_drawn(rt: &impl Print, draws: &[u64]) {
    let empty = draws
        .iter()
        .rev()
        .take_while(|set| **set == set::EMPTY)
        .count();
    let drawn = &draws[..draws.len() - empty];
    print::next(rt, drawn.len());
    for set in drawn {
        print::next(rt, *set as usize);
    }
}
