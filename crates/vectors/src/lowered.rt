// Questions for the crates `hir_types` and `methods`, and methods made by hand.
ghost use Rattle.input.specs.Left.{TakesFront};

use super::questions::Questions;
use super::{environments, print};
use lifetimes::{Lifetime, LifetimeEnv, MaybeStatic, set};
use methods::FieldLifetimes;
use records::MAX_LIST;

// A method made by hand: an environment made by hand as in environments.rt, and records structs, params, output, force.
#[derive(Clone, Copy)]
pub(crate) struct Method<'a> {
    pub(crate) env: LifetimeEnv,
    pub(crate) structs: &'a [usize],
    pub(crate) params: &'a [usize],
    pub(crate) output: &'a [usize],
    pub(crate) force: &'a [usize],
}

// A method made by hand.
pub(crate) fn made_by_hand<'a>(questions: &mut Questions<'a>) -> Method<'a>
    ensures left { TakesFront questions.old.left.now questions.new.left.now }
{
    let env = environments::made_by_hand(questions);
    let structs = questions.record();
    let params = questions.record();
    let output = questions.record();
    let force = questions.record();
    Method {
        env,
        structs,
        params,
        output,
        force,
    }
}

// Kind 10: a method made by hand. `check_method`: the refusal's number or 0. Then `used_method_lifetimes`: the
// refusal's number; or 0 and the set, ascending.
pub(crate) fn used_method_lifetimes(rt: &impl Print, questions: &mut Questions<'_>)
    ensures left { TakesFront questions.old.left.now questions.new.left.now }
{
    let m = made_by_hand(questions);
    let verdict = methods::check_method(m.env, m.structs, m.params, m.output, m.force);
    let used = methods::used_method_lifetimes(m.env, m.structs, m.params, m.output, m.force);
    print::first(rt, print::number_of(&verdict));
    print::next(rt, print::number_of(&used));
    print_members(rt, used.unwrap_or(set::EMPTY));
    print::end(rt);
}

// Kind 11: record structs, a row, a field. `compute_for_struct_field`: the refusal's number; or 0 and how many pairs
// there are, 0 for none, and they.
pub(crate) fn compute_for_struct_field(rt: &impl Print, questions: &mut Questions<'_>)
    ensures left { TakesFront questions.old.left.now questions.new.left.now }
{
    let structs = questions.record();
    let row = questions.number();
    let found = methods::compute_for_struct_field(structs, row, questions.number());
    print::first(rt, print::number_of(&found));
    if let Ok(lifetimes) = found {
        match lifetimes {
            None => print::next(rt, 0),
            Some(lifetimes) => print_pairs(rt, lifetimes),
        }
    }
    print::end(rt);
}

// The pairs of a field, with their number in front.
fn print_pairs(rt: &impl Print, lifetimes: FieldLifetimes) {
    print::next(rt, lifetimes.count);
    for pair in &lifetimes.pairs[..lifetimes.count.min(MAX_LIST)] {
        print::next(rt, pair.def.index());
        print::next(rt, pair.outer.index());
    }
}

// Kind 12: a record, a lowered type, and an index. `type_lifetimes`: the refusal's number; or 0, and 0 for none, 1 for
// a static lifetime, 2 and the number of another.
pub(crate) fn type_lifetimes(rt: &impl Print, questions: &mut Questions<'_>)
    ensures left { TakesFront questions.old.left.now questions.new.left.now }
{
    let words = questions.record();
    let found = hir_types::type_lifetimes(words, questions.number());
    print::first(rt, print::number_of(&found));
    if let Ok(lifetime) = found {
        match lifetime {
            None => print::next(rt, 0),
            Some(MaybeStatic::Static) => print::next(rt, 1),
            Some(MaybeStatic::NonStatic(lifetime)) => {
                print::next(rt, 2);
                print::next(rt, lifetime.index());
            }
        }
    }
    print::end(rt);
}

// The lifetimes of a set, ascending.
pub(crate) fn print_members(rt: &impl Print, members: u64) {
    for i in 0..set::CAPACITY {
        if set::contains(members, Lifetime::new(i)) {
            print::next(rt, i);
        }
    }
}
