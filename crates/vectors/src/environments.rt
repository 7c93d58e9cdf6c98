// Questions for the crate `lifetimes`: an environment that is made, and one bound more; and what `none` gives, here and
// in the crate `ast_lifetimes`.
//
// A method's environment made by hand is asked for as: how many lifetimes are declared, how many there are, how many
// bounds are pushed, the record of pairs longer, shorter. The three numbers are taken as they are, beyond every limit
// too; what the record leaves of the bounds is 0 0.
ghost use Rattle.input.specs.Left.{TakesFront};

use super::questions::Questions;
use super::{ast, bounds, print};
use lifetimes::{Bounds, Lifetime, LifetimeEnv};

// Kind 17: how many lifetimes are declared, how many there are, and the record of pairs. `LifetimeEnv::new`: the
// refusal's number or 0, and the whole environment; refused, one of no lifetimes.
pub(crate) fn new(rt: &impl Print, questions: &mut Questions<'_>)
    ensures left { TakesFront questions.old.left.now questions.new.left.now }
{
    let declared = questions.number();
    let count = questions.number();
    let made = LifetimeEnv::new(declared, count, questions.record());
    print::first(rt, print::number_of(&made));
    print_environment(rt, made.unwrap_or(LifetimeEnv::none()));
    print::end(rt);
}

// Kind 18: an environment made by hand, and a bound, longer and shorter. `push_bound`: the refusal's number or 0, and
// the whole environment afterwards; refused, as it was. Behind it, of the longer one and of the shorter one, whether
// `get_bounds` of the environment as it was knows it.
pub(crate) fn push_bound(rt: &impl Print, questions: &mut Questions<'_>)
    ensures left { TakesFront questions.old.left.now questions.new.left.now }
{
    let env = made_by_hand(questions);
    let longer = Lifetime::new(questions.number());
    let shorter = Lifetime::new(questions.number());
    let pushed = env.push_bound(longer, shorter);
    print::first(rt, print::number_of(&pushed));
    print_environment(rt, pushed.unwrap_or(env));
    print::flag(rt, env.get_bounds(longer));
    print::flag(rt, env.get_bounds(shorter));
    print::end(rt);
}

// Kind 32, with nothing behind it: `Bounds::none`, how many bounds are pushed, and the bounds up to the last that is
// not 0 0, with their number in front; `LifetimeEnv::none`, and that of the crate `ast_lifetimes`, each as a whole.
pub(crate) fn none(rt: &impl Print) {
    let bounds = Bounds::none();
    print::first(rt, bounds.pushed);
    bounds::print_filled(rt, &bounds);
    print_environment(rt, LifetimeEnv::none());
    ast::print_whole(rt, ast_lifetimes::LifetimeEnv::none());
    print::end(rt);
}

// An environment made by hand.
pub(crate) fn made_by_hand(questions: &mut Questions<'_>) -> LifetimeEnv
    ensures left { TakesFront questions.old.left.now questions.new.left.now }
{
    let declared = questions.number();
    let count = questions.number();
    LifetimeEnv::from_bounds(declared, count, bounds::made_by_hand(questions))
}

// A whole environment: how many lifetimes are declared, how many there are, how many bounds are pushed, and the bounds
// up to the last that is not 0 0, with their number in front.
pub(crate) fn print_environment(rt: &impl Print, env: LifetimeEnv) {
    print::next(rt, env.declared);
    print::next(rt, env.count);
    print::next(rt, env.bounds.pushed);
    bounds::print_filled(rt, &env.bounds);
}
