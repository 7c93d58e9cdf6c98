// Questions for the crate `ast_lifetimes`.
//
// An environment made by hand is asked for as: how many names are declared, the record of names, how many bounds are
// pushed, the record of pairs longer, shorter by number. The two counts are taken as they are, beyond every limit too;
// what the records leave of the arrays is 0.
ghost use Rattle.input.specs.Left.{TakesFront};

use super::questions::Questions;
use super::{bounds, print, rooms};
use answers::Refusal;
use ast_lifetimes::LifetimeEnv;
use lifetimes::Bounds;

// The longest slice that is lent for a list of names: more than the 32 words that one may have.
const ROOM: usize = 40;

// Kind 1: records names, bounds, types. `from_method_item`: the refusal's number; or 0, how many names and how many
// bounds there are, the bounds, and for each name the list of those that outlive it and the list of those that it
// outlives, each with its length in front.
pub(crate) fn from_method_item(rt: &impl Print, questions: &mut Questions<'_>)
    ensures left { TakesFront questions.old.left.now questions.new.left.now }
{
    let names = questions.record();
    let bounds = questions.record();
    let made = LifetimeEnv::from_method_item(names, bounds, questions.record());
    print::first(rt, print::number_of(&made));
    if let Ok(env) = made {
        print_environment(rt, env);
    }
    print::end(rt);
}

// Kind 5: an environment made by hand, a name, and how long the lent slice is, at most 40. The number of `check`; then
// for `longer_than` and for `shorter_than` the refusal's number or 0, the count, and all words of the slice, whose
// words were 99.
pub(crate) fn lists(rt: &impl Print, questions: &mut Questions<'_>)
    ensures left { TakesFront questions.old.left.now questions.new.left.now }
{
    let env = made_by_hand(questions);
    let name = questions.number();
    let n = questions.number().min(ROOM);
    print::first(rt, print::number_of(&env.check()));
    for longer in [true, false] {
        let mut out: [usize; ROOM] = rooms::few();
        let lent = &mut out[..n];
        let listed = list(env, name, longer, lent);
        print::next(rt, print::number_of(&listed));
        print::next(rt, listed.unwrap_or(0));
        print::all(rt, lent);
    }
    print::end(rt);
}

// Kind 6: an environment made by hand, and the record types. `extend_implicit_lifetime_bounds`: the refusal's number or
// 0, and the whole environment; refused, as it was.
pub(crate) fn extend_implicit_lifetime_bounds(rt: &impl Print, questions: &mut Questions<'_>)
    ensures left { TakesFront questions.old.left.now questions.new.left.now }
{
    let env = made_by_hand(questions);
    let extended = env.extend_implicit_lifetime_bounds(questions.record());
    print::first(rt, print::number_of(&extended));
    print_whole(rt, extended.unwrap_or(env));
    print::end(rt);
}

// An environment made by hand.
pub(crate) fn made_by_hand(questions: &mut Questions<'_>) -> LifetimeEnv
    ensures left { TakesFront questions.old.left.now questions.new.left.now }
{
    let named = questions.number();
    let words = questions.record();
    let mut names = [0usize; LifetimeEnv::MAX_NAMES];
    let n = words.len().min(LifetimeEnv::MAX_NAMES);
    names[..n].copy_from_slice(&words[..n]);
    let bounds = bounds::made_by_hand(questions);
    LifetimeEnv {
        names,
        named,
        bounds,
    }
}

// What kind 1 prints of an environment.
fn print_environment(rt: &impl Print, env: LifetimeEnv) {
    let pushed = env.bounds.pushed;
    print::next(rt, env.named);
    print::next(rt, pushed);
    bounds::print_all(rt, &env.bounds.list[..pushed.min(Bounds::MAX)]);
    for name in &env.names[..env.named.min(LifetimeEnv::MAX_NAMES)] {
        print_list(rt, env, *name, true);
        print_list(rt, env, *name, false);
    }
}

// A whole environment: how many names and how many bounds there are, all places for names, and the bounds up to the
// last that is not 0 0, with their number in front.
pub(crate) fn print_whole(rt: &impl Print, env: LifetimeEnv) {
    print::next(rt, env.named);
    print::next(rt, env.bounds.pushed);
    print::all(rt, &env.names);
    bounds::print_filled(rt, &env.bounds);
}

// One list of a name.
// `reach` has this and `list` for a method's environment: a trait over the two would be no plainer. `longer` says which
// of two calls is asked; an enum of two names would be no plainer.
fn print_list(rt: &impl Print, env: LifetimeEnv, name: usize, longer: bool) {
    let mut out = [0usize; LifetimeEnv::MAX_NAMES];
    let listed = list(env, name, longer, &mut out);
    print::listed(rt, listed, &out);
}

// `longer_than` or `shorter_than`.
fn list(env: LifetimeEnv, name: usize, longer: bool, out: &mut [usize]) -> Result<usize, Refusal> {
    if longer {
        return env.longer_than(name, out);
    }
    env.shorter_than(name, out)
}
