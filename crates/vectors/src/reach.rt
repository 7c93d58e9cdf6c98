// Questions for the crate `lifetimes`.
ghost use Rattle.input.specs.Left.{TakesFront};

use super::questions::Questions;
use super::{environments, print};
use answers::Refusal;
use lifetimes::{Lifetime, LifetimeEnv};

// Kind 16: an environment made by hand as in environments.rt. The number of `check`; and if it is 0, for each lifetime
// up to the count the list of `all_longer_lifetimes` and the list of `all_shorter_lifetimes`, each with its length in
// front; for the one at the count twice the number by which it is refused.
pub(crate) fn all_lists(rt: &impl Print, questions: &mut Questions<'_>)
    ensures left { TakesFront questions.old.left.now questions.new.left.now }
{
    let env = environments::made_by_hand(questions);
    let verdict = env.check();
    print::first(rt, print::number_of(&verdict));
    if verdict.is_ok() {
        for lifetime in 0..env.count.min(LifetimeEnv::MAX_LIFETIMES) + 1 {
            print_list(rt, env, lifetime, true);
            print_list(rt, env, lifetime, false);
        }
    }
    print::end(rt);
}

// One list of a lifetime.
// `ast` has this and `list` for the AST's environment: see there.
fn print_list(rt: &impl Print, env: LifetimeEnv, lifetime: usize, longer: bool) {
    let mut out = [0usize; LifetimeEnv::MAX_LIFETIMES];
    let listed = list(env, Lifetime::new(lifetime), longer, &mut out);
    print::listed(rt, listed, &out);
}

// `all_longer_lifetimes` or `all_shorter_lifetimes`.
fn list(
    env: LifetimeEnv,
    lifetime: Lifetime,
    longer: bool,
    out: &mut [usize],
) -> Result<usize, Refusal> {
    if longer {
        return env.all_longer_lifetimes(lifetime, out);
    }
    env.all_shorter_lifetimes(lifetime, out)
}
