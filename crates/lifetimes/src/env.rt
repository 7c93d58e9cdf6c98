// The environment of a method: its lifetimes and the bounds between them.
ghost use Rattle.std.specs.Prelude.{◌≡◌, true, [], ◌%◌, ◌*◌, ◌≤◌, length};
ghost use Rattle.answers.specs.Lent.{judged};
ghost use Rattle.lifetimes.specs.Limits.{most_bounds};
ghost use Rattle.lifetimes.specs.Bounds.{above, all_below, bounds_from};
ghost use Rattle.lifetimes.specs.Env.{env_with, env_checks, is_declared, bounds_of_pairs, env_of};
ghost use Rattle.lifetimes.specs.Env.{new_env, push_bound};

use super::bounds::{Bounds, bound_of, numbers_below};
use super::lifetime::Lifetime;
use answers::Refusal;

// How many lifetimes are declared, how many there are in all, and the bounds. The declared ones come first; the others
// are elided. The Rust has two lists at each lifetime instead of the one.
// No PartialEq: derived, it would also compare the places behind the bounds' count.
#[derive(Clone, Copy)]
pub struct LifetimeEnv {
    pub declared: usize,
    pub count: usize,
    pub bounds: Bounds,
}

impl LifetimeEnv {
    // How many lifetimes an environment may have, declared and elided.
    pub const MAX_LIFETIMES: usize = 64;

    // The environment of so many lifetimes, of which the first `declared` are declared, with these bounds. They are
    // taken as they are: whoever is handed the environment checks it.
    pub fn from_bounds(declared: usize, count: usize, bounds: Bounds) -> LifetimeEnv
        ensures answer { result ≡ env_with declared count bounds }
    {
        LifetimeEnv {
            declared,
            count,
            bounds,
        }
    }

    // The environment without lifetimes.
    pub fn none() -> LifetimeEnv
        ensures answer { result ≡ env_of 0 0 [] }
    {
        LifetimeEnv::from_bounds(0, 0, Bounds::none())
    }

    // An environment made by hand, from a list of pairs longer, shorter. Refused by 1 (half a pair), 4 (65th lifetime,
    // 257th bound), 8 (more declared than there are, a side past the declared). Reads the list twice.
    pub fn new(declared: usize, count: usize, pairs: &[usize]) -> Result<LifetimeEnv, Refusal>
        ensures answer { result ≡ new_env declared count pairs.now }
    {
        if pairs.len() % 2 == 1 {
            return Err(Refusal::Malformed);
        }
        if LifetimeEnv::MAX_LIFETIMES < count {
            return Err(Refusal::Full);
        }
        if Bounds::MAX < pairs.len() / 2 {
            return Err(Refusal::Full);
        }
        if count < declared {
            return Err(Refusal::OutOfRange);
        }
        if !pairs_below(pairs, declared) {
            return Err(Refusal::OutOfRange);
        }
        Ok(LifetimeEnv::from_bounds(declared, count, filled(pairs)))
    }

    // The environment with one bound more, at the end. Refused as every environment is, by 4 for a 257th bound, by 8
    // for a side past the declared.
    pub fn push_bound(self, longer: Lifetime, shorter: Lifetime) -> Result<LifetimeEnv, Refusal>
        ensures answer { result ≡ push_bound self (above longer.0 shorter.0) }
    {
        let declared = self.declared;
        let count = self.count;
        let mut bounds = self.bounds;
        let at = bounds.pushed;
        if Bounds::MAX <= at {
            return Err(Refusal::Full);
        }
        self.check()?;
        let from = longer.index();
        let to = shorter.index();
        if !numbers_below(from, to, declared) {
            return Err(Refusal::OutOfRange);
        }
        bounds.list[at] = bound_of(from, to);
        bounds.pushed = at + 1;
        Ok(LifetimeEnv::from_bounds(declared, count, bounds))
    }

    // Whether a lifetime is declared. The Rust's answer is its bounds; here they are in the one list.
    pub fn get_bounds(self, lifetime: Lifetime) -> bool
        ensures answer { result ≡ is_declared self lifetime }
    {
        lifetime.index() < self.declared
    }

    // Whether this can be an environment: refused by 4 (65th lifetime, 257th bound) or 8 (more declared than there are,
    // a bound past the declared). A caller can build any value, so whoever is handed an environment asks this first.
    // The bounds are handed on only where there are some.
    pub fn check(self) -> Result<(), Refusal>
        ensures answer { result ≡ judged (env_checks self) }
    {
        if LifetimeEnv::MAX_LIFETIMES < self.count {
            return Err(Refusal::Full);
        }
        if self.bounds.pushed != 0 {
            self.bounds.check(self.declared)?;
        }
        if self.count < self.declared {
            return Err(Refusal::OutOfRange);
        }
        Ok(())
    }
}

// Whether all sides of some pairs are numbered below a limit.
fn pairs_below(pairs: &[usize], limit: usize) -> bool
    requires { length pairs.now % 2 ≡ 0 }
    ensures { result ≡ all_below limit (bounds_of_pairs pairs.now) }
{
    for i in 0..pairs.len() / 2 {
        if !numbers_below(pairs[2 * i], pairs[2 * i + 1], limit) {
            return false;
        }
    }
    true
}

// The bounds that these pairs are.
fn filled(pairs: &[usize]) -> Bounds
    requires { (length pairs.now % 2 ≡ 0) × (length pairs.now ≤ 2 * most_bounds)
        × (all_below 256 (bounds_of_pairs pairs.now) ≡ true) }
    ensures { result ≡ bounds_from (bounds_of_pairs pairs.now) }
{
    let mut list = [bound_of(0, 0); Bounds::MAX];
    let pushed = pairs.len() / 2;
    for i in 0..pushed {
        list[i] = bound_of(pairs[2 * i], pairs[2 * i + 1]);
    }
    Bounds { pushed, list }
}
