// The AST's environment: names in order of declaration, and bounds between them by number. It is built in place, entry
// by entry.
ghost use Rattle.std.specs.Prelude.{◌≡◌, ◌≤◌, ◌&&◌, true, false, [], IfOk};
ghost use Rattle.answers.specs.Refusals.{NoneDue};
ghost use Rattle.answers.specs.Lent.{counted, judged, held, room, left, Fills};
ghost use Rattle.ast_lifetimes.specs.Shapes.{pair, pairs_of, names_in_shape, bounds_in_shape};
ghost use Rattle.ast_lifetimes.specs.Types.{types_in_shape};
ghost use Rattle.ast_lifetimes.specs.Env.{named_env, env_checks, names_of, bounds_of, bound_of, from_method_item};
ghost use Rattle.ast_lifetimes.specs.Env.{most_names, extend_implied, list_than, id_of};
ghost use Rattle.ast_lifetimes.specs.Entries.{fold, declare, push_pair};
ghost use Rattle.ast_lifetimes.specs.Inner.{StandsIn, Leaves, so_far_of};

use super::bounds::bounds_shape;
use super::names::{names_shape, position};
use super::types::types_shape;
use answers::Refusal;
use lifetimes::{Bound, Bounds, Lifetime};

// The names of a method in order of declaration, the first `named` of the array: a name's number is its place. And the
// bounds between them.
// The array is of fixed length beside a count, since there is no heap here. No PartialEq: derived, it would also
// compare the places behind the count.
#[derive(Clone, Copy)]
pub struct LifetimeEnv {
    pub names: [usize; LifetimeEnv::MAX_NAMES],
    pub named: usize,
    pub bounds: Bounds,
}

impl LifetimeEnv {
    // How many names an environment may have.
    pub const MAX_NAMES: usize = 32;

    // How deep a type may be nested, the outermost counting 1.
    pub const MAX_NESTING: usize = 8;

    // The environment without names.
    pub fn none() -> LifetimeEnv
        ensures answer { result ≡ named_env [] [] }
    {
        LifetimeEnv {
            names: [0usize; LifetimeEnv::MAX_NAMES],
            named: 0,
            bounds: Bounds::none(),
        }
    }

    // The environment of a method, from its records: impl names, impl bounds, method names, method bounds, then what
    // the types imply. Refused by 1 over all three records, then by 2, 3, 4 at the first bad place.
    pub fn from_method_item(
        names: &[usize],
        bounds: &[usize],
        types: &[usize],
    ) -> Result<LifetimeEnv, Refusal>
        ensures answer { result ≡ from_method_item names.now bounds.now types.now }
    {
        names_shape(names)?;
        bounds_shape(bounds)?;
        types_shape(types)?;
        LifetimeEnv::built(names, bounds, types)
    }

    // The environment with what some types imply pushed behind its bounds. Refused by 1 (the types' shape), by 4 and 8
    // as the environment is, then by 3 and 4 at the first bad place.
    pub fn extend_implicit_lifetime_bounds(self, types: &[usize]) -> Result<LifetimeEnv, Refusal>
        ensures answer { result ≡ extend_implied self types.now }
    {
        types_shape(types)?;
        self.check()?;
        let mut env = self.cleared();
        env.extend_implied(types)?;
        Ok(env)
    }

    // Whether this can be an environment: refused by 4 (33rd name, 257th bound) or 8 (a bound past the names). A caller
    // can build any value.
    pub fn check(self) -> Result<(), Refusal>
        ensures answer { result ≡ judged (env_checks self) }
    {
        let named = self.named;
        if LifetimeEnv::MAX_NAMES < named {
            return Err(Refusal::Full);
        }
        if self.bounds.pushed == 0 {
            return Ok(());
        }
        self.bounds.check(named)
    }

    // Write the numbers of the names that outlive a name to a slice, itself first, depth first in list order; nothing
    // for an unknown name. Refused by 4 and 8 as the environment is, by 9 where the slice is too short. In the Rust
    // this call and the next are of `LifetimeTransitivity`.
    pub fn longer_than(self, name: usize, out: &mut [usize]) -> Result<usize, Refusal>
        ensures answer { result ≡ counted (list_than true self name (room out)) }
        ensures stored { Fills (list_than true self name (room out)) out }
    {
        list_than(self, name, true, out)
    }

    // Write the numbers of the names that a name outlives, in the same way.
    pub fn shorter_than(self, name: usize, out: &mut [usize]) -> Result<usize, Refusal>
        ensures answer { result ≡ counted (list_than false self name (room out)) }
        ensures stored { Fills (list_than false self name (room out)) out }
    {
        list_than(self, name, false, out)
    }

    // The environment of records in shape. An impl bound sees impl names only.
    fn built(names: &[usize], bounds: &[usize], types: &[usize]) -> Result<LifetimeEnv, Refusal>
        requires { names_in_shape names.now && (bounds_in_shape bounds.now && types_in_shape types.now) ≡ true }
        ensures { result ≡ from_method_item names.now bounds.now types.now }
    {
        let impls = names[0];
        let first = bounds[0];
        let mut env = LifetimeEnv::none();
        env.extend_lifetimes(&names[1..1 + impls])?;
        env.extend_bounds(&bounds[1..1 + 2 * first])?;
        env.extend_lifetimes(&names[1 + impls..])?;
        env.extend_bounds(&bounds[1 + 2 * first..])?;
        env.extend_implied(types)?;
        Ok(env)
    }

    // The same names and bounds, with nothing in the places behind them.
    fn cleared(self) -> LifetimeEnv
        requires { NoneDue (env_checks self) }
        ensures { result ≡ named_env (names_of self) (bounds_of self) }
    {
        let named = self.named;
        let mut names = self.names;
        names[named..].fill(0);
        let pushed = self.bounds.pushed;
        let mut list = self.bounds.list;
        let none = Bound {
            longer: 0,
            shorter: 0,
        };
        list[pushed..].fill(none);
        LifetimeEnv {
            names,
            named,
            bounds: Bounds { pushed, list },
        }
    }

    // The number of a name; none for one that is not declared.
    // That `named` is within its limit stays a clause, and so does `StandsIn` below: the struct is public, callers
    // build any value of it, and a ghost invariant would bar that.
    pub(crate) fn id(&self, name: usize) -> Option<usize>
        requires { self.now.named ≤ most_names }
        ensures { result ≡ id_of (names_of self.now) name }
    {
        position(&self.names[..self.named], name)
    }

    // Declare one name more. Refused by 4 for a 33rd, by 2 for one that is declared.
    fn declare(&mut self, name: usize) -> Result<(), Refusal>
        requires { StandsIn (so_far_of self.old) self.old }
        ensures { Leaves (declare (so_far_of self.old) name) self.new result }
    {
        let named = self.named;
        if LifetimeEnv::MAX_NAMES <= named {
            return Err(Refusal::Full);
        }
        if self.id(name).is_some() {
            return Err(Refusal::Duplicate);
        }
        self.names[named] = name;
        self.named += 1;
        Ok(())
    }

    // Declare some names one after another. Refused at the first bad place.
    fn extend_lifetimes(&mut self, names: &[usize]) -> Result<(), Refusal>
        requires { StandsIn (so_far_of self.old) self.old }
        ensures { Leaves (fold declare (so_far_of self.old) names.now) self.new result }
    {
        for name in names {
            self.declare(*name)?;
        }
        Ok(())
    }

    // Push the bound of two names, and answer it. Refused by 3 for a side that is not declared, longer before shorter,
    // then by 4 for a 257th.
    pub(crate) fn push(&mut self, longer: usize, shorter: usize) -> Result<Bound, Refusal>
        requires { StandsIn (so_far_of self.old) self.old }
        ensures pushed { Leaves (push_pair (so_far_of self.old) (pair longer shorter)) self.new result }
        ensures bound { IfOk result (λ b. b ≡ bound_of (names_of self.old) (pair longer shorter)) }
    {
        let long = self.id(longer).ok_or(Refusal::Undeclared)?;
        let short = self.id(shorter).ok_or(Refusal::Undeclared)?;
        let pushed = self.bounds.pushed;
        if Bounds::MAX <= pushed {
            return Err(Refusal::Full);
        }
        let bound = Bound {
            longer: long as u8,
            shorter: short as u8,
        };
        self.bounds.list[pushed] = bound;
        self.bounds.pushed += 1;
        Ok(bound)
    }

    // Push some words, pair after pair. Refused at the first bad place.
    fn extend_bounds(&mut self, words: &[usize]) -> Result<(), Refusal>
        requires { StandsIn (so_far_of self.old) self.old }
        ensures { Leaves (fold push_pair (so_far_of self.old) (pairs_of words.now)) self.new result }
    {
        for pair in words.chunks_exact(2) {
            self.push(pair[0], pair[1])?;
        }
        Ok(())
    }
}

// The list of one name in one direction.
fn list_than(
    env: LifetimeEnv,
    name: usize,
    longer: bool,
    out: &mut [usize],
) -> Result<usize, Refusal>
    ensures value { result ≡ counted (list_than longer env name (room out)) }
    ensures fills { Fills (list_than longer env name (room out)) out }
{
    env.check()?;
    let named = env.named;
    // None is no refusal here: an unknown name lists nothing.
    let Some(at) = env.id(name) else {
        return Ok(0);
    };
    let hir = lifetimes::LifetimeEnv::from_bounds(named, named, env.bounds);
    hir.depth_first_lifetimes(Lifetime::new(at), longer, out)
}
