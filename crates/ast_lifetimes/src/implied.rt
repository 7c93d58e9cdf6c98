// Implied bounds: what a path behind a named reference says of its lifetimes.
//
// For each lifetime the set of those that outlive it is kept while bounds are pushed, so that a path asks one set and
// no traversal: with one bound more, long above short, whatever short outlives is outlived by all that outlives long.
ghost use Rattle.std.specs.Prelude.{◌≡◌, ◌≤◌, ◌<◌, true, ◌++◌, ◌∷◌, [], List, OnOk};
ghost use Rattle.lifetimes.specs.declared.bounds.Bound.{Bound};
ghost use Rattle.ast_lifetimes.specs.Types.{types_in_shape};
ghost use Rattle.ast_lifetimes.specs.Env.{names_of, bounds_of, most_names};
ghost use Rattle.ast_lifetimes.specs.Entries.{fold, step, Path, all_paths};
ghost use Rattle.ast_lifetimes.specs.Inner.{StandsIn, Leaves, so_far_of, OutliveSets, outlived_by, is_implied};

use super::env::LifetimeEnv;
use answers::Refusal;
use lifetimes::{Bound, Lifetime, set};

// For each lifetime the set of those that outlive it.
#[derive(Clone, Copy)]
struct Reach {
    sets: [u64; LifetimeEnv::MAX_NAMES],
}

impl Reach {
    // Without bounds each lifetime outlives itself only.
    fn each_itself(named: usize) -> Reach
        requires { named ≤ most_names }
        ensures { OutliveSets [] named result.sets }
    {
        let mut sets = [0u64; LifetimeEnv::MAX_NAMES];
        for x in 0..named {
            sets[x] = set::insert(set::EMPTY, Lifetime::new(x));
        }
        Reach { sets }
    }

    // The sets by an environment's bounds.
    fn of(env: &LifetimeEnv) -> Reach
        requires { StandsIn (so_far_of env.now) env.now }
        ensures { OutliveSets (bounds_of env.now) env.now.named result.sets }
    {
        let mut reach = Reach::each_itself(env.named);
        for i in 0..env.bounds.pushed {
            reach.join(env.named, env.bounds.list[i]);
        }
        reach
    }

    // One bound more.
    fn join(&mut self, named: usize, bound: Bound)
        requires { (named ≤ most_names) × (bound.longer < named) × (bound.shorter < named) }
        ensures { (bs : List Bound) → OutliveSets bs named self.old.sets
            → OutliveSets (bs ++ (bound ∷ [])) named self.new.sets }
    {
        let joined = self.sets[bound.longer as usize];
        let short = Lifetime::new(bound.shorter as usize);
        for x in 0..named {
            let before = self.sets[x];
            if set::contains(before, short) {
                self.sets[x] = set::union(before, joined);
            }
        }
    }

    // The set of those that outlive a name; none for one that is not declared.
    fn outlived(&self, env: &LifetimeEnv, name: usize) -> u64
        requires { env.now.named ≤ most_names }
        ensures { result ≡ outlived_by (names_of env.now) self.now.sets name }
    {
        match env.id(name) {
            Some(at) => self.sets[at],
            None => set::EMPTY,
        }
    }
}

impl LifetimeEnv {
    // Whether a lifetime of a path is to be pushed: a name that is not in the set of those that outlive the reference.
    fn is_implied(&self, taken: u64, word: usize) -> bool
        requires { self.now.named ≤ most_names }
        ensures { result ≡ is_implied (names_of self.now) taken word }
    {
        if word < 2 {
            return false;
        }
        match self.id(word) {
            Some(at) => !set::contains(taken, Lifetime::new(at)),
            None => true,
        }
    }

    // Push what a path behind a named reference implies, by its lifetimes. The set of those longer than the reference
    // is taken before the first push.
    fn extend_path(
        &mut self,
        lifetimes: &[usize],
        behind: usize,
        reach: &mut Reach,
    ) -> Result<(), Refusal>
        requires stands { StandsIn (so_far_of self.old) self.old }
        requires reaches { OutliveSets (bounds_of self.old) self.old.named reach.old.sets }
        ensures pushed { Leaves (step (so_far_of self.old) (Path behind lifetimes.now)) self.new result }
        ensures reached { OnOk result (OutliveSets (bounds_of self.new) self.new.named reach.new.sets) }
    {
        let taken = reach.outlived(self, behind);
        for word in lifetimes {
            if self.is_implied(taken, *word) {
                let bound = self.push(*word, behind)?;
                reach.join(self.named, bound);
            }
        }
        Ok(())
    }

    // Push what types imply, one after another: a path directly behind a named reference R pushes; an inner reference
    // replaces R, whatever else stands there clears it.
    pub(crate) fn extend_implied(&mut self, types: &[usize]) -> Result<(), Refusal>
        requires stands { StandsIn (so_far_of self.old) self.old }
        requires shaped { types_in_shape types.now ≡ true }
        ensures { Leaves (fold step (so_far_of self.old) (all_paths types.now)) self.new result }
    {
        let mut reach = Reach::of(self);
        // No Option: `behind` is the record's own word, of which 0 ('static) and 1 (anonymous) push nothing either. The
        // codes are the record's, as 01 gives them.
        let mut behind = 0;
        let mut at = 0;
        // No range to go over: a path's length is read from it.
        'words: while at < types.len() {
            let code = types[at];
            if code == 2 {
                behind = types[at + 1];
                at += 2;
                continue 'words;
            }
            if code != 1 {
                behind = 0;
                at += 1;
                continue 'words;
            }
            let from = at + 2;
            at = from + types[at + 1];
            if 2 <= behind {
                self.extend_path(&types[from..at], behind, &mut reach)?;
            }
            behind = 0;
        }
        Ok(())
    }
}
