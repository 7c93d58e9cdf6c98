// Reach along bounds: the lifetimes that outlive a lifetime, and those that it outlives.
//
// One index serves all traversals of a call. A traversal takes as many steps as it meets lifetimes and bounds.
ghost use Rattle.std.specs.Prelude.{◌≡◌, true, false, ◌+◌, ◌≤◌, ◌<◌, length, take};
ghost use Rattle.std.proofs.lemmas.List.Edits.{sets};
ghost use Rattle.answers.specs.Refusals.{NoneDue};
ghost use Rattle.answers.specs.Lent.{counted, held, room, left, Fills};
ghost use Rattle.lifetimes.specs.Env.{env_checks};
ghost use Rattle.lifetimes.specs.Reach.{list_from, list_reach, list_depth_first, reach_sets, list_words, list_ends};
ghost use Rattle.lifetimes.specs.Reach.{lists_answer};
ghost use Rattle.lifetimes.specs.Index.{Graph, Indexed, list_by, Measurable, Measures, Fits};
ghost use Rattle.lifetimes.specs.Index.{Layable, Lays};
ghost use Rattle.lifetimes.specs.Limits.{most_lifetimes};

use super::env::LifetimeEnv;
use super::index::Index;
use super::lifetime::Lifetime;
use answers::Refusal;

// All lists of a direction: how many words they have together, and the set of the lifetime x at place x, 0 at places
// past the count.
#[derive(Clone, Copy)]
pub struct Lists {
    pub count: usize,
    pub sets: [u64; LifetimeEnv::MAX_LIFETIMES],
}

impl LifetimeEnv {
    // Write the lifetimes that outlive a lifetime to a slice, itself first, in the order of the Rust. Refused by 4 and
    // 8 as the environment is, by 8 for a lifetime past the count, by 9 where the slice is too short.
    pub fn all_longer_lifetimes(
        self,
        lifetime: Lifetime,
        out: &mut [usize],
    ) -> Result<usize, Refusal>
        ensures answer { result ≡ counted (list_reach true self lifetime.0 (room out)) }
        ensures stored { Fills (list_reach true self lifetime.0 (room out)) out }
    {
        traverse(self, false, lifetime, true, out)
    }

    // Write the lifetimes that a lifetime outlives, in the same way.
    pub fn all_shorter_lifetimes(
        self,
        lifetime: Lifetime,
        out: &mut [usize],
    ) -> Result<usize, Refusal>
        ensures answer { result ≡ counted (list_reach false self lifetime.0 (room out)) }
        ensures stored { Fills (list_reach false self lifetime.0 (room out)) out }
    {
        traverse(self, false, lifetime, false, out)
    }

    // Write a lifetime's list in the AST's order: depth first in list order. Longer or shorter; refused as the calls
    // above.
    pub fn depth_first_lifetimes(
        self,
        lifetime: Lifetime,
        longer: bool,
        out: &mut [usize],
    ) -> Result<usize, Refusal>
        ensures answer { result ≡ counted (list_depth_first longer self lifetime.0 (room out)) }
        ensures stored { Fills (list_depth_first longer self lifetime.0 (room out)) out }
    {
        traverse(self, true, lifetime, longer, out)
    }

    // The reach of all lifetimes as sets, in the direction longer or shorter: the set of the lifetime x at place x, 0
    // at places past the count. Refused by 4 and 8 as the environment is.
    pub fn reach_sets(self, longer: bool) -> Result<[u64; LifetimeEnv::MAX_LIFETIMES], Refusal>
        ensures answer { result ≡ reach_sets longer self }
    {
        self.check()?;
        let index = Index::link(&self, false, longer);
        let mut sets = [0u64; LifetimeEnv::MAX_LIFETIMES];
        index.measure(&mut sets);
        Ok(sets)
    }

    // Write all lists of a direction, one after another, to one slice, and where each ends to another. Refused by 4 and
    // 8 as the environment is, by 9 where either slice is too short. With as many words for each lifetime as there are
    // lifetimes the lists fit in any case; with less they are measured first.
    pub fn all_lists(
        self,
        longer: bool,
        words: &mut [usize],
        ends: &mut [usize],
    ) -> Result<Lists, Refusal>
        ensures answer { result ≡ lists_answer longer self (room words) (room ends) }
        ensures words_filled { Fills (list_words longer self (room words) (room ends)) words }
        ensures ends_filled { Fills (list_ends longer self (room words) (room ends)) ends }
    {
        self.check()?;
        if ends.len() < self.count {
            return Err(Refusal::NoRoom);
        }
        let index = Index::link(&self, false, longer);
        if !index.all_fit(words.len()) {
            return Err(Refusal::NoRoom);
        }
        let mut sets = [0u64; LifetimeEnv::MAX_LIFETIMES];
        let total = index.lay(words, ends, &mut sets);
        Ok(Lists { count: total, sets })
    }
}

// The list of one lifetime in one direction, with all refusals.
fn traverse(
    env: LifetimeEnv,
    ast: bool,
    lifetime: Lifetime,
    longer: bool,
    out: &mut [usize],
) -> Result<usize, Refusal>
    ensures value { result ≡ counted (list_from env lifetime.0 (list_by ast longer env lifetime.0) (room out)) }
    ensures fills { Fills (list_from env lifetime.0 (list_by ast longer env lifetime.0) (room out)) out }
{
    env.check()?;
    let start = lifetime.index();
    if env.count <= start {
        return Err(Refusal::OutOfRange);
    }
    let mut items = [0usize; LifetimeEnv::MAX_LIFETIMES];
    let n = list(&env, ast, longer, start, &mut items);
    if out.len() < n {
        return Err(Refusal::NoRoom);
    }
    out[..n].copy_from_slice(&items[..n]);
    Ok(n)
}

// The list of one lifetime of an environment, to the first places of `items`. Answers how many it lists.
fn list(
    env: &LifetimeEnv,
    ast: bool,
    longer: bool,
    start: usize,
    items: &mut [usize; LifetimeEnv::MAX_LIFETIMES],
) -> usize
    requires { NoneDue (env_checks env.now) × (start < env.now.count) }
    ensures { (result ≤ most_lifetimes) × (take result (left items) ≡ list_by ast longer env.now start) }
{
    Index::link(env, ast, longer).walk(start, items).count
}

impl Index {
    // Whether all lists have room together. None is longer than there are lifetimes, so with as many words for each
    // they have; with less they are measured.
    fn all_fit(&self, room: usize) -> bool
        requires { Measurable self.now }
        ensures { (g : Graph) → Indexed g self.now → Fits g self.now.count room result }
    {
        if self.count * self.count <= room {
            return true;
        }
        let mut measured = [0u64; LifetimeEnv::MAX_LIFETIMES];
        self.measure(&mut measured) <= room
    }

    // All traversals: the set of each to its place, and how many words all lists have together.
    fn measure(&self, reach: &mut [u64; LifetimeEnv::MAX_LIFETIMES]) -> usize
        requires { Measurable self.now }
        ensures { (g : Graph) → Indexed g self.now → Measures g self.now.count (held reach) (left reach) result }
    {
        let mut items = [0usize; LifetimeEnv::MAX_LIFETIMES];
        let mut total = 0;
        for x in 0..self.count {
            let walked = self.walk(x, &mut items);
            reach[x] = walked.seen;
            total += walked.count;
        }
        total
    }

    // All traversals: the lists one after another, where each ends, and the set of each.
    fn lay(
        &self,
        words: &mut [usize],
        ends: &mut [usize],
        reach: &mut [u64; LifetimeEnv::MAX_LIFETIMES],
    ) -> usize
        requires layable { Layable self.now (length words.old) }
        requires count_in_bounds { self.now.count ≤ length ends.old }
        ensures { (g : Graph) → Indexed g self.now
            → Lays g self.now.count (held words) (held ends) (held reach) (left words) (left ends) (left reach) result }
    {
        let mut items = [0usize; LifetimeEnv::MAX_LIFETIMES];
        let mut at = 0;
        for x in 0..self.count {
            let walked = self.walk(x, &mut items);
            let n = walked.count;
            words[at..at + n].copy_from_slice(&items[..n]);
            at += n;
            ends[x] = at;
            reach[x] = walked.seen;
        }
        at
    }
}
