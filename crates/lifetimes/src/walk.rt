// One traversal over the index.
ghost use Rattle.std.specs.Prelude.{◌≤◌};
ghost use Rattle.lifetimes.specs.Index.{Graph, Chained, Indexed, Ready, Standing, Steps, Walkable};
ghost use Rattle.lifetimes.specs.Index.{Complete};
ghost use Rattle.answers.specs.Lent.{left};
ghost use Rattle.lifetimes.specs.Limits.{most_lifetimes};

use super::env::LifetimeEnv;
use super::index::Index;
use super::lifetime::Lifetime;
use super::set;

// What a step yields, and where the traversal stands after it: the chain that it is in, and how many the stack holds.
// Both are known whatever it yields, so that the answer is no `Option` of all three. They go in and out by value, since
// the stack beside them is read at a place that varies: in one lent struct with it they would stand in memory.
#[derive(Clone, Copy)]
struct Stepped {
    next: Option<Lifetime>,
    at: usize,
    depth: usize,
}

// A traversal that is complete: how many lifetimes it lists, and their set.
#[derive(Clone, Copy)]
pub(crate) struct Walked {
    pub(crate) count: usize,
    pub(crate) seen: u64,
}

impl Index {
    // The next unseen lifetime: pending entries that were seen are passed over. The `next` of the Rust's
    // `LifetimeTransitivityIterator`.
    fn advance(
        &self,
        stack: &[usize; LifetimeEnv::MAX_LIFETIMES],
        seen: u64,
        from: usize,
        deep: usize,
    ) -> Stepped
        requires { Standing self.now stack.now from deep }
        ensures { (g : Graph) → Chained g self.now → Ready g stack.now from deep
            → Steps g stack.now seen from deep result }
    {
        let mut at = from;
        let mut depth = deep;
        let next = 'pending: loop {
            if at == 0 {
                if depth == 0 {
                    break 'pending None;
                }
                depth -= 1;
                at = stack[depth];
            } else {
                let i = at - 1;
                let y = self.far[i] as usize;
                at = self.before[i] as usize;
                if !set::holds(seen, y) {
                    break 'pending Some(Lifetime::new(y));
                }
            }
        };
        Stepped { next, at, depth }
    }

    // The traversal from a lifetime, to the first places of `items`. It stops when as many are listed as there can be.
    // A chain that is at its end is not stacked.
    pub(crate) fn walk(
        &self,
        start: usize,
        items: &mut [usize; LifetimeEnv::MAX_LIFETIMES],
    ) -> Walked
        requires { Walkable self.now start }
        ensures count_le_most_lifetimes { result.count ≤ most_lifetimes }
        ensures complete { (g : Graph) → Indexed g self.now → Complete g start (left items) result }
    {
        let limit = self.limit(start);
        let mut stack = [0usize; LifetimeEnv::MAX_LIFETIMES];
        items[0] = start;
        let mut seen = set::with(set::EMPTY, start);
        let mut depth = 0;
        let mut at = self.last[start] as usize;
        for count in 1..limit {
            let stepped = self.advance(&stack, seen, at, depth);
            // None is the end of the traversal, no refusal.
            let Some(lifetime) = stepped.next else {
                return Walked { count, seen };
            };
            let y = lifetime.index();
            let rest = stepped.at;
            depth = stepped.depth;
            seen = set::with(seen, y);
            items[count] = y;
            if rest != 0 {
                stack[depth] = rest;
                depth += 1;
            }
            at = self.last[y] as usize;
        }
        Walked { count: limit, seen }
    }
}
