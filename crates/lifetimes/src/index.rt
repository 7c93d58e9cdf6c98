// The index of bounds: for each lifetime its neighbours, in the order in which a traversal takes them.
//
// A list is pushed in order and its last entry is taken first, so each list is needed backwards: a chain that is linked
// at its head. Made once for all traversals in a direction, in one pass over the bounds.
ghost use Rattle.std.specs.Prelude.{◌≡◌, cond, ◌-◌, ◌≤◌, ◌<◌};
ghost use Rattle.answers.specs.Refusals.{NoneDue};
ghost use Rattle.lifetimes.specs.Env.{bounds_of, env_checks};
ghost use Rattle.lifetimes.specs.Walk.{order_of};
ghost use Rattle.lifetimes.specs.Index.{graph_in, Indexed, Limits};

use super::bounds::Bounds;
use super::env::LifetimeEnv;

// How many lifetimes the environment has, declared and in all. For each bound its far side, and the bound before it
// with the same near side; for each lifetime the last bound whose near side it is. A bound's number is its place
// counted from 1, and 0 stands for none.
// 0 and no Option: a u16 holds it, and each step of a traversal reads one. `far` and `before` are two arrays and none
// of pairs: a byte and a u16 in a pair would take four bytes. The arrays are of fixed length, since there is no heap
// here.
#[derive(Clone, Copy)]
pub(crate) struct Index {
    pub(crate) declared: usize,
    pub(crate) count: usize,
    pub(crate) far: [u8; Bounds::MAX],
    pub(crate) before: [u16; Bounds::MAX],
    pub(crate) last: [u16; LifetimeEnv::MAX_LIFETIMES],
}

impl Index {
    // The index of an environment, whose bounds are linked in push order, or, for the AST's order, from the last to the
    // first. `ast` stays a bool, here and in the traversals, as `longer` does (`Bound::near`): an order has two
    // values, and an enum of two names would be no plainer.
    pub(crate) fn link(env: &LifetimeEnv, ast: bool, longer: bool) -> Index
        requires { NoneDue (env_checks env.now) }
        ensures indexed { Indexed (graph_in (order_of ast) longer (bounds_of env.now)) result }
        ensures count { result.count ≡ env.now.count }
    {
        let mut index = Index {
            declared: env.declared,
            count: env.count,
            far: [0; Bounds::MAX],
            before: [0; Bounds::MAX],
            last: [0; LifetimeEnv::MAX_LIFETIMES],
        };
        let n = env.bounds.pushed;
        for i in 0..n {
            let at = place(ast, n, i);
            let b = env.bounds.list[at];
            let x = b.near(longer);
            let y = b.far(longer);
            index.far[i] = y as u8;
            index.before[i] = index.last[x];
            index.last[x] = (i + 1) as u16;
        }
        index
    }

    // How many lifetimes a traversal can list: the declared ones, unless it starts past them.
    pub(crate) fn limit(&self, start: usize) -> usize
        requires { (start < self.now.count) × (self.now.declared ≤ self.now.count) }
        ensures { Limits self.now start result }
    {
        if start < self.declared {
            self.declared
        } else {
            self.count
        }
    }
}

// Which of n bounds is linked i-th: in push order, or from the last to the first.
fn place(ast: bool, n: usize, i: usize) -> usize
    requires { i < n }
    ensures { result ≡ cond ast (n - 1 - i) i }
{
    if ast { n - 1 - i } else { i }
}
