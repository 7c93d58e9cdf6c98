// The edges of one parameter: which lifetimes draw, how many edges there are, and storing them.
//
// A parameter is the parts of its type and its path words, lent where they stand (`Param`); a set holds the lifetimes
// that draw an edge to a used one.
ghost use Rattle.std.specs.Prelude.{◌≡◌, [], ◌∷◌, ◌+◌, ◌*◌, ◌≤◌, ◌<◌, length, get_or};
ghost use Rattle.std.specs.List.{list_any, count_by};
ghost use Rattle.std.proofs.lemmas.List.Edits.{sets};
ghost use Rattle.answers.specs.Lent.{held, left};
ghost use Rattle.lifetimes.specs.Limits.{most_lifetimes};
ghost use Rattle.lifetimes.specs.LoweredWords.{from_word};
ghost use Rattle.borrowing_param.specs.Edges.{width, most_defs, edge_words, edge_in};
ghost use Rattle.hir_types.specs.LoweredTypes.{lifetimes_of};
ghost use Rattle.borrowing_param.specs.Brings.{drawn, any_drawn, one_edge, bring};
ghost use Rattle.borrowing_param.specs.Visit.{draws_in};
ghost use Rattle.borrowing_param.specs.Inner.{SetBelow, typed, CountsFor, CountsAll, struct_of, all_in};
ghost use Rattle.borrowing_param.specs.Inner.{Stores, StoresWords};

use super::visitor::{BorrowingParamVisitor, LifetimeEdge, ParamBorrowInfo};
use hir_types::{Kind, Parts};
use lifetimes::{DefLifetime, Lifetime, MaybeStatic, linked_word, set};

impl LifetimeEdge {
    // The kinds. `kind` and `option` stay numbers: `edge_at` gives whatever five words stand in a slice.
    pub const OPAQUE: usize = 1;

    pub const SLICE: usize = 2;

    pub const STRUCT: usize = 3;
}

// A parameter: its number, the parts of its type, and its path words.
#[derive(Clone, Copy)]
pub(crate) struct Param<'a> {
    pub number: usize,
    pub parts: Parts,
    pub path: &'a [usize],
}

// The edge with a number, from 0, of those that a slice has room for: how a call's edges are read again.
pub fn edge_at(edges: &[usize], place: usize) -> Option<LifetimeEdge>
    ensures answer { result ≡ edge_in edges.now place }
{
    let room = edges.len() / BorrowingParamVisitor::EDGE_WORDS;
    if room <= place {
        return None;
    }
    let from = BorrowingParamVisitor::EDGE_WORDS * place;
    Some(LifetimeEdge {
        used: edges[from],
        param: edges[from + 1],
        kind: edges[from + 2],
        def: edges[from + 3],
        option: edges[from + 4],
    })
}

// Whether a lifetime draws: 'static never does.
fn draws(set: u64, lifetime: MaybeStatic<Lifetime>) -> bool
    ensures { result ≡ drawn (draws_in set) lifetime }
{
    match lifetime {
        MaybeStatic::Static => false,
        MaybeStatic::NonStatic(l) => l.index() < set::CAPACITY && set::contains(set, l),
    }
}

// Whether one of some lowered words stands for a lifetime that draws.
fn any_draws(set: u64, words: &[usize]) -> bool
    ensures { result ≡ list_any (λ w. drawn (draws_in set) (from_word w)) words.now }
{
    words
        .iter()
        .any(|word| draws(set, MaybeStatic::from_word(*word)))
}

// How many of some lowered words stand for one that draws.
fn count_draws(set: u64, words: &[usize]) -> usize
    ensures { result ≡ count_by (λ w. drawn (draws_in set) (from_word w)) words.now }
{
    words
        .iter()
        .filter(|word| draws(set, MaybeStatic::from_word(**word)))
        .count()
}

// A number that all lifetimes of a set are below.
pub(crate) fn past_last(set: u64) -> usize
    ensures { SetBelow set result }
{
    set::CAPACITY - u64::leading_zeros(set) as usize
}

// Store one edge behind so many.
fn put(edges: &mut [usize], at: usize, edge: LifetimeEdge)
    requires { width * (at + 1) ≤ length edges.old }
    ensures { left edges ≡ sets (held edges) (width * at) (edge_words edge) }
{
    let from = at * BorrowingParamVisitor::EDGE_WORDS;
    edges[from] = edge.used;
    edges[from + 1] = edge.param;
    edges[from + 2] = edge.kind;
    edges[from + 3] = edge.def;
    edges[from + 4] = edge.option;
}

// Store one edge of a struct behind so many, and its pair. Answers how many there are then.
// `edges`, `at` and `pairs` stay three parameters: a struct that lends them proves, but the place then lies in memory,
// and `borrow_sheet` takes 19 % more on 4,096 edges.
fn put_pair(
    edge: LifetimeEdge,
    edges: &mut [usize],
    at: usize,
    pairs: &mut [u64; ParamBorrowInfo::MAX_DEFS],
) -> usize
    requires { (edge.kind ≡ 3) × (edge.def < most_defs) × (edge.used < most_lifetimes)
        × (width * (at + 1) ≤ length edges.old) }
    ensures { Stores (edge ∷ []) at (held pairs) (held edges) result (left pairs) (left edges) }
{
    put(edges, at, edge);
    pairs[edge.def] = set::insert(pairs[edge.def], Lifetime::new(edge.used));
    at + 1
}

// That a path is at most 16 words and a used lifetime below 64 stays a clause where it is wanted: as ghost fields they
// would stand in each law.
impl<'a> Param<'a> {
    // Whether one of its lifetimes draws: of its path words, or its own.
    fn is_drawn(self, set: u64) -> bool
        ensures { result ≡ any_drawn (draws_in set) (lifetimes_of (typed self.entry.parts self.entry.path.now)) }
    {
        if any_draws(set, self.path) {
            return true;
        }
        match self.parts.own.lifetime() {
            Some(own) => draws(set, own),
            None => false,
        }
    }

    // How many edges it brings to one used lifetime: one where it is opaque or a slice, and a lifetime draws.
    fn count(self, set: u64) -> usize
        ensures { CountsFor (draws_in set) (typed self.entry.parts self.entry.path.now) result }
    {
        match self.parts.kind {
            Kind::Plain => 0,
            Kind::Struct(_) => count_draws(set, self.path),
            Kind::Opaque => usize::from(self.is_drawn(set)),
            Kind::Slice => usize::from(self.is_drawn(set)),
        }
    }

    // Store its edges to one used lifetime behind so many, and the pairs of a struct. Answers how many there are then.
    pub(crate) fn store(
        self,
        set: u64,
        used: usize,
        edges: &mut [usize],
        at: usize,
        pairs: &mut [u64; ParamBorrowInfo::MAX_DEFS],
    ) -> usize
        requires inside { (length self.path.now ≤ most_defs) × (used < most_lifetimes) }
        requires parts_in_bounds { width * (at + length (bring (draws_in set) used self.number
            (typed self.parts self.path.now))) ≤ length edges.old }
        ensures { Stores (bring (draws_in set) used self.entry.number (typed self.entry.parts self.entry.path.now)) at
            (held pairs) (held edges) result (left pairs) (left edges) }
    {
        match self.parts.kind {
            Kind::Plain => at,
            Kind::Opaque => self.store_one(set, LifetimeEdge::OPAQUE, used, edges, at),
            Kind::Slice => self.store_one(set, LifetimeEdge::SLICE, used, edges, at),
            Kind::Struct(_) => self.store_struct(set, used, edges, at, pairs),
        }
    }

    // Store the one edge of an opaque or a slice, if it has one.
    fn store_one(self, set: u64, kind: usize, used: usize, edges: &mut [usize], at: usize) -> usize
        requires { width * (at + length (one_edge (draws_in set) used self.number kind
            (lifetimes_of (typed self.parts self.path.now)))) ≤ length edges.old }
        ensures { StoresWords (one_edge (draws_in set) used self.entry.number kind
            (lifetimes_of (typed self.entry.parts self.entry.path.now))) at (held edges) result (left edges) }
    {
        if !self.is_drawn(set) {
            return at;
        }
        let edge = LifetimeEdge {
            used,
            param: self.number,
            kind,
            def: 0,
            option: 0,
        };
        put(edges, at, edge);
        at + 1
    }

    // The method's lifetime at the use of a struct for a lifetime of its definition, by the struct's path words. The
    // definition's count is how many they are: the check of the records has refused by 7 where its row says another, so
    // that a visit does not look the row up.
    fn linked_lifetime(self, def: usize) -> MaybeStatic<Lifetime>
        requires { def < length self.path.now }
        ensures { result ≡ from_word (get_or self.entry.path.now def 0) }
    {
        // A word is there, so that neither way out is met, and there is no refusal to hand on.
        let Ok(linked) = linked_word(self.path, self.path.len(), DefLifetime::new(def)) else {
            return MaybeStatic::Static;
        };
        let Some(word) = linked else {
            return MaybeStatic::Static;
        };
        MaybeStatic::from_word(word)
    }

    // Store the edges of a struct, and their pairs.
    fn store_struct(
        self,
        set: u64,
        used: usize,
        edges: &mut [usize],
        at: usize,
        pairs: &mut [u64; ParamBorrowInfo::MAX_DEFS],
    ) -> usize
        requires inside { (length self.path.now ≤ most_defs) × (used < most_lifetimes) }
        requires parts_in_bounds { width * (at + length (struct_of (draws_in set) used self.number
            (typed self.parts self.path.now))) ≤ length edges.old }
        ensures { Stores (struct_of (draws_in set) used self.entry.number
            (typed self.entry.parts self.entry.path.now)) at (held pairs) (held edges) result
            (left pairs) (left edges) }
    {
        let option = usize::from(self.parts.option);
        let mut next = at;
        for def in 0..self.path.len() {
            if draws(set, self.linked_lifetime(def)) {
                let edge = LifetimeEdge {
                    used,
                    param: self.number,
                    kind: LifetimeEdge::STRUCT,
                    def,
                    option,
                };
                next = put_pair(edge, edges, next, pairs);
            }
        }
        next
    }
}

impl BorrowingParamVisitor {
    // How many edges a parameter brings to all used lifetimes.
    pub(crate) fn count(&self, param: Param) -> usize
        requires { length param.path.now ≤ most_defs }
        ensures { CountsAll self.now.used self.now.draws (typed param.entry.parts param.entry.path.now) result }
    {
        let limit = past_last(self.used);
        let mut n = 0;
        for l in 0..limit {
            if set::contains(self.used, Lifetime::new(l)) {
                n += param.count(self.draws[l]);
            }
        }
        n
    }

    // Store the edges of a parameter to all used lifetimes, ascending, behind so many.
    pub(crate) fn store(
        &self,
        param: Param,
        edges: &mut [usize],
        at: usize,
        pairs: &mut [u64; ParamBorrowInfo::MAX_DEFS],
    ) -> usize
        requires inside { length param.path.now ≤ most_defs }
        requires param_in_bounds { width * (at + length (all_in self.now.used self.now.draws
            (typed param.parts param.path.now) param.number)) ≤ length edges.old }
        ensures { Stores (all_in self.now.used self.now.draws (typed param.entry.parts param.entry.path.now)
            param.entry.number) at (held pairs) (held edges) result (left pairs) (left edges) }
    {
        let limit = past_last(self.used);
        let mut next = at;
        for l in 0..limit {
            if set::contains(self.used, Lifetime::new(l)) {
                next = param.store(self.draws[l], l, edges, next, pairs);
            }
        }
        next
    }
}
