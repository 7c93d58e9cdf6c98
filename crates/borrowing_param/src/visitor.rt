// The visitor: which parameters a method's used lifetimes borrow from.
ghost use Rattle.std.specs.Prelude.{◌≡◌, cond, eqb, ◌≤◌};
ghost use Rattle.borrowing_param.specs.Edges.{most_defs};
ghost use Rattle.borrowing_param.specs.Visit.{state, outcome, visit};
ghost use Rattle.borrowing_param.specs.VisitParam.{visit_param};
ghost use Rattle.borrowing_param.specs.New.{created, visitor_from};
ghost use Rattle.borrowing_param.specs.Inner.{type_in, FoundAt, number_by};
ghost use Rattle.hir_types.specs.Places.{Coded};
ghost use Rattle.answers.specs.Lent.{held, left};

use super::edges::{Param, past_last};
use answers::Refusal;
use hir_types::{Kind, Parts, path_words, type_at};
use lifetimes::{Lifetime, LifetimeEnv, set};
use methods::{check_structs_and_params, used_method_lifetimes};
use records::MAX_LIST;

// One edge: the values of its line in the listing. Kind 1 is the Rust's `OpaqueParam`, 2 `SliceParam`, 3
// `StructLifetime`; the used lifetime is the key of its map.
#[derive(Clone, Copy)]
pub struct LifetimeEdge {
    pub used: usize,
    pub param: usize,
    pub kind: usize,
    pub def: usize,
    pub option: usize,
}

// What a visit answers: 01's number of the answer, 0 to 4; and for each lifetime of a struct's definition the set of
// the used lifetimes that it has an edge to (the map in the Rust's `StructBorrowInfo`).
// The number stays a number and is no enum, for speed: of a slice or an opaque it is worked out without a branch
// (`number_by`), which an enum has at each use.
#[derive(Clone, Copy)]
pub struct ParamBorrowInfo {
    pub number: usize,
    pub pairs: [u64; ParamBorrowInfo::MAX_DEFS],
}

// The used lifetimes as a set; for each of them the set of the lifetimes that draw an edge to it, which are those that
// outlive it (the Rust's `all_longer_lifetimes`); and how many edges are stored.
#[derive(Clone, Copy)]
pub struct BorrowingParamVisitor {
    pub used: u64,
    pub draws: [u64; LifetimeEnv::MAX_LIFETIMES],
    pub stored: usize,
}

// What a visit answers, or why it is refused; and the visitor afterwards, which is there either way: no flag beside a
// value.
#[derive(Clone, Copy)]
pub struct Visited {
    pub info: Result<ParamBorrowInfo, Refusal>,
    pub visitor: BorrowingParamVisitor,
}

impl ParamBorrowInfo {
    // How many lifetimes a struct's definition may have.
    pub const MAX_DEFS: usize = MAX_LIST;
}

impl BorrowingParamVisitor {
    // How many words an edge has in a lent slice.
    pub const EDGE_WORDS: usize = 5;

    // A visitor of a method, from its environment and its records: its used lifetimes, what draws an edge to each of
    // them, and no edges. Refused as the method is (1, 13, 4, 7, 8).
    pub fn new(
        env: LifetimeEnv,
        structs: &[usize],
        params: &[usize],
        output: &[usize],
        force: &[usize],
    ) -> Result<BorrowingParamVisitor, Refusal>
        ensures answer { result ≡ created env structs.now params.now output.now force.now }
    {
        let used = used_method_lifetimes(env, structs, params, output, force)?;
        let sets = env.reach_sets(true)?;
        Ok(BorrowingParamVisitor::from_sets(used, &sets))
    }

    // A visitor without edges, from the used lifetimes and, for each lifetime, the set of those that outlive it
    // (`LifetimeEnv::reach_sets`): at each used lifetime its set, at the others none.
    pub fn from_sets(used: u64, sets: &[u64; LifetimeEnv::MAX_LIFETIMES]) -> BorrowingParamVisitor
        ensures answer { result ≡ visitor_from used sets.now }
    {
        let limit = past_last(used);
        let mut draws = [set::EMPTY; LifetimeEnv::MAX_LIFETIMES];
        for l in 0..limit {
            if set::contains(used, Lifetime::new(l)) {
                draws[l] = sets[l];
            }
        }
        BorrowingParamVisitor {
            used,
            draws,
            stored: 0,
        }
    }

    // Visit one parameter: store its edges to all used lifetimes behind those that are stored. Refused by 1 where there
    // is no such parameter; by 1, 4 and 7 as the records of a method are; by 9 where the slice takes no more. Refused,
    // the visitor and the slice stay as they were.
    pub fn visit_param(
        mut self,
        structs: &[usize],
        params: &[usize],
        param: usize,
        edges: &mut [usize],
    ) -> Visited
        ensures answer { outcome result.info (state result.visitor (left edges))
            ≡ visit_param structs.now params.now (state self (held edges)) param }
    {
        let info = self.visit(structs, params, param, edges);
        Visited {
            info,
            visitor: self,
        }
    }

    // The same of a visitor where it stands.
    fn visit(
        &mut self,
        structs: &[usize],
        params: &[usize],
        param: usize,
        edges: &mut [usize],
    ) -> Result<ParamBorrowInfo, Refusal>
        ensures { outcome result (state self.new (left edges))
            ≡ visit_param structs.now params.now (state self.old (held edges)) param }
    {
        let parts = param_at(params, param).ok_or(Refusal::Malformed)?;
        check_structs_and_params(structs, params)?;
        self.visit_parts(params, parts, param, edges)
    }

    // Visit a parameter that stands there: refused by 9 if it brings edges and there is no room for them.
    fn visit_parts(
        &mut self,
        params: &[usize],
        parts: Parts,
        param: usize,
        edges: &mut [usize],
    ) -> Result<ParamBorrowInfo, Refusal>
        requires { (parts.count ≤ most_defs) × Coded params.now parts }
        ensures { outcome result (state self.new (left edges))
            ≡ visit (state self.old (held edges)) (type_in params.now parts) param }
    {
        let path = path_words(params, parts.from, parts.count);
        let visited = Param {
            number: param,
            parts,
            path,
        };
        let brought = self.count(visited);
        let number = number_of(params, parts, brought);
        let mut pairs = [set::EMPTY; ParamBorrowInfo::MAX_DEFS];
        if brought == 0 {
            return Ok(ParamBorrowInfo { number, pairs });
        }
        let room = edges.len() / BorrowingParamVisitor::EDGE_WORDS;
        if room < brought {
            return Err(Refusal::NoRoom);
        }
        if room - brought < self.stored {
            return Err(Refusal::NoRoom);
        }
        self.stored = self.store(visited, edges, self.stored, &mut pairs);
        Ok(ParamBorrowInfo { number, pairs })
    }
}

// The parameter with a number, where it stands.
fn param_at(params: &[usize], param: usize) -> Option<Parts>
    ensures { FoundAt params.now param result }
{
    let mut at = 0;
    for _passed in 0..param {
        at = type_at(params, at)?.next;
    }
    type_at(params, at)
}

// The answer's number for the type that `parts` found in `words`, by its kind and by how many edges it has `brought`: 0
// the Rust's `NotBorrowed`, 1 `TemporarySlice`, 2 `BorrowedSlice`, 3 `Struct`, 4 `BorrowedOpaque`. The kind is told by
// its code in `words`, a number, since a slice is to be told from an opaque without a branch and a `match` is one.
pub(crate) fn number_of(words: &[usize], parts: Parts, brought: usize) -> usize
    requires { Coded words.now parts }
    ensures { result ≡ number_by parts.kind brought }
{
    let from = parts.from;
    let code = words[from - Parts::PATH_PLACE];
    if code == Kind::PLAIN {
        return 0;
    }
    if code == Kind::STRUCT {
        return number_of_struct(brought);
    }
    number_by(code == Kind::SLICE, brought != 0)
}

// The number of a struct, by how many edges it has `brought`.
fn number_of_struct(brought: usize) -> usize
    ensures { result ≡ cond (eqb brought 0) 0 3 }
{
    if brought == 0 {
        return 0;
    }
    3
}

// The number of a slice or an opaque, by the two facts `slice` and `borrowed`: worked out and not chosen, since neither
// can be foreseen from one parameter to the next.
fn number_by(slice: bool, borrowed: bool) -> usize
    ensures { result ≡ cond slice (cond borrowed 2 1) (cond borrowed 4 0) }
{
    let s = slice as usize;
    let b = borrowed as usize;
    s + 4 * b - 3 * (s * b)
}
