// Edges in listing order: by used lifetime, parameter, lifetime of the definition; and the answers by parameter.
ghost use Rattle.std.specs.Prelude.{◌≡◌, ◌+◌, ◌*◌, ◌≤◌, ◌<◌, length};
ghost use Rattle.answers.specs.Lent.{held, room, left};
ghost use Rattle.lifetimes.specs.Limits.{most_lifetimes};
ghost use Rattle.methods.specs.Method.{most_params};
ghost use Rattle.borrowing_param.specs.Edges.{width, most_defs};
ghost use Rattle.borrowing_param.specs.Visit.{draws_in};
ghost use Rattle.borrowing_param.specs.BorrowMap.{listed_edges, borrow_map, MapsTo};
ghost use Rattle.borrowing_param.specs.Inner.{Stores, StoresWords};
ghost use Rattle.borrowing_param.specs.InnerMap.{param_types, Params, visitor_in, bring_from, CountsParams, map_of};

use super::edges::{Param, past_last};
use super::visitor::{BorrowingParamVisitor, ParamBorrowInfo, number_of};
use answers::Refusal;
use hir_types::{path_words, type_at};
use lifetimes::{Lifetime, set};
use methods::{MAX_PARAMS, check_structs_and_params};
use records::copy_words;

// How many parameters and edges there are.
#[derive(Clone, Copy)]
pub struct BorrowMap {
    pub params: usize,
    pub edges: usize,
}

impl BorrowingParamVisitor {
    // All parameters of a method: the numbers of their answers to one slice, and their edges to the used lifetimes, in
    // listing order, to the other. The edges that the visitor has stored do not matter: the Rust's call of this name
    // gives the edges of the visits made so far, this one visits all parameters itself, with the same edges
    // (Theorems.ListingIsVisits). Refused by 1, 4 and 7 as the records of a method are, then by 9 where a slice is too
    // short.
    pub fn borrow_map(
        self,
        structs: &[usize],
        params: &[usize],
        answers: &mut [usize],
        edges: &mut [usize],
    ) -> Result<BorrowMap, Refusal>
        ensures answer { MapsTo (borrow_map self structs.now params.now (room answers) (room edges))
            result answers edges }
    {
        check_structs_and_params(structs, params)?;
        self.map_params(params, answers, edges)
    }

    // All parameters of a record that is in shape. Refused by 9 where a slice is too short, before anything is written.
    // `Params` stays a clause of four private functions: a slice carries no fact, and a struct around the one slice
    // would be no plainer.
    fn map_params(
        &self,
        params: &[usize],
        answers: &mut [usize],
        edges: &mut [usize],
    ) -> Result<BorrowMap, Refusal>
        requires { Params params.now }
        ensures { MapsTo (map_of self.now (param_types params.now) (room answers) (room edges)) result answers edges }
    {
        let mut numbers = [0usize; MAX_PARAMS];
        let counted = self.count_params(params, &mut numbers);
        if answers.len() < counted.params {
            return Err(Refusal::NoRoom);
        }
        if edges.len() / BorrowingParamVisitor::EDGE_WORDS < counted.edges {
            return Err(Refusal::NoRoom);
        }
        let _ = copy_words(&numbers, counted.params, answers);
        let _ = self.store_listed(params, edges);
        Ok(counted)
    }

    // How many parameters there are, and how many edges they bring to all used lifetimes; and the numbers of their
    // answers. It goes from place to place by what stands there, so the loop stays a `while`.
    fn count_params(&self, params: &[usize], numbers: &mut [usize; MAX_PARAMS]) -> BorrowMap
        requires { Params params.now }
        ensures { CountsParams self.now.used self.now.draws (param_types params.now) (held numbers) result
            (left numbers) }
    {
        let mut counted = BorrowMap {
            params: 0,
            edges: 0,
        };
        let mut at = 0;
        while at < params.len() {
            let found = type_at(params, at);
            // None is no refusal: in shape a type is there.
            let Some(parts) = found else {
                return counted;
            };
            let path = path_words(params, parts.from, parts.count);
            let brought = self.count(Param {
                number: counted.params,
                parts,
                path,
            });
            numbers[counted.params] = number_of(params, parts, brought);
            counted.edges += brought;
            counted.params += 1;
            at = parts.next;
        }
        counted
    }

    // Store the edges of all parameters, by used lifetime. Answers how many there are.
    fn store_listed(&self, params: &[usize], edges: &mut [usize]) -> usize
        requires { Params params.now × (width * length (listed_edges (visitor_in self.now.used self.now.draws)
            (param_types params.now)) ≤ length edges.old) }
        ensures { StoresWords (listed_edges (visitor_in self.now.used self.now.draws) (param_types params.now)) 0
            (held edges) result (left edges) }
    {
        let limit = past_last(self.used);
        let mut pairs = [set::EMPTY; ParamBorrowInfo::MAX_DEFS];
        let mut next = 0;
        for l in 0..limit {
            if set::contains(self.used, Lifetime::new(l)) {
                next = store_to(self.draws[l], params, l, edges, next, &mut pairs);
            }
        }
        next
    }
}

// Store the edges of all parameters to one used lifetime behind so many. Answers how many there are then.
// `Param::store` notes the pairs of structs too; they are not used here. It goes from place to place by what stands
// there, so the loop stays a `while`.
fn store_to(
    set: u64,
    params: &[usize],
    used: usize,
    edges: &mut [usize],
    stored: usize,
    pairs: &mut [u64; ParamBorrowInfo::MAX_DEFS],
) -> usize
    requires params { Params params.now × (used < most_lifetimes) }
    requires params_in_bounds { width * (stored + length (bring_from (draws_in set) used 0 (param_types params.now)))
        ≤ length edges.old }
    ensures { Stores (bring_from (draws_in set) used 0 (param_types params.now)) stored (held pairs) (held edges)
        result (left pairs) (left edges) }
{
    let mut next = stored;
    let mut number = 0;
    let mut place = 0;
    while place < params.len() {
        let found = type_at(params, place);
        // None is no refusal: in shape a type is there.
        let Some(parts) = found else {
            return next;
        };
        let path = path_words(params, parts.from, parts.count);
        let param = Param {
            number,
            parts,
            path,
        };
        next = param.store(set, used, edges, next, pairs);
        number += 1;
        place = parts.next;
    }
    next
}
