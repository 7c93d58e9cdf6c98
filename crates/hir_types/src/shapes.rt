// The records `structs`, `params`, `output` and `force` of a method: their shape.
ghost use Rattle.std.specs.Prelude.{◌≡◌, ◌≤◌, length, drop};
ghost use Rattle.records.specs.Ends.{EndsAt};
ghost use Rattle.hir_types.specs.Rows.{read_known, read_types, read_row, structs_in_shape, rows_of, params_in_shape};
ghost use Rattle.hir_types.specs.Rows.{types_of, output_in_shape, force_in_shape, checks_verdict, method_shape};
ghost use Rattle.hir_types.specs.Rows.{how_many};
ghost use Rattle.hir_types.specs.Inner.{EndsFrom};

use super::types::type_at;
use answers::Refusal;
use records::{MAX_LIST, MAX_WORDS};

// The value of `force` that is retired; a larger one never was a value.
const RETIRED: usize = 1;

// Whether `structs` is in shape, and how many rows it has: all that stand there, also past the 32nd. Refused by 1.
// Reads each type once.
//
// One loop over any items, by a closure that says where an item ends, would be no plainer than this one and that of
// `params_shape`: what either is proved to count is read by another definition, of items of another type.
pub fn structs_shape(structs: &[usize]) -> Result<usize, Refusal>
    ensures answer { result ≡ how_many (structs_in_shape structs.now) (rows_of structs.now) }
{
    if MAX_WORDS < structs.len() {
        return Err(Refusal::Malformed);
    }
    let mut at = 0;
    let mut rows = 0;
    // No range to go over, here and below: where the next item stands is read from this one.
    while at < structs.len() {
        at = row_end(structs, at, rows).ok_or(Refusal::Malformed)?;
        rows += 1;
    }
    Ok(rows)
}

// Whether `params` is in shape beside so many rows, and how many parameters there are, also past the 16th. Refused by
// 1. Reads each type once.
pub fn params_shape(params: &[usize], rows: usize) -> Result<usize, Refusal>
    ensures answer { result ≡ how_many (params_in_shape rows params.now) (types_of rows params.now) }
{
    if MAX_WORDS < params.len() {
        return Err(Refusal::Malformed);
    }
    let mut at = 0;
    let mut count = 0;
    while at < params.len() {
        at = type_end(params, at, rows).ok_or(Refusal::Malformed)?;
        count += 1;
    }
    Ok(count)
}

// Whether `output` is in shape beside so many rows, and how many types it has: at most two. Refused by 1.
pub fn output_shape(output: &[usize], rows: usize) -> Result<usize, Refusal>
    ensures answer { result ≡ how_many (output_in_shape rows output.now) (types_of rows output.now) }
{
    let count = params_shape(output, rows)?;
    if 2 < count {
        return Err(Refusal::Malformed);
    }
    Ok(count)
}

// Whether `force` is one word, 0. Refused by 1 where it is not in shape (one word, 0 or 1), then by 13 for 1.
pub fn force_shape(force: &[usize]) -> Result<(), Refusal>
    ensures answer { result ≡ checks_verdict (force_in_shape force.now) force.now }
{
    if force.len() != 1 {
        return Err(Refusal::Malformed);
    }
    match force[0] {
        0 => Ok(()),
        RETIRED => Err(Refusal::Retired),
        _ => Err(Refusal::Malformed),
    }
}

// What stands in a method's four records: how many rows, parameters and output types there are.
#[derive(Clone, Copy)]
pub struct Shape {
    pub rows: usize,
    pub params: usize,
    pub outputs: usize,
}

// Whether the four records of a method are in shape, and how much stands in them. Refused by 1 over all four, then by
// 13 for 1 in `force`.
// The four records stay parameters, here and in the crates above, as callers have them; `Records` is of the crate
// sheet, above this one.
pub fn method_shape(
    structs: &[usize],
    params: &[usize],
    output: &[usize],
    force: &[usize],
) -> Result<Shape, Refusal>
    ensures answer { result ≡ method_shape structs.now params.now output.now force.now }
{
    let rows = structs_shape(structs)?;
    let inputs = params_shape(params, rows)?;
    let outputs = output_shape(output, rows)?;
    force_shape(force)?;
    Ok(Shape {
        rows,
        params: inputs,
        outputs,
    })
}

// Where the row ends that stands at a place and has a number: its fields name earlier rows only.
fn row_end(structs: &[usize], at: usize, number: usize) -> Option<usize>
    ensures { EndsAt structs.now at (read_row number (drop at structs.now)) result }
{
    let declared = *structs.get(at)?;
    let fields = *structs.get(at + 1)?;
    if MAX_LIST < declared || MAX_LIST < fields {
        return None;
    }
    types_end(structs, at + 2, fields, number)
}

// Where so many types end that stand one after another from a place on. `types_fit` of the crate methods has this loop
// over another step; a closure for the step, with a contract of its own, would be no plainer than the two loops.
fn types_end(words: &[usize], from: usize, count: usize, rows: usize) -> Option<usize>
    requires { from ≤ length words.now }
    ensures { EndsFrom words.now from (read_types rows count (drop from words.now)) result }
{
    let mut at = from;
    for _i in 0..count {
        at = type_end(words, at, rows)?;
    }
    Some(at)
}

// Where the type ends that stands at a place, its row among so many.
fn type_end(words: &[usize], at: usize, rows: usize) -> Option<usize>
    ensures { EndsAt words.now at (read_known rows (drop at words.now)) result }
{
    let parts = type_at(words, at)?;
    if !parts.kind.known(rows) {
        return None;
    }
    Some(parts.next)
}
