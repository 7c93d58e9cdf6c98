// Limits and misfits by place (4 and 7).
ghost use Rattle.std.specs.Prelude.{◌≡◌, true, ◌≤◌, length};
ghost use Rattle.answers.specs.Lent.{judged, left};
ghost use Rattle.hir_types.specs.Rows.{rows_of, structs_in_shape};
ghost use Rattle.methods.specs.Inner.{InShape, ParamsFit, TypesFit, Indexes, TypeFits, row_lifetimes, misfit_in};
ghost use Rattle.methods.specs.Method.{place_checks};

use answers::Refusal;
use hir_types::{Kind, Shape, type_at};

// How many rows a method's structs may have.
pub(crate) const MAX_ROWS: usize = 32;

// How many parameters a method may have.
pub const MAX_PARAMS: usize = 16;

// Limits and misfits by place, of records in shape in which so much stands.
pub(crate) fn judge_places(
    structs: &[usize],
    params: &[usize],
    output: &[usize],
    shape: Shape,
) -> Result<(), Refusal>
    requires { InShape structs.now params.now output.now shape }
    ensures { result ≡ judged (place_checks structs.now params.now output.now) }
{
    let mut lifetimes = [0usize; MAX_ROWS];
    index_rows(structs, shape.rows, &mut lifetimes)?;
    params_fit(params, shape.params, &lifetimes)?;
    types_fit(output, 0, shape.outputs, &lifetimes).ok_or(Refusal::Mismatch)?;
    Ok(())
}

// The record with its number of rows goes to three functions, here and in `fields`; a struct of the two, with their
// agreement as its invariant, would be no plainer: each caller has them from a call that says so.
//
// Whether the rows of `structs`, so many, are not too many and their fields fit. Accepted, the array holds each row's
// lifetimes: it is lent, since handed back in the `Result` it would be copied.
pub(crate) fn index_rows(
    structs: &[usize],
    rows: usize,
    lifetimes: &mut [usize; MAX_ROWS],
) -> Result<(), Refusal>
    requires { (structs_in_shape structs.now ≡ true) × (length (rows_of structs.now) ≡ rows) }
    ensures { Indexes structs.now (left lifetimes) result }
{
    let mut at = 0;
    for number in 0..rows {
        if MAX_ROWS <= number {
            return Err(Refusal::Full);
        }
        lifetimes[number] = structs[at];
        at = types_fit(structs, at + 2, structs[at + 1], lifetimes).ok_or(Refusal::Mismatch)?;
    }
    Ok(())
}

// Whether parameters, so many, are not too many and fit: a misfit before the 17th comes first.
pub(crate) fn params_fit(
    params: &[usize],
    count: usize,
    lifetimes: &[usize; MAX_ROWS],
) -> Result<(), Refusal>
    ensures { ParamsFit params.now count lifetimes.now result }
{
    types_fit(params, 0, count.min(MAX_PARAMS), lifetimes).ok_or(Refusal::Mismatch)?;
    if MAX_PARAMS < count {
        return Err(Refusal::Full);
    }
    Ok(())
}

// Where so many types end that stand one after another from a place on, if all fit by the lifetimes of the rows that
// they may name. The loop of `types_end` in the crate hir_types, over another step: see there.
fn types_fit(
    words: &[usize],
    from: usize,
    count: usize,
    lifetimes: &[usize; MAX_ROWS],
) -> Option<usize>
    requires { from ≤ length words.now }
    ensures { TypesFit words.now from count lifetimes.now result }
{
    let mut at = from;
    for _i in 0..count {
        at = type_fits(words, at, lifetimes)?;
    }
    Some(at)
}

// Where the type at a place ends, if it fits.
fn type_fits(words: &[usize], at: usize, lifetimes: &[usize; MAX_ROWS]) -> Option<usize>
    ensures { TypeFits words.now at lifetimes.now result }
{
    let parts = type_at(words, at)?;
    if is_misfit(parts.kind, parts.count, lifetimes) {
        return None;
    }
    Some(parts.next)
}

// Whether a type with so many path words is a struct whose row has not as many lifetimes.
fn is_misfit(kind: Kind, count: usize, lifetimes: &[usize; MAX_ROWS]) -> bool
    ensures { result ≡ misfit_in lifetimes.now kind count }
{
    match kind {
        Kind::Struct(row) => count != lifetimes_of(lifetimes, row),
        Kind::Plain | Kind::Opaque | Kind::Slice => false,
    }
}

// The lifetimes of a row.
fn lifetimes_of(lifetimes: &[usize; MAX_ROWS], row: usize) -> usize
    ensures { result ≡ row_lifetimes lifetimes.now row }
{
    lifetimes.get(row).copied().unwrap_or(0)
}
