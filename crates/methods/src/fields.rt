// The lifetimes of a struct-typed field: which of the outer definition's fills which of the field's.
ghost use Rattle.std.specs.Prelude.{◌≡◌, true, ◌≤◌, ◌<◌, length};
ghost use Rattle.answers.specs.Refusals.{over};
ghost use Rattle.records.specs.Reading.{most_list};
ghost use Rattle.hir_types.specs.Rows.{rows_of, structs_in_shape};
ghost use Rattle.methods.specs.Fields.{pairs_from, given_pairs, field_pairs};
ghost use Rattle.methods.specs.Inner.{RowIs, TypesSkip, FieldIs};

use super::fits::{MAX_ROWS, index_rows};
use answers::Refusal;
use hir_types::{Kind, Parts, path_words, structs_shape, type_at};
use lifetimes::{DefLifetime, MaybeStatic, linked_pair};
use records::MAX_LIST;

// A lifetime of a field's definition, and the lifetime of the outer definition that fills it.
#[derive(Clone, Copy)]
pub struct FieldPair {
    pub def: DefLifetime,
    pub outer: DefLifetime,
}

// How many pairs there are, and the pairs in the first places, ascending by the field's lifetime; the other places hold
// pairs of 0. An array of fixed length beside a count, since there is no heap here.
#[derive(Clone, Copy)]
pub struct FieldLifetimes {
    pub count: usize,
    pub pairs: [FieldPair; MAX_LIST],
}

// The pairs of one struct-typed field of a row, under an option or not; none if there is no pair. Refused by 1 over the
// record, for a row or field that is not there and for a field of another type; then by 4 and 7 as the rows are. Reads
// the record three times. In the Rust it is of `StructBorrowInfo`, in methods/borrowing_param.rs.
pub fn compute_for_struct_field(
    structs: &[usize],
    row: usize,
    field: usize,
) -> Result<Option<FieldLifetimes>, Refusal>
    ensures answer { result ≡ over given_pairs (field_pairs structs.now row field) }
{
    let rows = structs_shape(structs)?;
    let (inner, parts) = field_at(structs, rows, row, field).ok_or(Refusal::Malformed)?;
    let mut lifetimes = [0usize; MAX_ROWS];
    index_rows(structs, rows, &mut lifetimes)?;
    let path = path_words(structs, parts.from, parts.count);
    Ok(pairs_of(path, lifetimes[inner], lifetimes[row]))
}

// The pairs of a field's path words, which are as many as the lifetimes of the field's own definition: so they link.
fn pairs_of(path: &[usize], count: usize, declared: usize) -> Option<FieldLifetimes>
    requires { (length path.now ≡ count) × (count ≤ most_list) }
    ensures { result ≡ given_pairs (pairs_from declared 0 path.now) }
{
    let none = FieldPair {
        def: DefLifetime::new(0),
        outer: DefLifetime::new(0),
    };
    let mut pairs = [none; MAX_LIST];
    let mut n = 0;
    for i in 0..count {
        // A pair is there, so that neither way out is met, and there is no refusal to hand on.
        let Ok(linked) = linked_pair(path, count, i) else {
            continue;
        };
        let Some((word, def)) = linked else {
            continue;
        };
        let lifetime = MaybeStatic::<DefLifetime>::from_word(word);
        let MaybeStatic::NonStatic(outer) = lifetime else {
            continue;
        };
        if outer.index() < declared {
            pairs[n] = FieldPair { def, outer };
            n += 1;
        }
    }
    if n == 0 {
        return None;
    }
    Some(FieldLifetimes { count: n, pairs })
}

// The field with a number of the row with a number, if it is there and is a struct: the row that it names, and its
// parts.
fn field_at(structs: &[usize], rows: usize, row: usize, field: usize) -> Option<(usize, Parts)>
    requires { (structs_in_shape structs.now ≡ true) × (length (rows_of structs.now) ≡ rows) }
    ensures { FieldIs structs.now row field result }
{
    if rows <= row {
        return None;
    }
    let place = row_place(structs, row)?;
    if structs[place + 1] <= field {
        return None;
    }
    let at = skip_types(structs, place + 2, field)?;
    let parts = type_at(structs, at)?;
    match parts.kind {
        Kind::Struct(inner) => Some((inner, parts)),
        Kind::Plain | Kind::Opaque | Kind::Slice => None,
    }
}

// Where the row with a number stands.
fn row_place(structs: &[usize], row: usize) -> Option<usize>
    requires { (structs_in_shape structs.now ≡ true) × (row < length (rows_of structs.now)) }
    ensures { RowIs structs.now row result }
{
    let mut at = 0;
    for _number in 0..row {
        at = skip_types(structs, at + 2, structs[at + 1])?;
    }
    Some(at)
}

// The place behind so many types. The crate `hir_types` has such a walk that looks the rows up as well; what that one
// says is for its own functions, and a public promise of it would be no plainer than this one.
fn skip_types(words: &[usize], from: usize, count: usize) -> Option<usize>
    ensures { TypesSkip words.now from count result }
{
    let mut at = from;
    for _i in 0..count {
        let parts = type_at(words, at)?;
        at = parts.next;
    }
    Some(at)
}
