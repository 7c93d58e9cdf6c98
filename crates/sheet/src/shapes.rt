// The first refusals of the ten records of a sheet: their shape, and 1 in `force`.
ghost use Rattle.std.specs.Prelude.{◌&&◌, ◌≡◌};
ghost use Rattle.ast_lifetimes.specs.Shapes.{names_in_shape, bounds_in_shape};
ghost use Rattle.ast_lifetimes.specs.Types.{types_in_shape};
ghost use Rattle.elision.specs.Steps.{self_in_shape, steps_in_shape};
ghost use Rattle.answers.specs.Lent.{held};
ghost use Rattle.sheet.specs.Text.{records_in};
ghost use Rattle.sheet.specs.Shape.{records_verdict};

use super::record::Records;
use answers::Refusal;
use ast_lifetimes::{bounds_shape, names_shape, types_shape};
use elision::{self_shape, steps_shape};
use hir_types::method_shape;

// The first refusal of ten records: 1 over all of them, for one that is not in shape (or has more than 1,024 words),
// then 13 for 1 in `force`. Reads no word of a record that is too long, and each of the others once.
pub fn sheet_shape(records: Records) -> Result<(), Refusal>
    ensures answer { result ≡ records_verdict (records_in records.entry) }
{
    let environment = environment_in_shape(records.names, records.bounds, records.types);
    let elision = elision_in_shape(records.own, records.steps, records.returns);
    if !(environment & elision) {
        return Err(Refusal::Malformed);
    }
    method_shape(
        records.structs,
        records.params,
        records.output,
        records.force,
    )?;
    Ok(())
}

// Each record is judged, whatever the others are.
fn environment_in_shape(names: &[usize], bounds: &[usize], types: &[usize]) -> bool
    ensures { result ≡ names_in_shape names.now && (bounds_in_shape bounds.now && types_in_shape types.now) }
{
    names_shape(names).is_ok() & (bounds_shape(bounds).is_ok() & types_shape(types).is_ok())
}

fn elision_in_shape(own: &[usize], steps: &[usize], returns: &[usize]) -> bool
    ensures { result ≡ self_in_shape own.now && (steps_in_shape steps.now && steps_in_shape returns.now) }
{
    self_shape(own).is_ok() & (steps_shape(steps).is_ok() & steps_shape(returns).is_ok())
}
