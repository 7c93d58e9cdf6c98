// The refusal of a method, and of two of its records alone.
ghost use Rattle.std.specs.Prelude.{◌≡◌};
ghost use Rattle.methods.specs.Method.{method_verdict, structs_and_params_verdict};

use super::fits::{MAX_ROWS, index_rows, params_fit};
use super::used::used_method_lifetimes;
use answers::Refusal;
use hir_types::{params_shape, structs_shape};
use lifetimes::LifetimeEnv;

// Whether an environment and four records make a method. Refused by 1 over the records; by 13 for 1 in `force`; by 4 as
// the environment is; by 4 and 7 at the first bad place of `structs`, `params`, `output`; by 8 as the environment is,
// and for a lifetime of the output past the count.
pub fn check_method(
    env: LifetimeEnv,
    structs: &[usize],
    params: &[usize],
    output: &[usize],
    force: &[usize],
) -> Result<(), Refusal>
    ensures answer { result ≡ method_verdict env structs.now params.now output.now force.now }
{
    used_method_lifetimes(env, structs, params, output, force)?;
    Ok(())
}

// Whether two records can be those of a method, whatever else it has. Refused by 1, then by 4 and 7 at the first bad
// place. No environment is looked at, so none is passed.
pub fn check_structs_and_params(structs: &[usize], params: &[usize]) -> Result<(), Refusal>
    ensures answer { result ≡ structs_and_params_verdict structs.now params.now }
{
    let rows = structs_shape(structs)?;
    let inputs = params_shape(params, rows)?;
    let mut lifetimes = [0usize; MAX_ROWS];
    index_rows(structs, rows, &mut lifetimes)?;
    params_fit(params, inputs, &lifetimes)
}
