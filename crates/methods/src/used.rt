// The lifetimes that a method uses.
ghost use Rattle.std.specs.Prelude.{◌≡◌};
ghost use Rattle.methods.specs.Used.{used_set};

use super::fits::judge_places;
use super::output::collect_types;
use answers::Refusal;
use hir_types::method_shape;
use lifetimes::{Bounds, LifetimeEnv};

// The lifetimes that a method uses: those of its output that are not static, at most 34. Refused as the method is (1,
// 13, 4, 7, 8): `force` is one of its records. Reads each row once.
pub fn used_method_lifetimes(
    env: LifetimeEnv,
    structs: &[usize],
    params: &[usize],
    output: &[usize],
    force: &[usize],
) -> Result<u64, Refusal>
    ensures answer { result ≡ used_set env structs.now params.now output.now force.now }
{
    let shape = method_shape(structs, params, output, force)?;
    let count = env.count;
    let pushed = env.bounds.pushed;
    if LifetimeEnv::MAX_LIFETIMES < count || Bounds::MAX < pushed {
        return Err(Refusal::Full);
    }
    judge_places(structs, params, output, shape)?;
    env.check()?;
    collect_types(output, shape.outputs, count).ok_or(Refusal::OutOfRange)
}
