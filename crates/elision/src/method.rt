// The whole records `self`, `steps` and `returns`: their lowered words to lent slices, and the method's environment.
//
// They do not go by the `Lowerer` of single steps, which has some 300 bytes: between two steps only what is seen and
// the length of the `Self` type's list are kept, and each word is stored as it comes. Both are proved to be the same
// machine (specs/Machine.antt).
ghost use Rattle.std.specs.Prelude.{◌≡◌, true};
ghost use Rattle.answers.specs.Lent.{held, room, left};
ghost use Rattle.records.specs.Reading.{shape_verdict};
ghost use Rattle.elision.specs.Steps.{receiver_of, steps_in_shape, steps_of};
ghost use Rattle.elision.specs.Machine.{run_method};
ghost use Rattle.elision.specs.Lowering.{in_shape_all, finish_env, measure_records, lower_records, answered, LowersTo};
ghost use Rattle.elision.specs.Inner.{totals, RunsAll};

use super::lowerer::Lowerer;
use super::put::SmallLowerer;
use super::steps::{self_shape, steps_shape};
use answers::Refusal;

// What `lower` answers: how many words each slice was written, and the method's environment.
#[derive(Clone, Copy)]
pub struct Lowering {
    pub selves: usize,
    pub steps: usize,
    pub returns: usize,
    pub env: lifetimes::LifetimeEnv,
}

// Three records lowered: how many words each gave, and how many lifetimes there are.
#[derive(Clone, Copy)]
struct Totals {
    selves: usize,
    steps: usize,
    returns: usize,
    count: usize,
}

// What `lower` answers of these records, before it looks at its slices: how many words each would be written, and the
// method's environment. Refused by 1 over the three records, by 4 and 8 as the AST environment is, then by 3, 4, 5, 6
// at the first bad place.
// The three records, and below the three slices, stay parameters, as callers have them.
pub fn measure(
    env: ast_lifetimes::LifetimeEnv,
    receiver: &[usize],
    steps: &[usize],
    returns: &[usize],
) -> Result<Lowering, Refusal>
    ensures answer { result ≡ answered env (measure_records env receiver.now steps.now returns.now) }
{
    shape_of(receiver, steps, returns)?;
    env.check()?;
    let totals = judge(&env.names[0..env.named], receiver, steps, returns)?;
    Ok(Lowering {
        selves: totals.selves,
        steps: totals.steps,
        returns: totals.returns,
        env: lifetimes::LifetimeEnv::from_bounds(env.named, totals.count, env.bounds),
    })
}

// Lower the records `self`, `steps` and `returns` over the names of an AST environment, and write their words to three
// slices: 0 static, k the lifetime numbered k - 1. The environment has the bounds of the AST's, and all lifetimes,
// declared and new. Refused as `measure` is, then by 9 where a slice is too short. Reads the records twice: the first
// time only to judge and to count.
pub fn lower(
    env: ast_lifetimes::LifetimeEnv,
    receiver: &[usize],
    steps: &[usize],
    returns: &[usize],
    own: &mut [usize],
    given: &mut [usize],
    taken: &mut [usize],
) -> Result<Lowering, Refusal>
    ensures answer { LowersTo env
        (lower_records env receiver.now steps.now returns.now (room own) (room given) (room taken))
        result own given taken }
{
    let measured = measure(env, receiver, steps, returns)?;
    if own.len() < measured.selves
        || given.len() < measured.steps
        || taken.len() < measured.returns
    {
        return Err(Refusal::NoRoom);
    }
    run(
        &env.names[0..env.named],
        receiver,
        steps,
        returns,
        own,
        given,
        taken,
    )?;
    Ok(measured)
}

// The method's environment once its lifetimes are lowered: all of them, declared and new, and the bounds of the AST
// environment. Refused by 4 and 8 as the AST environment is, by 4 for a 65th lifetime, by 8 for more names than
// lifetimes.
pub fn finish(
    lowerer: Lowerer,
    env: ast_lifetimes::LifetimeEnv,
) -> Result<lifetimes::LifetimeEnv, Refusal>
    ensures answer { result ≡ finish_env env lowerer.seen.count }
{
    env.check()?;
    let hir = lifetimes::LifetimeEnv::from_bounds(env.named, lowerer.seen.count, env.bounds);
    hir.check()?;
    Ok(hir)
}

// Lower the records only to judge and to count.
// That the records are in shape stays a clause: `shape_of` has judged it, and a slice carries no fact. The records and
// the slices stay parameters: a struct of lent slices would be taken apart at each call.
fn judge(
    names: &[usize],
    receiver: &[usize],
    steps: &[usize],
    returns: &[usize],
) -> Result<Totals, Refusal>
    requires { (steps_in_shape steps.now ≡ true) × (steps_in_shape returns.now ≡ true) }
    ensures { result
        ≡ totals
        (run_method names.now (receiver_of receiver.now) (steps_of steps.now) (steps_of returns.now)) }
{
    let mut own = [0usize; 1];
    let mut given = [0usize; 1];
    let mut taken = [0usize; 1];
    run(
        names, receiver, steps, returns, &mut own, &mut given, &mut taken,
    )
}

// Lower the records, and store of their words what the slices take.
fn run(
    names: &[usize],
    receiver: &[usize],
    steps: &[usize],
    returns: &[usize],
    own: &mut [usize],
    given: &mut [usize],
    taken: &mut [usize],
) -> Result<Totals, Refusal>
    requires { (steps_in_shape steps.now ≡ true) × (steps_in_shape returns.now ≡ true) }
    ensures { RunsAll
        (run_method names.now (receiver_of receiver.now) (steps_of steps.now) (steps_of returns.now)) (held own)
        (held given) (held taken) (left own) (left given) (left taken) result }
{
    let mut lowerer = SmallLowerer::unused(names);
    let selves = lowerer.put_receiver(names, receiver, own)?;
    let stepped = lowerer.put_record(names, steps, false, given)?;
    let returned = lowerer.put_record(names, returns, true, taken)?;
    Ok(Totals {
        selves,
        steps: stepped,
        returns: returned,
        count: lowerer.seen.count,
    })
}

// The shape of the three records.
fn shape_of(receiver: &[usize], steps: &[usize], returns: &[usize]) -> Result<(), Refusal>
    ensures { result ≡ shape_verdict (in_shape_all receiver.now steps.now returns.now) }
{
    self_shape(receiver)?;
    steps_shape(steps)?;
    steps_shape(returns)
}
