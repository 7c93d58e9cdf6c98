// Questions for the crate `elision`.
ghost use Rattle.input.specs.Left.{TakesFront};

use super::questions::Questions;
use super::{print, rooms};
use ast_lifetimes::LifetimeEnv;
use elision::Lowering;

// The longest slice that is lent for the lowered `self`: more than the one word that it may have.
const OWN: usize = 4;

// Kind 7: records names, bounds, types, self, steps, returns, and how long the three lent slices are, at most 4, 8,192
// and 8,192 words. The number of `from_method_item` if it refuses; else what `lower` answers: the refusal's number or
// 0, the three counts, how many lifetimes are declared and how many there are, and all words of the slices, which were
// 99. Refused, the five numbers are 0.
pub(crate) fn lower(rt: &impl Print, questions: &mut Questions<'_>)
    ensures left { TakesFront questions.old.left.now questions.new.left.now }
{
    let names = questions.record();
    let bounds = questions.record();
    let made = LifetimeEnv::from_method_item(names, bounds, questions.record());
    let receiver = questions.record();
    let steps = questions.record();
    let returns = questions.record();
    let lengths = [questions.number(), questions.number(), questions.number()];
    match made {
        Err(refusal) => print::first(rt, refusal.number()),
        Ok(env) => print_lowered(rt, env, receiver, steps, returns, lengths),
    }
    print::end(rt);
}

// What `lower` answers, lent slices of these lengths, and all words of the slices.
fn print_lowered(
    rt: &impl Print,
    env: LifetimeEnv,
    receiver: &[usize],
    steps: &[usize],
    returns: &[usize],
    lengths: [usize; 3],
) {
    let mut own: [usize; OWN] = rooms::few();
    let mut given = rooms::words();
    let mut taken = rooms::words();
    let own = &mut own[..lengths[0].min(OWN)];
    let given = &mut given[..lengths[1].min(rooms::WORDS)];
    let taken = &mut taken[..lengths[2].min(rooms::WORDS)];
    let lowering = elision::lower(env, receiver, steps, returns, own, given, taken);
    print::first(rt, print::number_of(&lowering));
    print::all(rt, &lowering.map_or([0; 5], counts));
    print::all(rt, own);
    print::all(rt, given);
    print::all(rt, taken);
}

// How many words each record gave, and how many lifetimes are declared and there are.
fn counts(lowering: Lowering) -> [usize; 5] {
    [
        lowering.selves,
        lowering.steps,
        lowering.returns,
        lowering.env.declared,
        lowering.env.count,
    ]
}
