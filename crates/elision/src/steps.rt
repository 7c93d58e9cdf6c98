// The records `self`, `steps` and `returns`: their shape.
ghost use Rattle.std.specs.Prelude.{◌≡◌, drop};
ghost use Rattle.records.specs.Reading.{shape_verdict};
ghost use Rattle.elision.specs.Steps.{read_step, self_in_shape, steps_in_shape};
ghost use Rattle.elision.specs.Inner.{StandsAt, step_end};

use answers::Refusal;
use records::{MAX_LIST, MAX_WORDS, lifetimes_end};

// A step as it stands in a record: its words are read where they are, from `from` to `to`, and `to` is the place behind
// it.
#[derive(Clone, Copy)]
pub(crate) enum StepAt {
    Lifetime {
        word: usize,
        to: usize,
    },
    Generics {
        generics: usize,
        from: usize,
        to: usize,
    },
    SelfType {
        from: usize,
        to: usize,
    },
}

impl StepAt {
    // The place behind the step.
    pub(crate) fn end(self) -> usize
        ensures { result ≡ step_end self }
    {
        match self {
            StepAt::Lifetime { to, .. }
            | StepAt::Generics { to, .. }
            | StepAt::SelfType { to, .. } => to,
        }
    }
}

// Whether the record `self` is in shape: empty, or one lifetime. Refused by 1.
pub fn self_shape(receiver: &[usize]) -> Result<(), Refusal>
    ensures answer { result ≡ shape_verdict (self_in_shape receiver.now) }
{
    if 1 < receiver.len() {
        return Err(Refusal::Malformed);
    }
    Ok(())
}

// Whether a record `steps` or `returns` is in shape: steps one after another to its end. Refused by 1. Reads each
// step's head once.
pub fn steps_shape(steps: &[usize]) -> Result<(), Refusal>
    ensures answer { result ≡ shape_verdict (steps_in_shape steps.now) }
{
    if MAX_WORDS < steps.len() {
        return Err(Refusal::Malformed);
    }
    let mut at = 0;
    // No range to go over: where the next step stands is read from this one.
    while at < steps.len() {
        let step = read_step(steps, at).ok_or(Refusal::Malformed)?;
        at = step.end();
    }
    Ok(())
}

// The step that stands at a place.
pub(crate) fn read_step(words: &[usize], at: usize) -> Option<StepAt>
    ensures { StandsAt words.now at (read_step (drop at words.now)) result }
{
    let kind = *words.get(at)?;
    let next = at + 1;
    // The codes are the record's, as 01 gives them.
    match kind {
        0 => Some(StepAt::Lifetime {
            word: *words.get(next)?,
            to: next + 1,
        }),
        1 => {
            let generics = *words.get(next)?;
            if MAX_LIST < generics {
                return None;
            }
            let count = next + 1;
            let to = lifetimes_end(words, count)?;
            Some(StepAt::Generics {
                generics,
                from: count + 1,
                to,
            })
        }
        2 => {
            let to = lifetimes_end(words, next)?;
            Some(StepAt::SelfType { from: next + 1, to })
        }
        _ => None,
    }
}
