// One step of a record by its words: by value, on a lowerer that is lent, and two in a row.
//
// "each later step finds the lowerer as the step before left it" (01): a caller keeps one lowerer and lends it to one
// step after another.
ghost use Rattle.std.specs.Prelude.{◌≡◌};
ghost use Rattle.elision.specs.Machine.{stepped, given_by, left_by, worded_step, input_then_output};
ghost use Rattle.answers.specs.Lent.{held, left};

use super::lowerer::{Lifetimes, Lowerer, Stepped};
use super::steps::{StepAt, read_step};
use answers::Refusal;

impl Lowerer {
    // One step of `steps`, or of `returns` for an output, by its words: `0 l`, `1 g n` and n lifetimes, or `2 n` and n
    // lifetimes. Refused by 1 where the words are not exactly one step, then as the step is.
    pub fn lower_step(
        self,
        names: &[usize],
        words: &[usize],
        output: bool,
    ) -> Result<Stepped, Refusal>
        ensures answer { result ≡ stepped (worded_step names.now output words.now self) }
    {
        let step = read_step(words, 0).ok_or(Refusal::Malformed)?;
        if step.end() != words.len() {
            return Err(Refusal::Malformed);
        }
        match step {
            StepAt::Lifetime { word, .. } => self.lower_lifetime(names, word, output),
            StepAt::Generics { generics, from, to } => self.lower_generics(
                names,
                generics,
                &words[from..to],
                output,
            ),
            StepAt::SelfType { from, to } => self.is_self(names, &words[from..to], output),
        }
    }

    // The same on a lowerer that is lent, which is left as the step leaves it. Refused, it stays as it was, also where
    // the step had made lifetimes before the place that is refused.
    pub fn step(
        &mut self,
        names: &[usize],
        words: &[usize],
        output: bool,
    ) -> Result<Lifetimes, Refusal>
        ensures answer { result ≡ given_by (worded_step names.now output words.now (held self)) }
        ensures stored { left self ≡ left_by (held self) (worded_step names.now output words.now (held self)) }
    {
        let done = self.lower_step(names, words, output)?;
        *self = done.lowerer;
        Ok(done.lifetimes)
    }
}

// Two steps in a row on a lowerer of its own: one of a parameter, then one of the output, which finds the source of
// elision as the parameter left it. A refused first step leaves none. The answer is the second's. It shows how one
// lowerer is lent to two steps.
pub fn input_then_output(
    lowerer: Lowerer,
    names: &[usize],
    input: &[usize],
    output: &[usize],
) -> Result<Lifetimes, Refusal>
    ensures answer { result ≡ given_by (input_then_output names.now input.now output.now lowerer) }
{
    let mut own = lowerer;
    let _ = own.step(names, input, false);
    own.step(names, output, true)
}
