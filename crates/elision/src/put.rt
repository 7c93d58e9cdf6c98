// The records `self`, `steps` and `returns` lowered step by step, each word stored as it comes.
//
// They do not go by the `Lowerer` of single steps, which holds the lifetimes of the `Self` type and gives those of each
// step: of the `Self` type only the words are kept here.
ghost use Rattle.std.specs.Prelude.{◌≡◌, true, ℕ, ◌+◌, ◌≤◌, length, take, drop, set};
ghost use Rattle.std.proofs.lemmas.List.Edits.{sets};
ghost use Rattle.elision.specs.Steps.{receiver_of, read_step, steps_in_shape, steps_of};
ghost use Rattle.elision.specs.Rfc.{appended, standing_in};
ghost use Rattle.elision.specs.Machine.{lower_words, lower_self, words_step, self_step, run_steps};
ghost use Rattle.elision.specs.Inner.{StandsAt, IsSomewhere, shown, small_unused};
ghost use Rattle.elision.specs.Inner.{Shows, Lowers, Puts, PutsOne, PutsStep};
ghost use Rattle.elision.specs.declared.lowerer.Lowerer.{Lowerer};
ghost use Rattle.answers.specs.Lent.{held, left};
ghost use Rattle.records.specs.Reading.{most_list};

use super::lowerer::{Seen, Standing, lower_word, standing_in, word_or_anonymous};
use super::source::ElisionSource;
use super::steps::{StepAt, read_step};
use answers::Refusal;
use lifetimes::{Lifetime, MaybeStatic};
use records::MAX_LIST;

// A lowerer as it goes through the records: what is seen, whether the `Self` type was there, and how many lifetimes it
// has then, whose words stand in front of the list. That these are at most 16 each contract says for itself: a ghost
// field would put a proof into every record that a law speaks of, and this struct into a file of its own.
// `kept` is a bool beside the lifetimes as in `Lowerer`; their array is of fixed length, since there is no heap here.
#[derive(Clone, Copy)]
pub(crate) struct SmallLowerer {
    pub(crate) seen: Seen,
    pub(crate) kept: bool,
    pub(crate) own: usize,
    pub(crate) list: [usize; MAX_LIST],
}

// Some words lowered and stored: what is seen then, and the place behind them.
#[derive(Clone, Copy)]
struct Put {
    seen: Seen,
    at: usize,
}

impl SmallLowerer {
    // The lowerer of a method, before its records.
    pub(crate) fn unused(names: &[usize]) -> SmallLowerer
        ensures { result ≡ small_unused names.now }
    {
        SmallLowerer {
            seen: Seen {
                source: ElisionSource::NoBorrows,
                count: names.len(),
            },
            kept: false,
            own: 0,
            list: [0; MAX_LIST],
        }
    }

    // Lower the record `self`, and store its word; the answer is how many words it has.
    pub(crate) fn put_receiver(
        &mut self,
        names: &[usize],
        receiver: &[usize],
        out: &mut [usize],
    ) -> Result<usize, Refusal>
        requires { self.old ≡ small_unused names.now }
        ensures few { self.new.own ≤ most_list }
        ensures lowers { Lowers (lower_self names.now (receiver_of receiver.now)) 0 (held out) (left out) (left self)
            result }
    {
        if receiver.is_empty() {
            return Ok(0);
        }
        let done = lower_word(names, Standing::Aside, receiver[0], self.seen)?;
        store(out, 0, word_of(done.lifetime));
        self.seen = Seen {
            source: ElisionSource::SelfParam(done.lifetime),
            count: done.seen.count,
        };
        Ok(1)
    }

    // Lower a record `steps` or `returns` as `put_steps` does. A record without words needs no call.
    pub(crate) fn put_record(
        &mut self,
        names: &[usize],
        words: &[usize],
        output: bool,
        out: &mut [usize],
    ) -> Result<usize, Refusal>
        requires { (steps_in_shape words.now ≡ true) × (self.old.own ≤ most_list) }
        ensures few { self.new.own ≤ most_list }
        ensures lowers { (s : Lowerer) → Shows s (held self)
            → Lowers (run_steps names.now output (steps_of words.now) s) 0 (held out) (left out) (left self) result }
    {
        if words.is_empty() {
            return Ok(0);
        }
        self.put_steps(names, words, output, out)
    }

    // Lower the steps of a record one after another, and store their words; the answer is how many they are. Refused,
    // nothing is said of the lowerer and of the slice: words may have been stored before the bad place.
    fn put_steps(
        &mut self,
        names: &[usize],
        words: &[usize],
        output: bool,
        out: &mut [usize],
    ) -> Result<usize, Refusal>
        requires { (steps_in_shape words.now ≡ true) × (self.old.own ≤ most_list) }
        ensures few { self.new.own ≤ most_list }
        ensures lowers { (s : Lowerer) → Shows s (held self)
            → Lowers (run_steps names.now output (steps_of words.now) s) 0 (held out) (left out) (left self) result }
    {
        let mut n = 0;
        let mut at = 0;
        while at < words.len() {
            let step = read_step(words, at).ok_or(Refusal::Malformed)?;
            n = self.put_step(names, words, step, output, n, out)?;
            at = step.end();
        }
        Ok(n)
    }

    // Lower a step that stands somewhere in a record, and store its words; the answer is the place behind them.
    // `n`, and `at` below, are at most 65,536, so that no sum overflows; a record gives at most 8,192. It stays a
    // clause: a type for the one number would be no plainer. `output` stays a bool: see `Lowerer::lower_lifetime`.
    fn put_step(
        &mut self,
        names: &[usize],
        words: &[usize],
        step: StepAt,
        output: bool,
        n: usize,
        out: &mut [usize],
    ) -> Result<usize, Refusal>
        requires { IsSomewhere words.now step × (self.old.own ≤ most_list) × (n ≤ 65536) }
        ensures { (at : ℕ) → StandsAt words.now at (read_step (drop at words.now)) (Some step)
            → PutsStep names.now words.now output at n (held self) (left self) (held out) (left out) result }
    {
        match step {
            StepAt::Lifetime { to, .. } => self.put_given(
                names,
                &words[to - 1..to],
                0,
                output,
                n,
                out,
            ),
            StepAt::Generics { generics, from, to } => {
                self.put_given(names, &words[from..to], generics, output, n, out)
            }
            StepAt::SelfType { from, to } => self.put_self(names, &words[from..to], n, out),
        }
    }

    // Lower the words of a step of kind 0 or 1, and store them.
    fn put_given(
        &mut self,
        names: &[usize],
        words: &[usize],
        generics: usize,
        output: bool,
        n: usize,
        out: &mut [usize],
    ) -> Result<usize, Refusal>
        requires { (length words.now ≤ most_list) × (generics ≤ most_list) × (self.old.own ≤ most_list) × (n ≤ 65536) }
        ensures { PutsOne (words_step names.now (standing_in output) (appended generics words.now)) n (held self)
            (left self) (held out) (left out) result }
    {
        let put = put_words(
            names,
            standing_in(output),
            words,
            generics,
            self.seen,
            n,
            out,
        )?;
        self.seen = put.seen;
        Ok(put.at)
    }

    // The `Self` type (kind 2): at its first use its words are lowered into the list, and always those in the list are
    // stored.
    fn put_self(
        &mut self,
        names: &[usize],
        words: &[usize],
        n: usize,
        out: &mut [usize],
    ) -> Result<usize, Refusal>
        requires { (length words.now ≤ most_list) × (self.old.own ≤ most_list) × (n ≤ 65536) }
        ensures { PutsOne (self_step names.now words.now) n (held self) (left self) (held out) (left out) result }
    {
        if self.kept {
            return Ok(self.put_own(n, out));
        }
        let put = put_words(
            names,
            Standing::Aside,
            words,
            0,
            self.seen,
            0,
            &mut self.list,
        )?;
        self.seen = put.seen;
        self.kept = true;
        self.own = put.at;
        Ok(self.put_own(n, out))
    }

    // Store the words of the lifetimes of the `Self` type from a place on, as far as the slice takes them; the answer
    // is the place behind them.
    fn put_own(&self, n: usize, out: &mut [usize]) -> usize
        requires { (self.now.own ≤ most_list) × (n ≤ 65536) }
        ensures answer { result ≡ n + self.now.own }
        ensures stored { length self.now.list ≡ most_list
            → left out ≡ sets (held out) n (take self.now.own self.now.list) }
    {
        for i in 0..self.own {
            store(out, n + i, self.list[i]);
        }
        n + self.own
    }
}

// Lower some words, then anonymous ones until there are as many as generics, and store each from a place on, as far as
// the slice takes them.
// The loop of `lower_words`, see there.
fn put_words(
    names: &[usize],
    standing: Standing,
    words: &[usize],
    generics: usize,
    seen: Seen,
    at: usize,
    out: &mut [usize],
) -> Result<Put, Refusal>
    requires { (length words.now ≤ most_list) × (generics ≤ most_list) × (at ≤ 65536) }
    ensures { Puts (lower_words names.now standing (appended generics words.now) seen) at (held out) (left out) result }
{
    let total = words.len().max(generics);
    let mut here = seen;
    for i in 0..total {
        let word = word_or_anonymous(words, i);
        let done = lower_word(names, standing, word, here)?;
        here = done.seen;
        store(out, at + i, word_of(done.lifetime));
    }
    Ok(Put {
        seen: here,
        at: at + total,
    })
}

// Store a word, if the slice takes it.
fn store(out: &mut [usize], at: usize, word: usize)
    ensures { left out ≡ set (held out) at word }
{
    if at < out.len() {
        out[at] = word;
    }
}

// The word of a lifetime.
fn word_of(lifetime: MaybeStatic<Lifetime>) -> usize
    ensures { result ≡ shown lifetime }
{
    lifetime.word().unwrap_or(0)
}
