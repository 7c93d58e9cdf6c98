// Questions for the crate `elision` with a lowerer made by hand.
//
// Such a lowerer is asked for as: its source (0 none, 1 `&self`, 2 one position, else several) and the lowered word of
// its lifetime, how many lifetimes there are, whether the `Self` type was there already (0 no), how many lifetimes it
// had, and the record of their lowered words, the first 16 of them; the others are static.
ghost use Rattle.input.specs.Left.{TakesFront};

use super::questions::Questions;
use super::{ast, print};
use answers::Refusal;
use elision::{ElisionSource, Lifetimes, Lowered, Lowerer, Seen, Stepped};
use lifetimes::{Lifetime, LifetimeEnv, MaybeStatic};
use records::MAX_LIST;

// Kind 14: record of names, a lowerer made by hand, and a step: its kind, the number of generics (kind 0: the
// lifetime), the record of lifetimes, whether it is in the output (0 no). Of kind 3 is a step by its words
// (`lower_step`), which are the record. The refusal's number or 0; the lowerer afterwards: source and its word, how
// many lifetimes, 1 if the `Self` type was there, its lifetimes; and those of the step. A list of lifetimes is how many
// it has, and its 16 words. Refused, the lowerer is as it was, and the step has no lifetimes.
pub(crate) fn step(rt: &impl Print, questions: &mut Questions<'_>)
    ensures left { TakesFront questions.old.left.now questions.new.left.now }
{
    let names = questions.record();
    let lowerer = made_by_hand(questions);
    let kind = questions.number();
    let first = questions.number();
    let words = questions.record();
    let output = 0 < questions.number();
    let stepped = match kind {
        0 => lowerer.lower_lifetime(names, first, output),
        1 => lowerer.lower_generics(names, first, words, output),
        2 => lowerer.is_self(names, words, output),
        _ => lowerer.lower_step(names, words, output),
    };
    print_stepped(rt, stepped, lowerer);
    print::end(rt);
}

// Kind 15: a lowerer made by hand, and an AST environment made by hand as in ast.rt. `finish`: the refusal's number or
// 0, and how many lifetimes are declared, how many there are, how many bounds are pushed; refused, none.
pub(crate) fn finish(rt: &impl Print, questions: &mut Questions<'_>)
    ensures left { TakesFront questions.old.left.now questions.new.left.now }
{
    let lowerer = made_by_hand(questions);
    let made = elision::finish(lowerer, ast::made_by_hand(questions));
    print::first(rt, print::number_of(&made));
    let env = made.unwrap_or(LifetimeEnv::none());
    print::next(rt, env.declared);
    print::next(rt, env.count);
    print::next(rt, env.bounds.pushed);
    print::end(rt);
}

// Kind 21: record of names, and record self, of at most one word. `no_self_ref` where self is empty, else
// `lower_self_ref`: what kind 14 prints; refused, the lowerer of `no_self_ref`.
pub(crate) fn start(rt: &impl Print, questions: &mut Questions<'_>)
    ensures left { TakesFront questions.old.left.now questions.new.left.now }
{
    let names = questions.record();
    let receiver = questions.record();
    let lowerer = Lowerer::no_self_ref(names);
    let stepped = match receiver.first() {
        Some(word) => Lowerer::lower_self_ref(names, *word),
        None => Ok(unmoved(lowerer)),
    };
    print_stepped(rt, stepped, lowerer);
    print::end(rt);
}

// Kind 22: record of names, a lowerer made by hand, and the records of two steps' words. `input_then_output`, and in it
// `Lowerer::step` on a lent lowerer twice: the refusal's number or 0 and the lifetimes, both of the second step.
pub(crate) fn input_then_output(rt: &impl Print, questions: &mut Questions<'_>)
    ensures left { TakesFront questions.old.left.now questions.new.left.now }
{
    let names = questions.record();
    let lowerer = made_by_hand(questions);
    let input = questions.record();
    let answer = elision::input_then_output(lowerer, names, input, questions.record());
    print::first(rt, print::number_of(&answer));
    print_list(rt, answer.unwrap_or(list_of(0, &[])));
    print::end(rt);
}

// A lowerer made by hand.
fn made_by_hand(questions: &mut Questions<'_>) -> Lowerer
    ensures left { TakesFront questions.old.left.now questions.new.left.now }
{
    let code = questions.number();
    let lifetime = MaybeStatic::from_word(questions.number());
    let source = match code {
        0 => ElisionSource::NoBorrows,
        1 => ElisionSource::SelfParam(lifetime),
        2 => ElisionSource::OneParam(lifetime),
        _ => ElisionSource::MultipleBorrows,
    };
    let count = questions.number();
    let kept = 0 < questions.number();
    let n = questions.number();
    let own = list_of(n, questions.record());
    Lowerer {
        seen: Seen { source, count },
        kept,
        own,
    }
}

// Lowered words as a list of lifetimes that says that it has so many.
fn list_of(n: usize, words: &[usize]) -> Lifetimes {
    let none = Lowered {
        lifetime: MaybeStatic::Static,
    };
    let mut list = [none; MAX_LIST];
    for (lowered, word) in list.iter_mut().zip(words) {
        lowered.lifetime = MaybeStatic::from_word(*word);
    }
    Lifetimes { n, list }
}

// A lowerer as it was, and no lifetimes.
fn unmoved(lowerer: Lowerer) -> Stepped {
    Stepped {
        lowerer,
        lifetimes: list_of(0, &[]),
    }
}

// What kind 14 prints, of a step from this lowerer.
fn print_stepped(rt: &impl Print, answer: Result<Stepped, Refusal>, before: Lowerer) {
    print::first(rt, print::number_of(&answer));
    let stepped = answer.unwrap_or(unmoved(before));
    let after = stepped.lowerer;
    print_source(rt, after.seen.source);
    print::next(rt, after.seen.count);
    print::flag(rt, after.kept);
    print_list(rt, after.own);
    print_list(rt, stepped.lifetimes);
}

// A source of elision and its word.
fn print_source(rt: &impl Print, source: ElisionSource) {
    let (code, lifetime) = match source {
        ElisionSource::NoBorrows => (0, MaybeStatic::Static),
        ElisionSource::SelfParam(lifetime) => (1, lifetime),
        ElisionSource::OneParam(lifetime) => (2, lifetime),
        ElisionSource::MultipleBorrows => (3, MaybeStatic::Static),
    };
    print::next(rt, code);
    print_word(rt, lifetime);
}

// The word of a lifetime; the largest number where it has none.
fn print_word(rt: &impl Print, lifetime: MaybeStatic<Lifetime>) {
    print::next(rt, lifetime.word().unwrap_or(usize::MAX));
}

// A list of lifetimes.
fn print_list(rt: &impl Print, lifetimes: Lifetimes) {
    print::next(rt, lifetimes.n);
    for lowered in &lifetimes.list {
        print_word(rt, lowered.lifetime);
    }
}
