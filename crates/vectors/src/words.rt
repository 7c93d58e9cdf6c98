// Questions for the crates `lifetimes` and `records`: lists that a call copies to one slice, and the words of
// lifetimes.
ghost use Rattle.input.specs.Left.{TakesFront};

use super::questions::Questions;
use super::{print, rooms};
use lifetimes::{DefLifetime, Lifetime, MaybeStatic, Numbered, set};
use records::copy_words;

// Kind 19: 0 for `set::members`, else `copy_words`; a record, a number, and how long the lent slice is. The set is that
// of the record's lifetimes, those below 64; the copy is of so many of the record's words as the number says. The
// refusal's number or 0, the count, and all words of the slice.
pub(crate) fn list(rt: &impl Print, questions: &mut Questions<'_>)
    ensures left { TakesFront questions.old.left.now questions.new.left.now }
{
    let which = questions.number();
    let given = questions.record();
    let count = questions.number();
    let n = questions.number().min(rooms::WORDS);
    let mut out = rooms::words();
    let lent = &mut out[..n];
    let listed = match which {
        0 => set::members(set_of(given), lent),
        _ => copy_words(given, count, lent),
    };
    print::first(rt, print::number_of(&listed));
    print::next(rt, listed.unwrap_or(0));
    print::all(rt, lent);
    print::end(rt);
}

// Kind 20: 0 for static, else the lifetime with the number behind it. Its lowered word as a lifetime of a method, and
// as one of a definition: 0 and the word, or 1 and 0 where it has none.
pub(crate) fn word(rt: &impl Print, questions: &mut Questions<'_>)
    ensures left { TakesFront questions.old.left.now questions.new.left.now }
{
    let code = questions.number();
    let number = questions.number();
    let method = lifetime::<Lifetime>(code, number).word();
    let definition = lifetime::<DefLifetime>(code, number).word();
    print::first(rt, usize::from(method.is_none()));
    print::next(rt, method.unwrap_or(0));
    print::flag(rt, definition.is_none());
    print::next(rt, definition.unwrap_or(0));
    print::end(rt);
}

// A lifetime of a method or of a definition.
fn lifetime<T: Numbered>(code: usize, number: usize) -> MaybeStatic<T> {
    match code {
        0 => MaybeStatic::Static,
        _ => MaybeStatic::NonStatic(T::new(number)),
    }
}

// The set of some lifetimes, those below 64.
pub(crate) fn set_of(lifetimes: &[usize]) -> u64 {
    lifetimes.iter().fold(set::EMPTY, |found, lifetime| {
        set::insert(found, Lifetime::new(*lifetime))
    })
}
