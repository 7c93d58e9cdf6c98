// The lowerer: what it knows between two steps, and the steps, by value.
ghost use Rattle.std.specs.Prelude.{◌≡◌, List, [], ◌∷◌, ◌++◌, ◌<◌, ◌≤◌, length, get_or};
ghost use Rattle.answers.specs.Lent.{held, left};
ghost use Rattle.elision.specs.Steps as steps;
ghost use Rattle.elision.specs.Rfc.{MethodLifetime, appended, standing_in};
ghost use Rattle.elision.specs.Machine.{visited, new_lifetime, lower_anonymous, lower_word, lower_words, unused};
ghost use Rattle.elision.specs.Machine.{self_ref, one_step, laid, values_in, stepped};
ghost use Rattle.elision.specs.Inner.{worded, ran};
ghost use Rattle.records.specs.Reading.{most_list};

use super::source::ElisionSource;
use answers::Refusal;
use ast_lifetimes::position;
use lifetimes::{Lifetime, MaybeStatic};
use records::MAX_LIST;

// How a lifetime stands in a method.
#[derive(Clone, Copy)]
pub enum Standing {
    // An input position (kinds 0 and 1 in `steps`).
    Input,
    // Lowered, but no position: that of `&self`, and those of the `Self` type (kind 2).
    Aside,
    // In the output (kinds 0 and 1 in `returns`).
    Output,
}

// A lowered lifetime, as it stands in a list.
#[derive(Clone, Copy)]
pub struct Lowered {
    pub lifetime: MaybeStatic<Lifetime>,
}

// The lowered lifetimes of one type: the first n of the array, which is of fixed length, since there is no heap here.
// In the Rust it is in hir/lifetimes.rs.
#[derive(Clone, Copy)]
pub struct Lifetimes {
    pub n: usize,
    pub list: [Lowered; MAX_LIST],
}

// What the lifetimes so far have brought: the source of elision, and how many lifetimes there are, declared and new.
#[derive(Clone, Copy)]
pub struct Seen {
    pub source: ElisionSource,
    pub count: usize,
}

// What a lowerer knows between two steps. `kept` says whether the `Self` type was there already; `own` are its
// lifetimes then (in the Rust `self_lifetimes`, and what is seen `elision_source` and `num_lifetimes`).
// `kept` and `own` are no Option: made by hand, a lowerer may hold lifetimes that do not count, and a step leaves them.
#[derive(Clone, Copy)]
pub struct Lowerer {
    pub seen: Seen,
    pub kept: bool,
    pub own: Lifetimes,
}

// What a step answers: the lifetimes and the next lowerer.
#[derive(Clone, Copy)]
pub struct Stepped {
    pub lowerer: Lowerer,
    pub lifetimes: Lifetimes,
}

// One lifetime lowered, and what is seen then.
#[derive(Clone, Copy)]
pub(crate) struct Worded {
    pub(crate) lifetime: MaybeStatic<Lifetime>,
    pub(crate) seen: Seen,
}

// Some lifetimes lowered, and what is seen then.
#[derive(Clone, Copy)]
struct Run {
    lifetimes: Lifetimes,
    seen: Seen,
}

impl Lifetimes {
    // A list without lifetimes.
    fn none() -> Lifetimes
        ensures { result ≡ laid [] }
    {
        let none = Lowered {
            lifetime: MaybeStatic::Static,
        };
        Lifetimes {
            n: 0,
            list: [none; MAX_LIST],
        }
    }

    // One lifetime more, behind those of the list.
    fn push(&mut self, lifetime: MaybeStatic<Lifetime>)
        requires { self.old.n < most_list }
        ensures { (ls : List MethodLifetime) → held self ≡ laid ls → left self ≡ laid (ls ++ (lifetime ∷ [])) }
    {
        let n = self.n;
        self.list[n] = Lowered { lifetime };
        self.n = n + 1;
    }
}

impl Lowerer {
    // The lowerer of a method without `&self`.
    pub fn no_self_ref(names: &[usize]) -> Lowerer
        ensures answer { result ≡ unused names.now }
    {
        Lowerer {
            seen: Seen {
                source: ElisionSource::NoBorrows,
                count: names.len(),
            },
            kept: false,
            own: Lifetimes::none(),
        }
    }

    // The lowerer of a method with `&self`, whose lifetime is the source of elision; it is the one answered. Refused by
    // 3 for a name that is not declared, by 4 for a 65th lifetime.
    pub fn lower_self_ref(names: &[usize], word: usize) -> Result<Stepped, Refusal>
        ensures answer { result ≡ stepped (self_ref names.now word) }
    {
        let fresh = Lowerer::no_self_ref(names);
        let done = lower_word(names, Standing::Aside, word, fresh.seen)?;
        let seen = Seen {
            source: ElisionSource::SelfParam(done.lifetime),
            count: done.seen.count,
        };
        let mut lifetimes = Lifetimes::none();
        lifetimes.push(done.lifetime);
        Ok(Stepped {
            lowerer: Lowerer { seen, ..fresh },
            lifetimes,
        })
    }

    // One lifetime (kind 0), of a parameter or of the output. Refused by 3, 4, 5, 6. Here and in the other steps
    // `output` stays a bool, as in the definitions: an enum of two names would be no plainer.
    pub fn lower_lifetime(
        self,
        names: &[usize],
        word: usize,
        output: bool,
    ) -> Result<Stepped, Refusal>
        ensures answer { result ≡ stepped (one_step names.now output (steps.Lifetime word) self) }
    {
        self.lower_generics(names, 0, &[word], output)
    }

    // The lifetimes of a type with so many generics (kind 1), of a parameter or of the output: those given, then
    // anonymous ones until there are enough. Refused by 1 for more than 16 of either, then by 3, 4, 5, 6 at the first
    // bad place.
    pub fn lower_generics(
        self,
        names: &[usize],
        generics: usize,
        words: &[usize],
        output: bool,
    ) -> Result<Stepped, Refusal>
        ensures answer { result ≡ stepped (one_step names.now output (steps.Generics generics words.now) self) }
    {
        if MAX_LIST < generics || MAX_LIST < words.len() {
            return Err(Refusal::Malformed);
        }
        let done = lower_words(names, standing_in(output), words, generics, self.seen)?;
        Ok(Stepped {
            lowerer: Lowerer {
                seen: done.seen,
                ..self
            },
            lifetimes: done.lifetimes,
        })
    }

    // The lifetimes of the `Self` type (kind 2), wherever it stands: at its first use those given, later the same
    // again, whatever is given. Refused by 1 for more than 16, at the first use by 3 and 4 at the first bad place.
    pub fn is_self(self, names: &[usize], words: &[usize], output: bool) -> Result<Stepped, Refusal>
        ensures answer { result ≡ stepped (one_step names.now output (steps.SelfType words.now) self) }
    {
        if MAX_LIST < words.len() {
            return Err(Refusal::Malformed);
        }
        if self.kept {
            return Ok(Stepped {
                lowerer: self,
                lifetimes: first_of(self.own),
            });
        }
        let done = lower_words(names, Standing::Aside, words, 0, self.seen)?;
        Ok(Stepped {
            lowerer: Lowerer {
                seen: done.seen,
                kept: true,
                own: done.lifetimes,
            },
            lifetimes: done.lifetimes,
        })
    }
}

// The lifetimes of a list that may say more than its array holds, with nothing behind them.
// Push by push and no copy: the places behind the count are to be static.
fn first_of(own: Lifetimes) -> Lifetimes
    ensures { result ≡ laid (values_in own) }
{
    let n = own.n.min(MAX_LIST);
    let mut first = Lifetimes::none();
    for i in 0..n {
        first.push(own.list[i].lifetime);
    }
    first
}

// How the lifetimes of kinds 0 and 1 stand.
pub(crate) fn standing_in(output: bool) -> Standing
    ensures { result ≡ standing_in output }
{
    if output {
        return Standing::Output;
    }
    Standing::Input
}

// Lower some words, then anonymous ones until there are as many as generics.
// `put_words` has this loop too: it writes words to a slice as they come, this one makes an array of lifetimes. A
// closure for the one word would be no plainer. At most 16 words: a clause, since a slice has no such type.
fn lower_words(
    names: &[usize],
    standing: Standing,
    words: &[usize],
    generics: usize,
    seen: Seen,
) -> Result<Run, Refusal>
    requires { (length words.now ≤ most_list) × (generics ≤ most_list) }
    ensures { result ≡ ran (lower_words names.now standing (appended generics words.now) seen) }
{
    let total = words.len().max(generics);
    let mut here = seen;
    let mut lifetimes = Lifetimes::none();
    for i in 0..total {
        let word = word_or_anonymous(words, i);
        let done = lower_word(names, standing, word, here)?;
        here = done.seen;
        lifetimes.push(done.lifetime);
    }
    Ok(Run {
        lifetimes,
        seen: here,
    })
}

// A word, or an anonymous lifetime past the words.
pub(crate) fn word_or_anonymous(words: &[usize], i: usize) -> usize
    ensures { result ≡ get_or words.now i 1 }
{
    words.get(i).copied().unwrap_or(1)
}

// Lower one word. Refused by 3 for a name that is not declared, and as an anonymous lifetime is.
pub(crate) fn lower_word(
    names: &[usize],
    standing: Standing,
    word: usize,
    seen: Seen,
) -> Result<Worded, Refusal>
    ensures { result ≡ worded (lower_word names.now standing word seen) }
{
    // The codes are the record's, as 01 gives them: 0 is 'static, 1 anonymous.
    if word == 1 {
        return lower_anonymous(standing, seen);
    }
    if word == 0 {
        return Ok(lowers(standing, MaybeStatic::Static, seen));
    }
    let at = position(names, word).ok_or(Refusal::Undeclared)?;
    let lifetime = MaybeStatic::NonStatic(Lifetime::new(at));
    Ok(lowers(standing, lifetime, seen))
}

// An anonymous lifetime: a new one, or in the output that of the source.
fn lower_anonymous(standing: Standing, seen: Seen) -> Result<Worded, Refusal>
    ensures { result ≡ worded (lower_anonymous standing seen) }
{
    match standing {
        Standing::Input | Standing::Aside => new_lifetime(standing, seen),
        Standing::Output => elided(seen),
    }
}

// A new lifetime, the next number. Refused by 4 for a 65th.
fn new_lifetime(standing: Standing, seen: Seen) -> Result<Worded, Refusal>
    ensures { result ≡ worded (new_lifetime standing seen) }
{
    if lifetimes::LifetimeEnv::MAX_LIFETIMES <= seen.count {
        return Err(Refusal::Full);
    }
    let lifetime = MaybeStatic::NonStatic(Lifetime::new(seen.count));
    let more = Seen {
        count: seen.count + 1,
        ..seen
    };
    Ok(lowers(standing, lifetime, more))
}

// An elided lifetime of the output: that of the source. Refused by 5 and 6 where there is none.
fn elided(seen: Seen) -> Result<Worded, Refusal>
    ensures { result ≡ worded (lower_anonymous Standing.Output seen) }
{
    match seen.source {
        ElisionSource::NoBorrows => Err(Refusal::NoSource),
        ElisionSource::SelfParam(lifetime) | ElisionSource::OneParam(lifetime) => Ok(Worded {
            lifetime,
            seen,
        }),
        ElisionSource::MultipleBorrows => Err(Refusal::Ambiguous),
    }
}

// One lifetime lowered, and what is seen then: only an input position changes the source.
fn lowers(standing: Standing, lifetime: MaybeStatic<Lifetime>, seen: Seen) -> Worded
    ensures { result ≡ record { lifetime = lifetime; seen = visited standing lifetime seen.source seen.count } }
{
    let source = match standing {
        Standing::Input => seen.source.visit_lifetime(lifetime),
        Standing::Aside | Standing::Output => seen.source,
    };
    Worded {
        lifetime,
        seen: Seen { source, ..seen },
    }
}
