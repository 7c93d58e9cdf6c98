// One lowered type: where its parts stand, and its lifetimes.
ghost use Rattle.std.specs.Prelude.{◌≡◌, ◌+◌, ◌<◌, length, take, drop, slice_get};
ghost use Rattle.answers.specs.Refusals.{over};
ghost use Rattle.hir_types.specs.LoweredTypes.{read_opaque, read_struct, read_slice, read_bare, read_lowered};
ghost use Rattle.hir_types.specs.LoweredTypes.{own_lifetime, located, knows, type_lifetimes};
ghost use Rattle.hir_types.specs.Inner.{LocatesBare};

use answers::Refusal;
use lifetimes::{Lifetime, MaybeStatic};
use records::lifetimes_end;

// What a type is, under an option or not: 01's codes 0 to 3. A struct is the number of its row.
#[derive(Clone, Copy)]
pub enum Kind {
    Plain,
    Opaque,
    Struct(usize),
    Slice,
}

// The codes stay numbers: they are the words of the record, and at any other word no type begins.
impl Kind {
    // The code with which a type without lifetimes begins.
    pub const PLAIN: usize = 0;

    // The code with which an opaque begins.
    pub const OPAQUE: usize = 1;

    // The code with which a struct begins.
    pub const STRUCT: usize = 2;

    // The code with which a slice begins.
    pub const SLICE: usize = 3;

    // Whether the row of a struct is among so many rows; what is no struct names none.
    pub(crate) fn known(self, rows: usize) -> bool
        ensures { result ≡ knows rows self }
    {
        match self {
            Kind::Struct(row) => row < rows,
            Kind::Plain | Kind::Opaque | Kind::Slice => true,
        }
    }
}

// The lifetime behind a type's path words: an opaque's borrow, or a slice's own lifetime. `Strs` has one that no word
// stands for. An option of an enum of two would be no plainer: these are the three ways in which 01 ends a type, and
// `lifetime` gives the option.
#[derive(Clone, Copy)]
pub enum Own {
    Absent,
    Word(usize),
    Strs,
}

impl Own {
    // The lifetime, if there is one.
    pub fn lifetime(self) -> Option<MaybeStatic<Lifetime>>
        ensures answer { result ≡ own_lifetime self }
    {
        match self {
            Own::Absent => None,
            Own::Word(word) => Some(MaybeStatic::from_word(word)),
            Own::Strs => Some(MaybeStatic::NonStatic(Lifetime::new(usize::MAX))),
        }
    }
}

// A type that stands in some words: whether it is under an option, its kind, where its path words start and how many
// they are, its own lifetime, and the place behind it.
#[derive(Clone, Copy)]
pub struct Parts {
    pub option: bool,
    pub kind: Kind,
    pub from: usize,
    pub count: usize,
    pub own: Own,
    pub next: usize,
}

impl Parts {
    // How many places behind the code of a type its path words start, or would start.
    pub const PATH_PLACE: usize = 3;
}

// The lifetime at an index among those of the type that some words are (the Rust's `Type::lifetimes`), if there is one:
// the path words in order, then the borrow; an option has its inner type's. Refused by 1 where the words are no lowered
// type, or more than one. The row of a struct is not looked up.
pub fn type_lifetimes(
    words: &[usize],
    index: usize,
) -> Result<Option<MaybeStatic<Lifetime>>, Refusal>
    ensures answer { result ≡ over (λ l. slice_get l index) (type_lifetimes words.now) }
{
    let parts = type_at(words, 0).ok_or(Refusal::Malformed)?;
    if parts.next != words.len() {
        return Err(Refusal::Malformed);
    }
    if index < parts.count {
        let word = words[parts.from + index];
        return Ok(Some(MaybeStatic::from_word(word)));
    }
    if index == parts.count {
        return Ok(parts.own.lifetime());
    }
    Ok(None)
}

// Some words in a row, lent on: those of a type's path, by where they start and how many they are. A type without path
// words may say a place past the end; whatever is not there is left out.
pub fn path_words(words: &[usize], from: usize, count: usize) -> &[usize]
    ensures answer { result.now ≡ take count (drop from words.now) }
{
    let rest = &words[from.min(words.len())..];
    &rest[..count.min(rest.len())]
}

// The type that stands at a place, its row not looked up. Reads only the words that say where its parts are.
pub fn type_at(words: &[usize], at: usize) -> Option<Parts>
    ensures answer { result ≡ located at (length words.now) (read_lowered (drop at words.now)) }
{
    let code = *words.get(at)?;
    match code {
        4 => bare_at(words, at + 1, true),
        _ => bare_at(words, at, false),
    }
}

// The type that stands at a place and is no option; whether it is under one is handed on, to stand in the answer: a
// fact and no switch, so it stays a bool.
fn bare_at(words: &[usize], at: usize, option: bool) -> Option<Parts>
    ensures { LocatesBare words.now at option (read_bare option (drop at words.now)) result }
{
    let code = *words.get(at)?;
    match code {
        Kind::PLAIN => Some(Parts {
            option,
            kind: Kind::Plain,
            from: at + Parts::PATH_PLACE,
            count: 0,
            own: Own::Absent,
            next: at + 1,
        }),
        Kind::OPAQUE => opaque_at(words, at, option),
        Kind::STRUCT => struct_at(words, at, option),
        Kind::SLICE => slice_at(words, at, option),
        _ => None,
    }
}

// The opaque whose code stands at a place.
// That `at` is among the words stays a clause of the three: the code was read there.
fn opaque_at(words: &[usize], at: usize, option: bool) -> Option<Parts>
    requires { at < length words.now }
    ensures { LocatesBare words.now at option (read_opaque option (drop (at + 1) words.now)) result }
{
    let from = at + Parts::PATH_PLACE;
    let optional = *words.get(at + 1)?;
    if 1 < optional {
        return None;
    }
    let owner = lifetimes_end(words, at + 2)?;
    let borrowed = *words.get(owner)?;
    let (own, next) = match borrowed {
        0 => (Own::Absent, owner + 1),
        1 => {
            let word = *words.get(owner + 1)?;
            (Own::Word(word), owner + 2)
        }
        _ => return None,
    };
    Some(Parts {
        option,
        kind: Kind::Opaque,
        from,
        count: owner - from,
        own,
        next,
    })
}

// The struct whose code stands at a place.
fn struct_at(words: &[usize], at: usize, option: bool) -> Option<Parts>
    requires { at < length words.now }
    ensures { LocatesBare words.now at option (read_struct option (drop (at + 1) words.now)) result }
{
    let from = at + Parts::PATH_PLACE;
    let row = *words.get(at + 1)?;
    let next = lifetimes_end(words, at + 2)?;
    Some(Parts {
        option,
        kind: Kind::Struct(row),
        from,
        count: next - from,
        own: Own::Absent,
        next,
    })
}

// The slice whose code stands at a place.
fn slice_at(words: &[usize], at: usize, option: bool) -> Option<Parts>
    requires { at < length words.now }
    ensures { LocatesBare words.now at option (read_slice option (drop (at + 1) words.now)) result }
{
    let from = at + Parts::PATH_PLACE;
    let inner = at + 2;
    let code = *words.get(at + 1)?;
    let (count, own, next) = match code {
        0 => (0, Own::Absent, inner),
        1 => {
            let word = *words.get(inner)?;
            (0, Own::Word(word), from)
        }
        2 => (0, Own::Strs, inner),
        3 => {
            let owner = lifetimes_end(words, inner)?;
            let word = *words.get(owner)?;
            (owner - from, Own::Word(word), owner + 1)
        }
        _ => return None,
    };
    Some(Parts {
        option,
        kind: Kind::Slice,
        from,
        count,
        own,
        next,
    })
}
