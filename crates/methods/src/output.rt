// The lifetimes of a method's output, as a set.
ghost use Rattle.std.specs.Prelude.{[], ◌∷◌, map, ◌≤◌};
ghost use Rattle.lifetimes.specs.LoweredWords.{from_word};
ghost use Rattle.lifetimes.specs.Limits.{most_lifetimes};
ghost use Rattle.hir_types.specs.LoweredTypes.{own_lifetimes};
ghost use Rattle.methods.specs.Inner.{CollectIs, TypesCollect};

use hir_types::{Own, path_words, type_at};
use lifetimes::{Lifetime, MaybeStatic, set};

// The lifetimes of so many types, which stand at the front of some words, as a set; none where one is past the count.
// That `count` is at most 64 stays a clause of the four: a type for the one number would be no plainer.
pub(crate) fn collect_types(words: &[usize], types: usize, count: usize) -> Option<u64>
    requires { count ≤ most_lifetimes }
    ensures { TypesCollect words.now 0 types count 0 result }
{
    let mut at = 0;
    let mut used = set::EMPTY;
    for _i in 0..types {
        let parts = type_at(words, at)?;
        let path = path_words(words, parts.from, parts.count);
        let more = collect_path(path, count, used)?;
        used = collect_own(parts.own, count, more)?;
        at = parts.next;
    }
    Some(used)
}

// Put the lifetimes of a type's path words into a set.
fn collect_path(path: &[usize], count: usize, before: u64) -> Option<u64>
    requires { count ≤ most_lifetimes }
    ensures { CollectIs count before (map from_word path.now) result }
{
    let mut used = before;
    for word in path {
        used = collect(MaybeStatic::from_word(*word), count, used)?;
    }
    Some(used)
}

// Put a type's own lifetime into a set, if it has one.
fn collect_own(own: Own, count: usize, before: u64) -> Option<u64>
    requires { count ≤ most_lifetimes }
    ensures { CollectIs count before (own_lifetimes own) result }
{
    match own.lifetime() {
        Some(one) => collect(one, count, before),
        None => Some(before),
    }
}

// Put one lifetime into a set; static is in none.
fn collect(lifetime: MaybeStatic<Lifetime>, count: usize, before: u64) -> Option<u64>
    requires { count ≤ most_lifetimes }
    ensures { CollectIs count before (lifetime ∷ []) result }
{
    let MaybeStatic::NonStatic(l) = lifetime else {
        return Some(before);
    };
    if count <= l.index() {
        return None;
    }
    Some(set::insert(before, l))
}
