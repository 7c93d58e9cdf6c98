// Sets of lifetimes as 64 bits: a lifetime is in a set where the bit with its number is 1.
//
// Every `u64` is a set, of lifetimes below 64; nothing is asked of a caller. Nothing here shifts by 64 or more.
ghost use Rattle.std.specs.Prelude.{◌≡◌, cond, ◌<◌, ltb};
ghost use Rattle.answers.specs.Lent.{counted, room, Fills};
ghost use Rattle.lifetimes.specs.Sets as sets;
ghost use Rattle.lifetimes.specs.Limits.{most_lifetimes};

use super::lifetime::Lifetime;
use answers::Refusal;

// The set without members.
pub const EMPTY: u64 = 0;

// How many lifetimes a set can tell apart.
pub const CAPACITY: usize = 64;

// Whether a lifetime is in a set.
pub fn contains(set: u64, lifetime: Lifetime) -> bool
    ensures answer { result ≡ sets.member set lifetime.0 }
{
    let number = lifetime.index();
    number < CAPACITY && holds(set, number)
}

// The set with one lifetime more. One of 64 or more is in no set: the set stays.
pub fn insert(set: u64, lifetime: Lifetime) -> u64
    ensures answer { result ≡ cond (ltb lifetime.0 most_lifetimes) (sets.insert set lifetime.0) set }
{
    let number = lifetime.index();
    if number < CAPACITY {
        return with(set, number);
    }
    set
}

// The lifetimes of either set.
pub fn union(first: u64, second: u64) -> u64
    ensures answer { result ≡ sets.union first second }
{
    first | second
}

// How many lifetimes are in a set.
pub fn count(set: u64) -> usize
    ensures answer { result ≡ sets.cardinality set }
{
    u64::count_ones(set) as usize
}

// Write a set's lifetimes to a slice, ascending. Refused by 9 where the slice is too short. Looks at each of the 64
// bits once.
pub fn members(set: u64, out: &mut [usize]) -> Result<usize, Refusal>
    ensures answer { result ≡ counted (sets.list_members set (room out)) }
    ensures stored { Fills (sets.list_members set (room out)) out }
{
    let n = count(set);
    if out.len() < n {
        return Err(Refusal::NoRoom);
    }
    let mut at = 0;
    for x in 0..CAPACITY {
        if holds(set, x) {
            out[at] = x;
            at += 1;
        }
    }
    Ok(n)
}

// As `contains`, of a number that is known to be below 64.
pub(crate) fn holds(set: u64, number: usize) -> bool
    requires { number < most_lifetimes }
    ensures { result ≡ sets.member set number }
{
    (set >> number) % 2 == 1
}

// As `insert`, of a number that is known to be below 64.
pub(crate) fn with(set: u64, number: usize) -> u64
    requires { number < most_lifetimes }
    ensures { result ≡ sets.insert set number }
{
    set | (1u64 << number)
}
