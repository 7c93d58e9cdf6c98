// Bounds: which lifetime lasts at least as long as which, in push order.
ghost use Rattle.std.specs.Prelude.{◌≡◌, [], ◌<◌};
ghost use Rattle.answers.specs.Lent.{judged};
ghost use Rattle.lifetimes.specs.Bounds.{above, byte_of, both_below, bounds_from, bounds_checks};
ghost use Rattle.lifetimes.specs.Walk.{near, far};

use super::lifetime::Lifetime;
use answers::Refusal;

// One bound: the first lifetime lasts at least as long as the second. They are here by their numbers, a byte each: 256
// bounds are then few enough bytes for an environment to be handed from call to call by value.
#[derive(Clone, Copy)]
pub struct Bound {
    pub longer: u8,
    pub shorter: u8,
}

impl Bound {
    // The bound of two lifetimes. Every number above 254 is kept as 255, which is past all lifetimes of any
    // environment.
    pub fn new(longer: Lifetime, shorter: Lifetime) -> Bound
        ensures answer { result ≡ above (byte_of longer.0) (byte_of shorter.0) }
    {
        bound_of(longer.index().min(255), shorter.index().min(255))
    }

    // Whether both sides are numbered below a limit.
    fn both_below(self, limit: usize) -> bool
        ensures { result ≡ both_below limit self }
    {
        numbers_below(self.longer as usize, self.shorter as usize, limit)
    }

    // The side that a traversal in this direction comes from. Here and in all calls `longer` stays a bool: it is a fact
    // of two values, as in the definitions, and an enum of two names would be no plainer.
    pub(crate) fn near(self, longer: bool) -> usize
        ensures { result ≡ near longer self }
    {
        if longer {
            self.shorter as usize
        } else {
            self.longer as usize
        }
    }

    // The side that it goes to.
    pub(crate) fn far(self, longer: bool) -> usize
        ensures { result ≡ far longer self }
    {
        if longer {
            self.longer as usize
        } else {
            self.shorter as usize
        }
    }
}

// Bounds in push order: the first `pushed` of the array, which is of fixed length, since there is no heap here. The
// environment of a method holds them, and that of the AST.
#[derive(Clone, Copy)]
pub struct Bounds {
    pub pushed: usize,
    pub list: [Bound; Bounds::MAX],
}

impl Bounds {
    // How many bounds there may be.
    pub const MAX: usize = 256;

    // No bounds.
    pub fn none() -> Bounds
        ensures answer { result ≡ bounds_from [] }
    {
        let list = [bound_of(0, 0); Bounds::MAX];
        Bounds { pushed: 0, list }
    }

    // Whether these can be bounds between so many lifetimes: refused by 4 (257th bound) or 8 (a side past them). A
    // caller can build any value, so whoever is handed bounds asks this first. Reads each bound once.
    pub fn check(self, lifetimes: usize) -> Result<(), Refusal>
        ensures answer { result ≡ judged (bounds_checks lifetimes self) }
    {
        let pushed = self.pushed;
        if Bounds::MAX < pushed {
            return Err(Refusal::Full);
        }
        for i in 0..pushed {
            let b = self.list[i];
            if !b.both_below(lifetimes) {
                return Err(Refusal::OutOfRange);
            }
        }
        Ok(())
    }
}

// Whether two numbers are below a limit.
pub(crate) fn numbers_below(longer: usize, shorter: usize, limit: usize) -> bool
    ensures { result ≡ both_below limit (above longer shorter) }
{
    longer < limit && shorter < limit
}

// The bound of two lifetimes, by their numbers.
pub(crate) fn bound_of(longer: usize, shorter: usize) -> Bound
    requires { (longer < 256) × (shorter < 256) }
    ensures { result ≡ above longer shorter }
{
    Bound {
        longer: longer as u8,
        shorter: shorter as u8,
    }
}
