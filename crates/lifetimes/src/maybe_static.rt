// A lifetime or 'static, and the lowered word of each.
ghost use Rattle.std.specs.Prelude.{◌≡◌, ℕ, refl};
ghost use Rattle.lifetimes.specs.Numbers.{lifetime, def_lifetime};
ghost use Rattle.lifetimes.specs.LoweredWords.{stands_for, word_above, if_fits};

use super::def_lifetime::DefLifetime;
use super::lifetime::Lifetime;

// A kind of lifetime: each is its number, and there is one for every number.
pub trait Numbered {
    ghost numbered: { ℕ → Self };

    ghost number: { Self → ℕ };

    // The lifetime with this number.
    fn new(index: usize) -> Self
        ensures { result ≡ numbered index };

    // Its number.
    fn index(self) -> usize
        ensures { result ≡ number self };

    ghost kept: { (n : ℕ) → number (numbered n) ≡ n };
}

// Both kinds hand on to their own `new` and `index`, which are public and stay as they were called.
impl Numbered for Lifetime {
    ghost numbered = { lifetime };

    ghost number = { λ l. l.0 };

    ghost kept = { λ n. refl };

    fn new(index: usize) -> Self {
        Lifetime::new(index)
    }

    fn index(self) -> usize {
        Lifetime::index(self)
    }
}

impl Numbered for DefLifetime {
    ghost numbered = { def_lifetime };

    ghost number = { λ l. l.0 };

    ghost kept = { λ n. refl };

    fn new(index: usize) -> Self {
        DefLifetime::new(index)
    }

    fn index(self) -> usize {
        DefLifetime::index(self)
    }
}

// A lifetime of a method or of a definition, or 'static.
#[derive(Clone, Copy, PartialEq, Eq)]
pub enum MaybeStatic<T> {
    Static,
    NonStatic(T),
}

impl<T: Numbered> MaybeStatic<T> {
    // What a lowered word stands for: 0 'static, k the lifetime numbered k - 1.
    pub fn from_word(word: usize) -> Self
        ensures answer { result ≡ stands_for T.numbered word }
    {
        match word {
            0 => MaybeStatic::Static,
            _ => MaybeStatic::NonStatic(T::new(word - 1)),
        }
    }

    // Its lowered word, where there is one.
    pub fn word(self) -> Option<usize>
        ensures answer { result ≡ if_fits (word_above T.number self) }
    {
        match self {
            MaybeStatic::Static => Some(0),
            MaybeStatic::NonStatic(l) => l.index().checked_add(1),
        }
    }
}
