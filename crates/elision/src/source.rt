// The source of elision.
ghost use Rattle.std.specs.Prelude.{◌≡◌};
ghost use Rattle.elision.specs.Machine.{visit_lifetime};

use lifetimes::{Lifetime, MaybeStatic};

// Where an elided lifetime of the output comes from, by the inputs so far.
#[derive(Clone, Copy)]
pub enum ElisionSource {
    // No input position: nothing to take.
    NoBorrows,
    // `&self` or `&mut self`: its lifetime, whatever else the inputs hold.
    SelfParam(MaybeStatic<Lifetime>),
    // One input position: its lifetime.
    OneParam(MaybeStatic<Lifetime>),
    // Several input positions, and no `&self`: ambiguous.
    MultipleBorrows,
}

impl ElisionSource {
    // The source after one more input position.
    pub fn visit_lifetime(self, lifetime: MaybeStatic<Lifetime>) -> Self
        ensures answer { result ≡ visit_lifetime self lifetime }
    {
        match self {
            ElisionSource::NoBorrows => ElisionSource::OneParam(lifetime),
            ElisionSource::SelfParam(own) => ElisionSource::SelfParam(own),
            ElisionSource::OneParam(_) => ElisionSource::MultipleBorrows,
            ElisionSource::MultipleBorrows => ElisionSource::MultipleBorrows,
        }
    }
}
