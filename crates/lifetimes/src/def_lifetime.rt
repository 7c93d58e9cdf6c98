// A lifetime of a definition.
ghost use Rattle.std.specs.Prelude.{◌≡◌};
ghost use Rattle.lifetimes.specs.Numbers.{def_lifetime};

// A lifetime that a type's definition declares: its number among them. The Rust uses its one `Lifetime` here too.
#[derive(Clone, Copy, PartialEq, Eq)]
pub struct DefLifetime(usize);

impl DefLifetime {
    // The lifetime with this number.
    pub fn new(index: usize) -> Self
        ensures answer { result ≡ def_lifetime index }
    {
        DefLifetime(index)
    }

    // Its number.
    pub fn index(self) -> usize
        ensures answer { result ≡ self.0 }
    {
        self.0
    }
}
