// A lifetime of a method.
ghost use Rattle.std.specs.Prelude.{◌≡◌};
ghost use Rattle.lifetimes.specs.Numbers.{lifetime};

// A lifetime of a method: its number in the method's environment. Made from its number by `new` and in no other way.
// A lifetime of a definition is a `DefLifetime`, so that neither stands where the other is due.
#[derive(Clone, Copy, PartialEq, Eq)]
pub struct Lifetime(usize);

impl Lifetime {
    // The lifetime with this number.
    pub fn new(index: usize) -> Self
        ensures answer { result ≡ lifetime index }
    {
        Lifetime(index)
    }

    // Its number.
    pub fn index(self) -> usize
        ensures answer { result ≡ self.0 }
    {
        self.0
    }
}
