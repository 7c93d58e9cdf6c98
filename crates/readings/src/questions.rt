// Reading: what is left of the questions, whose numbers and bytes are taken off the front.
ghost use Rattle.std.specs.Prelude.{◌≤◌};
ghost use Rattle.input.specs.Left.{TakesFront};

#[derive(Clone, Copy)]
pub(crate) struct Questions<'a> {
    pub(crate) left: &'a [u8],
}

impl<'a> Questions<'a> {
    // So many bytes; those that there are where bytes are missing.
    pub(crate) fn bytes(&mut self, count: usize) -> &'a [u8]
        ensures left { TakesFront self.old.left.now self.new.left.now }
    {
        let (taken, left) = self.left.split_at(count.min(self.left.len()));
        self.left = left;
        taken
    }

    // A number, and with it the byte that ends it; from 131,070 on, 131,072.
    pub(crate) fn number(&mut self) -> usize
        ensures left { TakesFront self.old.left.now self.new.left.now }
    {
        let all = self.left.len();
        let count = self
            .left
            .iter()
            .position(|byte| !byte.is_ascii_digit())
            .unwrap_or(all);
        let digits = self.bytes(count);
        let _ = self.bytes(1);
        digits
            .iter()
            .fold(0, |number, digit| with_digit(number, *digit))
    }
}

// A number with one digit more behind it; from 131,070 on, 131,072.
fn with_digit(number: usize, digit: u8) -> usize
    ensures limit { result ≤ 131072 }
{
    if 13106 < number {
        return 131072;
    }
    (number * 10 + usize::from(digit.wrapping_sub(b'0'))).min(131072)
}
