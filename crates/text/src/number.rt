// Reading one number in decimal.
ghost use Rattle.std.specs.Prelude.{◌+◌, ◌*◌, ◌/◌, ◌≤◌, ◌≡◌, leb};
ghost use Rattle.answers.specs.Lent.{held};
ghost use Rattle.text.specs.Number.{found_at};

// A number that stands at a place, and the place behind its digits.
#[derive(Clone, Copy)]
pub struct Found {
    pub value: usize,
    pub at: usize,
}

// Whether a number with one digit more is within a limit; `tenth` is a tenth of it.
// By comparison with a tenth: `value * 10` may overflow for a limit near usize::MAX, and `checked_mul` is no plainer.
fn fits(value: usize, digit: usize, limit: usize, tenth: usize) -> bool
    requires { (digit ≤ 9) × (tenth ≡ limit / 10) }
    ensures { result ≡ leb (value * 10 + digit) limit }
{
    if value < tenth {
        return true;
    }
    if tenth < value {
        return false;
    }
    digit <= limit - value * 10
}

// The number that starts at a place: decimal, no leading nought, at most a limit, as many digits as there are; or none.
// Reads its digits and one byte more.
pub fn read_number(bytes: &[u8], from: usize, limit: usize) -> Option<Found>
    ensures answer { result ≡ found_at limit bytes.now from }
{
    let n = bytes.len();
    if n <= from {
        return None;
    }
    let first = bytes[from];
    if !first.is_ascii_digit() {
        return None;
    }
    let mut value = (first - b'0') as usize;
    if limit < value {
        return None;
    }
    let tenth = limit / 10;
    for at in from + 1..n {
        let b = bytes[at];
        if !b.is_ascii_digit() {
            return Some(Found { value, at });
        }
        let digit = (b - b'0') as usize;
        if value == 0 {
            return None;
        }
        if !fits(value, digit, limit, tenth) {
            return None;
        }
        value = value * 10 + digit;
    }
    Some(Found { value, at: n })
}
