// A text put together from the pieces of a question, so that a long one takes few bytes.
ghost use Rattle.std.specs.Prelude.{◌≤◌, length};
ghost use Rattle.input.specs.Left.{TakesFront};

use super::questions::Questions;

// Put so many pieces one behind another into a text, as far as it has room. Answers the text's size.
pub(crate) fn lay_all(questions: &mut Questions<'_>, count: usize, text: &mut [u8]) -> usize
    ensures size_in_bounds { result ≤ length text.new }
    ensures left { TakesFront questions.old.left.now questions.new.left.now }
{
    let mut size = 0;
    for _ in 0..count {
        let times = questions.number();
        let length = questions.number();
        let piece = questions.bytes(length);
        size = lay_times(piece, times, text, size);
    }
    size
}

// Put a piece so many times into a text, from a place on, as far as it has room: once, and then what stands there
// again, twice as much at each turn, so that a piece of one byte is no call for each byte. Answers the place behind it.
fn lay_times(piece: &[u8], times: usize, text: &mut [u8], start: usize) -> usize
    requires { start ≤ length text.old }
    ensures { result ≤ length text.new }
{
    let size = piece.len().saturating_mul(times).min(text.len() - start);
    let mut laid = piece.len().min(size);
    text[start..start + laid].copy_from_slice(&piece[..laid]);
    for _ in 0..usize::BITS {
        let n = laid.min(size - laid);
        if n == 0 {
            break;
        }
        text.copy_within(start..start + n, start + laid);
        laid += n;
    }
    start + size
}
