// Reading: bytes to numbers.
ghost use Rattle.std.specs.Prelude.{◌≤◌, length};

// The numbers that stand in some bytes, whatever parts them, as many as there is room for. Answers how many they are.
pub(crate) fn numbers(bytes: &[u8], words: &mut [usize]) -> usize
    ensures { result ≤ length words.new }
{
    let mut runs = bytes
        .split(|byte| !byte.is_ascii_digit())
        .filter(|run| !run.is_empty());
    for count in 0..words.len() {
        // None is the end of the bytes.
        let Some(digits) = runs.next() else {
            return count;
        };
        words[count] = value(digits);
    }
    words.len()
}

// The number that some digits spell, at most the largest `usize`.
fn value(digits: &[u8]) -> usize {
    digits.iter().fold(0usize, |number, digit| {
        number
            .saturating_mul(10)
            .saturating_add(usize::from(digit.wrapping_sub(b'0')))
    })
}

// The bytes that the words of a record are, each by its remainder by 256, to the front of a slice, as far as there is
// room. Answers how many they are.
pub(crate) fn lay(record: &[usize], bytes: &mut [u8]) -> usize
    ensures { result ≤ length bytes.new }
{
    for (byte, word) in bytes.iter_mut().zip(record) {
        *byte = (*word % 256) as u8;
    }
    record.len().min(bytes.len())
}
