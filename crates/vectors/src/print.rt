// Writing: a line of numbers, one blank between. The program `readings` has the same few lines and not the crate
// `input`: what goes to a handle is nothing that a contract could say, and a public function has one.
use answers::Refusal;

// The first number of a line.
pub(crate) fn first(rt: &impl Print, number: usize) {
    let _ = rt.print(number);
}

// A further number.
pub(crate) fn next(rt: &impl Print, number: usize) {
    let _ = print!(rt; " {number}");
}

// 1 or 0.
pub(crate) fn flag(rt: &impl Print, flag: bool) {
    next(rt, usize::from(flag));
}

// Every word of a slice.
pub(crate) fn all(rt: &impl Print, words: &[usize]) {
    for word in words {
        next(rt, *word);
    }
}

// Every byte of a slice.
pub(crate) fn bytes(rt: &impl Print, bytes: &[u8]) {
    for byte in bytes {
        next(rt, usize::from(*byte));
    }
}

// What a call wrote to a slice, its length in front; or the refusal's number.
pub(crate) fn listed(rt: &impl Print, listed: Result<usize, Refusal>, out: &[usize]) {
    match listed {
        Ok(count) => {
            next(rt, count);
            all(rt, &out[..count.min(out.len())]);
        }
        Err(refusal) => next(rt, refusal.number()),
    }
}

// The end of a line.
pub(crate) fn end(rt: &impl Print) {
    let _ = rt.print("\n");
}

// The number of an outcome: 0 where nothing is refused. `readings` has it too: see there.
pub(crate) fn number_of<T>(outcome: &Result<T, Refusal>) -> usize {
    match outcome {
        Ok(_) => 0,
        Err(refusal) => refusal.number(),
    }
}

// The line of a verdict.
pub(crate) fn verdict(rt: &impl Print, verdict: Result<(), Refusal>) {
    first(rt, number_of(&verdict));
    end(rt);
}
