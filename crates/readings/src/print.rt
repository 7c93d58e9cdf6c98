// Writing: a line of numbers, one blank between; bytes as they are, counted.
use answers::Refusal;

// The first number of a line.
pub(crate) fn first(rt: &impl Print, number: usize) {
    let _ = rt.print(number);
}

// A further number.
pub(crate) fn next(rt: &impl Print, number: usize) {
    let _ = print!(rt; " {number}");
}

// Further numbers.
pub(crate) fn all(rt: &impl Print, words: &[usize]) {
    for word in words {
        next(rt, *word);
    }
}

// The end of a line.
pub(crate) fn end(rt: &impl Print) {
    let _ = rt.print("\n");
}

// Bytes as they are, behind a line with their number.
pub(crate) fn counted(rt: &impl Print, text: &[u8]) {
    first(rt, text.len());
    end(rt);
    let _ = rt.write_all(text);
}

// The number of an outcome: 0 where nothing is refused. `vectors` has it too: a public function of
// `answers` for two programs, with its contract and its edit, would be no plainer.
pub(crate) fn number_of<T>(outcome: &Result<T, Refusal>) -> usize {
    match outcome {
        Ok(_) => 0,
        Err(refusal) => refusal.number(),
    }
}
