// Text: numbers and lines of numbers as bytes, printed and read.
//
// For every crate that prints or reads. A printer is lent a slice and told a place; it stores its text from there on as
// far as the slice goes and answers the place behind it, so that the next one goes on there. The reader is told a place
// and finds the number that stands there.
#![tactic(auto)]

mod number;
mod print;

pub use number::{Found, read_number};
pub use print::{put_following, put_line, put_number, put_padded, put_text};
