// Questions for the crate `text`: its printers, and its reader of one number.
//
// Bytes are asked for as a record of words, each by its remainder by 256; the first 16,384 are taken.
ghost use Rattle.input.specs.Left.{TakesFront};

use super::questions::Questions;
use super::{print, rooms, scan};
use text::{put_following, put_line, put_number, put_padded, put_text, read_number};

// Kind 28: which printer (0 `put_text`, 1 `put_number`, 2 `put_padded`, 3 `put_following`, else `put_line`), the place,
// a number, a width, a record of words, and how long the lent slice is, at most 16,384. The number is for 1 and 2, the
// width for 2, the record for the others; for 0 it is of bytes. The place that is answered, and all bytes of the slice,
// which were dots.
pub(crate) fn put(rt: &impl Print, questions: &mut Questions<'_>)
    ensures left { TakesFront questions.old.left.now questions.new.left.now }
{
    let which = questions.number();
    let at = questions.number();
    let number = questions.number();
    let width = questions.number();
    let given = questions.record();
    let n = questions.number().min(rooms::BYTES);
    let mut out = rooms::bytes();
    let lent = &mut out[..n];
    let behind = match which {
        0 => put_bytes(lent, at, given),
        1 => put_number(lent, at, number),
        2 => put_padded(lent, at, number, width),
        3 => put_following(lent, at, given),
        _ => put_line(lent, at, given),
    };
    print::first(rt, behind);
    print::bytes(rt, lent);
    print::end(rt);
}

// `put_text` of the bytes of a record.
fn put_bytes(out: &mut [u8], at: usize, given: &[usize]) -> usize {
    let mut bytes = rooms::bytes();
    let n = scan::lay(given, &mut bytes);
    put_text(out, at, &bytes[..n])
}

// Kind 29: a record of bytes, a place, and a limit. `read_number`: 0 for nothing; or 1, the value, and the place behind
// its digits.
pub(crate) fn read(rt: &impl Print, questions: &mut Questions<'_>)
    ensures left { TakesFront questions.old.left.now questions.new.left.now }
{
    let mut bytes = rooms::bytes();
    let n = scan::lay(questions.record(), &mut bytes);
    let place = questions.number();
    let found = read_number(&bytes[..n], place, questions.number());
    match found {
        None => print::first(rt, 0),
        Some(found) => {
            print::first(rt, 1);
            print::next(rt, found.value);
            print::next(rt, found.at);
        }
    }
    print::end(rt);
}
