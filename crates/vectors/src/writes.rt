// Questions about records that are written as a sheet, for the crate `sheet_writer`, for `sheet_shape` of the crate
// `sheet`, and for the call of `exports` that writes.
//
// Lent are at most 16,384 bytes, which were dots, and at most 8,192 words, each 99.
ghost use Rattle.input.specs.Left.{TakesFront};

use super::questions::Questions;
use super::{print, rooms};
use exports::borrows_write_sheet;
use sheet::{Records, sheet_shape};
use sheet_writer::{write_laid, write_sheet};

// Kind 33: the ten records of a sheet, and how long the lent slice is. `sheet_shape`: the refusal's number or 0. Then
// `write_sheet`: the refusal's number or 0, the count, and all bytes of the slice.
pub(crate) fn ten(rt: &impl Print, questions: &mut Questions<'_>)
    ensures left { TakesFront questions.old.left.now questions.new.left.now }
{
    let records = Records {
        names: questions.record(),
        bounds: questions.record(),
        types: questions.record(),
        own: questions.record(),
        steps: questions.record(),
        returns: questions.record(),
        structs: questions.record(),
        params: questions.record(),
        output: questions.record(),
        force: questions.record(),
    };
    let mut out = rooms::bytes();
    let out = &mut out[..questions.number().min(rooms::BYTES)];
    print::first(rt, print::number_of(&sheet_shape(records)));
    let written = write_sheet(records, out);
    print::next(rt, print::number_of(&written));
    print::next(rt, written.unwrap_or(0));
    print::bytes(rt, out);
    print::end(rt);
}

// Kind 34: a record of words, a record of ends, and how long the slices for bytes and for their number are.
// `write_laid`, lent the first: the refusal's number or 0, the count, and all bytes of the slice. Then
// `borrows_write_sheet`: its status, and all bytes and words of both.
pub(crate) fn laid(rt: &impl Print, questions: &mut Questions<'_>)
    ensures left { TakesFront questions.old.left.now questions.new.left.now }
{
    let words = questions.record();
    let ends = questions.record();
    let length = questions.number();
    let counted = questions.number();
    written(rt, words, ends, length);
    exported(rt, words, ends, length, counted);
    print::end(rt);
}

// `write_laid`, with a slice of this length.
fn written(rt: &impl Print, words: &[usize], ends: &[usize], length: usize) {
    let mut out = rooms::bytes();
    let lent = &mut out[..length.min(rooms::BYTES)];
    let written = write_laid(words, ends, lent);
    print::first(rt, print::number_of(&written));
    print::next(rt, written.unwrap_or(0));
    print::bytes(rt, lent);
}

// `borrows_write_sheet`, with slices of these lengths.
fn exported(rt: &impl Print, words: &[usize], ends: &[usize], length: usize, counted: usize) {
    let mut out = rooms::bytes();
    let mut counts = rooms::words();
    let lent = &mut out[..length.min(rooms::BYTES)];
    let counts = &mut counts[..counted.min(rooms::WORDS)];
    print::next(rt, borrows_write_sheet(words, ends, lent, counts));
    print::bytes(rt, lent);
    print::all(rt, counts);
}
