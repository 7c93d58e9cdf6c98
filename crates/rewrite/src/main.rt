// The program `rewrite`: a method sheet from standard input, read and written again, to standard output.
//
// What the reader takes, checking no further than 13, comes out byte for byte; anything else prints the line `refusal`
// and a line with the number, as the program `borrows` does.
#![tactic(auto)]

ghost use Rattle.std.specs.Prelude.{◌≡◌, length};

use answers::Refusal;
use input::{read_input, room, status};
use sheet::{Text, read_sheet};
use sheet_writer::{MAX_WRITTEN, write_laid};
use std::process::ExitCode;
use text::{put_line, put_text};

// Room for a sheet, and for the byte that tells that it is too long.
fn room_for_sheet() -> [u8; Text::MAX_BYTES + 1]
    ensures size { 65537 ≡ length result }
{
    room(0)
}

// Room for any sheet that is written.
fn room_for_text() -> [u8; MAX_WRITTEN]
    ensures size { 61506 ≡ length result }
{
    room(0)
}

// A refusal, as the program prints it.
// `put_headed` of the crate listing is private: a public one for two lines would be no plainer.
fn refuse(refusal: Refusal, out: &mut [u8]) -> usize {
    let next = put_text(out, 0, b"refusal\n");
    put_line(out, next, &[refusal.number()])
}

// The sheet read and written again, or its refusal, to the front of a slice. Answers how many bytes it has.
fn rewrite(sheet: &[u8], out: &mut [u8]) -> usize {
    match written_again(sheet, out) {
        Ok(count) => count,
        Err(refusal) => refuse(refusal, out),
    }
}

// The sheet read and written again.
fn written_again(sheet: &[u8], out: &mut [u8]) -> Result<usize, Refusal> {
    let mut words = [0usize; Text::MAX_WORDS];
    let text = read_sheet(sheet, &mut words)?;
    write_laid(&words, &text.ends, out)
}

// The answer to standard output, by way of a slice.
fn answer(rt: &impl Print, sheet: &[u8], out: &mut [u8]) -> ExitCode {
    let count = rewrite(sheet, out).min(out.len());
    status(&rt.write_all(&out[..count]))
}

fn main(rt: HostRuntime) -> ExitCode {
    let mut sheet = room_for_sheet();
    let mut stdin = rt.stdin();
    let read = read_input(&mut stdin, &mut sheet).count;
    let mut out = room_for_text();
    answer(&rt, &sheet[..read], &mut out)
}
