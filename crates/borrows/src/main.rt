// The program `borrows`: a method sheet from standard input, its listing or its refusal to standard output.
//
// It reads to the end of the input, in however many pieces it comes, or until it has a byte more than any sheet may
// have. What cannot be read counts as not there. Nothing is written to standard output before the whole answer stands.
// A read that fails, and an answer that cannot be written whole, are each told by a line on standard error. Where the
// answer's reader has gone nothing is said, and the status is what a shell gives for a program that SIGPIPE ended.
#![tactic(auto)]

ghost use Rattle.std.specs.Prelude.{◌≡◌, ℕ, List, length, false, IfSome, OnOk};
ghost use Rattle.std.specs.Io.KnownBytes.{Appends, Consumes};
ghost use Rattle.listing.specs.Listing.{response};

use input::{read_input, room, status};
use listing::respond;
use sheet::Text;
use std::io;
use std::io::{Read, Write};
use std::process::ExitCode;

// Whether reading the sheet failed, and what came of writing the answer. No Result of the two: a read that fails stops
// no writing.
#[derive(Clone, Copy)]
struct Answered {
    unread: bool,
    written: Result<(), io::Error>,
}

// Read a sheet and write the response to it: where no read fails, to all that the reader has, however much that is;
// else to what was read before. The clauses say so where it is known which bytes the reader has and the writer got. Of
// standard input and output no proof can know that; this function does to them what it does to any.
fn answer<R: Read, W: Write>(rt: &impl Eprint, input: &mut R, output: &mut W) -> Answered
    ensures front { OnOk result.written ((front : List ℕ)
        × Consumes (R.remaining input.old) (R.remaining input.new) front
        × Appends (W.contents output.old) (W.contents output.new) (response front)) }
    ensures whole { result.unread ≡ false → OnOk result.written (IfSome (R.remaining input.old)
        (λ sheet. Appends (W.contents output.old) (W.contents output.new) (response sheet))) }
{
    // Behind the longest sheet, room for the byte that tells that it is too long.
    let mut sheet: [u8; Text::MAX_BYTES + 1] = room(0);
    let got = read_input(input, &mut sheet);
    let read = got.count;
    if got.failed {
        // Where this fails too, nobody is told.
        let _ = rt.eprintln("borrows: standard input could not be read to its end");
    }
    let mut out: [u8; listing::ROOM] = room(0);
    let count = respond(&sheet[..read], &mut out);
    let written = output.write_all(&out[..count]);
    Answered {
        unread: got.failed,
        written,
    }
}

fn main(rt: HostRuntime) -> ExitCode {
    let mut stdin = rt.stdin();
    let mut stdout = io::writer(&rt);
    let answered = answer(&rt, &mut stdin, &mut stdout);
    let status = status(&answered.written);
    if answered.written.is_err() && status == ExitCode::SUCCESS {
        let _ = rt.eprintln("borrows: the answer could not be written whole to standard output");
    }
    status
}
