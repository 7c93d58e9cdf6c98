// What the four programs share: reading what a program is given, to the front of a slice, however many pieces it comes
// in; room for it; and what a program ends with.
#![tactic(auto)]

ghost use Rattle.std.specs.Prelude.{◌≡◌, ◌≤◌, ◌<◌, length, take, replicate, true, false, MatchResult, ◌≢◌};
ghost use Rattle.std.specs.Io.KnownBytes.{Consumes, IsAtEnd};
ghost use Rattle.std.specs.Process.{exit_status};
ghost use Rattle.std.specs.IoError.{error_kind};

use std::io;
use std::io::{ErrorKind, Read};
use std::process::ExitCode;

// How many bytes were read, and whether the read behind them failed. No Result: the bytes before a read that fails
// count like any others, and every program works on them.
#[derive(Clone, Copy)]
pub struct Input {
    pub count: usize,
    pub failed: bool,
}

// Read to the front of a slice, until the reader ends, a read fails or the slice is full. Where it is known which bytes
// the reader has, these are the first of them, and unless a read failed or the slice is full no more are left. No read
// failed where the slice is full. When a read fails is the reader's to say, and so is what it leaves behind the bytes
// that it gave.
pub fn read_input<R: Read>(reader: &mut R, bytes: &mut [u8]) -> Input
    ensures count { result.count ≤ length bytes.new }
    ensures front { Consumes (R.remaining reader.old) (R.remaining reader.new) (take result.count bytes.new) }
    ensures full { result.failed ≡ true → result.count < length bytes.new }
    ensures whole { result.failed ≡ false → result.count < length bytes.new → IsAtEnd (R.remaining reader.new) }
{
    let mut count = 0;
    // No range to go over: each read says how many bytes it gave.
    while count < bytes.len() {
        let got = reader.read(&mut bytes[count..]);
        match got {
            Ok(0) => {
                return Input {
                    count,
                    failed: false,
                };
            }
            Ok(more) => count += more,
            Err(_) => {
                return Input {
                    count,
                    failed: true,
                };
            }
        }
    }
    Input {
        count,
        failed: false,
    }
}

// Room for N values, each this one before any is written. The prover does not count a great many places one by one, but
// those of any number.
pub fn room<T: Copy, const N: usize>(value: T) -> [T; N]
    ensures size { N ≡ length result }
    ensures held { result ≡ replicate N value }
{
    [value; N]
}

// The status where the answer's reader has gone: 128 and the number of SIGPIPE.
const READER_GONE: u8 = 141;

// What a program ends with, once its answer was written or could not be. Where the answer's reader has gone, the status
// is what a shell gives for a program that SIGPIPE ended; else it is 0.
pub fn status(written: &Result<(), io::Error>) -> ExitCode
    ensures answer { MatchResult written.now (λ _. exit_status result ≡ 0) (λ e.
        (error_kind e ≡ ErrorKind.BrokenPipe → exit_status result ≡ 141)
        × (error_kind e ≢ ErrorKind.BrokenPipe → exit_status result ≡ 0)) }
{
    match written {
        Err(error) if error.kind() == ErrorKind::BrokenPipe => ExitCode::from(READER_GONE),
        _ => ExitCode::SUCCESS,
    }
}
