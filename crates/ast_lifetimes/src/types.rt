// The record `types`: its shape.
ghost use Rattle.std.specs.Prelude.{◌≡◌, ◌≤◌, length, drop};
ghost use Rattle.answers.specs.Lent.{held};
ghost use Rattle.records.specs.Reading.{shape_verdict};
ghost use Rattle.records.specs.Ends.{EndsAt};
ghost use Rattle.ast_lifetimes.specs.Types.{read_type, types_in_shape};

use super::env::LifetimeEnv;
use answers::Refusal;
use records::{MAX_WORDS, lifetimes_end};

// Whether the record `types` is in shape: types one after another to its end. Refused by 1. Reads each word once.
pub fn types_shape(types: &[usize]) -> Result<(), Refusal>
    ensures answer { result ≡ shape_verdict (types_in_shape types.now) }
{
    if MAX_WORDS < types.len() {
        return Err(Refusal::Malformed);
    }
    let mut at = 0;
    // No range to go over: where the next type stands is read from this one.
    while at < types.len() {
        at = type_end(types, at, LifetimeEnv::MAX_NESTING).ok_or(Refusal::Malformed)?;
    }
    Ok(())
}

// Where the type ends that stands at a place, with nesting at most this.
fn type_end(words: &[usize], at: usize, nesting: usize) -> Option<usize>
    requires { at ≤ length words.now }
    ensures { EndsAt words.now at (read_type nesting (drop at words.now)) result }
{
    if nesting == 0 {
        return None;
    }
    let n = words.len();
    if n <= at {
        return None;
    }
    let inside = nesting - 1;
    let next = at + 1;
    // The codes are the record's, as 01 gives them.
    match words[at] {
        0 => Some(next),
        1 => lifetimes_end(words, next),
        2 => {
            if n <= next {
                return None;
            }
            type_end(words, next + 1, inside)
        }
        3 => type_end(words, next, inside),
        4 => {
            let second = type_end(words, next, inside)?;
            type_end(words, second, inside)
        }
        _ => None,
    }
}
