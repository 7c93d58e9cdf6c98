// Answers: why a call is refused. A call that may be answers a `Result` with what it gives or a `Refusal`.
//
// For every crate here; nothing of lifetimes or sheets is in it. The specs have how a call's answer is said: the first
// refusal due in one ordered list of checks (`Refusals`), the convention for lent slices (`Lent`), and the list
// functions that all definitions share (`Lists`).
#![tactic(auto)]

ghost use Rattle.std.specs.Prelude.{◌≡◌};
ghost use Rattle.answers.specs.Refusals.{number_of};

// Why a call is refused, with 01's number, or from 11 on that of the change requests ("02"); the comments give the
// papers' words.
#[derive(Clone, Copy, PartialEq, Eq)]
pub enum Refusal {
    // Torn: a record that is not in its shape, or a row, field or parameter asked for that is not there.
    Malformed = 1,
    // Twice: a name declared again.
    Duplicate = 2,
    // Stranger: an undeclared name where one is looked up.
    Undeclared = 3,
    // Full: one more than a limit takes.
    Full = 4,
    // No source: an elided lifetime in an output, with no input to take it from.
    NoSource = 5,
    // Ambiguous: the same, with several inputs.
    Ambiguous = 6,
    // Misfit: not as many lifetimes as the definition has.
    Mismatch = 7,
    // Outside: a lifetime past those that there are.
    OutOfRange = 8,
    // Short: more answers than the lent slice takes.
    NoRoom = 9,
    // Unreadable: bytes that are not the text of a sheet.
    Unreadable = 10,
    // Retired: the value 1 in `force`.
    Retired = 13,
}

impl Refusal {
    // The papers' number of the refusal.
    pub fn number(self) -> usize
        ensures answer { result ≡ number_of self }
    {
        self as usize
    }
}
