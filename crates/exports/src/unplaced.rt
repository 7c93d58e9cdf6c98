// Why a call is refused whose last words have no place.
ghost use Rattle.std.specs.Prelude.{◌≡◌};
ghost use Rattle.exports.specs.Calls as spec;

use answers::Refusal;

// As what gives them is refused into no room at all, and else by 9.
pub(crate) fn unplaced<T>(answer: Result<T, Refusal>) -> Refusal
where
    T: Copy,
    ensures { result ≡ spec.unplaced answer }
{
    answer.err().unwrap_or(Refusal::NoRoom)
}
