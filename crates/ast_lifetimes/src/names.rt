// The record `names`: its shape; and the number of a name among some.
ghost use Rattle.std.specs.Prelude.{◌≡◌};
ghost use Rattle.answers.specs.Lists.{all};
ghost use Rattle.records.specs.Reading.{shape_verdict};
ghost use Rattle.ast_lifetimes.specs.Shapes.{is_name, names_in_shape};
ghost use Rattle.ast_lifetimes.specs.Env.{id_of};

use answers::Refusal;
use records::MAX_WORDS;

// Whether the record `names` is in shape: how many names are the impl's, then all names, each 2 or more. Refused by 1.
// Reads each word once.
pub fn names_shape(names: &[usize]) -> Result<(), Refusal>
    ensures answer { result ≡ shape_verdict (names_in_shape names.now) }
{
    let n = names.len();
    if n == 0 {
        return Err(Refusal::Malformed);
    }
    if MAX_WORDS < n {
        return Err(Refusal::Malformed);
    }
    if n - 1 < names[0] {
        return Err(Refusal::Malformed);
    }
    if all_names(&names[1..]) {
        return Ok(());
    }
    Err(Refusal::Malformed)
}

// Whether all words are names.
fn all_names(words: &[usize]) -> bool
    ensures { result ≡ all is_name words.now }
{
    words.iter().all(|word| 2 <= *word)
}

// The number of a name among some: the first place where it stands; none where it is not declared.
pub fn position(names: &[usize], name: usize) -> Option<usize>
    ensures answer { result ≡ id_of names.now name }
{
    names.iter().position(|other| *other == name)
}
