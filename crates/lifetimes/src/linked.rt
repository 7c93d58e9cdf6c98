// The lifetimes of a definition and those of its use, paired by place.
//
// `LinkedLifetimes` lends the words at the use and copies none of them. Whoever holds no view of its own asks by
// `linked_word` and `linked_pair`, which take the words and the definition's count, make the view and ask it.
//
// Words and lifetimes that are not as many are refused by 7 when they are asked for. The Rust only asserts that in a
// debug build, and else cuts to the shorter.
ghost use Rattle.std.specs.Prelude.{◌≡◌};
ghost use Rattle.lifetimes.specs.Linked.{linked_word, linked_pair};

use super::def_lifetime::DefLifetime;
use answers::Refusal;

// The words at the use, lent, beside the number of lifetimes that the definition declares.
#[derive(Clone, Copy)]
pub struct LinkedLifetimes<'a> {
    words: &'a [usize],
    count: usize,
}

impl<'a> LinkedLifetimes<'a> {
    // Any words and any count: where they do not agree, the readers refuse.
    pub fn new(words: &'a [usize], count: usize) -> LinkedLifetimes<'a>
        ensures answer { (result.words ≡ words.entry) × (result.count ≡ count) }
    {
        LinkedLifetimes { words, count }
    }

    // The lowered word at the use for a lifetime of the definition; none for one that the definition has not.
    pub fn def_to_use(self, def: DefLifetime) -> Result<Option<usize>, Refusal>
        ensures answer { result ≡ linked_word self.entry.words.now self.entry.count def }
    {
        if self.words.len() != self.count {
            return Err(Refusal::Mismatch);
        }
        Ok(self.words.get(def.index()).copied())
    }

    // The use's lowered word at a place, and the definition's lifetime there; none from the definition's count on. The
    // Rust's iterator gives the pairs at 0, 1 and so on.
    pub fn lifetimes_def_only(self, place: usize) -> Result<Option<(usize, DefLifetime)>, Refusal>
        ensures answer { result ≡ linked_pair self.entry.words.now self.entry.count place }
    {
        if self.words.len() != self.count {
            return Err(Refusal::Mismatch);
        }
        if place < self.count {
            return Ok(Some((self.words[place], DefLifetime::new(place))));
        }
        Ok(None)
    }
}

// The word for a lifetime of a definition that declares `count` of them, of the words at its use.
pub fn linked_word(
    words: &[usize],
    count: usize,
    def: DefLifetime,
) -> Result<Option<usize>, Refusal>
    ensures answer { result ≡ linked_word words.now count def }
{
    LinkedLifetimes::new(words, count).def_to_use(def)
}

// The pair at a place of the words at a use, for a definition that declares `count` lifetimes.
pub fn linked_pair(
    words: &[usize],
    count: usize,
    place: usize,
) -> Result<Option<(usize, DefLifetime)>, Refusal>
    ensures answer { result ≡ linked_pair words.now count place }
{
    LinkedLifetimes::new(words, count).lifetimes_def_only(place)
}
