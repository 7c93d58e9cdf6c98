// Records of words, read in place: what the records of a method have in common.
//
// A record is a lent slice of words. What is read from it are items, one after another to its end; most of them hold
// lifetimes, as many as a word in front says. The scope paper ("01") decides what is right. Where the words do not make
// an item the answer is none; which refusal that is, the caller says.
#![tactic(auto)]

ghost use Rattle.std.specs.Prelude.{◌≡◌, length, drop};
ghost use Rattle.answers.specs.Lent.{counted, room, Fills};
ghost use Rattle.records.specs.Copied.{copied};
ghost use Rattle.records.specs.Reading.{read_lifetimes, end_of};

use answers::Refusal;

// How many words a record may have.
pub const MAX_WORDS: usize = 1024;

// How many lifetimes may stand in one list.
pub const MAX_LIST: usize = 16;

// Where a list of lifetimes ends: how many they are, at most 16, then they.
pub fn lifetimes_end(words: &[usize], at: usize) -> Option<usize>
    ensures answer { result ≡ end_of (length words.now) (read_lifetimes (drop at words.now)) }
{
    let count = *words.get(at)?;
    let from = at + 1;
    if MAX_LIST < count || words.len() - from < count {
        return None;
    }
    Some(from + count)
}

// Copy the first words of a record, so many, to the front of a slice; where the record has fewer, all of them. Refused
// by 9 where the slice is too short for them.
pub fn copy_words(words: &[usize], count: usize, out: &mut [usize]) -> Result<usize, Refusal>
    ensures answer { result ≡ counted (copied words.now count (room out)) }
    ensures stored { Fills (copied words.now count (room out)) out }
{
    let n = count.min(words.len());
    if out.len() < n {
        return Err(Refusal::NoRoom);
    }
    // Not the library's `copy_from_slice`: it wants memmove of C, and the static library gets by with memcpy and
    // memset.
    for i in 0..n {
        out[i] = words[i];
    }
    Ok(n)
}
