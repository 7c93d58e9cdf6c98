// Words that no sheet has: those above 65535.
ghost use Rattle.std.specs.Prelude.{◌≡◌, ltb};
ghost use Rattle.std.specs.List.{list_any};
ghost use Rattle.sheet.specs.Text.{records_in, words_of, most_word};
ghost use Rattle.sheet_writer.specs.Writing.{has_large};

use sheet::{Records, Text};

// Whether one of ten records has such a word.
pub(crate) fn any_large(records: Records) -> bool
    ensures { result ≡ has_large (words_of (records_in records.entry)) }
{
    has_large(records.names)
        | has_large(records.bounds)
        | has_large(records.types)
        | has_large(records.own)
        | has_large(records.steps)
        | has_large(records.returns)
        | has_large(records.structs)
        | has_large(records.params)
        | has_large(records.output)
        | has_large(records.force)
}

// Whether a record has. Its words are looked at up to the first such word, however many they are.
fn has_large(words: &[usize]) -> bool
    ensures { result ≡ list_any (ltb most_word) words.now }
{
    words.iter().any(|word| Text::MAX_WORD < *word)
}
