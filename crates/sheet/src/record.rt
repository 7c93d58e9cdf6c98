// Ten records lent, and the words of one record, where ten stand one after another.
ghost use Rattle.std.specs.Prelude.{◌<◌, ◌≡◌};
ghost use Rattle.answers.specs.Lent.{held};
ghost use Rattle.sheet.specs.Answer.{record_words, records_at, start_of};
ghost use Rattle.sheet.specs.Text.{record_count, records_in};

use super::reading::Text;

// The ten records of a sheet, in its order, each lent.
#[derive(Clone, Copy)]
pub struct Records<'a> {
    pub names: &'a [usize],
    pub bounds: &'a [usize],
    pub types: &'a [usize],
    pub own: &'a [usize],
    pub steps: &'a [usize],
    pub returns: &'a [usize],
    pub structs: &'a [usize],
    pub params: &'a [usize],
    pub output: &'a [usize],
    pub force: &'a [usize],
}

impl<'a> Records<'a> {
    // The ten records that stand one after another in a slice and end at these places, each as `record_words` says.
    pub fn laid(words: &'a [usize], ends: [usize; Text::RECORDS]) -> Records<'a>
        ensures answer { records_in result ≡ records_at words.now ends }
    {
        Records {
            names: record_words(words, ends, Text::NAMES),
            bounds: record_words(words, ends, Text::BOUNDS),
            types: record_words(words, ends, Text::TYPES),
            own: record_words(words, ends, Text::SELF),
            steps: record_words(words, ends, Text::STEPS),
            returns: record_words(words, ends, Text::RETURNS),
            structs: record_words(words, ends, Text::STRUCTS),
            params: record_words(words, ends, Text::PARAMS),
            output: record_words(words, ends, Text::OUTPUT),
            force: record_words(words, ends, Text::FORCE),
        }
    }
}

// The words of the record with a number, 0 to 9, in a slice where ten records end at these places: as `read_text` and
// `read_sheet` write and answer them. None where there is no such record, or where records in this slice cannot end so.
pub fn record_words(words: &[usize], ends: [usize; Text::RECORDS], i: usize) -> &[usize]
    ensures answer { result.now ≡ record_words words.now ends i }
{
    if Text::RECORDS <= i {
        return &[];
    }
    words.get(start_of(ends, i)..ends[i]).unwrap_or(&[])
}

// Where a record starts.
fn start_of(ends: [usize; Text::RECORDS], i: usize) -> usize
    requires { i < record_count }
    ensures { result ≡ start_of ends i }
{
    if i == 0 { 0 } else { ends[i - 1] }
}
