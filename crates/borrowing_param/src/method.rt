// A sheet's method: bytes to an environment and ten records, refused in the papers' order.
//
// A refused call writes nothing, so the words are judged in scratch. It has two sizes, so that a small sheet does not
// pay for a large one.
ghost use Rattle.std.specs.Prelude.{◌*◌, ◌≤◌, ◌≡◌, length};
ghost use Rattle.answers.specs.Refusals.{NoneDue};
ghost use Rattle.answers.specs.Lent.{held, room, left, Fills};
ghost use Rattle.records.specs.Reading.{most_words};
ghost use Rattle.sheet.specs.Text.{record_count, records_in};
ghost use Rattle.sheet.specs.Shape.{records_checks};
ghost use Rattle.sheet.specs.Inner.{Roomy};
ghost use Rattle.borrowing_param.specs.SheetMethod.{lower_sheet, method_answer, method_words};
ghost use Rattle.borrowing_param.specs.InnerSheet.{lowered_env, JudgesSheet};

use answers::Refusal;
use elision::measure;
use lifetimes::LifetimeEnv;
use methods::check_method;
use records::copy_words;
use sheet::{Records, Text, read_sheet};

// How many words scratch has: for a sheet of at most `Text::MIDDLE` bytes, since a word takes two at least, and for any
// sheet.
pub(crate) const FEW_WORDS: usize = Text::MIDDLE / 2;

pub(crate) const MOST_WORDS: usize = Text::MAX_WORDS;

// A sheet's method: where each of its ten records ends in the words that were written, and its environment.
#[derive(Clone, Copy)]
pub struct SheetMethod {
    pub ends: [usize; Text::RECORDS],
    pub env: LifetimeEnv,
}

// Read a sheet, lower its lifetimes and judge its method. The words of its ten records are written to a slice, one
// record after another (`sheet::record_words` finds each). Refused in the papers' order: 10; 1 over all records; 13 for
// 1 in `force`; 2 to 7 at the first bad place; 8; then 9 where the slice is too short. 10,240 words are always enough.
pub fn lower_sheet(sheet: &[u8], words: &mut [usize]) -> Result<SheetMethod, Refusal>
    ensures answer { result ≡ method_answer (lower_sheet sheet.now (room words)) }
    ensures stored { Fills (method_words (lower_sheet sheet.now (room words))) words }
{
    if sheet.len() <= Text::MIDDLE {
        return lower_in::<FEW_WORDS>(sheet, words);
    }
    lower_in::<MOST_WORDS>(sheet, words)
}

// The same with scratch of one size.
fn lower_in<const N: usize>(sheet: &[u8], words: &mut [usize]) -> Result<SheetMethod, Refusal>
    requires enough { Roomy sheet.now N }
    requires most { N ≤ record_count * most_words }
    ensures value { result ≡ method_answer (lower_sheet sheet.now (room words)) }
    ensures fills { Fills (method_words (lower_sheet sheet.now (room words))) words }
{
    let mut scratch = [0usize; N];
    lower_within(sheet, &mut scratch, words)
}

// The same with scratch that takes the words of any sheet of so many bytes.
fn lower_within(
    sheet: &[u8],
    scratch: &mut [usize],
    words: &mut [usize],
) -> Result<SheetMethod, Refusal>
    requires { Roomy sheet.now (length scratch.old) }
    ensures value { result ≡ method_answer (lower_sheet sheet.now (room words)) }
    ensures fills { Fills (method_words (lower_sheet sheet.now (room words))) words }
{
    let method = judge_sheet(sheet, scratch)?;
    copy_words(scratch, method.ends[Text::FORCE], words)?;
    Ok(method)
}

// A sheet's method, its words left in scratch.
pub(crate) fn judge_sheet(sheet: &[u8], scratch: &mut [usize]) -> Result<SheetMethod, Refusal>
    requires { Roomy sheet.now (length scratch.old) }
    ensures { JudgesSheet sheet.now result (left scratch) }
{
    let text = read_sheet(sheet, scratch)?;
    let ends = text.ends;
    let env = lower_records(Records::laid(scratch, ends))?;
    Ok(SheetMethod { ends, env })
}

// The environment of records that were read, or the first refusal due on them.
fn lower_records(records: Records) -> Result<LifetimeEnv, Refusal>
    requires { NoneDue (records_checks (records_in records)) }
    ensures { result ≡ lowered_env (records_in records.entry) }
{
    let ast = ast_lifetimes::LifetimeEnv::from_method_item(
        records.names,
        records.bounds,
        records.types,
    )?;
    let lowered = measure(ast, records.own, records.steps, records.returns)?;
    check_method(
        lowered.env,
        records.structs,
        records.params,
        records.output,
        records.force,
    )?;
    Ok(lowered.env)
}
