// Printing ten records: the heading line, then a line for each.
ghost use Rattle.std.specs.Prelude.{◌++◌};
ghost use Rattle.answers.specs.Lent.{held, left};
ghost use Rattle.text.specs.Decimal.{line};
ghost use Rattle.text.specs.Printing.{Prints};
ghost use Rattle.sheet.specs.Text.{records_in, text};

use sheet::Records;
use text::{put_line, put_text};

// The text of ten records, from the front of a slice as far as it goes; into no room it is measured.
pub(crate) fn put_sheet(out: &mut [u8], records: Records) -> usize
    ensures { Prints (text (records_in records.entry)) 0 (held out) result (left out) }
{
    // The sheet's first line stands here and in the crate sheet: both are held to the one definition `heading`, so that
    // a constant for both would be no plainer.
    let heading = b"names bounds types self steps returns structs params output force\n";
    let environment = put_text(out, 0, heading);
    let elision = put_three(
        out,
        environment,
        records.names,
        records.bounds,
        records.types,
    );
    let method = put_three(out, elision, records.own, records.steps, records.returns);
    let last = put_three(out, method, records.structs, records.params, records.output);
    put_line(out, last, records.force)
}

// Three lines.
fn put_three(out: &mut [u8], at: usize, first: &[usize], second: &[usize], third: &[usize]) -> usize
    ensures { Prints (line first.now ++ (line second.now ++ line third.now)) at (held out) result
        (left out) }
{
    let next = put_line(out, at, first);
    let last = put_line(out, next, second);
    put_line(out, last, third)
}
