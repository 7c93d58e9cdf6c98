// Sheets: bytes to ten records of words, each in shape.
//
// For whoever has a sheet as bytes. The scope paper ("01") and the change requests ("02") decide what a sheet is; a
// refused call answers one of their numbers (`Refusal`) and leaves the lent slice as it was.
//
// What is here, bottom up: the words of a line and the lines (`lines`), the call that reads ten records of any words
// (`reading`), ten records lent and the words of one (`record`), the shape of the records and 1 in `force` (`shapes`),
// and the call that reads a sheet, refused by these (`sheet`).
#![tactic(auto)]

mod lines;
mod reading;
mod record;
mod shapes;
mod sheet;

pub use reading::{Text, read_text};
pub use record::{Records, record_words};
pub use shapes::sheet_shape;
pub use sheet::read_sheet;
