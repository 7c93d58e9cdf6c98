// Writing sheets: ten records to the text of a sheet.
//
// For editors that hold a method's records and want the file. The change requests ("02", W-214) decide; the text is the
// one that the crate sheet reads. A refused call answers one of the papers' numbers (`Refusal`) and leaves the lent
// slice as it was.
//
// What is here, bottom up: whether a record has a word that no sheet has (`large`), printing ten records (`print`), the
// call that writes ten lent records (`write`), and the one for records that stand one after another, as reading a
// sheet gives them (`laid`).
#![tactic(auto)]

mod laid;
mod large;
mod print;
mod write;

pub use laid::write_laid;
pub use write::{MAX_WRITTEN, write_sheet};
