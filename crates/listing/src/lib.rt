// The listing of a sheet: from bytes to bytes.
//
// For whoever wants the program's answer in memory. The scope paper ("01") says what a listing is; `listing` refuses by
// a number of its or of the change requests ("02") and leaves the lent slice as it was, `respond` says the refusal as
// the program does.
//
// What is here, bottom up: the five sections and a refusal (`sections`), a whole listing from what stands in slices
// (`whole`), a sheet listed in lent scratch (`within`), and the two calls (`calls`).
#![tactic(auto)]

mod calls;
mod sections;
mod whole;
mod within;

pub use calls::{ROOM, listing, respond};
