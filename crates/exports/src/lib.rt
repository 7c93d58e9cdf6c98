// The library for C and Rust: three calls over bytes and words. The crate `exports_c` gives them to C, with C's calling
// convention and under their names.
//
// For whoever generates wrappers from another language. To C a slice is a pointer, then a length; include/borrows.h
// declares the calls and says what a caller owes (pointers valid for their lengths, nothing overlapping). Each call
// answers a status: 0, or the number of the refusal in the scope paper ("01") or the change requests ("02"). Refused,
// it leaves every lent slice as it was.
//
// C has no `Result`, so that a call tells its status by a number, in a `match` of its own.
//
// The scratch is local: no call allocates, keeps anything for the next one, or looks at anything but its arguments.
#![tactic(auto)]

mod listed;
mod sheets;
mod unplaced;
mod written;

pub use listed::borrows_listing;
pub use sheets::borrows_sheet;
pub use written::borrows_write_sheet;
