// Elision: how the declared lifetimes of a method become numbered ones, and which of them an elided lifetime of the
// output takes.
//
// Of `hir/elision.rs` of diplomat_core 0.17.0. Its three stages (`SelfParamLifetimeLowerer`, `ParamLifetimeLowerer`,
// `ReturnLifetimeLowerer`) are one `Lowerer` here; the flag `output` says which of the last two is meant, in place of
// `into_return_ltl`. `is_self` is there `lower_generics` with its flag `is_self` set. `measure` and `lower`, over whole
// records, are ours.
//
// A method's records `self`, `steps` and `returns` are read in place, over the names of its AST environment. The scope
// paper ("01") decides what is right; a refused call answers one of its numbers and leaves every lent slice and a lent
// lowerer as it was.
//
// What is here: the source of elision (`source`), the shape of the records (`steps`), the lowerer and its steps, by
// value (`lowerer`), one step by its words, by value or on a lowerer that is lent (`step`), the whole records word by
// word (`put`), and the calls over them (`method`).
#![tactic(auto)]

mod lowerer;
mod method;
mod put;
mod source;
mod step;
mod steps;

pub use lowerer::{Lifetimes, Lowered, Lowerer, Seen, Standing, Stepped};
pub use method::{Lowering, finish, lower, measure};
pub use source::ElisionSource;
pub use step::input_then_output;
pub use steps::{self_shape, steps_shape};
