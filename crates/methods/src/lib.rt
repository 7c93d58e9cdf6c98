// Methods: whether an environment and the records `structs`, `params`, `output` and `force` make one, and which of its
// lifetimes it uses.
//
// Of `hir/defs.rs` and `hir/methods.rs` of diplomat_core 0.17.0, and of `hir/methods/borrowing_param.rs` a piece that
// needs no visitor, `compute_for_struct_field` (there of `StructBorrowInfo`). `hir/types.rs` is the crate `hir_types`.
// The scope paper ("01") and the change requests ("02") decide what is right; a refused call answers one of their
// numbers.
//
// What is here: limits, and struct types that fit their rows (`fits`); the lifetimes of the output (`output`); the
// lifetimes that a method uses (`used`); the refusal of a method (`method`); the lifetimes of a struct-typed field
// (`fields`).
#![tactic(auto)]

mod fields;
mod fits;
mod method;
mod output;
mod used;

pub use fields::{FieldLifetimes, FieldPair, compute_for_struct_field};
pub use fits::MAX_PARAMS;
pub use method::{check_method, check_structs_and_params};
pub use used::used_method_lifetimes;
