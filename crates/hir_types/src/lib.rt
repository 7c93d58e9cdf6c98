// Lowered types: what stands in the records `structs`, `params` and `output` of a method, and the shape of these and of
// `force`.
//
// Of `hir/types.rs`, `hir/paths.rs` and `hir/defs.rs` of diplomat_core 0.17.0. Types are words read in place: a type is
// where it stands, and a definition is the number of its row. The scope paper ("01") and the change requests ("02")
// decide what is right; a refused call answers one of their numbers.
//
// What is here: one type and its lifetimes (`types`), and the shape of the four records (`shapes`).
#![tactic(auto)]

mod shapes;
mod types;

pub use shapes::{Shape, force_shape, method_shape, output_shape, params_shape, structs_shape};
pub use types::{Kind, Own, Parts, path_words, type_at, type_lifetimes};
