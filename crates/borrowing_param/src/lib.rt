// Borrow edges: which buffers a view has to hold on to.
//
// For whoever generates wrappers. A method is an environment with its records structs, params, output and force, made
// by hand or from a sheet. The scope paper ("01") and the change requests ("02") decide what an edge is; a refused call
// answers one of their numbers (`Refusal`) and leaves the lent slices as they were.
//
// Of `hir/methods/borrowing_param.rs` of diplomat_core 0.17.0, but for `compute_for_struct_field`, which is in
// `methods`, and for the search under force, which is retired. `edge_at`, `lower_sheet`, `borrow_method` and
// `borrow_sheet` are ours.
//
// What is here, bottom up: the edges of one parameter (`edges`), the visitor and its visits (`visitor`), all parameters
// in listing order (`listed`), the method of a sheet (`method`), and a whole method or sheet in one call (`borrows`).
#![tactic(auto)]

mod borrows;
mod edges;
mod listed;
mod method;
mod visitor;

pub use borrows::{Borrows, borrow_method, borrow_sheet};
pub use edges::edge_at;
pub use listed::BorrowMap;
pub use method::{SheetMethod, lower_sheet};
pub use visitor::{BorrowingParamVisitor, LifetimeEdge, ParamBorrowInfo, Visited};
