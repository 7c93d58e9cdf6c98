// AST environments and implied bounds: how the names, bounds and types of a method become the bound list that decides
// every edge.
//
// Of `ast/lifetimes.rs` of diplomat_core 0.17.0. A name is a word here, where the Rust has `NamedLifetime`. An
// environment is built in place, as there: `id`, `extend_lifetimes` and `extend_bounds` are the Rust's. A method's
// records `names`, `bounds` and `types` are read in place. The scope paper ("01") decides what is right; a refused call
// answers one of its numbers and leaves every lent slice as it was.
//
// What is here: the shape of the three records (`names`, `bounds`, `types`), the number of a name (`names`), the
// environment and what it is built of (`env`), and what types imply (`implied`).
#![tactic(auto)]

mod bounds;
mod env;
mod implied;
mod names;
mod types;

pub use bounds::bounds_shape;
pub use env::LifetimeEnv;
pub use names::{names_shape, position};
pub use types::types_shape;
