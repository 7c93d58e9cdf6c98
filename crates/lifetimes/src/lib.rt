// Lifetimes, the bounds between them, and their reach: what has to last as long as what.
//
// Of `hir/lifetimes.rs` of diplomat_core 0.17.0, whose names are kept. A wrapper must hold on to every buffer whose
// lifetime reaches that of a view, so whoever asks for edges asks here first. The scope paper ("01") decides what is
// right; a refused call answers one of its numbers (`Refusal`) and leaves every lent slice as it was.
//
// What is here, bottom up: the two kinds of lifetime (`lifetime`, `def_lifetime`), each also as static or not with its
// lowered word (`maybe_static`); sets of lifetimes (`set`); bounds (`bounds`); the environment (`env`); the index and
// the traversals over it (`index`, `walk`, `reach`); the lifetimes of a definition paired with those of its use
// (`linked`).
#![tactic(auto)]

mod bounds;
mod def_lifetime;
mod env;
mod index;
mod lifetime;
mod linked;
mod maybe_static;
mod reach;
pub mod set;
mod walk;

pub use bounds::{Bound, Bounds};
pub use def_lifetime::DefLifetime;
pub use env::LifetimeEnv;
pub use lifetime::Lifetime;
pub use linked::{LinkedLifetimes, linked_pair, linked_word};
pub use maybe_static::{MaybeStatic, Numbered};
pub use reach::Lists;
