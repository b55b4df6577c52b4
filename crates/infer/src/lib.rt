//! The least closed assignment of a program, and the exact verdict on its bounds.
#![tactic(auto)]

mod bounds;
mod call;
mod cells;
mod inference;
mod judged;
mod laws;
mod local;
mod rows;
mod table;
mod walk;

pub use bounds::{Broken, Inferred, verdict};
pub use inference::infer;
pub use laws::least_assignment_laws;
