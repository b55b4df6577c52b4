//! Basic atomicities with their laws, and the trait of values at every set of held locks.
#![tactic(auto)]

mod algebra;
mod basic;
mod held;
mod laws;
mod tables;

pub use algebra::Algebra;
pub use basic::Basic;
pub use held::has;
pub use laws::basic_laws;
pub use tables::{front, half};
