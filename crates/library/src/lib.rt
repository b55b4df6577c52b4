//! What callers of the checker as a library have and no command calls: a machine over a checked program whose steps are
//! listed, two neighbouring entries of a schedule exchanged, and the orders of schedules of programs that a book was
//! checked for.
#![tactic(auto)]

mod checked_opening;
mod checked_rewriting;
mod laws;
mod steps;
mod swap;
mod watched;

pub use checked_opening::serialise_open;
pub use checked_rewriting::serialise;
pub use laws::neighbour_laws;
pub use swap::{SwapEnd, swap_at};
pub use watched::Watched;
