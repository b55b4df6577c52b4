//! Deriving the book of an assignment: what each node of a program's bodies concludes.
#![tactic(auto)]

mod basis;
mod conclude;
mod derive_book;
mod laws;
mod moving;
mod names;
mod pool;
mod surroundings;

pub use derive_book::derive;
pub use laws::shown_trees_law;
