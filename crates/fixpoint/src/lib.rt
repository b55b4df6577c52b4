//! The least assignment of numbers to cells at which each cell's demand is met, by one loop for every kind of cell.
#![tactic(auto)]

mod rising;
mod rounds;

pub use rising::Rising;
pub use rounds::least;

#[cfg(test)]
mod tests;
