//! The machine that runs simulated threads, one step at a time, as definitions: steps, runs, kinds, words, units and
//! the written order, with their laws and examples.
#![tactic(auto)]

pub mod examples;
mod laws;
mod ordering;

pub use laws::{asking_laws, change_laws, entry_laws, run_laws, step_laws, unit_laws, word_laws};
pub use ordering::order_laws;
