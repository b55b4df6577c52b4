//! Evaluation of a method by itself, and what each completed atomic call of a schedule gives: as a definition with its
//! laws, in code, and read off the machine.
#![tactic(auto)]

mod begun;
mod by_itself;
mod calls;
mod effects;
mod ends;
mod entry;
pub mod examples;
mod laws;
mod parts;
mod plain;
mod sight;

pub use by_itself::{PlainCall, evaluate};
pub use calls::{CallRecord, ReplayEnd, replay};
pub use ends::EvalEnd;
pub use laws::{replay_laws, told_laws};
pub use plain::{Plain, PlainEntry};
