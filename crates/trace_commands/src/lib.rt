//! `atomic_trace` over the words of its command line, a folder and a sink: whether the log of a run is serial.
#![tactic(auto)]

mod answering;
mod guarding;
mod lines;
mod notes;
mod program;
mod words;

pub use program::run;
