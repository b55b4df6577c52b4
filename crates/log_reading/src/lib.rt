//! A judge that goes through a log as it is read from a file.
#![tactic(auto)]

mod reading;

pub use reading::{ReadEnd, walk_file};
