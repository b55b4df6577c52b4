//! `atomic_why` over the words of its command line, a folder and a sink: why the methods of sources that break their
//! bounds do.
#![tactic(auto)]

mod answering;
mod explaining;
mod judging;
mod lines;
mod listing;
mod program;
mod told;
mod warning;
mod words;
mod worse;

pub use answering::{Said, explain};
pub use program::run;
pub use words::Order;
