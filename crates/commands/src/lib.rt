//! The commands of the program, over the words of its command line, a folder and a sink: what each reads, answers and
//! writes; and the program over files and a sink that never fail.
#![tactic(auto)]

mod command;
mod files;
mod lines;
mod program;
mod status;
mod unfailing;

pub use program::run;
pub use status::Status;
pub use unfailing::run_unfailing;
