//! `atomic_witness` over the words of its command line, a folder and a sink: whether a schedule of a source shows that
//! a promise is broken; or, where none is given, a schedule that does.
#![tactic(auto)]

mod answering;
mod lines;
mod program;
mod searching;
mod words;

pub use answering::{Said, judge_files};
pub use program::run;
pub use searching::seek_in_file;
