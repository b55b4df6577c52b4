//! Reading files whole and writing bytes out, over folders and sinks that may fail, and give or take few bytes a call.
//! A folder may tell the bytes of its files and a sink the bytes that it holds: contracts speak of those. `MemFolder`
//! and `MemSink` tell them; `FileFolder` and `OutSink`, over real files and standard output, tell none. Each file is
//! opened once. `NeverFailsFolder` tells them and `NeverFailsSink` drops them; neither ever fails. How a program over a
//! folder and a sink ends: one text is written, with an exit status. And the words of the command line.
#![tactic(auto)]

mod file_folder;
mod folders;
mod lines;
mod memory_folder;
mod memory_sink;
mod never_fails;
mod out_sink;
mod saying;
mod sinks;
mod transfer;
mod words;

pub use file_folder::FileFolder;
pub use folders::{Failed, Folder};
pub use lines::{cannot_read_line, joined, too_large_line};
pub use memory_folder::MemFolder;
pub use memory_sink::MemSink;
pub use never_fails::{NeverFailsFolder, NeverFailsSink};
pub use out_sink::OutSink;
pub use saying::say;
pub use sinks::Sink;
pub use transfer::{Fault, ReadEnd, read_file, write_all};
pub use words::words_of;
