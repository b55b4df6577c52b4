//! Logs of programs as a system of threads, whose steps have movers for any guess of what guards each place. Lines of
//! logs: who did what, in words. Values by word. A judge of logs: it goes through a log's lines once, and stops at the
//! first that is refused. A judge that goes through the bytes of a log.
#![tactic(auto)]

mod guards;
mod judge;
mod laws;
mod laws_of_lines;
mod laws_of_tables;
mod laws_of_walks;
mod lines;
mod memory;
mod same;
mod table;
mod turns;
mod walk;
mod words;

pub use guards::{Guard, Guards};
pub use judge::{Judge, Refusal, Stop};
pub use laws::{cut_logs_gather, examples_of_logs, judged_logs_are_serial, logs_serialise};
pub use laws_of_lines::lines_are_spelled;
pub use laws_of_tables::numbers_tell_words_apart;
pub use laws_of_walks::serial_texts_have_serial_logs;
pub use lines::{Deed, Said, read_line};
pub use same::is_same;
pub use table::Table;
pub use walk::{Block, Walk, WalkEnd};
pub use words::{cut, is_word};
