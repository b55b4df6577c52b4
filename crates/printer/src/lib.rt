//! The canonical text of a tree, which reads back as that tree, over pages of tokens: lines, blanks and indents.
#![tactic(auto)]

mod expressions;
mod laws;
mod names;
mod page;
mod print;
mod statements;

pub use laws::printing_laws;
pub use page::{Lead, NextPlace, Printer};
pub use print::print_program;
