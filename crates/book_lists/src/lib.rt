//! Books in lists, for their judgement: the nodes of all derivations stand in one, each with the number of those below it.
#![tactic(auto)]

mod list_reader;
mod listed;

pub use list_reader::read_listed;
pub use listed::{InList, LinesInList, ListedBook, ListedNode};
