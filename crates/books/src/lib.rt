//! Books of derivations: their grammar, their texts, read in place, and books in memory.
#![tactic(auto)]

mod book_reader;
mod books;
mod broken;
mod cursor;
mod derivation;
mod front;
mod laws;
mod lines;
mod names;
mod node_reader;
mod nodes;
mod numbers;
mod reader;
mod stop;
mod table;
mod tree_reader;
mod word;
mod writer;

pub use book_reader::{MOST_HEIGHT, count, end, table_lines};
pub use books::DerivBook;
pub use broken::fault_laws;
pub use cursor::{BookCursor, MethodView, NodeView, Premises};
pub use derivation::{Derivation, InMemory, Lent};
pub use front::{begins, expect, expect_byte};
pub use laws::front_laws;
pub use lines::{FirstLine, Lines, LinesInMemory};
pub use names::{first_word, leaf};
pub use node_reader::node;
pub use nodes::{First, Nodes};
pub use numbers::{NUMBERS_END, number};
pub use reader::read_book;
pub use stop::{BookFault, Kind, Stop, Unbuilt, fault_in};
pub use table::{read_table, trees};
pub use tree_reader::{MOST_TESTS, path, table_tree};
pub use word::Word;
pub use writer::write_book;
