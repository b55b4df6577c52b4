//! Conditional atomicities, in two forms: as canonical trees, and as numbers of shared nodes in one list, where equal
//! trees have one number (hash consing, after Filliâtre and Conchon 2006).
#![tactic(auto)]

mod calls;
mod halves;
mod node_algebra;
mod node_operations;
mod rows;
mod table;
mod text;
mod tree;
mod tree_operations;
mod trees;

pub use halves::Split;
pub use rows::{Decision, HINTS, Item, Rows, hint_at, hint_of_path};
pub use table::{Node, NodeTable};
pub use text::tree_text;
pub use tree::{Tree, same_values_law};
pub use trees::Trees;
