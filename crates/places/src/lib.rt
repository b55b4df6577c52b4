//! Where the nodes of a method stand in its source, and what its slots are called there. Core nodes have numbers and no
//! offsets; the tree has the offsets. Laws say of which part of the tree each node was made.
#![tactic(auto)]

mod index;
mod laws;
mod methods;
mod offsets;
mod slots;

pub use index::LineIndex;
pub use laws::{book_numbers, in_step, place_laws};
pub use methods::methods_in;
pub use offsets::method_places;
pub use slots::{SlotNames, slot_names};
