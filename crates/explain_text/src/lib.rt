//! The lines of explanations, each a place, a kind and a text, as compilers write them.
#![tactic(auto)]

mod arranging;
mod blocks;
mod causes;
mod codes;
mod deeds;
mod listing;
mod more;
mod page;
mod steps;
mod warnings;
mod words;

pub use arranging::{Arranged, arrange};
pub use codes::StepKind;
pub use listing::write_listing;
pub use more::write_arranged;
pub use page::Page;
pub use warnings::write_warning;
