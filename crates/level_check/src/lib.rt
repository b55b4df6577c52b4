//! Ordered programs, in code: the walk through a body, the contexts that are reached, their greatest levels, and the
//! first bad `synchronized`. Texts of lock levels: a level for each class, read with the exact first fault.
#![tactic(auto)]

mod answer;
mod bad;
mod callees;
mod cells;
mod checks;
mod end;
mod explore;
mod expressions;
mod judged;
mod laws;
mod levelled;
mod lines;
mod link;
mod names;
mod origins;
mod passed;
mod raise;
mod reader;
mod rising;
mod scan;
mod slots;
mod spread;
mod statements;
mod told;
mod walk;

pub use answer::ordered;
pub use end::LevelEnd;
pub use laws::light_laws;
pub use levelled::greatest;
pub use link::{CellLinks, Link};
pub use reader::{LevelsFault, read_levels};
pub use slots::slot_types;
pub use statements::walk_body;
pub use told::{Callee, Seen};
pub use walk::Walk;
