//! From the bytes of a source to its tree, its core program, its locks and its least closed assignment, or to its first
//! fault or the line that refuses it. The commands on a source alone, over the bytes of its file: what `check` and `print` answer, and
//! when they end how.
#![tactic(auto)]

mod accepting;
mod check_command;
mod checking;
mod laws;
mod print_command;
mod reading;
mod refusal;

pub use accepting::{Judgement, accepted, judge, verdict_on};
pub use check_command::check;
pub use checking::{Source, read_source, well_formed};
pub use laws::refusal_laws;
pub use print_command::print;
pub use reading::{text_of, tree_of};
pub use refusal::{Ending, Refusal, SourceEnd};
