//! Certificates of refusal: why no assignment is admissible, in lines of which each follows from those before it. The
//! laws, the checker, and the maker. The text of a certificate of refusal: written, and read with its exact first
//! fault.
#![tactic(auto)]

mod ask;
mod bodies;
mod check;
mod faults;
mod floors;
mod groups;
mod judged;
mod laws;
mod line;
mod looks;
mod overs;
mod parts;
mod passes;
mod said;
mod short_path;
mod skip;
mod steps;
mod text_front;
mod text_reader;
mod text_writer;
mod told;
mod up;
mod waiting;
mod waits;
mod work;

pub use check::{BlameWrong, check_blame};
pub use faults::first_faults;
pub use laws::{certificates_refute, overriding_is_exact, passes_decide, work_is_bounded};
pub use line::{Blame, Line};
pub use passes::{BlameEnd, blame};
pub use short_path::ShortPath;
pub use text_reader::{BlameFault, read_blame};
pub use text_writer::write_blame;
