//! Schedules as text: which thread steps, one entry after another. An entry is a thread `t`, or `t*n` for n steps of
//! it. Blanks (space, tab, CR, LF) or comments (from `#` to the end of the line) stand between entries. A large input
//! of the program's own: the source and the schedule for a number of workers.
#![tactic(auto)]

mod comments;
mod generation_laws;
mod laws;
mod making;
mod numbers;
mod reader;
mod writer;

pub use comments::add_comments;
pub use generation_laws::generated_laws;
pub use laws::{comment_laws, form_laws};
pub use making::{MOST_WORKERS, generate};
pub use reader::{SchedFault, read_schedule};
pub use writer::write_schedule;
