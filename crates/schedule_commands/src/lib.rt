//! `run`, `serialise`, `serialise-open`, `generate` and `replay` over the bytes of their files.
#![tactic(auto)]

mod generating;
mod lines;
mod opening;
mod replaying;
mod running;
mod schedules;
mod serialising;

pub use generating::generate_figures;
pub use opening::serialise_open;
pub use replaying::replay_calls;
pub use running::run_schedule;
pub use schedules::schedule_of;
pub use serialising::{order_of, refuse_open, serialise, with_comments};
