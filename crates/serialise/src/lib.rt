//! Rewriting a schedule: it is run with a note of each step, the units of the run are found from its last step to its
//! first, and the steps are put in an order in which each atomic call stands in one piece, to the same state. The
//! written order is for schedules that end outside atomic calls, the open order also for those that leave some open.
#![tactic(auto)]

mod calls;
mod open_order_laws;
mod opening;
mod order;
mod rearranged;
mod repeats;
mod rewriting;
mod run;
mod run_end;
mod serial_end;
mod spreading;
mod step;
mod tables;
mod units;
mod written_order_ends;

pub use open_order_laws::{accepted_programs_gather, open_order_runs};
pub use opening::{opened, opened_with_machine};
pub use rearranged::Rearranged;
pub use repeats::append;
pub use rewriting::{rewritten, rewritten_with_machine};
pub use run::{NotedRun, make_step, run_from_start};
pub use run_end::RunEnd;
pub use serial_end::SerialEnd;
pub use step::Step;
pub use tables::{put, value_at};
pub use units::{UnitTables, unit_tables};
pub use written_order_ends::ending_laws;
