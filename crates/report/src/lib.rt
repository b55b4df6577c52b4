//! The lines that the program writes of refusals and answers. The lines that the program writes of schedules, and the
//! text of the state that one runs to.
#![tactic(auto)]

mod refused;
mod schedules;
mod source_fault;
mod states;
mod values;
mod verdict;

pub use refused::refused_at_text;
pub use schedules::{open_text, schedule_fault_text, stopped_text};
pub use source_fault::{SourceFault, refused_text, write_place};
pub use states::state_text;
pub use values::{write_address, write_value};
pub use verdict::{atomicity_text, broken_text, write_fields, write_path, write_title};
