//! The machine's state: values, addresses, faults, the status of a thread and the kind of a step, with what a frame has
//! still to do. Frames and threads of the machine that runs code.
#![tactic(auto)]

mod copies;
pub mod examples;
mod frame;
mod grid;
mod held;
mod laws;
mod objects;
mod row;
mod threads;
mod value;
mod values;

pub use frame::Entered;
pub use held::Locks;
pub use laws::{address_laws, memory_laws, numbering_laws, operand_laws};
pub use objects::Heap;
pub use threads::ThreadCell;
pub use value::{Address, Fault, StepKind, ThreadState, Value};
pub use values::{same_address, same_values};
