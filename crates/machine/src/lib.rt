//! The machine that runs code: each of its steps is the step of the definition. What a thread does next is decided
//! first: its deed, what its turn comes to, and the kind of its step. Then it is done: on the frames, the objects, the
//! locks, the printed numbers, and the other threads.
#![tactic(auto)]

mod act;
mod called;
mod calling;
mod decide;
mod deed;
mod equal;
mod inside;
mod kinds;
mod laws;
mod machine;
mod make;
mod next;
mod operators;
mod perform;
mod seen;
mod shared;
mod targets;
mod turn;
mod upwards;
mod weights;

pub use act::object_values;
pub use calling::run_of_class;
pub use decide::{listed_value, next_deed};
pub use deed::{Deed, StepEnd, Turn};
pub use equal::same_heap;
pub use inside::is_annotated;
pub use kinds::{cell_kind, turn_kind};
pub use laws::code_laws;
pub use machine::{Machine, Stopped};
pub use make::slots_of;
pub use next::next_turn;
pub use operators::{address_of, as_int, as_truth, binary_value, operand, unary_value};
pub use seen::Seen;
pub use targets::Targets;
