//! Steps that were made.
use state::StepKind;

/// A step of a run: its thread, its kind, and whether its thread stands inside an atomic call after it.
#[derive(Clone, Copy)]
pub struct Step {
    pub thread: u32,
    pub kind: StepKind,
    pub inside: bool,
}
