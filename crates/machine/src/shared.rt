//! What all threads share.
use state::{Heap, Locks};

/// What all threads share: the objects, the held locks, and the printed numbers.
#[derive(Drop)]
pub(crate) struct SharedState {
    pub(crate) heap: Heap,
    pub(crate) locks: Locks,
    pub(crate) output: Vec<i32>,
}
