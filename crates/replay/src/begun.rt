//! Calls that are open.
use paths::MethodId;
use state::Address;

/// An open call, and what was seen of it when it began: the number of its first entry, counted from 1, its thread, method and
/// receiver, how many frames its thread had before it, and how many numbers were printed.
#[derive(Clone, Copy)]
pub(crate) struct Begun {
    pub(crate) entry: u32,
    pub(crate) thread: u32,
    pub(crate) method: MethodId,
    pub(crate) on: Address,
    pub(crate) frames: usize,
    pub(crate) printed: usize,
}
