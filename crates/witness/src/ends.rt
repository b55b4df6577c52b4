//! Ends of schedules that were looked at.

use machine::{Machine, same_heap};

/// Whether these ends have the same objects and the same output.
fn is_like(one: &Machine<'_>, other: &Machine<'_>) -> bool {
    one.output() == other.output() && same_heap(one.heap(), other.heap())
}

/// Whether one of these ends is like this one.
fn is_known(ends: &[Machine<'_>], end: &Machine<'_>) -> bool {
    'ends: for known in ends {
        if is_like(known, end) {
            return true;
        }
    }
    false
}

/// Whether an end is new: no thread stands inside an atomic call there, and none of these ends is like it.
pub(crate) fn is_new(ends: &[Machine<'_>], end: &Machine<'_>) -> bool {
    end.open_thread().is_none() && !is_known(ends, end)
}
