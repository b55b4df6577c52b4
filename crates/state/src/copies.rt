//! Copies of frames, and tests whether frames are equal.
ghost use Rattle.std.specs.Prelude.{◌≡◌, map, true, IfOk};
ghost use Rattle.std.specs.Option.{option_map, option_copied};
ghost use Rattle.state.specs.Frames.{code_frame};

use crate::frame::FrameCell;
use crate::value::ThreadState;
use std::alloc::{AllocError as NoMemory, Global};

/// An equal frame or none.
pub(crate) fn copy_top(
    alloc: Global,
    top: Option<&FrameCell>,
) -> Result<Option<FrameCell>, NoMemory>
    ensures { IfOk result (λ o. o ≡ option_copied top.entry) }
{
    match top {
        Some(frame) => Ok(Some(frame.copy(alloc)?)),
        None => Ok(None),
    }
}

/// Equal frames.
pub(crate) fn copy_frames(alloc: Global, frames: &[FrameCell]) -> Result<Vec<FrameCell>, NoMemory>
    ensures { IfOk result (λ v. v.items ≡ frames.now) }
{
    let mut copies = Vec::with_capacity(alloc, frames.len())?;
    for frame in frames {
        copies.push(frame.copy(alloc)?)?;
    }
    Ok(copies)
}

/// Whether these are equal statuses.
pub(crate) fn same_status(one: ThreadState, other: ThreadState) -> bool
    ensures { result ≡ true → one ≡ other }
{
    one == other
}

/// Whether both frames are equal, but for their spare rooms, or there is none.
pub(crate) fn same_top(one: Option<&FrameCell>, other: Option<&FrameCell>) -> bool
    ensures { result ≡ true → option_map code_frame (option_copied one.entry) ≡ option_map code_frame (option_copied other.entry) }
{
    match one {
        Some(frame) => match other {
            Some(next) => frame.same(next),
            None => false,
        },
        None => other.is_none(),
    }
}

/// Whether these are equal frames, but for their spare rooms.
pub(crate) fn same_frames(some: &[FrameCell], others: &[FrameCell]) -> bool
    ensures { result ≡ true → map code_frame some.now ≡ map code_frame others.now }
{
    if some.len() != others.len() {
        return false;
    }
    for (place, frame) in some.iter().enumerate() {
        if !frame.same(&others[place]) {
            return false;
        }
    }
    true
}
