//! What is seen of a thread.
ghost use Rattle.std.specs.Prelude.{◌≡◌, Some, slice_get};
ghost use Rattle.state.specs.States.{State};
ghost use Rattle.state.specs.Frames.{frames_in};
ghost use Rattle.machine.specs.Standing.{StandsFor};
ghost use Rattle.replay.specs.Scanning.{first_receiver};
ghost use Rattle.replay.specs.Sights.{sight_of, frames_call, cell_top, cell_sight};

use machine::{Machine, operand};
use paths::MethodId;
use state::{Address, ThreadCell, ThreadState, Value};

/// How many frames a thread has, the method and the receiver of the innermost, and its topmost operand where the thread runs.
#[derive(Clone, Copy)]
pub(crate) struct Sight {
    pub(crate) frames: usize,
    pub(crate) call: Option<(MethodId, Address)>,
    pub(crate) top: Option<Value>,
}

/// A method, and the receiver in its first slot.
fn first_receiver(method: MethodId, slots: &[Value]) -> Option<(MethodId, Address)>
    ensures { result ≡ first_receiver method slots.now }
{
    match slots.first() {
        Some(Value::Ref(on)) => Some((method, *on)),
        _ => None,
    }
}

/// The method and the receiver of the innermost frame.
fn call_in(cell: &ThreadCell) -> Option<(MethodId, Address)>
    ensures { result ≡ frames_call (frames_in cell.now) }
{
    match cell.top() {
        Some(method) => first_receiver(method, cell.slots()),
        None => None,
    }
}

/// The topmost operand of the innermost frame of a running thread.
fn top_in(cell: &ThreadCell) -> Option<Value>
    ensures { result ≡ cell_top cell.now }
{
    if cell.top().is_none() {
        return None;
    }
    match cell.state() {
        ThreadState::Running => Some(operand(cell.operands(), 0)),
        _ => None,
    }
}

/// What is seen of a thread.
fn seen_in(cell: &ThreadCell) -> Sight
    ensures { result ≡ cell_sight (Some cell.now) }
{
    Sight {
        frames: cell.frames(),
        call: call_in(cell),
        top: top_in(cell),
    }
}

/// What is seen of the thread of this number.
pub(crate) fn sight_at(machine: &Machine<'_>, thread: u32) -> Sight
    ensures { (q : State) → StandsFor machine.now q → result ≡ sight_of (slice_get q.threads thread) }
{
    match machine.threads().get(thread as usize) {
        Some(cell) => seen_in(cell),
        None => Sight {
            frames: 0,
            call: None,
            top: None,
        },
    }
}
