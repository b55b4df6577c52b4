//! What a thread's turn comes to, decided before anything is changed.
ghost use Rattle.std.specs.Prelude.{◌≡◌, slice_get};
ghost use Rattle.machine.specs.Seen.{program_in, code_lines_in, entry_in, room_in, shared_in};
ghost use Rattle.machine.specs.Turns.{first_turn, deed_turn, cell_turn, next_turn};

use crate::decide::next_deed;
use crate::deed::{Deed, StepEnd, Turn};
use crate::seen::Seen;
use paths::MethodId;
use state::{Address, Fault, ThreadCell, ThreadState};

/// A ready thread's turn.
fn first_turn(seen: &Seen<'_>, address: Address, method: MethodId) -> Turn
    ensures { result ≡ first_turn address method (slice_get (program_in seen.now).methods method) (slice_get (entry_in seen.now) method) (slice_get (room_in seen.now) method) }
{
    let Some(_) = seen.program().methods.get(method.0 as usize) else {
        return Turn::Fails(Fault::Null);
    };
    let Some(entry) = seen.code.entry.get(method.0 as usize) else {
        return Turn::Fails(Fault::Null);
    };
    match seen.code.room.get(method.0 as usize) {
        Some(room) => Turn::Enters {
            address,
            method,
            entry: *entry,
            room: *room,
        },
        None => Turn::Enters {
            address,
            method,
            entry: *entry,
            room: 0,
        },
    }
}

/// What a running thread's turn comes to, by what it does next.
fn deed_turn(deed: Deed) -> Turn
    ensures { result ≡ deed_turn deed }
{
    match deed {
        Deed::Fails(kind) => Turn::Fails(kind),
        Deed::Waits { address, holder } => Turn::Ends(StepEnd::Waits { address, holder }),
        Deed::Starts {
            address,
            method,
            place,
        } => Turn::Starts {
            address,
            method,
            place,
        },
        other => Turn::Does(other),
    }
}

/// What a thread's turn comes to, by its status.
fn cell_turn(seen: &Seen<'_>, cell: &ThreadCell) -> Turn
    ensures { result ≡ cell_turn (program_in seen.now) (code_lines_in seen.now) (entry_in seen.now) (room_in seen.now) (shared_in seen.now) seen.now.thread cell.now }
{
    if let Some((address, method)) = cell.waiting() {
        return first_turn(seen, address, method);
    }
    match cell.state() {
        ThreadState::Done => Turn::Ends(StepEnd::Done),
        ThreadState::Faulted(kind) => Turn::Ends(StepEnd::Faulted(kind)),
        _ => deed_turn(next_deed(seen, cell)),
    }
}

/// What the turn of the thread that looks comes to.
pub fn next_turn(seen: &Seen<'_>, threads: &[ThreadCell]) -> Turn
    ensures { result ≡ next_turn (program_in seen.now) (code_lines_in seen.now) (entry_in seen.now) (room_in seen.now) (shared_in seen.now) seen.now.thread (slice_get threads.now seen.now.thread) }
{
    match threads.get(seen.thread as usize) {
        Some(cell) => cell_turn(seen, cell),
        None => Turn::Ends(StepEnd::Absent),
    }
}
