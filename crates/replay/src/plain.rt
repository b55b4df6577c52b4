//! Plain states.
ghost use Rattle.std.specs.Prelude.{◌≡◌, IfOk, map};
ghost use Rattle.state.specs.States.{State};
ghost use Rattle.machine.specs.Standing.{StandsFor};
ghost use Rattle.replay.specs.Plain.{plain_thread, plain_of};
ghost use Rattle.replay.specs.Entries.{plain_thread_of};

use machine::Machine;
use paths::MethodId;
use state::{Address, Fault, Heap, Locks, ThreadCell, ThreadState};
use std::alloc::{AllocError as NoMemory, Global};
use std::marker::Model;

/// The status of a thread: ready to run a method on an object, running, done, or faulted.
#[derive(Clone, Copy, PartialEq, Eq, Debug)]
pub enum PlainEntry {
    Ready(Address, MethodId),
    Running,
    Done,
    Faulted(Fault),
}

/// A plain state: the objects, the held locks, the status of each thread by its number, and the printed numbers.
#[derive(Drop)]
pub struct Plain {
    pub(crate) heap: Heap,
    pub(crate) locks: Locks,
    pub(crate) threads: Vec<PlainEntry>,
    pub(crate) output: Vec<i32>,
}

impl Model for Plain {
    ghost use Rattle.std.specs.Prelude.{map};
    ghost use Rattle.state.specs.Memory.{IsNumbered};
    ghost use Rattle.replay.specs.Plain as plain;
    ghost use Rattle.replay.specs.Codes.{plain_code};
    ghost use Rattle.replay.specs.Entries.{plain_thread_of};

    ghost Value = { plain.Plain };

    ghost coded = { plain_code };

    ghost view = { λ p. record {
      heap = p.heap;
      locks = p.locks;
      threads = map plain_thread_of p.threads.items;
      output = p.output.items;
    } };

    ghost invariant = { λ p. IsNumbered p.heap };
}

impl Plain {
    /// The plain state of a machine.
    pub fn of(alloc: Global, machine: &Machine<'_>) -> Result<Plain, NoMemory>
        ensures { IfOk result (λ p. (q : State) → StandsFor machine.now q → p ≡ plain_of q) }
    {
        let heap = machine.heap().copy(alloc)?;
        let locks = machine.locks().copy(alloc)?;
        let threads = statuses(alloc, machine.threads())?;
        let mut output = Vec::with_capacity(alloc, machine.output().len())?;
        output.extend_from_slice(machine.output())?;
        Ok(Plain {
            heap,
            locks,
            threads,
            output,
        })
    }
}

/// The status of a thread.
fn status(cell: &ThreadCell) -> PlainEntry
    ensures { plain_thread_of result ≡ plain_thread cell.now }
{
    if let Some((on, method)) = cell.waiting() {
        return PlainEntry::Ready(on, method);
    }
    match cell.state() {
        ThreadState::Done => PlainEntry::Done,
        ThreadState::Faulted(kind) => PlainEntry::Faulted(kind),
        ThreadState::Ready | ThreadState::Running => PlainEntry::Running,
    }
}

/// The status of each thread.
fn statuses(alloc: Global, cells: &[ThreadCell]) -> Result<Vec<PlainEntry>, NoMemory>
    ensures { IfOk result (λ v. map plain_thread_of v.items ≡ map plain_thread cells.now) }
{
    let mut entries = Vec::with_capacity(alloc, cells.len())?;
    for cell in cells {
        entries.push(status(cell))?;
    }
    Ok(entries)
}
