//! A turn of a thread.
ghost use Rattle.std.specs.Prelude.{◌≡◌, ◌<◌, ◌+◌, ◌≢◌, ℕ, List, IsOk, Err, length, ◌++◌, ◌∷◌, [], map, Some, None, true, IsSome, OnOk, OnErr, option_and_then, slice_get, slice_set};
ghost use Rattle.core_program.specs.Views.{program_of, method_of};
ghost use Rattle.core_program.specs.Core.{Method};
ghost use Rattle.state.specs.declared.value.Value.TheVariants as value;
ghost use Rattle.state.specs.States.{ThreadOf, Ready, Running, Faulted};
ghost use Rattle.state.specs.Frames.{CellFrame, code_thread, may_enter, is_running, top_frame, slots_of, frames_in, on_top};
ghost use Rattle.compile.specs.declared.stack.Code.{Code};
ghost use Rattle.machine.specs.CodeMachine.{code_outcome};
ghost use Rattle.machine.specs.Deeds.{Can, deed_thread, deed_heap, deed_locks, deed_output, seen_of, operands_in, advanced};
ghost use Rattle.machine.specs.declared.deed.StepEnd.TheVariants as ends;
ghost use Rattle.machine.specs.Counts.{IsCounted};
ghost use Rattle.machine.specs.Rooms.{StaysRoomy, AllRoomy, HasRoomOf, FitsIn, TurnFits};
ghost use Rattle.machine.specs.Taken.{first_thread, step_result, ComesTo, IsTaken, state_in};

use crate::act::{Actor, drops};
use crate::deed::{Deed, StepEnd, Turn};
use crate::make::slots_of;
use crate::perform::perform;
use crate::shared::SharedState;
use core_program::{CoreMethod, CoreProgram};
use paths::MethodId;
use state::{Address, Entered, Fault, ThreadCell, Value};
use std::alloc::{AllocError as NoMemory, Global};

/// A ready thread enters a method that is there, at its entry.
fn enters_first(
    alloc: Global,
    found: &CoreMethod,
    cell: &mut ThreadCell,
    address: Address,
    entered: Entered,
) -> Result<(), NoMemory>
    requires { cell.old ≡ Ready address entered.method }
    ensures ok { OnOk result (code_thread cell.new ≡ first_thread entered.method (method_of found.now) (value.Ref address) entered.entry) }
    ensures err { OnErr result (cell.new ≡ cell.old) }
    ensures roomy { (rooms : List ℕ) → slice_get rooms entered.method ≡ Some entered.room → StaysRoomy rooms cell.old cell.new }
{
    let slots = slots_of(alloc, found.slots, Value::Ref(address), &[], 0)?;
    cell.push_frame(alloc, entered, slots)
}

/// A thread of this number faults, where it may.
fn fails(threads: &mut Vec<ThreadCell>, thread: u32, kind: Fault)
    requires { (c : ThreadOf CellFrame) → slice_get threads.old.items thread ≡ Some c → may_enter c ≡ true }
    ensures faulted { (c : ThreadOf CellFrame) → slice_get threads.old.items thread ≡ Some c →
        threads.new.items ≡ slice_set threads.old.items thread (Faulted kind (frames_in c)) }
    ensures roomy { (rooms : List ℕ) → AllRoomy rooms threads.old.items → AllRoomy rooms threads.new.items }
{
    if let Some(cell) = threads.get_mut(thread as usize) {
        cell.fault(kind);
    }
}

/// The thread of this number, which is ready, enters its method.
fn enters(
    alloc: Global,
    program: &CoreProgram,
    threads: &mut Vec<ThreadCell>,
    thread: u32,
    address: Address,
    entered: Entered,
) -> Result<(), NoMemory>
    requires { slice_get threads.old.items thread ≡ Some (Ready address entered.method) }
    ensures ok { OnOk result ((m : Method) → slice_get (program_of program.now).methods entered.method ≡ Some m →
        map code_thread threads.new.items ≡ slice_set (map code_thread threads.old.items) thread (first_thread entered.method m (value.Ref address) entered.entry)) }
    ensures err { OnErr result (threads.new.items ≡ threads.old.items) }
    ensures roomy { (rooms : List ℕ) → slice_get rooms entered.method ≡ Some entered.room → AllRoomy rooms threads.old.items → AllRoomy rooms threads.new.items }
{
    let method = entered.method;
    let Some(found) = program.methods.get(method.0 as usize) else {
        return Ok(());
    };
    match threads.get_mut(thread as usize) {
        Some(cell) => enters_first(alloc, found, cell, address, entered),
        None => Ok(()),
    }
}

/// The thread of this number, which has a frame, starts another on an object.
fn starts(
    alloc: Global,
    threads: &mut Vec<ThreadCell>,
    thread: u32,
    address: Address,
    method: MethodId,
    place: u32,
) -> Result<(), NoMemory>
    requires { IsSome (option_and_then top_frame (slice_get threads.old.items thread)) }
    ensures ok { OnOk result ((c : ThreadOf CellFrame) → slice_get threads.old.items thread ≡ Some c →
        map code_thread threads.new.items ≡ slice_set (map code_thread threads.old.items) thread (on_top (advanced 1 None place) (code_thread c)) ++ Ready address method ∷ []) }
    ensures err { OnErr result (threads.new.items ≡ threads.old.items) }
    ensures roomy { (rooms : List ℕ) → AllRoomy rooms threads.old.items → AllRoomy rooms threads.new.items }
{
    threads.push(ThreadCell::ready(alloc, address, method))?;
    if let Some(cell) = threads.get_mut(thread as usize) {
        drops(cell, 1, place);
    }
    Ok(())
}

/// The thread of this number, which runs, does something.
fn does(
    alloc: Global,
    program: &CoreProgram,
    shared: &mut SharedState,
    threads: &mut Vec<ThreadCell>,
    thread: u32,
    deed: Deed,
) -> Result<(), NoMemory>
    requires top { (c : ThreadOf CellFrame) → slice_get threads.old.items thread ≡ Some c → IsSome (top_frame c) }
    requires running { (c : ThreadOf CellFrame) → slice_get threads.old.items thread ≡ Some c → is_running c ≡ true }
    requires can { (c : ThreadOf CellFrame) → slice_get threads.old.items thread ≡ Some c →
        Can (program_of program.now) (seen_of thread shared.old.heap shared.old.locks) thread (slots_of (top_frame c)) deed }
    requires counted { (n : ℕ) × (n < 4294967295) × IsCounted n shared.old.heap shared.old.locks }
    ensures threads { OnOk result ((c : ThreadOf CellFrame) → slice_get threads.old.items thread ≡ Some c →
        map code_thread threads.new.items ≡ slice_set (map code_thread threads.old.items) thread (deed_thread (program_of program.now) (seen_of thread shared.old.heap shared.old.locks) thread deed (code_thread c))) }
    ensures heap { OnOk result ((c : ThreadOf CellFrame) → slice_get threads.old.items thread ≡ Some c →
        shared.new.heap ≡ deed_heap (program_of program.now) (seen_of thread shared.old.heap shared.old.locks) thread (operands_in (code_thread c)) deed shared.old.heap) }
    ensures locks { OnOk result (IsSome (slice_get threads.old.items thread) → shared.new.locks ≡ deed_locks (seen_of thread shared.old.heap shared.old.locks) thread deed shared.old.locks) }
    ensures output { OnOk result (IsSome (slice_get threads.old.items thread) → shared.new.output.items ≡ deed_output deed shared.old.output.items) }
    ensures threads_kept { OnErr result (map code_thread threads.new.items ≡ map code_thread threads.old.items) }
    ensures heap_kept { OnErr result (shared.new.heap ≡ shared.old.heap) }
    ensures locks_kept { OnErr result (shared.new.locks ≡ shared.old.locks) }
    ensures output_kept { OnErr result (shared.new.output.items ≡ shared.old.output.items) }
    ensures roomy { (rooms : List ℕ) → HasRoomOf rooms deed → AllRoomy rooms threads.old.items → AllRoomy rooms threads.new.items }
    ensures lean { (f : CellFrame) (below : List CellFrame) → slice_get threads.old.items thread ≡ Some (Running (f ∷ below)) → FitsIn f below deed → IsOk result }
{
    match threads.get_mut(thread as usize) {
        Some(cell) => {
            let actor = Actor {
                alloc,
                program,
                thread,
            };
            perform(&actor, shared, cell, deed)
        }
        None => Ok(()),
    }
}

/// The answer of a step that only want of memory could keep.
fn answer(done: Result<(), NoMemory>) -> Result<(), StepEnd>
    ensures { result ≡ step_result done }
{
    match done {
        Ok(()) => Ok(()),
        Err(_) => Err(StepEnd::NoMemory),
    }
}

/// A turn of a thread, which comes to this: a step that changes the threads and what they share, or the reason why there is
/// none.
pub(crate) fn take_turn(
    alloc: Global,
    program: &CoreProgram,
    shared: &mut SharedState,
    threads: &mut Vec<ThreadCell>,
    thread: u32,
    turn: Turn,
) -> Result<(), StepEnd>
    requires counted { (n : ℕ) × (n < 4294967295) × IsCounted n shared.old.heap shared.old.locks }
    requires decided { (code : List Code) × (entry : List ℕ) × (room : List ℕ) × ComesTo (program_of program.now) code entry room thread shared.old.heap shared.old.locks threads.old.items turn }
    ensures taken { (code : List Code) (entry room : List ℕ) → ComesTo (program_of program.now) code entry room thread shared.old.heap shared.old.locks threads.old.items turn →
        IsTaken thread result (state_in shared.new.heap shared.new.locks threads.new.items shared.new.output.items) (state_in shared.old.heap shared.old.locks threads.old.items shared.old.output.items)
        (code_outcome (program_of program.now) code entry room (state_in shared.old.heap shared.old.locks threads.old.items shared.old.output.items) thread) }
    ensures roomy { (code : List Code) (entry room : List ℕ) → ComesTo (program_of program.now) code entry room thread shared.old.heap shared.old.locks threads.old.items turn →
        length room ≡ length (program_of program.now).methods → AllRoomy room threads.old.items → AllRoomy room threads.new.items }
    ensures lean { TurnFits (slice_get threads.old.items thread) turn → result ≢ Err ends.NoMemory }
    ensures counted { OnOk result ((n : ℕ) → IsCounted n shared.old.heap shared.old.locks → IsCounted (n + 1) shared.new.heap shared.new.locks) }
{
    match turn {
        Turn::Ends(end) => Err(end),
        Turn::Fails(kind) => {
            fails(threads, thread, kind);
            Ok(())
        }
        Turn::Enters {
            address,
            method,
            entry,
            room,
        } => {
            let entered = Entered {
                method,
                entry,
                room,
            };
            answer(enters(alloc, program, threads, thread, address, entered))
        }
        Turn::Starts {
            address,
            method,
            place,
        } => answer(starts(alloc, threads, thread, address, method, place)),
        Turn::Does(deed) => answer(does(alloc, program, shared, threads, thread, deed)),
    }
}
