//! The calls of a schedule.
ghost use Rattle.std.specs.Prelude.{◌≡◌, ◌⊎◌, ◌≤◌, ◌++◌, ℕ, map, length, false, Some, IfOk, IfErr, IsErrOf, MatchResult};
ghost use Rattle.core_program.specs.Views.{program_of};
ghost use Rattle.state.specs.States.{State};
ghost use Rattle.compile.specs.IsCode.{IsCodeOf};
ghost use Rattle.semantics.specs.Run.{run, inside, IsUninterrupted};
ghost use Rattle.replay.specs.Records.{AreCallsTold, HasNoDeep, IsFirstTooDeep};
ghost use Rattle.replay.specs.Views.{record_told, all_told_in};
ghost use Rattle.replay.specs.declared.calls.ReplayEnd.TheVariants as ends;

use crate::entry::enter;
use compile::CodeTable;
use core_program::CoreProgram;
use machine::Machine;
use paths::MethodId;
use state::{Address, Value};
use std::alloc::{AllocError, AllocFailed, Global};

/// A completed outermost atomic call: the number of its first entry, counted from 1, its thread, the method that runs, the
/// receiver, the result where the method has one, and the numbers that it printed.
#[derive(Drop)]
pub struct CallRecord {
    pub entry: u32,
    pub thread: u32,
    pub method: MethodId,
    pub on: Address,
    pub result: Option<Value>,
    pub prints: Vec<i32>,
}

/// Why a schedule isn't replayed.
#[derive(Clone, Copy, PartialEq, Eq, Debug)]
pub enum ReplayEnd {
    /// The call whose first entry has this number, counted from 1, is the first that has more than 100 frames of its own.
    TooDeep { entry: u32 },
    /// Memory was wanting.
    NoMemory,
}

impl From<AllocError> for ReplayEnd {
    ghost use Rattle.std.specs.Prelude.{◌≡◌};
    ghost use Rattle.replay.specs.declared.calls.ReplayEnd.TheVariants as ends;

    ghost from_gives = { λ _ end. end ≡ ends.NoMemory };

    fn from(_: AllocError) -> ReplayEnd {
        ReplayEnd::NoMemory
    }
}

impl<T: Drop> From<AllocFailed<T>> for ReplayEnd {
    ghost use Rattle.std.specs.Prelude.{◌≡◌};
    ghost use Rattle.replay.specs.declared.calls.ReplayEnd.TheVariants as ends;

    ghost from_gives = { λ _ end. end ≡ ends.NoMemory };

    fn from(_: AllocFailed<T>) -> ReplayEnd {
        ReplayEnd::NoMemory
    }
}

/// Puts the record of a call behind others, where one ended.
fn put(calls: &mut Vec<CallRecord>, told: Option<CallRecord>) -> Result<(), ReplayEnd>
    ensures put { IfOk result (λ _. map record_told calls.new.items ≡ map record_told calls.old.items ++ all_told_in told) }
    ensures err { IfErr result (λ e. e ≡ ends.NoMemory) }
{
    if let Some(call) = told {
        calls.push(call)?;
    }
    Ok(())
}

/// The completed outermost atomic calls of a schedule that runs, interrupts no atomic call and ends with no thread inside one, in
/// the order of the schedule. The machine is run along beside, so no state is kept, and its threads' atomic calls are counted, so no
/// frames are looked through.
pub fn replay(
    alloc: Global,
    program: &CoreProgram,
    code: &CodeTable,
    schedule: &[u32],
) -> Result<Vec<CallRecord>, ReplayEnd>
    requires code { IsCodeOf (program_of program.now) code.now.code.items code.now.entry.items code.now.room.items }
    requires size { length schedule.now ≤ 200000 }
    requires alone { IsUninterrupted (program_of program.now) schedule.now }
    requires whole { (q : State) → run (program_of program.now) schedule.now ≡ Some q → (t : ℕ) → inside (program_of program.now) q t ≡ false }
    ensures calls { IfOk result (λ calls. AreCallsTold (program_of program.now) schedule.now (map record_told calls.items)) }
    ensures few { IfOk result (λ _. HasNoDeep (program_of program.now) schedule.now) }
    ensures deep { (entry : ℕ) → IsErrOf result (ends.TooDeep entry) → IsFirstTooDeep (program_of program.now) schedule.now entry }
    ensures deeper { (entry : ℕ) → IsFirstTooDeep (program_of program.now) schedule.now entry →
        MatchResult result (λ _. ⊥) (λ e. (e ≡ ends.TooDeep entry) ⊎ (e ≡ ends.NoMemory)) }
{
    let mut machine = Machine::start(alloc, program, code)?;
    let mut inside = Vec::new(alloc);
    let mut calls = Vec::new(alloc);
    let mut open = None;
    let mut entry = 0;
    for thread in schedule {
        entry += 1;
        match enter(alloc, &mut machine, &mut inside, open, entry, *thread) {
            Ok(added) => {
                open = added.open;
                put(&mut calls, added.told)?;
            }
            Err(end) => return Err(end),
        }
    }
    Ok(calls)
}
