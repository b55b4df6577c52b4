//! Two neighbouring entries of a schedule are exchanged.
ghost use Rattle.std.specs.Prelude.{◌≡◌, ◌≢◌, ◌↔◌, ◌+◌, ◌≤◌, ◌<◌, ℕ, length, true, Err, IfOk, slice_get};
ghost use Rattle.core_program.specs.Views.{program_of};
ghost use Rattle.core_program.specs.Typed.{IsTyped};
ghost use Rattle.state.specs.declared.value.StepKind.{StepKind as KindData};
ghost use Rattle.state.specs.States.{State};
ghost use Rattle.compile.specs.IsCode.{IsCodeOf};
ghost use Rattle.semantics.specs.Step.{Move};
ghost use Rattle.semantics.specs.Run.{run, Runs};
ghost use Rattle.reduction.specs.Swapped.{MayPass};
ghost use Rattle.library.specs.declared.swap.SwapEnd.TheVariants as ends;
ghost use Rattle.library.specs.Seen.{IsSeen};
ghost use Rattle.library.specs.Exchanged.{exchanged, AreNeighbours, IsStartOf, AreNotMovers, ArePassed};

use crate::steps::{Steps, reached, steps_of};
use compile::CodeTable;
use core_program::CoreProgram;
use state::StepKind;
use std::alloc::{AllocError as NoMemory, Global};

/// Why two neighbouring entries aren't exchanged: the first starts the second's thread, their kinds don't let them pass, or
/// memory was wanting.
#[derive(Clone, Copy, PartialEq, Eq, Debug)]
pub enum SwapEnd {
    Starts,
    NotMovers { first: StepKind, second: StepKind },
    NoMemory,
}

/// Whether a step of the first kind may move behind one of the second (Lipton 1975).
fn may_pass(first: StepKind, second: StepKind) -> bool
    ensures { (result ≡ true) ↔ MayPass first second }
{
    first != StepKind::Bare
        && second != StepKind::Bare
        && (matches!(first, StepKind::Right | StepKind::Both)
            || matches!(second, StepKind::Left | StepKind::Both))
}

/// The schedule with these two entries in the other order.
fn exchange(alloc: Global, schedule: &[u32], place: usize) -> Result<Vec<u32>, NoMemory>
    requires { place + 1 < length schedule.now }
    ensures { IfOk result (λ r. r.items ≡ exchanged place schedule.now) }
{
    let mut exchanged = schedule.to_vec(alloc)?;
    exchanged[place] = schedule[place + 1];
    exchanged[place + 1] = schedule[place];
    Ok(exchanged)
}

/// What the entry at a place and the one behind it do.
fn steps_at(
    alloc: Global,
    program: &CoreProgram,
    code: &CodeTable,
    schedule: &[u32],
    place: usize,
) -> Result<Steps, NoMemory>
    requires code { IsCodeOf (program_of program.now) code.now.code.items code.now.entry.items code.now.room.items }
    requires short { length schedule.now ≤ 200000 }
    requires there { place + 1 < length schedule.now }
    ensures { (q : State) (t u : ℕ) (m n : Move) → AreNeighbours (program_of program.now) schedule.now place q t u m n → IfOk result (λ s. IsSeen s q m u n) }
{
    let mut machine = reached(alloc, program, code, &schedule[..place])?;
    steps_of(alloc, &mut machine, schedule[place], schedule[place + 1])
}

/// The schedule with the entry at a place, counted from 0, and the one behind it in the other order, where their steps may
/// pass each other. It runs to the same state, and each of the two steps is the same as before. The program need not be
/// accepted.
pub fn swap_at(
    alloc: Global,
    program: &CoreProgram,
    code: &CodeTable,
    schedule: &[u32],
    place: u32,
) -> Result<Vec<u32>, SwapEnd>
    requires typed { IsTyped (program_of program.now) }
    requires code { IsCodeOf (program_of program.now) code.now.code.items code.now.entry.items code.now.room.items }
    requires short { length schedule.now ≤ 200000 }
    requires runs { Runs (program_of program.now) schedule.now }
    requires there { place + 1 < length schedule.now }
    requires apart { slice_get schedule.now place ≢ slice_get schedule.now (place + 1) }
    ensures starts { result ≡ Err ends.Starts → (q : State) (t u : ℕ) (m n : Move) → AreNeighbours (program_of program.now) schedule.now place q t u m n → IsStartOf q m u }
    ensures not_movers { (first second : KindData) → result ≡ Err (ends.NotMovers first second) → (q : State) (t u : ℕ) (m n : Move) → AreNeighbours (program_of program.now) schedule.now place q t u m n →
        AreNotMovers first second q m u n }
    ensures passes { IfOk result (λ r. (q : State) (t u : ℕ) (m n : Move) → AreNeighbours (program_of program.now) schedule.now place q t u m n → ArePassed (program_of program.now) q t m u n) }
    ensures exchanged { IfOk result (λ r. r.items ≡ exchanged place schedule.now) }
    ensures same { IfOk result (λ r. run (program_of program.now) r.items ≡ run (program_of program.now) schedule.now) }
{
    match steps_at(alloc, program, code, schedule, place as usize) {
        Ok(steps) if steps.starts => Err(SwapEnd::Starts),
        Ok(steps) if may_pass(steps.first, steps.second) => {
            match exchange(alloc, schedule, place as usize) {
                Ok(exchanged) => Ok(exchanged),
                Err(NoMemory) => Err(SwapEnd::NoMemory),
            }
        }
        Ok(steps) => Err(SwapEnd::NotMovers {
            first: steps.first,
            second: steps.second,
        }),
        Err(NoMemory) => Err(SwapEnd::NoMemory),
    }
}
