//! Putting a schedule in its open order.
ghost use Rattle.std.specs.Prelude.{◌≡◌, ◌≤◌, length, Some, IfOk, IfErr};
ghost use Rattle.core_program.specs.Views.{program_of};
ghost use Rattle.core_program.specs.Typed.{IsTyped};
ghost use Rattle.rules.specs.Rules.{IsAccepted};
ghost use Rattle.state.specs.States.{State};
ghost use Rattle.compile.specs.IsCode.{IsCodeOf};
ghost use Rattle.semantics.specs.Run.{run};
ghost use Rattle.machine.specs.Standing.{StandsFor};
ghost use Rattle.serialise.specs.NoRun.{IsNoRun};
ghost use Rattle.serialise.specs.Opened.{IsOpened, IsOpening};

use crate::rearranged::Rearranged;
use crate::run::run_from_start;
use crate::run_end::RunEnd;
use crate::spreading::in_open_order;
use compile::CodeTable;
use core_program::CoreProgram;
use std::alloc::Global;

/// Runs a schedule, and puts it in its open order.
fn run_in_order<'p>(
    alloc: Global,
    program: &'p CoreProgram,
    code: &'p CodeTable,
    schedule: &[u32],
) -> Result<Rearranged<'p>, RunEnd>
    requires code { IsCodeOf (program_of program.now) code.now.code.items code.now.entry.items code.now.room.items }
    requires typed { IsTyped (program_of program.now) }
    requires accepted { IsAccepted (program_of program.now) }
    requires size { length schedule.now ≤ 200000 }
    ensures opened { IfOk result (λ r. IsOpened (program_of program.now) schedule.now r.order.items) }
    ensures stands { IfOk result (λ r. (q : State) → run (program_of program.now) schedule.now ≡ Some q → StandsFor r.machine q) }
    ensures program { IfOk result (λ r. r.machine.program ≡ program.now) }
    ensures refused { IfErr result (IsNoRun (program_of program.now) schedule.now) }
{
    let noted = run_from_start(alloc, program, code, schedule)?;
    let order = in_open_order(alloc, &noted.steps)?;
    Ok(Rearranged {
        order,
        machine: noted.machine,
    })
}

/// The open order of a schedule of an accepted program, as `opened` gives it, with the machine that ran the schedule.
pub fn opened_with_machine<'p>(
    alloc: Global,
    program: &'p CoreProgram,
    code: &'p CodeTable,
    schedule: &[u32],
) -> Result<Rearranged<'p>, RunEnd>
    requires code { IsCodeOf (program_of program.now) code.now.code.items code.now.entry.items code.now.room.items }
    requires typed { IsTyped (program_of program.now) }
    requires accepted { IsAccepted (program_of program.now) }
    requires size { length schedule.now ≤ 200000 }
    ensures order { IsOpening (program_of program.now) schedule.now result (λ r. r.order.items) }
    ensures stands { IfOk result (λ r. (q : State) → run (program_of program.now) schedule.now ≡ Some q → StandsFor r.machine q) }
    ensures program { IfOk result (λ r. r.machine.program ≡ program.now) }
{
    run_in_order(alloc, program, code, schedule)
}

/// The open order of a schedule of an accepted program: the schedule with each atomic call in one piece, also one that is left
/// open, and the same end. The entries of a stop are counted from 1. A schedule that stops has no open order.
pub fn opened(
    alloc: Global,
    program: &CoreProgram,
    code: &CodeTable,
    schedule: &[u32],
) -> Result<Vec<u32>, RunEnd>
    requires code { IsCodeOf (program_of program.now) code.now.code.items code.now.entry.items code.now.room.items }
    requires typed { IsTyped (program_of program.now) }
    requires accepted { IsAccepted (program_of program.now) }
    requires size { length schedule.now ≤ 200000 }
    ensures { IsOpening (program_of program.now) schedule.now result (λ r. r.items) }
{
    match opened_with_machine(alloc, program, code, schedule) {
        Ok(found) => Ok(found.order),
        Err(end) => Err(end),
    }
}
