//! Rewriting a schedule.
ghost use Rattle.std.specs.Prelude.{◌≡◌, ◌≤◌, length, Some, IfOk, IfErr};
ghost use Rattle.core_program.specs.Views.{program_of};
ghost use Rattle.core_program.specs.Typed.{IsTyped};
ghost use Rattle.rules.specs.Rules.{IsAccepted};
ghost use Rattle.state.specs.States.{State};
ghost use Rattle.compile.specs.IsCode.{IsCodeOf};
ghost use Rattle.semantics.specs.Run.{run};
ghost use Rattle.machine.specs.Standing.{StandsFor};
ghost use Rattle.serialise.specs.Rewritten.{IsRewritten, IsRewriting, IsRefused};

use crate::order::in_order;
use crate::rearranged::Rearranged;
use crate::run::run_from_start;
use crate::serial_end::SerialEnd;
use compile::CodeTable;
use core_program::CoreProgram;
use std::alloc::Global;

/// Runs a schedule, and puts it in its written order.
fn rewrite<'p>(
    alloc: Global,
    program: &'p CoreProgram,
    code: &'p CodeTable,
    schedule: &[u32],
) -> Result<Rearranged<'p>, SerialEnd>
    requires code { IsCodeOf (program_of program.now) code.now.code.items code.now.entry.items code.now.room.items }
    requires typed { IsTyped (program_of program.now) }
    requires accepted { IsAccepted (program_of program.now) }
    requires size { length schedule.now ≤ 200000 }
    ensures rewritten { IfOk result (λ r. IsRewritten (program_of program.now) schedule.now r.order.items) }
    ensures stands { IfOk result (λ r. (q : State) → run (program_of program.now) schedule.now ≡ Some q → StandsFor r.machine q) }
    ensures program { IfOk result (λ r. r.machine.program ≡ program.now) }
    ensures refused { IfErr result (IsRefused (program_of program.now) schedule.now) }
{
    let noted = run_from_start(alloc, program, code, schedule)?;
    match noted.machine.open_thread() {
        Some(thread) => Err(SerialEnd::Open { thread }),
        None => {
            let order = in_order(alloc, &noted.steps)?;
            Ok(Rearranged {
                order,
                machine: noted.machine,
            })
        }
    }
}

/// The written order of a schedule of an accepted program, as `rewritten` gives it, with the machine that ran the schedule.
pub fn rewritten_with_machine<'p>(
    alloc: Global,
    program: &'p CoreProgram,
    code: &'p CodeTable,
    schedule: &[u32],
) -> Result<Rearranged<'p>, SerialEnd>
    requires code { IsCodeOf (program_of program.now) code.now.code.items code.now.entry.items code.now.room.items }
    requires typed { IsTyped (program_of program.now) }
    requires accepted { IsAccepted (program_of program.now) }
    requires size { length schedule.now ≤ 200000 }
    ensures order { IsRewriting (program_of program.now) schedule.now result (λ r. r.order.items) }
    ensures stands { IfOk result (λ r. (q : State) → run (program_of program.now) schedule.now ≡ Some q → StandsFor r.machine q) }
    ensures program { IfOk result (λ r. r.machine.program ≡ program.now) }
{
    rewrite(alloc, program, code, schedule)
}

/// The written order of a schedule of an accepted program: the schedule with each atomic call in one piece, and the same end.
/// The entries of a stop are counted from 1. A schedule that stops, or that ends with a thread inside an atomic call, isn't
/// rewritten.
pub fn rewritten(
    alloc: Global,
    program: &CoreProgram,
    code: &CodeTable,
    schedule: &[u32],
) -> Result<Vec<u32>, SerialEnd>
    requires code { IsCodeOf (program_of program.now) code.now.code.items code.now.entry.items code.now.room.items }
    requires typed { IsTyped (program_of program.now) }
    requires accepted { IsAccepted (program_of program.now) }
    requires size { length schedule.now ≤ 200000 }
    ensures { IsRewriting (program_of program.now) schedule.now result (λ r. r.items) }
{
    match rewritten_with_machine(alloc, program, code, schedule) {
        Ok(found) => Ok(found.order),
        Err(end) => Err(end),
    }
}
