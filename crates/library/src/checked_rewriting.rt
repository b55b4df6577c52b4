//! Rewriting a schedule of a program that a book was checked for.
ghost use Rattle.std.specs.Prelude.{◌≤◌, length};
ghost use Rattle.core_program.specs.Views.{program_of};
ghost use Rattle.compile.specs.IsCode.{IsCodeOf};
ghost use Rattle.serialise.specs.Rewritten.{IsRewriting};

use book_check::Checked;
use compile::CodeTable;
use serialise::{SerialEnd, rewritten};
use std::alloc::Global;

/// The written order of a schedule of a checked program, as `rewritten` gives it.
pub fn serialise(
    alloc: Global,
    checked: &Checked,
    code: &CodeTable,
    schedule: &[u32],
) -> Result<Vec<u32>, SerialEnd>
    requires code { IsCodeOf (program_of checked.now.0) code.now.code.items code.now.entry.items code.now.room.items }
    requires size { length schedule.now ≤ 200000 }
    ensures { IsRewriting (program_of checked.now.0) schedule.now result (λ r. r.items) }
{
    rewritten(alloc, checked.program(), code, schedule)
}
