//! Putting a schedule of a program that a book was checked for in its open order.
ghost use Rattle.std.specs.Prelude.{◌≤◌, length};
ghost use Rattle.core_program.specs.Views.{program_of};
ghost use Rattle.compile.specs.IsCode.{IsCodeOf};
ghost use Rattle.serialise.specs.Opened.{IsOpening};

use book_check::Checked;
use compile::CodeTable;
use serialise::{RunEnd, opened};
use std::alloc::Global;

/// The open order of a schedule of a checked program, as `opened` gives it.
pub fn serialise_open(
    alloc: Global,
    checked: &Checked,
    code: &CodeTable,
    schedule: &[u32],
) -> Result<Vec<u32>, RunEnd>
    requires code { IsCodeOf (program_of checked.now.0) code.now.code.items code.now.entry.items code.now.room.items }
    requires size { length schedule.now ≤ 200000 }
    ensures { IsOpening (program_of checked.now.0) schedule.now result (λ r. r.items) }
{
    opened(alloc, checked.program(), code, schedule)
}
