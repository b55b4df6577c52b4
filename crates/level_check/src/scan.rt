//! The first bad `synchronized` of all contexts.
ghost use Rattle.std.specs.Prelude.{◌≡◌, None, IfOk, OnOk};
ghost use Rattle.core_program.specs.Typed.{IsTyped};
ghost use Rattle.core_program.specs.Views.{program_of};
ghost use Rattle.level_check.specs.Bodies.{told_from};
ghost use Rattle.level_check.specs.Cells.{set_of};
ghost use Rattle.level_check.specs.Bad.{firsts, bads_in, all_bads};

use crate::bad::{Bad, note_all};
use crate::cells::Cell;
use crate::judged::{Judged, seen_in};
use indexmap::IndexSet;
use std::alloc::{AllocError as NoMemory, Global};

/// Notes the bad ones of a cell's walk under this level.
fn note_cell(
    alloc: Global,
    judged: &Judged<'_>,
    cell: &Cell,
    under: u32,
    first: &mut Option<Bad>,
) -> Result<(), NoMemory>
    requires { IsTyped (program_of judged.now.program.now) }
    ensures { OnOk result (first.new ≡ firsts first.old (bads_in cell.now.callee.method (told_from judged.now cell.now.callee (set_of cell.now) under))) }
{
    let seen = seen_in(alloc, judged, cell.callee, cell.held.as_slice(), under)?;
    note_all(first, cell.callee.method, seen.as_slice());
    Ok(())
}

/// The first of the bad ones of all cells' walks, under the cells' levels.
pub(crate) fn first_bad(
    alloc: Global,
    judged: &Judged<'_>,
    cells: &IndexSet<Cell>,
    levels: &[u32],
) -> Result<Option<Bad>, NoMemory>
    requires { IsTyped (program_of judged.now.program.now) }
    ensures { IfOk result (λ first. first ≡ firsts None (all_bads (told_from judged.now) cells.now.keys levels.now)) }
{
    let mut first = None;
    for at in 0..levels.len() {
        let Some(cell) = cells.get_index(at) else {
            return Ok(first);
        };
        note_cell(alloc, judged, cell, levels[at], &mut first)?;
    }
    Ok(first)
}
