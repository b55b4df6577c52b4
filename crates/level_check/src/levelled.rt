//! The greatest levels of cells.
ghost use Rattle.std.specs.Prelude.{IfOk};
ghost use Rattle.level_check.specs.Greatest.{AreGreatest};

use crate::link::CellLinks;
use crate::rising::{Cells, settle};
use std::alloc::{AllocError as NoMemory, Global};

/// The greatest level of each cell, from those that they start with. Links to cells that aren't there ask nothing.
///
/// The links of a cell are followed once, and again only where its level rose. So a link is followed at most once for each of the
/// levels that links have.
pub fn greatest(alloc: Global, start: Vec<u32>, rows: Vec<CellLinks>) -> Result<Vec<u32>, NoMemory>
    ensures { IfOk result (λ levels. AreGreatest rows.items start.items levels.items) }
{
    let mut cells = Cells {
        levels: start,
        rows,
        room: u64::MAX,
    };
    settle(alloc, &mut cells)?;
    Ok(cells.levels)
}
