//! Levels as the numbers of a least fixpoint.
ghost use Rattle.std.specs.Prelude.{◌≡◌, ℕ, length, Some, slice_get, OnOk};
ghost use Rattle.level_check.specs.Greatest.{links_at, ReachedUnder, AreGreatest};
ghost use Rattle.level_check.specs.Rises.{marks_of, are_links_met, leads_to};

use crate::link::CellLinks;
use crate::raise::raise_links;
use crate::spread::{from_greatest, raise_each, raise_in_order};
use fixpoint::{Rising, least};
use std::alloc::{AllocError as NoMemory, Global};

/// Cells with their levels and links. It gives up when its rises are spent.
#[derive(Drop)]
pub(crate) struct Cells {
    pub(crate) levels: Vec<u32>,
    pub(crate) rows: Vec<CellLinks>,
    pub(crate) room: u64,
}

impl Rising for Cells {
    ghost marks = { λ s. marks_of s.levels.items };

    ghost met = { λ s. are_links_met s.rows.items };

    ghost left = { λ s. s.room };

    ghost looks = { λ s reader cell. leads_to (links_at s.rows.items cell) reader };

    ghost keeps = { λ earlier s. (s.rows.items ≡ earlier.rows.items) × (length s.levels.items ≡ length earlier.levels.items)
        × ((c u : ℕ) → slice_get s.levels.items c ≡ Some u → ReachedUnder earlier.rows.items earlier.levels.items c u) };

    fn cells(&self) -> usize {
        self.levels.len()
    }

    fn room(&self) -> u64 {
        self.room
    }

    fn readers(&self, cell: usize) -> Option<&[usize]> {
        let row = self.rows.get(cell)?;
        Some(row.targets.as_slice())
    }

    fn raise(&mut self, _alloc: Global, cell: usize) -> Result<bool, NoMemory> {
        let Some(row) = self.rows.get(cell) else {
            return Ok(false);
        };
        if self.room == 0 {
            return Err(NoMemory);
        }
        if !raise_links(self.levels.as_mut_slice(), cell, row.links.as_slice()) {
            return Ok(false);
        }
        self.room -= 1;
        Ok(true)
    }
}

/// Raises levels until no link asks for more. First each link is followed once, and then from the greatest level down, where levels
/// seldom rise again.
pub(crate) fn settle(alloc: Global, cells: &mut Cells) -> Result<(), NoMemory>
    ensures { OnOk result (AreGreatest cells.old.rows.items cells.old.levels.items cells.new.levels.items) }
{
    raise_each(alloc, cells)?;
    let order = from_greatest(alloc, cells.levels.as_slice())?;
    raise_in_order(alloc, cells, order.as_slice())?;
    least(alloc, cells)
}
