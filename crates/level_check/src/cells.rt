//! Cells: the contexts that are found, without their levels.
ghost use Rattle.std.specs.Prelude.{◌≡◌, [], IfOk};
ghost use Rattle.level_check.specs.Cells.{set_of, queue_of, IsAdded};

use crate::told::Callee;
use indexmap::IndexSet;
use paths::Path;
use std::alloc::{AllocError as NoMemory, Global};

/// What may run, and those of its relevant paths that are held where it is called.
#[derive(Drop, PartialEq, Eq, Hash)]
pub(crate) struct Cell {
    pub(crate) callee: Callee,
    pub(crate) held: Vec<Path>,
}

/// The cells that were found, in order, each with a level under which it is called.
#[derive(Drop)]
pub(crate) struct Cells {
    pub(crate) known: IndexSet<Cell>,
    pub(crate) levels: Vec<u32>,
}

impl Cells {
    /// No cells.
    pub(crate) fn new(alloc: Global) -> Cells
        ensures { queue_of result ≡ record { cells = []; levels = [] } }
    {
        Cells {
            known: IndexSet::new(alloc),
            levels: Vec::new(alloc),
        }
    }

    /// The place of a cell, which is added with this level where it isn't there.
    pub(crate) fn add(&mut self, cell: Cell, level: u32) -> Result<usize, NoMemory>
        ensures { IfOk result (λ at. IsAdded (queue_of self.old) cell.callee (set_of cell) level at (queue_of self.new)) }
    {
        let (at, is_new) = self.known.insert_full(cell)?;
        if !is_new {
            return Ok(at);
        }
        self.levels.push(level)?;
        Ok(at)
    }
}
