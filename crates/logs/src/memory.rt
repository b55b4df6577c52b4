//! What is known of locks, places and threads.
ghost use Rattle.std.specs.Prelude.{◌≡◌, None, OnOk, option_map, option_copied};
ghost use Rattle.logs.specs.Judging.{put_known};
ghost use Rattle.logs.specs.Memory.{SharedCell as CellData};
ghost use Rattle.logs.specs.Views.{cell_data, content_data, known_cells};

use crate::table::Table;
use std::alloc::{AllocError as NoMemory, Global};

/// A lock, a place or a thread.
#[derive(Clone, Copy)]
pub enum Cell<'a> {
    Lock(&'a [u8]),
    Place(&'a [u8]),
    Thread(&'a [u8]),
}

/// What a cell holds.
#[derive(Drop)]
pub enum Content {
    /// A lock that nobody holds.
    Free,
    /// A lock that this thread holds, which took it so often once more.
    Held(Vec<u8>, u64),
    /// A place with this value.
    Value(Vec<u8>),
    /// A thread that isn't there yet.
    Absent,
    /// A thread that is there.
    Present,
    /// A thread that has ended.
    Ended,
}

/// What is known of cells.
#[derive(Drop)]
pub struct Cells {
    locks: Table<Content>,
    places: Table<Content>,
    threads: Table<Content>,
}

impl Cells {
    /// Nothing is known.
    pub fn new(alloc: Global) -> Cells
        ensures { (cell : CellData) → known_cells result cell ≡ None }
    {
        Cells {
            locks: Table::new(alloc),
            places: Table::new(alloc),
            threads: Table::new(alloc),
        }
    }

    /// What is known of a cell.
    pub fn get(&self, cell: Cell<'_>) -> Option<&Content>
        ensures { option_map content_data (option_copied result) ≡ known_cells self.now (cell_data cell.entry) }
    {
        match cell {
            Cell::Lock(lock) => self.locks.get(lock),
            Cell::Place(place) => self.places.get(place),
            Cell::Thread(thread) => self.threads.get(thread),
        }
    }

    /// Notes what a cell holds.
    pub fn put(&mut self, alloc: Global, cell: Cell<'_>, content: Content) -> Result<(), NoMemory>
        ensures { OnOk result (known_cells self.new ≡ put_known (cell_data cell.entry) (content_data content) (known_cells self.old)) }
    {
        match cell {
            Cell::Lock(lock) => self.locks.put(alloc, lock, content),
            Cell::Place(place) => self.places.put(alloc, place, content),
            Cell::Thread(thread) => self.threads.put(alloc, thread, content),
        }
    }
}
