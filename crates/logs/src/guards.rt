//! What is said to guard places.
ghost use Rattle.std.specs.Prelude.{◌≡◌, ℕ, if◌then◌else◌, unwrap_or, option_map, option_copied};
ghost use Rattle.logs.specs.Logs.{holds_in_log, guarded_access_kind, Unguarded};
ghost use Rattle.logs.specs.Memory.{Lock};
ghost use Rattle.logs.specs.Views.{known_cells, content_data, guards_data};
ghost use Rattle.logs.specs.Noting.{locks_in};
ghost use Rattle.logs.specs.Numbers.{number_of_word};

use crate::memory::{Cell, Cells, Content};
use crate::same::is_same;
use crate::table::Table;
use state::StepKind;
use std::alloc::Global;

/// What is said to guard a place.
#[derive(Drop)]
pub enum Guard {
    /// This lock.
    ByLock(Vec<u8>),
    /// Only this thread uses it.
    ByThread(Vec<u8>),
    /// Nothing.
    Free,
}

/// The guards of places. Nothing guards a place that has none.
#[derive(Drop)]
pub struct Guards {
    pub places: Table<Guard>,
}

impl Guards {
    /// Nothing guards any place.
    pub fn new(alloc: Global) -> Guards
        ensures { (p : ℕ) → guards_data result p ≡ Unguarded }
    {
        Guards {
            places: Table::new(alloc),
        }
    }
}

/// Whether a lock of which this is known is held by a thread.
fn is_held(content: Option<&Content>, thread: &[u8]) -> bool
    ensures { result ≡ holds_in_log (number_of_word thread.now) (unwrap_or (option_map content_data (option_copied content.entry)) (Lock None)) }
{
    match content {
        Some(content) => match content {
            Content::Held(by, _) => is_same(by.as_slice(), thread),
            _ => false,
        },
        None => false,
    }
}

/// The kind of an access by a thread that does as the guard asks, or doesn't.
fn guarded(is_guarded: bool) -> StepKind
    ensures { result ≡ (if is_guarded then StepKind.Both else StepKind.Bare) }
{
    if is_guarded {
        StepKind::Both
    } else {
        StepKind::Bare
    }
}

/// The kind of a thread's access to a place.
pub fn access_kind(guards: &Guards, cells: &Cells, place: &[u8], thread: &[u8]) -> StepKind
    ensures { result ≡ guarded_access_kind (guards_data guards.now (number_of_word place.now)) (locks_in (known_cells cells.now)) (number_of_word thread.now) }
{
    match guards.places.get(place) {
        Some(guard) => match guard {
            Guard::ByLock(lock) => guarded(is_held(cells.get(Cell::Lock(lock.as_slice())), thread)),
            Guard::ByThread(user) => guarded(is_same(user.as_slice(), thread)),
            Guard::Free => StepKind::Other,
        },
        None => StepKind::Other,
    }
}
