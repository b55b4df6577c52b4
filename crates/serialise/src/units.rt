//! The units of a run, found from its last step to its first.
ghost use Rattle.std.specs.Prelude.{◌≡◌, ◌≤◌, ℕ, [], length, OnOk, IfOk};
ghost use Rattle.semantics.specs.Units.{is_commit};
ghost use Rattle.serialise.specs.Entries.{noted_entry, entries_of};
ghost use Rattle.serialise.specs.UnitMaps.{unit_for, with_entry, unit_maps, maps_of};

use crate::step::Step;
use crate::tables::{put, value_at};
use state::StepKind;
use std::alloc::{AllocError as NoMemory, Global};

/// The units of the steps from some place on. A unit is known by its commit place.
#[derive(Drop)]
pub struct UnitTables {
    /// By commit place, how many steps the unit has.
    sizes: Vec<u32>,
    /// By thread, the commit place of its first unit.
    firsts: Vec<Option<u32>>,
}

/// Whether a unit commits at a step of this kind, unless it did before: Left or Other.
fn is_commit(kind: StepKind) -> bool
    ensures { result ≡ is_commit kind }
{
    matches!(kind, StepKind::Left | StepKind::Other)
}

impl UnitTables {
    /// The tables of no steps.
    fn new(alloc: Global) -> UnitTables
        ensures { maps_of result ≡ unit_maps [] }
    {
        UnitTables {
            sizes: Vec::new(alloc),
            firsts: Vec::new(alloc),
        }
    }

    /// The unit that a step joins, or a new one at its place.
    fn unit_for(&self, place: u32, step: Step) -> u32
        ensures { result ≡ unit_for step.inside ((maps_of self.now).firsts step.thread) place }
    {
        match value_at(&self.firsts, None, step.thread) {
            Some(unit) if step.inside => unit,
            _ => place,
        }
    }

    /// Adds the step at a place, before all others.
    fn note(&mut self, place: u32, step: Step) -> Result<(), NoMemory>
        requires { (commit : ℕ) → (maps_of self.old).sizes commit ≤ 200000 }
        ensures { OnOk result (maps_of self.new ≡ with_entry (noted_entry place step) (maps_of self.old)) }
    {
        let unit = self.unit_for(place, step);
        let commit = if is_commit(step.kind) { place } else { unit };
        let size = value_at(&self.sizes, 0, unit);
        put(&mut self.sizes, 0, unit, 0)?;
        put(&mut self.sizes, 0, commit, size + 1)?;
        put(&mut self.firsts, None, step.thread, Some(commit))
    }

    /// How many steps the unit has that commits at a place.
    pub fn size_of(&self, place: u32) -> u32
        ensures { result ≡ (maps_of self.now).sizes place }
    {
        value_at(&self.sizes, 0, place)
    }
}

/// The units of a run's steps.
pub fn unit_tables(alloc: Global, steps: &[Step]) -> Result<UnitTables, NoMemory>
    requires { length steps.now ≤ 200000 }
    ensures { IfOk result (λ t. maps_of t ≡ unit_maps (entries_of 0 steps.now)) }
{
    let mut tables = UnitTables::new(alloc);
    let mut place = steps.len();
    while place > 0 {
        place -= 1;
        tables.note(place as u32, steps[place])?;
    }
    Ok(tables)
}
