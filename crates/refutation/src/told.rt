//! What is known of the methods that override others, from one look at them to the next.
ghost use Rattle.std.specs.Prelude.{◌≡◌, ◌++◌, ℕ, List, true, false, length, Some, slice_get, IfOk, IfSome};
ghost use Rattle.std.specs.List.{list_all};
ghost use Rattle.paths.specs.Paths.{PathData};
ghost use Rattle.algebra.specs.HeldPaths.{has_path};
ghost use Rattle.rules.specs.Effect.{Assignment};
ghost use Rattle.rules.specs.Near.{rel_of};
ghost use Rattle.rules.specs.Search.{row_at};
ghost use Rattle.refutation.specs.Overs.{AreOversTold, TellsRow};

use crate::floors::{Floors, Table, place_of};
use crate::waits::Waits;
use effects::has_all;
use paths::{MethodId, Path};
use rules::OverridingMethods;
use std::alloc::{AllocError as NoMemory, Global};

/// The most methods that are passed over while tables are made ahead. Then no more are made: it takes longer without them.
const MOST_AHEAD: usize = 1 << 28;

/// A table of what is said of the methods that override one, for each method. Of those that wait it isn't known. So many methods may still
/// be passed over while tables are made ahead.
#[derive(Drop)]
pub(crate) struct OverTables {
    pub(crate) tables: Vec<Table>,
    pub(crate) unknown: Waits,
    pub(crate) left: usize,
}

/// What is said of each method, and what is known of those that override it.
#[derive(Clone, Copy)]
pub(crate) struct Sight<'a> {
    pub(crate) floors: &'a Floors<'a>,
    pub(crate) over: &'a OverridingMethods,
    pub(crate) known: &'a OverTables,
}

impl OverTables {
    /// What is known of so many methods at first: nothing.
    pub(crate) fn none(alloc: Global, count: usize) -> Result<OverTables, NoMemory>
        ensures size { IfOk result (λ known. length known.unknown ≡ count) }
        ensures none { IfOk result (λ known. (m : ℕ) → slice_get known.unknown m ≡ Some false → ⊥) }
    {
        let unknown = Waits::all(alloc, count)?;
        let mut tables = Vec::with_capacity(alloc, count)?;
        for _ in 0..count {
            tables.push(Table {
                basics: Vec::new(alloc),
            })?;
        }
        Ok(OverTables {
            tables,
            unknown,
            left: MOST_AHEAD,
        })
    }

    /// Whether what is said of the methods that override one is known.
    pub(crate) fn is_known(&self, method: MethodId) -> bool
        ensures { result ≡ true → slice_get self.now.unknown method ≡ Some false }
    {
        self.unknown.is_asleep(place_of(method))
    }

    /// Keeps the table of a method, where there is a place for it.
    pub(crate) fn keep(&mut self, method: MethodId, table: Table)
        ensures size { length self.new.unknown ≡ length self.old.unknown }
        ensures kept { (rows : List (List ℕ)) (rel : ℕ → List PathData) (A : Assignment) →
            AreOversTold rows rel A self.old.tables.items self.old.unknown → TellsRow rel A method (row_at rows method) table →
            AreOversTold rows rel A self.new.tables.items self.new.unknown }
    {
        let place = place_of(method);
        if place >= self.tables.len() {
            return;
        }
        if !self.unknown.has_place(place) {
            return;
        }
        self.tables[place] = table;
        self.unknown.sleep(place);
    }
}

/// What stands behind these methods in a list that begins with them.
pub(crate) fn after<'a>(methods: &'a [MethodId], front: &[MethodId]) -> Option<&'a [MethodId]>
    ensures { IfSome result (λ left. methods.now ≡ front.now ++ left.now) }
{
    let mut left = methods;
    for method in front {
        let Some((first, others)) = left.split_first() else {
            return None;
        };
        if *first != *method {
            return None;
        }
        left = others;
    }
    Some(left)
}

/// What stands behind the methods that override one, where these stand in front, and what is said of them all is known at each part of
/// these paths.
pub(crate) fn behind_known<'a>(
    sight: &Sight<'_>,
    rel: &[Path],
    method: MethodId,
    behind: &'a [MethodId],
) -> Option<&'a [MethodId]>
    ensures front { IfSome result (λ left. behind.now ≡ row_at sight.now.over.now method ++ left.now) }
    ensures known { IfSome result (λ left. slice_get sight.now.known.now.unknown method ≡ Some false) }
    ensures inside { IfSome result (λ left. list_all (has_path (rel_of sight.now.floors.now.sets.now method)) rel.now ≡ true) }
{
    if !sight.known.is_known(method) {
        return None;
    }
    if !has_all(sight.floors.sets.rel(method), rel) {
        return None;
    }
    after(behind, sight.over.of(method))
}
