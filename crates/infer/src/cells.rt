//! The tables of all methods as cells of a least fixpoint: what the calls of a method demand of its table.
ghost use Rattle.std.specs.Prelude.{◌≡◌, ◌<◌, ◌++◌, map, Some, IfOk, OnOk, slice_get};
ghost use Rattle.algebra.specs.HeldPaths.{Held, has_path};
ghost use Rattle.algebra.specs.Values.{Keeps};
ghost use Rattle.core_program.specs.Views.{program_of, method_of};
ghost use Rattle.rules.specs.Near.{AreRelevant, rel_of};
ghost use Rattle.rules.specs.Rules.{IsSubset, held_in};
ghost use Rattle.rules.specs.Search.{row_at as overs_at};
ghost use Rattle.fixpoint.specs.Assignments.{AreAllMet, IsBetween};
ghost use Rattle.infer.specs.Bodies.{program_at, rel_at, known_paths, assigned_at};
ghost use Rattle.rules.specs.Called.{counts_as_caller};
ghost use Rattle.infer.specs.Tables.{table_assignment};
ghost use Rattle.infer.specs.Names.{known_name};
ghost use Rattle.infer.specs.Cells.{AreCells, table_numbers, greatest_of, inferred_effect, demands_of, demands_at, is_met};

use crate::judged::Judged;
use crate::rows::{are_below, joined, put_parts};
use crate::table::{Table, pick, table_at};
use crate::walk::{Walk, stmt_value};
use algebra::{Algebra, Basic, has};
use core_program::CoreMethod;
use fixpoint::{Rising, least};
use paths::{MethodId, Path};
use rules::{Callers, NearestMethods};
use std::alloc::{AllocError as NoMemory, Global};

/// What the calls of a method demand of its table.
fn demands<G: Algebra>(
    alloc: Global,
    judged: &Judged<'_>,
    over: &NearestMethods,
    tables: &[Table],
    algebra: &mut G,
    method: MethodId,
) -> Result<Vec<Basic>, NoMemory>
    ensures row { IfOk result (λ row.
        let rel = rel_of judged.now.1 in row.items ≡ demands_at (program_of judged.now.0) (overs_at over.now) rel (table_assignment rel tables.now) method) }
    ensures keeps { Keeps G.IsKnown G.value algebra.old algebra.new }
{
    let walk = Walk {
        program: judged.program,
        sets: judged.sets,
        tables,
        method,
    };
    walk_demands(alloc, &walk, over, algebra)
}

/// What the calls of the walk's method demand of its table.
fn walk_demands<G: Algebra>(
    alloc: Global,
    walk: &Walk<'_>,
    over: &NearestMethods,
    algebra: &mut G,
) -> Result<Vec<Basic>, NoMemory>
    requires { AreRelevant (program_at walk.now) walk.now.sets.now }
    ensures row { IfOk result (λ row. row.items ≡ demands_at (program_at walk.now) (overs_at over.now) (rel_at walk.now) (assigned_at walk.now) walk.now.method) }
    ensures keeps { Keeps G.IsKnown G.value algebra.old algebra.new }
{
    match walk.program.methods().get(walk.method.0 as usize) {
        Some(method) => method_demands(alloc, walk, over, algebra, method),
        None => Ok(Vec::new(alloc)),
    }
}

/// What the calls of the walk's method, which is this one, demand.
fn method_demands<G: Algebra>(
    alloc: Global,
    walk: &Walk<'_>,
    over: &NearestMethods,
    algebra: &mut G,
    method: &CoreMethod,
) -> Result<Vec<Basic>, NoMemory>
    requires relevant { AreRelevant (program_at walk.now) walk.now.sets.now }
    requires is { slice_get (program_at walk.now).methods walk.now.method ≡ Some (method_of method.now) }
    ensures row { IfOk result (λ row. row.items ≡
        demands_of (program_at walk.now) (overs_at over.now) (rel_at walk.now) (assigned_at walk.now) walk.now.method (Some (method_of method.now))) }
    ensures keeps { Keeps G.IsKnown G.value algebra.old algebra.new }
{
    let value = run_value(alloc, walk, over.of(walk.method), algebra, method)?;
    let mut held = copied(alloc, method.requires_.as_slice())?;
    let mut row = Vec::new(alloc);
    put_parts(
        algebra,
        &value,
        &mut held,
        walk.sets.rel(walk.method),
        &mut row,
    )?;
    Ok(row)
}

/// What a call of the walk's method, which is this one, may come to: its body, or one of these methods, which override
/// it. It is said of sets of paths that the method requires or that are relevant to it.
fn run_value<G: Algebra>(
    alloc: Global,
    walk: &Walk<'_>,
    overs: &[MethodId],
    algebra: &mut G,
    method: &CoreMethod,
) -> Result<G::A, NoMemory>
    requires relevant { AreRelevant (program_at walk.now) walk.now.sets.now }
    requires is { slice_get (program_at walk.now).methods walk.now.method ≡ Some (method_of method.now) }
    ensures known { IfOk result (λ r. G.IsKnown algebra.new r) }
    ensures value { IfOk result (λ r. (H : Held) → IsSubset H (has_path (known_paths walk.now (method_of method.now).requires_)) →
        G.value algebra.new r H ≡ inferred_effect (program_at walk.now) (rel_at walk.now) (assigned_at walk.now) overs.now (method_of method.now) H) }
    ensures keeps { Keeps G.IsKnown G.value algebra.old algebra.new }
{
    let body = stmt_value(alloc, walk, algebra, &method.body)?;
    with_tables(
        alloc,
        walk,
        algebra,
        method.requires_.as_slice(),
        overs,
        body,
    )
}

/// The value, or one of the tables of these methods at the paths that are known where these are required: the greatest
/// at each set.
fn with_tables<G: Algebra>(
    alloc: Global,
    walk: &Walk<'_>,
    algebra: &mut G,
    required: &[Path],
    methods: &[MethodId],
    value: G::A,
) -> Result<G::A, NoMemory>
    requires { G.IsKnown algebra.old value }
    ensures known { IfOk result (λ r. G.IsKnown algebra.new r) }
    ensures value { IfOk result (λ r. (H : Held) →
        G.value algebra.new r H ≡ greatest_of (rel_at walk.now) (assigned_at walk.now) (G.value algebra.old value H) methods.now (held_in (known_paths walk.now required.now) H)) }
    ensures keeps { Keeps G.IsKnown G.value algebra.old algebra.new }
{
    let mut greatest = value;
    for method in methods {
        let own = value_here(alloc, walk, algebra, required, *method)?;
        greatest = algebra.join(alloc, &greatest, &own)?;
    }
    Ok(greatest)
}

/// The value of the table of a method, for which no other paths are held than those that are known to the walk's method
/// where these are required.
fn value_here<G: Algebra>(
    alloc: Global,
    walk: &Walk<'_>,
    algebra: &mut G,
    required: &[Path],
    method: MethodId,
) -> Result<G::A, NoMemory>
    ensures known { IfOk result (λ r. G.IsKnown algebra.new r) }
    ensures value { IfOk result (λ r. (H : Held) →
        G.value algebra.new r H ≡ assigned_at walk.now method (held_in (known_paths walk.now required.now) H)) }
    ensures keeps { Keeps G.IsKnown G.value algebra.old algebra.new }
{
    let relevant = walk.sets.rel(walk.method);
    let names = names_here(alloc, walk.sets.rel(method), required, relevant)?;
    pick(
        alloc,
        algebra,
        names.as_slice(),
        table_at(walk.tables, method),
    )
}

/// Each of these paths with its own name where it is known, as one that is required or relevant; else with none.
fn names_here(
    alloc: Global,
    paths: &[Path],
    required: &[Path],
    relevant: &[Path],
) -> Result<Vec<(Path, Option<Path>)>, NoMemory>
    ensures { IfOk result (λ names. names.items ≡ map (λ q. (q, known_name (required.now ++ relevant.now) q)) paths.now) }
{
    let mut names = Vec::new(alloc);
    for path in paths {
        names.push((path.copy(), known_name(path, required, relevant)))?;
    }
    Ok(names)
}

/// The path itself where it is required or relevant; none where it is neither.
fn known_name(path: &Path, required: &[Path], relevant: &[Path]) -> Option<Path>
    ensures { result ≡ known_name (required.now ++ relevant.now) path.now }
{
    if has(required, path) || has(relevant, path) {
        Some(path.copy())
    } else {
        None
    }
}

/// Copies of paths.
fn copied(alloc: Global, paths: &[Path]) -> Result<Vec<Path>, NoMemory>
    ensures { IfOk result (λ copies. copies.items ≡ paths.now) }
{
    let mut copies = Vec::new(alloc);
    for path in paths {
        copies.push(path.copy())?;
    }
    Ok(copies)
}

/// The tables of a program's methods. They fall, and there is room for all their rises.
#[derive(Drop)]
pub(crate) struct Cells<'a, 'b, G: Algebra> {
    pub(crate) judged: Judged<'a>,
    pub(crate) algebra: &'b mut G,
    pub(crate) tables: Vec<Table>,
    pub(crate) room: u64,
    pub(crate) over: NearestMethods,
    pub(crate) callers: Vec<Callers>,
    ghost sound: { AreCells (program_of judged.0) (overs_at over) (rel_of judged.1) tables.items room callers.items },
}

impl<'a, 'b, G: Algebra> Rising for Cells<'a, 'b, G> {
    ghost marks = { λ s. table_numbers s.tables.items };

    ghost met = { λ s. is_met (program_of s.judged.0) (overs_at s.over) (rel_of s.judged.1) };

    ghost left = { λ s. s.room };

    ghost looks = { λ s. counts_as_caller (program_of s.judged.0) (overs_at s.over) };

    ghost keeps = { λ earlier s. (s.algebra.ghost_name ≡ earlier.algebra.ghost_name) × Keeps G.IsKnown G.value earlier.algebra.now s.algebra.now };

    fn cells(&self) -> usize {
        self.tables.len()
    }

    fn room(&self) -> u64 {
        self.room
    }

    fn readers(&self, cell: usize) -> Option<&[usize]> {
        let row = self.callers.get(cell)?;
        Some(row.callers())
    }

    fn raise(&mut self, alloc: Global, cell: usize) -> Result<bool, NoMemory> {
        let method = MethodId(cell as u32);
        let tables = self.tables.as_slice();
        let demands = demands(
            alloc,
            &self.judged,
            &self.over,
            tables,
            self.algebra,
            method,
        )?;
        let own = table_at(tables, method);
        let row = demands.as_slice();
        if are_below(row, own) {
            return Ok(false);
        }
        let risen = joined(alloc, row, own)?;
        self.tables[cell] = Table { basics: risen };
        self.room -= 1;
        Ok(true)
    }
}

/// Raises the tables until the demand of each method is met. The algebra keeps what it knew, also where memory is wanting.
pub(crate) fn settle<'a, 'b, G: Algebra>(
    alloc: Global,
    cells: &mut Cells<'a, 'b, G>,
) -> Result<(), NoMemory>
    ensures closed { OnOk result (AreAllMet (is_met (program_of cells.old.judged.0) (overs_at cells.old.over) (rel_of cells.old.judged.1)) (table_numbers cells.new.tables.items)) }
    ensures between { IsBetween (is_met (program_of cells.old.judged.0) (overs_at cells.old.over) (rel_of cells.old.judged.1))
        (table_numbers cells.old.tables.items) (table_numbers cells.new.tables.items) }
    ensures same_reference { cells.new.algebra.ghost_name ≡ cells.old.algebra.ghost_name }
    ensures keeps { Keeps G.IsKnown G.value cells.old.algebra.now cells.new.algebra.now }
{
    least(alloc, cells)
}
