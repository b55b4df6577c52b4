//! What the lines so far say of each method.
ghost use Rattle.std.specs.Prelude.{◌≡◌, ◌∷◌, ◌++◌, ◌<◌, ℕ, List, [], true, length, map, IfOk};
ghost use Rattle.algebra.specs.HeldPaths.{has_path};
ghost use Rattle.rules.specs.Near.{rel_of};
ghost use Rattle.rules.specs.Search.{row_at};
ghost use Rattle.refutation.specs.Lines.{LineData};
ghost use Rattle.refutation.specs.Tables.{IsRaised, TablesSay, consts, table_entry, raised_at_marks, raised_at_subsets};

use algebra::{Basic, front, half, has};
use arrayvec::ArrayVec;
use effects::Assigned;
use paths::{MethodId, Path};
use rules::RelevantSets;
use std::alloc::{AllocError as NoMemory, Global};
use std::marker::Model;

/// The greatest of what lines say of one method, at each part of its relevant paths. Those with the first path are the second half,
/// and so on in each half.
#[derive(Drop)]
pub(crate) struct Table {
    pub(crate) basics: Vec<Basic>,
}

impl Model for Table {
    ghost use Rattle.std.specs.Prelude.{List};
    ghost use Rattle.algebra.specs.declared.basic.Basic.{Basic};

    ghost Value = { List Basic };

    ghost view = { λ t. t.basics.items };
}

/// What the lines so far say of each method. To ask takes a step for each relevant path of the method, however many lines there are.
#[derive(Drop)]
pub struct Floors<'a> {
    pub(crate) sets: &'a RelevantSets,
    pub(crate) tables: Vec<Table>,
}

impl Assigned for Floors<'_> {
    ghost use Rattle.rules.specs.Near.{rel_of};
    ghost use Rattle.refutation.specs.Tables.{said_by};

    ghost assigned = { λ s. said_by (rel_of s.sets.now) s.tables.items };

    fn at(&self, method: MethodId, held: &[Path]) -> Basic {
        entry(
            self.sets.rel(method),
            table_at(self.tables.as_slice(), method),
            held,
        )
    }
}

/// Whether each of some paths is held.
type Marks = ArrayVec<bool, 16>;

/// The table of a method; empty where there is no such method.
pub(crate) fn table_at(tables: &[Table], method: MethodId) -> &[Basic]
    ensures { result.now ≡ row_at tables.now method }
{
    match tables.get(method.0 as usize) {
        Some(table) => table.basics.as_slice(),
        None => &[],
    }
}

/// The entry of a table where these paths are held.
pub(crate) fn entry(rel: &[Path], table: &[Basic], held: &[Path]) -> Basic
    ensures { result ≡ table_entry rel.now table.now (has_path held.now) }
{
    match rel.split_first() {
        Some((path, rest)) => entry(rest, half(table, has(held, path)), held),
        None => front(table),
    }
}

/// The table with const at each part of these paths.
pub(crate) fn consts(alloc: Global, rel: &[Path]) -> Result<Vec<Basic>, NoMemory>
    ensures { IfOk result (λ table. table.items ≡ consts rel.now) }
{
    let Some((_, rest)) = rel.split_first() else {
        let mut table = Vec::new(alloc);
        table.push(Basic::Const)?;
        return Ok(table);
    };
    let mut table = consts(alloc, rest)?;
    table.extend_from_within(0..)?;
    Ok(table)
}

/// Adds whether a path is held, if there is room for it.
fn marked(marks: &mut Marks, is_held: bool) -> bool
    ensures { result ≡ true → marks.new.items ≡ marks.old.items ++ is_held ∷ [] }
{
    marks.try_push(is_held).is_ok()
}

/// Adds which of these paths are held, if there is room for it.
fn mark(rel: &[Path], held: &[Path], marks: &mut Marks) -> bool
    ensures { result ≡ true → marks.new.items ≡ marks.old.items ++ map (has_path held.now) rel.now }
{
    let Some((path, rest)) = rel.split_first() else {
        return true;
    };
    marked(marks, has(held, path)) && mark(rest, held, marks)
}

/// Joins a basic with the first of a table, and with those that stand in second halves at marked places alone.
fn raise_marked(marks: &[bool], found: Basic, table: &mut [Basic])
    ensures { table.new ≡ raised_at_marks marks.now found table.old }
{
    let Some((is_held, rest)) = marks.split_first() else {
        if let Some(first) = table.first_mut() {
            *first = first.join(found);
        }
        return;
    };
    let middle = table.len() / 2;
    let (without, with) = table.split_at_mut(middle);
    raise_marked(rest, found, without);
    if *is_held {
        raise_marked(rest, found, with);
    }
}

/// The same for paths that are too many to be marked.
fn raise_many(rel: &[Path], held: &[Path], found: Basic, table: &mut [Basic])
    ensures { table.new ≡ raised_at_subsets rel.now held.now found table.old }
{
    let Some((path, rest)) = rel.split_first() else {
        if let Some(first) = table.first_mut() {
            *first = first.join(found);
        }
        return;
    };
    let middle = table.len() / 2;
    let (without, with) = table.split_at_mut(middle);
    raise_many(rest, held, found, without);
    if has(held, path) {
        raise_many(rest, held, found, with);
    }
}

/// Joins a basic at each part of these held paths. Which are held is looked up once.
fn raise(rel: &[Path], held: &[Path], found: Basic, table: &mut [Basic])
    ensures { table.new ≡ raised_at_subsets rel.now held.now found table.old }
{
    let mut marks = ArrayVec::new();
    if !mark(rel, held, &mut marks) {
        raise_many(rel, held, found, table);
        return;
    }
    raise_marked(marks.as_slice(), found, table);
}

/// The method at a place. There is no memory for more methods than numbers.
pub(crate) fn method_at(place: usize) -> Result<MethodId, NoMemory>
    ensures { IfOk result (λ method. method ≡ place) }
{
    match u32::try_from(place) {
        Ok(number) => Ok(MethodId(number)),
        Err(_) => Err(NoMemory),
    }
}

/// The tables of so many methods of which nothing is said.
fn const_tables(alloc: Global, sets: &RelevantSets, count: usize) -> Result<Vec<Table>, NoMemory>
    ensures size { IfOk result (λ tables. length tables.items ≡ count) }
    ensures none { IfOk result (λ tables. (m : ℕ) → m < length tables.items → row_at tables.items m ≡ consts (rel_of sets.now m)) }
{
    let mut tables = Vec::new(alloc);
    for place in 0..count {
        let basics = consts(alloc, sets.rel(method_at(place)?))?;
        tables.push(Table { basics })?;
    }
    Ok(tables)
}

/// The place of a method.
pub(crate) fn place_of(method: MethodId) -> usize
    ensures { result ≡ method }
{
    // Only the proof needs a function for this: its clause tells what the number of an id is.
    method.0 as usize
}

/// Raises the table of a method, which has one, where these paths are held.
fn raise_table(rel: &[Path], tables: &mut [Table], method: MethodId, held: &[Path], found: Basic)
    requires { method < length tables.old }
    ensures size { length tables.new ≡ length tables.old }
    ensures raised { IsRaised rel.now tables.old tables.new (record { method = method; found = found; held = held.now }) }
{
    let place = place_of(method);
    let table = &mut tables[place];
    raise(rel, held, found, table.basics.as_mut_slice());
}

impl<'a> Floors<'a> {
    /// What no lines say.
    pub fn new(alloc: Global, sets: &'a RelevantSets, count: usize) -> Result<Self, NoMemory>
        ensures sets { IfOk result (λ floors. floors.sets.now ≡ sets.now) }
        ensures size { IfOk result (λ floors. length floors.tables.items ≡ count) }
        ensures says { IfOk result (λ floors. TablesSay (rel_of sets.now) floors.tables.items []) }
    {
        let tables = const_tables(alloc, sets, count)?;
        Ok(Floors { sets, tables })
    }

    /// What the lines say with one more behind them: that the method, which has a table, is at least so much where these paths are held.
    pub fn add(&mut self, method: MethodId, held: &[Path], found: Basic)
        requires { method < length self.old.tables.items }
        ensures sets { self.new.sets.now ≡ self.old.sets.now }
        ensures size { length self.new.tables.items ≡ length self.old.tables.items }
        ensures says { (lines : List LineData) → TablesSay (rel_of self.old.sets.now) self.old.tables.items lines →
            TablesSay (rel_of self.new.sets.now) self.new.tables.items (lines ++ record { method = method; found = found; held = held.now } ∷ []) }
        ensures raised { IsRaised (rel_of self.old.sets.now method) self.old.tables.items self.new.tables.items (record { method = method; found = found; held = held.now }) }
    {
        let rel = self.sets.rel(method);
        raise_table(rel, self.tables.as_mut_slice(), method, held, found);
    }
}
