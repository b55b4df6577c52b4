//! A table by addresses: a row for each thread that makes objects, and in it a slot for each count.
ghost use Rattle.std.specs.Prelude.{count_by, ◌≡◌, ◌==◌, ◌<◌, ◌≤◌, ◌^◌, ◌+◌, max, vec_len, Option, Some, None, IsSome, MatchOption, IfOk, OnOk, OnErr, length, slice_get};
ghost use Rattle.std.specs.Option.{option_copied};
ghost use Rattle.std.specs.FinMap as map;
ghost use Rattle.state.specs.declared.value.Value.{Value};
ghost use Rattle.state.specs.Memory.{Object, with_value};
ghost use Rattle.state.specs.Slots.{grid_at, slots_entries, filled_row, rows_entries, IsPlaced};

use crate::objects::Cell;
use crate::row::{Copied, Row};
use crate::value::{Address, Value};
use std::alloc::{AllocError as NoMemory, Global};
use std::marker::Model;

/// A table by addresses. A contract sees the map of it.
#[derive(Drop)]
pub(crate) struct Grid<T> {
    rows: Vec<Row<T>>,
    len: usize,
}

impl<T> Model for Grid<T> {
    ghost use Rattle.std.specs.Prelude.{◌≡◌, ◌≤◌, ◌^◌, length};
    ghost use Rattle.std.specs.FinMap as map;
    ghost use Rattle.state.specs.Memory.{address_cmp};
    ghost use Rattle.state.specs.Slots.{address_code, rows_entries, grid_map};

    ghost Value = { map.FinMap address_cmp T };

    ghost coded = { map.code address_code T.code };

    ghost view = { λ g. grid_map g.rows.items };

    ghost invariant = { λ g. (g.len ≡ length (rows_entries 0 g.rows.items)) × (length g.rows.items ≤ 2 ^ 32) };
}

impl<T: Drop> Grid<T> {
    /// A table without entries.
    pub(crate) fn new(alloc: Global) -> Grid<T>
        ensures { result ≡ map.empty }
    {
        Grid {
            rows: Vec::new(alloc),
            len: 0,
        }
    }

    /// The number of entries.
    pub(crate) fn len(&self) -> usize
        ensures { result ≡ map.len self.now }
    {
        self.len
    }

    /// How many entries a thread has.
    pub(crate) fn filled(&self, thread: u32) -> usize
        ensures { result ≡ count_by (λ a. a.thread == thread) (map.keys self.now) }
    {
        row_filled(self.rows.as_slice(), thread)
    }

    /// The value at an address.
    pub(crate) fn get(&self, a: Address) -> Option<&T>
        ensures { option_copied result ≡ map.get self.now a }
    {
        entry(self.rows.as_slice(), a)
    }

    /// Adds an entry at an address where there is none.
    pub(crate) fn put(&mut self, alloc: Global, a: Address, value: T) -> Result<(), NoMemory>
        requires { map.get self.old a ≡ None }
        ensures ok { OnOk result (self.new ≡ map.insert self.old a value) }
        ensures err { OnErr result (self.new ≡ self.old) }
    {
        if self.len == usize::MAX {
            return Err(NoMemory);
        }
        put_entry(alloc, &mut self.rows, a, value)?;
        self.len += 1;
        Ok(())
    }

    /// Writes the value of an entry that is there.
    pub(crate) fn replace(&mut self, a: Address, value: T)
        requires { IsSome (map.get self.old a) }
        ensures { self.new ≡ map.insert self.old a value }
    {
        replace_entry(&mut self.rows, a, value);
    }

    /// Takes away the entry at an address.
    pub(crate) fn remove(&mut self, a: Address)
        requires { IsSome (map.get self.old a) }
        ensures { self.new ≡ map.remove self.old a }
    {
        clear_entry(&mut self.rows, a);
        self.len -= 1;
    }

    /// The entry at a place, in ascending order of addresses.
    pub(crate) fn nth(&self, place: usize) -> Option<(Address, &T)>
        ensures { MatchOption result (slice_get (map.entries self.now) place ≡ None)
            (λ e. slice_get (map.entries self.now) place ≡ Some (e.0, e.1.now)) }
    {
        nth_entry(self.rows.as_slice(), place)
    }
}

/// How many entries a thread has.
fn row_filled<T: Drop>(rows: &[Row<T>], thread: u32) -> usize
    ensures { result ≡ filled_row (slice_get rows.now thread) }
{
    match rows.get(thread as usize) {
        Some(row) => row.filled(),
        None => 0,
    }
}

/// The value at an address.
fn entry<T: Drop>(rows: &[Row<T>], a: Address) -> Option<&T>
    ensures { option_copied result ≡ grid_at rows.now a }
{
    match rows.get(a.thread as usize) {
        Some(row) => row.get(a.count),
        None => None,
    }
}

/// Adds an entry at an address where there is none, to rows that may have to be added before.
fn put_entry<T: Drop>(
    alloc: Global,
    rows: &mut Vec<Row<T>>,
    a: Address,
    value: T,
) -> Result<(), NoMemory>
    requires { grid_at rows.old.items a ≡ None }
    ensures ok { OnOk result (IsPlaced rows.old.items rows.new.items a (Some value)) }
    ensures err { OnErr result ((b : Address) → grid_at rows.new.items b ≡ grid_at rows.old.items b) }
    ensures few { vec_len rows.new ≤ max (2 ^ 32) (vec_len rows.old) }
{
    reach_row(alloc, rows, a.thread as usize)?;
    match rows.get_mut(a.thread as usize) {
        Some(row) => row.put(a.count, value),
        None => Err(NoMemory),
    }
}

/// Writes the value of an entry that is there.
fn replace_entry<T: Drop>(rows: &mut Vec<Row<T>>, a: Address, value: T)
    requires { IsSome (grid_at rows.old.items a) }
    ensures placed { IsPlaced rows.old.items rows.new.items a (Some value) }
    ensures few { vec_len rows.new ≡ vec_len rows.old }
{
    if let Some(row) = rows.get_mut(a.thread as usize) {
        row.replace(a.count, value);
    }
}

/// Takes away an entry that is there.
fn clear_entry<T: Drop>(rows: &mut Vec<Row<T>>, a: Address)
    requires { IsSome (grid_at rows.old.items a) }
    ensures placed { IsPlaced rows.old.items rows.new.items a None }
    ensures few { vec_len rows.new ≡ vec_len rows.old }
{
    if let Some(row) = rows.get_mut(a.thread as usize) {
        row.clear(a.count);
    }
}

/// Adds empty rows until there is one for a thread.
fn reach_row<T: Drop>(alloc: Global, rows: &mut Vec<Row<T>>, thread: usize) -> Result<(), NoMemory>
    ensures same { (b : Address) → grid_at rows.new.items b ≡ grid_at rows.old.items b }
    ensures long { OnOk result (thread < vec_len rows.new) }
    ensures few { vec_len rows.new ≤ max (thread + 1) (vec_len rows.old) }
{
    'rows: while rows.len() <= thread {
        rows.push(Row::new(alloc))?;
    }
    Ok(())
}

impl<T: Copied + Drop> Grid<T> {
    /// An equal table.
    pub(crate) fn copy(&self, alloc: Global) -> Result<Grid<T>, NoMemory>
        ensures { IfOk result (λ g. g ≡ self.now) }
    {
        let len = self.len;
        let rows = copy_rows(alloc, self.rows.as_slice())?;
        Ok(Grid { rows, len })
    }
}

/// Equal rows.
fn copy_rows<T: Copied + Drop>(alloc: Global, rows: &[Row<T>]) -> Result<Vec<Row<T>>, NoMemory>
    ensures { IfOk result (λ v. v.items ≡ rows.now) }
{
    let mut copies = Vec::with_capacity(alloc, rows.len())?;
    for row in rows {
        copies.push(row.copy(alloc)?)?;
    }
    Ok(copies)
}

/// The entry at a place of these rows.
fn nth_entry<T: Drop>(rows: &[Row<T>], place: usize) -> Option<(Address, &T)>
    requires { length rows.now ≤ 2 ^ 32 }
    ensures { MatchOption result (slice_get (rows_entries 0 rows.now) place ≡ None)
        (λ e. slice_get (rows_entries 0 rows.now) place ≡ Some (e.0, e.1.now)) }
{
    let mut left = place;
    for (thread, row) in rows.iter().enumerate() {
        if left < row.filled() {
            return entry_of(thread as u32, row, left);
        }
        left -= row.filled();
    }
    None
}

/// The entry at a place of a thread's row.
fn entry_of<T: Drop>(thread: u32, row: &Row<T>, place: usize) -> Option<(Address, &T)>
    ensures { MatchOption result (slice_get (slots_entries thread 0 row.now) place ≡ None)
        (λ e. slice_get (slots_entries thread 0 row.now) place ≡ Some (e.0, e.1.now)) }
{
    match row.nth(place) {
        Some((count, value)) => Some((Address { thread, count }, value)),
        None => None,
    }
}

impl Grid<Cell> {
    /// Writes a value of the object at an address.
    pub(crate) fn set_value(&mut self, a: Address, index: u16, v: Value)
        requires { IsSome (map.get self.old a) }
        ensures { (o : Object) → map.get self.old a ≡ Some o → self.new ≡ map.insert self.old a (with_value index v o) }
    {
        set_entry(&mut self.rows, a, index, v);
    }
}

/// Writes a value of the object at an address.
fn set_entry(rows: &mut Vec<Row<Cell>>, a: Address, index: u16, v: Value)
    requires { IsSome (grid_at rows.old.items a) }
    ensures placed { (o : Object) → grid_at rows.old.items a ≡ Some o → IsPlaced rows.old.items rows.new.items a (Some (with_value index v o)) }
    ensures few { vec_len rows.new ≡ vec_len rows.old }
{
    if let Some(row) = rows.get_mut(a.thread as usize) {
        row.set_value(a.count, index, v);
    }
}
