//! A row of a table by addresses: the slots of one thread, by their counts.
ghost use Rattle.std.specs.Prelude.{◌≡◌, ◌<◌, ◌≤◌, ◌^◌, ◌+◌, max, vec_len, ℕ, List, [], ◌∷◌, Option, Some, None, IsSome, MatchOption, IfOk, OnOk, OnErr, OnSome, length, slice_get};
ghost use Rattle.std.specs.Option.{option_copied, option_map};
ghost use Rattle.state.specs.declared.value.Value.{Value};
ghost use Rattle.state.specs.Memory.{Object, with_value};
ghost use Rattle.state.specs.Slots.{slot_at, filled_in, slots_entries, SlotWritten};

use crate::objects::Cell;
use crate::value::Value;
use std::alloc::{AllocError as NoMemory, Global};
use std::marker::Model;

/// The slots of one thread, by their counts. A contract sees the list of them.
#[derive(Drop)]
pub(crate) struct Row<T> {
    slots: Vec<Option<T>>,
    filled: usize,
}

impl<T> Model for Row<T> {
    ghost use Rattle.std.specs.Prelude.{◌≡◌, ◌≤◌, ◌^◌, List, Option, length};
    ghost use Rattle.std.specs.Coded.{coded_list, coded_option};
    ghost use Rattle.state.specs.Slots.{filled_in};

    ghost Value = { List (Option T) };

    ghost coded = { coded_list (coded_option T.code) };

    ghost view = { λ r. r.slots.items };

    ghost invariant = { λ r. (r.filled ≡ filled_in r.slots.items) × (length r.slots.items ≤ 2 ^ 32) };
}

impl<T: Drop> Row<T> {
    /// A row without slots.
    pub(crate) fn new(alloc: Global) -> Row<T>
        ensures { result ≡ [] }
    {
        Row {
            slots: Vec::new(alloc),
            filled: 0,
        }
    }

    /// How many slots hold something.
    pub(crate) fn filled(&self) -> usize
        ensures { result ≡ filled_in self.now }
    {
        self.filled
    }

    /// What the slot of a count holds.
    pub(crate) fn get(&self, count: u32) -> Option<&T>
        ensures { option_copied result ≡ slot_at self.now count }
    {
        slot(self.slots.as_slice(), count as usize)
    }

    /// Puts a value into the slot of a count, which is empty.
    pub(crate) fn put(&mut self, count: u32, value: T) -> Result<(), NoMemory>
        requires { slot_at self.old count ≡ None }
        ensures ok { OnOk result (SlotWritten self.old self.new count (Some value)) }
        ensures err { OnErr result ((c : ℕ) → slot_at self.new c ≡ slot_at self.old c) }
    {
        reach(&mut self.slots, count as usize)?;
        store(&mut self.slots, count as usize, value)?;
        self.filled += 1;
        Ok(())
    }

    /// Puts a value into the slot of a count in place of another.
    pub(crate) fn replace(&mut self, count: u32, value: T)
        requires { IsSome (slot_at self.old count) }
        ensures { SlotWritten self.old self.new count (Some value) }
    {
        overwrite(&mut self.slots, count as usize, Some(value));
    }

    /// Empties the slot of a count, which holds something.
    pub(crate) fn clear(&mut self, count: u32)
        requires { IsSome (slot_at self.old count) }
        ensures { SlotWritten self.old self.new count None }
    {
        overwrite(&mut self.slots, count as usize, None);
        self.filled -= 1;
    }

    /// The entry at a place, in ascending order of counts. Without an empty slot it is found at once.
    pub(crate) fn nth(&self, place: usize) -> Option<(u32, &T)>
        ensures { (t : ℕ) → MatchOption result (slice_get (slots_entries t 0 self.now) place ≡ None)
            (λ e. slice_get (slots_entries t 0 self.now) place ≡ Some (record { thread = t; count = e.0 }, e.1.now)) }
    {
        if self.filled == self.slots.len() {
            return nth_full(self.slots.as_slice(), place);
        }
        nth_filled(self.slots.as_slice(), place)
    }
}

/// What a slot holds.
fn slot<T>(slots: &[Option<T>], at: usize) -> Option<&T>
    ensures held { option_copied result ≡ slot_at slots.now at }
    ensures within { OnSome result (at < length slots.now) }
{
    slots.get(at)?.as_ref()
}

/// The entry at a place of slots that all hold something.
fn nth_full<T>(slots: &[Option<T>], place: usize) -> Option<(u32, &T)>
    requires full { filled_in slots.now ≡ length slots.now }
    requires few { length slots.now ≤ 2 ^ 32 }
    ensures { (t : ℕ) → MatchOption result (slice_get (slots_entries t 0 slots.now) place ≡ None)
        (λ e. slice_get (slots_entries t 0 slots.now) place ≡ Some (record { thread = t; count = e.0 }, e.1.now)) }
{
    match slot(slots, place) {
        Some(value) => Some((place as u32, value)),
        None => None,
    }
}

/// The entry at a place among those that hold something.
fn nth_filled<T>(slots: &[Option<T>], place: usize) -> Option<(u32, &T)>
    requires { length slots.now ≤ 2 ^ 32 }
    ensures { (t : ℕ) → MatchOption result (slice_get (slots_entries t 0 slots.now) place ≡ None)
        (λ e. slice_get (slots_entries t 0 slots.now) place ≡ Some (record { thread = t; count = e.0 }, e.1.now)) }
{
    let mut left = place;
    for (count, slot) in slots.iter().enumerate() {
        if let Some(value) = slot {
            if left == 0 {
                return Some((count as u32, value));
            }
            left -= 1;
        }
    }
    None
}

/// Adds empty slots up to a place.
fn reach<T: Drop>(slots: &mut Vec<Option<T>>, at: usize) -> Result<(), NoMemory>
    ensures same { (c : ℕ) → slot_at slots.new.items c ≡ slot_at slots.old.items c }
    ensures filled { filled_in slots.new.items ≡ filled_in slots.old.items }
    ensures few { vec_len slots.new ≤ max at (vec_len slots.old) }
    ensures long { OnOk result (at ≤ vec_len slots.new) }
{
    while slots.len() < at {
        slots.push(None)?;
    }
    Ok(())
}

/// Puts a value into an empty slot, or into a new one behind the last.
fn store<T: Drop>(slots: &mut Vec<Option<T>>, at: usize, value: T) -> Result<(), NoMemory>
    requires within { at ≤ vec_len slots.old }
    requires empty { slot_at slots.old.items at ≡ None }
    ensures ok { OnOk result (SlotWritten slots.old.items slots.new.items at (Some value)) }
    ensures filled { OnOk result (filled_in slots.new.items ≡ 1 + filled_in slots.old.items) }
    ensures bound { filled_in slots.new.items ≤ vec_len slots.new }
    ensures few { vec_len slots.new ≤ max (at + 1) (vec_len slots.old) }
    ensures err { OnErr result (slots.new.items ≡ slots.old.items) }
{
    match slots.get_mut(at) {
        Some(slot) => *slot = Some(value),
        None => slots.push(Some(value))?,
    }
    Ok(())
}

/// Writes a slot that holds something.
fn overwrite<T: Drop>(slots: &mut Vec<Option<T>>, at: usize, value: Option<T>)
    requires { IsSome (slot_at slots.old.items at) }
    ensures written { SlotWritten slots.old.items slots.new.items at value }
    ensures filled { 1 + filled_in slots.new.items ≡ filled_in slots.old.items + filled_in (value ∷ []) }
    ensures some { 1 ≤ filled_in slots.old.items }
    ensures long { vec_len slots.new ≡ vec_len slots.old }
{
    if let Some(slot) = slots.get_mut(at) {
        *slot = value;
    }
}

/// What can be copied.
pub(crate) trait Copied: Sized {
    /// An equal value.
    fn copied(&self, alloc: Global) -> Result<Self, NoMemory>
        ensures { IfOk result (λ v. v ≡ self.now) };
}

impl<T: Copied + Drop> Row<T> {
    /// An equal row.
    pub(crate) fn copy(&self, alloc: Global) -> Result<Row<T>, NoMemory>
        ensures { IfOk result (λ r. r ≡ self.now) }
    {
        let filled = self.filled;
        let slots = copy_slots(alloc, self.slots.as_slice())?;
        Ok(Row { slots, filled })
    }
}

/// Equal slots.
fn copy_slots<T: Copied + Drop>(
    alloc: Global,
    slots: &[Option<T>],
) -> Result<Vec<Option<T>>, NoMemory>
    ensures { IfOk result (λ v. v.items ≡ slots.now) }
{
    let mut copies = Vec::with_capacity(alloc, slots.len())?;
    for slot in slots {
        copies.push(copy_slot(alloc, slot.as_ref())?)?;
    }
    Ok(copies)
}

/// An equal slot.
fn copy_slot<T: Copied + Drop>(alloc: Global, slot: Option<&T>) -> Result<Option<T>, NoMemory>
    ensures { IfOk result (λ o. o ≡ option_copied slot.entry) }
{
    match slot {
        Some(value) => Ok(Some(value.copied(alloc)?)),
        None => Ok(None),
    }
}

impl Row<Cell> {
    /// Writes a value of the object in the slot of a count.
    pub(crate) fn set_value(&mut self, count: u32, index: u16, v: Value)
        requires { IsSome (slot_at self.old count) }
        ensures { (o : Object) → slot_at self.old count ≡ Some o → SlotWritten self.old self.new count (Some (with_value index v o)) }
    {
        set_slot(&mut self.slots, count as usize, index, v);
    }
}

/// Writes a value of the object in a slot.
fn set_slot(slots: &mut Vec<Option<Cell>>, at: usize, index: u16, v: Value)
    requires { IsSome (slot_at slots.old.items at) }
    ensures written { (o : Object) → slot_at slots.old.items at ≡ Some o → SlotWritten slots.old.items slots.new.items at (Some (with_value index v o)) }
    ensures filled { filled_in slots.new.items ≡ filled_in slots.old.items }
    ensures long { vec_len slots.new ≡ vec_len slots.old }
{
    if let Some(slot) = slots.get_mut(at) {
        set_cell(slot, index, v);
    }
}

/// Writes a value of an object that may be there.
fn set_cell(slot: &mut Option<Cell>, index: u16, v: Value)
    ensures { slot.new ≡ option_map (with_value index v) slot.old }
{
    if let Some(cell) = slot {
        cell.set(index, v);
    }
}
