//! A frame of the machine that runs code.
ghost use Rattle.std.specs.Prelude.{◌≡◌, ◌<◌, ◌≤◌, ◌+◌, ◌-◌, max, [], ◌∷◌, ◌++◌, take, vec_len, vec_capacity, OnSome, IfNone, true, reverse, length, Some, None, IsOk, IfOk, OnOk, OnErr, slice_set};
ghost use Rattle.state.specs.Values.{under, dropped};
ghost use Rattle.state.specs.Frames.{code_frame, frame_given, settled, settled_operands, first_frame, rest_of};

use crate::value::{Address, Value};
use crate::values::{same_addresses, same_values};
use paths::MethodId;
use std::alloc::{AllocError as NoMemory, Global};
use std::marker::Model;

/// A method that is entered: the place where its code begins, and how many operands its frame has spare room for.
#[derive(Clone, Copy, PartialEq, Eq, Debug)]
pub struct Entered {
    pub method: MethodId,
    pub entry: u32,
    pub room: u32,
}

/// A frame: its operands and its taken locks with the last one last, and a count of the operands more for which it has
/// spare room.
#[derive(Drop)]
pub(crate) struct FrameCell {
    method: MethodId,
    slots: Vec<Value>,
    operands: Vec<Value>,
    room: usize,
    place: u32,
    taken: Vec<Address>,
}

impl Model for FrameCell {
    ghost use Rattle.std.specs.Prelude.{reverse, ◌≤◌, ◌+◌, vec_len, vec_capacity};
    ghost use Rattle.state.specs.Frames.{CellFrame};
    ghost use Rattle.state.specs.ThreadCodes.{frame_code};

    ghost Value = { CellFrame };

    ghost coded = { frame_code };

    ghost view = { λ f. record {
      method = f.method;
      slots = f.slots.items;
      operands = reverse f.operands.items;
      place = f.place;
      taken = reverse f.taken.items;
      room = f.room;
    } };

    ghost invariant = { λ f. vec_len f.operands + f.room ≤ vec_capacity f.operands };
}

impl FrameCell {
    /// The frame of a method that is entered with these slots, without operands and taken locks.
    pub(crate) fn new(
        alloc: Global,
        entered: Entered,
        slots: Vec<Value>,
    ) -> Result<FrameCell, NoMemory>
        ensures { IfOk result (λ f. f ≡ record { method = entered.method; slots = slots.items; operands = []; place = entered.entry; taken = []; room = entered.room }) }
    {
        let operands = Vec::with_capacity(alloc, entered.room as usize)?;
        Ok(FrameCell {
            method: entered.method,
            slots,
            operands,
            room: entered.room as usize,
            place: entered.entry,
            taken: Vec::new(alloc),
        })
    }

    /// The method.
    pub(crate) fn method(&self) -> MethodId
        ensures { result ≡ self.now.method }
    {
        self.method
    }

    /// The slots.
    pub(crate) fn slots(&self) -> &[Value]
        ensures { result.now ≡ self.now.slots }
    {
        self.slots.as_slice()
    }

    /// The operands, the topmost last.
    pub(crate) fn operands(&self) -> &[Value]
        ensures { result.now ≡ reverse self.now.operands }
    {
        self.operands.as_slice()
    }

    /// The place in the code.
    pub(crate) fn place(&self) -> u32
        ensures { result ≡ self.now.place }
    {
        self.place
    }

    /// The taken locks, the last one last.
    pub(crate) fn taken(&self) -> &[Address]
        ensures { result.now ≡ reverse self.now.taken }
    {
        self.taken.as_slice()
    }

    /// Goes on at a place.
    pub(crate) fn go(&mut self, place: u32)
        ensures { self.new ≡ record self.old { place = place } }
    {
        self.place = place;
    }

    /// Writes a slot that is there.
    pub(crate) fn set_slot(&mut self, slot: u16, v: Value)
        requires { slot < length self.old.slots }
        ensures { self.new ≡ record self.old { slots = slice_set self.old.slots slot v } }
    {
        self.slots[slot as usize] = v;
    }

    /// Makes the spare room at least n.
    pub(crate) fn make_room(&mut self, n: u32) -> Result<(), NoMemory>
        ensures ok { OnOk result (self.new ≡ record self.old { room = max n self.old.room }) }
        ensures err { OnErr result (self.new ≡ self.old) }
    {
        let n = n as usize;
        if self.room < n {
            self.operands.reserve(n)?;
            self.room = n;
        }
        Ok(())
    }

    /// Puts a value on top of the operands; takes no memory where there is spare room.
    pub(crate) fn push(&mut self, v: Value) -> Result<(), NoMemory>
        ensures ok { OnOk result (self.new ≡ record self.old { operands = v ∷ self.old.operands; room = self.old.room - 1 }) }
        ensures err { OnErr result (self.new ≡ self.old) }
        ensures spare { 0 < self.old.room → IsOk result }
    {
        self.operands.push(v)?;
        self.room = self.room.saturating_sub(1);
        Ok(())
    }

    /// Takes the topmost operand.
    pub(crate) fn pop(&mut self) -> Option<Value>
        ensures value { result ≡ first_frame self.old.operands }
        ensures some { OnSome result (self.new ≡ record self.old { operands = under self.old.operands; room = self.old.room + 1 }) }
        ensures none { IfNone result (self.new ≡ self.old) }
    {
        let value = self.operands.pop()?;
        self.room += 1;
        Some(value)
    }

    /// Drops the topmost operands, is given a value or none, and goes on at a place; takes no memory where the operands
    /// and the spare room are enough for those that stand afterwards.
    pub(crate) fn settle(
        &mut self,
        drops: usize,
        gives: Option<Value>,
        place: u32,
    ) -> Result<(), NoMemory>
        ensures ok { OnOk result (self.new ≡ settled drops gives place self.old) }
        ensures err { OnErr result (self.new ≡ self.old) }
        ensures spare { length (settled_operands drops gives self.old) ≤ length self.old.operands + self.old.room → IsOk result }
    {
        let whole = self.operands.len() + self.room;
        settle_operands(&mut self.operands, drops, gives)?;
        self.room = whole.saturating_sub(self.operands.len());
        self.place = place;
        Ok(())
    }

    /// Drops the topmost operands and goes on at a place.
    pub(crate) fn drop_to(&mut self, drops: usize, place: u32)
        ensures { self.new ≡ settled drops None place self.old }
    {
        // This can't fail: no operand is added.
        let _ = self.settle(drops, None, place);
    }

    /// Drops the topmost operands, is given a value and goes on at a place, where there is spare room.
    pub(crate) fn give_to(&mut self, drops: usize, value: Value, place: u32)
        requires { 0 < self.old.room }
        ensures { self.new ≡ settled drops (Some value) place self.old }
    {
        // This can't fail: there is room for the value.
        let _ = self.settle(drops, Some(value), place);
    }

    /// A lock becomes the last taken one.
    pub(crate) fn lock_taken(&mut self, a: Address) -> Result<(), NoMemory>
        ensures ok { OnOk result (self.new ≡ record self.old { taken = a ∷ self.old.taken }) }
        ensures err { OnErr result (self.new ≡ self.old) }
    {
        self.taken.push(a)?;
        Ok(())
    }

    /// Takes the last taken lock off.
    pub(crate) fn lock_given(&mut self) -> Option<Address>
        ensures value { result ≡ first_frame self.old.taken }
        ensures new { self.new ≡ record self.old { taken = rest_of self.old.taken } }
    {
        self.taken.pop()
    }

    /// An equal frame, with the same spare room.
    pub(crate) fn copy(&self, alloc: Global) -> Result<FrameCell, NoMemory>
        ensures { IfOk result (λ f. f ≡ self.now) }
    {
        let mut slots = Vec::with_capacity(alloc, self.slots.len())?;
        slots.extend_from_slice(self.slots.as_slice())?;
        let mut operands = Vec::with_capacity(alloc, self.operands.len() + self.room)?;
        operands.extend_from_slice(self.operands.as_slice())?;
        let mut taken = Vec::with_capacity(alloc, self.taken.len())?;
        taken.extend_from_slice(self.taken.as_slice())?;
        Ok(FrameCell {
            method: self.method,
            slots,
            operands,
            room: self.room,
            place: self.place,
            taken,
        })
    }

    /// Whether two frames are equal, but for their spare rooms.
    pub(crate) fn same(&self, other: &FrameCell) -> bool
        ensures { result ≡ true → code_frame self.now ≡ code_frame other.now }
    {
        if self.method() != other.method() || self.place() != other.place() {
            return false;
        }
        if !same_values(self.slots(), other.slots()) {
            return false;
        }
        if !same_values(self.operands(), other.operands()) {
            return false;
        }
        same_addresses(self.taken(), other.taken())
    }
}

/// Drops the topmost operands, and puts a value or none on top.
fn settle_operands(
    operands: &mut Vec<Value>,
    drops: usize,
    gives: Option<Value>,
) -> Result<(), NoMemory>
    ensures ok { OnOk result (reverse operands.new.items ≡ frame_given gives (dropped drops (reverse operands.old.items))) }
    ensures err { OnErr result (operands.new.items ≡ operands.old.items) }
    ensures capacity { vec_capacity operands.old ≤ vec_capacity operands.new }
    ensures spare { length (frame_given gives (dropped drops (reverse operands.old.items))) ≤ vec_capacity operands.old → IsOk result }
{
    let kept = operands.len().saturating_sub(drops);
    match gives {
        None => {
            operands.truncate(kept);
            Ok(())
        }
        Some(value) => put_at(operands, kept, value),
    }
}

/// Puts a value at a place and drops what stands behind it.
fn put_at(operands: &mut Vec<Value>, kept: usize, value: Value) -> Result<(), NoMemory>
    requires { kept ≤ vec_len operands.old }
    ensures ok { OnOk result (operands.new.items ≡ take kept operands.old.items ++ value ∷ []) }
    ensures err { OnErr result (operands.new.items ≡ operands.old.items) }
    ensures capacity { vec_capacity operands.old ≤ vec_capacity operands.new }
    ensures spare { kept + 1 ≤ vec_capacity operands.old → IsOk result }
{
    match operands.get_mut(kept) {
        Some(slot) => *slot = value,
        None => operands.push(value)?,
    }
    operands.truncate(kept + 1);
    Ok(())
}
