//! Threads of the machine that runs code.
ghost use Rattle.std.specs.Prelude.{◌≡◌, ◌<◌, ◌≤◌, ◌+◌, ◌-◌, ◌∷◌, [], max, reverse, length, map, Option, Some, None, true, IsSome, IsOk, IfOk, OnOk, OnErr, OnSome, IfNone, slice_get, slice_set};
ghost use Rattle.std.specs.Option.{option_map};
ghost use Rattle.state.specs.Values.{under};
ghost use Rattle.state.specs.States.{ThreadOf, Ready, Running, Faulted};
ghost use Rattle.state.specs.Frames.{CellFrame, code_frame, code_thread, frames_in, top_frame, on_top, thread_status, waiting_of, is_running, may_enter, popped, settled, settled_operands, with_given, HasRoom, HasSpare, first_frame, rest_of, on_first, frame_given, slots_of, operands_of, taken_of};

use crate::copies::{copy_frames, copy_top, same_frames, same_status, same_top};
use crate::frame::{Entered, FrameCell};
use crate::value::{Address, Fault, ThreadState, Value};
use crate::values::same_address;
use paths::MethodId;
use std::alloc::{AllocError as NoMemory, Global};
use std::marker::Model;

/// A thread: its status, the object and method of a ready one, its innermost frame, and the frames below it, the
/// outermost first. A contract sees each frame with its spare room.
#[derive(Drop)]
pub struct ThreadCell {
    state: ThreadState,
    on: Address,
    method: MethodId,
    top: Option<FrameCell>,
    below: Vec<FrameCell>,
}

impl Model for ThreadCell {
    ghost use Rattle.std.specs.Prelude.{reverse};
    ghost use Rattle.state.specs.States.{ThreadOf};
    ghost use Rattle.state.specs.Frames.{CellFrame, thread_of, frames_from, IsThread};
    ghost use Rattle.state.specs.ThreadCodes.{thread_code};

    ghost Value = { ThreadOf CellFrame };

    ghost coded = { thread_code };

    ghost view = { λ t. thread_of t.state t.on t.method (frames_from t.top (reverse t.below.items)) };

    ghost invariant = { λ t. IsThread t.state t.top t.below.items };
}

impl ThreadCell {
    /// A thread that is ready to run a method on an object; takes no memory.
    pub fn ready(alloc: Global, on: Address, method: MethodId) -> ThreadCell
        ensures { result ≡ Ready on method }
    {
        ThreadCell {
            state: ThreadState::Ready,
            on,
            method,
            top: None,
            below: Vec::new(alloc),
        }
    }

    /// The status.
    pub fn state(&self) -> ThreadState
        ensures { result ≡ thread_status self.now }
    {
        self.state
    }

    /// The number of frames.
    pub fn frames(&self) -> usize
        ensures { result ≡ length (frames_in self.now) }
    {
        match &self.top {
            Some(_) => self.below.len() + 1,
            None => 0,
        }
    }

    /// The method of the top frame.
    pub fn top(&self) -> Option<MethodId>
        ensures { result ≡ option_map (λ f. f.method) (top_frame self.now) }
    {
        match &self.top {
            Some(frame) => Some(frame.method()),
            None => None,
        }
    }

    /// The slots of the top frame; empty where there is none.
    pub fn slots(&self) -> &[Value]
        ensures { result.now ≡ slots_of (top_frame self.now) }
    {
        match &self.top {
            Some(frame) => frame.slots(),
            None => &[],
        }
    }

    /// The operands of the top frame, the topmost last; empty where there is none.
    pub fn operands(&self) -> &[Value]
        ensures { result.now ≡ reverse (operands_of (top_frame self.now)) }
    {
        match &self.top {
            Some(frame) => frame.operands(),
            None => &[],
        }
    }

    /// The object and the method of a ready thread.
    pub fn waiting(&self) -> Option<(Address, MethodId)>
        ensures { result ≡ waiting_of self.now }
    {
        match self.state {
            ThreadState::Ready => Some((self.on, self.method)),
            _ => None,
        }
    }

    /// The place of the top frame in the code.
    pub fn place(&self) -> Option<u32>
        ensures { result ≡ option_map (λ f. f.place) (top_frame self.now) }
    {
        match &self.top {
            Some(frame) => Some(frame.place()),
            None => None,
        }
    }

    /// The taken locks of the top frame, the first taken first; empty where there is none.
    pub fn taken(&self) -> &[Address]
        ensures { result.now ≡ reverse (taken_of (top_frame self.now)) }
    {
        match &self.top {
            Some(frame) => frame.taken(),
            None => &[],
        }
    }

    /// The method of a frame; the outermost has the depth 0.
    pub fn method_at(&self, depth: usize) -> Option<MethodId>
        ensures { result ≡ option_map (λ f. f.method) (slice_get (reverse (frames_in self.now)) depth) }
    {
        match self.below.get(depth) {
            Some(frame) => Some(frame.method()),
            None if depth == self.below.len() => self.top(),
            None => None,
        }
    }

    /// A ready or running thread enters a method with these slots: it gets a frame more, and runs.
    pub fn push_frame(
        &mut self,
        alloc: Global,
        entered: Entered,
        slots: Vec<Value>,
    ) -> Result<(), NoMemory>
        requires { may_enter self.old ≡ true }
        ensures ok { OnOk result (self.new ≡ Running (record { method = entered.method; slots = slots.items; operands = []; place = entered.entry; taken = []; room = entered.room } ∷ frames_in self.old)) }
        ensures err { OnErr result (self.new ≡ self.old) }
    {
        let frame = FrameCell::new(alloc, entered, slots)?;
        if let Some(old) = self.top.take() {
            if let Err(failed) = self.below.push(old) {
                self.top = Some(failed.value);
                return Err(NoMemory);
            }
        }
        self.top = Some(frame);
        self.state = ThreadState::Running;
        Ok(())
    }

    /// A running thread enters a method with these slots: its top frame drops its topmost operands and goes on at a place, and
    /// gets a frame above it.
    pub fn call(
        &mut self,
        alloc: Global,
        drops: usize,
        next: u32,
        entered: Entered,
        slots: Vec<Value>,
    ) -> Result<(), NoMemory>
        requires { is_running self.old ≡ true }
        ensures ok { OnOk result (self.new ≡ Running (record { method = entered.method; slots = slots.items; operands = []; place = entered.entry; taken = []; room = entered.room }
            ∷ on_first (settled drops None next) (frames_in self.old))) }
        ensures err { OnErr result (self.new ≡ self.old) }
    {
        self.push_frame(alloc, entered, slots)?;
        settle_last(&mut self.below, drops, next);
        Ok(())
    }

    /// A running thread returns: its top frame is taken away, and the one below is given the result or none; the thread is
    /// done where it was the last. Takes no memory where the frame below has spare room.
    pub fn give_result(&mut self, gives: Option<Value>) -> Result<(), NoMemory>
        requires { is_running self.old ≡ true }
        ensures ok { OnOk result (code_thread self.new ≡ code_thread (on_top (λ f. record f { operands = frame_given gives f.operands }) (popped self.old))) }
        ensures frames { OnOk result (frames_in self.new ≡ on_first (with_given gives) (rest_of (frames_in self.old))) }
        ensures err { OnErr result (self.new ≡ self.old) }
        ensures spare { HasSpare gives (rest_of (frames_in self.old)) → IsOk result }
    {
        if let Some(value) = gives {
            push_last(&mut self.below, value)?;
        }
        self.pop_frame();
        Ok(())
    }

    /// A running thread loses its top frame; it is done where that was the last.
    pub fn pop_frame(&mut self)
        requires { is_running self.old ≡ true }
        ensures { self.new ≡ popped self.old }
    {
        self.top = self.below.pop();
        if self.top.is_none() {
            self.state = ThreadState::Done;
        }
    }

    /// A ready or running thread is faulted and keeps its frames.
    pub fn fault(&mut self, kind: Fault)
        requires { may_enter self.old ≡ true }
        ensures { self.new ≡ Faulted kind (frames_in self.old) }
    {
        self.state = ThreadState::Faulted(kind);
    }

    /// The top frame goes on at a place.
    pub fn go(&mut self, place: u32)
        requires { IsSome (top_frame self.old) }
        ensures { self.new ≡ on_top (λ f. record f { place = place }) self.old }
    {
        if let Some(frame) = &mut self.top {
            frame.go(place);
        }
    }

    /// Writes a slot that the top frame has.
    pub fn set_slot(&mut self, slot: u16, v: Value)
        requires { slot < length (slots_of (top_frame self.old)) }
        ensures { self.new ≡ on_top (λ f. record f { slots = slice_set f.slots slot v }) self.old }
    {
        if let Some(frame) = &mut self.top {
            frame.set_slot(slot, v);
        }
    }

    /// Makes the spare room of the top frame at least n.
    pub fn make_room(&mut self, n: u32) -> Result<(), NoMemory>
        requires { IsSome (top_frame self.old) }
        ensures ok { OnOk result (self.new ≡ on_top (λ f. record f { room = max n f.room }) self.old) }
        ensures err { OnErr result (self.new ≡ self.old) }
    {
        match &mut self.top {
            Some(frame) => frame.make_room(n),
            None => Ok(()),
        }
    }

    /// Puts a value on top of the operands of the top frame; takes no memory where there is spare room.
    pub fn push(&mut self, v: Value) -> Result<(), NoMemory>
        requires { IsSome (top_frame self.old) }
        ensures ok { OnOk result (self.new ≡ on_top (λ f. record f { operands = v ∷ f.operands; room = f.room - 1 }) self.old) }
        ensures err { OnErr result (self.new ≡ self.old) }
        ensures spare { (f : CellFrame) → top_frame self.old ≡ Some f → 0 < f.room → IsOk result }
    {
        match &mut self.top {
            Some(frame) => frame.push(v),
            None => Ok(()),
        }
    }

    /// Takes the topmost operand of the top frame.
    pub fn pop(&mut self) -> Option<Value>
        ensures value { result ≡ first_frame (operands_of (top_frame self.old)) }
        ensures some { OnSome result (self.new ≡ on_top (λ f. record f { operands = under f.operands; room = f.room + 1 }) self.old) }
        ensures none { IfNone result (self.new ≡ self.old) }
    {
        match &mut self.top {
            Some(frame) => frame.pop(),
            None => None,
        }
    }

    /// The top frame drops its topmost operands, is given a value or none, and goes on at a place; takes no memory where
    /// its operands and its spare room are enough for those that stand afterwards.
    pub fn settle(&mut self, drops: usize, gives: Option<Value>, place: u32) -> Result<(), NoMemory>
        requires { IsSome (top_frame self.old) }
        ensures ok { OnOk result (self.new ≡ on_top (settled drops gives place) self.old) }
        ensures err { OnErr result (self.new ≡ self.old) }
        ensures spare { (f : CellFrame) → top_frame self.old ≡ Some f →
            length (settled_operands drops gives f) ≤ length f.operands + f.room → IsOk result }
    {
        match &mut self.top {
            Some(frame) => frame.settle(drops, gives, place),
            None => Ok(()),
        }
    }

    /// The top frame drops its topmost operands and goes on at a place; takes no memory.
    pub fn drop_to(&mut self, drops: usize, place: u32)
        requires { IsSome (top_frame self.old) }
        ensures { self.new ≡ on_top (settled drops None place) self.old }
    {
        if let Some(frame) = &mut self.top {
            frame.drop_to(drops, place);
        }
    }

    /// The top frame, which has spare room, drops its topmost operands, is given a value and goes on at a place; takes no
    /// memory.
    pub fn give_to(&mut self, drops: usize, value: Value, place: u32)
        requires { HasRoom (top_frame self.old) }
        ensures { self.new ≡ on_top (settled drops (Some value) place) self.old }
    {
        if let Some(frame) = &mut self.top {
            frame.give_to(drops, value, place);
        }
    }

    /// A lock becomes the last taken one of the top frame.
    pub fn lock_taken(&mut self, a: Address) -> Result<(), NoMemory>
        requires { IsSome (top_frame self.old) }
        ensures ok { OnOk result (self.new ≡ on_top (λ f. record f { taken = a ∷ f.taken }) self.old) }
        ensures err { OnErr result (self.new ≡ self.old) }
    {
        match &mut self.top {
            Some(frame) => frame.lock_taken(a),
            None => Ok(()),
        }
    }

    /// Takes the last taken lock of the top frame off.
    pub fn lock_given(&mut self) -> Option<Address>
        ensures value { result ≡ first_frame (taken_of (top_frame self.old)) }
        ensures new { self.new ≡ on_top (λ f. record f { taken = rest_of f.taken }) self.old }
    {
        match &mut self.top {
            Some(frame) => frame.lock_given(),
            None => None,
        }
    }

    /// An equal thread, with the same spare rooms.
    pub fn copy(&self, alloc: Global) -> Result<ThreadCell, NoMemory>
        ensures { IfOk result (λ t. t ≡ self.now) }
    {
        let top = copy_top(alloc, self.top.as_ref())?;
        let below = copy_frames(alloc, self.below.as_slice())?;
        Ok(ThreadCell {
            state: self.state,
            on: self.on,
            method: self.method,
            top,
            below,
        })
    }

    /// Whether two threads are equal, but for the spare rooms of their frames.
    pub fn same(&self, other: &ThreadCell) -> bool
        ensures { result ≡ true → code_thread self.now ≡ code_thread other.now }
    {
        if !same_status(self.state, other.state) || !same_address(self.on, other.on) {
            return false;
        }
        if self.method != other.method {
            return false;
        }
        if !same_top(self.top.as_ref(), other.top.as_ref()) {
            return false;
        }
        same_frames(self.below.as_slice(), other.below.as_slice())
    }
}

/// The last frame drops its topmost operands and goes on at a place.
fn settle_last(frames: &mut Vec<FrameCell>, drops: usize, place: u32)
    ensures { reverse frames.new.items ≡ on_first (settled drops None place) (reverse frames.old.items) }
{
    if let Some(frame) = frames.last_mut() {
        frame.drop_to(drops, place);
    }
}

/// The last frame, where there is one, is given a value.
fn push_last(frames: &mut Vec<FrameCell>, value: Value) -> Result<(), NoMemory>
    ensures ok { OnOk result (map code_frame (reverse frames.new.items) ≡ on_first (λ f. record f { operands = value ∷ f.operands }) (map code_frame (reverse frames.old.items))) }
    ensures frames { OnOk result (reverse frames.new.items ≡ on_first (with_given (Some value)) (reverse frames.old.items)) }
    ensures err { OnErr result (frames.new.items ≡ frames.old.items) }
    ensures spare { HasSpare (Some value) (reverse frames.old.items) → IsOk result }
{
    match frames.last_mut() {
        Some(frame) => frame.push(value),
        None => Ok(()),
    }
}
