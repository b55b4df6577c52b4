//! What each event asks of its cell, and what it leaves there.
ghost use Rattle.std.specs.Prelude.{◌≡◌, Some, None, IfOk, option_map};
ghost use Rattle.std.specs.Str.{bytes_eq};
ghost use Rattle.logs.specs.Said.{deed_data};
ghost use Rattle.logs.specs.LogJudgeEvents.{event_of};
ghost use Rattle.logs.specs.Views.{cell_data, content_data, turn_data};
ghost use Rattle.logs.specs.Numbers.{number_of_word};
ghost use Rattle.logs.specs.Judging.{assumed as assumed_of};
ghost use Rattle.logs.specs.Memory as memory;
ghost use Rattle.logs.specs.Turns as logs;

use crate::lines::{Deed, Said};
use crate::memory::{Cell, Content};
use crate::same::is_same;
use state::StepKind;
use std::alloc::{AllocError as NoMemory, Global};

/// An event that can happen: its kind, and what it leaves in its cell.
#[derive(Drop)]
pub struct Turn {
    pub kind: StepKind,
    pub content: Content,
}

/// This kind, and this left in the cell.
fn made(kind: StepKind, content: Content) -> Option<Turn>
    ensures { option_map turn_data result ≡ Some (record { kind = kind; content = content_data content }) }
{
    Some(Turn { kind, content })
}

/// The cell of an event.
pub fn cell_of<'a>(said: &Said<'a>) -> Cell<'a>
    ensures { cell_data result ≡ logs.cell_of (number_of_word said.now.thread.now) (event_of (deed_data said.now.deed)) }
{
    match said.deed {
        Deed::Take(lock) => Cell::Lock(lock),
        Deed::Give(lock) => Cell::Lock(lock),
        Deed::Read(place, _) => Cell::Place(place),
        Deed::Write(place, _) => Cell::Place(place),
        Deed::Change(place, _, _) => Cell::Place(place),
        Deed::Start(thread) => Cell::Thread(thread),
        Deed::Join(thread) => Cell::Thread(thread),
        Deed::Stop | Deed::Begin(_) | Deed::End => Cell::Thread(said.thread),
    }
}

/// The value of a place that was seen so.
fn value_of(alloc: Global, bytes: &[u8]) -> Result<Content, NoMemory>
    ensures { IfOk result (λ content. content_data content ≡ memory.Value bytes.now) }
{
    let value = Vec::from_slice(alloc, bytes)?;
    Ok(Content::Value(value))
}

/// What a cell held of which nothing was known before this event.
pub fn assumed(alloc: Global, deed: Deed<'_>) -> Result<Content, NoMemory>
    ensures { IfOk result (λ content. content_data content ≡ assumed_of (event_of (deed_data deed.entry))) }
{
    match deed {
        Deed::Take(_) | Deed::Give(_) => Ok(Content::Free),
        Deed::Read(_, seen) => value_of(alloc, seen),
        Deed::Change(_, seen, _) => value_of(alloc, seen),
        Deed::Write(_, _) => Ok(Content::Value(Vec::new(alloc))),
        Deed::Start(_) => Ok(Content::Absent),
        Deed::Join(_) | Deed::Stop | Deed::Begin(_) | Deed::End => Ok(Content::Present),
    }
}

/// A lock after a thread took it, so often once more.
fn held(alloc: Global, kind: StepKind, thread: &[u8], more: u64) -> Result<Option<Turn>, NoMemory>
    ensures { IfOk result (λ turn. option_map turn_data turn ≡
        Some (record { kind = kind; content = memory.Lock (Some (record { by = number_of_word thread.now; more = more })) })) }
{
    let by = Vec::from_slice(alloc, thread)?;
    let content = Content::Held(by, more);
    Ok(Some(Turn { kind, content }))
}

/// Takes a lock that is free, or once more one that its thread holds.
fn take_turn(alloc: Global, thread: &[u8], found: &Content) -> Result<Option<Turn>, NoMemory>
    ensures { IfOk result (λ turn. option_map turn_data turn ≡ logs.take_turn (number_of_word thread.now) (content_data found.now)) }
{
    match found {
        Content::Free => held(alloc, StepKind::Right, thread, 0),
        Content::Held(by, more) => {
            if !is_same(by.as_slice(), thread) {
                return Ok(None);
            }
            match more.checked_add(1) {
                Some(more) => held(alloc, StepKind::Both, thread, more),
                None => Err(NoMemory),
            }
        }
        _ => Ok(None),
    }
}

/// Gives a lock back once.
fn give_turn(alloc: Global, thread: &[u8], found: &Content) -> Result<Option<Turn>, NoMemory>
    ensures { IfOk result (λ turn. option_map turn_data turn ≡ logs.give_turn (number_of_word thread.now) (content_data found.now)) }
{
    match found {
        Content::Held(by, more) => {
            if !is_same(by.as_slice(), thread) {
                return Ok(None);
            }
            match more.checked_sub(1) {
                Some(more) => held(alloc, StepKind::Both, thread, more),
                None => Ok(made(StepKind::Left, Content::Free)),
            }
        }
        _ => Ok(None),
    }
}

/// A place with this value after an access.
fn left_in(alloc: Global, kind: StepKind, value: &[u8]) -> Result<Option<Turn>, NoMemory>
    ensures { IfOk result (λ turn. option_map turn_data turn ≡ Some (record { kind = kind; content = memory.Value value.now })) }
{
    let content = value_of(alloc, value)?;
    Ok(Some(Turn { kind, content }))
}

/// Whether what was seen is what is there.
fn sees(seen: &[u8], value: &[u8]) -> bool
    ensures { result ≡ bytes_eq seen.now value.now }
{
    seen == value
}

/// Sees what a place holds.
fn read_turn(
    alloc: Global,
    kind: StepKind,
    seen: &[u8],
    found: &Content,
) -> Result<Option<Turn>, NoMemory>
    ensures { IfOk result (λ turn. option_map turn_data turn ≡ logs.access_turn kind (Some seen.now) None (content_data found.now)) }
{
    match found {
        Content::Value(value) => {
            if !sees(seen, value.as_slice()) {
                return Ok(None);
            }
            left_in(alloc, kind, value.as_slice())
        }
        _ => Ok(None),
    }
}

/// Leaves a value in a place.
fn write_turn(
    alloc: Global,
    kind: StepKind,
    left: &[u8],
    found: &Content,
) -> Result<Option<Turn>, NoMemory>
    ensures { IfOk result (λ turn. option_map turn_data turn ≡ logs.access_turn kind None (Some left.now) (content_data found.now)) }
{
    match found {
        Content::Value(_) => left_in(alloc, kind, left),
        _ => Ok(None),
    }
}

/// Sees what a place holds, and leaves a value there.
fn change_turn(
    alloc: Global,
    kind: StepKind,
    seen: &[u8],
    left: &[u8],
    found: &Content,
) -> Result<Option<Turn>, NoMemory>
    ensures { IfOk result (λ turn. option_map turn_data turn ≡ logs.access_turn kind (Some seen.now) (Some left.now) (content_data found.now)) }
{
    match found {
        Content::Value(value) => {
            if !sees(seen, value.as_slice()) {
                return Ok(None);
            }
            left_in(alloc, kind, left)
        }
        _ => Ok(None),
    }
}

/// Starts a thread that isn't there.
fn start_turn(found: &Content) -> Option<Turn>
    ensures { option_map turn_data result ≡ logs.start_turn (content_data found.now) }
{
    match found {
        Content::Absent => made(StepKind::Left, Content::Present),
        _ => None,
    }
}

/// Sees that a thread has ended.
fn join_turn(found: &Content) -> Option<Turn>
    ensures { option_map turn_data result ≡ logs.join_turn (content_data found.now) }
{
    match found {
        Content::Ended => made(StepKind::Right, Content::Ended),
        _ => None,
    }
}

/// A thread that is there does this.
fn own_turn(turn: Turn, found: &Content) -> Option<Turn>
    ensures { option_map turn_data result ≡ logs.own_turn (turn_data turn) (content_data found.now) }
{
    match found {
        Content::Present => Some(turn),
        _ => None,
    }
}

/// A thread begins or ends a block.
fn block_turn(found: &Content) -> Option<Turn>
    ensures { option_map turn_data result ≡ logs.own_turn (record { kind = StepKind.Both; content = memory.Thread memory.Present }) (content_data found.now) }
{
    let turn = Turn {
        kind: StepKind::Both,
        content: Content::Present,
    };
    own_turn(turn, found)
}

/// A thread ends.
fn stop_turn(found: &Content) -> Option<Turn>
    ensures { option_map turn_data result ≡ logs.own_turn (record { kind = StepKind.Left; content = memory.Thread memory.Ended }) (content_data found.now) }
{
    let turn = Turn {
        kind: StepKind::Left,
        content: Content::Ended,
    };
    own_turn(turn, found)
}

/// The turn of an event, by what its cell holds; an access is of the given kind.
pub fn turn_by(
    alloc: Global,
    kind: StepKind,
    said: &Said<'_>,
    found: &Content,
) -> Result<Option<Turn>, NoMemory>
    ensures { IfOk result (λ turn. option_map turn_data turn ≡
        logs.turn_by_content kind (event_of (deed_data said.now.deed)) (number_of_word said.now.thread.now) (content_data found.now)) }
{
    match said.deed {
        Deed::Take(_) => take_turn(alloc, said.thread, found),
        Deed::Give(_) => give_turn(alloc, said.thread, found),
        Deed::Read(_, seen) => read_turn(alloc, kind, seen, found),
        Deed::Write(_, left) => write_turn(alloc, kind, left, found),
        Deed::Change(_, seen, left) => change_turn(alloc, kind, seen, left, found),
        Deed::Start(_) => Ok(start_turn(found)),
        Deed::Join(_) => Ok(join_turn(found)),
        Deed::Stop => Ok(stop_turn(found)),
        Deed::Begin(_) | Deed::End => Ok(block_turn(found)),
    }
}
