//! Reading a schedule.
ghost use Rattle.std.specs.Prelude.{◌≡◌, ◌<◌, ◌≤◌, ◌⊎◌, ◌++◌, ◌==◌, not, false, ℕ, List, length, replicate, MatchResult, IfOk, IfErr, OnOk, IsErrOf, Some, None};
ghost use Rattle.std.specs.List.{prefix_len};
ghost use Rattle.schedule.specs.Text.{Piece, IsSchedule, BeginsWithPiece, BeginsWithCount, piece_count, piece_of, ends_entry, is_schedule_blank};
ghost use Rattle.schedule.specs.Faults.{HasFormFault, HasLengthFault, IsReaderAnswer, form_fault, count_fault};

use crate::numbers::number_within;
use std::alloc::{AllocError, Global};

/// How many steps a schedule has at most.
const MOST_STEPS: usize = 200_000;

/// Why a text is no schedule. Places count bytes from 0.
#[derive(Clone, Copy, Debug, PartialEq, Eq)]
pub enum SchedFault {
    /// The text goes wrong at this byte.
    Form(u32),
    /// The entry that begins at this byte is the first with which there are more than 200,000 steps.
    TooLong(u32),
    /// There was no memory for the steps.
    NoMemory,
}

impl From<AllocError> for SchedFault {
    ghost use Rattle.std.specs.Prelude.{◌≡◌};
    ghost use Rattle.schedule.specs.declared.reader.SchedFault.TheVariants as faults;

    ghost from_gives = { λ _ fault. fault ≡ faults.NoMemory };

    fn from(_: AllocError) -> Self {
        SchedFault::NoMemory
    }
}

/// An entry at the front of a text, and its length in bytes.
#[derive(Clone, Copy)]
struct Entry {
    thread: u32,
    count: Option<u64>,
    length: usize,
}

/// Reads the text of a schedule, which has at most 16,777,216 bytes.
pub fn read_schedule(alloc: Global, bytes: &[u8]) -> Result<Vec<u32>, SchedFault>
    requires { length bytes.now ≤ 16777216 }

    // Each answer is right of the text.
    ensures schedule { IfOk result (λ schedule. IsSchedule bytes.now schedule.items) }
    ensures form { (place : ℕ) → IsErrOf result (SchedFault.Form place) → HasFormFault bytes.now place }
    ensures too_long { (place : ℕ) → IsErrOf result (SchedFault.TooLong place) → HasLengthFault bytes.now place }

    // It is the only right one, and is given where there is memory.
    ensures only_schedule { (schedule : List ℕ) → IsSchedule bytes.now schedule →
        MatchResult result (λ found. found.items ≡ schedule) (λ fault. fault ≡ SchedFault.NoMemory) }
    ensures only_form { (place : ℕ) → HasFormFault bytes.now place → MatchResult result (λ _. ⊥)
        (λ fault. (fault ≡ SchedFault.Form place) ⊎ (fault ≡ SchedFault.NoMemory)) }
    ensures only_too_long { (place : ℕ) → HasLengthFault bytes.now place → MatchResult result (λ _. ⊥)
        (λ fault. (fault ≡ SchedFault.TooLong place) ⊎ (fault ≡ SchedFault.NoMemory)) }
{
    read_pieces(alloc, bytes)
}

/// Reads a text piece by piece.
fn read_pieces(alloc: Global, bytes: &[u8]) -> Result<Vec<u32>, SchedFault>
    requires { length bytes.now ≤ 16777216 }
    ensures { IsReaderAnswer bytes.now result }
{
    let mut schedule = Vec::new(alloc);
    let mut at = 0;
    'pieces: while at < bytes.len() {
        let rest = &bytes[at..];
        let gap = gap_length(rest);
        if gap > 0 {
            at += gap;
            continue;
        }
        let entry = match read_entry(rest) {
            Ok(entry) => entry,
            Err(offset) => return Err(SchedFault::Form((at + offset) as u32)),
        };
        let count = entry.count.unwrap_or(1);
        if count > (MOST_STEPS - schedule.len()) as u64 {
            return Err(SchedFault::TooLong(at as u32));
        }
        push_steps(&mut schedule, entry.thread, count as usize)?;
        at += entry.length;
    }
    Ok(schedule)
}

/// The length of the blank or the comment that a text begins with, or 0.
fn gap_length(text: &[u8]) -> usize
    requires { 0 < length text.now }
    ensures gap { 0 < result → (piece : Piece) × BeginsWithPiece text.now piece result × (piece_count piece ≡ 0) }
    ensures none { result ≡ 0 → ends_entry text.now ≡ false }
    ensures within { result ≤ length text.now }
{
    if is_blank(text[0]) {
        return 1;
    }
    if text[0] == b'#' {
        return comment_length(text);
    }
    0
}

/// Whether a byte is a blank.
fn is_blank(byte: u8) -> bool
    ensures { result ≡ is_schedule_blank byte }
{
    byte == b' ' || byte == b'\t' || byte == b'\r' || byte == b'\n'
}

/// How many bytes stand before the first LF.
fn comment_length(text: &[u8]) -> usize
    ensures length { result ≡ prefix_len (λ byte. not (byte == 10)) text.now }
    ensures within { result ≤ length text.now }
{
    text.iter().take_while(|byte| **byte != b'\n').count()
}

/// Whether an entry may end before a text.
fn ends_entry(text: &[u8]) -> bool
    ensures { result ≡ ends_entry text.now }
{
    match text.first() {
        None => true,
        Some(byte) => is_blank(*byte) || *byte == b'#',
    }
}

/// The entry that a text begins with, or the place of its fault.
fn read_entry(text: &[u8]) -> Result<Entry, usize>
    requires { ends_entry text.now ≡ false }
    ensures fault { IfErr result (λ offset. form_fault text.now ≡ Some offset) }
    ensures inside { IfErr result (λ offset. offset ≤ length text.now) }
    ensures entry { IfOk result (λ entry. BeginsWithPiece text.now (piece_of entry.thread entry.count) entry.length) }
    ensures some { IfOk result (λ entry. 0 < entry.length) }
{
    let number = number_within(text, 0, u32::MAX as u64);
    let Some(thread) = number.value else {
        return Err(0);
    };
    let rest = &text[number.length..];
    if ends_entry(rest) {
        return Ok(Entry {
            thread: thread as u32,
            count: None,
            length: number.length,
        });
    }
    if rest[0] != b'*' {
        return Err(number.length);
    }
    match read_count(&rest[1..]) {
        Ok((count, digits)) => Ok(Entry {
            thread: thread as u32,
            count: Some(count),
            length: number.length + 1 + digits,
        }),
        Err(offset) => Err(number.length + 1 + offset),
    }
}

/// The count that a text begins with and its length, or the place of its fault.
fn read_count(text: &[u8]) -> Result<(u64, usize), usize>
    ensures fault { IfErr result (λ offset. count_fault text.now ≡ Some offset) }
    ensures inside { IfErr result (λ offset. offset ≤ length text.now) }
    ensures count { IfOk result (λ found. BeginsWithCount text.now found.0 found.1) }
{
    let number = number_within(text, 1, u64::MAX);
    let Some(count) = number.value else {
        return Err(0);
    };
    if ends_entry(&text[number.length..]) {
        return Ok((count, number.length));
    }
    Err(number.length)
}

/// Adds steps of one thread.
fn push_steps(schedule: &mut Vec<u32>, thread: u32, count: usize) -> Result<(), AllocError>
    ensures { OnOk result (schedule.new.items ≡ schedule.old.items ++ replicate count thread) }
{
    for _step in 0..count {
        schedule.push(thread)?;
    }
    Ok(())
}
