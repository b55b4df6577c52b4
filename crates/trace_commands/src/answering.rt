//! What is answered to a log.
ghost use Rattle.std.specs.Prelude.{◌≡◌, ◌++◌, ℕ, List, Option, Some, IfOk};
ghost use Rattle.logs.specs.Noting.{refusal_data};
ghost use Rattle.logs.specs.Said.{SaidData, said_of};
ghost use Rattle.edge.specs.Lines.{cannot_read_line as unread_line, too_large_line as over_line};
ghost use Rattle.trace_commands.specs.Lines.{fault_line as fault_line_of, no_line_kind, open_kind as open_kind_of, refused_kind as refused_kind_of, refused_status as refused_status_of};
ghost use Rattle.logs.specs.Stops.{stand_of, IsEnd};
ghost use Rattle.logs.specs.Walks.{Stands, WalkedTo, front, walked};
ghost use Rattle.logs.specs.Logs.{Guard};
ghost use Rattle.logs.specs.Views.{guards_data};
ghost use Rattle.log_reading.specs.Reading.{IsReadEnd};
ghost use Rattle.trace_commands.specs.NoteLines.{AreNotes};
ghost use Rattle.trace_commands.specs.Outcomes.{Answers, IsCountedLog, IsGivenBy, IsGuessed, is_some_other, IsTraceOutcome, longest_file};

use crate::lines::{fault_line, open_kind, refused_kind, refused_status};
use crate::notes::{note_at_end, notes_on};
use edge::{Folder, cannot_read_line, too_large_line};
use log_reading::{ReadEnd, walk_file};
use logs::{Guards, Refusal, Walk, WalkEnd, read_line};
use std::alloc::{AllocError as NoMemory, Global};

/// The most bytes that a log or a file of guards may have: 256 MB.
pub const LONGEST: u32 = 268_435_456;

/// The status and the text with which it ends.
#[derive(Drop)]
pub struct Outcome {
    pub status: u8,
    pub text: Vec<u8>,
}

/// A row that is no line of a log.
fn no_line(alloc: Global, log: &str, line: u64) -> Result<Outcome, NoMemory>
    ensures { IfOk result (λ o. (o.status ≡ 1) × (o.text.items ≡ fault_line_of log.now line no_line_kind)) }
{
    let text = fault_line(alloc, log, line, b"not a line of a log")?;
    Ok(Outcome { status: 1, text })
}

/// A thread is still inside a block at the end.
fn open_block(alloc: Global, log: &str, walk: &Walk, thread: &[u8]) -> Result<Outcome, NoMemory>
    ensures { IfOk result (λ o. (o.status ≡ 4) × ((notes : List ℕ) × AreNotes log.now notes × (o.text.items ≡ fault_line_of log.now walk.now.line (open_kind_of thread.now) ++ notes))) }
{
    let kind = open_kind(alloc, thread)?;
    let mut text = fault_line(alloc, log, walk.line(), kind.as_slice())?;
    let notes = note_at_end(alloc, log, walk, thread)?;
    text.extend_from_slice(notes.as_slice())?;
    Ok(Outcome { status: 4, text })
}

/// A judge has come to the end.
fn ended(alloc: Global, log: &str, walk: &Walk) -> Result<Outcome, NoMemory>
    ensures { (guard : ℕ → Guard) (bytes : List ℕ) → walked guard front bytes ≡ Stands (stand_of walk.now) →
        IfOk result (λ o. Answers guard log.now bytes o.status o.text.items) }
{
    if !walk.row().is_empty() {
        return no_line(alloc, log, walk.line());
    }
    match walk.judge().open_thread() {
        Some(thread) => open_block(alloc, log, walk, thread),
        None => {
            let text = Vec::from_slice(alloc, b"serial\n")?;
            Ok(Outcome { status: 0, text })
        }
    }
}

/// A line is refused.
fn refused(
    alloc: Global,
    log: &str,
    walk: &Walk,
    guards: &Guards,
    why: Refusal,
) -> Result<Outcome, NoMemory>
    ensures { (said : SaidData) → said_of walk.now.row.items ≡ Some said → IfOk result (λ o. (o.status ≡ refused_status_of (refusal_data why)) ×
        (notes : List ℕ) × AreNotes log.now notes × (o.text.items ≡ fault_line_of log.now walk.now.line (refused_kind_of said (refusal_data why)) ++ notes)) }
{
    let Some(said) = read_line(walk.row()) else {
        return Err(NoMemory);
    };
    let kind = refused_kind(alloc, &said, why)?;
    let mut text = fault_line(alloc, log, walk.line(), kind.as_slice())?;
    let notes = notes_on(alloc, log, walk, guards, &said, why)?;
    text.extend_from_slice(notes.as_slice())?;
    Ok(Outcome {
        status: refused_status(why),
        text,
    })
}

/// A judge has stopped.
fn stopped(
    alloc: Global,
    log: &str,
    walk: &Walk,
    guards: &Guards,
    end: WalkEnd,
) -> Result<Outcome, NoMemory>
    ensures { (guard : ℕ → Guard) (bytes : List ℕ) (w : WalkedTo) → walked guard front bytes ≡ w → IsEnd (stand_of walk.now) w end →
        IfOk result (λ o. Answers guard log.now bytes o.status o.text.items) }
{
    match end {
        WalkEnd::NoLine => no_line(alloc, log, walk.line()),
        WalkEnd::Refused(why) => refused(alloc, log, walk, guards, why),
        WalkEnd::NoMemory => Err(NoMemory),
    }
}

/// A file can't be read.
pub fn unread(alloc: Global, name: &str) -> Result<Outcome, NoMemory>
    ensures { IfOk result (λ o. (o.status ≡ 6) × (o.text.items ≡ unread_line name.now)) }
{
    let text = cannot_read_line(alloc, name)?;
    Ok(Outcome {
        status: 6,
        text: text.into_bytes(),
    })
}

/// A file is over its limit.
pub fn over(alloc: Global, name: &str) -> Result<Outcome, NoMemory>
    ensures { IfOk result (λ o. (o.status ≡ 10) × (o.text.items ≡ over_line name.now)) }
{
    let text = too_large_line(alloc, name)?;
    Ok(Outcome {
        status: 10,
        text: text.into_bytes(),
    })
}

/// Whether a log that was read once more has another number of bytes than before.
fn is_other(before: Option<u64>, many: u64) -> bool
    ensures { result ≡ is_some_other before many }
{
    match before {
        Some(before) => before != many,
        None => false,
    }
}

/// A judge has come to the end of a log of so many bytes, of which so many were read before.
fn counted(
    alloc: Global,
    log: &str,
    walk: &Walk,
    before: Option<u64>,
    many: u64,
) -> Result<Outcome, NoMemory>
    ensures { (guard : ℕ → Guard) (bytes : List ℕ) → walked guard front bytes ≡ Stands (stand_of walk.now) →
        IfOk result (λ o. IsCountedLog guard log.now bytes before many o.status o.text.items) }
{
    if is_other(before, many) {
        return unread(alloc, log);
    }
    ended(alloc, log, walk)
}

/// What is answered to a log that was not read to its end.
fn unended(
    alloc: Global,
    log: &str,
    walk: &Walk,
    guards: &Guards,
    end: ReadEnd,
) -> Result<Outcome, NoMemory>
    ensures { (asked : Option (List ℕ)) (told : List ℕ → Option (List ℕ)) (before now : List ℕ → ℕ) → IsGivenBy asked told (guards_data guards.now) →
        IsReadEnd (guards_data guards.now) (told log.now) longest_file (before log.now) (now log.now) (stand_of walk.now) end →
        IfOk result (λ o. IsTraceOutcome log.now asked told before now o.status o.text.items) }
{
    match end {
        ReadEnd::Walk(end) => stopped(alloc, log, walk, guards, end),
        ReadEnd::Fault => unread(alloc, log),
        ReadEnd::TooLarge => over(alloc, log),
    }
}

/// What is answered to a log, as this walk goes through it.
fn answered<F: Folder>(
    alloc: Global,
    folder: &mut F,
    log: &str,
    guards: &Guards,
    before: Option<u64>,
    walk: &mut Walk,
) -> Result<Outcome, NoMemory>
    requires guessed { IsGuessed (F.told folder.old log.now) before }
    requires start { stand_of walk.old ≡ front }
    ensures { (asked : Option (List ℕ)) → IsGivenBy asked (F.told folder.old) (guards_data guards.now) →
        IfOk result (λ o. IsTraceOutcome log.now asked (F.told folder.old) (F.faults folder.old) (F.faults folder.new) o.status o.text.items) }
{
    match walk_file(alloc, folder, log, LONGEST, guards, walk) {
        Ok(many) => counted(alloc, log, walk, before, many),
        Err(end) => unended(alloc, log, walk, guards, end),
    }
}

/// What is answered to a log with these guards, where so many bytes of it were read to guess them.
pub fn judged<F: Folder>(
    alloc: Global,
    folder: &mut F,
    log: &str,
    guards: &Guards,
    before: Option<u64>,
) -> Result<Outcome, NoMemory>
    requires { IsGuessed (F.told folder.old log.now) before }
    ensures { (asked : Option (List ℕ)) → IsGivenBy asked (F.told folder.old) (guards_data guards.now) →
        IfOk result (λ o. IsTraceOutcome log.now asked (F.told folder.old) (F.faults folder.old) (F.faults folder.new) o.status o.text.items) }
{
    let mut walk = Walk::new(alloc);
    answered(alloc, folder, log, guards, before, &mut walk)
}
