//! The notes behind the first line. Of a block that may be cut: where it begins, the event after which others may see it, and what
//! would help, at the line that is refused. Of a block that is open at the end: where it begins. No contract says which words they have.
#![tactic(auto, using(crate::proofs::NoteLines::one_note))]

ghost use Rattle.std.specs.Prelude.{◌≡◌, ◌++◌, map, IfOk, OnOk};
ghost use Rattle.edge.specs.Lines.{joined_texts};
ghost use Rattle.logs.specs.Noting.{refusal_data};
ghost use Rattle.trace_commands.specs.NoteLines.{AreNotes, AreNotesOn, AreNotesUpTo, AddsNote, noted_line};

use crate::lines::add_number;
use logs::{Deed, Guard, Guards, Refusal, Said, Walk};
use std::alloc::{AllocError as NoMemory, Global};

/// Adds these pieces.
fn add_all(text: &mut Vec<u8>, pieces: &[&[u8]]) -> Result<(), NoMemory>
    ensures { OnOk result (text.new.items ≡ text.old.items ++ joined_texts (map (λ piece. piece.now) pieces.now)) }
{
    for piece in pieces {
        text.extend_from_slice(piece)?;
    }
    Ok(())
}

/// Adds `FILE:LINE: note: WORDS` to a text, where the words are these pieces.
fn add_note(text: &mut Vec<u8>, name: &str, line: u64, pieces: &[&[u8]]) -> Result<(), NoMemory>
    ensures words { OnOk result (text.new.items ≡ text.old.items ++ noted_line name.now line (joined_texts (map (λ piece. piece.now) pieces.now))) }
    ensures noted { OnOk result (AddsNote name.now line text.old.items text.new.items) }
{
    text.extend_from_slice(name.as_bytes())?;
    text.extend_from_slice(b":")?;
    add_number(text, line)?;
    text.extend_from_slice(b": note: ")?;
    add_all(text, pieces)?;
    text.extend_from_slice(b"\n")
}

/// Adds what would help an access.
fn add_access(
    text: &mut Vec<u8>,
    name: &str,
    line: u64,
    guards: &Guards,
    thread: &[u8],
    place: &[u8],
) -> Result<(), NoMemory>
    ensures { OnOk result (AddsNote name.now line text.old.items text.new.items) }
{
    match guards.places.get(place) {
        Some(Guard::ByLock(lock)) => {
            add_note(
                text,
                name,
                line,
                &[
                    place,
                    b" is guarded by ",
                    lock.as_slice(),
                    b", which ",
                    thread,
                    b" does not hold here",
                ],
            )
        }
        Some(Guard::ByThread(user)) => add_note(
            text,
            name,
            line,
            &[place, b" is used by ", user.as_slice(), b" alone"],
        ),
        _ => add_note(
            text,
            name,
            line,
            &[
                b"nothing guards ",
                place,
                b": a lock that is held at each access would help",
            ],
        ),
    }
}

/// Adds what would help an event on this line that doesn't fit its block.
fn add_help(
    text: &mut Vec<u8>,
    name: &str,
    line: u64,
    guards: &Guards,
    said: &Said<'_>,
) -> Result<(), NoMemory>
    ensures { OnOk result (AddsNote name.now line text.old.items text.new.items) }
{
    match said.deed {
        Deed::Take(lock) => add_note(
            text,
            name,
            line,
            &[
                b"it takes ",
                lock,
                b" here: held from the beginning of the block on it would help",
            ],
        ),
        Deed::Read(place, _) => add_access(text, name, line, guards, said.thread, place),
        Deed::Write(place, _) => add_access(text, name, line, guards, said.thread, place),
        Deed::Change(place, _, _) => add_access(text, name, line, guards, said.thread, place),
        _ => add_note(
            text,
            name,
            line,
            &[b"no guard helps: it waits for another thread here"],
        ),
    }
}

/// Adds where a thread's block begins, where it is inside of so many.
fn add_begin(
    text: &mut Vec<u8>,
    name: &str,
    walk: &Walk,
    thread: &[u8],
    depth: u64,
) -> Result<(), NoMemory>
    ensures { OnOk result (AreNotes name.now text.old.items → AreNotes name.now text.new.items) }
{
    if depth == 0 {
        return Ok(());
    }
    match walk.block(thread) {
        Some(block) => add_note(
            text,
            name,
            block.line,
            &[block.name.as_slice(), b" begins here"],
        ),
        None => Ok(()),
    }
}

/// Adds the event after which others may see a block, where there is one.
fn add_commit(text: &mut Vec<u8>, name: &str, commit: u64) -> Result<(), NoMemory>
    ensures { OnOk result (AreNotes name.now text.old.items → AreNotes name.now text.new.items) }
{
    if commit == 0 {
        return Ok(());
    }
    add_note(
        text,
        name,
        commit,
        &[b"after this event others may see the block"],
    )
}

/// The note on a block that a thread is still inside of at the end.
pub fn note_at_end(
    alloc: Global,
    name: &str,
    walk: &Walk,
    thread: &[u8],
) -> Result<Vec<u8>, NoMemory>
    ensures { IfOk result (λ text. AreNotes name.now text.items) }
{
    let mut text = Vec::new(alloc);
    add_begin(&mut text, name, walk, thread, 1)?;
    Ok(text)
}

/// The notes on a block that may be cut before the line in which a walk stands, which says this.
fn notes_on_cut(
    alloc: Global,
    name: &str,
    walk: &Walk,
    guards: &Guards,
    said: &Said<'_>,
) -> Result<Vec<u8>, NoMemory>
    ensures { IfOk result (λ text. AreNotesUpTo name.now walk.now.line text.items) }
{
    let phase = walk.judge().phase(said.thread);
    let mut text = Vec::new(alloc);
    add_begin(&mut text, name, walk, said.thread, phase.depth)?;
    add_commit(&mut text, name, phase.commit)?;
    add_help(&mut text, name, walk.line(), guards, said)?;
    Ok(text)
}

/// The notes on the line in which a walk stands, which says this; none but for a block that may be cut.
pub fn notes_on(
    alloc: Global,
    name: &str,
    walk: &Walk,
    guards: &Guards,
    said: &Said<'_>,
    why: Refusal,
) -> Result<Vec<u8>, NoMemory>
    ensures notes { IfOk result (λ text. AreNotes name.now text.items) }
    ensures which { IfOk result (λ text. AreNotesOn name.now walk.now.line (refusal_data why) text.items) }
{
    match why {
        Refusal::Cut => notes_on_cut(alloc, name, walk, guards, said),
        Refusal::HasEnded | Refusal::NoBlock | Refusal::Impossible => Ok(Vec::new(alloc)),
    }
}
