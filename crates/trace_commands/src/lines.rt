//! The first lines that are written.
ghost use Rattle.std.specs.Prelude.{◌≡◌, ◌++◌, IfOk, OnOk, decimal};
ghost use Rattle.logs.specs.Noting.{refusal_data};
ghost use Rattle.logs.specs.Said.{deed_data, said_data};
ghost use Rattle.trace_commands.specs.Lines as says;

use itoa::Buffer;
use logs::{Deed, Refusal, Said};
use std::alloc::{AllocError as NoMemory, Global};

/// What is written for words that ask for nothing.
pub const USAGE: &[u8] = b"usage: atomic_trace LOG [--guards FILE]\n";

/// Adds the decimal digits of a number.
pub fn add_number(text: &mut Vec<u8>, number: u64) -> Result<(), NoMemory>
    ensures { OnOk result (text.new.items ≡ text.old.items ++ decimal number) }
{
    let mut digits = Buffer::new();
    text.extend_from_slice(digits.format(number).as_bytes())
}

/// `FILE:LINE: error: KIND`.
pub fn fault_line(alloc: Global, name: &str, line: u64, kind: &[u8]) -> Result<Vec<u8>, NoMemory>
    ensures { IfOk result (λ text. text.items ≡ says.fault_line name.now line kind.now) }
{
    let mut text = Vec::from_slice(alloc, name.as_bytes())?;
    text.extend_from_slice(b":")?;
    add_number(&mut text, line)?;
    text.extend_from_slice(b": error: ")?;
    text.extend_from_slice(kind)?;
    text.extend_from_slice(b"\n")?;
    Ok(text)
}

/// Why a deed can't have happened.
fn impossible_kind(deed: Deed<'_>) -> &'static str
    ensures { result.now ≡ says.impossible_kind (deed_data deed.entry) }
{
    match deed {
        Deed::Take(_) => "this can't have happened: the lock is held by another",
        Deed::Give(_) => "this can't have happened: the lock is not held by this thread",
        Deed::Start(_) => "this can't have happened: the thread was there already",
        Deed::Join(_) => "this can't have happened: the thread has not ended",
        Deed::Read(_, _) => "this can't have happened: the place holds another value",
        Deed::Write(_, _) => "this can't have happened: the place holds another value",
        Deed::Change(_, _, _) => "this can't have happened: the place holds another value",
        Deed::Stop => "this can't have happened: the thread has ended",
        Deed::Begin(_) => "this can't have happened: the thread has ended",
        Deed::End => "this can't have happened: the thread has ended",
    }
}

/// A word and what is said of it.
fn of_word(alloc: Global, word: &[u8], said: &str) -> Result<Vec<u8>, NoMemory>
    ensures { IfOk result (λ text. text.items ≡ word.now ++ said.now) }
{
    let mut text = Vec::from_slice(alloc, word)?;
    text.extend_from_slice(said.as_bytes())?;
    Ok(text)
}

/// Why a line is refused.
pub fn refused_kind(alloc: Global, said: &Said<'_>, why: Refusal) -> Result<Vec<u8>, NoMemory>
    ensures { IfOk result (λ text. text.items ≡ says.refused_kind (said_data said.now) (refusal_data why)) }
{
    match why {
        Refusal::HasEnded => of_word(alloc, b"", "this can't have happened: the thread has ended"),
        Refusal::NoBlock => of_word(alloc, b"", "this can't have happened: no block is open"),
        Refusal::Impossible => of_word(alloc, b"", impossible_kind(said.deed)),
        Refusal::Cut => of_word(alloc, said.thread, " may be cut before this event"),
    }
}

/// A thread is inside a block at the end.
pub fn open_kind(alloc: Global, thread: &[u8]) -> Result<Vec<u8>, NoMemory>
    ensures { IfOk result (λ text. text.items ≡ says.open_kind thread.now) }
{
    of_word(alloc, thread, " is still inside a block at the end")
}

/// The status with which a line is refused.
pub fn refused_status(why: Refusal) -> u8
    ensures { result ≡ says.refused_status (refusal_data why) }
{
    match why {
        Refusal::HasEnded | Refusal::NoBlock | Refusal::Impossible => 3,
        Refusal::Cut => 2,
    }
}
