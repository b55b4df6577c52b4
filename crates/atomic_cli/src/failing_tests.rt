//! Files and sinks that fail at each of their calls, and such that never fail.

use crate::schedule_tests::expect_inputs;
use crate::tests::{add_file, words_of};
use commands::run;
use edge::{MemFolder, MemSink, NeverFailsFolder, NeverFailsSink};
use std::alloc::Global;
use std::test::Fail;

/// A cell, workers that raise it, and a `main` that starts two of them.
const COUNTER: &str =
    "class Cell { int v guarded_by this; atomic void inc() { synchronized (this) { this.v = this.v + 1; } } } \
    class W implements Runnable { final Cell c; W(Cell c) { this.c = c; } public void run() { this.c.inc(); } } \
    class Main { void main() { final Cell c = new Cell(); new Thread(new W(c)).start(); new Thread(new W(c)).start(); } }";

/// What `check` writes of it, four bytes a call.
static PIECES: [&str; 19] = [
    "Cell", ".inc", " thi", "s ? ", "move", "r : ", "atom", "ic\nW", ".run", " thi", "s.c ",
    "? mo", "ver ", ": at", "omic", "\nMai", "n.ma", "in c", "mpd\n",
];

/// A field that nothing guards is written twice.
const UNGUARDED: &str = "class Main { int u; atomic void main() { this.u = 1; this.u = 2; } }";

const ENDLESS: &str = "class Main { void main() { while (true) { } } }";

/// The status of `check a` over this folder, and what the sink then holds.
fn checked(alloc: Global, mut folder: MemFolder, mut sink: MemSink) -> Result<(u8, Vec<u8>), Fail> {
    let words = words_of(alloc, &["check", "a"])?;
    let status = run(alloc, words.as_slice(), &mut folder, &mut sink);
    let text = sink.bytes().to_vec(alloc)?;
    Ok((status, text))
}

/// The numbers of calls: this one.
fn at(alloc: Global, call: u64) -> Result<Vec<u64>, Fail> {
    let mut calls = Vec::new(alloc);
    calls.push(call)?;
    Ok(calls)
}

/// A folder with this file `a`, which it gives in one call.
fn folder_of(alloc: Global, bytes: &[u8]) -> Result<MemFolder, Fail> {
    let mut files = Vec::new(alloc);
    add_file(alloc, &mut files, "a", bytes)?;
    Ok(MemFolder::new(alloc, files, 4096, Vec::new(alloc))?)
}

/// The same, which gives 64 bytes a call and fails at this one.
fn failing_folder(alloc: Global, bytes: &[u8], call: u64) -> Result<MemFolder, Fail> {
    let mut files = Vec::new(alloc);
    add_file(alloc, &mut files, "a", bytes)?;
    Ok(MemFolder::new(alloc, files, 64, at(alloc, call)?)?)
}

/// A sink that takes four bytes a call and fails at this one; at none where it is 0.
fn failing_sink(alloc: Global, call: u64) -> Result<MemSink, Fail> {
    Ok(MemSink::new(alloc, 4, at(alloc, call)?, 1048576)?)
}

/// Whether each write fails once, with the front that was written before.
#[test]
fn each_write_fails_once(rt: HostRuntime) -> Result<(), Fail> {
    let mut front = String::new(rt.alloc());
    let mut call = 0_u64;
    for piece in &PIECES {
        call = call.saturating_add(1);
        let folder = folder_of(rt.alloc(), COUNTER.as_bytes())?;
        let given = checked(rt.alloc(), folder, failing_sink(rt.alloc(), call)?)?;
        assert_eq!(rt; given.0, 7);
        assert_eq!(rt; given.1.as_slice(), front.as_bytes());
        front.push_str(piece)?;
    }
    let folder = folder_of(rt.alloc(), COUNTER.as_bytes())?;
    let given = checked(rt.alloc(), folder, failing_sink(rt.alloc(), 20)?)?;
    assert_eq!(rt; given.0, 0);
    assert_eq!(rt; given.1.as_slice(), front.as_bytes());
    Ok(())
}

#[test]
fn the_first_write_of_a_refusal_fails(rt: HostRuntime) -> Result<(), Fail> {
    let folder = folder_of(rt.alloc(), UNGUARDED.as_bytes())?;
    let given = checked(rt.alloc(), folder, failing_sink(rt.alloc(), 1)?)?;
    assert_eq!(rt; given.0, 7);
    assert_eq!(rt; given.1.as_slice(), "".as_bytes());
    Ok(())
}

/// The counter program has six fronts of 64 bytes, and one more read finds its end.
#[test]
fn each_read_fails_once(rt: HostRuntime) -> Result<(), Fail> {
    for call in 1..8_u64 {
        let folder = failing_folder(rt.alloc(), COUNTER.as_bytes(), call)?;
        let given = checked(rt.alloc(), folder, failing_sink(rt.alloc(), 0)?)?;
        assert_eq!(rt; given.0, 6);
        assert_eq!(rt; given.1.as_slice(), "cannot read a\n".as_bytes());
    }
    let folder = failing_folder(rt.alloc(), COUNTER.as_bytes(), 8)?;
    let given = checked(rt.alloc(), folder, failing_sink(rt.alloc(), 0)?)?;
    assert_eq!(rt; given.0, 0);
    Ok(())
}

#[test]
fn each_front_of_a_source_is_refused(rt: HostRuntime) -> Result<(), Fail> {
    let mut front = Vec::new(rt.alloc());
    for byte in COUNTER.as_bytes() {
        let folder = folder_of(rt.alloc(), front.as_slice())?;
        let given = checked(rt.alloc(), folder, failing_sink(rt.alloc(), 0)?)?;
        assert_eq!(rt; given.0, 1);
        front.push(*byte)?;
    }
    Ok(())
}

static LONGEST: [(&str, u8, &str); 2] = [
    (
        "0*200000",
        0,
        "0*200000\n# object 0:0 Main\n# thread 0 running Main.main 1\n",
    ),
    ("0*200001", 3, "schedule refused at byte 0: too long\n"),
];

#[test]
fn a_schedule_has_at_most_200000_entries(rt: HostRuntime) -> Result<(), Fail> {
    expect_inputs(&rt, rt.alloc(), "serialise", ENDLESS, &LONGEST)
}

/// A name without a file is an empty file for a folder that never fails.
#[test]
fn what_never_fails(rt: HostRuntime) -> Result<(), Fail> {
    let mut files = Vec::new(rt.alloc());
    add_file(rt.alloc(), &mut files, "a", COUNTER.as_bytes())?;
    let mut folder = NeverFailsFolder::new(files);
    let words = words_of(rt.alloc(), &["check", "z"])?;
    let mut sink = failing_sink(rt.alloc(), 0)?;
    let status = run(rt.alloc(), words.as_slice(), &mut folder, &mut sink);
    assert_eq!(rt; status, 1);
    assert_eq!(rt; sink.bytes(), "refused at 1:1: no main\n".as_bytes());
    let words = words_of(rt.alloc(), &["check", "a"])?;
    let mut dropped = NeverFailsSink::new();
    let status = run(rt.alloc(), words.as_slice(), &mut folder, &mut dropped);
    assert_eq!(rt; status, 0);
    Ok(())
}
