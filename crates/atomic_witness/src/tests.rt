//! What the program answers, over a folder and a sink in memory.

use edge::{MemFolder, MemSink};
use std::alloc::Global;
use std::process::Abort;
use std::test::Fail;
use witness_commands::run;

/// Two workers that add one each to a number that nothing guards, in one atomic call each.
const RACE: &str =
    "class Cell { int v; atomic void add() { this.v = this.v + 1; } } class Worker implements Runnable { final Cell cell; Worker(Cell cell) { this.cell = cell; } public void run() { this.cell.add(); } } class Main { void main() { final Cell cell = new Cell(); new Thread(new Worker(cell)).start(); new Thread(new Worker(cell)).start(); } }";

/// What is written for words that ask for nothing.
const USAGE: &str = "usage: atomic_witness FILE [SCHEDULE]\n";

/// Schedules of the race, each with its status and text. The second one leaves what one worker alone would leave, too: so no order of its
/// entries leaves that, but another schedule does.
static JUDGED: [(&str, u8, &str); 5] = [
    ("0*10 1*12 2*12", 0, "0*10 1*12 2*12\n"),
    (
        "0*10 1*7 2*12 1*5",
        2,
        "broken: no order of its entries that interrupts no atomic call leaves this\n",
    ),
    ("0*", 3, "schedule refused at byte 2: form\n"),
    ("3", 4, "entry 1: thread 3 is absent\n"),
    ("0*10 1*4", 5, "thread 1 is inside an atomic call\n"),
];

/// Words, each with its status and text, where the file `a` is the race and there is no other.
static ASKED: [(&[&str], u8, &str); 4] = [
    (&[], 9, USAGE),
    (&["a", "s", "s"], 9, USAGE),
    (&["b", "s"], 6, "cannot read b\n"),
    (&["b"], 6, "cannot read b\n"),
];

/// Sources, each with what is found in it: the race; two workers that take a lock; the race in a loop, whose steps outside of the
/// calls nobody else sees, and aren't mixed; what is no source.
static SOUGHT: [(&str, u8, &str); 4] = [
    (
        RACE,
        2,
        "0*10 1*7 2*12 1*5\n# broken: no order of its entries that interrupts no atomic call leaves this\n",
    ),
    (
        "class Cell { int v guarded_by this; atomic void add() { synchronized (this) { this.v = this.v + 1; } } } class Worker implements Runnable { final Cell cell; Worker(Cell cell) { this.cell = cell; } public void run() { this.cell.add(); } } class Main { void main() { final Cell cell = new Cell(); new Thread(new Worker(cell)).start(); new Thread(new Worker(cell)).start(); } }",
        16,
        "no witness found: 50 schedules were tried\n",
    ),
    (
        "class Cell { int v; atomic void add() { this.v = this.v + 1; } } class Worker implements Runnable { final Cell cell; Worker(Cell cell) { this.cell = cell; } public void run() { int i = 0; while (i < 12) { this.cell.add(); i = i + 1; } } } class Main { void main() { final Cell cell = new Cell(); new Thread(new Worker(cell)).start(); new Thread(new Worker(cell)).start(); } }",
        2,
        "0*10 1*13 2*224 1*211\n# broken: no order of its entries that interrupts no atomic call leaves this\n",
    ),
    ("class", 1, "refused at 1:6: unexpected\n"),
];

/// The status and the text of the words, where the files `a` and `s` have these bytes.
fn answer(
    alloc: Global,
    words: &[&str],
    source: &str,
    schedule: &str,
) -> Result<(u8, Vec<u8>), Fail> {
    let mut list = Vec::new(alloc);
    for word in words {
        list.push(String::from_str(alloc, word)?)?;
    }
    let mut files = Vec::new(alloc);
    files.push((
        String::from_str(alloc, "a")?,
        source.as_bytes().to_vec(alloc)?,
    ))?;
    files.push((
        String::from_str(alloc, "s")?,
        schedule.as_bytes().to_vec(alloc)?,
    ))?;
    let mut folder = MemFolder::new(alloc, files, 4096, Vec::new(alloc))?;
    let mut sink = MemSink::new(alloc, 1048576, Vec::new(alloc), 1048576)?;
    let status = run(alloc, list.as_slice(), &mut folder, &mut sink);
    let text = sink.bytes().to_vec(alloc)?;
    Ok((status, text))
}

/// The words have this status and this text.
fn expect(
    rt: &impl Abort,
    alloc: Global,
    words: &[&str],
    schedule: &str,
    status: u8,
    text: &str,
) -> Result<(), Fail> {
    let given = answer(alloc, words, RACE, schedule)?;
    assert_eq!(rt; given.0, status);
    assert_eq!(rt; given.1.as_slice(), text.as_bytes());
    Ok(())
}

#[test]
fn schedules_are_judged(rt: HostRuntime) -> Result<(), Fail> {
    for (schedule, status, text) in &JUDGED {
        expect(&rt, rt.alloc(), &["a", "s"], schedule, *status, text)?;
    }
    Ok(())
}

#[test]
fn witnesses_are_sought(rt: HostRuntime) -> Result<(), Fail> {
    for (source, status, text) in &SOUGHT {
        let given = answer(rt.alloc(), &["a"], source, "0")?;
        assert_eq!(rt; given.0, *status);
        assert_eq!(rt; given.1.as_slice(), text.as_bytes());
    }
    Ok(())
}

#[test]
fn words_are_answered(rt: HostRuntime) -> Result<(), Fail> {
    for (words, status, text) in &ASKED {
        expect(&rt, rt.alloc(), words, "0", *status, text)?;
    }
    Ok(())
}
