//! What the program answers to `serialise-open`.

use crate::schedule_tests::{answer_failing, expect, expect_inputs};
use crate::tests::counter;
use std::alloc::Global;
use std::process::Abort;
use std::test::Fail;

/// The counter program whose calls fault after they freed the lock.
const FAULTS_AFTER: &str =
    "class Cell { int v guarded_by this; atomic void inc() { synchronized (this) { this.v = this.v + 1; } int x = 1 / 0; } } \
    class W implements Runnable { final Cell c; W(Cell c) { this.c = c; } public void run() { this.c.inc(); } } \
    class Main { void main() { final Cell c = new Cell(); new Thread(new W(c)).start(); new Thread(new W(c)).start(); } }";

/// The counter program whose calls fault before they take the lock.
const FAULTS_BEFORE: &str =
    "class Cell { int v guarded_by this; atomic void inc() { int x = 1 / 0; synchronized (this) { this.v = this.v + 1; } } } \
    class W implements Runnable { final Cell c; W(Cell c) { this.c = c; } public void run() { this.c.inc(); } } \
    class Main { void main() { final Cell c = new Cell(); new Thread(new W(c)).start(); new Thread(new W(c)).start(); } }";

/// A program whose one call never ends.
const ENDLESS: &str = "class Main { atomic void main() { while (true) { } } }";

/// Schedules of the counter program, each with the status and the text.
static OPENED: [(&str, u8, &str); 7] = [
    // The first worker holds the lock, and its call made no Left or Other step: it comes last.
    (
        "0*10 1*4 2*15 1*2",
        0,
        "0*10 1*3 2*15 1*3\n# object 0:0 Main\n# object 0:1 Cell v=1\n# object 0:2 W c=0:1\n# object 0:3 W c=0:1\n\
        # lock 0:1 thread 1 count 1\n# thread 0 done\n# thread 1 running Cell.inc 2\n# thread 2 done\n",
    ),
    // The first worker freed the lock: its call stands at that step.
    (
        "0*10 1*12 2*5 1 2*10",
        0,
        "0*10 1*3 2*3 1*10 2*12\n# object 0:0 Main\n# object 0:1 Cell v=2\n# object 0:2 W c=0:1\n# object 0:3 W c=0:1\n\
        # thread 0 done\n# thread 1 running Cell.inc 2\n# thread 2 done\n",
    ),
    // Two calls that don't commit, the second thread's first: they come in the order of their threads.
    (
        "0*10 2*5 1*5",
        0,
        "0*10 2*3 1*5 2*2\n# object 0:0 Main\n# object 0:1 Cell v=0\n# object 0:2 W c=0:1\n# object 0:3 W c=0:1\n\
        # thread 0 done\n# thread 1 running Cell.inc 2\n# thread 2 running Cell.inc 2\n",
    ),
    ("", 0, "\n# object 0:0 Main\n# thread 0 ready\n"),
    ("0*3 5", 4, "entry 4: thread 5 is absent\n"),
    (
        "0*10 1*6 2*6",
        4,
        "entry 22: thread 2 waits for 0:1 held by 1\n",
    ),
    ("0 x", 3, "schedule refused at byte 2: form\n"),
];

#[test]
fn serialise_open_puts_open_calls_in_one_piece(rt: HostRuntime) -> Result<(), Fail> {
    let source = counter(rt.alloc(), "", "", "")?;
    expect_inputs(&rt, rt.alloc(), "serialise-open", source.as_str(), &OPENED)
}

/// A schedule of a thread that faulted inside its call after it had freed the lock, and its text.
static FAULTED_AFTER: [(&str, u8, &str); 1] = [(
    "0*10 1*4 2 1*12 2*2",
    0,
    "0*10 1*3 2 1*13 2*2\n# object 0:0 Main\n# object 0:1 Cell v=1\n# object 0:2 W c=0:1\n# object 0:3 W c=0:1\n\
    # thread 0 done\n# thread 1 faulted zero\n# thread 2 running W.run 1\n",
)];

/// Schedules of threads that faulted inside their calls before they took the lock, each with its text.
static FAULTED_BEFORE: [(&str, u8, &str); 2] = [
    (
        "0*10 1*4 2 1*3 2*2",
        0,
        "0*10 1*3 2*3 1*4\n# object 0:0 Main\n# object 0:1 Cell v=0\n# object 0:2 W c=0:1\n# object 0:3 W c=0:1\n\
        # thread 0 done\n# thread 1 faulted zero\n# thread 2 running W.run 1\n",
    ),
    (
        "0*10 2*4 1*4 2*3 1*3",
        0,
        "0*10 2*3 1*7 2*4\n# object 0:0 Main\n# object 0:1 Cell v=0\n# object 0:2 W c=0:1\n# object 0:3 W c=0:1\n\
        # thread 0 done\n# thread 1 faulted zero\n# thread 2 faulted zero\n",
    ),
];

#[test]
fn a_thread_that_faulted_inside_has_an_open_call(rt: HostRuntime) -> Result<(), Fail> {
    expect_inputs(
        &rt,
        rt.alloc(),
        "serialise-open",
        FAULTS_AFTER,
        &FAULTED_AFTER,
    )?;
    expect_inputs(
        &rt,
        rt.alloc(),
        "serialise-open",
        FAULTS_BEFORE,
        &FAULTED_BEFORE,
    )
}

/// Schedules of one call that never ends, each with the status and the text.
static OF_ONE_CALL: [(&str, u8, &str); 2] = [
    (
        "0*200000",
        0,
        "0*200000\n# object 0:0 Main\n# thread 0 running Main.main 1\n",
    ),
    ("0*200001", 3, "schedule refused at byte 0: too long\n"),
];

#[test]
fn a_call_may_be_as_long_as_a_schedule(rt: HostRuntime) -> Result<(), Fail> {
    expect_inputs(&rt, rt.alloc(), "serialise-open", ENDLESS, &OF_ONE_CALL)
}

/// Where no thread ends inside, both commands write the same.
fn expect_same(rt: &impl Abort, alloc: Global, source: &str, schedule: &str) -> Result<(), Fail> {
    let input = schedule.as_bytes();
    let given = answer_failing(alloc, "serialise", source, input, Vec::new(alloc))?;
    assert_eq!(rt; given.0, 0);
    expect(
        rt,
        alloc,
        "serialise-open",
        source,
        input,
        (0, given.1.as_slice()),
    )
}

#[test]
fn a_schedule_that_ends_outside_is_serialised(rt: HostRuntime) -> Result<(), Fail> {
    let source = counter(rt.alloc(), "", "", "")?;
    let schedule = "0*10 1*4 2*4 1*2 2 1*7 2 1 2*8 1 2";
    expect_same(&rt, rt.alloc(), source.as_str(), schedule)
}

/// Sources that are no accepted ones, each with the status and the text.
static REFUSED: [(&str, u8, &str); 2] = [
    ("class", 1, "refused at 1:6: unexpected\n"),
    (
        "class Main { int v; atomic void main() { this.v = 1; this.v = 2; } }",
        2,
        "Main.main: declared atomic, found cmpd\n",
    ),
];

#[test]
fn a_source_that_is_not_accepted_is_refused(rt: HostRuntime) -> Result<(), Fail> {
    for (source, status, text) in &REFUSED {
        expect(
            &rt,
            rt.alloc(),
            "serialise-open",
            source,
            &[],
            (*status, text.as_bytes()),
        )?;
    }
    Ok(())
}
