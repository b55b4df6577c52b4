//! What the program answers to the rows on schedules.

use crate::tests::{add_file, answer_over, counter};
use std::alloc::Global;
use std::process::Abort;
use std::test::Fail;

const PRINTS: &str =
    "class Main { void main() { System.out.println(-2147483648 / -1); System.out.println(-7 % 3); System.out.println(1 / 0); } }";

const NESTED: &str =
    "class Main { int v guarded_by this; atomic void main() { synchronized (this) { synchronized (this) { this.v = 7; } } } }";

const TWO_LOCKS: &str =
    "class Main { int v guarded_by this; int f() { synchronized (this) { synchronized (this) { return this.v; } } } \
    void main() { System.out.println(this.f()); } }";

const STARTS_NULL: &str =
    "class W implements Runnable { public void run() { } } class Main { W w; void main() { new Thread(this.w).start(); } }";

const DEEP: &str = "class Main { void f() { this.f(); } void main() { this.f(); } }";

const ENDLESS: &str = "class Main { void main() { while (true) { } } }";

/// The status and the text of a command on the source `a` and the text `b`; the folder fails at these calls.
pub fn answer_failing(
    alloc: Global,
    command: &str,
    source: &str,
    text: &[u8],
    fail: Vec<u64>,
) -> Result<(u8, Vec<u8>), Fail> {
    let mut files = Vec::new(alloc);
    add_file(alloc, &mut files, "a", source.as_bytes())?;
    add_file(alloc, &mut files, "b", text)?;
    answer_over(alloc, &[command, "a", "b"], files, fail)
}

/// The command has this status and this text on the source `a` and the input `b`.
pub fn expect(
    rt: &impl Abort,
    alloc: Global,
    command: &str,
    source: &str,
    input: &[u8],
    said: (u8, &[u8]),
) -> Result<(), Fail> {
    let (status, text) = said;
    let given = answer_failing(alloc, command, source, input, Vec::new(alloc))?;
    assert_eq!(rt; given.0, status);
    assert_eq!(rt; given.1.as_slice(), text);
    Ok(())
}

/// Each input has this status and this text under the command, all with one source.
pub fn expect_inputs(
    rt: &impl Abort,
    alloc: Global,
    command: &str,
    source: &str,
    rows: &[(&str, u8, &str)],
) -> Result<(), Fail> {
    for (input, status, text) in rows {
        expect(
            rt,
            alloc,
            command,
            source,
            input.as_bytes(),
            (*status, text.as_bytes()),
        )?;
    }
    Ok(())
}

/// Each source with its input has this status and this text under the command.
fn expect_rows(
    rt: &impl Abort,
    alloc: Global,
    command: &str,
    rows: &[(&str, &str, u8, &str)],
) -> Result<(), Fail> {
    for (source, input, status, text) in rows {
        expect(
            rt,
            alloc,
            command,
            source,
            input.as_bytes(),
            (*status, text.as_bytes()),
        )?;
    }
    Ok(())
}

/// What `serialise` writes for the schedule is a schedule for which it writes the same.
pub fn expect_read_again(
    rt: &impl Abort,
    alloc: Global,
    source: &str,
    schedule: &[u8],
) -> Result<(), Fail> {
    let first = answer_failing(alloc, "serialise", source, schedule, Vec::new(alloc))?;
    assert_eq!(rt; first.0, 0);
    let written = first.1.as_slice();
    expect(rt, alloc, "serialise", source, written, (0, written))
}

/// Schedules of the counter program, each with the status and the text of `serialise`.
static SERIALISED: [(&str, u8, &str); 5] = [
    (
        "0*10 1*4 2*4 1*2 2 1*7 2 1 2*8 1 2",
        0,
        "0*10 1*3 2*3 1*11 2*11 1 2\n# object 0:0 Main\n# object 0:1 Cell v=2\n# object 0:2 W c=0:1\n\
        # object 0:3 W c=0:1\n# thread 0 done\n# thread 1 done\n# thread 2 done\n",
    ),
    ("", 0, "\n# object 0:0 Main\n# thread 0 ready\n"),
    ("0*10 1*6", 5, "thread 1 is inside an atomic call\n"),
    ("0*3 5", 4, "entry 4: thread 5 is absent\n"),
    ("0 x", 3, "schedule refused at byte 2: form\n"),
];

#[test]
fn serialise_writes_each_call_in_one_piece(rt: HostRuntime) -> Result<(), Fail> {
    let source = counter(rt.alloc(), "", "", "")?;
    expect_inputs(&rt, rt.alloc(), "serialise", source.as_str(), &SERIALISED)
}

/// Schedules of the counter program that stop or are none, each with the status and the text of `run`.
static STOPPED: [(&str, u8, &str); 6] = [
    ("0*3 5", 4, "entry 4: thread 5 is absent\n"),
    (
        "0*10 1*6 2*6",
        4,
        "entry 22: thread 2 waits for 0:1 held by 1\n",
    ),
    ("0*11", 4, "entry 11: thread 0 is done\n"),
    ("0*0", 3, "schedule refused at byte 2: form\n"),
    ("0*200001", 3, "schedule refused at byte 0: too long\n"),
    ("0 x", 3, "schedule refused at byte 2: form\n"),
];

#[test]
fn run_tells_where_a_schedule_stops(rt: HostRuntime) -> Result<(), Fail> {
    let source = counter(rt.alloc(), "", "", "")?;
    expect_inputs(&rt, rt.alloc(), "run", source.as_str(), &STOPPED)
}

/// The state of the counter program where the first worker holds the lock of the cell.
const HELD: &str =
    "object 0:0 Main\nobject 0:1 Cell v=0\nobject 0:2 W c=0:1\nobject 0:3 W c=0:1\nlock 0:1 thread 1 count 1\n\
    thread 0 done\nthread 1 running Cell.inc 2\nthread 2 ready\n";

/// Sources and schedules, each with the status and the text of `run`.
static RUNS: [(&str, &str, u8, &str); 9] = [
    (
        PRINTS,
        "0*14",
        0,
        "print -2147483648\nprint -1\nobject 0:0 Main\nthread 0 faulted zero\n",
    ),
    (
        NESTED,
        "0*5",
        0,
        "object 0:0 Main v=0\nlock 0:0 thread 0 count 2\nthread 0 running Main.main 1\n",
    ),
    (
        TWO_LOCKS,
        "0*10",
        0,
        "object 0:0 Main v=0\nlock 0:0 thread 0 count 1\nthread 0 running Main.f 2\n",
    ),
    (
        TWO_LOCKS,
        "0*12",
        0,
        "object 0:0 Main v=0\nthread 0 running Main.main 1\n",
    ),
    (
        STARTS_NULL,
        "0*4",
        0,
        "object 0:0 Main w=null\nthread 0 faulted null\n",
    ),
    (
        DEEP,
        "0*2001",
        0,
        "object 0:0 Main\nthread 0 faulted depth\n",
    ),
    (
        DEEP,
        "0*2000",
        0,
        "object 0:0 Main\nthread 0 running Main.f 1000\n",
    ),
    (
        "class Main { Main m; void main() { this.m.m = this; } }",
        "0*5",
        0,
        "object 0:0 Main m=null\nthread 0 faulted null\n",
    ),
    (
        ENDLESS,
        "# comments and counts\n0*200 0 # the rest\n0*10",
        0,
        "object 0:0 Main\nthread 0 running Main.main 1\n",
    ),
];

#[test]
fn run_writes_the_state(rt: HostRuntime) -> Result<(), Fail> {
    let source = counter(rt.alloc(), "", "", "")?;
    expect_inputs(
        &rt,
        rt.alloc(),
        "run",
        source.as_str(),
        &[("0*10 1*6", 0, HELD)],
    )?;
    expect_rows(&rt, rt.alloc(), "run", &RUNS)
}

/// Sources and schedules, each with the status and the text of `serialise`.
static ONE_THREAD: [(&str, &str, u8, &str); 7] = [
    (
        PRINTS,
        "0*14",
        0,
        "0*14\n# print -2147483648\n# print -1\n# object 0:0 Main\n# thread 0 faulted zero\n",
    ),
    (PRINTS, "0*15", 4, "entry 15: thread 0 is faulted zero\n"),
    (
        NESTED,
        "0*11",
        0,
        "0*11\n# object 0:0 Main v=7\n# thread 0 done\n",
    ),
    (
        ENDLESS,
        "0*200000",
        0,
        "0*200000\n# object 0:0 Main\n# thread 0 running Main.main 1\n",
    ),
    (
        ENDLESS,
        "0*200001",
        3,
        "schedule refused at byte 0: too long\n",
    ),
    (
        "class Main { int v; atomic void main() { this.v = 1; this.v = 2; } }",
        "",
        2,
        "Main.main: declared atomic, found cmpd\n",
    ),
    ("class", "", 1, "refused at 1:6: unexpected\n"),
];

#[test]
fn serialise_of_one_thread_is_its_schedule(rt: HostRuntime) -> Result<(), Fail> {
    expect_rows(&rt, rt.alloc(), "serialise", &ONE_THREAD)
}

#[test]
fn serialise_reads_its_own_output(rt: HostRuntime) -> Result<(), Fail> {
    let source = counter(rt.alloc(), "", "", "")?;
    let schedule = "# by another tool\n0*10\n1*4 2*4\t1*2 2 1*7 2 1 # and so on\n2*8 1 2\n";
    expect_read_again(&rt, rt.alloc(), source.as_str(), schedule.as_bytes())
}

#[test]
fn a_schedule_that_cannot_be_read(rt: HostRuntime) -> Result<(), Fail> {
    let source = counter(rt.alloc(), "", "", "")?;
    let mut fail = Vec::new(rt.alloc());
    fail.push(3)?;
    let given = answer_failing(rt.alloc(), "serialise", source.as_str(), b"0", fail)?;
    assert_eq!(rt; given.0, 6);
    assert_eq!(rt; given.1.as_slice(), "cannot read b\n".as_bytes());
    Ok(())
}
