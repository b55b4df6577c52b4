//! Philosophers that take two forks: schedules with which they wait for each other, and levels that order them.

use crate::schedule_tests::{expect, expect_inputs};
use crate::tests::expect_rows;
use std::test::Fail;

/// Two philosophers: each takes the fork at the left, and then the one at the right.
const PHILOSOPHERS: &str =
    "class Fork { } class Phil implements Runnable { final Fork left; final Fork right; \
    Phil(Fork left, Fork right) { this.left = left; this.right = right; } \
    public void run() { synchronized (this.left) { synchronized (this.right) { } } } } \
    class Main { void main() { final Fork a = new Fork(); final Fork b = new Fork(); \
    new Thread(new Phil(a, b)).start(); new Thread(new Phil(b, a)).start(); } }";

/// Schedules with which each philosopher holds a fork, with the status and the text: both wait for the other.
static CIRCLE: [(&str, u8, &str); 3] = [
    (
        "0*14 1*4 2*4 1*2 2*2",
        0,
        "object 0:0 Main\nobject 0:1 Fork\nobject 0:2 Fork\nobject 0:3 Phil left=0:1 right=0:2\nobject 0:4 Phil left=0:2 right=0:1\n\
        lock 0:1 thread 1 count 1\nlock 0:2 thread 2 count 1\nthread 0 done\nthread 1 running Phil.run 1\nthread 2 running Phil.run 1\n",
    ),
    (
        "0*14 1*4 2*4 1*2 2*2 1",
        4,
        "entry 27: thread 1 waits for 0:2 held by 2\n",
    ),
    (
        "0*14 1*4 2*4 1*2 2*2 2",
        4,
        "entry 27: thread 2 waits for 0:1 held by 1\n",
    ),
];

#[test]
fn two_philosophers_wait_for_each_other(rt: HostRuntime) -> Result<(), Fail> {
    expect_inputs(&rt, rt.alloc(), "run", PHILOSOPHERS, &CIRCLE)
}

/// The philosophers are accepted, and no levels order them.
#[test]
fn accepted_philosophers_are_not_ordered(rt: HostRuntime) -> Result<(), Fail> {
    let alloc = rt.alloc();
    expect_rows(
        &rt,
        alloc,
        "check",
        &[(
            PHILOSOPHERS,
            0,
            "Phil.run this.left ? (this.right ? const : atomic) : atomic\nMain.main cmpd\n",
        )],
    )?;
    expect(
        &rt,
        alloc,
        "levels",
        PHILOSOPHERS,
        b"Fork 1\nPhil 2\nMain 3\n",
        (14, b"Phil.run: takes Fork under level 1\n"),
    )
}

/// Forks of two ranks, and each philosopher takes the lower one first.
const RANKED: &str =
    "class Low { } class High { } class Phil implements Runnable { final Low low; final High high; \
    Phil(Low low, High high) { this.low = low; this.high = high; } \
    public void run() { synchronized (this.low) { synchronized (this.high) { } } } } \
    class Main { void main() { final Low a = new Low(); final High b = new High(); \
    new Thread(new Phil(a, b)).start(); new Thread(new Phil(a, b)).start(); } }";

/// One lock of the table stands for both forks.
const ONE_TABLE: &str =
    "class Table { } class Phil implements Runnable { final Table table; Phil(Table table) { this.table = table; } \
    public void run() { synchronized (this.table) { } } } \
    class Main { void main() { final Table t = new Table(); new Thread(new Phil(t)).start(); new Thread(new Phil(t)).start(); } }";

#[test]
fn repaired_philosophers_are_ordered(rt: HostRuntime) -> Result<(), Fail> {
    let alloc = rt.alloc();
    expect_inputs(
        &rt,
        alloc,
        "levels",
        RANKED,
        &[
            ("Low 1\nHigh 2\nPhil 1\nMain 1\n", 0, "ordered\n"),
            (
                "Low 2\nHigh 1\nPhil 1\nMain 1\n",
                14,
                "Phil.run: takes High under level 2\n",
            ),
        ],
    )?;
    expect_inputs(
        &rt,
        alloc,
        "levels",
        ONE_TABLE,
        &[("Table 1\nPhil 1\nMain 1\n", 0, "ordered\n")],
    )
}
