//! What the program answers to `levels`.

use crate::schedule_tests::{answer_failing, expect, expect_inputs};
use crate::tests::{LOCKED, counter, expect_rows};
use std::alloc::Global;
use std::process::Abort;
use std::test::Fail;

/// A method that takes a lock of each of two classes.
const TWO_LOCKS: &str =
    "class A { } class B { } class Main { void m(final A a, final B b) { synchronized (a) { synchronized (b) { } } } \
    void main() { this.m(new A(), new B()); } }";

/// Texts of levels for `TWO_LOCKS`, each with the status and the text.
static ORDERS: [(&str, u8, &str); 8] = [
    ("A 1\nB 2\nMain 3\n", 0, "ordered\n"),
    ("Main 1\nB 4294967295\nA 4294967294\n", 0, "ordered\n"),
    ("A 2\nB 1\nMain 3\n", 14, "Main.m: takes B under level 2\n"),
    ("A 7\nB 7\nMain 3\n", 14, "Main.m: takes B under level 7\n"),
    (
        "A 4294967295\nB 4294967294\nMain 1\n",
        14,
        "Main.m: takes B under level 4294967295\n",
    ),
    ("A 1\nB 2\n", 14, "levels refused: Main has none\n"),
    ("Main 1\nA 1\n", 14, "levels refused: B has none\n"),
    ("", 14, "levels refused: A has none\n"),
];

#[test]
fn levels_order_two_locks(rt: HostRuntime) -> Result<(), Fail> {
    expect_inputs(&rt, rt.alloc(), "levels", TWO_LOCKS, &ORDERS)
}

/// Texts that give no levels for `TWO_LOCKS`, each with the line of its first fault.
static NO_LEVELS: [(&str, &str); 36] = [
    // The form.
    ("A", "levels refused at byte 1: form\n"),
    ("A ", "levels refused at byte 2: form\n"),
    ("A 1", "levels refused at byte 3: form\n"),
    ("A 429496729", "levels refused at byte 11: form\n"),
    ("A 1\nB", "levels refused at byte 5: form\n"),
    ("\n", "levels refused at byte 0: form\n"),
    (" A 1\n", "levels refused at byte 0: form\n"),
    ("1A 1\n", "levels refused at byte 0: form\n"),
    ("A\n1\n", "levels refused at byte 1: form\n"),
    ("A\t1\n", "levels refused at byte 1: form\n"),
    ("A! 1\n", "levels refused at byte 1: form\n"),
    ("X! 1\n", "levels refused at byte 1: form\n"),
    ("A  1\n", "levels refused at byte 2: form\n"),
    ("A x\n", "levels refused at byte 2: form\n"),
    ("A -1\n", "levels refused at byte 2: form\n"),
    ("A 1 \n", "levels refused at byte 3: form\n"),
    ("A 1x\n", "levels refused at byte 3: form\n"),
    ("A 1\r\n", "levels refused at byte 3: form\n"),
    ("A 1\n\nB 2\nMain 3\n", "levels refused at byte 4: form\n"),
    ("A 1\nB 2\nMain 3\n\n", "levels refused at byte 15: form\n"),
    ("A 1\nB 2\nMain 3", "levels refused at byte 14: form\n"),
    // Numbers out of range.
    ("A 0\n", "levels refused at byte 2: form\n"),
    ("A 01\n", "levels refused at byte 2: form\n"),
    ("A 4294967296\n", "levels refused at byte 2: form\n"),
    ("A 4294967296", "levels refused at byte 2: form\n"),
    (
        "A 99999999999999999999999999999999\n",
        "levels refused at byte 2: form\n",
    ),
    // Names of no class.
    ("X 1\n", "levels refused at byte 0: unknown\n"),
    ("a 1\n", "levels refused at byte 0: unknown\n"),
    ("A1 1\n", "levels refused at byte 0: unknown\n"),
    ("_ 1\n", "levels refused at byte 0: unknown\n"),
    ("A 1\nX 0\n", "levels refused at byte 4: unknown\n"),
    ("X 1\nX 1\n", "levels refused at byte 0: unknown\n"),
    // Second lines for a class.
    ("A 1\nA 1\n", "levels refused at byte 4: twice\n"),
    ("A 1\nA 0\n", "levels refused at byte 4: twice\n"),
    (
        "A 1\nB 2\nMain 3\nB 2\n",
        "levels refused at byte 15: twice\n",
    ),
    ("A 1\nA", "levels refused at byte 5: form\n"),
];

#[test]
fn texts_that_give_no_levels_have_their_first_fault(rt: HostRuntime) -> Result<(), Fail> {
    for (text, line) in &NO_LEVELS {
        expect(
            &rt,
            rt.alloc(),
            "levels",
            TWO_LOCKS,
            text.as_bytes(),
            (14, line.as_bytes()),
        )?;
    }
    Ok(())
}

#[test]
fn levels_are_bytes_and_no_text(rt: HostRuntime) -> Result<(), Fail> {
    expect(
        &rt,
        rt.alloc(),
        "levels",
        TWO_LOCKS,
        b"A 1\nB\xff 2\n",
        (14, b"levels refused at byte 5: form\n"),
    )
}

/// A buffer is filled from another, which may be the same one.
const FILLS: &str =
    "class Buf { int n guarded_by this; void fill(final Buf o) { synchronized (this) { synchronized (o) { o.n = this.n; } } } } \
    class Main { void main() { final Buf b = new Buf(); b.fill(b); } }";

/// A lock under a second name: taking it again waits for nobody, and is refused all the same.
const SECOND_NAME: &str =
    "class C { } class Main { void main() { final C c = new C(); final C d = c; synchronized (c) { synchronized (d) { } } } }";

/// A lock is taken again under its own name.
const AGAIN: &str =
    "class C { } class Main { void main() { final C c = new C(); synchronized (c) { synchronized (c) { } } } }";

/// A method that is reached with no lock held, and with one.
const TWICE_REACHED: &str =
    "class A { } class B { } class Main { void g(final B b) { synchronized (b) { } } \
    void main() { final A a = new A(); final B b = new B(); this.g(b); synchronized (a) { this.g(b); } } }";

/// The levels with which a method is reached rise over two calls.
const THREE_DEEP: &str =
    "class A { } class B { } class C { } class Main { void h(final C c) { synchronized (c) { } } \
    void g(final B b, final C c) { synchronized (b) { this.h(c); } } \
    void main() { final A a = new A(); final B b = new B(); final C c = new C(); synchronized (a) { this.g(b, c); } } }";

/// A method that calls itself with another lock while it holds one.
const RAISES_ITSELF: &str =
    "class A { } class Main { void f(final A a) { synchronized (a) { this.f(new A()); } } void main() { this.f(new A()); } }";

/// A method that calls itself with the lock that it holds.
const KEEPS_ITS_LOCK: &str =
    "class A { } class Main { void f(final A a) { synchronized (a) { this.f(a); } } void main() { this.f(new A()); } }";

/// A thread is started while a lock is held: the new thread holds none.
const STARTS_UNDER_A_LOCK: &str =
    "class A { } class W implements Runnable { final A a; W(A a) { this.a = a; } public void run() { synchronized (this.a) { } } } \
    class Main { void main() { final A a = new A(); synchronized (a) { new Thread(new W(a)).start(); } } }";

/// Nobody calls `run`.
const RUNS_ALONE: &str =
    "class A { } class B { } class W implements Runnable { final A a; final B b; W(A a, B b) { this.a = a; this.b = b; } \
    public void run() { synchronized (this.b) { synchronized (this.a) { } } } } class Main { void main() { } }";

/// A method that nobody calls.
const NEVER_CALLED: &str =
    "class A { } class Main { void f(final A a, final A b) { synchronized (a) { synchronized (b) { } } } void main() { } }";

/// The second of two bad places is deeper, the first is told; and a method that comes first in the source is told first.
const TWO_BAD: &str =
    "class A { } class B { } class C { } class Main { void main() { final A a = new A(); final B b = new B(); final C c = new C(); \
    synchronized (c) { synchronized (b) { synchronized (a) { } } } this.f(a, c); } \
    void f(final A a, final C c) { synchronized (c) { synchronized (a) { } } } }";

/// A method whose callers hold the lock that it requires.
const REQUIRED: &str =
    "class A { int v guarded_by this; void put() requires this { synchronized (this) { this.v = 1; } } } \
    class Main { void main() { final A a = new A(); synchronized (a) { a.put(); } } }";

/// Sources with levels, each with the status and the text.
static SOURCES: [(&str, &str, u8, &str); 22] = [
    (
        FILLS,
        "Buf 1\nMain 2\n",
        14,
        "Buf.fill: takes Buf under level 1\n",
    ),
    (
        SECOND_NAME,
        "C 3\nMain 1\n",
        14,
        "Main.main: takes C under level 3\n",
    ),
    (AGAIN, "C 3\nMain 1\n", 0, "ordered\n"),
    (TWICE_REACHED, "A 1\nB 2\nMain 1\n", 0, "ordered\n"),
    (
        TWICE_REACHED,
        "A 2\nB 1\nMain 1\n",
        14,
        "Main.g: takes B under level 2\n",
    ),
    (THREE_DEEP, "A 1\nB 2\nC 3\nMain 1\n", 0, "ordered\n"),
    (
        THREE_DEEP,
        "A 3\nB 4\nC 2\nMain 1\n",
        14,
        "Main.h: takes C under level 4\n",
    ),
    (
        THREE_DEEP,
        "A 5\nB 4\nC 5\nMain 1\n",
        14,
        "Main.h: takes C under level 5\n",
    ),
    (
        RAISES_ITSELF,
        "A 1\nMain 1\n",
        14,
        "Main.f: takes A under level 1\n",
    ),
    (KEEPS_ITS_LOCK, "A 1\nMain 1\n", 0, "ordered\n"),
    (STARTS_UNDER_A_LOCK, "A 1\nW 1\nMain 1\n", 0, "ordered\n"),
    (RUNS_ALONE, "A 2\nB 1\nW 1\nMain 1\n", 0, "ordered\n"),
    (
        RUNS_ALONE,
        "A 1\nB 2\nW 1\nMain 1\n",
        14,
        "W.run: takes A under level 2\n",
    ),
    (NEVER_CALLED, "A 1\nMain 1\n", 0, "ordered\n"),
    (
        TWO_BAD,
        "A 1\nB 2\nC 3\nMain 1\n",
        14,
        "Main.main: takes B under level 3\n",
    ),
    (
        TWO_BAD,
        "A 1\nB 4\nC 3\nMain 1\n",
        14,
        "Main.main: takes A under level 4\n",
    ),
    (REQUIRED, "A 1\nMain 1\n", 0, "ordered\n"),
    (LOCKED, "Main 1\n", 0, "ordered\n"),
    // The source is judged first, and its rules of atomicity aren't.
    (
        "class Main { void main() { a = 1; } }",
        "Main 0\n",
        1,
        "refused at 1:28: unknown name\n",
    ),
    (
        "class Main { int low; int high; atomic void main() { this.low = 1; this.high = 2; } }",
        "Main 1\n",
        0,
        "ordered\n",
    ),
    (
        "class Main { int v guarded_by this; void main() { this.v = 7; } }",
        "Main 1\n",
        0,
        "ordered\n",
    ),
    (
        "class Main {",
        "Main 1\n",
        1,
        "refused at 1:13: unexpected\n",
    ),
];

/// Each source with its levels has this status and this text.
pub fn expect_sources(
    rt: &impl Abort,
    alloc: Global,
    rows: &[(&str, &str, u8, &str)],
) -> Result<(), Fail> {
    for (source, levels, status, text) in rows {
        expect(
            rt,
            alloc,
            "levels",
            source,
            levels.as_bytes(),
            (*status, text.as_bytes()),
        )?;
    }
    Ok(())
}

#[test]
fn levels_judge_each_context_of_a_method(rt: HostRuntime) -> Result<(), Fail> {
    expect_sources(&rt, rt.alloc(), &SOURCES)
}

#[test]
fn levels_order_the_counter_program(rt: HostRuntime) -> Result<(), Fail> {
    let source =
        "class Cell { int v guarded_by this; atomic void inc() { synchronized (this) { this.v = this.v + 1; } } } \
        class W implements Runnable { final Cell c; W(Cell c) { this.c = c; } public void run() { synchronized (this.c) { this.c.inc(); } } } \
        class Main { void main() { final Cell c = new Cell(); new Thread(new W(c)).start(); new Thread(new W(c)).start(); } }";
    let alloc = rt.alloc();
    let levels = b"Cell 1\nW 1\nMain 1\n";
    expect(&rt, alloc, "levels", source, levels, (0, b"ordered\n"))?;
    let source = counter(alloc, "", "", "")?;
    expect(
        &rt,
        alloc,
        "levels",
        source.as_str(),
        levels,
        (0, b"ordered\n"),
    )
}

/// A second name waits for nobody.
#[test]
fn a_lock_is_taken_again_under_a_second_name(rt: HostRuntime) -> Result<(), Fail> {
    expect(
        &rt,
        rt.alloc(),
        "run",
        SECOND_NAME,
        b"0*9",
        (
            0,
            b"object 0:0 Main\nobject 0:1 C\nlock 0:1 thread 0 count 2\nthread 0 running Main.main 1\n",
        ),
    )
}

#[test]
fn a_levels_file_that_cannot_be_read_is_told(rt: HostRuntime) -> Result<(), Fail> {
    let alloc = rt.alloc();
    let mut fail = Vec::new(alloc);
    fail.push(3)?;
    let given = answer_failing(alloc, "levels", TWO_LOCKS, b"A 1\n", fail)?;
    assert_eq!(rt; given.0, 6);
    assert_eq!(rt; given.1.as_slice(), "cannot read b\n".as_bytes());
    Ok(())
}
