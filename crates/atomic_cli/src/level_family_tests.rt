//! What the program answers to `levels`, of classes that extend each other.

use crate::level_tests::expect_sources;
use crate::schedule_tests::expect_inputs;
use std::test::Fail;

/// Classes that extend each other, the one above all of them last.
const LINE: &str =
    "class C extends B { } class B extends A { } class A { } class Main { void main() { } }";

/// Texts of levels for `LINE`, each with the status and the text. A class has the level of the class that it extends; a text with
/// another fault is refused for that one.
static LEVELS_OF_A_LINE: [(&str, u8, &str); 9] = [
    ("A 7\nB 7\nC 7\nMain 1\n", 0, "ordered\n"),
    ("A 1\nB 2\nC 2\nMain 1\n", 14, "levels refused: B differs\n"),
    ("A 1\nB 1\nC 2\nMain 1\n", 14, "levels refused: C differs\n"),
    // The first in the source, whatever the order of the lines.
    ("A 1\nB 2\nC 3\nMain 1\n", 14, "levels refused: C differs\n"),
    // That of the class above, not of the one above that.
    ("A 2\nB 1\nC 2\nMain 1\n", 14, "levels refused: C differs\n"),
    ("A 1\nB 2\nC 3\n", 14, "levels refused: Main has none\n"),
    (
        "A 1\nB 2\nC 3\nMain 1",
        14,
        "levels refused at byte 18: form\n",
    ),
    (
        "A 1\nB 2\nC 3\nMain 1\nX 1\n",
        14,
        "levels refused at byte 19: unknown\n",
    ),
    (
        "A 1\nB 2\nC 3\nMain 1\nA 1\n",
        14,
        "levels refused at byte 19: twice\n",
    ),
];

#[test]
fn a_class_has_the_level_of_the_class_that_it_extends(rt: HostRuntime) -> Result<(), Fail> {
    expect_inputs(&rt, rt.alloc(), "levels", LINE, &LEVELS_OF_A_LINE)
}

/// A call under a lock, which may run a method that takes another one.
const MAY_RUN: &str =
    "class L { } class A { void f() { } } class B extends A { void f() { synchronized (this) { } } } \
    class Main { void main() { final A a = new A(); final L l = new L(); synchronized (l) { a.f(); } } }";

/// A call under the lock that the method which runs takes too.
const RUNS_HELD: &str =
    "class A { void f() { } } class B extends A { void f() { synchronized (this) { } } } \
    class Main { void main() { final A a = new B(); synchronized (a) { a.f(); } } }";

/// A class that counts as Runnable because of the class above, with a `run` of its own.
const RUNS_BELOW: &str =
    "class A { } class B { } class W implements Runnable { final A a; final B b; W(A a, B b) { this.a = a; this.b = b; } \
    public void run() { } } class V extends W { V(A a, B b) { this.a = a; this.b = b; } \
    public void run() { synchronized (this.b) { synchronized (this.a) { } } } } class Main { void main() { } }";

/// Sources whose classes extend each other, with levels, the status and the text.
static FAMILIES: [(&str, &str, u8, &str); 5] = [
    (MAY_RUN, "L 1\nA 2\nB 2\nMain 1\n", 0, "ordered\n"),
    (
        MAY_RUN,
        "L 3\nA 3\nB 3\nMain 1\n",
        14,
        "B.f: takes B under level 3\n",
    ),
    (RUNS_HELD, "A 1\nB 1\nMain 1\n", 0, "ordered\n"),
    (RUNS_BELOW, "A 2\nB 1\nW 1\nV 1\nMain 1\n", 0, "ordered\n"),
    (
        RUNS_BELOW,
        "A 1\nB 2\nW 1\nV 1\nMain 1\n",
        14,
        "V.run: takes A under level 2\n",
    ),
];

#[test]
fn levels_judge_methods_that_may_run(rt: HostRuntime) -> Result<(), Fail> {
    expect_sources(&rt, rt.alloc(), &FAMILIES)
}
