//! What `check` answers to the examples and to other sources.

use crate::examples::{ACCEPTED, REFUSED};
use crate::tests::{LOCKED, counter, expect, expect_rows, written};
use std::alloc::Global;
use std::process::Abort;
use std::test::Fail;

/// Each file of `examples/` that `check` judges gets the lines that the README there states.
fn expect_examples(
    rt: &impl Abort,
    alloc: Global,
    rows: &[(&str, &str, u8, &str)],
) -> Result<(), Fail> {
    for (_, source, status, text) in rows {
        expect(rt, alloc, &["check", "a"], source.as_bytes(), *status, text)?;
    }
    Ok(())
}

/// The examples that are accepted. A `static` is lent, where a `const` is copied into the function that names it.
static ACCEPTED_ROWS: [(&str, &str, u8, &str); 14] = ACCEPTED;

/// The examples that are refused.
static REFUSED_ROWS: [(&str, &str, u8, &str); 13] = REFUSED;

#[test]
fn accepted_examples_say_what_their_readme_states(rt: HostRuntime) -> Result<(), Fail> {
    expect_examples(&rt, rt.alloc(), &ACCEPTED_ROWS)
}

#[test]
fn refused_examples_say_what_their_readme_states(rt: HostRuntime) -> Result<(), Fail> {
    expect_examples(&rt, rt.alloc(), &REFUSED_ROWS)
}

/// What is put into the counter program, in the order of `counter`, with the status of `check` and its text.
static COUNTER_ROWS: [(&str, &str, &str, u8, &str); 13] = [
    (
        "",
        "",
        "",
        0,
        "Cell.inc this ? mover : atomic\nW.run this.c ? mover : atomic\nMain.main cmpd\n",
    ),
    (
        "atomic void twice() { this.inc(); this.inc(); } ",
        "",
        "",
        2,
        "Cell.twice: declared atomic, found cmpd\n",
    ),
    (
        "atomic void twice() { synchronized (this) { this.inc(); this.inc(); } } ",
        "",
        "",
        0,
        "Cell.inc this ? mover : atomic\nCell.twice this ? mover : atomic\nW.run this.c ? mover : atomic\nMain.main cmpd\n",
    ),
    (
        "int peek() { return this.v; } ",
        "",
        "",
        2,
        "Cell.peek: declared cmpd, found error\n",
    ),
    (
        "int peek() requires this { return this.v; } ",
        "",
        "",
        0,
        "Cell.inc this ? mover : atomic\nCell.peek mover\nW.run this.c ? mover : atomic\nMain.main cmpd\n",
    ),
    (
        "int peek() requires this { return this.v; } ",
        "c.peek(); ",
        "",
        2,
        "Main.main: declared cmpd, found error\n",
    ),
    (
        "atomic void fill() { synchronized (this) { while (this.v < 10) { this.v = this.v + 1; } } } ",
        "",
        "",
        0,
        "Cell.inc this ? mover : atomic\nCell.fill this ? mover : atomic\nW.run this.c ? mover : atomic\nMain.main cmpd\n",
    ),
    (
        "int u; atomic void grow() { while (this.u < 10) { this.u = this.u + 1; } } ",
        "",
        "",
        2,
        "Cell.grow: declared atomic, found cmpd\n",
    ),
    (
        "atomic void down(int k) requires this { if (k > 0) { this.v = this.v + k; this.down(k - 1); this.down(k - 1); } } ",
        "",
        "",
        0,
        "Cell.inc this ? mover : atomic\nCell.down mover\nW.run this.c ? mover : atomic\nMain.main cmpd\n",
    ),
    (
        "",
        "",
        "class Box { final Cell c; Box(Cell c) { this.c = c; } atomic void clear() { final Cell x = this.c; synchronized (x) { x.v = 0; } } }",
        0,
        "Cell.inc this ? mover : atomic\nW.run this.c ? mover : atomic\nMain.main cmpd\nBox.clear this.c ? mover : atomic\n",
    ),
    (
        "",
        "",
        "class Box { final Cell c; Box(Cell c) { this.c = c; } atomic void clear() { final Cell x = this.c; synchronized (x) { x.v = 0; this.c.v = 1; } } }",
        2,
        "Box.clear: declared atomic, found error\n",
    ),
    (
        "Cell self() { return this; } int far() requires this { return this.self().v; } ",
        "",
        "",
        2,
        "Cell.far: declared cmpd, found error\n",
    ),
    (
        "void Cell() { boolean b = null == null; } ",
        "",
        "",
        0,
        "Cell.inc this ? mover : atomic\nCell.Cell mover\nW.run this.c ? mover : atomic\nMain.main cmpd\n",
    ),
];

#[test]
fn check_judges_the_counter_program(rt: HostRuntime) -> Result<(), Fail> {
    for (in_cell, in_main, behind, status, text) in &COUNTER_ROWS {
        let source = counter(rt.alloc(), in_cell, in_main, behind)?;
        expect(
            &rt,
            rt.alloc(),
            &["check", "a"],
            source.as_bytes(),
            *status,
            text,
        )?;
    }
    Ok(())
}

/// A buffer, and the `append` of the class library restated: between the two calls on the other buffer it may change.
const APPEND: &str =
    "class Buf { int n guarded_by this; atomic int length() { synchronized (this) { return this.n; } } \
    atomic int get(int k) { synchronized (this) { return this.n - k; } } \
    atomic void append(final Buf sb) { synchronized (this) { int k = sb.length(); this.n = this.n + sb.get(k); } } } \
    class Main { void main() { } }";

/// The same with both locks.
pub const APPEND_LOCKED: &str =
    "class Buf { int n guarded_by this; atomic int length() { synchronized (this) { return this.n; } } \
    atomic int get(int k) { synchronized (this) { return this.n - k; } } \
    atomic void append(final Buf sb) { synchronized (this) { synchronized (sb) { int k = sb.length(); this.n = this.n + sb.get(k); } } } } \
    class Main { void main() { } }";

/// A method that takes eight locks of its parameters, which are as many as it may have.
pub const EIGHT_LOCKS: &str =
    "class L { } class Main { void m(final L a, final L b, final L c, final L d, final L e, final L f, final L g, final L h) \
    { synchronized (a) { } synchronized (b) { } synchronized (c) { } synchronized (d) { } synchronized (e) { } synchronized (f) { } \
    synchronized (g) { } synchronized (h) { } } void main() { } }";

const NINE_LOCKS: &str =
    "class L { } class Main { void m(final L a, final L b, final L c, final L d, final L e, final L f, final L g, final L h, final L i) \
    { synchronized (a) { } synchronized (b) { } synchronized (c) { } synchronized (d) { } synchronized (e) { } synchronized (f) { } \
    synchronized (g) { } synchronized (h) { } synchronized (i) { } } void main() { } }";

/// Other sources, each with the status of `check` and its text.
static OTHER_SOURCES: [(&str, u8, &str); 7] = [
    (LOCKED, 0, "Main.main this ? mover : atomic\n"),
    (
        "class Main { int u; atomic void main() { this.u = 1; this.u = 2; } }",
        2,
        "Main.main: declared atomic, found cmpd\n",
    ),
    (
        "class Main { int v guarded_by this; void main() { } void set() requires this { this.v = 1; } }",
        0,
        "Main.main const\nMain.set mover\n",
    ),
    (APPEND, 2, "Buf.append: declared atomic, found cmpd\n"),
    (
        APPEND_LOCKED,
        0,
        "Buf.length this ? mover : atomic\nBuf.get this ? mover : atomic\nBuf.append this ? (sb ? mover : atomic) : atomic\nMain.main const\n",
    ),
    (NINE_LOCKS, 1, "refused at 1:31: too many locks\n"),
    ("", 1, "refused at 1:1: no main\n"),
];

#[test]
fn check_judges_other_sources(rt: HostRuntime) -> Result<(), Fail> {
    expect_rows(&rt, rt.alloc(), "check", &OTHER_SOURCES)?;
    written(&rt, rt.alloc(), "check", EIGHT_LOCKS.as_bytes())?;
    Ok(())
}
