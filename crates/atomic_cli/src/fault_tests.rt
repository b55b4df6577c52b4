//! The first fault of sources that aren't well-formed.

use crate::tests::{expect, expect_texts, numbered};
use std::test::Fail;

/// Sources with a fault of their classes, each with its line.
static CLASS_FAULTS: [(&str, &str); 7] = [
    (
        "class A { } class A { } class Main { void main() { } }",
        "refused at 1:19: declared twice\n",
    ),
    (
        "class Main { X x; void main() { } }",
        "refused at 1:14: unknown class\n",
    ),
    (
        "class A { final int n; } class Main { void main() { } }",
        "refused at 1:7: bad constructor\n",
    ),
    (
        "class A implements Runnable { } class Main { void main() { } }",
        "refused at 1:7: no run\n",
    ),
    (
        "class A { final int n; B(int n) { this.n = n; } } class Main { void main() { } }",
        "refused at 1:24: bad constructor\n",
    ),
    (
        "class A { final X n; A(X n) { this.n = n; } } class Main { void main() { } }",
        "refused at 1:17: unknown class\n",
    ),
    (
        "class Main { void main() { } void main(int a) { } }",
        "refused at 1:35: declared twice\n",
    ),
];

/// Sources with a fault of their types, each with its line.
static TYPE_FAULTS: [(&str, &str); 24] = [
    (
        "class Main { void main() { a = 1; } }",
        "refused at 1:28: unknown name\n",
    ),
    (
        "class Main { void main() { final int a = 1; a = 2; } }",
        "refused at 1:45: final assigned\n",
    ),
    (
        "class Main { void main() { Main m = this; synchronized (m) { } } }",
        "refused at 1:57: not a lock\n",
    ),
    (
        "class Main { void main() { } int f() { } }",
        "refused at 1:40: missing return\n",
    ),
    (
        "class Main { void main() { return; ; } }",
        "refused at 1:36: unreachable\n",
    ),
    (
        "class Main { void main() { int a = 0; int a = 1; } }",
        "refused at 1:43: redeclared\n",
    ),
    (
        "class Main { void main() { int a = true; } }",
        "refused at 1:32: no rule\n",
    ),
    (
        "class Main { int f(int k) { return k; } void main() { boolean a = this.f(zz); } }",
        "refused at 1:74: unknown name\n",
    ),
    (
        "class Main { void main() { 1.qq(zz); } }",
        "refused at 1:33: unknown name\n",
    ),
    (
        "class Main { void main() { 1.qq(1); } }",
        "refused at 1:30: no rule\n",
    ),
    (
        "class Main { void main() { 1.x = zz; } }",
        "refused at 1:30: no rule\n",
    ),
    (
        "class Main { void main() { this.g(zz); } }",
        "refused at 1:33: unknown name\n",
    ),
    (
        "class Main { void main() { final int a = 1; a = zz; } }",
        "refused at 1:45: final assigned\n",
    ),
    (
        "class Main { void g() { } int h() { return this.g(); } void main() { } }",
        "refused at 1:37: no rule\n",
    ),
    (
        "class Main { void g() { } void main() { return (this.g()); } }",
        "refused at 1:41: no rule\n",
    ),
    (
        "class Main { void main() { new Thread(null).start(); } }",
        "refused at 1:28: no rule\n",
    ),
    (
        "class Main { void main() { int a = 1; int a = true; } }",
        "refused at 1:43: no rule\n",
    ),
    (
        "class Main { void main() { return; zz = 1; } }",
        "refused at 1:36: unknown name\n",
    ),
    (
        "class Main { void main() { while (((true))) { } ; } }",
        "refused at 1:49: unreachable\n",
    ),
    (
        "class Main { void main() { int a = a; } }",
        "refused at 1:36: unknown name\n",
    ),
    (
        "class Main { void main() { synchronized (this.qq.r) { } } }",
        "refused at 1:47: unknown name\n",
    ),
    (
        "class Main { void m(final int k) { synchronized (k.zz) { } } void main() { } }",
        "refused at 1:50: not a lock\n",
    ),
    (
        "class Main { int v guarded_by lock; void main() { } }",
        "refused at 1:31: unknown name\n",
    ),
    (
        "class A { int v; } class B { final A a; B(A a) { this.a = a; } } class Main { void m(final B b) { synchronized (b.a.v) { } } void main() { } }",
        "refused at 1:113: not a lock\n",
    ),
];

#[test]
fn the_first_fault_has_its_line(rt: HostRuntime) -> Result<(), Fail> {
    expect_texts(&rt, rt.alloc(), "check", 1, &CLASS_FAULTS)?;
    expect_texts(&rt, rt.alloc(), "check", 1, &TYPE_FAULTS)
}

/// Numbered lines of a source, in the order of `numbered`, with the text of `check`.
static NUMBERED: [(&str, &str, &str, u32, &str, &str); 4] = [
    (
        "class Main {\n",
        "int f",
        ";\n",
        33,
        "void main() { } }",
        "refused at 34:5: too many\n",
    ),
    (
        "class Main {\n",
        "int f",
        ";\n",
        32,
        "int f0; void main() { } }",
        "refused at 34:5: declared twice\n",
    ),
    (
        "class Main { void main() {\n",
        "int a",
        " = 0;\n",
        65,
        "} }",
        "refused at 66:5: too many locals\n",
    ),
    (
        "class Main { void main() {\n",
        "{ int a",
        " = 0; }\n",
        65,
        "} }",
        "refused at 66:7: too many locals\n",
    ),
];

#[test]
fn fields_and_locals_have_their_limits(rt: HostRuntime) -> Result<(), Fail> {
    for (before, word, behind, times, after, text) in &NUMBERED {
        let source = numbered(rt.alloc(), before, word, behind, *times, after)?;
        expect(&rt, rt.alloc(), &["check", "a"], source.as_bytes(), 1, text)?;
    }
    Ok(())
}

/// Sources that end too soon or hold no text, or what is no token of the language, each with its line.
static DAMAGED: [(&[u8], &str); 6] = [
    (b"/* x", "refused at 1:1: open comment\n"),
    (b"class \x80", "refused at 1:7: not text\n"),
    (
        b"class Main { void main() { if (true) { } el",
        "refused at 1:44: unexpected\n",
    ),
    (
        b"class Main { void main() { System.out.println(21",
        "refused at 1:49: unexpected\n",
    ),
    (
        b"class Main { void main() { x++; } }",
        "refused at 1:29: unexpected\n",
    ),
    (
        b"class Main { void main() { a = 2147483649; } }",
        "refused at 1:32: literal too large\n",
    ),
];

#[test]
fn damaged_sources_have_their_line(rt: HostRuntime) -> Result<(), Fail> {
    for (source, line) in &DAMAGED {
        expect(&rt, rt.alloc(), &["check", "a"], source, 1, line)?;
        expect(&rt, rt.alloc(), &["print", "a"], source, 1, line)?;
    }
    Ok(())
}
