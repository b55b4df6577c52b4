//! Sources with the first fault of their tokens or their grammar, fields that are guarded for writing only, and what
//! the trees of sources hold.

use crate::tests::{answer, expect, expect_texts, written};
use lexer::{Token, lex};
use parser::parse;
use std::alloc::Global;
use std::test::Fail;
use syntax::{Member, Program, Stmt};

/// Sources with a fault of their tokens or their grammar, each with its line. Columns count bytes.
static UNREADABLE: [(&str, &str); 19] = [
    ("a # b", "refused at 1:3: bad character\n"),
    ("a &", "refused at 1:3: bad character\n"),
    ("class A\n{ $", "refused at 2:3: bad character\n"),
    ("/*/ é */ é", "refused at 1:11: bad character\n"),
    ("a /*/ # ", "refused at 1:3: open comment\n"),
    ("-2147483649 #", "refused at 1:2: literal too large\n"),
    (
        " x23456789x123456789x123456789x123456789x123456789x123456789x1234",
        "refused at 1:2: unexpected\n",
    ),
    (
        " x23456789x123456789x123456789x123456789x123456789x123456789x12345",
        "refused at 1:2: name too long\n",
    ),
    (
        "class A { void m() { x = 2147483648; } }",
        "refused at 1:26: unexpected\n",
    ),
    (
        "class A { void m() { x = -2147483648.f; } }",
        "refused at 1:37: unexpected\n",
    ),
    (
        "class A { void m() { if (a) int b = 1; } }",
        "refused at 1:29: unexpected\n",
    ),
    (
        "class A { void m() { (a.f()); } }",
        "refused at 1:29: unexpected\n",
    ),
    (
        "class A { void m() { a < b; } }",
        "refused at 1:24: unexpected\n",
    ),
    (
        "class A { final int f guarded_by this; }",
        "refused at 1:23: unexpected\n",
    ),
    (
        "class A { final int f write_guarded_by this; }",
        "refused at 1:23: unexpected\n",
    ),
    (
        "class A { int f write_guarded_by; }",
        "refused at 1:33: unexpected\n",
    ),
    (
        "class A { int f write_guarded_by this guarded_by this; }",
        "refused at 1:39: unexpected\n",
    ),
    ("class A extends for { }", "refused at 1:17: unexpected\n"),
    ("class for { }", "refused at 1:7: unexpected\n"),
];

#[test]
fn tokens_and_grammar_have_their_faults(rt: HostRuntime) -> Result<(), Fail> {
    expect_texts(&rt, rt.alloc(), "check", 1, &UNREADABLE)?;
    expect_texts(&rt, rt.alloc(), "print", 1, &UNREADABLE)
}

/// Programs of the grammar.
static PROGRAMS: [&str; 7] = [
    "",
    "public class Main { public void main() { } }",
    "class C { final D d; C(final D d) { this.d = d; } }",
    "class C { int v guarded_by this; int u write_guarded_by this.l; atomic int m() requires this, a.b { return -1; } }",
    "class W implements Runnable { void run() { new Thread(new W()).start(); } }",
    "class A { void m() { final A a = new A(); A b = a; a.f.g(1, b).h = - 2147483648; } }",
    "class A { void m() { while (a + 1 * 2 < 3 && !b) { synchronized (a.l) { return; } } } }",
];

/// A class with fields that are guarded, and its layout.
static GUARDED_FIELDS: [(&str, &str); 1] = [(
    "class A{int v write_guarded_by this.l;int u guarded_by this;}",
    "class A {\n    int v write_guarded_by this.l;\n    int u guarded_by this;\n}\n",
)];

#[test]
fn programs_of_the_grammar_are_printed(rt: HostRuntime) -> Result<(), Fail> {
    for source in &PROGRAMS {
        written(&rt, rt.alloc(), "print", source.as_bytes())?;
    }
    expect_texts(&rt, rt.alloc(), "print", 0, &GUARDED_FIELDS)
}

/// A class with a field that is guarded for writing only, with one more member.
fn guarded_writes(alloc: Global, member: &str) -> Result<String, Fail> {
    let mut source = String::from_str(
        alloc,
        "class Cell { int v write_guarded_by this; atomic int get() { return this.v; } \
        atomic void inc() { synchronized (this) { this.v = this.v + 1; } } ",
    )?;
    source.push_str(member)?;
    source.push_str("} class Main { void main() { } }")?;
    Ok(source)
}

/// Members of that class, each with the status and the text of `check`.
static GUARDED_WRITES: [(&str, u8, &str); 9] = [
    (
        "",
        0,
        "Cell.get this ? mover : atomic\nCell.inc atomic\nMain.main const\n",
    ),
    (
        "atomic void bad() { this.v = 1; } ",
        2,
        "Cell.bad: declared atomic, found error\n",
    ),
    (
        "atomic void twice() { synchronized (this) { this.inc(); this.inc(); } } ",
        2,
        "Cell.twice: declared atomic, found cmpd\n",
    ),
    // Two reads without the lock are two atomic parts; with it they are one mover.
    (
        "atomic int sum() { return this.v + this.v; } ",
        2,
        "Cell.sum: declared atomic, found cmpd\n",
    ),
    (
        "atomic int sum() { synchronized (this) { return this.v + this.v; } } ",
        0,
        "Cell.get this ? mover : atomic\nCell.inc atomic\nCell.sum this ? mover : atomic\nMain.main const\n",
    ),
    // A read through an alias: one with a path, and one without.
    (
        "int peek(final Cell c) { final Cell d = c; return d.v; } ",
        0,
        "Cell.get this ? mover : atomic\nCell.inc atomic\nCell.peek c ? mover : atomic\nMain.main const\n",
    ),
    (
        "int peek(Cell c) { return c.v; } ",
        0,
        "Cell.get this ? mover : atomic\nCell.inc atomic\nCell.peek atomic\nMain.main const\n",
    ),
    // Writes under another lock, and through what has no path.
    (
        "void put(final Cell c) { synchronized (c) { this.v = 1; } } ",
        2,
        "Cell.put: declared cmpd, found error\n",
    ),
    (
        "void put(Cell c) { c.v = 1; } ",
        2,
        "Cell.put: declared cmpd, found error\n",
    ),
];

/// Guards of writes that are no locks, each with its line.
static NO_GUARDS: [(&str, &str); 2] = [
    (
        "class Main { int v write_guarded_by x; void main() { } }",
        "refused at 1:37: unknown name\n",
    ),
    (
        "class Main { int v write_guarded_by this.v; void main() { } }",
        "refused at 1:37: not a lock\n",
    ),
];

#[test]
fn guarded_writes_are_judged(rt: HostRuntime) -> Result<(), Fail> {
    for (member, status, text) in &GUARDED_WRITES {
        let source = guarded_writes(rt.alloc(), member)?;
        expect(
            &rt,
            rt.alloc(),
            &["check", "a"],
            source.as_bytes(),
            *status,
            text,
        )?;
    }
    expect_texts(&rt, rt.alloc(), "check", 1, &NO_GUARDS)
}

/// The end of the line for a method body that begins with `front` and goes on with `unit`, many times.
fn nested(alloc: Global, front: &str, unit: &str, times: u32) -> Result<Vec<u8>, Fail> {
    let mut source = String::from_str(alloc, "class Main { void main() { ")?;
    source.push_str(front)?;
    for _ in 0..times {
        source.push_str(unit)?;
    }
    Ok(answer(alloc, &["print", "a"], source.as_bytes())?.1)
}

/// Fronts and units that are too many, and their counts.
static TOO_DEEP: [(&str, &str, u32); 11] = [
    ("", "{", 100_000),
    ("a = ", "(", 100_000),
    ("a = ", "!", 100_000),
    ("a = ", "- ", 100_000),
    ("a", ".f", 100_000),
    ("a = 1", "+1", 100_000),
    ("", "if(a);else ", 20_000),
    ("", "while(a)", 20_000),
    ("", "synchronized(a){", 10_000),
    ("a = ", "a.f(", 50_000),
    ("a = ", "new A(", 30_000),
];

#[test]
fn nesting_has_a_limit(rt: HostRuntime) -> Result<(), Fail> {
    let last = nested(rt.alloc(), "", "{", 64)?;
    assert_eq!(rt; last.as_slice(), b"refused at 1:91: too deep\n".as_slice());
    let end = nested(rt.alloc(), "", "{", 63)?;
    assert_eq!(rt; end.as_slice(), b"refused at 1:91: unexpected\n".as_slice());
    for (front, unit, times) in &TOO_DEEP {
        let line = nested(rt.alloc(), front, unit, *times)?;
        assert!(rt; line.as_slice().ends_with(b": too deep\n"), "{unit}");
    }
    Ok(())
}

fn tokens_of<'a>(alloc: Global, source: &'a str) -> Result<Vec<Token<'a>>, Fail> {
    if source.len() > 262_144 {
        Err("the source is too large")?;
    }
    Ok(lex(alloc, source)?)
}

fn tree_of<'a>(alloc: Global, source: &'a str) -> Result<Program<'a>, Fail> {
    let tokens = tokens_of(alloc, source)?;
    if tokens.len() > 262_144 {
        Err("there are too many tokens")?;
    }
    Ok(parse(alloc, tokens.as_slice())?)
}

/// Whether the first statement is an `if` without `else` around one with it.
fn outer_has_no_else(program: &Program) -> bool {
    let Some(class) = program.classes.first() else {
        return false;
    };
    let Some(Member::Method { body, .. }) = class.members.first() else {
        return false;
    };
    let Some(Stmt::If(_, inner, None, _)) = body.first() else {
        return false;
    };
    matches!(&**inner, Stmt::If(_, _, Some(_), _))
}

#[test]
fn else_belongs_to_the_nearest_if(rt: HostRuntime) -> Result<(), Fail> {
    let program = tree_of(
        rt.alloc(),
        "class A { void m() { if (a) if (b) ; else ; } }",
    )?;
    assert!(rt; outer_has_no_else(&program));
    Ok(())
}

#[test]
fn a_token_may_stay_as_long_as_its_source(rt: HostRuntime) -> Result<(), Fail> {
    let source = String::from_str(rt.alloc(), "class Main { }")?;
    let mut tokens = tokens_of(rt.alloc(), source.as_str())?;
    let Some(last) = tokens.pop() else {
        return Err("there is no token")?;
    };
    drop(tokens);
    assert_eq!(rt; (last.text, last.at), ("}", 13));
    Ok(())
}
