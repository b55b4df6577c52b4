//! What `verify` answers to books that are only hard to judge: their trees look at many paths, so that the value of a rule would be a
//! large tree.

use crate::book_tests::expect_derived;
use crate::schedule_tests::expect;
use std::alloc::Global;
use std::process::Abort;
use std::test::Fail;

/// A call of a constructor with ten arguments.
const MADE: &str = "class Main { void main() { new C(1, 1, 1, 1, 1, 1, 1, 1, 1, 1); } } \
    class C { final int a; final int b; final int c; final int d; final int e; \
    final int f; final int g; final int h; final int i; final int j; \
    C(int a, int b, int c, int d, int e, int f, int g, int h, int i, int j) { \
    this.a = a; this.b = b; this.c = c; this.d = d; this.e = e; \
    this.f = f; this.g = g; this.h = h; this.i = i; this.j = j; } }";

/// What stands behind the calls, where there are many.
const MADE_CLASS: &str = "} } \
    class C { final int a; final int b; final int c; final int d; final int e; \
    final int f; final int g; final int h; final int i; final int j; \
    C(int a, int b, int c, int d, int e, int f, int g, int h, int i, int j) { \
    this.a = a; this.b = b; this.c = c; this.d = d; this.e = e; \
    this.f = f; this.g = g; this.h = h; this.i = i; this.j = j; } }";

/// A final local and ten empty statements.
const LOCAL: &str = "class Main { void main() { final int x = 1; ;;;;;;;;;; } }";

/// A loop.
const LOOP: &str = "class Main { void main() { while (true) ; } }";

/// A method that does nothing.
const NOTHING: &str = "class Main { void main() { } }";

/// A method with eight relevant paths and eight at its locals.
const NEAR: &str = "class Lock { int v guarded_by this; } class Main { void main() { } \
    void f(final Lock a, final Lock b, final Lock c, final Lock d, final Lock e, final Lock f, final Lock g, final Lock h) { \
    final Lock i = new Lock(); final Lock j = new Lock(); final Lock k = new Lock(); final Lock l = new Lock(); \
    final Lock m = new Lock(); final Lock n = new Lock(); final Lock o = new Lock(); final Lock p = new Lock(); \
    synchronized (a) { synchronized (b) { synchronized (c) { synchronized (d) { \
    synchronized (e) { synchronized (f) { synchronized (g) { synchronized (h) { \
    synchronized (i) { synchronized (j) { synchronized (k) { synchronized (l) { \
    synchronized (m) { synchronized (n) { synchronized (o) { synchronized (p) { a.v = 1; p.v = a.v; i.v = h.v; } } } } } } } } } } } } } } } } } }";

/// A table of a tree for the method, `const`, and ten trees on paths of their own, each atomic at one set of its two paths and a mover
/// at the three others.
fn table(alloc: Global, own: &str) -> Result<String, Fail> {
    let mut text = String::from_str(alloc, "book 12\n")?;
    text.push_str(own)?;
    text.push_str("\nconst\n")?;
    for place in 2..12u32 {
        let tree = format!(in alloc; "({place} ({place}.1 atomic mover) mover)\n")?;
        text.push_str(tree.as_str())?;
    }
    Ok(text)
}

/// A node's text for each of the ten trees, with this word.
fn ten_nodes(alloc: Global, word: &str) -> Result<String, Fail> {
    let mut text = String::new(alloc);
    for number in 2..12u32 {
        let node = format!(in alloc; " ({word} {number})")?;
        text.push_str(node.as_str())?;
    }
    Ok(text)
}

/// The derivation of a method with ten nodes in it: how it begins, the word of the ten nodes, and how it ends.
struct TenNodes<'t> {
    before: &'t str,
    word: &'t str,
    behind: &'t str,
}

/// A book with the ten trees, whose method has this tree and this derivation.
fn ten_trees(alloc: Global, own: &str, derived: &TenNodes<'_>) -> Result<String, Fail> {
    let mut text = table(alloc, own)?;
    let nodes = ten_nodes(alloc, derived.word)?;
    text.push_str("method 0 0\n")?;
    text.push_str(derived.before)?;
    text.push_str(nodes.as_str())?;
    text.push_str(derived.behind)?;
    text.push_str("\nend\n")?;
    Ok(text)
}

/// The book is verified where its method may be compound, and refused at this node where it claims to be atomic.
fn expect_judged(
    rt: &impl Abort,
    alloc: Global,
    source: &str,
    derived: &TenNodes<'_>,
    line: &str,
) -> Result<(), Fail> {
    let good = ten_trees(alloc, "cmpd", derived)?;
    expect(
        rt,
        alloc,
        "verify",
        source,
        good.as_bytes(),
        (0, b"verified\n"),
    )?;
    let wrong = ten_trees(alloc, "atomic", derived)?;
    expect(
        rt,
        alloc,
        "verify",
        source,
        wrong.as_bytes(),
        (11, line.as_bytes()),
    )
}

#[test]
fn arguments_with_many_paths_are_judged(rt: HostRuntime) -> Result<(), Fail> {
    expect_judged(
        &rt,
        rt.alloc(),
        MADE,
        &TenNodes {
            before: "(block 0 (do 0 (new 0",
            word: "lit",
            behind: ")))",
        },
        "book refused: method 0 node 2: step\n",
    )
}

/// How often `MADE`'s constructor is called, so that all ways that make trees would take too much work.
const MANY: u32 = 3000;

/// The source `MADE` with so many calls in its first method.
fn many_made(alloc: Global) -> Result<String, Fail> {
    let mut text = String::from_str(alloc, "class Main { void main() { ")?;
    for _ in 0..MANY {
        text.push_str("new C(1, 1, 1, 1, 1, 1, 1, 1, 1, 1); ")?;
    }
    text.push_str(MADE_CLASS)?;
    Ok(text)
}

/// A book for it, whose method has this tree: each call's arguments have the ten trees.
fn many_trees(alloc: Global, own: &str) -> Result<String, Fail> {
    let mut text = table(alloc, own)?;
    let nodes = ten_nodes(alloc, "lit")?;
    text.push_str("method 0 0\n(block 0")?;
    for _ in 0..MANY {
        text.push_str(" (do 0 (new 0")?;
        text.push_str(nodes.as_str())?;
        text.push_str("))")?;
    }
    text.push_str(")\nend\n")?;
    Ok(text)
}

#[test]
fn many_nodes_with_many_paths_are_judged(rt: HostRuntime) -> Result<(), Fail> {
    let source = many_made(rt.alloc())?;
    let good = many_trees(rt.alloc(), "cmpd")?;
    expect(
        &rt,
        rt.alloc(),
        "verify",
        source.as_str(),
        good.as_bytes(),
        (0, b"verified\n"),
    )?;
    let wrong = many_trees(rt.alloc(), "atomic")?;
    expect(
        &rt,
        rt.alloc(),
        "verify",
        source.as_str(),
        wrong.as_bytes(),
        (11, b"book refused: method 0 node 0: step\n"),
    )
}

#[test]
fn blocks_with_many_paths_are_judged(rt: HostRuntime) -> Result<(), Fail> {
    expect_judged(
        &rt,
        rt.alloc(),
        LOCAL,
        &TenNodes {
            before: "(block 0 (local 0 (lit 1))",
            word: "skip",
            behind: ")",
        },
        "book refused: method 0 node 0: step\n",
    )
}

/// Paths of one loop's condition, and of its body.
static EVEN_PATHS: [u32; 7] = [0, 2, 4, 6, 8, 10, 12];

static ODD_PATHS: [u32; 7] = [1, 3, 5, 7, 9, 11, 13];

/// Paths of others.
static OTHER_PATHS: [u32; 14] = [1, 2, 3, 4, 5, 6, 7, 8, 9, 10, 11, 12, 13, 14];

/// A tree with a test on each of these paths: atomic where an even number of them is held, and a mover elsewhere.
fn write_parity(alloc: Global, text: &mut String, paths: &[u32], even: bool) -> Result<(), Fail> {
    let Some((path, rest)) = paths.split_first() else {
        text.push_str(if even { "atomic" } else { "mover" })?;
        return Ok(());
    };
    let path = *path;
    let test = format!(in alloc; "({path} ")?;
    text.push_str(test.as_str())?;
    write_parity(alloc, text, rest, !even)?;
    text.push_str(" ")?;
    write_parity(alloc, text, rest, even)?;
    text.push_str(")")?;
    Ok(())
}

/// A book for a loop, whose condition looks at seven paths and whose body at seven others.
fn turns(alloc: Global, own: &str) -> Result<String, Fail> {
    let mut text = String::from_str(alloc, "book 3\n")?;
    text.push_str(own)?;
    text.push_str("\n")?;
    write_parity(alloc, &mut text, &EVEN_PATHS, true)?;
    text.push_str("\n")?;
    write_parity(alloc, &mut text, &ODD_PATHS, true)?;
    text.push_str("\nmethod 0 0\n(block 0 (while 0 (lit 1) (skip 2)))\nend\n")?;
    Ok(text)
}

#[test]
fn loops_with_many_paths_are_judged(rt: HostRuntime) -> Result<(), Fail> {
    let good = turns(rt.alloc(), "cmpd")?;
    expect(
        &rt,
        rt.alloc(),
        "verify",
        LOOP,
        good.as_bytes(),
        (0, b"verified\n"),
    )?;
    let wrong = turns(rt.alloc(), "atomic")?;
    expect(
        &rt,
        rt.alloc(),
        "verify",
        LOOP,
        wrong.as_bytes(),
        (11, b"book refused: method 0 node 1: step\n"),
    )
}

/// A book of one tree over 14 paths that aren't the method's, and a body that does nothing.
fn foreign(alloc: Global) -> Result<String, Fail> {
    let mut text = String::from_str(alloc, "book 2\n")?;
    write_parity(alloc, &mut text, &OTHER_PATHS, true)?;
    text.push_str("\nconst\nmethod 0 0\n(block 1)\nend\n")?;
    Ok(text)
}

#[test]
fn a_large_tree_over_paths_of_others_is_refused(rt: HostRuntime) -> Result<(), Fail> {
    let book = foreign(rt.alloc())?;
    expect(
        &rt,
        rt.alloc(),
        "verify",
        NOTHING,
        book.as_bytes(),
        (11, b"book refused: method 0: table\n"),
    )
}

/// A book for `LOCAL` in which each later tree tests a path of the local, so that no way is left but too large a tree.
fn beyond(alloc: Global) -> Result<String, Fail> {
    let mut text = String::from_str(alloc, "book 12\ncmpd\nconst\n")?;
    for place in 2..12u32 {
        let tree = format!(in alloc; "(1.{place} ({place}.1 atomic mover) mover)\n")?;
        text.push_str(tree.as_str())?;
    }
    let nodes = ten_nodes(alloc, "skip")?;
    text.push_str("method 0 0\n(block 0 (local 0 (lit 1))")?;
    text.push_str(nodes.as_str())?;
    text.push_str(")\nend\n")?;
    Ok(text)
}

#[test]
fn the_bound_of_work_is_met(rt: HostRuntime) -> Result<(), Fail> {
    let book = beyond(rt.alloc())?;
    expect(&rt, rt.alloc(), "verify", LOCAL, book.as_bytes(), (8, b""))
}

#[test]
fn many_near_paths_meet_no_bound(rt: HostRuntime) -> Result<(), Fail> {
    expect_derived(&rt, rt.alloc(), NEAR)
}
