//! What the program answers to the rows on books.

use crate::check_tests::{APPEND_LOCKED, EIGHT_LOCKS};
use crate::schedule_tests::{answer_failing, expect, expect_inputs};
use crate::tests::{LOCKED, counter, expect_rows, written};
use std::alloc::Global;
use std::process::Abort;
use std::test::Fail;

/// The book of `LOCKED`, in parts: its trees, its derivation, and its last line.
const TREES: &str = "(0 mover atomic)\n(0 mover error)\nconst\n";

const NODES: &str = "(block 0 (sync 0 (block 1 (put 1 (this 2) (lit 2)))))\n";

const END: &str = "end\n";

/// A book of one method with these trees, this derivation and this end.
fn book(alloc: Global, trees: &str, nodes: &str, end: &str) -> Result<String, Fail> {
    let mut text = String::from_str(alloc, "book 3\n")?;
    text.push_str(trees)?;
    text.push_str("method 0 0\n")?;
    text.push_str(nodes)?;
    text.push_str(end)?;
    Ok(text)
}

/// Books for `LOCKED`, each with the status and the text of `verify`.
static BOOKS: [(&str, &str, &str, u8, &str); 16] = [
    (TREES, NODES, END, 0, "verified\n"),
    (
        "(0 mover atomic)\n(0 mover error)\nmover\n",
        NODES,
        END,
        0,
        "verified\n",
    ),
    (
        "(0 mover atomic)\n(0 const error)\nconst\n",
        NODES,
        END,
        11,
        "book refused: method 0 node 3: step\n",
    ),
    (
        TREES,
        "(block 0 (sync 0 (block 1 (set 1 (lit 2)))))\n",
        END,
        11,
        "book refused: method 0 node 3: shape\n",
    ),
    (
        "(0 mover cmpd)\n(0 mover error)\nconst\n",
        NODES,
        END,
        11,
        "book refused: method 0: bound\n",
    ),
    (
        "(0 atomic mover)\n(0 mover error)\nconst\n",
        NODES,
        END,
        11,
        "book refused: method 0: table\n",
    ),
    (TREES, NODES, "end", 11, "book refused at byte 114: form\n"),
    (TREES, NODES, "", 11, "book refused at byte 111: form\n"),
    (
        TREES,
        "(block 0 (sync 1 (block 1 (put 1 (this 2) (lit 2)))))\n",
        END,
        11,
        "book refused: method 0 node 0: step\n",
    ),
    (
        TREES,
        "(block 0 (sync 0 (block 1 (put 3 (this 2) (lit 2)))))\n",
        END,
        11,
        "book refused at byte 88: form\n",
    ),
    (
        TREES,
        "(block 0 (sync 0 (block 1 (put 2 (this 2) (lit 2)))))\n",
        END,
        11,
        "book refused: method 0 node 3: step\n",
    ),
    (
        "(0 mover atomic)\n(0 mover cmpd)\nconst\n",
        NODES,
        END,
        11,
        "book refused: method 0 node 3: step\n",
    ),
    (
        TREES,
        NODES,
        "method 1 0\n(block 0 (sync 0 (block 1 (put 1 (this 2) (lit 2)))))\nend\n",
        11,
        "book refused: method 1 node 0: shape\n",
    ),
    (
        TREES,
        "(block 0 (sync 0 (block 1 (put 1 (this 2)))))\n",
        END,
        11,
        "book refused: method 0 node 3: shape\n",
    ),
    (
        "(7 mover atomic)\n(0 mover error)\nconst\n",
        NODES,
        END,
        11,
        "book refused: method 0: table\n",
    ),
    (
        TREES,
        NODES,
        "method 0 0\n(block 0 (sync 0 (block 1 (put 1 (this 2) (lit 2)))))\nend\n",
        11,
        "book refused: method 1 node 0: shape\n",
    ),
];

/// Texts that are no books, each with the line of its first fault.
static NO_BOOKS: [(&str, &str); 16] = [
    ("", "book refused at byte 0: form\n"),
    ("book", "book refused at byte 4: form\n"),
    ("book 01\n", "book refused at byte 6: form\n"),
    ("book 4294967296", "book refused at byte 5: form\n"),
    ("book 4294967295", "book refused at byte 15: form\n"),
    ("book 0\nmethod 0 0", "book refused at byte 16: form\n"),
    (
        "book 1\nconst\nmethod 4294967296",
        "book refused at byte 20: form\n",
    ),
    (
        "book 1\nconst\nmethod 0 1",
        "book refused at byte 22: form\n",
    ),
    (
        "book 1\nconst\nmethod 0 0\n(lit 1",
        "book refused at byte 29: form\n",
    ),
    ("book 1\nend\n", "book refused at byte 8: form\n"),
    ("book 1\nmethod 0 0\n", "book refused at byte 8: form\n"),
    (
        "book 1\n(65536 mover const)\nend\n",
        "book refused at byte 8: form\n",
    ),
    (
        "book 1\n(0 mover mover)\nend\n",
        "book refused at byte 7: form\n",
    ),
    (
        "book 1\n(1 (0 mover const) atomic)\nend\n",
        "book refused at byte 7: form\n",
    ),
    (
        "book 1\n(0 mover const) \nend\n",
        "book refused at byte 22: form\n",
    ),
    (
        "book 1\nconst\nmethod 0 0\n(lit 0)\nend\n\n",
        "book refused at byte 36: form\n",
    ),
];

#[test]
fn texts_that_are_no_books_have_their_first_fault(rt: HostRuntime) -> Result<(), Fail> {
    for (text, line) in &NO_BOOKS {
        expect(
            &rt,
            rt.alloc(),
            "verify",
            LOCKED,
            text.as_bytes(),
            (11, line.as_bytes()),
        )?;
    }
    Ok(())
}

/// One method that calls another.
const CALLS: &str = "class Main { void main() { this.f(); } void f() { } }";

/// Books for `CALLS`, with the line of `verify`. A test of a callee's tree on a path that isn't relevant there counts as not held. All
/// shapes come before the first step, and a body is compared with its method's tree at all sets.
static CALLED: [(&str, u8, &str); 6] = [
    (
        "book 1\nconst\nmethod 0 0\n(block 0 (do 0 (call 0 (this 0))))\nmethod 1 0\n(block 0)\nend\n",
        0,
        "verified\n",
    ),
    (
        "book 2\nconst\n(5 mover const)\nmethod 0 0\n(block 0 (do 0 (call 0 (this 0))))\nmethod 1 1\n(block 0)\nend\n",
        11,
        "book refused: method 1: table\n",
    ),
    (
        "book 2\ncmpd\n(5 const mover)\nmethod 0 0\n(block 1 (do 1 (call 1 (this 1))))\nmethod 1 1\n(block 1)\nend\n",
        11,
        "book refused: method 0 node 2: step\n",
    ),
    (
        "book 2\nconst\nmover\nmethod 0 0\n(block 0 (do 0 (call 0 (this 1))))\nmethod 1 0\n(block 0 (skip 0))\nend\n",
        11,
        "book refused: method 1 node 0: shape\n",
    ),
    (
        "book 2\nconst\n(5 mover const)\nmethod 0 0\n(block 1 (do 0 (call 0 (this 0))))\nmethod 1 0\n(block 0)\nend\n",
        11,
        "book refused: method 0 node 0: step\n",
    ),
    (
        "book 1\nconst\nmethod 0 0\n(block 0 (do 0 (call 0 (this 0))))\nend\n",
        11,
        "book refused: method 1 node 0: shape\n",
    ),
];

#[test]
fn faults_of_books_are_told_in_order(rt: HostRuntime) -> Result<(), Fail> {
    expect_inputs(&rt, rt.alloc(), "verify", CALLS, &CALLED)
}

#[test]
fn verify_tells_what_is_wrong_first(rt: HostRuntime) -> Result<(), Fail> {
    for (trees, nodes, end, status, text) in &BOOKS {
        let given = book(rt.alloc(), trees, nodes, end)?;
        expect(
            &rt,
            rt.alloc(),
            "verify",
            LOCKED,
            given.as_bytes(),
            (*status, text.as_bytes()),
        )?;
    }
    Ok(())
}

#[test]
fn a_derivation_is_at_most_64_high(rt: HostRuntime) -> Result<(), Fail> {
    let mut given = String::from_str(rt.alloc(), "book 1\nconst\nmethod 0 0\n")?;
    for _ in 0..65u32 {
        given.push_str("(block 0 ")?;
    }
    let line = "book refused at byte 600: too deep\n";
    expect(
        &rt,
        rt.alloc(),
        "verify",
        LOCKED,
        given.as_bytes(),
        (11, line.as_bytes()),
    )
}

#[test]
fn derive_writes_the_book_of_the_least_assignment(rt: HostRuntime) -> Result<(), Fail> {
    let given = book(rt.alloc(), TREES, NODES, END)?;
    expect_rows(
        &rt,
        rt.alloc(),
        "derive",
        &[
            (LOCKED, 0, given.as_str()),
            (
                "class Main { int u; atomic void main() { this.u = 1; this.u = 2; } }",
                2,
                "Main.main: declared atomic, found cmpd\n",
            ),
        ],
    )
}

/// What is derived for the source is verified.
pub fn expect_derived(rt: &impl Abort, alloc: Global, source: &str) -> Result<(), Fail> {
    let derived = written(rt, alloc, "derive", source.as_bytes())?;
    expect(
        rt,
        alloc,
        "verify",
        source,
        derived.as_slice(),
        (0, b"verified\n"),
    )
}

#[test]
fn what_is_derived_is_verified(rt: HostRuntime) -> Result<(), Fail> {
    let source = counter(
        rt.alloc(),
        "atomic void down(int k) requires this { if (k > 0) { this.v = this.v + k; this.down(k - 1); this.down(k - 1); } } ",
        "",
        "class Box { final Cell c; Box(Cell c) { this.c = c; } atomic void clear() { final Cell x = this.c; synchronized (x) { x.v = 0; } } }",
    )?;
    expect_derived(&rt, rt.alloc(), LOCKED)?;
    expect_derived(&rt, rt.alloc(), APPEND_LOCKED)?;
    expect_derived(&rt, rt.alloc(), EIGHT_LOCKS)?;
    expect_derived(&rt, rt.alloc(), source.as_str())
}

/// The bytes with `0` in the place of this one.
fn damaged(alloc: Global, bytes: &[u8], at: usize) -> Result<Vec<u8>, Fail> {
    let mut given = Vec::new(alloc);
    for (place, byte) in bytes.iter().enumerate() {
        if place == at {
            given.push(b'0')?;
        } else {
            given.push(*byte)?;
        }
    }
    Ok(given)
}

/// The text is a good book for `LOCKED`, or a refused one.
fn expect_judged(rt: &impl Abort, alloc: Global, text: &[u8]) -> Result<(), Fail> {
    let given = answer_failing(alloc, "verify", LOCKED, text, Vec::new(alloc))?;
    assert!(rt; given.0 == 0 || given.0 == 11);
    Ok(())
}

#[test]
fn a_damaged_book_is_good_or_refused(rt: HostRuntime) -> Result<(), Fail> {
    let whole = book(rt.alloc(), TREES, NODES, END)?;
    for at in 0..115usize {
        let bytes = damaged(rt.alloc(), whole.as_bytes(), at)?;
        expect_judged(&rt, rt.alloc(), bytes.as_slice())?;
    }
    Ok(())
}
