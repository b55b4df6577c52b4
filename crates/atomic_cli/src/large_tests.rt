//! A schedule of 200,000 entries, as another tool would write it, and books that are too long to be judged in memory.

use crate::schedule_tests::{expect, expect_read_again};
use crate::tests::LOCKED;
use std::alloc::Global;
use std::test::Fail;

/// Two workers that raise a counter for ever.
const WORKERS: &str =
    "class Cell { int v guarded_by this; atomic void inc() { synchronized (this) { this.v = this.v + 1; } } } \
    class W implements Runnable { final Cell c; W(Cell c) { this.c = c; } public void run() { while (true) { this.c.inc(); } } } \
    class Main { void main() { final Cell c = new Cell(); new Thread(new W(c)).start(); new Thread(new W(c)).start(); } }";

/// In each of 6,666 lines the first worker calls `inc`, the second calls it and returns, and the first goes on.
fn schedule(alloc: Global) -> Result<Vec<u8>, Fail> {
    let mut text = Vec::new(alloc);
    text.extend_from_slice(b"# by another tool\n0*10 1 2\n")?;
    for _line in 0..6666 {
        text.extend_from_slice(b"1*6 2*15\t# the second is first\n1*9\n")?;
    }
    text.extend_from_slice(b"1*4 2*4\n")?;
    Ok(text)
}

#[test]
fn serialise_reads_its_own_large_output(rt: HostRuntime) -> Result<(), Fail> {
    let text = schedule(rt.alloc())?;
    expect_read_again(&rt, rt.alloc(), WORKERS, text.as_slice())
}

/// A book for `LOCKED` with this derivation. Its table has 235,300 trees that no node names, so that it has more than 4,000,000
/// bytes.
fn long_book(alloc: Global, nodes: &str) -> Result<String, Fail> {
    let mut text = String::from_str(
        alloc,
        "book 235303\n(0 mover atomic)\n(0 mover error)\nconst\n",
    )?;
    for _tree in 0..235300u32 {
        text.push_str("(0 mover atomic)\n")?;
    }
    text.push_str("method 0 0\n")?;
    text.push_str(nodes)?;
    text.push_str("\nend\n")?;
    Ok(text)
}

/// Derivations for `LOCKED`, each with the status and the text of `verify`.
static DERIVATIONS: [(&str, u8, &str); 4] = [
    (
        "(block 0 (sync 0 (block 1 (put 1 (this 2) (lit 2)))))",
        0,
        "verified\n",
    ),
    (
        "(block 0 (sync 0 (block 1 (set 1 (lit 2)))))",
        11,
        "book refused: method 0 node 3: shape\n",
    ),
    (
        "(block 0 (sync 2 (block 1 (put 1 (this 2) (lit 2)))))",
        11,
        "book refused: method 0 node 1: step\n",
    ),
    (
        "(block 0 (sync 0 (block 1 (put 1 (this 235303) (lit 2)))))",
        11,
        "book refused at byte 4000201: form\n",
    ),
];

#[test]
fn long_books_are_judged(rt: HostRuntime) -> Result<(), Fail> {
    for (nodes, status, text) in &DERIVATIONS {
        let given = long_book(rt.alloc(), nodes)?;
        expect(
            &rt,
            rt.alloc(),
            "verify",
            LOCKED,
            given.as_bytes(),
            (*status, text.as_bytes()),
        )?;
    }
    Ok(())
}
