//! What the program answers, over a folder and a sink in memory.

use commands::run;
use edge::{MemFolder, MemSink};
use itoa::Buffer;
use std::alloc::Global;
use std::process::Abort;
use std::test::Fail;

/// A program that is accepted: its `main` writes a guarded field while it holds the lock.
pub const LOCKED: &str =
    "class Main { int v guarded_by this; atomic void main() { synchronized (this) { this.v = 7; } } }";

/// These words as a command line has them.
pub fn words_of(alloc: Global, words: &[&str]) -> Result<Vec<String>, Fail> {
    let mut list = Vec::new(alloc);
    for word in words {
        list.push(String::from_str(alloc, word)?)?;
    }
    Ok(list)
}

/// One more file of this name and with these bytes.
pub fn add_file(
    alloc: Global,
    files: &mut Vec<(String, Vec<u8>)>,
    name: &str,
    bytes: &[u8],
) -> Result<(), Fail> {
    let name = String::from_str(alloc, name)?;
    let bytes = bytes.to_vec(alloc)?;
    files.push((name, bytes))?;
    Ok(())
}

/// The status and the text of the words over these files; the folder fails at these calls.
pub fn answer_over(
    alloc: Global,
    words: &[&str],
    files: Vec<(String, Vec<u8>)>,
    fail: Vec<u64>,
) -> Result<(u8, Vec<u8>), Fail> {
    let words = words_of(alloc, words)?;
    let mut folder = MemFolder::new(alloc, files, 4096, fail)?;
    let mut sink = MemSink::new(alloc, 1048576, Vec::new(alloc), 1048576)?;
    let status = run(alloc, words.as_slice(), &mut folder, &mut sink);
    let text = sink.bytes().to_vec(alloc)?;
    Ok((status, text))
}

/// The status and the text of the words, where the file `a` has these bytes.
pub fn answer(alloc: Global, words: &[&str], bytes: &[u8]) -> Result<(u8, Vec<u8>), Fail> {
    let mut files = Vec::new(alloc);
    add_file(alloc, &mut files, "a", bytes)?;
    answer_over(alloc, words, files, Vec::new(alloc))
}

/// The source, followed by blanks up to this many bytes.
fn padded(alloc: Global, source: &str, len: usize) -> Result<Vec<u8>, Fail> {
    let mut bytes = source.as_bytes().to_vec(alloc)?;
    for _ in source.len()..len {
        bytes.push(b' ')?;
    }
    Ok(bytes)
}

/// The words have this status and this text, where the file `a` has these bytes.
pub fn expect(
    rt: &impl Abort,
    alloc: Global,
    words: &[&str],
    bytes: &[u8],
    status: u8,
    text: &str,
) -> Result<(), Fail> {
    let given = answer(alloc, words, bytes)?;
    assert_eq!(rt; given.0, status);
    assert_eq!(rt; given.1.as_slice(), text.as_bytes());
    Ok(())
}

/// Each source has this status and this text under the command.
pub fn expect_rows(
    rt: &impl Abort,
    alloc: Global,
    command: &str,
    rows: &[(&str, u8, &str)],
) -> Result<(), Fail> {
    for (source, status, text) in rows {
        expect(rt, alloc, &[command, "a"], source.as_bytes(), *status, text)?;
    }
    Ok(())
}

/// Each source has this text under the command, and all have one status.
pub fn expect_texts(
    rt: &impl Abort,
    alloc: Global,
    command: &str,
    status: u8,
    rows: &[(&str, &str)],
) -> Result<(), Fail> {
    for (source, text) in rows {
        expect(rt, alloc, &[command, "a"], source.as_bytes(), status, text)?;
    }
    Ok(())
}

/// What the command writes where its status is 0.
pub fn written(
    rt: &impl Abort,
    alloc: Global,
    command: &str,
    bytes: &[u8],
) -> Result<Vec<u8>, Fail> {
    let given = answer(alloc, &[command, "a"], bytes)?;
    assert_eq!(rt; given.0, 0);
    Ok(given.1)
}

/// The source of a method `main` with this body.
pub fn with_body(alloc: Global, before: &str, times: u32, after: &str) -> Result<String, Fail> {
    let mut source = String::from_str(alloc, "class Main { void main() {")?;
    for _ in 0..times {
        source.push_str(before)?;
    }
    for _ in 0..times {
        source.push_str(after)?;
    }
    source.push_str("} }")?;
    Ok(source)
}

/// So many lines between two texts, each with its number.
pub fn numbered(
    alloc: Global,
    before: &str,
    word: &str,
    behind: &str,
    times: u32,
    after: &str,
) -> Result<String, Fail> {
    let mut source = String::from_str(alloc, before)?;
    for number in 0..times {
        source.push_str(word)?;
        source.push_str(Buffer::new().format(number))?;
        source.push_str(behind)?;
    }
    source.push_str(after)?;
    Ok(source)
}

/// The counter program: a cell, workers that raise it, and a `main` that starts two of them. More members of the cell,
/// more statements of `main` and more classes may be put in.
pub fn counter(alloc: Global, in_cell: &str, in_main: &str, behind: &str) -> Result<String, Fail> {
    let mut source = String::from_str(
        alloc,
        "class Cell { int v guarded_by this; atomic void inc() { synchronized (this) { this.v = this.v + 1; } } ",
    )?;
    source.push_str(in_cell)?;
    source.push_str(
        "} class W implements Runnable { final Cell c; W(Cell c) { this.c = c; } public void run() { this.c.inc(); } } \
        class Main { void main() { final Cell c = new Cell(); new Thread(new W(c)).start(); new Thread(new W(c)).start(); ",
    )?;
    source.push_str(in_main)?;
    source.push_str("} } ")?;
    source.push_str(behind)?;
    Ok(source)
}

/// The layout of a class `Main` with an empty `main`.
const EMPTY: &str = "class Main {\n    void main() {\n    }\n}\n";

/// Sources, each with its layout.
static LAYOUTS: [(&str, &str); 4] = [
    ("class Main{void main(){}}", EMPTY),
    ("public class Main{public void main(){}}", EMPTY),
    (
        "class Main{void main(){if(true){;}else{}}}",
        "class Main {\n    void main() {\n        if (true) {\n            ;\n        }\n        else {\n        }\n    }\n}\n",
    ),
    ("", ""),
];

#[test]
fn print_writes_the_canonical_layout(rt: HostRuntime) -> Result<(), Fail> {
    expect_texts(&rt, rt.alloc(), "print", 0, &LAYOUTS)
}

/// A source with every production of the grammar.
const EVERYTHING: &str =
    "public class A implements Runnable { final int n; final A b; int v guarded_by this.b; boolean t; A(int n, final A b) { this.n = n; this.b = b; } \
    public atomic int f(final A x, int y) requires this, x.b { final A c = x; int d = -y + 2 * (3 - 1) / 4 % 5; boolean e = !true || false && y < 3 == (y >= 4) != (y <= 5) || y > 6; \
    if (e) { } else if (!e) d = -2147483648; else ; while (d == 1) { c.v = null.n; } synchronized (x.b) { this.f(c, d).v = new A(1, null).n; } \
    System.out.println(d); new Thread(c).start(); new A(1, null); this.f(c, 1); { return d; } } void run() { return; } }";

#[test]
fn what_is_printed_is_printed_so_again(rt: HostRuntime) -> Result<(), Fail> {
    let once = written(&rt, rt.alloc(), "print", EVERYTHING.as_bytes())?;
    let twice = written(&rt, rt.alloc(), "print", once.as_slice())?;
    assert_eq!(rt; twice.as_slice(), once.as_slice());
    Ok(())
}

#[test]
fn a_body_is_at_most_64_high(rt: HostRuntime) -> Result<(), Fail> {
    let high = with_body(rt.alloc(), "{", 64, "}")?;
    let line = "refused at 1:90: too deep\n";
    expect(&rt, rt.alloc(), &["print", "a"], high.as_bytes(), 1, line)?;
    let low = with_body(rt.alloc(), "{", 63, "}")?;
    written(&rt, rt.alloc(), "print", low.as_bytes())?;
    Ok(())
}

/// The line for words that are no command.
pub const USAGE: &str =
    "usage: atomic check FILE | run FILE SCHEDULE | serialise FILE SCHEDULE | derive FILE | verify FILE BOOK | print FILE | generate N | serialise-open FILE SCHEDULE | blame FILE | verify-blame FILE CERT | levels FILE LEVELS | replay FILE SCHEDULE\n";

/// Words with a status of their own, and their text.
static WORDS: [(&[&str], u8, &str); 5] = [
    (&["check"], 9, USAGE),
    (&[], 9, USAGE),
    (&["generate", "a"], 9, USAGE),
    (&["check", "z"], 6, "cannot read z\n"),
    (&["print", "z"], 6, "cannot read z\n"),
];

#[test]
fn each_row_of_words_has_its_status(rt: HostRuntime) -> Result<(), Fail> {
    for (words, status, text) in &WORDS {
        expect(&rt, rt.alloc(), words, LOCKED.as_bytes(), *status, text)?;
    }
    Ok(())
}

#[test]
fn a_source_has_at_most_262144_bytes(rt: HostRuntime) -> Result<(), Fail> {
    let source = counter(rt.alloc(), "", "", "")?;
    let full = padded(rt.alloc(), source.as_str(), 262144)?;
    let judged = "Cell.inc this ? mover : atomic\nW.run this.c ? mover : atomic\nMain.main cmpd\n";
    expect(&rt, rt.alloc(), &["check", "a"], full.as_slice(), 0, judged)?;
    let over = padded(rt.alloc(), source.as_str(), 262145)?;
    let refused = "a is too large\n";
    expect(
        &rt,
        rt.alloc(),
        &["check", "a"],
        over.as_slice(),
        10,
        refused,
    )?;
    expect(
        &rt,
        rt.alloc(),
        &["print", "a"],
        over.as_slice(),
        10,
        refused,
    )
}
