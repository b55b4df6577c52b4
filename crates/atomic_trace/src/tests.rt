//! What the program answers, over a folder and a sink in memory.

use edge::{MemFolder, MemSink};
use std::alloc::Global;
use std::process::Abort;
use std::test::Fail;
use trace_commands::run;

/// What is written for words that ask for nothing.
const USAGE: &str = "usage: atomic_trace LOG [--guards FILE]\n";

/// A log in which a block begins in the middle of another one.
const COUNTED: &str =
    "m start t\nm begin add\nm take c\nm read v 0\nt begin add\nm write v 1\nm give c\nm end\nt take c\nt change v 1 2\nt give c\nt end\nt stop\nm join t\n";

/// Logs, each with its status and text: serial ones, texts that are none, blocks that may be cut, lines that can't have happened, a
/// block that is open.
static JUDGED: [(&str, u8, &str); 24] = [
    ("", 0, "serial\n"),
    (COUNTED, 0, "serial\n"),
    (
        "t begin b\nt take l\nt take l\nt give l\nt give l\nt end\n",
        0,
        "serial\n",
    ),
    (
        "t begin b\nt begin c\nt write p 1\nt end\nt write p 2\nt end\n",
        0,
        "serial\n",
    ),
    ("t jump\n", 1, "a:1: error: not a line of a log\n"),
    ("t stop\n\n", 1, "a:2: error: not a line of a log\n"),
    ("t begin b\nt end", 1, "a:2: error: not a line of a log\n"),
    (
        "t take l\nt take  l\n",
        1,
        "a:2: error: not a line of a log\n",
    ),
    (
        "t begin b\nt take l\nt give l\nt take k\n",
        2,
        "a:4: error: t may be cut before this event\na:1: note: b begins here\na:3: note: after this event others may see the block\na:4: note: it takes k here: held from the beginning of the block on it would help\n",
    ),
    (
        "t begin b\nt write p 1\nu write p 2\nt read p 2\n",
        2,
        "a:4: error: t may be cut before this event\na:1: note: b begins here\na:2: note: after this event others may see the block\na:4: note: nothing guards p: a lock that is held at each access would help\n",
    ),
    (
        "u start t\nt begin b\nt take l\nt give l\nt join u\n",
        3,
        "a:5: error: this can't have happened: the thread has not ended\n",
    ),
    (
        "t take l\nu take l\n",
        3,
        "a:2: error: this can't have happened: the lock is held by another\n",
    ),
    (
        "t take l\nu give l\n",
        3,
        "a:2: error: this can't have happened: the lock is not held by this thread\n",
    ),
    (
        "t write p 1\nt read p 2\n",
        3,
        "a:2: error: this can't have happened: the place holds another value\n",
    ),
    (
        "t read p 1\nt change p 2 3\n",
        3,
        "a:2: error: this can't have happened: the place holds another value\n",
    ),
    (
        "t end\n",
        3,
        "a:1: error: this can't have happened: no block is open\n",
    ),
    (
        "t start u\nt start u\n",
        3,
        "a:2: error: this can't have happened: the thread was there already\n",
    ),
    (
        "t start u\nt join u\n",
        3,
        "a:2: error: this can't have happened: the thread has not ended\n",
    ),
    (
        "t stop\nt take l\n",
        3,
        "a:2: error: this can't have happened: the thread has ended\n",
    ),
    (
        "t stop\nt stop\n",
        3,
        "a:2: error: this can't have happened: the thread has ended\n",
    ),
    (
        "t stop\nt begin b\n",
        3,
        "a:2: error: this can't have happened: the thread has ended\n",
    ),
    (
        "t begin b\nt write p 1\n",
        4,
        "a:3: error: t is still inside a block at the end\na:1: note: b begins here\n",
    ),
    (
        "t begin b\nt begin c\nt end\n",
        4,
        "a:4: error: t is still inside a block at the end\na:1: note: b begins here\n",
    ),
    (
        "u start t\nu stop\nt begin b\nt take l\nt give l\nt join u\n",
        2,
        "a:6: error: t may be cut before this event\na:3: note: b begins here\na:5: note: after this event others may see the block\na:6: note: no guard helps: it waits for another thread here\n",
    ),
];

/// Guards, each with the status and the text of one log that writes a place twice in a block, with a lock held.
static GUARDED: [(&str, u8, &str); 8] = [
    ("p lock l\n", 0, "serial\n"),
    ("p thread t\n", 0, "serial\n"),
    ("p lock k\np lock l\n", 0, "serial\n"),
    (
        "",
        2,
        "a:4: error: t may be cut before this event\na:1: note: b begins here\na:3: note: after this event others may see the block\na:4: note: nothing guards p: a lock that is held at each access would help\n",
    ),
    (
        "p free\n",
        2,
        "a:4: error: t may be cut before this event\na:1: note: b begins here\na:3: note: after this event others may see the block\na:4: note: nothing guards p: a lock that is held at each access would help\n",
    ),
    (
        "p lock k\n",
        2,
        "a:3: error: t may be cut before this event\na:1: note: b begins here\na:3: note: p is guarded by k, which t does not hold here\n",
    ),
    (
        "p thread u\n",
        2,
        "a:3: error: t may be cut before this event\na:1: note: b begins here\na:3: note: p is used by u alone\n",
    ),
    (
        "p lock l\np free l\n",
        1,
        "g:2: error: not a line of guards\n",
    ),
];

/// Words, each with its status and text, where the file `a` is a log, `g` guards, and there is no other.
static ASKED: [(&[&str], u8, &str); 8] = [
    (&["a"], 0, "serial\n"),
    (&["a", "--guards", "g"], 0, "serial\n"),
    (&[], 9, USAGE),
    (&["a", "g"], 9, USAGE),
    (&["a", "--guards"], 9, USAGE),
    (&["a", "--guards", "g", "g"], 9, USAGE),
    (&["b"], 6, "cannot read b\n"),
    (&["a", "--guards", "b"], 6, "cannot read b\n"),
];

/// The status and the text of the words, where the files `a` and `g` have these bytes.
fn answer(alloc: Global, words: &[&str], log: &str, guards: &str) -> Result<(u8, Vec<u8>), Fail> {
    let mut list = Vec::new(alloc);
    for word in words {
        list.push(String::from_str(alloc, word)?)?;
    }
    let mut files = Vec::new(alloc);
    files.push((String::from_str(alloc, "a")?, log.as_bytes().to_vec(alloc)?))?;
    files.push((
        String::from_str(alloc, "g")?,
        guards.as_bytes().to_vec(alloc)?,
    ))?;
    let mut folder = MemFolder::new(alloc, files, 4096, Vec::new(alloc))?;
    let mut sink = MemSink::new(alloc, 1048576, Vec::new(alloc), 1048576)?;
    let status = run(alloc, list.as_slice(), &mut folder, &mut sink);
    let text = sink.bytes().to_vec(alloc)?;
    Ok((status, text))
}

/// The words have this status and this text.
fn expect(
    rt: &impl Abort,
    alloc: Global,
    words: &[&str],
    files: (&str, &str),
    said: (u8, &str),
) -> Result<(), Fail> {
    let given = answer(alloc, words, files.0, files.1)?;
    assert_eq!(rt; given.0, said.0);
    assert_eq!(rt; given.1.as_slice(), said.1.as_bytes());
    Ok(())
}

#[test]
fn logs_are_judged(rt: HostRuntime) -> Result<(), Fail> {
    for (log, status, text) in &JUDGED {
        expect(&rt, rt.alloc(), &["a"], (log, ""), (*status, text))?;
    }
    Ok(())
}

#[test]
fn guards_are_given(rt: HostRuntime) -> Result<(), Fail> {
    let log = "t begin b\nt take l\nt write p 1\nt write p 2\nt give l\nt end\n";
    for (guards, status, text) in &GUARDED {
        expect(
            &rt,
            rt.alloc(),
            &["a", "--guards", "g"],
            (log, guards),
            (*status, text),
        )?;
    }
    Ok(())
}

#[test]
fn words_are_answered(rt: HostRuntime) -> Result<(), Fail> {
    for (words, status, text) in &ASKED {
        expect(
            &rt,
            rt.alloc(),
            words,
            (COUNTED, "v lock c\n"),
            (*status, text),
        )?;
    }
    Ok(())
}

#[test]
fn a_long_log_is_read_in_pieces(rt: HostRuntime) -> Result<(), Fail> {
    let mut log = String::new(rt.alloc());
    for _ in 0..1000 {
        log.push_str("t begin b\nt take l\nt give l\nt end\n")?;
    }
    expect(&rt, rt.alloc(), &["a"], (log.as_str(), ""), (0, "serial\n"))
}

#[test]
fn a_word_has_at_most_255_bytes(rt: HostRuntime) -> Result<(), Fail> {
    let mut log = String::new(rt.alloc());
    for _ in 0..255 {
        log.push_str("t")?;
    }
    log.push_str(" stop\n")?;
    expect(&rt, rt.alloc(), &["a"], (log.as_str(), ""), (0, "serial\n"))?;
    let mut longer = String::from_str(rt.alloc(), "t")?;
    longer.push_str(log.as_str())?;
    let refused = (1, "a:1: error: not a line of a log\n");
    expect(&rt, rt.alloc(), &["a"], (longer.as_str(), ""), refused)
}
