//! Limits of what the program reads, met exactly and passed by one. `docs/limits.md` says where each limit is tried.

use crate::schedule_tests::expect as expect_input;
use crate::tests::{LOCKED, expect, numbered, with_body};
use std::alloc::Global;
use std::test::Fail;

const ENDLESS: &str = "class Main { void main() { while (true) { } } }";

/// Numbered parts of a source, in the order of `numbered`, with the status and the text of `check`.
static NUMBERED: [(&str, &str, &str, u32, &str, u8, &str); 4] = [
    (
        "class Main { void m(int a",
        ",\nint a",
        "",
        15,
        ") { } void main() { } }",
        0,
        "Main.m const\nMain.main const\n",
    ),
    (
        "class Main { void m(int a",
        ",\nint a",
        "",
        16,
        ") { } void main() { } }",
        1,
        "refused at 17:5: too many\n",
    ),
    (
        "class Main {\n",
        "int f",
        ";\n",
        32,
        "void main() { } }",
        0,
        "Main.main const\n",
    ),
    (
        "class Main { void main() {\n",
        "int a",
        " = 0;\n",
        64,
        "} }",
        0,
        "Main.main mover\n",
    ),
];

#[test]
fn parameters_fields_and_locals_are_counted(rt: HostRuntime) -> Result<(), Fail> {
    for (before, word, behind, times, after, status, text) in &NUMBERED {
        let source = numbered(rt.alloc(), before, word, behind, *times, after)?;
        expect(
            &rt,
            rt.alloc(),
            &["check", "a"],
            source.as_bytes(),
            *status,
            text,
        )?;
    }
    Ok(())
}

/// Classes whose constructors take 16 and 17 final fields, each with the status and the text of `check`. The last parameter stands in a
/// line of its own.
static CONSTRUCTED: [(&str, u8, &str); 2] = [
    (
        "class A { final int a; final int b; final int c; final int d; final int e; final int f; final int g; final int \
        h; final int i; final int j; final int k; final int l; final int m; final int n; final int o; final int p; \
        A(int a, int b, int c, int d, int e, int f, int g, int h, int i, int j, int k, int l, int m, int n, int o,\n\
        int p) { this.a = a; this.b = b; this.c = c; this.d = d; this.e = e; this.f = f; this.g = g; this.h = h; this.i \
        = i; this.j = j; this.k = k; this.l = l; this.m = m; this.n = n; this.o = o; this.p = p; } } class Main { void \
        main() { } }",
        0,
        "Main.main const\n",
    ),
    (
        "class A { final int a; final int b; final int c; final int d; final int e; final int f; final int g; final int \
        h; final int i; final int j; final int k; final int l; final int m; final int n; final int o; final int p; \
        final int q; A(int a, int b, int c, int d, int e, int f, int g, int h, int i, int j, int k, int l, int m, int \
        n, int o, int p,\n\
        int q) { this.a = a; this.b = b; this.c = c; this.d = d; this.e = e; this.f = f; this.g = g; this.h = h; this.i \
        = i; this.j = j; this.k = k; this.l = l; this.m = m; this.n = n; this.o = o; this.p = p; this.q = q; } } class \
        Main { void main() { } }",
        1,
        "refused at 2:5: too many\n",
    ),
];

#[test]
fn parameters_of_a_constructor_are_counted(rt: HostRuntime) -> Result<(), Fail> {
    for (source, status, text) in &CONSTRUCTED {
        expect(
            &rt,
            rt.alloc(),
            &["check", "a"],
            source.as_bytes(),
            *status,
            text,
        )?;
    }
    Ok(())
}

/// A method whose `requires` names eight locks.
const EIGHT_REQUIRED: &str =
    "class L { } class Main { void m(final L a, final L b, final L c, final L d, final L e, final L f, final L g, final L h) \
    requires a, b, c, d, e, f, g, h { } void main() { } }";

/// A block with a local lock of its own.
const LOCAL_LOCK: &str = "{ final Main x = new Main(); synchronized (x) { } } ";

#[test]
fn a_method_has_at_most_8_paths_of_a_kind(rt: HostRuntime) -> Result<(), Fail> {
    let judged = "Main.m const\nMain.main const\n";
    expect(
        &rt,
        rt.alloc(),
        &["check", "a"],
        EIGHT_REQUIRED.as_bytes(),
        0,
        judged,
    )?;
    let eight = with_body(rt.alloc(), LOCAL_LOCK, 8, "")?;
    expect(
        &rt,
        rt.alloc(),
        &["check", "a"],
        eight.as_bytes(),
        0,
        "Main.main cmpd\n",
    )?;
    let nine = with_body(rt.alloc(), LOCAL_LOCK, 9, "")?;
    let refused = "refused at 1:19: too many locks\n";
    expect(
        &rt,
        rt.alloc(),
        &["check", "a"],
        nine.as_bytes(),
        1,
        refused,
    )
}

/// A text that repeats a part so many times between two others.
fn repeated(
    alloc: Global,
    before: &str,
    part: &str,
    times: u32,
    after: &str,
) -> Result<String, Fail> {
    let mut text = String::from_str(alloc, before)?;
    for _ in 0..times {
        text.push_str(part)?;
    }
    text.push_str(after)?;
    Ok(text)
}

#[test]
fn a_name_has_at_most_64_bytes(rt: HostRuntime) -> Result<(), Fail> {
    let after = "; void main() { } }";
    let longest = repeated(rt.alloc(), "class Main { int ", "a", 64, after)?;
    expect(
        &rt,
        rt.alloc(),
        &["check", "a"],
        longest.as_bytes(),
        0,
        "Main.main const\n",
    )?;
    let longer = repeated(rt.alloc(), "class Main { int ", "a", 65, after)?;
    let refused = "refused at 1:18: name too long\n";
    expect(
        &rt,
        rt.alloc(),
        &["check", "a"],
        longer.as_bytes(),
        1,
        refused,
    )
}

/// Fronts of books, with what they open, how often, and the text of `verify`, which ends at the end of the text or before the
/// bracket that is one too many.
static OPENED: [(&str, &str, u32, &str); 4] = [
    (
        "book 1\nconst\nmethod 0 0\n",
        "(block 0 ",
        64,
        "book refused at byte 600: form\n",
    ),
    (
        "book 1\nconst\nmethod 0 0\n",
        "(block 0 ",
        65,
        "book refused at byte 600: too deep\n",
    ),
    ("book 1\n", "(0 ", 64, "book refused at byte 199: form\n"),
    (
        "book 1\n",
        "(0 ",
        65,
        "book refused at byte 199: too deep\n",
    ),
];

#[test]
fn brackets_and_tests_of_a_book_are_at_most_64(rt: HostRuntime) -> Result<(), Fail> {
    for (front, part, times, text) in &OPENED {
        let given = repeated(rt.alloc(), front, part, *times, "")?;
        expect_input(
            &rt,
            rt.alloc(),
            "verify",
            LOCKED,
            given.as_bytes(),
            (11, text.as_bytes()),
        )?;
    }
    Ok(())
}

/// The text, followed by blanks up to this many bytes.
fn filled(alloc: Global, text: &str, len: usize) -> Result<Vec<u8>, Fail> {
    let mut bytes = text.as_bytes().to_vec(alloc)?;
    bytes.resize(len, b' ')?;
    Ok(bytes)
}

/// Commands with a source and the front of a second file of 16,777,216 bytes, and what they answer to it. One more byte is too
/// large for each.
static LARGEST: [(&str, &str, &str, u8, &str); 4] = [
    (
        "run",
        ENDLESS,
        "0",
        0,
        "object 0:0 Main\nthread 0 running Main.main 1\n",
    ),
    ("verify", LOCKED, "", 11, "book refused at byte 0: form\n"),
    (
        "verify-blame",
        LOCKED,
        "",
        13,
        "blame refused at byte 0: form\n",
    ),
    ("levels", LOCKED, "", 14, "levels refused at byte 0: form\n"),
];

#[test]
fn a_second_file_has_at_most_16777216_bytes(rt: HostRuntime) -> Result<(), Fail> {
    for (command, source, front, status, text) in &LARGEST {
        let full = filled(rt.alloc(), front, 16777216)?;
        let text = text.as_bytes();
        expect_input(
            &rt,
            rt.alloc(),
            command,
            source,
            full.as_slice(),
            (*status, text),
        )?;
        let over = filled(rt.alloc(), front, 16777217)?;
        let refused = b"b is too large\n";
        expect_input(
            &rt,
            rt.alloc(),
            command,
            source,
            over.as_slice(),
            (10, refused),
        )?;
    }
    Ok(())
}
