//! What the program answers, over a folder and a sink in memory.

use edge::{MemFolder, MemSink};
use explain_commands::run;
use std::alloc::Global;
use std::process::Abort;
use std::test::Fail;

/// A source that the rules accept.
const LOCKED: &str =
    "class Main { int v guarded_by this; atomic void main() { synchronized (this) { this.v = 7; } } }";

/// What is written for words that ask for nothing.
const USAGE: &str = "usage: atomic_why FILE.. | --all FILE.. | --strict FILE..\n";

/// Sources, each with its status and text: an error, one behind which three methods are errors that call it, two steps, two of which one may
/// stay, a loop, a compound step with the method that it calls, an overriding method, a lock that would help around all of it, a callee
/// whose lock is held but which an overriding method makes a step, a source that is refused as it stands, one that is accepted.
static EXPLAINED: [(&str, u8, &str); 11] = [
    (
        "class Main { int v guarded_by this; void main() { this.v = 7; } }",
        2,
        "a:1:42: error: Main.main is declared cmpd, found error [lock-error]\na:1:51: note: this.v is guarded by this, which isn't held here; held: nothing [guard-not-held]\n",
    ),
    (
        "class Main { int a guarded_by this; void main() { this.f(); } void f() { this.a = 1; } void g() { this.f(); } void h() { this.f(); } }",
        2,
        "a:1:68: error: Main.f is declared cmpd, found error [lock-error]\na:1:74: note: this.a is guarded by this, which isn't held here; held: nothing [guard-not-held]\na:1:42: error: Main.main is declared cmpd, found error [lock-error]\na:1:56: note: calls Main.f, which is an error itself [calls-an-error]\na:1:56: note: 2 more methods are refused for a call of it [more-errors]\n",
    ),
    (
        "class Main { int a guarded_by this; atomic void main() { synchronized (this) { this.a = 1; } System.out.println(1); System.out.println(2); } }",
        2,
        "a:1:49: error: Main.main is declared atomic, found cmpd [two-steps]\na:1:58: note: atomic step: takes the lock of this and gives it back [first-step]\na:1:94: note: a second one: prints [second-step]\na:1:94: note: between the two another thread may come in [gap-between]\na:1:58: note: with the lock of this held, this step can be moved [help-lock]\n",
    ),
    (
        "class Main { int u; atomic void main() { this.u = 1; this.u = 2; } }",
        2,
        "a:1:33: error: Main.main is declared atomic, found cmpd [two-steps]\na:1:42: note: atomic step: writes this.u, which nothing guards [first-step]\na:1:54: note: a second one: writes this.u, which nothing guards [second-step]\na:1:54: note: between the two another thread may come in [gap-between]\na:1:42: note: no lock helps this step: nothing guards the field [help-unguarded]\na:1:54: note: no lock helps this step: nothing guards the field [help-unguarded]\n",
    ),
    (
        "class Main { int u; atomic void main() { while (true) { this.u = 1; } } }",
        2,
        "a:1:33: error: Main.main is declared atomic, found cmpd [step-in-a-loop]\na:1:57: note: atomic step: writes this.u, which nothing guards [repeated-step]\na:1:42: note: this loop makes it each time round, and between two times another thread may come in [gap-loop]\na:1:57: note: no lock helps this step: nothing guards the field [help-unguarded]\n",
    ),
    (
        "class Main { int u; void main() { this.u = 1; this.u = 2; } atomic void f() { this.main(); } }",
        2,
        "a:1:73: error: Main.f is declared atomic, found cmpd [compound-call]\na:1:84: note: compound step: calls Main.main, which is cmpd [compound-step]\na:1:84: note: inside it another thread may come in [gap-inside]\na:1:84: note: no one lock that has a name here helps this step [help-none-named]\na:1:26: note: Main.main is cmpd [two-steps]\na:1:35: note: atomic step: writes this.u, which nothing guards [first-step]\na:1:47: note: a second one: writes this.u, which nothing guards [second-step]\na:1:47: note: between the two another thread may come in [gap-between]\na:1:35: note: no lock helps this step: nothing guards the field [help-unguarded]\na:1:47: note: no lock helps this step: nothing guards the field [help-unguarded]\n",
    ),
    (
        "class A { int u; atomic void f() { } } class B extends A { atomic void f() { this.u = 1; this.u = 2; } } class Main { void main() { } }",
        2,
        "a:1:30: error: A.f is declared atomic, found cmpd [overriding-method]\na:1:72: note: B.f overrides it, and is cmpd [overridden-by]\na:1:72: error: B.f is declared atomic, found cmpd [two-steps]\na:1:78: note: atomic step: writes this.u, which nothing guards [first-step]\na:1:90: note: a second one: writes this.u, which nothing guards [second-step]\na:1:90: note: between the two another thread may come in [gap-between]\na:1:78: note: no lock helps this step: nothing guards the field [help-unguarded]\na:1:90: note: no lock helps this step: nothing guards the field [help-unguarded]\n",
    ),
    (
        "class Main { int v guarded_by this; void set() { synchronized (this) { this.v = 7; } } atomic void main() { this.set(); this.set(); } }",
        2,
        "a:1:100: error: Main.main is declared atomic, found cmpd [two-steps]\na:1:114: note: atomic step: calls Main.set, which takes the lock of this and gives it back [first-step]\na:1:126: note: a second one: calls Main.set, which takes the lock of this and gives it back [second-step]\na:1:126: note: between the two another thread may come in [gap-between]\na:1:100: note: with the lock of this held around all of it, Main.main is atomic [help-around]\n",
    ),
    (
        "class A { int v guarded_by this; void m() { synchronized (this) { this.v = 1; } } } class B extends A { void m() { System.out.println(1); } } class Main { atomic void f(final A a) { synchronized (a) { a.m(); a.m(); } } void main() { } }",
        2,
        "a:1:168: error: Main.f is declared atomic, found cmpd [two-steps]\na:1:204: note: atomic step: calls A.m, which is atomic [first-step]\na:1:211: note: a second one: calls A.m, which is atomic [second-step]\na:1:211: note: between the two another thread may come in [gap-between]\na:1:204: note: no one lock that has a name here helps this step [help-none-named]\na:1:211: note: no one lock that has a name here helps this step [help-none-named]\n",
    ),
    ("class Main { }", 1, "a:1:1: error: no main\n"),
    (LOCKED, 0, ""),
];

/// Words, each with its status and text, where the file `a` is the accepted source.
static ASKED: [(&[&str], u8, &str); 11] = [
    (
        &["--all", "a"],
        0,
        "a:1:49: atomic: Main.main 0\na:1:58: atomic: Main.main 1\na:1:58: mover: Main.main 2\na:1:80: mover: Main.main 3\n",
    ),
    (&[], 9, USAGE),
    (&["--all"], 9, USAGE),
    (&["a", "--all"], 9, USAGE),
    (&["a", "a"], 0, ""),
    (&["--all", "--all"], 6, "cannot read --all\n"),
    (&["b"], 6, "cannot read b\n"),
    (&["--strict", "a"], 0, ""),
    (&["--strict"], 9, USAGE),
    (&["a", "--strict"], 9, USAGE),
    (&["--strict", "--all"], 6, "cannot read --all\n"),
];

/// The names of files, each with the source in it.
static FILES: [(&str, &str); 6] = [
    ("a", LOCKED),
    (
        "b",
        "class Main { int v guarded_by this; void main() { this.v = 7; } }",
    ),
    ("c", "class Main { }"),
    (
        "e",
        "class Counter { int n; void inc() { this.n = this.n + 1; } } class Main { void main() { System.out.println(1); System.out.println(2); } }",
    ),
    (
        "f",
        "class Counter { int n; void set() { this.n = 1; } int get() { return this.n; } void again() { this.n = 2; } } class Main { void main() { } }",
    ),
    (
        "g",
        "class Main { int a; void main() { this.a = 1; this.a = 2; } void f() { this.main(); } }",
    ),
];

/// Words that name some of these files, and one that isn't there, each with its status and text: the worst status, and all lines in the order
/// of the words. Of `e` one method, which promises nothing, isn't atomic, and neither is `main`. Of `f` each is, and a field that nothing guards
/// is written. Of `g` one method calls `main`, which is compound and is told behind it.
static SEVERAL: [(&[&str], u8, &str); 9] = [
    (&["a", "a", "a"], 0, ""),
    (
        &["b", "a"],
        2,
        "b:1:42: error: Main.main is declared cmpd, found error [lock-error]\nb:1:51: note: this.v is guarded by this, which isn't held here; held: nothing [guard-not-held]\n",
    ),
    (
        &["c", "b"],
        1,
        "c:1:1: error: no main\nb:1:42: error: Main.main is declared cmpd, found error [lock-error]\nb:1:51: note: this.v is guarded by this, which isn't held here; held: nothing [guard-not-held]\n",
    ),
    (
        &["a", "d", "c"],
        6,
        "cannot read d\nc:1:1: error: no main\n",
    ),
    (&["e"], 0, ""),
    (
        &["--strict", "a", "e"],
        2,
        "e:1:29: error: Counter.inc counts as atomic, found cmpd [two-steps]\ne:1:51: note: atomic step: reads this.n, which nothing guards [first-step]\ne:1:37: note: a second one: writes this.n, which nothing guards [second-step]\ne:1:37: note: between the two another thread may come in [gap-between]\ne:1:51: note: no lock helps this step: nothing guards the field [help-unguarded]\ne:1:37: note: no lock helps this step: nothing guards the field [help-unguarded]\ne:1:37: warning: Counter.n is written, and nothing guards it [unguarded-field]\n",
    ),
    (
        &["--strict", "f"],
        0,
        "f:1:37: warning: Counter.n is written, and nothing guards it [unguarded-field]\n",
    ),
    (
        &["--strict", "g"],
        2,
        "g:1:66: error: Main.f counts as atomic, found cmpd [compound-call]\ng:1:77: note: compound step: calls Main.main, which is cmpd [compound-step]\ng:1:77: note: inside it another thread may come in [gap-inside]\ng:1:77: note: no one lock that has a name here helps this step [help-none-named]\ng:1:26: note: Main.main is cmpd [two-steps]\ng:1:35: note: atomic step: writes this.a, which nothing guards [first-step]\ng:1:47: note: a second one: writes this.a, which nothing guards [second-step]\ng:1:47: note: between the two another thread may come in [gap-between]\ng:1:35: note: no lock helps this step: nothing guards the field [help-unguarded]\ng:1:47: note: no lock helps this step: nothing guards the field [help-unguarded]\ng:1:35: warning: Main.a is written, and nothing guards it [unguarded-field]\n",
    ),
    (
        &["--all", "a", "c"],
        1,
        "a:1:49: atomic: Main.main 0\na:1:58: atomic: Main.main 1\na:1:58: mover: Main.main 2\na:1:80: mover: Main.main 3\nc:1:1: error: no main\n",
    ),
];

/// The status and the text of the words, where there are these files.
fn answer(
    alloc: Global,
    words: &[&str],
    files: Vec<(String, Vec<u8>)>,
) -> Result<(u8, Vec<u8>), Fail> {
    let mut list = Vec::new(alloc);
    for word in words {
        list.push(String::from_str(alloc, word)?)?;
    }
    let mut folder = MemFolder::new(alloc, files, 4096, Vec::new(alloc))?;
    let mut sink = MemSink::new(alloc, 1048576, Vec::new(alloc), 1048576)?;
    let status = run(alloc, list.as_slice(), &mut folder, &mut sink);
    let text = sink.bytes().to_vec(alloc)?;
    Ok((status, text))
}

/// The words have this status and this text, where the file `a` has these bytes.
fn expect(
    rt: &impl Abort,
    alloc: Global,
    words: &[&str],
    bytes: Vec<u8>,
    status: u8,
    text: &str,
) -> Result<(), Fail> {
    let mut files = Vec::new(alloc);
    files.push((String::from_str(alloc, "a")?, bytes))?;
    let given = answer(alloc, words, files)?;
    assert_eq!(rt; given.0, status);
    assert_eq!(rt; given.1.as_slice(), text.as_bytes());
    Ok(())
}

/// The words have this status and this text, where there are the files of the table.
fn expect_of_files(
    rt: &impl Abort,
    alloc: Global,
    words: &[&str],
    status: u8,
    text: &str,
) -> Result<(), Fail> {
    let mut files = Vec::new(alloc);
    for (name, source) in &FILES {
        let bytes = source.as_bytes().to_vec(alloc)?;
        files.push((String::from_str(alloc, name)?, bytes))?;
    }
    let given = answer(alloc, words, files)?;
    assert_eq!(rt; given.0, status);
    assert_eq!(rt; given.1.as_slice(), text.as_bytes());
    Ok(())
}

#[test]
fn sources_are_explained(rt: HostRuntime) -> Result<(), Fail> {
    for (source, status, text) in &EXPLAINED {
        let bytes = source.as_bytes().to_vec(rt.alloc())?;
        expect(&rt, rt.alloc(), &["a"], bytes, *status, text)?;
    }
    Ok(())
}

#[test]
fn words_are_answered(rt: HostRuntime) -> Result<(), Fail> {
    for (words, status, text) in &ASKED {
        let bytes = LOCKED.as_bytes().to_vec(rt.alloc())?;
        expect(&rt, rt.alloc(), words, bytes, *status, text)?;
    }
    Ok(())
}

#[test]
fn several_files_are_answered(rt: HostRuntime) -> Result<(), Fail> {
    for (words, status, text) in &SEVERAL {
        expect_of_files(&rt, rt.alloc(), words, *status, text)?;
    }
    Ok(())
}

#[test]
fn a_file_over_its_limit_is_too_large(rt: HostRuntime) -> Result<(), Fail> {
    let mut bytes = Vec::new(rt.alloc());
    for _ in 0..262145 {
        bytes.push(b' ')?;
    }
    expect(&rt, rt.alloc(), &["a"], bytes, 10, "a is too large\n")
}
