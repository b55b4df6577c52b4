//! What the program answers to the rows on certificates of refusal.

use crate::examples::{ACCEPTED, REFUSED};
use crate::schedule_tests::{expect, expect_inputs};
use crate::tests::{LOCKED, answer, counter, expect_rows, written};
use std::alloc::Global;
use std::process::Abort;
use std::test::Fail;

/// A cell that is raised twice by one call that says `atomic`.
const TWICE: &str = "class Cell { int v guarded_by this; \
    atomic void inc() { synchronized (this) { this.v = this.v + 1; } } \
    atomic void twice() { this.inc(); this.inc(); } \
    void bare() requires this { this.v = 0; } } \
    class Main { void main() { } }";

/// A call that may run a method which is more than the one that it names.
const MAY_RUN: &str =
    "class A { int u; void put() { } } class B extends A { void put() { this.u = 1; this.u = 2; } } \
    class Main { atomic void go(final A a) { a.put(); } void main() { } }";

/// Sources, each with the status and the text of `blame`.
static BLAMED: [(&str, u8, &str); 9] = [
    (TWICE, 0, "blame 3\n0 atomic\n0 mover 0\n1 cmpd\nend\n"),
    // The same with the lock in a field.
    (
        "class L { } class C { final L l; int v guarded_by this.l; C(L l) { this.l = l; } \
        void f() { synchronized (this.l) { this.v = 1; } } atomic void twice() { this.f(); this.f(); } } \
        class Main { void main() { } }",
        0,
        "blame 3\n0 atomic\n0 mover 0.0\n1 cmpd\nend\n",
    ),
    (
        "class Main { int u; atomic void main() { this.u = 1; this.u = 2; } }",
        0,
        "blame 1\n0 cmpd\nend\n",
    ),
    (
        "class Main { int v guarded_by this; void main() { this.v = 7; } }",
        0,
        "blame 1\n0 error\nend\n",
    ),
    // The caller stands first, so it is asked again once the callee is known.
    (
        "class Main { int u; void main() { } atomic void f() { this.g(); } void g() { this.u = 1; this.u = 2; } }",
        0,
        "blame 2\n2 cmpd\n1 cmpd\nend\n",
    ),
    // What a call may run is asked for too: in the second pass.
    (MAY_RUN, 0, "blame 3\n1 cmpd\n0 cmpd\n2 cmpd\nend\n"),
    // The method that overrides is above its bound before the one that `check` names is asked again.
    (
        "class A { int v guarded_by this; atomic void put() { synchronized (this) { this.v = 1; } } } \
        class B extends A { atomic void put() { this.v = 2; } } class Main { void main() { } }",
        0,
        "blame 3\n0 atomic\n0 mover 0\n1 error\nend\n",
    ),
    (LOCKED, 12, "nothing to blame\n"),
    ("class Main { }", 1, "refused at 1:1: no main\n"),
];

#[test]
fn blame_writes_why_a_source_is_refused(rt: HostRuntime) -> Result<(), Fail> {
    expect_rows(&rt, rt.alloc(), "blame", &BLAMED)
}

#[test]
fn an_accepted_source_has_nothing_to_blame(rt: HostRuntime) -> Result<(), Fail> {
    let source = counter(rt.alloc(), "", "", "")?;
    expect_rows(
        &rt,
        rt.alloc(),
        "blame",
        &[(source.as_str(), 12, "nothing to blame\n")],
    )
}

/// Certificates for `TWICE`, each with the status and the text of `verify-blame`. All places are looked at before the first step.
static CERTIFICATES: [(&str, u8, &str); 15] = [
    (
        "blame 3\n0 atomic\n0 mover 0\n1 cmpd\nend\n",
        0,
        "refusal verified\n",
    ),
    // A shorter one, a longer one, and one that says less of a line.
    ("blame 2\n0 atomic\n1 cmpd\nend\n", 0, "refusal verified\n"),
    (
        "blame 4\n0 const\n0 atomic\n0 atomic\n1 cmpd\nend\n",
        0,
        "refusal verified\n",
    ),
    (
        "blame 1\n1 cmpd\nend\n",
        13,
        "blame refused: line 1: step\n",
    ),
    (
        "blame 1\n0 atomic\nend\n",
        13,
        "blame refused: no bound broken\n",
    ),
    ("blame 0\nend\n", 13, "blame refused: no bound broken\n"),
    // What is said where the lock is held says nothing of where it isn't.
    (
        "blame 2\n0 mover 0\n1 cmpd\nend\n",
        13,
        "blame refused: line 2: step\n",
    ),
    (
        "blame 3\n0 atomic\n0 mover 0\n1 error\nend\n",
        13,
        "blame refused: line 3: step\n",
    ),
    // A line doesn't count for itself, nor a later one for it.
    (
        "blame 2\n1 cmpd\n0 atomic\nend\n",
        13,
        "blame refused: line 1: step\n",
    ),
    (
        "blame 1\n9 cmpd\nend\n",
        13,
        "blame refused: line 1: place\n",
    ),
    // The greatest numbers.
    (
        "blame 1\n4294967295 mover 65535.4294967295.4294967295\nend\n",
        13,
        "blame refused: line 1: place\n",
    ),
    (
        "blame 2\n0 atomic\n0 mover 1\nend\n",
        13,
        "blame refused: line 2: place\n",
    ),
    // A required path is missing.
    (
        "blame 1\n2 mover\nend\n",
        13,
        "blame refused: line 1: place\n",
    ),
    (
        "blame 2\n2 mover 0\n0 mover 0\nend\n",
        13,
        "blame refused: no bound broken\n",
    ),
    (
        "blame 2\n1 cmpd\n9 const\nend\n",
        13,
        "blame refused: line 2: place\n",
    ),
];

#[test]
fn verify_blame_tells_what_is_wrong_first(rt: HostRuntime) -> Result<(), Fail> {
    expect_inputs(&rt, rt.alloc(), "verify-blame", TWICE, &CERTIFICATES)
}

/// Texts that no certificate has, each with the line of its first fault.
static NO_TEXTS: [(&str, u8, &str); 12] = [
    ("", 13, "blame refused at byte 0: form\n"),
    ("blame", 13, "blame refused at byte 5: form\n"),
    ("blame 01\n", 13, "blame refused at byte 7: form\n"),
    ("blame 4294967296\n", 13, "blame refused at byte 6: form\n"),
    ("blame 1\nend\n", 13, "blame refused at byte 8: form\n"),
    (
        "blame 1\n0 cmp\nend\n",
        13,
        "blame refused at byte 13: form\n",
    ),
    (
        "blame 1\n4294967296 cmpd\nend\n",
        13,
        "blame refused at byte 8: form\n",
    ),
    (
        "blame 1\n0 mover 65536\nend\n",
        13,
        "blame refused at byte 16: form\n",
    ),
    (
        "blame 1\n0 mover 0 0\nend\n",
        13,
        "blame refused at byte 18: form\n",
    ),
    (
        "blame 1\n0 mover 0.4294967296\nend\n",
        13,
        "blame refused at byte 18: form\n",
    ),
    (
        "blame 3\n0 atomic\n0 mover 0\n1 cmpd\nend",
        13,
        "blame refused at byte 37: form\n",
    ),
    (
        "blame 1\n0 atomic\nend\n\n",
        13,
        "blame refused at byte 21: form\n",
    ),
];

#[test]
fn texts_that_no_certificate_has_have_their_first_fault(rt: HostRuntime) -> Result<(), Fail> {
    expect_inputs(&rt, rt.alloc(), "verify-blame", TWICE, &NO_TEXTS)
}

/// Certificates for `MAY_RUN`.
static CERTIFICATES_OF_A_FAMILY: [(&str, u8, &str); 3] = [
    (
        "blame 3\n1 cmpd\n0 cmpd\n2 cmpd\nend\n",
        0,
        "refusal verified\n",
    ),
    // A call comes to what is said of the method that it names, which must be said of that one first.
    (
        "blame 2\n1 cmpd\n2 cmpd\nend\n",
        13,
        "blame refused: line 2: step\n",
    ),
    (
        "blame 2\n0 cmpd\n2 cmpd\nend\n",
        13,
        "blame refused: line 1: step\n",
    ),
];

#[test]
fn verify_blame_judges_methods_that_may_run(rt: HostRuntime) -> Result<(), Fail> {
    expect_inputs(
        &rt,
        rt.alloc(),
        "verify-blame",
        MAY_RUN,
        &CERTIFICATES_OF_A_FAMILY,
    )
}

#[test]
fn an_accepted_source_has_no_certificate(rt: HostRuntime) -> Result<(), Fail> {
    expect_inputs(
        &rt,
        rt.alloc(),
        "verify-blame",
        LOCKED,
        &[
            (
                "blame 1\n0 cmpd\nend\n",
                13,
                "blame refused: line 1: step\n",
            ),
            (
                "blame 2\n0 atomic\n0 mover 0\nend\n",
                13,
                "blame refused: no bound broken\n",
            ),
        ],
    )
}

/// What is blamed for the source is verified.
fn expect_blamed(rt: &impl Abort, alloc: Global, source: &str) -> Result<(), Fail> {
    let certificate = written(rt, alloc, "blame", source.as_bytes())?;
    expect(
        rt,
        alloc,
        "verify-blame",
        source,
        certificate.as_slice(),
        (0, b"refusal verified\n"),
    )
}

#[test]
fn the_certificate_of_each_refused_example_is_verified(rt: HostRuntime) -> Result<(), Fail> {
    for (_, source, status, _) in &REFUSED_ROWS {
        if *status == 2 {
            expect_blamed(&rt, rt.alloc(), source)?;
        }
    }
    Ok(())
}

#[test]
fn an_accepted_example_has_no_certificate(rt: HostRuntime) -> Result<(), Fail> {
    for (_, source, _, _) in &ACCEPTED_ROWS {
        let given = answer(rt.alloc(), &["blame", "a"], source.as_bytes())?;
        assert_eq!(rt; given.0, 12);
    }
    Ok(())
}

#[test]
fn an_example_that_is_not_well_formed_has_no_certificate(rt: HostRuntime) -> Result<(), Fail> {
    for (_, source, status, _) in &REFUSED_ROWS {
        if *status != 2 {
            let given = answer(rt.alloc(), &["blame", "a"], source.as_bytes())?;
            assert_eq!(rt; given.0, *status);
        }
    }
    Ok(())
}

/// The examples that are accepted.
static ACCEPTED_ROWS: [(&str, &str, u8, &str); 14] = ACCEPTED;

/// The examples that are refused.
static REFUSED_ROWS: [(&str, &str, u8, &str); 13] = REFUSED;
