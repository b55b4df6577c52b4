//! What the program answers to `generate`.

use crate::tests::{USAGE, expect};
use std::test::Fail;

/// Words with their status and their text.
static WORDS: [(&[&str], u8, &str); 14] = [
    (&["generate", "0"], 0, "workers 0\nentries 4\nruns 1\nv 0\n"),
    (
        &["generate", "1"],
        0,
        "workers 1\nentries 113\nruns 2\nv 8\n",
    ),
    (
        &["generate", "2"],
        0,
        "workers 2\nentries 222\nruns 23\nv 16\n",
    ),
    (
        &["generate", "999"],
        0,
        "workers 999\nentries 108895\nruns 10990\nv 7992\n",
    ),
    (&["generate", "1000"], 9, USAGE),
    (&["generate", "01"], 9, USAGE),
    (&["generate", "+1"], 9, USAGE),
    (&["generate", "-1"], 9, USAGE),
    (&["generate", "1 "], 9, USAGE),
    (&["generate", ""], 9, USAGE),
    (&["generate", "4294967296"], 9, USAGE),
    (&["generate", "1", "a"], 9, USAGE),
    (&["generate"], 9, USAGE),
    (&["check", "a", "1"], 9, USAGE),
];

#[test]
fn generate_tells_its_figures(rt: HostRuntime) -> Result<(), Fail> {
    for (words, status, text) in &WORDS {
        expect(&rt, rt.alloc(), words, b"", *status, text)?;
    }
    Ok(())
}
