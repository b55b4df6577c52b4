//! Texts with their schedules or faults, and schedules with their texts.

use schedule::{SchedFault, read_schedule, write_schedule};
use std::alloc::Global;
use std::process::Abort;
use std::test::Fail;

/// Texts, each with the schedule that it is.
static READ: [(&str, &[u32]); 16] = [
    ("", &[]),
    (" \t\r\n", &[]),
    ("0", &[0]),
    ("0\n", &[0]),
    ("0 1", &[0, 1]),
    ("0\t1\r2\n3", &[0, 1, 2, 3]),
    ("3*2 1", &[3, 3, 1]),
    ("1*1", &[1]),
    ("10*10", &[10; 10]),
    ("4294967295", &[u32::MAX]),
    ("# no entry", &[]),
    ("#\n#\n", &[]),
    ("# 1\n0", &[0]),
    ("0#1", &[0]),
    ("0*2# 1\n2", &[0, 0, 2]),
    ("0 # 1 # 3\n 2\n", &[0, 2]),
];

/// The text is read as this schedule.
fn expect_schedule(rt: &impl Abort, alloc: Global, text: &str, schedule: &[u32]) {
    assert!(rt; text.len() < 100);
    match read_schedule(alloc, text.as_bytes()) {
        Ok(found) => assert_eq!(rt; found.as_slice(), schedule, "{text}"),
        Err(_) => assert!(rt; false, "{text}"),
    }
}

#[test]
fn texts_are_read(rt: HostRuntime) {
    for (text, schedule) in &READ {
        expect_schedule(&rt, rt.alloc(), text, schedule);
    }
}

/// Texts that are no schedule, each with its first fault.
static FAULTS: [(&str, SchedFault); 29] = [
    ("x", SchedFault::Form(0)),
    ("-1", SchedFault::Form(0)),
    ("+1", SchedFault::Form(0)),
    ("*1", SchedFault::Form(0)),
    ("01", SchedFault::Form(0)),
    ("00", SchedFault::Form(0)),
    ("0 01", SchedFault::Form(2)),
    ("4294967296", SchedFault::Form(0)),
    ("99999999999999999999999*1", SchedFault::Form(0)),
    ("0x", SchedFault::Form(1)),
    ("0,1", SchedFault::Form(1)),
    ("0\x0b1", SchedFault::Form(1)),
    ("0 x", SchedFault::Form(2)),
    ("0*", SchedFault::Form(2)),
    ("0* 1", SchedFault::Form(2)),
    ("0*#", SchedFault::Form(2)),
    ("0*x", SchedFault::Form(2)),
    ("0*0", SchedFault::Form(2)),
    ("0*01", SchedFault::Form(2)),
    ("0*18446744073709551616", SchedFault::Form(2)),
    ("0*1x", SchedFault::Form(3)),
    ("0*1*1", SchedFault::Form(3)),
    ("# x\n0\n0*1 y", SchedFault::Form(10)),
    ("0*200001", SchedFault::TooLong(0)),
    ("1*18446744073709551615", SchedFault::TooLong(0)),
    ("1 0*200000", SchedFault::TooLong(2)),
    ("0*200000 1 x", SchedFault::TooLong(9)),
    ("0*200001x", SchedFault::Form(8)),
    ("x 0*200001", SchedFault::Form(0)),
];

/// The text is no schedule, and this is its first fault.
fn expect_fault(rt: &impl Abort, alloc: Global, text: &str, fault: SchedFault) {
    assert!(rt; text.len() < 100);
    match read_schedule(alloc, text.as_bytes()) {
        Ok(_) => assert!(rt; false, "{text}"),
        Err(found) => assert_eq!(rt; found, fault, "{text}"),
    }
}

#[test]
fn faults_are_told_at_their_byte(rt: HostRuntime) {
    for (text, fault) in &FAULTS {
        expect_fault(&rt, rt.alloc(), text, *fault);
    }
}

/// Schedules, each with the text that it is written as.
static WRITTEN: [(&[u32], &str); 5] = [
    (&[], "\n"),
    (&[7], "7\n"),
    (&[0, 0, 1, 0], "0*2 1 0\n"),
    (&[u32::MAX, 10, 10], "4294967295 10*2\n"),
    (&[5; 12], "5*12\n"),
];

/// The schedule is written as this text.
fn expect_text(rt: &impl Abort, alloc: Global, schedule: &[u32], text: &str) -> Result<(), Fail> {
    let written = write_schedule(alloc, schedule)?;
    assert_eq!(rt; written.as_str(), text);
    Ok(())
}

#[test]
fn schedules_are_written_in_groups(rt: HostRuntime) -> Result<(), Fail> {
    for (schedule, text) in &WRITTEN {
        expect_text(&rt, rt.alloc(), schedule, text)?;
    }
    let Ok(longest) = read_schedule(rt.alloc(), b"0*199999 1") else {
        return Err(Fail::new("200,000 steps"));
    };
    assert_eq!(rt; longest.len(), 200_000);
    expect_text(&rt, rt.alloc(), longest.as_slice(), "0*199999 1\n")
}
