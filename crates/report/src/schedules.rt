//! The lines for schedules that are refused.

ghost use Rattle.std.specs.Prelude.{◌≡◌, ◌≢◌, ◌++◌, string_bytes, IfOk, OnOk};
ghost use Rattle.report.specs.Schedules.{schedule_fault_line, reason_text, stopped_line, inside_call_line};

use crate::refused::refused_at_text;
use crate::values::{fault_word, write_address};
use base::write_number;
use machine::{StepEnd, Stopped};
use schedule::SchedFault;
use std::alloc::{AllocError as NoMemory, Global};

/// The line for the first fault of a text that is no schedule. Its place counts bytes from 0.
pub fn schedule_fault_text(alloc: Global, fault: &SchedFault) -> Result<String, NoMemory>
    requires { fault.now ≢ SchedFault.NoMemory }
    ensures { IfOk result (λ line. string_bytes line ≡ schedule_fault_line fault.now) }
{
    match fault {
        SchedFault::Form(place) => refused_at_text(alloc, "schedule", *place, "form"),
        SchedFault::TooLong(place) => refused_at_text(alloc, "schedule", *place, "too long"),
        SchedFault::NoMemory => Err(NoMemory),
    }
}

/// Writes why a thread has no step.
fn write_reason(line: &mut String, why: StepEnd) -> Result<(), NoMemory>
    ensures { OnOk result (string_bytes line.new ≡ string_bytes line.old ++ reason_text why) }
{
    match why {
        StepEnd::Absent => line.push_str("is absent"),
        StepEnd::Done => line.push_str("is done"),
        StepEnd::Faulted(fault) => {
            line.push_str("is faulted ")?;
            line.push_str(fault_word(fault))
        }
        StepEnd::Waits { address, holder } => {
            line.push_str("waits for ")?;
            write_address(line, address)?;
            line.push_str(" held by ")?;
            write_number(line, holder)
        }
        StepEnd::NoMemory => line.push_str(""),
    }
}

/// The line for the entry at which a schedule stops, and why its thread has no step. Entries are counted from 1.
pub fn stopped_text(alloc: Global, stopped: &Stopped) -> Result<String, NoMemory>
    requires { stopped.now.why ≢ StepEnd.NoMemory }
    ensures { IfOk result (λ line. string_bytes line ≡ stopped_line stopped.now) }
{
    let mut line = String::from_str(alloc, "entry ")?;
    write_number(&mut line, stopped.entry)?;
    line.push_str(": thread ")?;
    write_number(&mut line, stopped.thread)?;
    line.push_str(" ")?;
    write_reason(&mut line, stopped.why)?;
    line.push_str("\n")?;
    Ok(line)
}

/// The line for a schedule at whose end this thread stands inside an atomic call.
pub fn open_text(alloc: Global, thread: u32) -> Result<String, NoMemory>
    ensures { IfOk result (λ line. string_bytes line ≡ inside_call_line thread) }
{
    let mut line = String::from_str(alloc, "thread ")?;
    write_number(&mut line, thread)?;
    line.push_str(" is inside an atomic call")?;
    line.push_str("\n")?;
    Ok(line)
}
