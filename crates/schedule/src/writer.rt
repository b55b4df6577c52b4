//! Writing a schedule.
ghost use Rattle.std.specs.Prelude.{◌≡◌, ◌≤◌, ◌==◌, ◌++◌, [], ◌∷◌, if◌then◌else◌, length, string_bytes, IfOk, OnOk};
ghost use Rattle.std.specs.List.{prefix_len};
ghost use Rattle.schedule.specs.Text.{IsSchedule};
ghost use Rattle.schedule.specs.Written.{written, group_text};

use itoa::Buffer;
use std::alloc::{AllocError as NoMemory, Global};

/// Writes a schedule as one line of its maximal groups, which reads back as the schedule.
pub fn write_schedule(alloc: Global, schedule: &[u32]) -> Result<String, NoMemory>
    ensures text { IfOk result (λ text. string_bytes text ≡ written schedule.now) }
    ensures reads_back { IfOk result (λ text. length schedule.now ≤ 200000 → IsSchedule (string_bytes text) schedule.now) }
{
    let mut text = String::new(alloc);
    let mut rest = schedule;
    'groups: while let Some(thread) = rest.first() {
        let count = run_length(rest, *thread);
        write_group(&mut text, *thread, count)?;
        rest = &rest[count..];
        end_group(&mut text, rest.is_empty())?;
    }
    text.push('\n')?;
    Ok(text)
}

/// How often a schedule begins with a thread.
fn run_length(schedule: &[u32], thread: u32) -> usize
    ensures length { result ≡ prefix_len (λ step. step == thread) schedule.now }
    ensures within { result ≤ length schedule.now }
{
    schedule.iter().take_while(|step| **step == thread).count()
}

/// Writes a group: a thread, and its count where that is not 1.
fn write_group(text: &mut String, thread: u32, count: usize) -> Result<(), NoMemory>
    ensures { OnOk result (string_bytes text.new ≡ string_bytes text.old ++ group_text (thread, count)) }
{
    let mut digits = Buffer::new();
    text.push_str(digits.format(thread))?;
    if count != 1 {
        text.push('*')?;
        text.push_str(digits.format(count))?;
    }
    Ok(())
}

/// Writes what stands behind a group: a blank, where it is not the last.
fn end_group(text: &mut String, is_last: bool) -> Result<(), NoMemory>
    ensures { OnOk result (string_bytes text.new ≡ string_bytes text.old ++ (if is_last then [] else 32 ∷ [])) }
{
    if is_last {
        return Ok(());
    }
    text.push(' ')
}
