//! The source and the schedule for a number of workers.
ghost use Rattle.std.specs.Prelude.{◌≡◌, ℕ, List, ◌<◌, ◌+◌, ◌-◌, ◌++◌, IfOk, OnOk, replicate, string_bytes};
ghost use Rattle.schedule.specs.Sources.{generated_source, repeated};
ghost use Rattle.schedule.specs.Rounds.{IsGenerated, AreRounds};
ghost use Rattle.schedule.specs.Made.{by_turns, each_once, handed_on, handed_back, called, several_rounds};

use std::alloc::{AllocError as NoMemory, Global};

/// There are fewer workers than this.
pub const MOST_WORKERS: u32 = 1000;

/// How many steps each worker takes.
const WORKER_STEPS: u32 = 106;

/// The class that the workers share.
const CELL: &str =
    "class Cell { int v guarded_by this; atomic void inc() { synchronized (this) { this.v = this.v + 1; } } }\n";

/// The class of the workers before their calls, and one call.
const WORKER: &str =
    "class W implements Runnable { final Cell c; W(Cell c) { this.c = c; } public void run() {";

const CALL: &str = " this.c.inc();";

/// The class with `main` before the workers are started, and the start of one.
const MAIN: &str = "class Main { void main() { final Cell c = new Cell();";

const START: &str = " new Thread(new W(c)).start();";

/// The end of a class after its last method's statements.
const END: &str = " } }\n";

/// Writes a text so many times.
fn write_times(text: &mut String, count: u32, piece: &str) -> Result<(), NoMemory>
    ensures { OnOk result (string_bytes text.new ≡ string_bytes text.old ++ repeated count piece.now) }
{
    for _piece in 0..count {
        text.push_str(piece)?;
    }
    Ok(())
}

/// The source for so many workers.
fn source(alloc: Global, n: u32) -> Result<String, NoMemory>
    ensures { IfOk result (λ text. string_bytes text ≡ generated_source n) }
{
    let mut text = String::new(alloc);
    text.push_str(CELL)?;
    text.push_str(WORKER)?;
    write_times(&mut text, 8, CALL)?;
    text.push_str(END)?;
    text.push_str(MAIN)?;
    write_times(&mut text, n, START)?;
    text.push_str(END)?;
    Ok(text)
}

/// Puts down a thread so many times.
fn put_times(schedule: &mut Vec<u32>, count: u32, thread: u32) -> Result<(), NoMemory>
    ensures { OnOk result (schedule.new.items ≡ schedule.old.items ++ replicate count thread) }
{
    for _entry in 0..count {
        schedule.push(thread)?;
    }
    Ok(())
}

/// Puts down two threads by turns, so many times.
fn put_turns(schedule: &mut Vec<u32>, count: u32, first: u32, second: u32) -> Result<(), NoMemory>
    ensures { OnOk result (schedule.new.items ≡ schedule.old.items ++ by_turns count first second) }
{
    for _turn in 0..count {
        schedule.push(first)?;
        schedule.push(second)?;
    }
    Ok(())
}

/// Puts down each worker once.
fn put_each(schedule: &mut Vec<u32>, n: u32) -> Result<(), NoMemory>
    requires { n < 1000 }
    ensures { OnOk result (schedule.new.items ≡ schedule.old.items ++ each_once 1 n) }
{
    for worker in 1..n + 1 {
        schedule.push(worker)?;
    }
    Ok(())
}

/// Puts down that the lock goes from each worker to the next.
fn put_handed_on(schedule: &mut Vec<u32>, both: u32, alone: u32, n: u32) -> Result<(), NoMemory>
    requires { n < 1000 }
    ensures { OnOk result (schedule.new.items ≡ schedule.old.items ++ handed_on both alone 1 (n - 1)) }
{
    for worker in 1..n {
        put_turns(schedule, both, worker, worker + 1)?;
        put_times(schedule, alone, worker + 1)?;
    }
    Ok(())
}

/// Puts down that the lock goes from the last worker back to the first.
fn put_handed_back(schedule: &mut Vec<u32>, n: u32) -> Result<(), NoMemory>
    ensures { OnOk result (schedule.new.items ≡ schedule.old.items ++ handed_back n) }
{
    schedule.push(n)?;
    put_turns(schedule, 5, 1, n)?;
    put_times(schedule, 2, 1)
}

/// Puts down all calls of two workers or more but the last one.
fn put_calls(schedule: &mut Vec<u32>, n: u32) -> Result<(), NoMemory>
    requires { n < 1000 }
    ensures { OnOk result (schedule.new.items ≡ schedule.old.items ++ called 7 n) }
{
    for _call in 0..7u32 {
        put_handed_on(schedule, 6, 1, n)?;
        put_handed_back(schedule, n)?;
    }
    Ok(())
}

/// Puts down the rounds of two workers or more.
fn put_several(schedule: &mut Vec<u32>, n: u32) -> Result<(), NoMemory>
    requires { n < 1000 }
    ensures { OnOk result (schedule.new.items ≡ schedule.old.items ++ several_rounds n) }
{
    for _round in 0..5u32 {
        put_each(schedule, n)?;
    }
    put_times(schedule, 7, 1)?;
    put_calls(schedule, n)?;
    put_handed_on(schedule, 3, 4, n)?;
    put_times(schedule, 3, n)?;
    Ok(())
}

/// Puts down the rounds of the workers.
fn put_rounds(schedule: &mut Vec<u32>, n: u32) -> Result<(), NoMemory>
    requires { n < 1000 }
    ensures { OnOk result ((rounds : List ℕ) × AreRounds (replicate n 0) rounds × (schedule.new.items ≡ schedule.old.items ++ rounds)) }
{
    match n {
        0 => {}
        1 => put_times(schedule, WORKER_STEPS, 1)?,
        _ => put_several(schedule, n)?,
    }
    Ok(())
}

/// The schedule for so many workers.
fn schedule(alloc: Global, n: u32) -> Result<Vec<u32>, NoMemory>
    requires { n < 1000 }
    ensures { IfOk result (λ schedule. IsGenerated n schedule.items) }
{
    let mut schedule = Vec::with_capacity(alloc, (4 + 109 * n) as usize)?;
    put_times(&mut schedule, 4 + 3 * n, 0)?;
    put_rounds(&mut schedule, n)?;
    Ok(schedule)
}

/// The source and the schedule for so many workers, which count up one number eight times each under its lock. The schedule runs
/// the main thread to its end, and then the workers in rounds.
pub fn generate(alloc: Global, n: u32) -> Result<(Vec<u8>, Vec<u32>), NoMemory>
    requires { n < 1000 }
    ensures source { IfOk result (λ made. made.0.items ≡ generated_source n) }
    ensures schedule { IfOk result (λ made. IsGenerated n made.1.items) }
{
    let source = source(alloc, n)?;
    let schedule = schedule(alloc, n)?;
    Ok((source.into_bytes(), schedule))
}
