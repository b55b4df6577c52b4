//! The exchange of neighbours and watched machines, which no row of the program reaches.

ghost use Rattle.std.specs.Prelude.{◌≤◌, ℕ, List, length, IfOk};
ghost use Rattle.core_program.specs.Typed.{IsTyped};
ghost use Rattle.core_program.specs.Views.{program_of};
ghost use Rattle.compile.specs.IsCode.{IsCodeOf};
ghost use Rattle.semantics.specs.Run.{Runs};
ghost use Rattle.sources.specs.Checking.{IsSourceOf};

use book_check::{Checked, accept_text};
use compile::{CodeTable, compile};
use core_program::CoreProgram;
use library::{SwapEnd, Watched, swap_at};
use machine::{Machine, StepEnd};
use sources::{Source, read_source};
use state::{Heap, Locks, StepKind, ThreadCell};
use std::alloc::Global;
use std::process::Abort;
use std::test::Fail;

/// The counter program: two workers call an atomic `inc` of one cell.
pub const COUNTER: &str =
    "class Cell { int v guarded_by this; atomic void inc() { synchronized (this) { this.v = this.v + 1; } } } \
    class W implements Runnable { final Cell c; W(Cell c) { this.c = c; } public void run() { this.c.inc(); } } \
    class Main { void main() { final Cell c = new Cell(); new Thread(new W(c)).start(); new Thread(new W(c)).start(); } }";

/// The schedule that counts spell: so many entries of each thread in turn.
pub fn schedule_of(alloc: Global, groups: &[(u32, u32)]) -> Result<Vec<u32>, Fail> {
    let mut schedule = Vec::new(alloc);
    for (thread, count) in groups {
        for _ in 0..*count {
            schedule.push(*thread)?;
        }
    }
    Ok(schedule)
}

/// The schedule was run, and runs.
fn run_whole(
    alloc: Global,
    program: &CoreProgram,
    code: &CodeTable,
    schedule: &[u32],
) -> Result<(), Fail>
    requires code { IsCodeOf (program_of program.now) code.now.code.items code.now.entry.items code.now.room.items }
    requires short { length schedule.now ≤ 200000 }
    ensures { IfOk result (λ _. Runs (program_of program.now) schedule.now) }
{
    let mut machine = Machine::start(alloc, program, code)?;
    match machine.run(alloc, schedule) {
        Ok(()) => Ok(()),
        Err(_) => Err(Fail::new("the schedule stops")),
    }
}

/// The well-formed source of a text.
pub fn source_of<'a>(alloc: Global, text: &'a str) -> Result<Source<'a>, Fail>
    ensures { IfOk result (λ source. (file : List ℕ) × IsSourceOf file source) }
{
    if text.len() > 262144 {
        return Err(Fail::new("a long source"));
    }
    match read_source(alloc, text.as_bytes()) {
        Ok(source) => Ok(source),
        Err(_) => Err(Fail::new("no well-formed source")),
    }
}

/// The core program of a text that is a well-formed source.
pub fn core_of(alloc: Global, text: &str) -> Result<CoreProgram, Fail>
    ensures { IfOk result (λ program. IsTyped (program_of program)) }
{
    let Source { program, .. } = source_of(alloc, text)?;
    Ok(program)
}

/// The schedule of a source with the entry at a place and the next one exchanged.
fn exchange(
    alloc: Global,
    text: &str,
    schedule: &[u32],
    place: u32,
) -> Result<Result<Vec<u32>, SwapEnd>, Fail> {
    let next = place as usize + 1;
    if schedule.len() > 200000 || next >= schedule.len() {
        return Err(Fail::new("no such entry"));
    }
    if schedule[place as usize] == schedule[next] {
        return Err(Fail::new("one thread"));
    }
    let program = core_of(alloc, text)?;
    let code = compile(alloc, &program)?;
    run_whole(alloc, &program, &code, schedule)?;
    Ok(swap_at(alloc, &program, &code, schedule, place))
}

/// The machine of a program after a schedule.
pub fn machine_after<'p>(
    alloc: Global,
    program: &'p CoreProgram,
    code: &'p CodeTable,
    schedule: &[u32],
) -> Result<Machine<'p>, Fail>
    requires code { IsCodeOf (program_of program.now) code.now.code.items code.now.entry.items code.now.room.items }
    requires short { length schedule.now ≤ 200000 }
{
    let mut machine = Machine::start(alloc, program, code)?;
    match machine.run(alloc, schedule) {
        Ok(()) => Ok(machine),
        Err(_) => Err(Fail::new("the schedule stops")),
    }
}

/// Copies of all that a machine has.
#[derive(Drop)]
struct Copied {
    heap: Heap,
    locks: Locks,
    threads: Vec<ThreadCell>,
    output: Vec<i32>,
}

fn copies_of(alloc: Global, machine: &Machine<'_>) -> Result<Copied, Fail> {
    let mut threads = Vec::new(alloc);
    for thread in machine.threads() {
        threads.push(thread.copy(alloc)?)?;
    }
    Ok(Copied {
        heap: machine.heap().copy(alloc)?,
        locks: machine.locks().copy(alloc)?,
        threads,
        output: machine.output().to_vec(alloc)?,
    })
}

/// A thread has what another has.
fn expect_same_thread(rt: &impl Abort, given: &ThreadCell, wanted: &ThreadCell) {
    assert!(rt; given.state() == wanted.state());
    assert!(rt; given.waiting() == wanted.waiting());
    assert_eq!(rt; given.frames(), wanted.frames());
    for depth in 0..wanted.frames() {
        assert!(rt; given.method_at(depth) == wanted.method_at(depth));
    }
    assert_eq!(rt; given.place(), wanted.place());
    assert_eq!(rt; given.slots(), wanted.slots());
    assert_eq!(rt; given.operands(), wanted.operands());
    assert_eq!(rt; given.taken(), wanted.taken());
}

/// A machine has what was copied.
fn expect_same(rt: &impl Abort, machine: &Machine<'_>, copied: &Copied) {
    assert_eq!(rt; machine.heap().len(), copied.heap.len());
    for place in 0..copied.heap.len() {
        assert!(rt; machine.heap().at(place) == copied.heap.at(place));
    }
    assert_eq!(rt; machine.locks().len(), copied.locks.len());
    for place in 0..copied.locks.len() {
        assert!(rt; machine.locks().at(place) == copied.locks.at(place));
    }
    assert_eq!(rt; machine.threads().len(), copied.threads.len());
    for (given, wanted) in machine.threads().iter().zip(copied.threads.iter()) {
        expect_same_thread(rt, given, wanted);
    }
    assert_eq!(rt; machine.output(), copied.output.as_slice());
}

/// A machine that ran these groups.
fn expect_copied(
    rt: &impl Abort,
    alloc: Global,
    groups: &[(u32, u32)],
    locks: usize,
) -> Result<(), Fail> {
    let schedule = schedule_of(alloc, groups)?;
    if schedule.len() > 200000 {
        return Err(Fail::new("a long schedule"));
    }
    let program = core_of(alloc, COUNTER)?;
    let code = compile(alloc, &program)?;
    let machine = machine_after(alloc, &program, &code, schedule.as_slice())?;
    let copied = copies_of(alloc, &machine)?;
    assert_eq!(rt; copied.heap.len(), 4);
    assert_eq!(rt; copied.heap.made(0), 4);
    assert_eq!(rt; copied.locks.len(), locks);
    assert_eq!(rt; copied.threads.len(), 3);
    expect_same(rt, &machine, &copied);
    Ok(())
}

/// Copies of heap, locks and threads, made while a thread is inside the call that holds the lock of the cell, and where the first
/// worker has ended.
#[test]
fn copies_have_what_they_copy(rt: HostRuntime) -> Result<(), Fail> {
    expect_copied(&rt, rt.alloc(), &[(0, 10), (1, 12)], 1)?;
    expect_copied(&rt, rt.alloc(), &[(0, 10), (1, 15)], 0)
}

/// With the entry at this place and the next one exchanged, the groups of a schedule are the others.
fn expect_exchanged(
    rt: &impl Abort,
    alloc: Global,
    groups: &[(u32, u32)],
    place: u32,
    others: &[(u32, u32)],
) -> Result<(), Fail> {
    let schedule = schedule_of(alloc, groups)?;
    let exchanged = schedule_of(alloc, others)?;
    match exchange(alloc, COUNTER, schedule.as_slice(), place)? {
        Ok(given) => assert_eq!(rt; given.as_slice(), exchanged.as_slice()),
        Err(_) => assert!(rt; false),
    }
    Ok(())
}

/// The entry at this place and the next one are not exchanged, for this reason.
fn expect_kept(
    rt: &impl Abort,
    alloc: Global,
    groups: &[(u32, u32)],
    place: u32,
    why: SwapEnd,
) -> Result<(), Fail> {
    let schedule = schedule_of(alloc, groups)?;
    match exchange(alloc, COUNTER, schedule.as_slice(), place)? {
        Ok(_) => assert!(rt; false),
        Err(end) => assert!(rt; end == why),
    }
    Ok(())
}

#[test]
fn neighbours_change_places_where_they_may(rt: HostRuntime) -> Result<(), Fail> {
    let movers = [(0, 10), (1, 1), (2, 1)];
    expect_exchanged(&rt, rt.alloc(), &movers, 10, &[(0, 10), (2, 1), (1, 1)])?;
    expect_kept(&rt, rt.alloc(), &[(0, 6), (1, 1)], 5, SwapEnd::Starts)?;
    let locks = [(0, 10), (1, 12), (2, 5), (1, 1), (2, 1)];
    let kinds = SwapEnd::NotMovers {
        first: StepKind::Left,
        second: StepKind::Right,
    };
    expect_kept(&rt, rt.alloc(), &locks, 27, kinds)
}

/// The book of the counter program, as `derive` writes it.
pub const BOOK: &str =
    "book 7\n(0 mover atomic)\n(0 mover error)\nconst\n(0.1 mover atomic)\ncmpd\nmover\natomic\nmethod 0 0\n\
    (block 0 (sync 0 (block 1 (put 1 (this 2) (bin 1 (get 1 (this 2)) (lit 2))))))\nmethod 1 3\n(block 3 (do 3 (call 3 (get 2 (this 2)))))\n\
    method 2 4\n(block 4 (local 5 (new 5)) (start 6 (new 5 (var 2))) (start 6 (new 5 (var 2))))\nend\n";

const WRITE_GUARDED: &str =
    "class Main { int v write_guarded_by this; void main() { System.out.println(this.v); \
    synchronized (this) { this.v = 7; System.out.println(this.v); } } }";

const WRITE_GUARDED_BOOK: &str =
    "book 6\ncmpd\n(0 atomic cmpd)\n(0 mover atomic)\nconst\n(0 cmpd error)\n(0 atomic error)\nmethod 0 0\n\
    (block 0 (print 1 (get 2 (this 3))) (sync 0 (block 4 (put 5 (this 3) (lit 3)) (print 1 (get 2 (this 3))))))\nend\n";

/// The checked program of a source and a good book of it.
pub fn checked_of(alloc: Global, text: &str, book: &str) -> Result<Checked, Fail> {
    if book.len() > 16777216 {
        return Err(Fail::new("a long book"));
    }
    let Source { program, sets, .. } = source_of(alloc, text)?;
    match accept_text(alloc, program, sets, book.as_bytes()) {
        Ok(checked) => Ok(checked),
        Err(_) => Err(Fail::new("no good book")),
    }
}

/// One step of a watched machine.
fn step_of(
    alloc: Global,
    watched: &mut Watched<'_>,
    thread: u32,
) -> Result<Result<StepKind, StepEnd>, Fail> {
    if watched.machine().made() == u32::MAX {
        return Err(Fail::new("too many steps"));
    }
    Ok(watched.step(alloc, thread))
}

/// The steps of a thread have these kinds, one after the other.
fn expect_kinds(
    rt: &impl Abort,
    alloc: Global,
    watched: &mut Watched<'_>,
    thread: u32,
    kinds: &[StepKind],
) -> Result<(), Fail> {
    for kind in kinds {
        assert!(rt; step_of(alloc, watched, thread)? == Ok(*kind));
    }
    Ok(())
}

/// The kinds of a worker's steps.
static WORKER: [StepKind; 15] = [
    StepKind::Both,
    StepKind::Both,
    StepKind::Both,
    StepKind::Both,
    StepKind::Both,
    StepKind::Right,
    StepKind::Both,
    StepKind::Both,
    StepKind::Both,
    StepKind::Both,
    StepKind::Both,
    StepKind::Both,
    StepKind::Left,
    StepKind::Both,
    StepKind::Both,
];

/// Ten steps of `main`, all of a worker, and none of a thread that is absent.
fn expect_counter_steps(
    rt: &impl Abort,
    alloc: Global,
    watched: &mut Watched<'_>,
) -> Result<(), Fail> {
    for _ in 0..10 {
        assert!(rt; step_of(alloc, watched, 0)?.is_ok());
    }
    expect_kinds(rt, alloc, watched, 1, &WORKER)?;
    assert!(rt; step_of(alloc, watched, 5)? == Err(StepEnd::Absent));
    assert_eq!(rt; watched.steps().len(), 25);
    assert_eq!(rt; watched.machine().made(), 25);
    Ok(())
}

#[test]
fn watched_steps_have_their_kinds(rt: HostRuntime) -> Result<(), Fail> {
    let alloc = rt.alloc();
    let checked = checked_of(alloc, COUNTER, BOOK)?;
    let code = compile(alloc, checked.program())?;
    let mut watched = Watched::start(alloc, &checked, &code)?;
    expect_counter_steps(&rt, alloc, &mut watched)
}

/// The second worker waits for the lock of the first, `main` is done, and a thread is absent: none of them steps, and all is as it was.
fn expect_refused(rt: &impl Abort, alloc: Global, watched: &mut Watched<'_>) -> Result<(), Fail> {
    for (thread, count) in &[(0_u32, 10_u32), (1, 6), (2, 5)] {
        for _ in 0..*count {
            assert!(rt; step_of(alloc, watched, *thread)?.is_ok());
        }
    }
    let copied = copies_of(alloc, watched.machine())?;
    for thread in &[2_u32, 0, 5] {
        assert!(rt; step_of(alloc, watched, *thread)?.is_err());
        expect_same(rt, watched.machine(), &copied);
    }
    assert_eq!(rt; watched.steps().len(), 21);
    Ok(())
}

#[test]
fn a_refused_step_changes_nothing(rt: HostRuntime) -> Result<(), Fail> {
    let alloc = rt.alloc();
    let checked = checked_of(alloc, COUNTER, BOOK)?;
    let code = compile(alloc, checked.program())?;
    let mut watched = Watched::start(alloc, &checked, &code)?;
    expect_refused(&rt, alloc, &mut watched)
}

/// The kinds of the steps of a thread that reads and writes what is guarded for writing only.
static WRITER: [StepKind; 14] = [
    StepKind::Both,
    StepKind::Both,
    StepKind::Other,
    StepKind::Other,
    StepKind::Both,
    StepKind::Right,
    StepKind::Both,
    StepKind::Both,
    StepKind::Other,
    StepKind::Both,
    StepKind::Both,
    StepKind::Other,
    StepKind::Left,
    StepKind::Both,
];

#[test]
fn watched_writes_are_no_movers(rt: HostRuntime) -> Result<(), Fail> {
    let alloc = rt.alloc();
    let checked = checked_of(alloc, WRITE_GUARDED, WRITE_GUARDED_BOOK)?;
    let code = compile(alloc, checked.program())?;
    let mut watched = Watched::start(alloc, &checked, &code)?;
    expect_kinds(&rt, alloc, &mut watched, 0, &WRITER)
}
