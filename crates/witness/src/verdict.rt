//! What is told of a schedule as a whole: an order that keeps its promises, or the strongest sense in which they are broken.
ghost use Rattle.std.specs.Prelude.{◌≡◌, ◌≢◌, ◌≤◌, ℕ, List, true, false, length, Some, IfOk, IfSome, MatchResult};
ghost use Rattle.core_program.specs.Core.{Program};
ghost use Rattle.state.specs.States.{State, initial};
ghost use Rattle.machine.specs.declared.deed.StepEnd.TheVariants as ends;
ghost use Rattle.machine.specs.Standing.{program_run, StandsFor, IsStop, HasRun};
ghost use Rattle.witness.specs.Witness.{IsWitnessAs, IsFullWitnessAs};
ghost use Rattle.witness.specs.declared.goal.Compared.TheVariants as comparisons;
ghost use Rattle.witness.specs.declared.judge.Judged.TheVariants as answers;
ghost use Rattle.witness.specs.Judging.{AreLike, IsGoal};
ghost use Rattle.witness.specs.Verdicts.{program_of_case, IsCase, IsMachineEnd, IsVerdict, IsBrokenIn, IsNoVerdict};

use crate::goal::{Compared, Goal};
use crate::judge::{Judged, judge_orders, judge_ways};
use compile::CodeTable;
use core_program::CoreProgram;
use machine::{Machine, StepEnd, Stopped};
use std::alloc::{AllocError, AllocError as NoMemory, Global};

/// The most states that are seen at first, to find out whether there is an order.
const FEW_STATES: u32 = 500;

/// In which sense the promises in a schedule are broken: by which comparison of ends, and whether no schedule at all that
/// interrupts no atomic call ends so, or only none with the same entries.
#[derive(Clone, Copy)]
pub struct Sense {
    pub by: Compared,
    pub full: bool,
}

/// What is told of a schedule: an order that leaves the same objects and the same output; in which sense its promises are
/// broken; or neither, where as many states were seen as may be.
#[derive(Drop)]
pub enum Verdict {
    Kept(Vec<u32>),
    Broken(Sense),
    Undecided { seen: u32 },
}

/// Why nothing is told of a schedule: it stops, or it ends with this thread inside an atomic call, the least such; or memory
/// was wanting.
#[derive(Clone, Copy)]
pub enum NoVerdict {
    Stopped(Stopped),
    Open { thread: u32 },
    NoMemory,
}

impl From<AllocError> for NoVerdict {
    ghost use Rattle.std.specs.Prelude.{◌≡◌};
    ghost use Rattle.witness.specs.declared.verdict.NoVerdict.TheVariants as none;

    ghost from_gives = { λ _ end. end ≡ none.NoMemory };

    fn from(_: AllocError) -> NoVerdict {
        NoVerdict::NoMemory
    }
}

/// What is judged: a program with its code, a schedule, and how many states are seen at most.
#[derive(Clone, Copy)]
pub struct Case<'c> {
    pub program: &'c CoreProgram,
    pub code: &'c CodeTable,
    pub schedule: &'c [u32],
    pub most: u32,
}

/// Whether a thread had no step for want of memory.
fn is_want_of_memory(why: StepEnd) -> bool
    ensures yes { result ≡ true → why ≡ ends.NoMemory }
    ensures otherwise { result ≡ false → why ≢ ends.NoMemory }
{
    match why {
        StepEnd::NoMemory => true,
        StepEnd::Absent | StepEnd::Done | StepEnd::Faulted(_) | StepEnd::Waits { .. } => false,
    }
}

/// Why nothing is told of a schedule that stops so.
fn stop(stopped: Stopped) -> NoVerdict
    ensures { (P : Program) (s : List ℕ) (before : State) → IsStop P (initial P) s stopped before → IsNoVerdict P s result }
{
    if is_want_of_memory(stopped.why) {
        return NoVerdict::NoMemory;
    }
    NoVerdict::Stopped(stopped)
}

/// Runs a schedule on a machine at the start.
fn run_whole(alloc: Global, machine: &mut Machine<'_>, schedule: &[u32]) -> Result<(), NoVerdict>
    requires start { StandsFor machine.old (initial (program_run machine.old)) }
    requires made { machine.old.made ≡ 0 }
    requires short { length schedule.now ≤ 200000 }
    ensures ran { MatchResult result (λ _. HasRun machine.new (program_run machine.old) (initial (program_run machine.old)) schedule.now) (IsNoVerdict (program_run machine.old) schedule.now) }
    ensures program { machine.new.program ≡ machine.old.program }
{
    match machine.run(alloc, schedule) {
        Ok(()) => Ok(()),
        Err(stopped) => Err(stop(stopped)),
    }
}

/// The machine at the end of the schedule.
fn ended<'c>(alloc: Global, case: &Case<'c>) -> Result<Machine<'c>, NoVerdict>
    requires { IsCase case.now }
    ensures { MatchResult result (IsMachineEnd (program_of_case case.now) case.now.schedule.now) (IsNoVerdict (program_of_case case.now) case.now.schedule.now) }
{
    let mut machine = Machine::start(alloc, case.program, case.code)?;
    run_whole(alloc, &mut machine, case.schedule)?;
    match machine.open_thread() {
        Some(thread) => Err(NoVerdict::Open { thread }),
        None => Ok(machine),
    }
}

/// The end at which a machine stands, to which others are compared so.
fn end_of<'m>(machine: &'m Machine<'_>, by: Compared) -> Goal<'m>
    ensures goal { (q : State) → StandsFor machine.now q → IsGoal result q }
    ensures by { result.by ≡ by }
{
    Goal {
        heap: machine.heap(),
        output: machine.output(),
        by,
    }
}

/// Whether it is told that there is no order, or no schedule.
fn is_broken(judged: &Judged) -> bool
    ensures { result ≡ true → judged.now ≡ answers.Broken }
{
    match judged {
        Judged::Broken => true,
        Judged::Kept(_) | Judged::Undecided { .. } => false,
    }
}

/// Whether it is found that no schedule at all that interrupts nobody ends like this one.
fn no_way(
    alloc: Global,
    case: &Case<'_>,
    machine: &Machine<'_>,
    by: Compared,
) -> Result<bool, NoMemory>
    requires case { IsCase case.now }
    requires end { IsMachineEnd (program_of_case case.now) case.now.schedule.now machine.now }
    ensures { IfOk result (λ found. found ≡ true → IsFullWitnessAs (program_of_case case.now) (AreLike by) case.now.schedule.now) }
{
    let judged = judge_ways(
        alloc,
        case.program,
        case.code,
        end_of(machine, by),
        case.most,
    )?;
    Ok(is_broken(&judged))
}

/// Whether it is found that no order of the schedule prints the same.
fn no_order(alloc: Global, case: &Case<'_>, machine: &Machine<'_>) -> Result<bool, NoMemory>
    requires case { IsCase case.now }
    requires end { IsMachineEnd (program_of_case case.now) case.now.schedule.now machine.now }
    ensures { IfOk result (λ found. found ≡ true → IsWitnessAs (program_of_case case.now) (AreLike comparisons.Output) case.now.schedule.now) }
{
    let judged = judge_orders(
        alloc,
        case.program,
        case.code,
        case.schedule,
        end_of(machine, Compared::Output),
        case.most,
    )?;
    Ok(is_broken(&judged))
}

/// The stronger sense in which no schedule at all is found to end like this one; none where neither is found.
fn full_sense(
    alloc: Global,
    case: &Case<'_>,
    machine: &Machine<'_>,
) -> Result<Option<Sense>, NoMemory>
    requires case { IsCase case.now }
    requires end { IsMachineEnd (program_of_case case.now) case.now.schedule.now machine.now }
    ensures { IfOk result (λ found. IfSome found (IsBrokenIn (program_of_case case.now) case.now.schedule.now)) }
{
    if no_way(alloc, case, machine, Compared::Output)? {
        return Ok(Some(Sense {
            by: Compared::Output,
            full: true,
        }));
    }
    if no_way(alloc, case, machine, Compared::Objects)? {
        return Ok(Some(Sense {
            by: Compared::Objects,
            full: true,
        }));
    }
    Ok(None)
}

/// The stronger sense in which no order is found to end like a schedule, where none leaves the same.
fn order_sense(alloc: Global, case: &Case<'_>, machine: &Machine<'_>) -> Result<Sense, NoMemory>
    requires case { IsCase case.now }
    requires end { IsMachineEnd (program_of_case case.now) case.now.schedule.now machine.now }
    requires broken { IsWitnessAs (program_of_case case.now) (AreLike comparisons.Objects) case.now.schedule.now }
    ensures { IfOk result (IsBrokenIn (program_of_case case.now) case.now.schedule.now) }
{
    if no_order(alloc, case, machine)? {
        return Ok(Sense {
            by: Compared::Output,
            full: false,
        });
    }
    Ok(Sense {
        by: Compared::Objects,
        full: false,
    })
}

/// The strongest sense in which the promises of a schedule are found to be broken, where no order leaves the same.
fn strongest(alloc: Global, case: &Case<'_>, machine: &Machine<'_>) -> Result<Sense, NoMemory>
    requires case { IsCase case.now }
    requires end { IsMachineEnd (program_of_case case.now) case.now.schedule.now machine.now }
    requires broken { IsWitnessAs (program_of_case case.now) (AreLike comparisons.Objects) case.now.schedule.now }
    ensures { IfOk result (IsBrokenIn (program_of_case case.now) case.now.schedule.now) }
{
    if let Some(sense) = full_sense(alloc, case, machine)? {
        return Ok(sense);
    }
    order_sense(alloc, case, machine)
}

/// What is told where few states don't decide whether there is an order. Where no schedule at all ends like this one there is
/// none, and then the orders needn't be looked for once more.
fn told_of_many(alloc: Global, case: &Case<'_>, machine: &Machine<'_>) -> Result<Verdict, NoMemory>
    requires case { IsCase case.now }
    requires end { IsMachineEnd (program_of_case case.now) case.now.schedule.now machine.now }
    ensures { IfOk result (IsVerdict (program_of_case case.now) case.now.most case.now.schedule.now) }
{
    if let Some(sense) = full_sense(alloc, case, machine)? {
        return Ok(Verdict::Broken(sense));
    }
    match judge_orders(
        alloc,
        case.program,
        case.code,
        case.schedule,
        end_of(machine, Compared::Objects),
        case.most,
    )? {
        Judged::Kept(order) => Ok(Verdict::Kept(order)),
        Judged::Undecided { seen } => Ok(Verdict::Undecided { seen }),
        Judged::Broken => Ok(Verdict::Broken(order_sense(alloc, case, machine)?)),
    }
}

/// How many states are seen at first, where this many are seen at most.
fn first_states(most: u32) -> u32
    requires { 1 ≤ most }
    ensures { 1 ≤ result }
{
    most.min(FEW_STATES)
}

/// What is told of the schedule at whose end this machine stands.
fn told(alloc: Global, case: &Case<'_>, machine: &Machine<'_>) -> Result<Verdict, NoMemory>
    requires case { IsCase case.now }
    requires end { IsMachineEnd (program_of_case case.now) case.now.schedule.now machine.now }
    ensures { IfOk result (IsVerdict (program_of_case case.now) case.now.most case.now.schedule.now) }
{
    match judge_orders(
        alloc,
        case.program,
        case.code,
        case.schedule,
        end_of(machine, Compared::Objects),
        first_states(case.most),
    )? {
        Judged::Kept(order) => Ok(Verdict::Kept(order)),
        Judged::Undecided { .. } => told_of_many(alloc, case, machine),
        Judged::Broken => Ok(Verdict::Broken(strongest(alloc, case, machine)?)),
    }
}

/// What is told of a schedule; or why nothing is.
pub fn judge_schedule(alloc: Global, case: &Case<'_>) -> Result<Verdict, NoVerdict>
    requires { IsCase case.now }
    ensures { MatchResult result (IsVerdict (program_of_case case.now) case.now.most case.now.schedule.now) (IsNoVerdict (program_of_case case.now) case.now.schedule.now) }
{
    let machine = ended(alloc, case)?;
    Ok(told(alloc, case, &machine)?)
}
