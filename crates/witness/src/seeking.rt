//! The search for a schedule that shows that a promise is broken. What it answers was judged.
ghost use Rattle.std.specs.Prelude.{◌≡◌, IfOk, IfSome};
ghost use Rattle.core_program.specs.Core.{Program};
ghost use Rattle.core_program.specs.Views.{program_of};
ghost use Rattle.compile.specs.IsCode.{IsCodeOf};
ghost use Rattle.witness.specs.declared.verdict.Verdict.TheVariants as verdicts;
ghost use Rattle.witness.specs.Verdicts.{IsBrokenIn, IsCase, program_of_case};
ghost use Rattle.witness.specs.Findings.{IsShownBy, IsSought};

use crate::courses::{Course, Trail, course_of};
use crate::ends::is_new;
use crate::node::copied;
use crate::plans::{MOST_PLANS, Plan, add_orders, add_switches, first_plans, plan_at};
use crate::verdict::{Case, NoVerdict, Sense, Verdict, judge_schedule};
use compile::CodeTable;
use core_program::CoreProgram;
use machine::Machine;
use std::alloc::{AllocError as NoMemory, Global};

/// The most entries of a schedule that is judged.
const MOST_ENTRIES: usize = 200_000;

/// The most steps of all schedules together, but for the last one.
const MOST_WORK: u32 = 2_000_000;

/// The most schedules that are judged.
const MOST_JUDGED: u32 = 24;

/// The most states that each search of the judge sees.
const MOST_STATES: u32 = 5_000;

/// A schedule, and the sense in which it breaks promises.
#[derive(Drop)]
pub struct Found {
    pub schedule: Vec<u32>,
    pub sense: Sense,
}

/// What is found: a witness; or none among so many schedules.
#[derive(Drop)]
pub enum Sought {
    Witness(Found),
    Nothing { tried: u32 },
}

/// What is known so far: the ends that were looked at, the plans, how many of them were followed, how many steps that took, and
/// how many schedules were judged; and whether nothing is left to try.
#[derive(Drop)]
struct Known<'p> {
    ends: Vec<Machine<'p>>,
    plans: Vec<Plan>,
    tried: u32,
    work: u32,
    judged: u32,
    is_over: bool,
}

/// The sense in which promises are broken, where a verdict says so.
fn sense_of(verdict: &Verdict) -> Option<Sense>
    ensures { IfSome result (λ sense. verdict.now ≡ verdicts.Broken sense) }
{
    match verdict {
        Verdict::Broken(sense) => Some(*sense),
        Verdict::Kept(_) => None,
        Verdict::Undecided { .. } => None,
    }
}

/// Nothing, where there is no verdict for another reason than want of memory.
fn is_told(end: &NoVerdict) -> Result<(), NoMemory> {
    match end {
        NoVerdict::NoMemory => Err(NoMemory),
        NoVerdict::Stopped(_) => Ok(()),
        NoVerdict::Open { .. } => Ok(()),
    }
}

/// The sense in which a schedule breaks promises, where the judge finds one.
fn judged(alloc: Global, case: &Case<'_>) -> Result<Option<Sense>, NoMemory>
    requires { IsCase case.now }
    ensures { IfOk result (λ found. IfSome found (IsBrokenIn (program_of_case case.now) case.now.schedule.now)) }
{
    match judge_schedule(alloc, case) {
        Ok(verdict) => Ok(sense_of(&verdict)),
        Err(end) => {
            is_told(&end)?;
            Ok(None)
        }
    }
}

/// What the judge finds of these entries.
fn found_in(
    alloc: Global,
    program: &CoreProgram,
    code: &CodeTable,
    entries: &[u32],
) -> Result<Option<Found>, NoMemory>
    requires { IsCodeOf (program_of program.now) code.now.code.items code.now.entry.items code.now.room.items }
    ensures { IfOk result (λ found. IfSome found (IsShownBy (program_of program.now))) }
{
    if entries.len() > MOST_ENTRIES {
        return Ok(None);
    }
    let case = Case {
        program,
        code,
        schedule: entries,
        most: MOST_STATES,
    };
    let Some(sense) = judged(alloc, &case)? else {
        return Ok(None);
    };
    Ok(Some(Found {
        schedule: copied(alloc, entries)?,
        sense,
    }))
}

/// Whether the course ends as none did before, and may be a witness; its end is kept.
fn is_suspicious<'p>(
    known: &mut Known<'p>,
    machine: Machine<'p>,
    trail: &Trail,
) -> Result<bool, NoMemory> {
    if trail.idle || !is_new(known.ends.as_slice(), &machine) {
        return Ok(false);
    }
    known.ends.push(machine)?;
    if !trail.interrupts || known.judged >= MOST_JUDGED {
        return Ok(false);
    }
    known.judged = known.judged.saturating_add(1);
    Ok(true)
}

/// Adds what may be tried behind the course of a plan.
fn add_plans(known: &mut Known<'_>, plan: &Plan, course: &Course<'_>) -> Result<(), NoMemory> {
    if course.trail.idle {
        return Ok(());
    }
    if plan.is_first() {
        add_orders(&mut known.plans, course.trail.orders)?;
    }
    add_switches(
        &mut known.plans,
        plan,
        course.trail.marks.as_slice(),
        course.machine.thread_count(),
    )
}

/// Counts a course.
fn count(known: &mut Known<'_>, steps: u32) {
    known.tried = known.tried.saturating_add(1);
    known.work = known.work.saturating_add(steps);
    known.is_over = known.work > MOST_WORK;
}

/// Follows the plan at this place, and looks at its end.
fn follow<'p>(
    alloc: Global,
    program: &'p CoreProgram,
    code: &'p CodeTable,
    known: &mut Known<'p>,
    place: usize,
) -> Result<Option<Found>, NoMemory>
    requires { IsCodeOf (program_of program.now) code.now.code.items code.now.entry.items code.now.room.items }
    ensures { IfOk result (λ found. IfSome found (IsShownBy (program_of program.now))) }
{
    let Some(plan) = plan_at(known.plans.as_slice(), place) else {
        known.is_over = true;
        return Ok(None);
    };
    let course = course_of(alloc, program, code, &plan)?;
    add_plans(known, &plan, &course)?;
    let Course { machine, trail } = course;
    count(known, machine.made());
    if !is_suspicious(known, machine, &trail)? {
        return Ok(None);
    }
    found_in(alloc, program, code, trail.entries.as_slice())
}

/// The stronger of two witnesses, where there are two; of equal ones the first.
fn stronger(one: Option<Found>, other: Option<Found>) -> Option<Found>
    ensures { (P : Program) → IfSome one (IsShownBy P) → IfSome other (IsShownBy P) → IfSome result (IsShownBy P) }
{
    let Some(first) = one else {
        return other;
    };
    let Some(second) = other else {
        return Some(first);
    };
    if second.sense.full {
        Some(second)
    } else {
        Some(first)
    }
}

/// Whether the search goes on: something is left to try, and no full witness was found.
fn goes_on(known: &Known<'_>, best: &Option<Found>) -> bool {
    match best {
        Some(found) => !found.sense.full && !known.is_over,
        None => !known.is_over,
    }
}

/// What was found.
fn answer(best: Option<Found>, tried: u32) -> Sought
    ensures { (P : Program) → IfSome best (IsShownBy P) → IsSought P result }
{
    match best {
        Some(found) => Sought::Witness(found),
        None => Sought::Nothing { tried },
    }
}

/// A schedule that shows that a promise of the program is broken, where the search finds one. It prefers full witnesses.
///
/// Nothing is said where it finds none, nor of how far it looks: at most 4,096 schedules are tried, of at most 20,000 steps each,
/// and 24 of them are judged.
pub fn seek(alloc: Global, program: &CoreProgram, code: &CodeTable) -> Result<Sought, NoMemory>
    requires { IsCodeOf (program_of program.now) code.now.code.items code.now.entry.items code.now.room.items }
    ensures { IfOk result (IsSought (program_of program.now)) }
{
    let mut known = Known {
        ends: Vec::new(alloc),
        plans: first_plans(alloc)?,
        tried: 0,
        work: 0,
        judged: 0,
        is_over: false,
    };
    let mut best = None;
    'plans: for place in 0..MOST_PLANS {
        let found = follow(alloc, program, code, &mut known, place)?;
        best = stronger(best, found);
        if !goes_on(&known, &best) {
            break;
        }
    }
    Ok(answer(best, known.tried))
}
