//! Schedules that are made by a plan, and the machine at their end.
ghost use Rattle.core_program.specs.Views.{program_of};
ghost use Rattle.compile.specs.IsCode.{IsCodeOf};

use crate::node::is_inside;
use crate::plans::{Mark, Plan};
use compile::CodeTable;
use core_program::CoreProgram;
use machine::{Machine, StepEnd};
use state::StepKind;
use std::alloc::{AllocError as NoMemory, Global};

/// The most steps of a schedule.
const MOST_STEPS: u32 = 20_000;

/// The most turns of a schedule: each of them is a step, or goes to a thread that has one.
const MOST_TURNS: u32 = 40_001;

/// What is known of a schedule in the making. At its marks it may be switched. So many choices were there where a thread
/// couldn't go on. It may interrupt some atomic call. A switch to a thread that has no step makes it idle.
#[derive(Drop)]
pub(crate) struct Trail {
    pub(crate) entries: Vec<u32>,
    pub(crate) marks: Vec<Mark>,
    pub(crate) orders: u32,
    pub(crate) interrupts: bool,
    pub(crate) idle: bool,
    thread: u32,
    seen: u32,
    order: u32,
}

/// A schedule in the making, and the machine behind it.
#[derive(Drop)]
pub(crate) struct Course<'p> {
    pub(crate) machine: Machine<'p>,
    pub(crate) trail: Trail,
}

/// Whether others can see a step of this kind, or what it lets them do. Behind any other step nothing is gained by a
/// switch, since it can change places with steps of others that come later.
pub(crate) fn is_seen(kind: StepKind) -> bool {
    match kind {
        StepKind::Left | StepKind::Other | StepKind::Bare => true,
        StepKind::Both | StepKind::Right => false,
    }
}

/// How many threads have a step.
fn able(machine: &Machine<'_>) -> u32 {
    let mut count = 0u32;
    let mut thread = 0u32;
    'threads: for _ in machine.threads() {
        if machine.kind(thread).is_some() {
            count = count.saturating_add(1);
        }
        thread = thread.saturating_add(1);
    }
    count
}

/// The thread at this place of those that have a step.
fn able_at(machine: &Machine<'_>, place: u32) -> Option<u32> {
    let mut left = place;
    let mut thread = 0u32;
    'threads: for _ in machine.threads() {
        if machine.kind(thread).is_some() {
            if left == 0 {
                return Some(thread);
            }
            left = left.saturating_sub(1);
        }
        thread = thread.saturating_add(1);
    }
    None
}

/// Goes on with another thread.
fn go_to(course: &mut Course<'_>, thread: u32) {
    if is_inside(&course.machine, course.trail.thread) {
        course.trail.interrupts = true;
    }
    course.trail.thread = thread;
}

/// Switches to a thread.
fn switch_to(course: &mut Course<'_>, thread: u32) {
    if course.machine.kind(thread).is_none() {
        course.trail.idle = true;
        return;
    }
    go_to(course, thread);
}

/// Goes on with one of the threads that have a step, and answers whether there is one.
fn choose(course: &mut Course<'_>) -> bool {
    let count = able(&course.machine);
    if count == 0 {
        return false;
    }
    let Some(thread) = able_at(&course.machine, course.trail.order % count) else {
        return false;
    };
    course.trail.order /= count;
    course.trail.orders = course.trail.orders.saturating_mul(count);
    go_to(course, thread);
    true
}

/// Marks the place behind a step that others can see, where the thread stands inside an atomic call or has started
/// another one.
fn mark(course: &mut Course<'_>, has_started: bool) -> Result<(), NoMemory> {
    if !has_started && !is_inside(&course.machine, course.trail.thread) {
        return Ok(());
    }
    let mark = Mark {
        behind: course.trail.seen,
        thread: course.trail.thread,
    };
    course.trail.marks.push(mark)?;
    Ok(())
}

/// Counts a step that others can see, and switches where the plan says so.
fn pass(course: &mut Course<'_>, plan: &Plan, has_started: bool) -> Result<(), NoMemory> {
    course.trail.seen = course.trail.seen.saturating_add(1);
    mark(course, has_started)?;
    if let Some(to) = plan.switched(course.trail.seen) {
        switch_to(course, to);
    }
    Ok(())
}

/// A step of the thread whose turn it is, and what comes of its kind; where it has none, another one's turn. Answers whether
/// there was one.
fn turn(alloc: Global, course: &mut Course<'_>, plan: &Plan) -> Result<bool, NoMemory> {
    if course.trail.idle || course.machine.made() >= MOST_STEPS {
        return Ok(false);
    }
    let threads = course.machine.thread_count();
    match course.machine.step_kind(alloc, course.trail.thread) {
        Ok(kind) => {
            course.trail.entries.push(course.trail.thread)?;
            if is_seen(kind) {
                let has_started = course.machine.thread_count() > threads;
                pass(course, plan, has_started)?;
            }
            Ok(true)
        }
        Err(StepEnd::NoMemory) => Err(NoMemory),
        Err(_) => Ok(choose(course)),
    }
}

/// The course at the start.
fn begin<'p>(
    alloc: Global,
    program: &'p CoreProgram,
    code: &'p CodeTable,
    order: u32,
) -> Result<Course<'p>, NoMemory>
    requires { IsCodeOf (program_of program.now) code.now.code.items code.now.entry.items code.now.room.items }
{
    Ok(Course {
        machine: Machine::start(alloc, program, code)?,
        trail: Trail {
            entries: Vec::new(alloc),
            marks: Vec::new(alloc),
            orders: 1,
            interrupts: false,
            idle: false,
            thread: 0,
            seen: 0,
            order,
        },
    })
}

/// The course of a plan.
pub(crate) fn course_of<'p>(
    alloc: Global,
    program: &'p CoreProgram,
    code: &'p CodeTable,
    plan: &Plan,
) -> Result<Course<'p>, NoMemory>
    requires { IsCodeOf (program_of program.now) code.now.code.items code.now.entry.items code.now.room.items }
{
    let mut course = begin(alloc, program, code, plan.order)?;
    'turns: for _ in 0..MOST_TURNS {
        if !turn(alloc, &mut course, plan)? {
            return Ok(course);
        }
    }
    Ok(course)
}
