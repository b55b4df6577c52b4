//! The lines of steps, and of what would help.

ghost use Rattle.std.specs.Prelude.{◌≡◌, ◌++◌, [], string_bytes, OnOk, if◌then◌else◌};
ghost use Rattle.core_program.specs.Views.{program_of};
ghost use Rattle.rules.specs.Near.{rel_of};
ghost use Rattle.rules.specs.Search.{row_at};
ghost use Rattle.explain.specs.Around.{around};
ghost use Rattle.explain.specs.Whys.{Looped, Compound, Two};
ghost use Rattle.explain.specs.Views.{visit_of};
ghost use Rattle.explain_text.specs.Blocks.{around_line, around_text, help_line, help_lines, helps, step_line, step_text, steps_lines};
ghost use Rattle.explain_text.specs.Codes.{ending, help_code, step_code};
ghost use Rattle.explain_text.specs.DeedTexts.{help_text, may_stay};
ghost use Rattle.explain_text.specs.Pages.{note_front};
ghost use Rattle.explain_text.specs.Views.{page_data};

use crate::blocks::name_offset;
use crate::codes::{StepKind, help_ending, spoken_kind, step_ending, step_lead};
use crate::deeds::{is_compound, may_stay, write_deed, write_help};
use crate::page::{Page, begin_line, note_front, write_note};
use crate::words::write_path;
use algebra::Basic;
use effects::Assigned;
use explain::{Alias, Deed, Help, Visited, Walk, deed_of, help_of};
use paths::{MethodId, Path};
use report::write_title;
use rules::OverridingMethods;
use std::alloc::AllocError as NoMemory;

/// What is told of a loop that repeats a step.
const EACH_TIME: &str =
    "this loop makes it each time round, and between two times another thread may come in [gap-loop]\n";

/// What is told of a step that is compound by itself.
const INSIDE: &str = "inside it another thread may come in [gap-inside]\n";

/// What is told of two steps.
const BETWEEN: &str = "between the two another thread may come in [gap-between]\n";

/// What a step is asked in: the walk, the methods that override each, and of the method that is told the final locals, its number, what
/// it may be at most, and the lock with which, held around all of it, it is no more.
#[derive(Drop)]
pub(crate) struct Asked<'q, 'w, A> {
    pub(crate) walk: &'q Walk<'w, A>,
    pub(crate) over: &'q OverridingMethods,
    pub(crate) aliases: &'q [Alias],
    pub(crate) method: MethodId,
    pub(crate) limit: Basic,
    pub(crate) around: Option<Path>,
}

/// Writes what a step does.
fn write_step_text(
    out: &mut String,
    page: &Page<'_, '_>,
    kind: StepKind,
    deed: &Deed,
) -> Result<(), NoMemory>
    ensures { OnOk result (string_bytes out.new ≡ string_bytes out.old ++ step_text (page_data page.now) kind deed.now) }
{
    let spoken = spoken_kind(kind, is_compound(deed));
    out.push_str(step_lead(spoken))?;
    write_deed(out, page, deed)
}

/// Writes the line of a step that does this, behind what the line begins with.
fn write_step_line(
    out: &mut String,
    page: &Page<'_, '_>,
    front: &str,
    kind: StepKind,
    deed: &Deed,
) -> Result<(), NoMemory>
    ensures { OnOk result (string_bytes out.new ≡ string_bytes out.old ++ (front.now ++ step_text (page_data page.now) kind deed.now ++ ending (step_code kind))) }
{
    out.push_str(front)?;
    write_step_text(out, page, kind, deed)?;
    out.push_str(step_ending(kind))
}

/// Writes the line of a step behind what the notes at its node begin with.
fn write_step<A: Assigned>(
    out: &mut String,
    page: &Page<'_, '_>,
    asked: &Asked<'_, '_, A>,
    front: &str,
    kind: StepKind,
    step: &Visited<'_>,
) -> Result<(), NoMemory>
    requires { front.now ≡ note_front (page_data page.now) step.now.node }
    ensures { OnOk result (string_bytes out.new ≡ string_bytes out.old
        ++ step_line (program_of asked.now.walk.now.program.now) (rel_of asked.now.walk.now.sets.now) (A.Assigned.assigned asked.now.walk.now.assigned.now) (page_data page.now) (row_at asked.now.over.now) kind (visit_of step.now)) }
{
    let here = step.held.as_slice();
    let deed = deed_of(asked.walk, asked.over, step.part, here)?;
    write_step_line(out, page, front, kind, &deed)
}

/// Writes the line of what would help a step, behind what the line begins with.
fn write_help_line(
    out: &mut String,
    page: &Page<'_, '_>,
    front: &str,
    help: &Help,
) -> Result<(), NoMemory>
    ensures { OnOk result (string_bytes out.new ≡ string_bytes out.old ++ (front.now ++ help_text (page_data page.now) help.now ++ ending (help_code help.now))) }
{
    out.push_str(front)?;
    write_help(out, page, help)?;
    out.push_str(help_ending(help))
}

/// Writes the line of what would help a step, behind what the notes at its node begin with.
fn write_helping<A: Assigned>(
    out: &mut String,
    page: &Page<'_, '_>,
    asked: &Asked<'_, '_, A>,
    front: &str,
    step: &Visited<'_>,
) -> Result<(), NoMemory>
    requires { front.now ≡ note_front (page_data page.now) step.now.node }
    ensures { OnOk result (string_bytes out.new ≡ string_bytes out.old
        ++ help_line (program_of asked.now.walk.now.program.now) (rel_of asked.now.walk.now.sets.now) (A.Assigned.assigned asked.now.walk.now.assigned.now) (page_data page.now) asked.now.aliases.now (visit_of step.now)) }
{
    let here = step.held.as_slice();
    let help = help_of(asked.walk, asked.aliases, step.part, here)?;
    write_help_line(out, page, front, &help)
}

/// Writes that with a lock held around all of it a method is what it may be.
fn write_around_text(
    out: &mut String,
    page: &Page<'_, '_>,
    method: MethodId,
    limit: Basic,
    lock: &Path,
) -> Result<(), NoMemory>
    ensures { OnOk result (string_bytes out.new ≡ string_bytes out.old ++ around_text (page_data page.now) method limit lock.now) }
{
    out.push_str("with the lock of ")?;
    write_path(out, page, lock)?;
    out.push_str(" held around all of it, ")?;
    write_title(out, page.table, method)?;
    out.push_str(" is ")?;
    out.push_str(limit.name())
}

/// Writes the line of a lock around the method that is told.
fn write_around<A>(
    out: &mut String,
    page: &Page<'_, '_>,
    asked: &Asked<'_, '_, A>,
    lock: &Path,
) -> Result<(), NoMemory>
    ensures { OnOk result (string_bytes out.new ≡ string_bytes out.old
        ++ around_line (program_of asked.now.walk.now.program.now) (page_data page.now) asked.now.method asked.now.limit lock.now) }
{
    begin_line(
        out,
        page,
        name_offset(asked.walk.program, asked.method),
        false,
    )?;
    write_around_text(out, page, asked.method, asked.limit, lock)?;
    out.push_str(" [help-around]\n")
}

/// Writes what would help a method with this step: a lock around all of it; where there is none, the line of the step.
fn write_help_of<A: Assigned>(
    out: &mut String,
    page: &Page<'_, '_>,
    asked: &Asked<'_, '_, A>,
    front: &str,
    step: &Visited<'_>,
) -> Result<(), NoMemory>
    requires front { front.now ≡ note_front (page_data page.now) step.now.node }
    requires around { asked.now.around ≡ around (program_of asked.now.walk.now.program.now) (rel_of asked.now.walk.now.sets.now) (A.Assigned.assigned asked.now.walk.now.assigned.now) asked.now.method asked.now.limit }
    ensures { OnOk result (string_bytes out.new ≡ string_bytes out.old ++ helps (program_of asked.now.walk.now.program.now) (rel_of asked.now.walk.now.sets.now) (A.Assigned.assigned asked.now.walk.now.assigned.now) (page_data page.now) asked.now.method asked.now.limit
        (help_line (program_of asked.now.walk.now.program.now) (rel_of asked.now.walk.now.sets.now) (A.Assigned.assigned asked.now.walk.now.assigned.now) (page_data page.now) asked.now.aliases.now (visit_of step.now))) }
{
    match &asked.around {
        Some(lock) => write_around(out, page, asked, lock),
        None => write_helping(out, page, asked, front, step),
    }
}

/// Writes the line of what would help a step, behind what the line begins with; nothing where the step may stay beside one with this
/// other help.
fn write_beside(
    out: &mut String,
    page: &Page<'_, '_>,
    front: &str,
    help: &Help,
    other: &Help,
) -> Result<(), NoMemory>
    ensures { OnOk result (string_bytes out.new ≡ string_bytes out.old
        ++ (if may_stay help.now other.now then [] else (front.now ++ help_text (page_data page.now) help.now ++ ending (help_code help.now)))) }
{
    if may_stay(help, other) {
        return Ok(());
    }
    write_help_line(out, page, front, help)
}

/// Writes the lines of what would help two steps, of which one may stay.
fn write_both<A: Assigned>(
    out: &mut String,
    page: &Page<'_, '_>,
    asked: &Asked<'_, '_, A>,
    fronts: (&str, &str),
    first: &Visited<'_>,
    second: &Visited<'_>,
) -> Result<(), NoMemory>
    requires first { fronts.0.now ≡ note_front (page_data page.now) first.now.node }
    requires second { fronts.1.now ≡ note_front (page_data page.now) second.now.node }
    ensures { OnOk result (string_bytes out.new ≡ string_bytes out.old
        ++ help_lines (program_of asked.now.walk.now.program.now) (rel_of asked.now.walk.now.sets.now) (A.Assigned.assigned asked.now.walk.now.assigned.now) (page_data page.now) asked.now.aliases.now (visit_of first.now) (visit_of second.now)) }
{
    let here = first.held.as_slice();
    let there = second.held.as_slice();
    let help = help_of(asked.walk, asked.aliases, first.part, here)?;
    let other = help_of(asked.walk, asked.aliases, second.part, there)?;
    write_beside(out, page, fronts.0, &help, &other)?;
    write_beside(out, page, fronts.1, &other, &help)
}

/// Writes what would help a method with these two steps: a lock around all of it; where there is none, the lines of the two.
fn write_help_of_two<A: Assigned>(
    out: &mut String,
    page: &Page<'_, '_>,
    asked: &Asked<'_, '_, A>,
    fronts: (&str, &str),
    first: &Visited<'_>,
    second: &Visited<'_>,
) -> Result<(), NoMemory>
    requires first { fronts.0.now ≡ note_front (page_data page.now) first.now.node }
    requires second { fronts.1.now ≡ note_front (page_data page.now) second.now.node }
    requires around { asked.now.around ≡ around (program_of asked.now.walk.now.program.now) (rel_of asked.now.walk.now.sets.now) (A.Assigned.assigned asked.now.walk.now.assigned.now) asked.now.method asked.now.limit }
    ensures { OnOk result (string_bytes out.new ≡ string_bytes out.old ++ helps (program_of asked.now.walk.now.program.now) (rel_of asked.now.walk.now.sets.now) (A.Assigned.assigned asked.now.walk.now.assigned.now) (page_data page.now) asked.now.method asked.now.limit
        (help_lines (program_of asked.now.walk.now.program.now) (rel_of asked.now.walk.now.sets.now) (A.Assigned.assigned asked.now.walk.now.assigned.now) (page_data page.now) asked.now.aliases.now (visit_of first.now) (visit_of second.now))) }
{
    match &asked.around {
        Some(lock) => write_around(out, page, asked, lock),
        None => write_both(out, page, asked, fronts, first, second),
    }
}

/// Writes the lines of a step that the loop with this number repeats.
pub(crate) fn write_looped<A: Assigned>(
    out: &mut String,
    page: &Page<'_, '_>,
    asked: &Asked<'_, '_, A>,
    step: &Visited<'_>,
    loop_node: usize,
) -> Result<(), NoMemory>
    requires { asked.now.around ≡ around (program_of asked.now.walk.now.program.now) (rel_of asked.now.walk.now.sets.now) (A.Assigned.assigned asked.now.walk.now.assigned.now) asked.now.method asked.now.limit }
    ensures { OnOk result (string_bytes out.new ≡ string_bytes out.old
        ++ steps_lines (program_of asked.now.walk.now.program.now) (rel_of asked.now.walk.now.sets.now) (A.Assigned.assigned asked.now.walk.now.assigned.now) (page_data page.now) (row_at asked.now.over.now) asked.now.aliases.now asked.now.method asked.now.limit (Looped (visit_of step.now) loop_node)) }
{
    let at_step = note_front(asked.walk.alloc, page, step.node)?;
    let at_loop = note_front(asked.walk.alloc, page, loop_node)?;
    let front = at_step.as_str();
    write_step(out, page, asked, front, StepKind::Repeated, step)?;
    write_note(out, at_loop.as_str(), EACH_TIME)?;
    write_help_of(out, page, asked, front, step)
}

/// Writes the lines of a step that is compound by itself.
pub(crate) fn write_compound<A: Assigned>(
    out: &mut String,
    page: &Page<'_, '_>,
    asked: &Asked<'_, '_, A>,
    step: &Visited<'_>,
) -> Result<(), NoMemory>
    requires { asked.now.around ≡ around (program_of asked.now.walk.now.program.now) (rel_of asked.now.walk.now.sets.now) (A.Assigned.assigned asked.now.walk.now.assigned.now) asked.now.method asked.now.limit }
    ensures { OnOk result (string_bytes out.new ≡ string_bytes out.old
        ++ steps_lines (program_of asked.now.walk.now.program.now) (rel_of asked.now.walk.now.sets.now) (A.Assigned.assigned asked.now.walk.now.assigned.now) (page_data page.now) (row_at asked.now.over.now) asked.now.aliases.now asked.now.method asked.now.limit (Compound (visit_of step.now))) }
{
    let at_step = note_front(asked.walk.alloc, page, step.node)?;
    let front = at_step.as_str();
    write_step(out, page, asked, front, StepKind::Compound, step)?;
    write_note(out, front, INSIDE)?;
    write_help_of(out, page, asked, front, step)
}

/// Writes the lines of two steps.
pub(crate) fn write_two<A: Assigned>(
    out: &mut String,
    page: &Page<'_, '_>,
    asked: &Asked<'_, '_, A>,
    first: &Visited<'_>,
    second: &Visited<'_>,
) -> Result<(), NoMemory>
    requires { asked.now.around ≡ around (program_of asked.now.walk.now.program.now) (rel_of asked.now.walk.now.sets.now) (A.Assigned.assigned asked.now.walk.now.assigned.now) asked.now.method asked.now.limit }
    ensures { OnOk result (string_bytes out.new ≡ string_bytes out.old
        ++ steps_lines (program_of asked.now.walk.now.program.now) (rel_of asked.now.walk.now.sets.now) (A.Assigned.assigned asked.now.walk.now.assigned.now) (page_data page.now) (row_at asked.now.over.now) asked.now.aliases.now asked.now.method asked.now.limit (Two (visit_of first.now) (visit_of second.now))) }
{
    let at_first = note_front(asked.walk.alloc, page, first.node)?;
    let at_second = note_front(asked.walk.alloc, page, second.node)?;
    let front = at_first.as_str();
    let other = at_second.as_str();
    write_step(out, page, asked, front, StepKind::First, first)?;
    write_step(out, page, asked, other, StepKind::Second, second)?;
    write_note(out, other, BETWEEN)?;
    write_help_of_two(out, page, asked, (front, other), first, second)
}
