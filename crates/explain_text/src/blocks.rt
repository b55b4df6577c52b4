//! The lines of one method.

ghost use Rattle.std.specs.Prelude.{◌≡◌, ◌++◌, ℕ, List, slice_get, string_bytes, IfSome, OnOk};
ghost use Rattle.algebra.specs.Basics.{name_of};
ghost use Rattle.core_program.specs.Views.{program_of};
ghost use Rattle.rules.specs.Near.{rel_of};
ghost use Rattle.rules.specs.Search.{row_at};
ghost use Rattle.explain.specs.Around.{around};
ghost use Rattle.explain.specs.Views.{explained_data, visit_of, why_data};
ghost use Rattle.explain_text.specs.Blocks.{IsBlock, IsErrorLine, IsWhyText, cause_line, declares, head_line, is_words, method_name_offset, over_line, over_text, promise_words};
ghost use Rattle.explain_text.specs.Views.{page_data};

use crate::causes::write_cause;
use crate::codes::{cause_ending, why_ending};
use crate::page::{Page, begin_line, begin_note};
use crate::steps::{Asked, write_compound, write_looped, write_two};
use algebra::Basic;
use core_program::CoreProgram;
use effects::Assigned;
use explain::{Alias, Cause, Explained, Visited, Walk, Why, around, ascending, cause_of};
use paths::{MethodId, Path};
use report::write_title;
use rules::{OverridingMethods, bound_of};
use std::alloc::AllocError as NoMemory;

/// The offset of a method's name; 0 where there is no such method.
pub(crate) fn name_offset(program: &CoreProgram, method: MethodId) -> u32
    ensures { result ≡ method_name_offset (slice_get (program_of program.now).methods method) }
{
    match program.methods().get(method.0 as usize) {
        Some(method) => method.place_at,
        None => 0,
    }
}

/// Whether what a method declares is within this bound; true where there is no such method.
fn declares(program: &CoreProgram, method: MethodId, limit: Basic) -> bool
    ensures { result ≡ declares (slice_get (program_of program.now).methods method) limit }
{
    match program.methods().get(method.0 as usize) {
        Some(method) => bound_of(method.annotated).below(limit),
        None => true,
    }
}

/// The words before the bound that a method breaks.
fn promise_words(is_declared: bool) -> &'static str
    ensures { result.now ≡ promise_words is_declared }
{
    if is_declared {
        " is declared "
    } else {
        " counts as "
    }
}

/// Writes the words between a method and what it is.
fn write_is(
    out: &mut String,
    is_declared: bool,
    is_refused: bool,
    limit: Basic,
) -> Result<(), NoMemory>
    ensures { OnOk result (string_bytes out.new ≡ string_bytes out.old ++ is_words is_declared is_refused limit) }
{
    if !is_refused {
        return out.push_str(" is ");
    }
    out.push_str(promise_words(is_declared))?;
    out.push_str(limit.name())?;
    out.push_str(", found ")
}

/// What stands behind a method, in one piece for the basics that most methods have that are told.
fn usual_words(
    is_declared: bool,
    is_refused: bool,
    limit: Basic,
    found: Basic,
) -> Option<&'static str>
    ensures { IfSome result (λ words. words.now ≡ is_words is_declared is_refused limit ++ name_of found) }
{
    match (is_declared, is_refused, limit, found) {
        (true, true, Basic::Atomic, Basic::Cmpd) => Some(" is declared atomic, found cmpd"),
        (true, true, Basic::Atomic, Basic::Error) => Some(" is declared atomic, found error"),
        (true, true, Basic::Cmpd, Basic::Error) => Some(" is declared cmpd, found error"),
        (false, true, Basic::Atomic, Basic::Cmpd) => Some(" counts as atomic, found cmpd"),
        (_, false, _, Basic::Cmpd) => Some(" is cmpd"),
        _ => None,
    }
}

/// Writes what stands behind a method, piece by piece.
fn write_pieces(
    out: &mut String,
    is_declared: bool,
    is_refused: bool,
    limit: Basic,
    found: Basic,
) -> Result<(), NoMemory>
    ensures { OnOk result (string_bytes out.new ≡ string_bytes out.old ++ (is_words is_declared is_refused limit ++ name_of found)) }
{
    write_is(out, is_declared, is_refused, limit)?;
    out.push_str(found.name())
}

/// Writes what stands behind a method.
fn write_found(
    out: &mut String,
    is_declared: bool,
    is_refused: bool,
    limit: Basic,
    found: Basic,
) -> Result<(), NoMemory>
    ensures { OnOk result (string_bytes out.new ≡ string_bytes out.old ++ (is_words is_declared is_refused limit ++ name_of found)) }
{
    match usual_words(is_declared, is_refused, limit, found) {
        Some(words) => out.push_str(words),
        None => write_pieces(out, is_declared, is_refused, limit, found),
    }
}

/// Writes what a method is.
fn write_head(
    out: &mut String,
    page: &Page<'_, '_>,
    program: &CoreProgram,
    x: &Explained<'_>,
) -> Result<(), NoMemory>
    ensures { OnOk result (string_bytes out.new ≡ string_bytes out.old ++ head_line (program_of program.now) (page_data page.now) (explained_data x.now)) }
{
    let is_declared = declares(program, x.method, x.limit);
    begin_line(out, page, name_offset(program, x.method), x.is_refused)?;
    write_title(out, page.table, x.method)?;
    write_found(out, is_declared, x.is_refused, x.limit, x.found)?;
    out.push_str(why_ending(&x.why))
}

/// Writes that a method overrides another, and what it is.
fn write_overrides(
    out: &mut String,
    page: &Page<'_, '_>,
    over: MethodId,
    own: Basic,
) -> Result<(), NoMemory>
    ensures { OnOk result (string_bytes out.new ≡ string_bytes out.old ++ over_text (page_data page.now) over own) }
{
    write_title(out, page.table, over)?;
    out.push_str(" overrides it, and is ")?;
    out.push_str(own.name())
}

/// Writes the line of the method that overrides one.
fn write_over(
    out: &mut String,
    page: &Page<'_, '_>,
    program: &CoreProgram,
    over: MethodId,
    own: Basic,
) -> Result<(), NoMemory>
    ensures { OnOk result (string_bytes out.new ≡ string_bytes out.old ++ over_line (program_of program.now) (page_data page.now) over own) }
{
    begin_line(out, page, name_offset(program, over), false)?;
    write_overrides(out, page, over, own)?;
    out.push_str(" [overridden-by]\n")
}

/// Writes the line of an error at this node, where these paths are held and this is wrong.
fn write_error(
    out: &mut String,
    page: &Page<'_, '_>,
    node: usize,
    held: &[Path],
    cause: &Cause,
) -> Result<(), NoMemory>
    ensures { OnOk result (string_bytes out.new ≡ string_bytes out.old
        ++ cause_line (page_data page.now) node held.now cause.now) }
{
    begin_note(out, page, node)?;
    write_cause(out, page, held, cause)?;
    out.push_str(cause_ending(cause))
}

/// Writes the line of an error.
fn write_wrong<A: Assigned>(
    out: &mut String,
    page: &Page<'_, '_>,
    walk: &Walk<'_, A>,
    aliases: &[Alias],
    error: &Visited<'_>,
) -> Result<(), NoMemory>
    ensures { OnOk result ((text : List ℕ) × (string_bytes out.new ≡ string_bytes out.old ++ text)
        × IsErrorLine (program_of walk.now.program.now) (rel_of walk.now.sets.now) (page_data page.now) aliases.now (visit_of error.now) text) }
{
    let here = error.held.as_slice();
    let held = ascending(walk.alloc, here)?;
    let cause = cause_of(walk, aliases, error.part, here)?;
    let told = held.as_slice();
    write_error(out, page, error.node, told, &cause)
}

/// Writes the lines that say why a method is what it is.
fn write_why<A: Assigned>(
    out: &mut String,
    page: &Page<'_, '_>,
    asked: &Asked<'_, '_, A>,
    why: &Why<'_>,
) -> Result<(), NoMemory>
    requires { asked.now.around ≡ around (program_of asked.now.walk.now.program.now) (rel_of asked.now.walk.now.sets.now) (A.Assigned.assigned asked.now.walk.now.assigned.now) asked.now.method asked.now.limit }
    ensures { OnOk result ((text : List ℕ) × (string_bytes out.new ≡ string_bytes out.old ++ text)
        × IsWhyText (program_of asked.now.walk.now.program.now) (rel_of asked.now.walk.now.sets.now) (A.Assigned.assigned asked.now.walk.now.assigned.now) (page_data page.now) (row_at asked.now.over.now) asked.now.aliases.now asked.now.method asked.now.limit (why_data why.now) text) }
{
    match why {
        Why::Wrong(error) => write_wrong(out, page, asked.walk, asked.aliases, error),
        Why::Looped(step, around) => write_looped(out, page, asked, step, *around),
        Why::Compound(step) => write_compound(out, page, asked, step),
        Why::Two(first, second) => write_two(out, page, asked, first, second),
        Why::Overridden(over, own) => write_over(out, page, asked.walk.program, *over, *own),
        Why::Nothing => Ok(()),
    }
}

/// Writes the lines of a method: what it is, and why.
pub(crate) fn write_block<A: Assigned>(
    out: &mut String,
    page: &Page<'_, '_>,
    walk: &Walk<'_, A>,
    over: &OverridingMethods,
    aliases: &[Alias],
    x: &Explained<'_>,
) -> Result<(), NoMemory>
    ensures { OnOk result ((text : List ℕ) × (string_bytes out.new ≡ string_bytes out.old ++ text)
        × IsBlock (program_of walk.now.program.now) (rel_of walk.now.sets.now) (A.Assigned.assigned walk.now.assigned.now) (page_data page.now) (row_at over.now) aliases.now (explained_data x.now) text) }
{
    write_head(out, page, walk.program, x)?;
    let asked = Asked {
        walk,
        over,
        aliases,
        method: x.method,
        limit: x.limit,
        around: around(walk, x.method, x.limit)?,
    };
    write_why(out, page, &asked, &x.why)
}
