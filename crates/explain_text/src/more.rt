//! The lines of what is told, and how many more methods are refused for the same error.

ghost use Rattle.std.specs.Prelude.{◌≡◌, ◌++◌, ℕ, List, string_bytes, OnOk};
ghost use Rattle.core_program.specs.Views.{program_of};
ghost use Rattle.rules.specs.Near.{rel_of};
ghost use Rattle.rules.specs.Search.{row_at};
ghost use Rattle.explain.specs.Views.{visit_of, why_data};
ghost use Rattle.explain.specs.Whys.{Wrong};
ghost use Rattle.explain_text.specs.Arrangements.{IsArrangedBlock};
ghost use Rattle.explain_text.specs.ArrangementViews.{arranged_data};
ghost use Rattle.explain_text.specs.Blocks.{more_line, more_lines, more_text};
ghost use Rattle.explain_text.specs.Views.{page_data};

use crate::arranging::Arranged;
use crate::blocks::write_block;
use crate::listing::write_decimal;
use crate::page::{Page, begin_note};
use effects::Assigned;
use explain::{Alias, Visited, Walk, Why};
use rules::OverridingMethods;
use std::alloc::AllocError as NoMemory;

/// Writes that so many more methods are refused for a call of the method that the line before names.
fn write_more_text(out: &mut String, more: usize) -> Result<(), NoMemory>
    ensures { OnOk result (string_bytes out.new ≡ string_bytes out.old ++ more_text more) }
{
    if more == 1 {
        return out.push_str("1 more method is refused for a call of it");
    }
    write_decimal(out, more)?;
    out.push_str(" more methods are refused for a call of it")
}

/// Writes its line, at the error that is told.
fn write_more_line(
    out: &mut String,
    page: &Page<'_, '_>,
    error: &Visited<'_>,
    more: usize,
) -> Result<(), NoMemory>
    ensures { OnOk result (string_bytes out.new ≡ string_bytes out.old ++ more_line (page_data page.now) (Wrong (visit_of error.now)) more) }
{
    begin_note(out, page, error.node)?;
    write_more_text(out, more)?;
    out.push_str(" [more-errors]\n")
}

/// Writes how many more methods are refused for the error that is told as this reason, where there are any.
fn write_more(
    out: &mut String,
    page: &Page<'_, '_>,
    why: &Why<'_>,
    more: usize,
) -> Result<(), NoMemory>
    ensures { OnOk result (string_bytes out.new ≡ string_bytes out.old ++ more_lines (page_data page.now) (why_data why.now) more) }
{
    if more == 0 {
        return Ok(());
    }
    match why {
        Why::Wrong(error) => write_more_line(out, page, error, more),
        Why::Looped(_, _)
        | Why::Compound(_)
        | Why::Two(_, _)
        | Why::Overridden(_, _)
        | Why::Nothing => Ok(()),
    }
}

/// Writes the lines of what is told: those of the method, and how many more are counted.
pub fn write_arranged<A: Assigned>(
    out: &mut String,
    page: &Page<'_, '_>,
    walk: &Walk<'_, A>,
    over: &OverridingMethods,
    aliases: &[Alias],
    x: &Arranged<'_>,
) -> Result<(), NoMemory>
    ensures { OnOk result ((text : List ℕ) × (string_bytes out.new ≡ string_bytes out.old ++ text)
        × IsArrangedBlock (program_of walk.now.program.now) (rel_of walk.now.sets.now) (A.Assigned.assigned walk.now.assigned.now) (page_data page.now) (row_at over.now) aliases.now (arranged_data x.now) text) }
{
    write_block(out, page, walk, over, aliases, &x.told)?;
    write_more(out, page, &x.told.why, x.more)
}
