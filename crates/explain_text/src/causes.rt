//! What is wrong with an error, in words.

ghost use Rattle.std.specs.Prelude.{◌≡◌, ◌++◌, string_bytes, OnOk};
ghost use Rattle.explain_text.specs.CauseTexts.{cause_text, guarded, holding, missing_text, requires_text};
ghost use Rattle.explain_text.specs.Views.{page_data};

use crate::page::Page;
use crate::words::{write_access, write_field, write_held, write_lack, write_path};
use explain::Cause;
use paths::{MethodId, Path};
use report::{write_path as write_table_path, write_title};
use std::alloc::AllocError as NoMemory;

/// By how much a guard guards.
fn guarded(writes_only: bool) -> &'static str
    ensures { result.now ≡ guarded writes_only }
{
    if writes_only {
        " is guarded for writing by "
    } else {
        " is guarded by "
    }
}

/// Writes which locks are held.
fn write_holding(out: &mut String, page: &Page<'_, '_>, held: &[Path]) -> Result<(), NoMemory>
    ensures { OnOk result (string_bytes out.new ≡ string_bytes out.old ++ holding (page_data page.now) held.now) }
{
    out.push_str("; held: ")?;
    write_held(out, page, held)
}

/// Writes that a lock isn't held, or under another name alone.
fn write_missing(
    out: &mut String,
    page: &Page<'_, '_>,
    second: &Option<Path>,
) -> Result<(), NoMemory>
    ensures { OnOk result (string_bytes out.new ≡ string_bytes out.old ++ missing_text (page_data page.now) second.now) }
{
    match second {
        Some(other) => {
            out.push_str(", which is held here under another name only, ")?;
            write_path(out, page, other)
        }
        None => out.push_str(", which isn't held here"),
    }
}

/// Writes a call of a method that requires this path.
fn write_requires(
    out: &mut String,
    page: &Page<'_, '_>,
    callee: MethodId,
    path: &Path,
) -> Result<(), NoMemory>
    ensures { OnOk result (string_bytes out.new ≡ string_bytes out.old ++ requires_text (page_data page.now) callee path.now) }
{
    out.push_str("calls ")?;
    write_title(out, page.table, callee)?;
    out.push_str(", which requires ")?;
    write_table_path(out, page.table, callee, path)
}

/// Writes what is wrong with an error where these paths are held.
pub(crate) fn write_cause(
    out: &mut String,
    page: &Page<'_, '_>,
    held: &[Path],
    cause: &Cause,
) -> Result<(), NoMemory>
    ensures { OnOk result (string_bytes out.new ≡ string_bytes out.old ++ cause_text (page_data page.now) held.now cause.now) }
{
    match cause {
        Cause::Bare(receiver, field, writes_only, guard, second) => {
            write_access(out, page, receiver, *field)?;
            out.push_str(guarded(*writes_only))?;
            write_path(out, page, guard)?;
            write_missing(out, page, second)?;
            write_holding(out, page, held)
        }
        Cause::Nameless(field, writes_only, lack) => {
            write_field(out, page.table, *field)?;
            out.push_str(guarded(*writes_only))?;
            out.push_str("a lock that has no name here, since ")?;
            write_lack(out, page, *lack)?;
            write_holding(out, page, held)
        }
        Cause::Lacking(callee, path, name, second) => {
            write_requires(out, page, *callee, path)?;
            out.push_str(": here that is ")?;
            write_path(out, page, name)?;
            write_missing(out, page, second)?;
            write_holding(out, page, held)
        }
        Cause::LackingName(callee, path, lack) => {
            write_requires(out, page, *callee, path)?;
            out.push_str(": that has no name here, since ")?;
            write_lack(out, page, *lack)?;
            write_holding(out, page, held)
        }
        Cause::Refused(callee) => {
            out.push_str("calls ")?;
            write_title(out, page.table, *callee)?;
            out.push_str(", which is an error itself")
        }
        Cause::Other => out.push_str("an error"),
    }
}
