//! The warning of a field that is written though nothing guards it.

ghost use Rattle.std.specs.Prelude.{◌≡◌, ◌++◌, string_bytes, OnOk};
ghost use Rattle.explain_text.specs.Views.{page_data};
ghost use Rattle.explain_text.specs.Warnings.{unguarded_words, warning_line};

use crate::page::{Page, begin_with, offset_of};
use crate::words::write_field;
use explain::BareWrite;
use std::alloc::AllocError as NoMemory;

/// What is said of the field, with the code and the end of the line.
fn unguarded_words() -> &'static str
    ensures { result.now ≡ unguarded_words }
{
    " is written, and nothing guards it [unguarded-field]\n"
}

/// Writes the warning of a field, at this write of it.
pub fn write_warning(
    out: &mut String,
    page: &Page<'_, '_>,
    write: &BareWrite,
) -> Result<(), NoMemory>
    ensures { OnOk result (string_bytes out.new ≡ string_bytes out.old ++ warning_line (page_data page.now) write.now) }
{
    begin_with(out, page, offset_of(page, write.node), ": warning: ")?;
    write_field(out, page.table, write.field)?;
    out.push_str(unguarded_words())
}
