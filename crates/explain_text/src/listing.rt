//! The basics of a method's parts, as lines.

ghost use Rattle.std.specs.Prelude.{◌≡◌, ◌++◌, decimal, string_bytes, OnOk};
ghost use Rattle.explain_text.specs.Listings.{basic_line, listing_from, part_lines};
ghost use Rattle.explain_text.specs.Views.{page_data};

use crate::page::{Page, begin_with, offset_of};
use algebra::Basic;
use itoa::Buffer;
use paths::MethodId;
use report::write_title;
use std::alloc::AllocError as NoMemory;

/// Writes a number, as that of a node.
pub(crate) fn write_decimal(out: &mut String, number: usize) -> Result<(), NoMemory>
    ensures { OnOk result (string_bytes out.new ≡ string_bytes out.old ++ decimal number) }
{
    let mut digits = Buffer::new();
    out.push_str(digits.format(number))
}

/// Writes the line of a part.
fn write_basic(
    out: &mut String,
    page: &Page<'_, '_>,
    method: MethodId,
    node: usize,
    basic: Basic,
) -> Result<(), NoMemory>
    ensures { OnOk result (string_bytes out.new ≡ string_bytes out.old ++ basic_line (page_data page.now) method node basic) }
{
    begin_with(out, page, offset_of(page, node), ": ")?;
    out.push_str(basic.name())?;
    out.push_str(": ")?;
    write_title(out, page.table, method)?;
    out.push_str(" ")?;
    write_decimal(out, node)?;
    out.push_str("\n")
}

/// Writes the line of a part, where it isn't const.
fn write_part(
    out: &mut String,
    page: &Page<'_, '_>,
    method: MethodId,
    node: usize,
    basic: Basic,
) -> Result<(), NoMemory>
    ensures { OnOk result (string_bytes out.new ≡ string_bytes out.old ++ part_lines (page_data page.now) method node basic) }
{
    match basic {
        Basic::Const => Ok(()),
        _ => write_basic(out, page, method, node, basic),
    }
}

/// Writes a line for each part of a method that isn't const: its place, its basic, the method, and the part's number.
pub fn write_listing(
    out: &mut String,
    page: &Page<'_, '_>,
    method: MethodId,
    basics: &[Basic],
) -> Result<(), NoMemory>
    ensures { OnOk result (string_bytes out.new ≡ string_bytes out.old ++ listing_from (page_data page.now) method 0 basics.now) }
{
    for (node, basic) in basics.iter().enumerate() {
        write_part(out, page, method, node, *basic)?;
    }
    Ok(())
}
