//! The listing of the basics of all parts.

ghost use Rattle.std.specs.Prelude.{◌≡◌, ◌++◌, ◌<◌, ◌≤◌, ◌^◌, IfOk, OnOk, length, map, string_bytes};
ghost use Rattle.classes.specs.Views.{table_data};
ghost use Rattle.core_program.specs.Views.{program_of, method_of};
ghost use Rattle.explain_commands.specs.Explained.{page_of};
ghost use Rattle.explain_commands.specs.Listed.{all_lines, method_lines};
ghost use Rattle.rules.specs.Near.{rel_of};
ghost use Rattle.syntax.specs.Views.{member_of};

use crate::told::Told;
use core_program::CoreMethod;
use effects::Assigned;
use explain::{Walk, basics};
use explain_text::{Page, write_listing};
use paths::MethodId;
use places::{method_places, slot_names};
use std::alloc::AllocError as NoMemory;

/// Adds the lines of the parts of a method.
fn add_lines<A: Assigned>(
    told: &Told<'_, '_, '_>,
    walk: &Walk<'_, A>,
    id: MethodId,
    method: &CoreMethod,
    text: &mut String,
) -> Result<(), NoMemory>
    requires { id < length told.now.methods.now.items }
    ensures { OnOk result (string_bytes text.new ≡ string_bytes text.old
        ++ method_lines (program_of walk.now.program.now) (rel_of walk.now.sets.now) (A.Assigned.assigned walk.now.assigned.now)
        (page_of told.now.file.now told.now.index.now (table_data told.now.source.now.table) (map (λ m. member_of m.now) told.now.methods.now.items)) id (method_of method.now)) }
{
    let member = told.methods[id.0 as usize];
    let offsets = method_places(walk.alloc, member)?;
    let slots = slot_names(walk.alloc, member)?;
    let parts = basics(walk, method)?;
    let page = Page {
        file: told.file,
        index: told.index,
        table: &told.source.table,
        slots: &slots,
        offsets: offsets.as_slice(),
        fitting: None,
    };
    write_listing(text, &page, id, parts.as_slice())
}

/// The lines of the parts of all methods.
pub(crate) fn listed<A: Assigned>(
    told: &Told<'_, '_, '_>,
    walk: &Walk<'_, A>,
) -> Result<String, NoMemory>
    requires there { length (program_of walk.now.program.now).methods ≤ length told.now.methods.now.items }
    requires few { length (program_of walk.now.program.now).methods ≤ 2 ^ 32 }
    ensures { IfOk result (λ text. string_bytes text ≡ all_lines (program_of walk.now.program.now) (rel_of walk.now.sets.now) (A.Assigned.assigned walk.now.assigned.now)
        (page_of told.now.file.now told.now.index.now (table_data told.now.source.now.table) (map (λ m. member_of m.now) told.now.methods.now.items))) }
{
    let mut text = String::new(walk.alloc);
    for (k, method) in walk.program.methods().iter().enumerate() {
        add_lines(told, walk, MethodId(k as u32), method, &mut text)?;
    }
    Ok(text)
}
