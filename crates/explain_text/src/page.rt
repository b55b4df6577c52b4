//! What the lines of a method are written with, and how a line begins and ends.

ghost use Rattle.std.specs.Prelude.{◌≡◌, ◌++◌, codes, string_bytes, IfOk, OnOk};
ghost use Rattle.explain_text.specs.Pages.{words_before_kind, note_front, node_offset, place_start};
ghost use Rattle.explain_text.specs.Blocks.{kind_word};
ghost use Rattle.explain_text.specs.Views.{page_data};

use classes::ClassTable;
use explain::Lack;
use places::{LineIndex, SlotNames};
use report::write_place;
use std::alloc::{AllocError as NoMemory, Global};

/// The name of the file, where its lines are, the class table, and of the method that is told the names of its slots, the offsets of its
/// nodes, and the variable or the field that helps it where it is made final, if there is one.
#[derive(Clone, Copy)]
pub struct Page<'t, 'a> {
    pub file: &'t str,
    pub index: &'t LineIndex<'a>,
    pub table: &'t ClassTable<'a>,
    pub slots: &'t SlotNames<'a>,
    pub offsets: &'t [u32],
    pub fitting: Option<Lack>,
}

/// The offset of a node; 0 where the method has no such node.
pub(crate) fn offset_of(page: &Page<'_, '_>, node: usize) -> u32
    ensures { result ≡ node_offset (page_data page.now) node }
{
    page.offsets.get(node).copied().unwrap_or(0)
}

/// Begins a line with a place and these words.
pub(crate) fn begin_with(
    out: &mut String,
    page: &Page<'_, '_>,
    at: u32,
    words: &str,
) -> Result<(), NoMemory>
    ensures { OnOk result (string_bytes out.new ≡ string_bytes out.old ++ (place_start (page_data page.now) at ++ words.now)) }
{
    out.push_str(page.file)?;
    out.push_str(":")?;
    write_place(out, page.index.place(at))?;
    out.push_str(words)
}

/// What stands between the place and the text of an error, or of a note.
fn kind_words(is_error: bool) -> &'static str
    ensures { result.now ≡ codes ": " ++ kind_word is_error ++ codes ": " }
{
    if is_error { ": error: " } else { ": note: " }
}

/// Begins an error or a note with a place and its kind.
pub(crate) fn begin_line(
    out: &mut String,
    page: &Page<'_, '_>,
    at: u32,
    is_error: bool,
) -> Result<(), NoMemory>
    ensures { OnOk result (string_bytes out.new ≡ string_bytes out.old ++ words_before_kind (page_data page.now) at (kind_word is_error)) }
{
    begin_with(out, page, at, kind_words(is_error))
}

/// Begins a note at a node.
pub(crate) fn begin_note(out: &mut String, page: &Page<'_, '_>, node: usize) -> Result<(), NoMemory>
    ensures { OnOk result (string_bytes out.new ≡ string_bytes out.old ++ note_front (page_data page.now) node) }
{
    begin_line(out, page, offset_of(page, node), false)
}

/// How many bytes are asked for to begin with, for what notes begin with.
const FRONT_ROOM: usize = 64;

/// What the notes at a node begin with.
pub(crate) fn note_front(
    alloc: Global,
    page: &Page<'_, '_>,
    node: usize,
) -> Result<String, NoMemory>
    ensures { IfOk result (λ front. string_bytes front ≡ note_front (page_data page.now) node) }
{
    let mut front = String::with_capacity(alloc, FRONT_ROOM)?;
    begin_note(&mut front, page, node)?;
    Ok(front)
}

/// Writes a note of fixed words, with the line feed, behind what it begins with.
pub(crate) fn write_note(out: &mut String, front: &str, words: &str) -> Result<(), NoMemory>
    ensures { OnOk result (string_bytes out.new ≡ string_bytes out.old ++ (front.now ++ words.now)) }
{
    out.push_str(front)?;
    out.push_str(words)
}
