//! Paths and trees at the front of a text.
ghost use Rattle.std.specs.Prelude.{◌≡◌, ◌&&◌};
ghost use Rattle.std.specs.Option.{option_copied};
ghost use Rattle.books.specs.Books.{comes_after as after};
ghost use Rattle.books.specs.Faults.{Gives};
ghost use Rattle.books.specs.Passing.{pass_canonical, pass_tree, texts_differ};
ghost use Rattle.books.specs.Reading.{fields_at, path_at};

use crate::front::{begins, expect_byte};
use crate::names::leaf;
use crate::numbers::{NUMBERS_END, number};
use crate::stop::{Kind, Stop};
use arrayvec::ArrayVec;
use paths::{FieldId, Path, order};
use std::cmp::Ordering;

/// Where the range of a root's number ends.
const ROOTS_END: u64 = 1 << 16;

/// How many tests stand within each other at most.
pub const MOST_TESTS: u32 = 64;

/// The path that a text begins with.
#[tactic(auto, unfolding(crate::specs::Reading::path_at))]
pub fn path<'a>(text: &'a [u8]) -> Result<(Path, &'a [u8]), Stop<'a>>
    ensures { Gives (λ x. (x.0, x.1.now)) result (path_at text.now) }
{
    let (root, rest) = number(text, ROOTS_END)?;
    let (fields, rest) = fields(rest)?;
    Ok((
        Path {
            root: root as u16,
            fields,
        },
        rest,
    ))
}

/// At most two fields, each after a point.
fn fields<'a>(text: &'a [u8]) -> Result<(ArrayVec<FieldId, 2>, &'a [u8]), Stop<'a>>
    ensures { Gives (λ x. (x.0.items, x.1.now)) result (fields_at 2 text.now) }
{
    let mut fields = ArrayVec::new();
    if !begins(text, b'.') {
        return Ok((fields, text));
    }
    let (first, rest) = number(&text[1..], NUMBERS_END)?;
    fields.push(FieldId(first));
    if !begins(rest, b'.') {
        return Ok((fields, rest));
    }
    let (second, rest) = number(&rest[1..], NUMBERS_END)?;
    fields.push(FieldId(second));
    Ok((fields, rest))
}

/// Whether the texts of two trees differ, each of which stands at the front of one text and has another behind it.
fn differ(first: &[u8], behind_first: &[u8], second: &[u8], behind_second: &[u8]) -> bool
    ensures { result ≡ texts_differ first.now behind_first.now second.now behind_second.now }
{
    let first_size = first.len().saturating_sub(behind_first.len());
    let second_size = second.len().saturating_sub(behind_second.len());
    first[..first_size] != second[..second_size]
}

/// Whether a path comes after the one above it, if there is one.
fn comes_after(above: Option<&Path>, path: &Path) -> bool
    ensures { result ≡ after (option_copied above.entry) path.now }
{
    match above {
        Some(above) => order(above, path) == Ordering::Less,
        None => true,
    }
}

/// Whether all four hold.
fn all_four(first: bool, second: bool, third: bool, fourth: bool) -> bool
    ensures { result ≡ (first && (second && (third && fourth))) }
{
    first && second && third && fourth
}

/// Passes over a tree, with at most `room` tests within each other, that stands below a test on the path `above`, if there
/// is one: whether it is canonical there, and the rest.
#[tactic(auto, unfolding(crate::specs::Passing::pass_tree))]
fn tree<'a>(text: &'a [u8], room: u32, above: Option<&Path>) -> Result<(bool, &'a [u8]), Stop<'a>>
    ensures { Gives (λ x. (x.0, x.1.now)) result (pass_tree room (option_copied above.entry) text.now) }
{
    if !begins(text, b'(') {
        let (_, rest) = leaf(text)?;
        return Ok((true, rest));
    }
    if room == 0 {
        return Err(Stop {
            kind: Kind::TooDeep,
            rest: text,
        });
    }
    let rest = expect_byte(text, b'(')?;
    let (path, rest) = path(rest)?;
    let first = expect_byte(rest, b' ')?;
    let (first_is, behind_first) = tree(first, room - 1, Some(&path))?;
    let second = expect_byte(behind_first, b' ')?;
    let (second_is, behind_second) = tree(second, room - 1, Some(&path))?;
    let rest = expect_byte(behind_second, b')')?;
    let differ = differ(first, behind_first, second, behind_second);
    let is_canonical = all_four(comes_after(above, &path), differ, first_is, second_is);
    Ok((is_canonical, rest))
}

/// Passes over a tree of the table, which is canonical.
#[tactic(auto, unfolding(crate::specs::Passing::pass_canonical))]
pub fn table_tree<'a>(text: &'a [u8]) -> Result<&'a [u8], Stop<'a>>
    ensures { Gives (λ r. (tt {0}, r.now)) result (pass_canonical text.now) }
{
    let (is_canonical, rest) = tree(text, MOST_TESTS, None)?;
    if is_canonical {
        return Ok(rest);
    }
    Err(Stop {
        kind: Kind::Form,
        rest: text,
    })
}
