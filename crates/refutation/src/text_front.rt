//! Parts at the front of a text that take no memory.
ghost use Rattle.std.specs.Prelude.{◌≡◌};
ghost use Rattle.std.specs.Option.{option_copied};
ghost use Rattle.books.specs.Books.{comes_after as comes_later};
ghost use Rattle.books.specs.Faults.{Gives};
ghost use Rattle.refutation.specs.Reading.{count_at, end_at, held_item, later_path};

use books::{Kind, NUMBERS_END, Stop, end, expect, expect_byte, number, path};
use paths::{Path, order};
use std::cmp::Ordering;

/// Whether a path comes after the one before it, if there is one.
fn comes_after(before: Option<&Path>, path: &Path) -> bool
    ensures { result ≡ comes_later (option_copied before.entry) path.now }
{
    match before {
        Some(before) => order(before, path) == Ordering::Less,
        None => true,
    }
}

/// The path that a text begins with, which comes after the one before it, if there is one.
#[tactic(auto, unfolding(crate::specs::Reading::later_path))]
fn later<'a>(text: &'a [u8], before: Option<&Path>) -> Result<(Path, &'a [u8]), Stop<'a>>
    ensures { Gives (λ x. (x.0, x.1.now)) result (later_path (option_copied before.entry) text.now) }
{
    let (path, rest) = path(text)?;
    if comes_after(before, &path) {
        return Ok((path, rest));
    }
    Err(Stop {
        kind: Kind::Form,
        rest: text,
    })
}

/// Such a path after a blank.
pub(crate) fn item<'a>(text: &'a [u8], before: Option<&Path>) -> Result<(Path, &'a [u8]), Stop<'a>>
    ensures { Gives (λ x. (x.0, x.1.now)) result (held_item (option_copied before.entry) text.now) }
{
    let rest = expect_byte(text, b' ')?;
    later(rest, before)
}

/// The count of the lines, in its line.
#[tactic(auto, unfolding(crate::specs::Reading::count_at))]
pub(crate) fn count<'a>(text: &'a [u8]) -> Result<(u32, &'a [u8]), Stop<'a>>
    ensures { Gives (λ x. (x.0, x.1.now)) result (count_at text.now) }
{
    let rest = expect(text, b"blame ")?;
    let (count, rest) = number(rest, NUMBERS_END)?;
    let rest = expect_byte(rest, b'\n')?;
    Ok((count, rest))
}

/// The end, and nothing behind it.
#[tactic(auto, unfolding(crate::specs::Reading::end_at))]
pub(crate) fn last<'a>(text: &'a [u8]) -> Result<&'a [u8], Stop<'a>>
    ensures { Gives (λ r. (tt {0}, r.now)) result (end_at text.now) }
{
    let rest = expect(text, b"end\n")?;
    end(rest)
}
