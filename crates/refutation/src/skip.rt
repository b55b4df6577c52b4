//! Passing over a text with no memory, up to its first fault.
ghost use Rattle.std.specs.Prelude.{None};
ghost use Rattle.books.specs.Combine.{unread};
ghost use Rattle.books.specs.Faults.{Gives};
ghost use Rattle.refutation.specs.Passing.{pass_blame, pass_line, pass_lines};
ghost use Rattle.refutation.specs.Reading.{held_at};

use crate::text_front::{count, item, last};
use books::{NUMBERS_END, Stop, begins, expect_byte, leaf, number};
use paths::Path;

/// Passes over held paths.
#[tactic(auto, using(crate::proofs::Held::skip_more, crate::proofs::Held::skip_done, crate::proofs::Held::skip_fault, crate::proofs::Held::item_shorter))]
fn held<'a>(text: &'a [u8]) -> Result<&'a [u8], Stop<'a>>
    ensures { Gives (λ r. (tt {0}, r.now)) result (unread (held_at None text.now)) }
{
    let mut rest = text;
    let mut before: Option<Path> = None;
    while begins(rest, b' ') {
        let (path, behind) = item(rest, before.as_ref())?;
        before = Some(path);
        rest = behind;
    }
    Ok(rest)
}

/// Passes over a line.
#[tactic(auto, unfolding(crate::specs::Passing::pass_line))]
fn line<'a>(text: &'a [u8]) -> Result<&'a [u8], Stop<'a>>
    ensures { Gives (λ r. (tt {0}, r.now)) result (pass_line text.now) }
{
    let (_, rest) = number(text, NUMBERS_END)?;
    let rest = expect_byte(rest, b' ')?;
    let (_, rest) = leaf(rest)?;
    let rest = held(rest)?;
    expect_byte(rest, b'\n')
}

/// Passes over so many lines.
#[tactic(auto, using(crate::proofs::Lines::lines_more, crate::proofs::Lines::lines_done))]
fn lines<'a>(text: &'a [u8], count: u32) -> Result<&'a [u8], Stop<'a>>
    ensures { Gives (λ r. (tt {0}, r.now)) result (pass_lines count text.now) }
{
    let mut rest = text;
    let mut left = count;
    while left > 0 {
        rest = line(rest)?;
        left -= 1;
    }
    Ok(rest)
}

/// Passes over a whole text.
#[tactic(auto, unfolding(crate::specs::Passing::pass_blame))]
pub(crate) fn blame<'a>(text: &'a [u8]) -> Result<&'a [u8], Stop<'a>>
    ensures { Gives (λ r. (tt {0}, r.now)) result (pass_blame text.now) }
{
    let (count, rest) = count(text)?;
    let rest = lines(rest, count)?;
    last(rest)
}
