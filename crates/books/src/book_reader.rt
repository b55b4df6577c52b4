//! The parts of a book, passed over from its first byte to its last.
ghost use Rattle.std.specs.Prelude.{◌≤◌, ◌<◌, ◌^◌};
ghost use Rattle.books.specs.Faults.{Gives};
ghost use Rattle.books.specs.Passing.{pass_book, pass_line, pass_lines, pass_several, pass_table, pass_table_line};
ghost use Rattle.books.specs.Reading.{count_at, nothing_behind};

use crate::front::{begins, expect, expect_byte};
use crate::node_reader::node;
use crate::numbers::{NUMBERS_END, number};
use crate::stop::{Kind, Stop};
use crate::tree_reader::table_tree;

/// How many nodes stand within each other at most.
pub const MOST_HEIGHT: u32 = 64;

/// Where the parts of a book begin, and how many trees it has.
#[derive(Clone, Copy)]
pub(crate) struct BookParts<'a> {
    pub(crate) trees: u32,
    pub(crate) table: &'a [u8],
    pub(crate) lines: &'a [u8],
}

/// The count of the trees, in its line.
#[tactic(auto, unfolding(crate::specs::Reading::count_at))]
pub fn count<'a>(text: &'a [u8]) -> Result<(u32, &'a [u8]), Stop<'a>>
    ensures { Gives (λ x. (x.0, x.1.now)) result (count_at text.now) }
{
    let rest = expect(text, b"book ")?;
    let (count, rest) = number(rest, NUMBERS_END)?;
    let rest = expect_byte(rest, b'\n')?;
    Ok((count, rest))
}

/// Passes over a line of the table.
fn table_line<'a>(text: &'a [u8]) -> Result<&'a [u8], Stop<'a>>
    ensures { Gives (λ r. (tt {0}, r.now)) result (pass_table_line text.now) }
{
    let rest = table_tree(text)?;
    expect_byte(rest, b'\n')
}

/// Passes over so many lines of the table.
#[tactic(auto, using(crate::proofs::PassBooks::table_more, crate::proofs::PassBooks::table_done))]
pub fn table_lines<'a>(text: &'a [u8], count: u32) -> Result<&'a [u8], Stop<'a>>
    ensures { Gives (λ r. (tt {0}, r.now)) result (pass_table count text.now) }
{
    let mut rest = text;
    let mut left = count;
    while left > 0 {
        rest = table_line(rest)?;
        left -= 1;
    }
    Ok(rest)
}

/// Passes over a method line.
#[tactic(auto, unfolding(crate::specs::Passing::pass_line))]
fn line<'a>(text: &'a [u8], count: u64) -> Result<&'a [u8], Stop<'a>>
    requires { count ≤ 2 ^ 32 }
    ensures { Gives (λ r. (tt {0}, r.now)) result (pass_line count text.now) }
{
    let rest = expect(text, b"method ")?;
    let (_, rest) = number(rest, NUMBERS_END)?;
    let rest = expect_byte(rest, b' ')?;
    let (_, rest) = number(rest, count)?;
    let rest = expect_byte(rest, b'\n')?;
    let rest = node(rest, count, MOST_HEIGHT)?;
    expect_byte(rest, b'\n')
}

/// Passes over method lines.
#[tactic(auto, using(crate::proofs::PassBooks::lines_more, crate::proofs::PassBooks::lines_done, crate::proofs::PassBooks::lines_shorter))]
fn several_lines<'a>(text: &'a [u8], count: u64) -> Result<&'a [u8], Stop<'a>>
    requires { count ≤ 2 ^ 32 }
    ensures { Gives (λ r. (tt {0}, r.now)) result (pass_several 109 (pass_line count) text.now) }
{
    let mut rest = text;
    while begins(rest, b'm') {
        rest = line(rest, count)?;
    }
    Ok(rest)
}

/// Nothing stands here.
pub fn end<'a>(text: &'a [u8]) -> Result<&'a [u8], Stop<'a>>
    ensures { Gives (λ r. (tt {0}, r.now)) result (nothing_behind text.now) }
{
    if text.is_empty() {
        return Ok(text);
    }
    Err(Stop {
        kind: Kind::Form,
        rest: text,
    })
}

/// Passes over the method lines and the end of the book.
#[tactic(auto, unfolding(crate::specs::Passing::pass_lines))]
fn lines<'a>(text: &'a [u8], count: u64) -> Result<&'a [u8], Stop<'a>>
    requires { count ≤ 2 ^ 32 }
    ensures { Gives (λ r. (tt {0}, r.now)) result (pass_lines count text.now) }
{
    let rest = several_lines(text, count)?;
    let rest = expect(rest, b"end\n")?;
    end(rest)
}

/// Passes over a whole book.
#[tactic(auto, unfolding(crate::specs::Passing::pass_book))]
pub(crate) fn book<'a>(text: &'a [u8]) -> Result<(BookParts<'a>, &'a [u8]), Stop<'a>>
    ensures { Gives (λ x. ((x.0.trees, x.0.table.now, x.0.lines.now), x.1.now)) result (pass_book text.now) }
{
    let (trees, first) = count(text)?;
    let behind = table_lines(first, trees)?;
    let rest = lines(behind, trees as u64)?;
    Ok((
        BookParts {
            trees,
            table: first,
            lines: behind,
        },
        rest,
    ))
}
