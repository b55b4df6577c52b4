//! Books read from their texts.
ghost use Rattle.std.specs.Prelude.{◌≡◌, ◌≤◌, ◌^◌, ◌⊎◌, map, length, Some, Ok, IfOk, IfErr, MatchResult};
ghost use Rattle.books.specs.Books.{Book};
ghost use Rattle.books.specs.Combine.{several};
ghost use Rattle.books.specs.Faults.{first_book_fault};
ghost use Rattle.books.specs.Memory.{book_of, method_line_of, node_of};
ghost use Rattle.books.specs.Reading.{line_at, lines_at, node_at, premise_with};
ghost use Rattle.books.specs.Texts.{IsBookText};
ghost use Rattle.books.specs.declared.stop.BookFault.{BookFault};

use crate::book_reader::{MOST_HEIGHT, count, end, table_lines};
use crate::books::DerivBook;
use crate::cursor::BookCursor;
use crate::derivation::Derivation;
use crate::front::{begins, expect, expect_byte};
use crate::names::first_word;
use crate::numbers::{NUMBERS_END, number};
use crate::stop::{BookFault, Unbuilt};
use crate::table::trees;
use conditions::Tree;
use paths::MethodId;
use std::alloc::Global;

/// The node that a text begins with, with at most `room` nodes within each other, whose numbers are below `end`.
#[tactic(auto, unfolding(crate::specs::Reading::node_at), using(crate::proofs::Built::node_built))]
#[cycle(building)]
fn derivation<'a>(
    alloc: Global,
    text: &'a [u8],
    end: u64,
    room: u32,
) -> Result<(Derivation, &'a [u8]), Unbuilt>
    requires { end ≤ 2 ^ 32 }
    ensures { IfOk result (λ x. node_at end room text.now ≡ Ok (node_of x.0, x.1.now)) }
{
    if room == 0 {
        return Err(Unbuilt);
    }
    let rest = expect_byte(text, b'(')?;
    let (word, rest) = first_word(rest)?;
    let (number, rest) = number(rest, end)?;
    let (premises, rest) = derivations(alloc, rest, end, room - 1)?;
    let rest = expect_byte(rest, b')')?;
    Ok((Derivation::new(word, number, premises), rest))
}

/// The nodes that a text begins with, each after a blank.
#[tactic(auto, using(crate::proofs::Built::premise_pushed, crate::proofs::Built::premises_built, crate::proofs::Built::premise_shorter, crate::proofs::Built::started))]
#[cycle(building)]
fn derivations<'a>(
    alloc: Global,
    text: &'a [u8],
    end: u64,
    room: u32,
) -> Result<(Vec<Derivation>, &'a [u8]), Unbuilt>
    requires { end ≤ 2 ^ 32 }
    ensures { IfOk result (λ x. several 32 (premise_with (node_at end room)) text.now ≡ Ok (map node_of x.0.items, x.1.now)) }
{
    let mut built = Vec::new(alloc);
    let mut rest = text;
    while begins(rest, b' ') {
        let (next, behind) = premise(alloc, rest, end, room)?;
        built.push(next)?;
        rest = behind;
    }
    Ok((built, rest))
}

/// The node after a blank that a text begins with.
#[cycle(building)]
fn premise<'a>(
    alloc: Global,
    text: &'a [u8],
    end: u64,
    room: u32,
) -> Result<(Derivation, &'a [u8]), Unbuilt>
    requires { end ≤ 2 ^ 32 }
    ensures { IfOk result (λ x. premise_with (node_at end room) text.now ≡ Ok (node_of x.0, x.1.now)) }
{
    let rest = expect_byte(text, b' ')?;
    derivation(alloc, rest, end, room)
}

/// The method line that a text begins with.
#[tactic(auto, unfolding(crate::specs::Reading::line_at))]
fn method_line<'a>(
    alloc: Global,
    text: &'a [u8],
    end: u64,
) -> Result<((MethodId, u32, Derivation), &'a [u8]), Unbuilt>
    requires { end ≤ 2 ^ 32 }
    ensures { IfOk result (λ x. line_at end text.now ≡ Ok (method_line_of x.0, x.1.now)) }
{
    let rest = expect(text, b"method ")?;
    let (id, rest) = number(rest, NUMBERS_END)?;
    let rest = expect_byte(rest, b' ')?;
    let (number, rest) = number(rest, end)?;
    let rest = expect_byte(rest, b'\n')?;
    let (body, rest) = derivation(alloc, rest, end, MOST_HEIGHT)?;
    let rest = expect_byte(rest, b'\n')?;
    Ok(((MethodId(id), number, body), rest))
}

/// The method lines that a text begins with.
#[tactic(auto, using(crate::proofs::Built::line_pushed, crate::proofs::Built::lines_built, crate::proofs::Built::line_shorter_in, crate::proofs::Built::started))]
fn method_lines<'a>(
    alloc: Global,
    text: &'a [u8],
    end: u64,
) -> Result<(Vec<(MethodId, u32, Derivation)>, &'a [u8]), Unbuilt>
    requires { end ≤ 2 ^ 32 }
    ensures { IfOk result (λ x. several 109 (line_at end) text.now ≡ Ok (map method_line_of x.0.items, x.1.now)) }
{
    let mut built = Vec::new(alloc);
    let mut rest = text;
    while begins(rest, b'm') {
        let (line, behind) = method_line(alloc, rest, end)?;
        built.push(line)?;
        rest = behind;
    }
    Ok((built, rest))
}

/// The method lines that a text begins with, up to the end of the book.
#[tactic(auto, unfolding(crate::specs::Reading::lines_at))]
fn last_lines<'a>(
    alloc: Global,
    text: &'a [u8],
    numbers: u64,
) -> Result<(Vec<(MethodId, u32, Derivation)>, &'a [u8]), Unbuilt>
    requires { numbers ≤ 2 ^ 32 }
    ensures { IfOk result (λ x. lines_at numbers text.now ≡ Ok (map method_line_of x.0.items, x.1.now)) }
{
    let (lines, rest) = method_lines(alloc, text, numbers)?;
    let rest = expect(rest, b"end\n")?;
    let rest = end(rest)?;
    Ok((lines, rest))
}

/// The table and the method lines of the book whose text these bytes are.
fn parts(
    alloc: Global,
    bytes: &[u8],
) -> Result<(Vec<Tree>, Vec<(MethodId, u32, Derivation)>), Unbuilt>
    ensures { IfOk result (λ x. IsBookText bytes.now (book_of (x.0.items, x.1.items))) }
{
    let (size, first) = count(bytes)?;
    let behind = table_lines(first, size)?;
    let trees = trees(alloc, first, size)?;
    let (lines, _) = last_lines(alloc, behind, size as u64)?;
    Ok((trees, lines))
}

/// The book whose text these bytes are. Each byte of the method lines is read once.
fn built(alloc: Global, bytes: &[u8]) -> Result<DerivBook, Unbuilt>
    ensures { IfOk result (λ book. IsBookText bytes.now (book_of book)) }
{
    let (table, methods) = parts(alloc, bytes)?;
    Ok(DerivBook::new(table, methods))
}

/// The book whose text these bytes are, of which there are at most 16,777,216.
pub fn read_book(alloc: Global, bytes: &[u8]) -> Result<DerivBook, BookFault>
    requires { length bytes.now ≤ 16777216 }

    // Each answer is right of the bytes.
    ensures book { IfOk result (λ book. IsBookText bytes.now (book_of book)) }
    ensures fault { IfErr result (λ fault. (fault ≡ BookFault.NoMemory) ⊎ (first_book_fault bytes.now ≡ Some fault)) }

    // It is the only right one, and is given where there is memory.
    ensures only_book { (book : Book) → IsBookText bytes.now book → MatchResult result (λ read. book_of read ≡ book) (λ fault. fault ≡ BookFault.NoMemory) }
    ensures only_fault { (fault : BookFault) → first_book_fault bytes.now ≡ Some fault → MatchResult result (λ _. ⊥) (λ found. found ≡ fault) }
{
    if let Ok(book) = built(alloc, bytes) {
        return Ok(book);
    }
    match BookCursor::open(bytes) {
        Ok(_) => Err(BookFault::NoMemory),
        Err(fault) => Err(fault),
    }
}
