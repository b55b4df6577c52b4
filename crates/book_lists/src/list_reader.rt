//! Books read into lists.
ghost use Rattle.std.specs.Prelude.{◌≡◌, ◌≤◌, ◌<◌, ◌^◌, ◌-◌, ◌+◌, ◌∷◌, [], length, map, slice_set, IfOk, OnOk};
ghost use Rattle.books.specs.Books.{Book};
ghost use Rattle.books.specs.Combine.{several};
ghost use Rattle.books.specs.Derivations.{nodes_from};
ghost use Rattle.book_lists.specs.Listed.{line_head, listed, listed_all, listed_lines, IsListedAs, IsListedBook};
ghost use Rattle.books.specs.Reading.{line_at, node_at, premise_with};
ghost use Rattle.books.specs.Texts.{IsBookText};

use crate::listed::{ListedBook, ListedNode};
use books::{
    MOST_HEIGHT, NUMBERS_END, Unbuilt, Word, begins, count, end, expect, expect_byte, first_word,
    number, table_lines, trees,
};
use paths::MethodId;
use std::alloc::Global;

/// A number of nodes, where it fits 32 bits. It does in each text of at most 16,777,216 bytes.
fn narrow(count: usize) -> Result<u32, Unbuilt>
    ensures { IfOk result (λ n. n ≡ count) }
{
    match u32::try_from(count) {
        Ok(n) => Ok(n),
        Err(_) => Err(Unbuilt),
    }
}

/// Tells the node at this place how many nodes stand behind it.
fn tell_below(
    nodes: &mut Vec<ListedNode>,
    place: usize,
    word: Word,
    number: u32,
) -> Result<(), Unbuilt>
    requires { place < length nodes.old.items }
    ensures { OnOk result (nodes.new.items ≡ slice_set nodes.old.items place (record { word = word; number = number; below = length nodes.old.items - (place + 1) })) }
{
    let below = narrow(nodes.len() - (place + 1))?;
    nodes[place] = ListedNode {
        word,
        number,
        below,
    };
    Ok(())
}

/// Puts the node that a text begins with behind others, with those below it: at most `room` nodes within each other, whose numbers
/// are below `end`.
#[cycle(listing)]
fn list_node<'a>(
    nodes: &mut Vec<ListedNode>,
    text: &'a [u8],
    end: u64,
    room: u32,
) -> Result<&'a [u8], Unbuilt>
    requires { end ≤ 2 ^ 32 }
    ensures { IfOk result (λ rest. IsListedAs listed nodes.old.items nodes.new.items (node_at end room text.now) rest.now) }
{
    if room == 0 {
        return Err(Unbuilt);
    }
    let rest = expect_byte(text, b'(')?;
    let (word, rest) = first_word(rest)?;
    let (number, rest) = number(rest, end)?;
    let place = nodes.len();
    nodes.push(ListedNode {
        word,
        number,
        below: 0,
    })?;
    let rest = list_premises(nodes, rest, end, room - 1)?;
    let rest = expect_byte(rest, b')')?;
    tell_below(nodes, place, word, number)?;
    Ok(rest)
}

/// Puts the nodes that a text begins with behind others, each after a blank.
#[cycle(listing)]
fn list_premises<'a>(
    nodes: &mut Vec<ListedNode>,
    text: &'a [u8],
    end: u64,
    room: u32,
) -> Result<&'a [u8], Unbuilt>
    requires { end ≤ 2 ^ 32 }
    ensures { IfOk result (λ rest. IsListedAs (λ ds. listed_all (nodes_from ds)) nodes.old.items nodes.new.items (several 32 (premise_with (node_at end room)) text.now) rest.now) }
{
    let mut rest = text;
    'premises: while begins(rest, b' ') {
        rest = list_premise(nodes, rest, end, room)?;
    }
    Ok(rest)
}

/// Puts the node after a blank that a text begins with behind others.
#[cycle(listing)]
fn list_premise<'a>(
    nodes: &mut Vec<ListedNode>,
    text: &'a [u8],
    end: u64,
    room: u32,
) -> Result<&'a [u8], Unbuilt>
    requires { end ≤ 2 ^ 32 }
    ensures { IfOk result (λ rest. IsListedAs listed nodes.old.items nodes.new.items (premise_with (node_at end room) text.now) rest.now) }
{
    let rest = expect_byte(text, b' ')?;
    list_node(nodes, rest, end, room)
}

/// Puts the method line that a text begins with behind others, and its nodes behind others.
fn list_line<'a>(
    lines: &mut Vec<(MethodId, u32)>,
    nodes: &mut Vec<ListedNode>,
    text: &'a [u8],
    end: u64,
) -> Result<&'a [u8], Unbuilt>
    requires { end ≤ 2 ^ 32 }
    ensures heads { IfOk result (λ rest. IsListedAs (λ line. line_head line ∷ []) lines.old.items lines.new.items (line_at end text.now) rest.now) }
    ensures nodes { IfOk result (λ rest. IsListedAs (λ line. listed line.body) nodes.old.items nodes.new.items (line_at end text.now) rest.now) }
{
    let rest = expect(text, b"method ")?;
    let (id, rest) = number(rest, NUMBERS_END)?;
    let rest = expect_byte(rest, b' ')?;
    let (number, rest) = number(rest, end)?;
    let rest = expect_byte(rest, b'\n')?;
    let rest = list_node(nodes, rest, end, MOST_HEIGHT)?;
    let rest = expect_byte(rest, b'\n')?;
    lines.push((MethodId(id), number))?;
    Ok(rest)
}

/// Puts the method lines that a text begins with behind others, and their nodes behind others.
fn list_lines<'a>(
    lines: &mut Vec<(MethodId, u32)>,
    nodes: &mut Vec<ListedNode>,
    text: &'a [u8],
    end: u64,
) -> Result<&'a [u8], Unbuilt>
    requires { end ≤ 2 ^ 32 }
    ensures heads { IfOk result (λ rest. IsListedAs (map line_head) lines.old.items lines.new.items (several 109 (line_at end) text.now) rest.now) }
    ensures nodes { IfOk result (λ rest. IsListedAs listed_lines nodes.old.items nodes.new.items (several 109 (line_at end) text.now) rest.now) }
{
    let mut rest = text;
    'lines: while begins(rest, b'm') {
        rest = list_line(lines, nodes, rest, end)?;
    }
    Ok(rest)
}

/// The book whose text these bytes are, in lists. Each byte of the method lines is read once.
pub fn read_listed(alloc: Global, bytes: &[u8]) -> Result<ListedBook, Unbuilt>
    ensures book { IfOk result (λ lists. (book : Book) × IsBookText bytes.now book × IsListedBook lists book) }
    ensures only_book { (book : Book) → IsBookText bytes.now book → IfOk result (λ lists. IsListedBook lists book) }
{
    let (size, first) = count(bytes)?;
    let behind = table_lines(first, size)?;
    let table = trees(alloc, first, size)?;
    let mut lines = Vec::new(alloc);
    let mut nodes = Vec::new(alloc);
    let rest = list_lines(&mut lines, &mut nodes, behind, size as u64)?;
    let rest = expect(rest, b"end\n")?;
    end(rest)?;
    Ok(ListedBook {
        table,
        lines,
        nodes,
    })
}
