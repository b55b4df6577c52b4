//! Books read in place: each part is lent from the bytes, and nothing takes memory.
ghost use Rattle.std.specs.Prelude.{◌≡◌, ◌≤◌, length, IfOk, IfErr, Some, MatchResult};
ghost use Rattle.books.specs.Derivations.{Node, Nodes, premises_of};
ghost use Rattle.books.specs.Books.{Book};
ghost use Rattle.books.specs.Texts.{IsBookText};
ghost use Rattle.books.specs.Faults.{Gives, first_book_fault};
ghost use Rattle.books.specs.declared.stop.BookFault.{BookFault};
ghost use Rattle.books.specs.Views.{ArePremises, IsCursorAt, IsNext, IsNextLine, IsViewOf, behind_head as behind, head_at, line_view_at, premise_view_at, view_at};

use crate::book_reader::{MOST_HEIGHT, book};
use crate::front::{begins, expect, expect_byte};
use crate::names::first_word;
use crate::node_reader::node;
use crate::numbers::{NUMBERS_END, number};
use crate::stop::{BookFault, Stop, fault_in};
use crate::word::Word;
use paths::MethodId;

/// A node of a derivation: its word, the number of its conclusion, and its text.
#[derive(Clone, Copy)]
pub struct NodeView<'a> {
    pub word: Word,
    pub number: u32,
    pub bytes: &'a [u8],
}

/// The premises of a node that are still to come.
#[derive(Clone, Copy)]
pub struct Premises<'a> {
    rest: &'a [u8],
}

/// A method line: the method, the number of its tree in the table, and the derivation of its body.
#[derive(Clone, Copy)]
pub struct MethodView<'a> {
    pub id: MethodId,
    pub number: u32,
    pub node: NodeView<'a>,
}

/// A book, with the method lines that are still to come.
#[derive(Clone, Copy)]
pub struct BookCursor<'a> {
    trees: u32,
    table: &'a [u8],
    all_lines: &'a [u8],
    lines: &'a [u8],
}

/// The word and the number of a node, and what is behind them.
fn head<'a>(text: &'a [u8]) -> Result<((Word, u32), &'a [u8]), Stop<'a>>
    ensures { Gives (λ x. (x.0, x.1.now)) result (head_at text.now) }
{
    let rest = expect_byte(text, b'(')?;
    let (word, rest) = first_word(rest)?;
    let (number, rest) = number(rest, NUMBERS_END)?;
    Ok(((word, number), rest))
}

/// The view of the node that a text begins with, and what is behind it.
fn view<'a>(text: &'a [u8]) -> Result<(NodeView<'a>, &'a [u8]), Stop<'a>>
    ensures { Gives (λ x. ((x.0.word, x.0.number, x.0.bytes.now), x.1.now)) result (view_at text.now) }
{
    let ((word, number), _) = head(text)?;
    let rest = node(text, NUMBERS_END, MOST_HEIGHT)?;
    let size = text.len().saturating_sub(rest.len());
    Ok((
        NodeView {
            word,
            number,
            bytes: &text[..size],
        },
        rest,
    ))
}

/// The view of a node after a blank.
fn premise_view<'a>(text: &'a [u8]) -> Result<(NodeView<'a>, &'a [u8]), Stop<'a>>
    ensures { Gives (λ x. ((x.0.word, x.0.number, x.0.bytes.now), x.1.now)) result (premise_view_at text.now) }
{
    let rest = expect_byte(text, b' ')?;
    view(rest)
}

/// The view of a method line.
fn line_view<'a>(text: &'a [u8]) -> Result<(MethodView<'a>, &'a [u8]), Stop<'a>>
    ensures { Gives (λ x. ((x.0.id, x.0.number, x.0.node.word, x.0.node.number, x.0.node.bytes.now), x.1.now)) result (line_view_at text.now) }
{
    let rest = expect(text, b"method ")?;
    let (id, rest) = number(rest, NUMBERS_END)?;
    let rest = expect_byte(rest, b' ')?;
    let (number, rest) = number(rest, NUMBERS_END)?;
    let rest = expect_byte(rest, b'\n')?;
    let (node, rest) = view(rest)?;
    let rest = expect_byte(rest, b'\n')?;
    let id = MethodId(id);
    Ok((MethodView { id, number, node }, rest))
}

/// What is behind the word and the number of a node.
fn behind_head(text: &[u8]) -> &[u8]
    ensures { result.now ≡ behind (head_at text.now) }
{
    match head(text) {
        Ok((_, rest)) => rest,
        Err(_) => b")",
    }
}

impl<'a> NodeView<'a> {
    /// The premises of the node.
    pub fn premises(&self) -> Premises<'a>
        ensures { (d : Node) → IsViewOf self.now d → ArePremises result (premises_of d) }
    {
        Premises {
            rest: behind_head(self.bytes),
        }
    }
}

impl<'a> Premises<'a> {
    /// The next premise. `None` comes after the last.
    pub fn next(&mut self) -> Option<NodeView<'a>>
        ensures { (ds : Nodes) → ArePremises self.old ds → IsNext ds result self.new }
    {
        if !begins(self.rest, b' ') {
            return None;
        }
        match premise_view(self.rest) {
            Ok((view, rest)) => {
                self.rest = rest;
                Some(view)
            }
            Err(_) => None,
        }
    }
}

impl<'a> BookCursor<'a> {
    /// Opens the text of a book, which has at most 16,777,216 bytes. All of it is read once, from its first byte to its first
    /// fault or its last byte.
    pub fn open(bytes: &'a [u8]) -> Result<BookCursor<'a>, BookFault>
        requires { length bytes.now ≤ 16777216 }

        // Each answer is right of the bytes.
        ensures book { IfOk result (λ cursor. (book : Book) × IsBookText bytes.now book × IsCursorAt cursor book) }
        ensures fault { IfErr result (λ fault. first_book_fault bytes.now ≡ Some fault) }

        // It is the only right one.
        ensures only_book { (book : Book) → IsBookText bytes.now book → MatchResult result (λ cursor. IsCursorAt cursor book) (λ _. ⊥) }
        ensures only_fault { (fault : BookFault) → first_book_fault bytes.now ≡ Some fault → MatchResult result (λ _. ⊥) (λ found. found ≡ fault) }
    {
        match book(bytes) {
            Ok((parts, _)) => Ok(BookCursor {
                trees: parts.trees,
                table: parts.table,
                all_lines: parts.lines,
                lines: parts.lines,
            }),
            Err(stop) => Err(fault_in(bytes.len(), stop)),
        }
    }

    /// How many trees the table has.
    pub fn trees(&self) -> u32
        ensures { (book : Book) → IsCursorAt self.now book → result ≡ length book.table }
    {
        self.trees
    }

    /// The text that begins with the table.
    pub(crate) fn table_text(&self) -> &'a [u8]
        ensures { result.now ≡ self.now.table.now }
    {
        self.table
    }

    /// The next method line. `None` comes after the last.
    pub fn next_method(&mut self) -> Option<MethodView<'a>>
        ensures { (book : Book) → IsCursorAt self.old book → IsNextLine book book.lines result self.new }
    {
        if !begins(self.lines, b'm') {
            return None;
        }
        match line_view(self.lines) {
            Ok((view, rest)) => {
                self.lines = rest;
                Some(view)
            }
            Err(_) => None,
        }
    }
}
