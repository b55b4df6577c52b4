//! The table of a book, built from its text.
ghost use Rattle.std.specs.Prelude.{◌≡◌, ◌≤◌, ◌⊎◌, map, length, Some, IfOk, IfErr, MatchResult};
ghost use Rattle.conditions.specs.Conditions.{cond_of};
ghost use Rattle.books.specs.Books.{Book};
ghost use Rattle.books.specs.Combine.{exactly};
ghost use Rattle.books.specs.Faults.{first_book_fault};
ghost use Rattle.books.specs.Reading.{tree_at};
ghost use Rattle.books.specs.Texts.{IsBookText};
ghost use Rattle.books.specs.Views.{IsCursorAt, IsReadAs, plain_line};
ghost use Rattle.books.specs.declared.stop.BookFault.{BookFault};

use crate::cursor::BookCursor;
use crate::front::{begins, expect_byte};
use crate::names::leaf;
use crate::stop::{BookFault, Unbuilt};
use crate::tree_reader::{MOST_TESTS, path};
use conditions::Tree;
use std::alloc::{AllocError as NoMemory, Global};

/// The tree that a text begins with.
#[tactic(auto, unfolding(crate::specs::Reading::tree_at))]
fn tree<'a>(alloc: Global, text: &'a [u8], room: u32) -> Result<(Tree, &'a [u8]), Unbuilt>
    ensures { IfOk result (λ x. tree_at room text.now ≡ Ok (cond_of x.0, x.1.now)) }
{
    if !begins(text, b'(') {
        let (basic, rest) = leaf(text)?;
        return Ok((Tree::Leaf(basic), rest));
    }
    if room == 0 {
        return Err(Unbuilt);
    }
    let rest = expect_byte(text, b'(')?;
    let (path, rest) = path(rest)?;
    let rest = expect_byte(rest, b' ')?;
    let (held, rest) = tree(alloc, rest, room - 1)?;
    let held = Box::new(alloc, held)?;
    let rest = expect_byte(rest, b' ')?;
    let (free, rest) = tree(alloc, rest, room - 1)?;
    let free = Box::new(alloc, free)?;
    let rest = expect_byte(rest, b')')?;
    Ok((Tree::Test(path, held, free), rest))
}

/// The tree in a line of the table.
fn line<'a>(alloc: Global, text: &'a [u8]) -> Result<(Tree, &'a [u8]), Unbuilt>
    ensures { IfOk result (λ x. plain_line text.now ≡ Ok (cond_of x.0, x.1.now)) }
{
    let (tree, rest) = tree(alloc, text, MOST_TESTS)?;
    let rest = expect_byte(rest, b'\n')?;
    Ok((tree, rest))
}

/// The trees in so many lines of the table.
pub fn trees(alloc: Global, text: &[u8], count: u32) -> Result<Vec<Tree>, Unbuilt>
    ensures { IfOk result (λ trees. IsReadAs (map cond_of trees.items) (exactly count plain_line text.now)) }
{
    let mut trees = Vec::new(alloc);
    let mut rest = text;
    let mut left = count;
    while left > 0 {
        let (tree, behind) = line(alloc, rest)?;
        trees.push(tree)?;
        rest = behind;
        left -= 1;
    }
    Ok(trees)
}

impl<'a> BookCursor<'a> {
    /// The trees of the table.
    pub fn table(&self, alloc: Global) -> Result<Vec<Tree>, NoMemory>
        ensures { (book : Book) → IsCursorAt self.now book → IfOk result (λ trees. map cond_of trees.items ≡ book.table) }
    {
        match trees(alloc, self.table_text(), self.trees()) {
            Ok(trees) => Ok(trees),
            Err(_) => Err(NoMemory),
        }
    }
}

/// The table of the book whose text these bytes are, of which there are at most 16,777,216.
pub fn read_table(alloc: Global, bytes: &[u8]) -> Result<Vec<Tree>, BookFault>
    requires { length bytes.now ≤ 16777216 }

    // Each answer is right of the bytes.
    ensures table { IfOk result (λ trees. (book : Book) × IsBookText bytes.now book × (map cond_of trees.items ≡ book.table)) }
    ensures fault { IfErr result (λ fault. (fault ≡ BookFault.NoMemory) ⊎ (first_book_fault bytes.now ≡ Some fault)) }

    // It is the only right one, and is given where there is memory.
    ensures only_table { (book : Book) → IsBookText bytes.now book →
        MatchResult result (λ trees. map cond_of trees.items ≡ book.table) (λ fault. fault ≡ BookFault.NoMemory) }
    ensures only_fault { (fault : BookFault) → first_book_fault bytes.now ≡ Some fault → MatchResult result (λ _. ⊥) (λ found. found ≡ fault) }
{
    let cursor = BookCursor::open(bytes)?;
    Ok(cursor.table(alloc)?)
}
