//! The lines for books that are refused.

ghost use Rattle.std.specs.Prelude.{◌≡◌, ◌≢◌, ◌++◌, is_some, string_bytes, IfOk, OnOk};
ghost use Rattle.evidence_commands.specs.Books.{book_fault_line, names_node, at_node, kind_text, wrong_book_line};

use base::write_number;
use books::BookFault;
use report::refused_at_text;
use std::alloc::{AllocError as NoMemory, Global};

/// What is wrong with a book for a program.
#[derive(Clone, Copy, Debug, PartialEq, Eq)]
pub enum WrongKind {
    /// A node, or a method line, isn't the program's.
    Shape,
    /// A node concludes less than its rule says, or the body more than the method's tree.
    Step,
    /// The method's tree can't stand for the method.
    Table,
    /// The method's tree breaks the method's bound.
    Bound,
    /// The tree of a method that overrides it is greater than the method's tree.
    Override,
}

/// The line for the first fault of a text that is no book. Its place counts bytes from 0.
pub fn book_fault_text(alloc: Global, fault: &BookFault) -> Result<String, NoMemory>
    requires { fault.now ≢ BookFault.NoMemory }
    ensures { IfOk result (λ line. string_bytes line ≡ book_fault_line fault.now) }
{
    match fault {
        BookFault::Form(place) => refused_at_text(alloc, "book", *place, "form"),
        BookFault::TooDeep(place) => refused_at_text(alloc, "book", *place, "too deep"),
        BookFault::NoMemory => Err(NoMemory),
    }
}

/// Writes at which node, where one is given.
fn write_node(line: &mut String, node: Option<u32>) -> Result<(), NoMemory>
    ensures { OnOk result (string_bytes line.new ≡ string_bytes line.old ++ at_node node) }
{
    match node {
        Some(node) => {
            line.push_str(" node ")?;
            write_number(line, node)
        }
        None => line.push_str(""),
    }
}

/// The word for what is wrong.
fn kind_word(kind: WrongKind) -> &'static str
    ensures { result.now ≡ kind_text kind }
{
    match kind {
        WrongKind::Shape => "shape",
        WrongKind::Step => "step",
        WrongKind::Table => "table",
        WrongKind::Bound => "bound",
        WrongKind::Override => "override",
    }
}

/// The line for what is wrong with a book: at this position among the method lines, and at this node of the derivation there.
/// Both are counted from 0. A node is given exactly for a shape and a step.
pub fn wrong_text(
    alloc: Global,
    method: u32,
    node: Option<u32>,
    kind: WrongKind,
) -> Result<String, NoMemory>
    requires { is_some node ≡ names_node kind }
    ensures { IfOk result (λ line. string_bytes line ≡ wrong_book_line method node kind) }
{
    let mut line = String::from_str(alloc, "book refused: method ")?;
    write_number(&mut line, method)?;
    write_node(&mut line, node)?;
    line.push_str(": ")?;
    line.push_str(kind_word(kind))?;
    line.push_str("\n")?;
    Ok(line)
}
