//! Books as texts.
ghost use Rattle.std.specs.Prelude.{◌≡◌, ◌++◌, ◌∷◌, [], map, IfOk, OnOk, string_bytes};
ghost use Rattle.conditions.specs.Conditions.{cond_of};
ghost use Rattle.conditions.specs.Texts.{text_of};
ghost use Rattle.books.specs.Memory.{book_of, method_line_of, node_of, nodes_at};
ghost use Rattle.books.specs.Texts.{method_line_text, method_lines_text, node_text, nodes_text, table_text, IsBookText};

use crate::books::DerivBook;
use crate::derivation::Derivation;
use base::write_number;
use conditions::{Tree, tree_text};
use paths::MethodId;
use std::alloc::{AllocError as NoMemory, Global};

#[cycle(writing)]
fn write_node(text: &mut String, node: &Derivation) -> Result<(), NoMemory>
    ensures { OnOk result (string_bytes text.new ≡ string_bytes text.old ++ node_text (node_of node.now)) }
{
    let lent = node.lent();
    text.push_str("(")?;
    text.push_str(lent.word.name())?;
    text.push_str(" ")?;
    write_number(text, lent.number)?;
    write_nodes(text, lent.premises)?;
    text.push_str(")")
}

#[cycle(writing)]
fn write_nodes(text: &mut String, nodes: &[Derivation]) -> Result<(), NoMemory>
    ensures { OnOk result (string_bytes text.new ≡ string_bytes text.old ++ nodes_text (nodes_at nodes.now)) }
{
    let mut rest = nodes;
    'nodes: while let Some((first, others)) = rest.split_first() {
        text.push_str(" ")?;
        write_node(text, first)?;
        rest = others;
    }
    Ok(())
}

fn write_line(text: &mut String, line: &(MethodId, u32, Derivation)) -> Result<(), NoMemory>
    ensures { OnOk result (string_bytes text.new ≡ string_bytes text.old ++ method_line_text (method_line_of line.now)) }
{
    text.push_str("method ")?;
    write_number(text, line.0.0)?;
    text.push_str(" ")?;
    write_number(text, line.1)?;
    text.push_str("\n")?;
    write_node(text, &line.2)?;
    text.push_str("\n")
}

fn write_lines(text: &mut String, lines: &[(MethodId, u32, Derivation)]) -> Result<(), NoMemory>
    ensures { OnOk result (string_bytes text.new ≡ string_bytes text.old ++ method_lines_text (map method_line_of lines.now)) }
{
    for line in lines {
        write_line(text, line)?;
    }
    Ok(())
}

fn write_tree(alloc: Global, text: &mut String, tree: &Tree) -> Result<(), NoMemory>
    ensures { OnOk result (string_bytes text.new ≡ string_bytes text.old ++ (text_of (cond_of tree.now) ++ (10 ∷ []))) }
{
    text.push_str(tree_text(alloc, tree)?.as_str())?;
    text.push_str("\n")
}

fn write_table(alloc: Global, text: &mut String, table: &[Tree]) -> Result<(), NoMemory>
    ensures { OnOk result (string_bytes text.new ≡ string_bytes text.old ++ table_text (map cond_of table.now)) }
{
    for tree in table {
        write_tree(alloc, text, tree)?;
    }
    Ok(())
}

/// The text of a book.
pub fn write_book(alloc: Global, book: &DerivBook) -> Result<Vec<u8>, NoMemory>
    ensures { IfOk result (λ bytes. IsBookText bytes.items (book_of book.now)) }
{
    let mut text = String::new(alloc);
    text.push_str("book ")?;
    write_number(&mut text, book.table.len() as u32)?;
    text.push_str("\n")?;
    write_table(alloc, &mut text, book.table.as_slice())?;
    write_lines(&mut text, book.methods.as_slice())?;
    text.push_str("end\n")?;
    Ok(text.into_bytes())
}
