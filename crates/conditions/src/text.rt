//! The text of a conditional atomicity.
ghost use Rattle.std.specs.Prelude.{◌≡◌, ◌++◌, IfOk, OnOk, string_bytes, codes, decimal};
ghost use Rattle.conditions.specs.Conditions.{cond_of};
ghost use Rattle.conditions.specs.Texts.{dotted, path_text, text_of};

use crate::tree::Tree;
use itoa::Buffer;
use paths::{FieldId, Path};
use std::alloc::{AllocError as NoMemory, Global};

/// The text of a tree, as in `(0.5 mover atomic)`: a basic is its name; a test is its path's numbers with points
/// between, then the tree where the path is held, then the tree where it isn't.
pub fn tree_text(alloc: Global, tree: &Tree) -> Result<String, NoMemory>
    ensures { IfOk result (λ text. string_bytes text ≡ text_of (cond_of tree.now)) }
{
    let mut text = String::new(alloc);
    write_tree(&mut text, tree)?;
    Ok(text)
}

fn write_tree(text: &mut String, tree: &Tree) -> Result<(), NoMemory>
    ensures { OnOk result (string_bytes text.new ≡ string_bytes text.old ++ text_of (cond_of tree.now)) }
{
    match tree {
        Tree::Leaf(b) => text.push_str(b.name()),
        Tree::Test(p, a, b) => {
            text.push_str("(")?;
            write_path(text, p)?;
            text.push_str(" ")?;
            write_tree(text, a)?;
            text.push_str(" ")?;
            write_tree(text, b)?;
            text.push_str(")")
        }
    }
}

fn write_path(text: &mut String, p: &Path) -> Result<(), NoMemory>
    ensures { OnOk result (string_bytes text.new ≡ string_bytes text.old ++ path_text p.now) }
{
    let mut digits = Buffer::new();
    text.push_str(digits.format(p.root))?;
    write_fields(text, p.fields.as_slice())
}

fn write_fields(text: &mut String, fields: &[FieldId]) -> Result<(), NoMemory>
    ensures { OnOk result (string_bytes text.new ≡ string_bytes text.old ++ dotted fields.now) }
{
    for field in fields {
        write_field(text, *field)?;
    }
    Ok(())
}

fn write_field(text: &mut String, field: FieldId) -> Result<(), NoMemory>
    ensures { OnOk result (string_bytes text.new ≡ string_bytes text.old ++ (codes "." ++ decimal field)) }
{
    let mut digits = Buffer::new();
    text.push_str(".")?;
    text.push_str(digits.format(field.0))
}
