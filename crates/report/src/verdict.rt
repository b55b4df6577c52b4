//! The lines of verdicts: a method's atomicity, and a bound that is broken.

ghost use Rattle.std.specs.Prelude.{◌≡◌, ◌++◌, [], codes, option_map, string_bytes, unwrap_or, IfOk, OnOk, OnErr};
ghost use Rattle.classes.specs.Views.{table_data};
ghost use Rattle.conditions.specs.Conditions.{cond_of};
ghost use Rattle.base.specs.Texts.{KeepsText};
ghost use Rattle.report.specs.Verdicts.{title_text, field_text, fields_text, method_path_text, branch_text, condition_text, atomicity_line, broken_line};

use classes::ClassTable;
use conditions::Tree;
use infer::Broken;
use paths::{FieldId, MethodId, Path};
use std::alloc::{AllocError as NoMemory, Global};

/// The line of a method's atomicity: its class and name, and its tree with the names of the source.
pub fn atomicity_text(
    alloc: Global,
    table: &ClassTable,
    method: MethodId,
    tree: &Tree,
) -> Result<String, NoMemory>
    ensures { IfOk result (λ line. string_bytes line ≡ atomicity_line (table_data table.now) method (cond_of tree.now)) }
{
    let mut line = String::new(alloc);
    write_title(&mut line, table, method)?;
    line.push_str(" ")?;
    write_tree(&mut line, table, method, tree)?;
    line.push_str("\n")?;
    Ok(line)
}

/// The line for the first method whose bound is broken.
pub fn broken_text(alloc: Global, table: &ClassTable, broken: &Broken) -> Result<String, NoMemory>
    ensures { IfOk result (λ line. string_bytes line ≡ broken_line (table_data table.now) broken.now.method broken.now.declared broken.now.found) }
{
    let mut line = String::new(alloc);
    write_title(&mut line, table, broken.method)?;
    line.push_str(": declared ")?;
    line.push_str(broken.declared.name())?;
    line.push_str(", found ")?;
    line.push_str(broken.found.name())?;
    line.push_str("\n")?;
    Ok(line)
}

/// Writes a method's class and name with a point between, or nothing for a method that the table hasn't. After want of memory the
/// line is what it was, and maybe bytes behind it.
#[tactic(auto, using(base::proofs::Texts::kept_itself, base::proofs::Texts::kept_more))]
pub fn write_title(line: &mut String, table: &ClassTable, method: MethodId) -> Result<(), NoMemory>
    ensures title { OnOk result (string_bytes line.new ≡ string_bytes line.old ++ title_text (table_data table.now) method) }
    ensures kept { OnErr result (KeepsText (string_bytes line.old) (string_bytes line.new)) }
{
    let Some((class, name)) = table.method_name(method) else {
        return Ok(());
    };
    line.push_str(class)?;
    line.push_str(".")?;
    line.push_str(name)
}

/// Writes a tree. This function and `write_branch` call each other as deep as the tree is high. On the way to a leaf a
/// canonical tree tests each path once at most, so it is at most 16 high: a method has 8 relevant and 8 local paths at most.
#[cycle(tree)]
fn write_tree(
    line: &mut String,
    table: &ClassTable,
    method: MethodId,
    tree: &Tree,
) -> Result<(), NoMemory>
    ensures { OnOk result (string_bytes line.new ≡ string_bytes line.old ++ condition_text (table_data table.now) method (cond_of tree.now)) }
{
    match tree {
        Tree::Leaf(basic) => line.push_str(basic.name()),
        Tree::Test(path, held, free) => {
            write_path(line, table, method, path)?;
            line.push_str(" ? ")?;
            write_branch(line, table, method, held)?;
            line.push_str(" : ")?;
            write_branch(line, table, method, free)
        }
    }
}

/// Writes a branch of a test, in parentheses where it is a test itself.
#[cycle(tree)]
fn write_branch(
    line: &mut String,
    table: &ClassTable,
    method: MethodId,
    branch: &Tree,
) -> Result<(), NoMemory>
    ensures { OnOk result (string_bytes line.new ≡ string_bytes line.old ++ branch_text (cond_of branch.now) (condition_text (table_data table.now) method (cond_of branch.now))) }
{
    match branch {
        Tree::Leaf(_) => write_tree(line, table, method, branch),
        Tree::Test(_, _, _) => {
            line.push_str("(")?;
            write_tree(line, table, method, branch)?;
            line.push_str(")")
        }
    }
}

/// Writes a path in a method: its slot, then its fields. After want of memory the line is what it was, and maybe bytes behind it.
#[tactic(auto, using(base::proofs::Texts::kept_itself, base::proofs::Texts::kept_more))]
pub fn write_path(
    line: &mut String,
    table: &ClassTable,
    method: MethodId,
    path: &Path,
) -> Result<(), NoMemory>
    ensures path { OnOk result (string_bytes line.new ≡ string_bytes line.old ++ method_path_text (table_data table.now) method path.now) }
    ensures kept { OnErr result (KeepsText (string_bytes line.old) (string_bytes line.new)) }
{
    line.push_str(name_or_nothing(table.slot_name(method, path.root)))?;
    write_fields(line, table, path.fields.as_slice())
}

/// Writes the fields of a path, each behind a point. After want of memory the line is what it was, and maybe bytes behind it.
#[tactic(auto, using(base::proofs::Texts::kept_itself, base::proofs::Texts::kept_more))]
pub fn write_fields(
    line: &mut String,
    table: &ClassTable,
    fields: &[FieldId],
) -> Result<(), NoMemory>
    ensures fields { OnOk result (string_bytes line.new ≡ string_bytes line.old ++ fields_text (table_data table.now) fields.now) }
    ensures kept { OnErr result (KeepsText (string_bytes line.old) (string_bytes line.new)) }
{
    for field in fields {
        write_field(line, table, *field)?;
    }
    Ok(())
}

#[tactic(auto, using(base::proofs::Texts::kept_itself, base::proofs::Texts::kept_more))]
fn write_field(line: &mut String, table: &ClassTable, field: FieldId) -> Result<(), NoMemory>
    ensures field { OnOk result (string_bytes line.new ≡ string_bytes line.old ++ (codes "." ++ field_text (table_data table.now) field)) }
    ensures kept { OnErr result (KeepsText (string_bytes line.old) (string_bytes line.new)) }
{
    line.push_str(".")?;
    line.push_str(name_or_nothing(table.field_name(field)))
}

/// The name, or nothing where the table hasn't one.
fn name_or_nothing(name: Option<&str>) -> &str
    ensures { result.now ≡ unwrap_or (option_map (λ n. n.now) name.entry) [] }
{
    name.unwrap_or("")
}
