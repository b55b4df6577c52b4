//! Trees as nodes, under the names that their paths have elsewhere.
ghost use Rattle.std.specs.Prelude.{◌≡◌, length, IfOk, if◌then◌else◌};
ghost use Rattle.std.specs.List.{list_all};
ghost use Rattle.algebra.specs.declared.basic.Basic.TheVariants.{Error};
ghost use Rattle.algebra.specs.HeldPaths.{Held};
ghost use Rattle.conditions.specs.Conditions.{cond_of, value_of};
ghost use Rattle.conditions.specs.Shown.{IsAmongFirst, node_value};
ghost use Rattle.book_check.specs.Judges.{named_set};
ghost use Rattle.derive.specs.Named.{Keeping, name_under};

use algebra::{Algebra, Basic, has};
use conditions::{Node, NodeTable, Tree};
use paths::{Path, extend, under_call};
use std::alloc::{AllocError as NoMemory, Global};

/// What paths are called: what they are, what they were before a final local was declared, or what a callee's relevant paths are at
/// a call.
#[derive(Clone, Copy)]
pub(crate) enum Names<'a> {
    Same,
    Before(u16, Option<&'a Path>),
    At(&'a [Path], Option<&'a Path>, &'a [Option<Path>]),
}

/// What a path is called; None where it has no name.
fn name_of(names: &Names<'_>, path: &Path) -> Option<Path>
    ensures { result ≡ name_under names.now path.now }
{
    match *names {
        Names::Same => Some(path.copy()),
        Names::Before(slot, value) => {
            if path.root == slot {
                extend(value?, path.fields.as_slice())
            } else {
                Some(path.copy())
            }
        }
        Names::At(rel, receiver, args) => {
            if has(rel, path) {
                under_call(path, receiver, args)
            } else {
                None
            }
        }
    }
}

/// The node of a tree under these names.
#[tactic(auto, using(crate::proofs::Tables::keeps_chain))]
pub(crate) fn named(
    alloc: Global,
    table: &mut NodeTable,
    names: &Names<'_>,
    t: &Tree,
) -> Result<Node, NoMemory>
    ensures known { IfOk result (λ r. IsAmongFirst (length table.new) r) }
    ensures value { IfOk result (λ r. (H : Held) → node_value table.new r H ≡ value_of (cond_of t.now) (named_set (name_under names.now) H)) }
    ensures keeps { Keeping table.old table.new }
{
    match t {
        Tree::Leaf(basic) => Ok(table.basic(*basic)),
        Tree::Test(path, a, b) => {
            let held = named(alloc, table, names, a)?;
            let free = named(alloc, table, names, b)?;
            match name_of(names, path) {
                Some(name) => table.held_or(alloc, &name, &held, &free),
                None => Ok(free),
            }
        }
    }
}

/// The value where each of these paths has a name and is held, else error.
#[tactic(auto, using(crate::proofs::Tables::keeps_chain))]
pub(crate) fn with_required(
    alloc: Global,
    table: &mut NodeTable,
    names: &Names<'_>,
    required: &[Path],
    value: Node,
) -> Result<Node, NoMemory>
    requires { IsAmongFirst (length table.old) value }
    ensures known { IfOk result (λ r. IsAmongFirst (length table.new) r) }
    ensures value { IfOk result (λ r. (H : Held) → node_value table.new r H ≡
        (if list_all (named_set (name_under names.now) H) required.now then node_value table.old value H else Error)) }
    ensures keeps { Keeping table.old table.new }
{
    let Some((path, rest)) = required.split_first() else {
        return Ok(value);
    };
    let Some(name) = name_of(names, path) else {
        return Ok(table.basic(Basic::Error));
    };
    let later = with_required(alloc, table, names, rest, value)?;
    let error = table.basic(Basic::Error);
    table.held_or(alloc, &name, &later, &error)
}
