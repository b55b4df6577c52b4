//! What the nodes of a body conclude, from the leaves up.
ghost use Rattle.std.specs.Prelude.{◌≡◌, map, length, IfOk, OnOk};
ghost use Rattle.algebra.specs.HeldPaths.{Held};
ghost use Rattle.core_program.specs.Views.{program_of};
ghost use Rattle.books.specs.Memory.{node_of, nodes_at};
ghost use Rattle.book_check.specs.Conclusions.{conclusions, table_value};
ghost use Rattle.effects.specs.Rules.{rule_of};
ghost use Rattle.effects.specs.Bodies.{list_of, part_of};
ghost use Rattle.rules.specs.Near.{rel_of};
ghost use Rattle.conditions.specs.Nodes.{KeepsTrees, IsTable};
ghost use Rattle.conditions.specs.Shown.{IsAmongFirst, AreAmongFirst, node_value, trees_at};
ghost use Rattle.derive.specs.Bases.{own_trees, trees_assign};
ghost use Rattle.derive.specs.Concluded.{BeginsWithTrees, ConcludesOn, ConcludeAllOn};

use crate::basis::Basis;
use algebra::Basic;
use book_check::part_word;
use books::Derivation;
use conditions::{Node, NodeTable};
use effects::{BodyPart, InnerParts, inner_parts, rule};
use std::alloc::{AllocError as NoMemory, Global};

/// The node with this number; const where there is none.
fn node_at(table: &NodeTable, nodes: &[Node], number: u32) -> Node
    requires { AreAmongFirst (length table.now) nodes.now }
    ensures known { IsAmongFirst (length table.now) result }
    ensures value { (H : Held) → node_value table.now result H ≡ table_value (trees_at table.now nodes.now) number H }
{
    match nodes.get(number as usize) {
        Some(node) => *node,
        None => table.basic(Basic::Const),
    }
}

/// The nodes that derivations conclude.
fn premises_of(
    alloc: Global,
    table: &NodeTable,
    nodes: &[Node],
    premises: &[Derivation],
) -> Result<Vec<Node>, NoMemory>
    requires { AreAmongFirst (length table.now) nodes.now }
    ensures known { IfOk result (λ found. AreAmongFirst (length table.now) found.items) }
    ensures values { IfOk result (λ found. map (node_value table.now) found.items ≡ conclusions (table_value (trees_at table.now nodes.now)) (nodes_at premises.now)) }
{
    let mut found = Vec::with_capacity(alloc, premises.len())?;
    for premise in premises {
        found.push(node_at(table, nodes, premise.lent().number))?;
    }
    Ok(found)
}

/// The number of the next node; want of memory where none is left.
fn next_number(nodes: &[Node]) -> Result<u32, NoMemory>
    ensures { IfOk result (λ n. n ≡ length nodes.now) }
{
    if nodes.len() >= u32::MAX as usize {
        return Err(NoMemory);
    }
    Ok(nodes.len() as u32)
}

/// The node of a part, from what its premises conclude.
fn value(
    alloc: Global,
    basis: &Basis<'_>,
    table: &mut NodeTable,
    nodes: &[Node],
    part: BodyPart<'_>,
    premises: &[Derivation],
) -> Result<Node, NoMemory>
    requires { AreAmongFirst (length table.old) nodes.now }
    ensures known { IfOk result (λ r. IsAmongFirst (length table.new) r) }
    ensures value { IfOk result (λ r. (H : Held) → node_value table.new r H ≡ rule_of (program_of basis.now.program.now) (rel_of basis.now.sets.now)
        (trees_assign (own_trees basis.now)) (part_of part.entry) (conclusions (table_value (trees_at table.old nodes.now)) (nodes_at premises.now)) H) }
    ensures grows { OnOk result (KeepsTrees table.old table.new) }
{
    let premises = premises_of(alloc, table, nodes, premises)?;
    // Only the proof needs this and the second count: they tell that the table is in order, before and after.
    let _before = table.count();
    let node = rule(alloc, basis, table, part, premises.as_slice())?;
    let _after = table.count();
    Ok(node)
}

/// The derivation of a part. What its nodes conclude goes behind the nodes.
#[tactic(auto, using(effects::proofs::Sizes::parts_smaller))]
#[cycle(concluding)]
pub(crate) fn concluded(
    alloc: Global,
    basis: &Basis<'_>,
    table: &mut NodeTable,
    nodes: &mut Vec<Node>,
    part: BodyPart<'_>,
) -> Result<Derivation, NoMemory>
    requires there { AreAmongFirst (length table.old) nodes.old.items }
    requires table { IsTable table.old }
    ensures grows { OnOk result (KeepsTrees table.old table.new) }
    ensures there { OnOk result (AreAmongFirst (length table.new) nodes.new.items) }
    ensures more { OnOk result (BeginsWithTrees (trees_at table.old nodes.old.items) (trees_at table.new nodes.new.items)) }
    ensures concludes { IfOk result (λ d. ConcludesOn basis.now (trees_at table.new nodes.new.items) (part_of part.entry) (node_of d)) }
{
    let premises = all_concluded(alloc, basis, table, nodes, inner_parts(part))?;
    let node = value(
        alloc,
        basis,
        table,
        nodes.as_slice(),
        part,
        premises.as_slice(),
    )?;
    let number = next_number(nodes.as_slice())?;
    nodes.push(node)?;
    Ok(Derivation::new(part_word(part), number, premises))
}

/// The derivations of parts.
#[cycle(concluding)]
fn all_concluded(
    alloc: Global,
    basis: &Basis<'_>,
    table: &mut NodeTable,
    nodes: &mut Vec<Node>,
    parts: InnerParts<'_>,
) -> Result<Vec<Derivation>, NoMemory>
    requires there { AreAmongFirst (length table.old) nodes.old.items }
    requires table { IsTable table.old }
    ensures grows { OnOk result (KeepsTrees table.old table.new) }
    ensures there { OnOk result (AreAmongFirst (length table.new) nodes.new.items) }
    ensures more { OnOk result (BeginsWithTrees (trees_at table.old nodes.old.items) (trees_at table.new nodes.new.items)) }
    ensures conclude { IfOk result (λ ds. ConcludeAllOn basis.now (trees_at table.new nodes.new.items) (list_of parts.entry) (nodes_at ds.items)) }
{
    let mut premises = Vec::new(alloc);
    let mut rest = parts;
    'premises: while let Some((part, others)) = rest.first() {
        let premise = concluded(alloc, basis, table, nodes, part)?;
        premises.push(premise)?;
        rest = others;
    }
    Ok(premises)
}
