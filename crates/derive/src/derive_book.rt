//! The book of an assignment.
ghost use Rattle.std.specs.Prelude.{◌≡◌, ◌≤◌, ◌<◌, ◌^◌, [], map, length, IfOk, OnOk};
ghost use Rattle.conditions.specs.Conditions.{cond_of, IsCanonical};
ghost use Rattle.core_program.specs.Typed.{IsTyped};
ghost use Rattle.core_program.specs.Views.{method_of, program_of};
ghost use Rattle.books.specs.Memory.{book_of, method_line_of};
ghost use Rattle.book_check.specs.Good.{IsGoodBook};
ghost use Rattle.book_check.specs.NearBooks.{IsNearBook};
ghost use Rattle.book_check.specs.Judges.{AreCanonical};
ghost use Rattle.derive.specs.Bases.{own_trees, trees_assign};
ghost use Rattle.derive.specs.Derived.{IsDerived, KeepsRules};
ghost use Rattle.derive.specs.Lines.{AreLinesOf, IsLineMade};
ghost use Rattle.derive.specs.Pools.{pool_table, ArePooled, IsPool};
ghost use Rattle.conditions.specs.Nodes.{Items, KeepsTrees};
ghost use Rattle.conditions.specs.Shown.{IsAmongFirst, node_tree};
ghost use Rattle.rules.specs.Near.{AreRelevant, loc_of, rel_of};

use crate::basis::Basis;
use crate::conclude::concluded;
use crate::moving::moved;
use crate::names::{Names, named};
use crate::pool::Pool;
use books::{DerivBook, Derivation};
use conditions::{Node, NodeTable, Tree};
use core_program::{CoreMethod, CoreProgram};
use effects::BodyPart;
use infer::Inferred;
use paths::MethodId;
use rules::RelevantSets;
use std::alloc::{AllocError as NoMemory, Global};

/// The node of a tree.
fn own_node(alloc: Global, table: &mut NodeTable, tree: &Tree) -> Result<Node, NoMemory>
    requires { IsCanonical (cond_of tree.now) }
    ensures known { IfOk result (λ r. IsAmongFirst (length table.new) r) }
    ensures tree { IfOk result (λ r. node_tree table.new r ≡ cond_of tree.now) }
    ensures grows { OnOk result (KeepsTrees table.old table.new) }
{
    // Only the proof needs this and the second count: they tell that the table is in order, before and after.
    let _before = table.count();
    let node = named(alloc, table, &Names::Same, tree)?;
    let _after = table.count();
    Ok(node)
}

/// The line of the method with this number: its tree's number in the pool, and the derivation of its body over the pool.
fn line(
    alloc: Global,
    basis: &Basis<'_>,
    table: &mut NodeTable,
    pool: &mut Pool,
    m: usize,
    method: &CoreMethod,
) -> Result<(MethodId, u32, Derivation), NoMemory>
    requires canonical { AreCanonical (own_trees basis.now) }
    requires pool { IsPool table.old pool.old }
    requires place { m < length basis.now.own.now }
    requires small { m < 2 ^ 32 }
    ensures pool { OnOk result (IsPool table.new pool.new) }
    ensures line { IfOk result (λ line. IsLineMade (program_of basis.now.program.now) (rel_of basis.now.sets.now) (own_trees basis.now)
        m (method_of method.now) (pool_table pool.old) (pool_table pool.new) (method_line_of line)) }
{
    let own = own_node(alloc, table, &basis.own[m])?;
    let mut nodes = Vec::new(alloc);
    let derivation = concluded(
        alloc,
        basis,
        table,
        &mut nodes,
        BodyPart::Stmt(&method.body),
    )?;
    let number = pool.number_of(alloc, table, &own)?;
    let body = moved(alloc, pool, table, nodes.as_slice(), &derivation)?;
    Ok((MethodId(m as u32), number, body))
}

/// The lines of all methods, over the trees of a pool.
fn lines(
    alloc: Global,
    basis: &Basis<'_>,
    pool: &mut Pool,
) -> Result<Vec<(MethodId, u32, Derivation)>, NoMemory>
    requires canonical { AreCanonical (own_trees basis.now) }
    requires count { length (own_trees basis.now) ≡ length (program_of basis.now.program.now).methods }
    requires few { length (own_trees basis.now) ≤ 2 ^ 32 }
    requires pool { (is : Items) → IsPool is pool.old }
    requires none { pool_table pool.old ≡ [] }
    ensures pool { OnOk result (ArePooled (pool_table pool.new)) }
    ensures lines { IfOk result (λ lines. AreLinesOf (program_of basis.now.program.now) (rel_of basis.now.sets.now) (own_trees basis.now)
        (length (program_of basis.now.program.now).methods) (pool_table pool.new) (map method_line_of lines.items)) }
{
    let mut table = NodeTable::new(alloc);
    let mut lines = Vec::new(alloc);
    for (m, method) in basis.program.methods().iter().enumerate() {
        let made = line(alloc, basis, &mut table, pool, m, method)?;
        lines.push(made)?;
    }
    Ok(lines)
}

/// The book that shows what the bodies of a typed program conclude under an assignment, of which `inferred` has a canonical tree for
/// each method. Each line has its method's tree, each node concludes exactly its rule's value, and the table has each different
/// conclusion once, in order of first use. Of an assignment that keeps the rules of atomicity the book is good, and its trees test only
/// paths near their methods, so it is never refused but for want of memory.
pub fn derive(
    alloc: Global,
    program: &CoreProgram,
    sets: &RelevantSets,
    inferred: &Inferred<Tree>,
) -> Result<DerivBook, NoMemory>
    requires typed { IsTyped (program_of program.now) }
    requires relevant { AreRelevant (program_of program.now) sets.now }
    requires count { length (map cond_of inferred.now.methods.items) ≡ length (program_of program.now).methods }
    requires canonical { AreCanonical (map cond_of inferred.now.methods.items) }
    ensures derived { IfOk result (λ book. IsDerived (program_of program.now) (rel_of sets.now) (map cond_of inferred.now.methods.items) (book_of book)) }
    ensures good { KeepsRules (program_of program.now) (rel_of sets.now) (trees_assign (map cond_of inferred.now.methods.items)) →
        IfOk result (λ book. IsGoodBook (program_of program.now) (rel_of sets.now) (book_of book)) }
    ensures near { KeepsRules (program_of program.now) (rel_of sets.now) (trees_assign (map cond_of inferred.now.methods.items)) →
        IfOk result (λ book. IsNearBook (rel_of sets.now) (loc_of sets.now) (book_of book)) }
{
    let own = inferred.methods.as_slice();
    let basis = Basis { program, sets, own };
    let mut pool = Pool::new(alloc);
    let methods = lines(alloc, &basis, &mut pool)?;
    Ok(DerivBook::new(pool.trees, methods))
}
