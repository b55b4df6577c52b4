//! Trees by their numbers, and the trees of method lines.
ghost use Rattle.std.specs.Prelude.{◌≡◌, IfErr, IfOk, MatchOption, None, Some, map, slice_get};
ghost use Rattle.algebra.specs.HeldPaths.{Held};
ghost use Rattle.algebra.specs.declared.basic.Basic.TheVariants.{Const};
ghost use Rattle.conditions.specs.Conditions.{cond_of, value_of, IsCanonical, LeafC};
ghost use Rattle.book_check.specs.declared.refusal.Refusal.{Refusal};
ghost use Rattle.book_check.specs.Works.{IsUnbounded};
ghost use Rattle.book_check.specs.Conclusions.{table_value, tree_numbered, tests_only as tests_only_of};
ghost use Rattle.book_check.specs.Judges.{judge_near, judge_table, judge_value, number_value, own_near, AreCanonical};

use crate::judge::Judge;
use crate::names::{tests_either, tests_only};
use crate::refusal::Refusal;
use crate::values::{copied, leaf};
use crate::work::Work;
use algebra::Basic;
use conditions::Tree;
use paths::MethodId;
use std::alloc::Global;

/// The tree with this number.
pub fn tree_at<'a>(table: &'a [Tree], number: u32) -> Option<&'a Tree>
    ensures tree { MatchOption result (slice_get (map cond_of table.now) number ≡ None)
        (λ t. slice_get (map cond_of table.now) number ≡ Some (cond_of t.now)) }
{
    table.get(number as usize)
}

/// The number of the tree of a method's line.
pub fn line_number(lines: &[u32], m: MethodId) -> Option<u32>
    ensures { result ≡ slice_get lines.now m }
{
    lines.get(m.0 as usize).copied()
}

/// The tree with this number; const where there is none.
pub fn conclusion(
    alloc: Global,
    work: Work<'_>,
    judge: &Judge<'_>,
    number: u32,
) -> Result<Tree, Refusal>
    requires { AreCanonical (judge_table judge.now) }
    ensures known { IfOk result (λ r. IsCanonical (cond_of r)) }
    ensures value { IfOk result (λ r. (H : Held) → value_of (cond_of r) H ≡ judge_value judge.now number H) }
    ensures unbounded { IsUnbounded work.entry → IfErr result (λ e. e ≡ Refusal.NoMemory) }
{
    match tree_at(judge.table, number) {
        Some(tree) => copied(alloc, work, tree),
        None => Ok(leaf(Basic::Const)),
    }
}

/// The tree with this number; `none`, which is const, where there is none.
pub(crate) fn tree_or<'a>(table: &'a [Tree], number: u32, none: &'a Tree) -> &'a Tree
    requires canonical { AreCanonical (map cond_of table.now) }
    requires none { cond_of none.now ≡ LeafC Const }
    ensures known { IsCanonical (cond_of result.now) }
    ensures tree { cond_of result.now ≡ tree_numbered (slice_get (map cond_of table.now) number) }
    ensures value { (H : Held) → value_of (cond_of result.now) H ≡ table_value (map cond_of table.now) number H }
{
    match tree_at(table, number) {
        Some(tree) => tree,
        None => none,
    }
}

/// The tree of a method's line, which no copy is made of; `none`, which is const, where there is none.
pub(crate) fn line_tree<'a>(
    table: &'a [Tree],
    lines: &[u32],
    m: MethodId,
    none: &'a Tree,
) -> &'a Tree
    requires canonical { AreCanonical (map cond_of table.now) }
    requires none { cond_of none.now ≡ LeafC Const }
    ensures value { (H : Held) → value_of (cond_of result.now) H ≡ number_value (map cond_of table.now) (slice_get lines.now m) H }
{
    match line_number(lines, m) {
        Some(number) => tree_or(table, number, none),
        None => none,
    }
}

/// Whether the tree with this number tests only paths near this method.
pub fn is_near(judge: &Judge<'_>, m: MethodId, number: u32) -> bool
    ensures { result ≡ tests_only_of (judge_near judge.now m) (tree_numbered (slice_get (judge_table judge.now) number)) }
{
    match tree_at(judge.table, number) {
        Some(tree) => tests_either(judge.sets.rel(m), judge.sets.loc(m), tree),
        None => true,
    }
}

/// Whether the tree of a method's line tests only relevant paths of the method.
pub fn is_own_near(judge: &Judge<'_>, m: MethodId) -> bool
    ensures { result ≡ own_near judge.now m }
{
    let Some(number) = line_number(judge.lines, m) else {
        return true;
    };
    match tree_at(judge.table, number) {
        Some(tree) => tests_only(judge.sets.rel(m), tree),
        None => true,
    }
}
