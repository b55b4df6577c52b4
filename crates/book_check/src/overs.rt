//! What is known of the trees of overriding methods before the method lines are judged. A tree that falls and tests relevant paths
//! only is at or above those of all methods that override its method, where it and theirs are so beside the nearest ones.
ghost use Rattle.std.specs.Prelude.{◌≡◌, true, IfOk};
ghost use Rattle.std.specs.List.{list_all};
ghost use Rattle.core_program.specs.Typed.{IsTyped};
ghost use Rattle.core_program.specs.Views.{method_of};
ghost use Rattle.rules.specs.Near.{AreRelevant};
ghost use Rattle.book_check.specs.Judges.{judge_program, judge_table, own_near, AreCanonical};
ghost use Rattle.book_check.specs.Overs.{AreOvers, AreOversBelow, IsAboveNearest, AreAboveNearest};

use crate::judge::Judge;
use crate::line::{are_under_in, is_tabled};
use crate::lookups::{is_own_near, line_number, tree_or};
use crate::passes::next_position;
use crate::refusal::Refusal;
use crate::steps::Steps;
use crate::work::Work;
use algebra::Basic;
use conditions::Tree;
use core_program::CoreMethod;
use paths::MethodId;
use rules::{NearestMethods, OverridingMethods, nearest_overriders, overriders};
use std::alloc::{AllocError as NoMemory, Global};

/// What is known of the trees of the methods that override others.
#[derive(Drop)]
pub(crate) enum Overs {
    /// Each is at or below the tree of the method that is overridden, wherever a call of that may begin.
    Below,
    /// Nothing; these are the methods.
    Unknown(OverridingMethods),
}

/// Whether the tree of each of these methods tests only relevant paths of the method.
fn are_own_near(judge: &Judge<'_>, methods: &[MethodId]) -> bool
    ensures { result ≡ list_all (own_near judge.now) methods.now }
{
    methods.iter().all(|method| is_own_near(judge, *method))
}

/// Whether a method's tree tests relevant paths only and falls, and those of the nearest methods that override it are at or below it.
fn is_above_nearest<'a>(
    alloc: Global,
    judge: &'a Judge<'a>,
    near: &NearestMethods,
    m: u32,
    method: &CoreMethod,
) -> Result<bool, Refusal>
    requires { AreCanonical (judge_table judge.now) }
    ensures { IfOk result (λ b. b ≡ true → IsAboveNearest judge.now near.now m (method_of method.now)) }
{
    let own = MethodId(m);
    let Some(number) = line_number(judge.lines, own) else {
        return Ok(false);
    };
    let rel = judge.sets.rel(own);
    let none = Tree::Leaf(Basic::Const);
    let tree = tree_or(judge.table, number, &none);
    if !is_tabled(rel, tree) {
        return Ok(false);
    }
    let nearest = near.of(own);
    if !are_own_near(judge, nearest) {
        return Ok(false);
    }
    // All these trees are small, so the work on them needs no bound.
    let steps = Steps {
        judge,
        method: own,
        left: Work::Unbounded,
    };
    let required = method.requires_.as_slice();
    are_under_in(alloc, &steps, rel, required, nearest, number)
}

/// Whether the trees of all methods are so.
fn are_above_nearest<'a>(
    alloc: Global,
    judge: &'a Judge<'a>,
    near: &NearestMethods,
) -> Result<bool, NoMemory>
    requires { AreCanonical (judge_table judge.now) }
    ensures { IfOk result (λ b. b ≡ true → AreAboveNearest judge.now near.now) }
{
    let mut rest = judge.program.methods();
    let mut m = 0;
    'methods: while let Some((method, others)) = rest.split_first() {
        if !is_above_nearest(alloc, judge, near, m, method)? {
            return Ok(false);
        }
        rest = others;
        m = next_position(m)?;
    }
    Ok(true)
}

/// Whether each overriding method's tree is at or below that of the method that it overrides, as the nearest ones tell it. Where they
/// don't, nothing is said.
fn are_below<'a>(alloc: Global, judge: &'a Judge<'a>) -> Result<bool, NoMemory>
    requires typed { IsTyped (judge_program judge.now) }
    requires relevant { AreRelevant (judge_program judge.now) judge.now.sets.now }
    requires canonical { AreCanonical (judge_table judge.now) }
    ensures { IfOk result (λ b. b ≡ true → AreOversBelow judge.now) }
{
    let near = nearest_overriders(alloc, judge.program)?;
    are_above_nearest(alloc, judge, &near)
}

/// What is known of the trees of overriding methods.
pub(crate) fn overs_of<'a>(alloc: Global, judge: &'a Judge<'a>) -> Result<Overs, NoMemory>
    requires typed { IsTyped (judge_program judge.now) }
    requires relevant { AreRelevant (judge_program judge.now) judge.now.sets.now }
    requires canonical { AreCanonical (judge_table judge.now) }
    ensures { IfOk result (AreOvers judge.now) }
{
    if are_below(alloc, judge)? {
        return Ok(Overs::Below);
    }
    let rows = overriders(alloc, judge.program)?;
    Ok(Overs::Unknown(rows))
}
