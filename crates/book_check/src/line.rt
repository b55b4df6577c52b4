//! The judgement of one method line beside its method.
ghost use Rattle.std.specs.Prelude.{◌≡◌, ◌↔◌, ◌&&◌, ℕ, true, Contains, IfErr, IfOk};
ghost use Rattle.algebra.specs.Basics.{below_of};
ghost use Rattle.algebra.specs.HeldPaths.{has_path};
ghost use Rattle.conditions.specs.Conditions.{cond_of, value_of, IsCanonical};
ghost use Rattle.core_program.specs.Views.{method_of};
ghost use Rattle.books.specs.Derivations.{node};
ghost use Rattle.rules.specs.Rules.{declared_bound};
ghost use Rattle.book_check.specs.Faults.{IsLineVerdict};
ghost use Rattle.book_check.specs.Good.{IsAntitoneValue, IsTabled, IsUnder, IsUnderIn};
ghost use Rattle.book_check.specs.declared.refusal.Refusal.{Refusal};
ghost use Rattle.book_check.specs.Works.{IsUnbounded};
ghost use Rattle.book_check.specs.Judges.{judge_assignment, judge_program, judge_rel, judge_table, judge_value, own_near, AreCanonical};
ghost use Rattle.book_check.specs.Nearness.{is_near as is_near_of, steps_near, AreNear, AreOwnNear};
ghost use Rattle.book_check.specs.Overs.{AreOversAt, AreOversUnder};

use crate::lookups::{conclusion, is_near, is_own_near, line_tree, tree_or};
use crate::names::{tests_only, where_held, within};
use crate::overs::Overs;
use crate::refusal::Refusal;
use crate::steps::Steps;
use crate::values::below;
use crate::walk::{End, WalkedNode, walk_node};
use crate::work::Work;
use crate::wrong::Wrong;
use algebra::{Algebra, Basic};
use books::{FirstLine, Lines};
use conditions::{Tree, Trees};
use core_program::CoreMethod;
use effects::BodyPart;
use paths::{MethodId, Path};
use rules::bound_of;
use std::alloc::Global;

/// Whether all three hold.
fn all_three(first: bool, second: bool, third: bool) -> bool
    ensures { result ≡ (first && (second && third)) }
{
    first && second && third
}

/// Whether a tree is nowhere greater with more paths held.
#[tactic(auto, using(crate::proofs::LineLemmas::falls_leaf))]
fn falls(t: &Tree) -> bool
    requires { IsCanonical (cond_of t.now) }
    ensures { (result ≡ true) ↔ IsAntitoneValue (value_of (cond_of t.now)) }
{
    match t {
        Tree::Leaf(_) => true,
        Tree::Test(_, a, b) => {
            let here = Trees.below(a, b);
            let held = falls(a);
            let free = falls(b);
            all_three(here, held, free)
        }
    }
}

/// Whether a method's tree tests relevant paths only, and falls. A tree that tests others isn't looked at twice.
#[tactic(auto, using(crate::proofs::LineLemmas::tabled_by, crate::proofs::LineLemmas::not_tabled))]
pub(crate) fn is_tabled(rel: &[Path], t: &Tree) -> bool
    requires { IsCanonical (cond_of t.now) }
    ensures { (result ≡ true) ↔ IsTabled rel.now (cond_of t.now) }
{
    if !tests_only(rel, t) {
        return false;
    }
    falls(t)
}

/// The work on trees: without a bound where they are near the method.
fn work_on<'a>(near: bool, left: Work<'a>) -> Work<'a>
    ensures near { near ≡ true → IsUnbounded result }
    ensures free { IsUnbounded left.entry → IsUnbounded result }
{
    if near {
        return Work::Unbounded;
    }
    left
}

/// Whether the body's conclusion is at or below the method's tree, which tests relevant paths only, wherever the required paths are
/// held.
fn is_under(
    alloc: Global,
    steps: &Steps<'_>,
    required: &[Path],
    body: u32,
    own: u32,
) -> Result<bool, Refusal>
    requires { AreCanonical (judge_table steps.now.judge.now) }
    ensures under { IfOk result (λ b. (b ≡ true) ↔ IsUnder required.now (judge_value steps.now.judge.now body) (judge_value steps.now.judge.now own)) }
    ensures near { is_near_of (steps_near steps.now) (judge_table steps.now.judge.now) body ≡ true → IfErr result (λ e. e ≡ Refusal.NoMemory) }
    ensures free { IsUnbounded steps.now.left → IfErr result (λ e. e ≡ Refusal.NoMemory) }
{
    let judge = steps.judge;
    let work = work_on(is_near(judge, steps.method, body), steps.left);
    let none = Tree::Leaf(Basic::Const);
    let body = tree_or(judge.table, body, &none);
    let own = conclusion(alloc, work, judge, own)?;
    let wherever = where_held(alloc, work, required, own)?;
    below(work, body, &wherever)
}

/// Whether the tree of a method is at or below this one, which tests relevant paths only, at each part of these paths that has the
/// required ones.
fn is_under_in(
    alloc: Global,
    steps: &Steps<'_>,
    rel: &[Path],
    required: &[Path],
    over: MethodId,
    own: u32,
) -> Result<bool, Refusal>
    requires { AreCanonical (judge_table steps.now.judge.now) }
    ensures under { IfOk result (λ b. (b ≡ true) ↔ IsUnderIn rel.now required.now (judge_assignment steps.now.judge.now over) (judge_value steps.now.judge.now own)) }
    ensures near { own_near steps.now.judge.now over ≡ true → IfErr result (λ e. e ≡ Refusal.NoMemory) }
    ensures free { IsUnbounded steps.now.left → IfErr result (λ e. e ≡ Refusal.NoMemory) }
{
    let judge = steps.judge;
    let work = work_on(is_own_near(judge, over), steps.left);
    let none = Tree::Leaf(Basic::Const);
    let tree = line_tree(judge.table, judge.lines, over, &none);
    let there = within(alloc, work, rel, tree)?;
    let own = conclusion(alloc, work, judge, own)?;
    let wherever = where_held(alloc, work, required, own)?;
    let here = within(alloc, work, rel, &wherever)?;
    below(work, &there, &here)
}

/// Whether the trees of these methods are.
pub(crate) fn are_under_in(
    alloc: Global,
    steps: &Steps<'_>,
    rel: &[Path],
    required: &[Path],
    overs: &[MethodId],
    own: u32,
) -> Result<bool, Refusal>
    requires { AreCanonical (judge_table steps.now.judge.now) }
    ensures under { IfOk result (λ b. (b ≡ true) ↔ ((over : ℕ) → Contains overs.now over →
        IsUnderIn rel.now required.now (judge_assignment steps.now.judge.now over) (judge_value steps.now.judge.now own))) }
    ensures near { AreOwnNear steps.now.judge.now → IfErr result (λ e. e ≡ Refusal.NoMemory) }
    ensures free { IsUnbounded steps.now.left → IfErr result (λ e. e ≡ Refusal.NoMemory) }
{
    for over in overs {
        if !is_under_in(alloc, steps, rel, required, *over, own)? {
            return Ok(false);
        }
    }
    Ok(true)
}

/// Whether the trees of all methods that override this one are at or below the tree with this number. They are compared with it where
/// that isn't known.
fn are_overs_under(
    alloc: Global,
    steps: &Steps<'_>,
    over: &Overs,
    method: &CoreMethod,
    own: u32,
) -> Result<bool, Refusal>
    requires canonical { AreCanonical (judge_table steps.now.judge.now) }
    requires overs { AreOversAt steps.now.judge.now steps.now.method (method_of method.now) own over.now }
    ensures under { IfOk result (λ b. (b ≡ true) ↔ AreOversUnder steps.now.judge.now steps.now.method (method_of method.now) (judge_value steps.now.judge.now own)) }
    ensures near { AreOwnNear steps.now.judge.now → IfErr result (λ e. e ≡ Refusal.NoMemory) }
    ensures free { IsUnbounded steps.now.left → IfErr result (λ e. e ≡ Refusal.NoMemory) }
{
    match over {
        Overs::Below => Ok(true),
        Overs::Unknown(rows) => {
            let m = steps.method;
            let rel = steps.judge.sets.rel(m);
            let required = method.requires_.as_slice();
            are_under_in(alloc, steps, rel, required, rows.of(m), own)
        }
    }
}

/// Whether a method's tree at its required paths keeps the bound.
fn is_bounded(t: &Tree, method: &CoreMethod) -> bool
    requires { IsCanonical (cond_of t.now) }
    ensures { result ≡ below_of (value_of (cond_of t.now) (has_path (method_of method.now).requires_)) (declared_bound (method_of method.now).annotated) }
{
    let found = Trees.at(t, method.requires_.as_slice());
    found.below(bound_of(method.annotated))
}

/// What is wrong with a method line beside its method first, if anything is: its tree, then its steps, then the trees of the
/// methods that override it, then its bound.
pub(crate) fn line_verdict<L: Lines>(
    alloc: Global,
    steps: &Steps<'_>,
    over: &Overs,
    method: &CoreMethod,
    line: &FirstLine<L::Premises, L>,
) -> Result<Option<Wrong>, Refusal>
    requires kept { L.Premises.AreKept line.now.premises }
    requires canonical { AreCanonical (judge_table steps.now.judge.now) }
    requires overs { AreOversAt steps.now.judge.now steps.now.method (method_of method.now) line.now.number over.now }
    ensures verdict { IfOk result (IsLineVerdict (judge_program steps.now.judge.now) (judge_rel steps.now.judge.now) (judge_table steps.now.judge.now) (judge_assignment steps.now.judge.now) steps.now.method
        (method_of method.now) (record { id = line.now.id; number = line.now.number; body = node line.now.word line.now.node (L.Premises.nodes line.now.premises) })) }
    ensures near { AreOwnNear steps.now.judge.now → AreNear (steps_near steps.now) (judge_table steps.now.judge.now) (node line.now.word line.now.node (L.Premises.nodes line.now.premises)) →
        IfErr result (λ e. e ≡ Refusal.NoMemory) }
    ensures free { IsUnbounded steps.now.left → IfErr result (λ e. e ≡ Refusal.NoMemory) }
{
    let judge = steps.judge;
    let m = steps.method;
    let rel = judge.sets.rel(m);
    let none = Tree::Leaf(Basic::Const);
    let tree = tree_or(judge.table, line.number, &none);
    if !is_tabled(rel, tree) {
        return Ok(Some(Wrong::Table { method: m.0 }));
    }
    let required = method.requires_.as_slice();
    if !is_under(alloc, steps, required, line.node, line.number)? {
        return Ok(Some(Wrong::Step {
            method: m.0,
            node: 0,
        }));
    }
    let body = BodyPart::Stmt(&method.body);
    let walked = WalkedNode {
        word: line.word,
        number: line.node,
        premises: line.premises,
    };
    match walk_node(alloc, steps, body, &walked, 0)? {
        End::Good(_) => (),
        End::Bad(node) => return Ok(Some(Wrong::Step { method: m.0, node })),
    }
    if !are_overs_under(alloc, steps, over, method, line.number)? {
        return Ok(Some(Wrong::Override { method: m.0 }));
    }
    if !is_bounded(tree, method) {
        return Ok(Some(Wrong::Bound { method: m.0 }));
    }
    Ok(None)
}
