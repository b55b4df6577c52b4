//! Steps whose rule puts premises one after another, decided with no tree for the rule's value and within this work.
ghost use Rattle.std.specs.Prelude.{◌≡◌, ◌↔◌, ℕ, List, true, map, IfOk, IfSome};
ghost use Rattle.paths.specs.Paths.{PathData};
ghost use Rattle.algebra.specs.Basics.{seq_of, star_of};
ghost use Rattle.algebra.specs.HeldPaths.{Held};
ghost use Rattle.conditions.specs.Conditions.{cond_of, value_of, IsCanonical};
ghost use Rattle.core_program.specs.Core.{Program};
ghost use Rattle.core_program.specs.Views.{expr_of, stmt_of, stmts_from};
ghost use Rattle.rules.specs.Effect.{Assignment};
ghost use Rattle.rules.specs.Rules.{AtMost};
ghost use Rattle.book_check.specs.Pairs.{IsPairBelow};
ghost use Rattle.book_check.specs.Judges.{judge_assignment, judge_program, judge_rel, judge_table, judge_value, AreCanonical};
ghost use Rattle.effects.specs.Rules.{block_value, choice_value, in_sequence, loop_value, expr_rule as expr_rule_of, stmt_rule as stmt_rule_of, Value};

use crate::accesses::access;
use crate::judge::Judge;
use crate::lookups::tree_at;
use crate::pairs::{both, pair_below, sequence_below};
use crate::rule_values::call;
use crate::stuck::Stuck;
use crate::unmoved::is_sequence;
use crate::values::leaf;
use crate::work::{MOST_DEPTH, StepWork, Work};
use algebra::Basic;
use conditions::Tree;
use core_program::{CoreExpr, CoreStmt};
use std::alloc::Global;

/// The premises that an expression's rule puts one after another, and the basic behind them, where it does so.
fn expr_sequence<'a>(e: &CoreExpr, numbers: &'a [u32]) -> Option<(&'a [u32], Basic)>
    ensures { (P : Program) (rel : ℕ → List PathData) (A : Assignment) (V : ℕ → Value) (H : Held) → IfSome result (λ x.
        expr_rule_of P rel A (expr_of e.now) (map V numbers.now) H ≡ seq_of (in_sequence (map V x.0.now) H) x.1) }
{
    match e {
        CoreExpr::Int(_) | CoreExpr::Truth(_) | CoreExpr::Null | CoreExpr::This => {
            Some((&numbers[..0], Basic::Const))
        }
        CoreExpr::Var { is_final: true, .. } => Some((&numbers[..0], Basic::Const)),
        CoreExpr::Var { .. } => Some((&numbers[..0], Basic::Mover)),
        CoreExpr::Not(_)
        | CoreExpr::Neg(_)
        | CoreExpr::Binary(_, _, _)
        | CoreExpr::And(_, _)
        | CoreExpr::Or(_, _) => Some((numbers, Basic::Const)),
        CoreExpr::New(_, _) => Some((numbers, Basic::Mover)),
        CoreExpr::Get(_, _) | CoreExpr::Call(_, _, _) => None,
    }
}

/// The premises that a statement's rule puts one after another, and the basic behind them, where it does so.
fn stmt_sequence<'a>(s: &CoreStmt, numbers: &'a [u32]) -> Option<(&'a [u32], Basic)>
    ensures { (P : Program) (rel : ℕ → List PathData) (A : Assignment) (V : ℕ → Value) (H : Held) → IfSome result (λ x.
        stmt_rule_of P rel A (stmt_of s.now) (map V numbers.now) H ≡ seq_of (in_sequence (map V x.0.now) H) x.1) }
{
    match s {
        CoreStmt::Empty => Some((&numbers[..0], Basic::Const)),
        CoreStmt::Local { .. } | CoreStmt::SetVar(_, _) => Some((numbers, Basic::Mover)),
        CoreStmt::Do(_, _) | CoreStmt::Return(_) => Some((numbers, Basic::Const)),
        CoreStmt::Print(_) | CoreStmt::Start(_) => Some((numbers, Basic::Atomic)),
        _ => None,
    }
}

/// Whether a tree is at or above the value of an expression whose rule puts premises before a basic.
#[tactic(auto, using(crate::proofs::PairLemmas::sequence_step))]
fn plain_expr_below(
    work: Work<'_>,
    judge: &Judge<'_>,
    e: &CoreExpr,
    numbers: &[u32],
    d: &Tree,
) -> Result<bool, Stuck>
    requires canonical { AreCanonical (judge_table judge.now) }
    requires known { IsCanonical (cond_of d.now) }
    ensures { IfOk result (λ b. (b ≡ true) ↔ ((H : Held) →
        AtMost (expr_rule_of (judge_program judge.now) (judge_rel judge.now) (judge_assignment judge.now) (expr_of e.now) (map (judge_value judge.now) numbers.now) H) (value_of (cond_of d.now) H))) }
{
    let Some((before, last)) = expr_sequence(e, numbers) else {
        return Err(Stuck::Undecided);
    };
    let last = leaf(last);
    sequence_below(work, judge, before, &last, d)
}

/// Whether a tree is at or above the value of a statement whose rule puts premises before a basic.
#[tactic(auto, using(crate::proofs::PairLemmas::sequence_step))]
fn plain_stmt_below(
    work: Work<'_>,
    judge: &Judge<'_>,
    s: &CoreStmt,
    numbers: &[u32],
    d: &Tree,
) -> Result<bool, Stuck>
    requires canonical { AreCanonical (judge_table judge.now) }
    requires known { IsCanonical (cond_of d.now) }
    ensures { IfOk result (λ b. (b ≡ true) ↔ ((H : Held) →
        AtMost (stmt_rule_of (judge_program judge.now) (judge_rel judge.now) (judge_assignment judge.now) (stmt_of s.now) (map (judge_value judge.now) numbers.now) H) (value_of (cond_of d.now) H))) }
{
    let Some((before, last)) = stmt_sequence(s, numbers) else {
        return Err(Stuck::Undecided);
    };
    let last = leaf(last);
    sequence_below(work, judge, before, &last, d)
}

/// Whether a tree is at or above the value of an expression's rule, within this work.
pub(crate) fn expr_below(
    alloc: Global,
    work: StepWork<'_, '_>,
    judge: &Judge<'_>,
    e: &CoreExpr,
    numbers: &[u32],
    d: &Tree,
) -> Result<bool, Stuck>
    requires canonical { AreCanonical (judge_table judge.now) }
    requires known { IsCanonical (cond_of d.now) }
    ensures { IfOk result (λ b. (b ≡ true) ↔ ((H : Held) →
        AtMost (expr_rule_of (judge_program judge.now) (judge_rel judge.now) (judge_assignment judge.now) (expr_of e.now) (map (judge_value judge.now) numbers.now) H) (value_of (cond_of d.now) H))) }
{
    match e {
        CoreExpr::Get(receiver, field) => {
            let access = access(alloc, work.trees, judge.program, receiver, *field, false)?;
            sequence_below(work.pairs, judge, numbers, &access, d)
        }
        CoreExpr::Call(receiver, callee, args) => {
            let call = call(alloc, work.trees, judge, *callee, receiver, args.as_slice())?;
            sequence_below(work.pairs, judge, numbers, &call, d)
        }
        _ => plain_expr_below(work.pairs, judge, e, numbers, d),
    }
}

/// Whether a block's value is at most a tree, by pairs of its statements, where each keeps the values of the later ones. Undecided for
/// other blocks.
fn block_below(
    work: Work<'_>,
    judge: &Judge<'_>,
    body: &[CoreStmt],
    numbers: &[u32],
    d: &Tree,
) -> Result<bool, Stuck>
    requires canonical { AreCanonical (judge_table judge.now) }
    requires known { IsCanonical (cond_of d.now) }
    ensures { IfOk result (λ b. (b ≡ true) ↔ ((H : Held) →
        AtMost (block_value (judge_program judge.now) (stmts_from body.now) (map (judge_value judge.now) numbers.now) H) (value_of (cond_of d.now) H))) }
{
    if body.len() != numbers.len() {
        return Err(Stuck::Undecided);
    }
    if !is_sequence(work, judge, body, numbers)? {
        return Err(Stuck::Undecided);
    }
    let last = leaf(Basic::Const);
    sequence_below(work, judge, numbers, &last, d)
}

/// Whether two trees of the table, one after the other, are at most another. Undecided where a number has no tree, which no book has.
fn numbers_below(
    work: Work<'_>,
    judge: &Judge<'_>,
    first: u32,
    second: u32,
    d: &Tree,
) -> Result<bool, Stuck>
    requires canonical { AreCanonical (judge_table judge.now) }
    requires known { IsCanonical (cond_of d.now) }
    ensures { IfOk result (λ b. (b ≡ true) ↔ IsPairBelow (judge_value judge.now first) (judge_value judge.now second) (value_of (cond_of d.now))) }
{
    let Some(t) = tree_at(judge.table, first) else {
        return Err(Stuck::Undecided);
    };
    let Some(u) = tree_at(judge.table, second) else {
        return Err(Stuck::Undecided);
    };
    pair_below(work, MOST_DEPTH, t, u, d)
}

/// Whether a condition and then either of two branches is at most a tree.
#[tactic(auto, using(crate::proofs::PairLemmas::choice_below))]
fn choice_below(work: Work<'_>, judge: &Judge<'_>, numbers: &[u32], d: &Tree) -> Result<bool, Stuck>
    requires canonical { AreCanonical (judge_table judge.now) }
    requires known { IsCanonical (cond_of d.now) }
    ensures { IfOk result (λ b. (b ≡ true) ↔ ((H : Held) →
        AtMost (choice_value (map (judge_value judge.now) numbers.now) H) (value_of (cond_of d.now) H))) }
{
    let Some((condition, branches)) = numbers.split_first() else {
        return Err(Stuck::Undecided);
    };
    let Some((first, others)) = branches.split_first() else {
        return Err(Stuck::Undecided);
    };
    let Some((second, _)) = others.split_first() else {
        return Err(Stuck::Undecided);
    };
    let in_first = numbers_below(work, judge, *condition, *first, d)?;
    let in_second = numbers_below(work, judge, *condition, *second, d)?;
    Ok(both(in_first, in_second))
}

/// Whether a condition, and then a body and the condition any number of times, are at most a tree: exactly where two such turns are.
fn loop_below(work: Work<'_>, judge: &Judge<'_>, numbers: &[u32], d: &Tree) -> Result<bool, Stuck>
    requires canonical { AreCanonical (judge_table judge.now) }
    requires known { IsCanonical (cond_of d.now) }
    ensures { IfOk result (λ b. (b ≡ true) ↔ ((H : Held) →
        AtMost (loop_value (map (judge_value judge.now) numbers.now) H) (value_of (cond_of d.now) H))) }
{
    let Some((condition, bodies)) = numbers.split_first() else {
        return Err(Stuck::Undecided);
    };
    let Some((body, _)) = bodies.split_first() else {
        return Err(Stuck::Undecided);
    };
    turns_below(work, judge, *condition, *body, d)
}

/// Whether a condition and then a body and the condition, twice, are at most a tree.
fn turns_below(
    work: Work<'_>,
    judge: &Judge<'_>,
    condition: u32,
    body: u32,
    d: &Tree,
) -> Result<bool, Stuck>
    requires canonical { AreCanonical (judge_table judge.now) }
    requires known { IsCanonical (cond_of d.now) }
    ensures { IfOk result (λ b. (b ≡ true) ↔ ((H : Held) → AtMost
        (seq_of (judge_value judge.now condition H) (star_of (seq_of (judge_value judge.now body H) (judge_value judge.now condition H)))) (value_of (cond_of d.now) H))) }
{
    let turns = [condition, body, condition, body, condition];
    let last = leaf(Basic::Const);
    sequence_below(work, judge, &turns, &last, d)
}

/// Whether a tree is at or above the value of a statement's rule, within this work.
pub(crate) fn stmt_below(
    alloc: Global,
    work: StepWork<'_, '_>,
    judge: &Judge<'_>,
    s: &CoreStmt,
    numbers: &[u32],
    d: &Tree,
) -> Result<bool, Stuck>
    requires canonical { AreCanonical (judge_table judge.now) }
    requires known { IsCanonical (cond_of d.now) }
    ensures { IfOk result (λ b. (b ≡ true) ↔ ((H : Held) →
        AtMost (stmt_rule_of (judge_program judge.now) (judge_rel judge.now) (judge_assignment judge.now) (stmt_of s.now) (map (judge_value judge.now) numbers.now) H) (value_of (cond_of d.now) H))) }
{
    match s {
        CoreStmt::Block(body) => block_below(work.pairs, judge, body.as_slice(), numbers, d),
        CoreStmt::If(_, _, _) => choice_below(work.pairs, judge, numbers, d),
        CoreStmt::While(_, _) => loop_below(work.pairs, judge, numbers, d),
        CoreStmt::SetField(receiver, field, _) => {
            let access = access(alloc, work.trees, judge.program, receiver, *field, true)?;
            sequence_below(work.pairs, judge, numbers, &access, d)
        }
        _ => plain_stmt_below(work.pairs, judge, s, numbers, d),
    }
}
