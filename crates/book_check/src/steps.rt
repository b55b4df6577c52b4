//! The steps of a derivation: whether a node's conclusion is at or above its rule's value.
ghost use Rattle.std.specs.Prelude.{◌≡◌, ◌↔◌, ℕ, map, true, IfErr, IfOk, IfSome};
ghost use Rattle.std.specs.List.{list_all};
ghost use Rattle.algebra.specs.HeldPaths.{Held};
ghost use Rattle.conditions.specs.Conditions.{cond_of, value_of, IsCanonical};
ghost use Rattle.rules.specs.Rules.{AtMost};
ghost use Rattle.effects.specs.Bodies.{part_of};
ghost use Rattle.book_check.specs.declared.refusal.Refusal.{Refusal};
ghost use Rattle.book_check.specs.Conclusions.{conclusions, tests_only};
ghost use Rattle.book_check.specs.Judges.{judge_assignment, judge_program, judge_rel, judge_table, judge_value, own_near, AreCanonical};
ghost use Rattle.book_check.specs.Works.{IsUnbounded};
ghost use Rattle.book_check.specs.Nearness.{is_near as is_near_of, conclusion_numbers, steps_near, AreAllNear, AreOwnNear};
ghost use Rattle.effects.specs.Rules.{rule_of, Value};

use crate::branching::plain_step;
use crate::chain::is_step_at_end;
use crate::judge::Judge;
use crate::lookups::{is_near, is_own_near, tree_at};
use crate::names::tests_either;
use crate::refusal::Refusal;
use crate::rule_values::rule;
use crate::sequences::{expr_below, stmt_below};
use crate::stuck::Stuck;
use crate::values::below;
use crate::work::{StepWork, Work};
use books::Nodes;
use conditions::Tree;
use core_program::CoreExpr;
use effects::BodyPart;
use paths::MethodId;
use std::alloc::{AllocError as NoMemory, Global};
use std::cell::Cell;

/// How many pairs of subtrees the step of a node may visit where no tree is made for its value. What needs more is begun anew.
const LITTLE: u32 = 1 << 8;

/// What the steps of a method's derivation are judged by, and the work that may be made where they aren't near the method.
#[derive(Clone, Copy)]
pub struct Steps<'a> {
    pub judge: &'a Judge<'a>,
    pub method: MethodId,
    pub left: Work<'a>,
}

/// The numbers of the conclusions of nodes.
fn numbers<F: Nodes>(alloc: Global, nodes: F) -> Result<Vec<u32>, NoMemory>
    requires { F.AreKept nodes }
    ensures numbers { IfOk result (λ numbers. numbers.items ≡ conclusion_numbers (F.nodes nodes)) }
    ensures values { IfOk result (λ numbers. (V : ℕ → Value) → map V numbers.items ≡ conclusions V (F.nodes nodes)) }
{
    let mut numbers = Vec::new(alloc);
    let mut rest = nodes;
    while let Some(first) = rest.first() {
        numbers.push(first.number)?;
        rest = first.rest;
    }
    Ok(numbers)
}

/// Whether a tree is at or above the value that a part's rule gives, which is made.
fn is_step_by_value(
    alloc: Global,
    work: Work<'_>,
    judge: &Judge<'_>,
    part: BodyPart<'_>,
    numbers: &[u32],
    d: &Tree,
) -> Result<bool, Refusal>
    requires canonical { AreCanonical (judge_table judge.now) }
    requires known { IsCanonical (cond_of d.now) }
    ensures step { IfOk result (λ b. (b ≡ true) ↔ ((H : Held) →
        AtMost (rule_of (judge_program judge.now) (judge_rel judge.now) (judge_assignment judge.now) (part_of part.entry) (map (judge_value judge.now) numbers.now) H) (value_of (cond_of d.now) H))) }
    ensures unbounded { IsUnbounded work.entry → IfErr result (λ e. e ≡ Refusal.NoMemory) }
{
    let value = rule(alloc, work, judge, part, numbers)?;
    below(work, &value, d)
}

/// Whether a tree is at or above the value that a part's rule gives, with no tree for that value.
fn is_step_by_pairs(
    alloc: Global,
    work: StepWork<'_, '_>,
    judge: &Judge<'_>,
    part: BodyPart<'_>,
    numbers: &[u32],
    d: &Tree,
) -> Result<bool, Stuck>
    requires canonical { AreCanonical (judge_table judge.now) }
    requires known { IsCanonical (cond_of d.now) }
    ensures { IfOk result (λ b. (b ≡ true) ↔ ((H : Held) →
        AtMost (rule_of (judge_program judge.now) (judge_rel judge.now) (judge_assignment judge.now) (part_of part.entry) (map (judge_value judge.now) numbers.now) H) (value_of (cond_of d.now) H))) }
{
    match part {
        BodyPart::Expr(e) => expr_below(alloc, work, judge, e, numbers, d),
        BodyPart::Stmt(s) => stmt_below(alloc, work, judge, s, numbers, d),
    }
}

/// Whether a tree is at or above the value that a part's rule gives, with no tree for that value and little work; `None` where that
/// doesn't tell it.
fn is_step_by_little(
    alloc: Global,
    steps: &Steps<'_>,
    part: BodyPart<'_>,
    numbers: &[u32],
    d: &Tree,
) -> Option<bool>
    requires canonical { AreCanonical (judge_table steps.now.judge.now) }
    requires known { IsCanonical (cond_of d.now) }
    ensures { IfSome result (λ b. (b ≡ true) ↔ ((H : Held) →
        AtMost (rule_of (judge_program steps.now.judge.now) (judge_rel steps.now.judge.now) (judge_assignment steps.now.judge.now) (part_of part.entry) (map (judge_value steps.now.judge.now) numbers.now) H) (value_of (cond_of d.now) H))) }
{
    let left = Cell::new(LITTLE);
    let work = StepWork {
        trees: steps.left,
        pairs: Work::Bounded(&left),
    };
    match is_step_by_pairs(alloc, work, steps.judge, part, numbers, d) {
        Ok(is) => Some(is),
        Err(_) => None,
    }
}

/// Whether a tree is at or above the value that a part's rule gives, where that takes more than a little work: by the value, and by
/// pairs where the value would be too large a tree, or memory is refused, which pairs don't ask for.
fn is_step_by_work(
    alloc: Global,
    work: Work<'_>,
    judge: &Judge<'_>,
    part: BodyPart<'_>,
    numbers: &[u32],
    d: &Tree,
) -> Result<bool, Refusal>
    requires canonical { AreCanonical (judge_table judge.now) }
    requires known { IsCanonical (cond_of d.now) }
    ensures { IfOk result (λ b. (b ≡ true) ↔ ((H : Held) →
        AtMost (rule_of (judge_program judge.now) (judge_rel judge.now) (judge_assignment judge.now) (part_of part.entry) (map (judge_value judge.now) numbers.now) H) (value_of (cond_of d.now) H))) }
{
    match is_step_by_value(alloc, work, judge, part, numbers, d) {
        Ok(is) => Ok(is),
        Err(Refusal::Work) => Err(Refusal::Work),
        Err(Refusal::NoMemory) => {
            let work = StepWork {
                trees: work,
                pairs: work,
            };
            Ok(is_step_by_pairs(alloc, work, judge, part, numbers, d)?)
        }
    }
}

/// Whether a tree is at or above the value that a part's rule gives, within no bound: with no tree for that value where that can be told.
fn is_step_freely(
    alloc: Global,
    judge: &Judge<'_>,
    part: BodyPart<'_>,
    numbers: &[u32],
    d: &Tree,
) -> Result<bool, Refusal>
    requires canonical { AreCanonical (judge_table judge.now) }
    requires known { IsCanonical (cond_of d.now) }
    ensures step { IfOk result (λ b. (b ≡ true) ↔ ((H : Held) →
        AtMost (rule_of (judge_program judge.now) (judge_rel judge.now) (judge_assignment judge.now) (part_of part.entry) (map (judge_value judge.now) numbers.now) H) (value_of (cond_of d.now) H))) }
    ensures free { IfErr result (λ e. e ≡ Refusal.NoMemory) }
{
    let work = StepWork {
        trees: Work::Unbounded,
        pairs: Work::Unbounded,
    };
    match is_step_by_pairs(alloc, work, judge, part, numbers, d) {
        Ok(is) => Ok(is),
        Err(Stuck::NoMemory) => Err(Refusal::NoMemory),
        Err(Stuck::Undecided) => is_step_by_value(alloc, Work::Unbounded, judge, part, numbers, d),
    }
}

/// Whether a part calls no method but one whose tree tests its relevant paths only.
fn calls_near(judge: &Judge<'_>, part: BodyPart<'_>) -> bool
    ensures { ((m : ℕ) → own_near judge.now m ≡ true) → result ≡ true }
{
    match part {
        BodyPart::Expr(CoreExpr::Call(_, callee, _)) => is_own_near(judge, *callee),
        _ => true,
    }
}

/// Whether the trees with these numbers test only paths near the method.
fn are_near(steps: &Steps<'_>, numbers: &[u32]) -> bool
    ensures { result ≡ list_all (is_near_of (steps_near steps.now) (judge_table steps.now.judge.now)) numbers.now }
{
    numbers
        .iter()
        .all(|number| is_near(steps.judge, steps.method, *number))
}

/// Whether all trees that a step looks at test only paths near the method.
fn is_step_near(steps: &Steps<'_>, part: BodyPart<'_>, numbers: &[u32], d: &Tree) -> bool
    ensures { AreOwnNear steps.now.judge.now → tests_only (steps_near steps.now) (cond_of d.now) ≡ true →
        list_all (is_near_of (steps_near steps.now) (judge_table steps.now.judge.now)) numbers.now ≡ true → result ≡ true }
{
    let rel = steps.judge.sets.rel(steps.method);
    let loc = steps.judge.sets.loc(steps.method);
    tests_either(rel, loc, d) && are_near(steps, numbers) && calls_near(steps.judge, part)
}

/// Whether a tree is at or above the value that a part's rule gives. The value of a near step is a small tree, which is made within
/// no bound.
fn is_above_rule(
    alloc: Global,
    steps: &Steps<'_>,
    part: BodyPart<'_>,
    numbers: &[u32],
    d: &Tree,
) -> Result<bool, Refusal>
    requires canonical { AreCanonical (judge_table steps.now.judge.now) }
    requires known { IsCanonical (cond_of d.now) }
    ensures step { IfOk result (λ b. (b ≡ true) ↔ ((H : Held) →
        AtMost (rule_of (judge_program steps.now.judge.now) (judge_rel steps.now.judge.now) (judge_assignment steps.now.judge.now) (part_of part.entry) (map (judge_value steps.now.judge.now) numbers.now) H) (value_of (cond_of d.now) H))) }
    ensures near { AreOwnNear steps.now.judge.now → tests_only (steps_near steps.now) (cond_of d.now) ≡ true →
        list_all (is_near_of (steps_near steps.now) (judge_table steps.now.judge.now)) numbers.now ≡ true → IfErr result (λ e. e ≡ Refusal.NoMemory) }
    ensures free { IsUnbounded steps.now.left → IfErr result (λ e. e ≡ Refusal.NoMemory) }
{
    if is_step_at_end(alloc, steps.judge, part, numbers, d) {
        return Ok(true);
    }
    if let Some(is) = is_step_by_little(alloc, steps, part, numbers, d) {
        return Ok(is);
    }
    if is_step_near(steps, part, numbers, d) {
        return is_step_by_value(alloc, Work::Unbounded, steps.judge, part, numbers, d);
    }
    let Work::Bounded(_) = steps.left else {
        return is_step_freely(alloc, steps.judge, part, numbers, d);
    };
    is_step_by_work(alloc, steps.left, steps.judge, part, numbers, d)
}

/// Whether a node's conclusion is at or above its rule's value. Want of memory where its number has no tree, which no book has. A node
/// meets no bound where its tree and those of its premises test only paths near the method, and the trees of all method lines only
/// relevant ones.
pub fn is_step<F: Nodes>(
    alloc: Global,
    steps: &Steps<'_>,
    part: BodyPart<'_>,
    number: u32,
    premises: F,
) -> Result<bool, Refusal>
    requires kept { F.AreKept premises }
    requires canonical { AreCanonical (judge_table steps.now.judge.now) }
    ensures step { IfOk result (λ b. (b ≡ true) ↔ ((H : Held) →
        AtMost (rule_of (judge_program steps.now.judge.now) (judge_rel steps.now.judge.now) (judge_assignment steps.now.judge.now) (part_of part.entry) (conclusions (judge_value steps.now.judge.now) (F.nodes premises)) H) (judge_value steps.now.judge.now number H))) }
    ensures near { AreOwnNear steps.now.judge.now → is_near_of (steps_near steps.now) (judge_table steps.now.judge.now) number ≡ true →
        AreAllNear (steps_near steps.now) (judge_table steps.now.judge.now) (F.nodes premises) → IfErr result (λ e. e ≡ Refusal.NoMemory) }
    ensures free { IsUnbounded steps.now.left → IfErr result (λ e. e ≡ Refusal.NoMemory) }
{
    let judge = steps.judge;
    let Some(d) = tree_at(judge.table, number) else {
        return Err(Refusal::NoMemory);
    };
    if let Some(is) = plain_step(judge.program, judge.table, part, premises, d) {
        return Ok(is);
    }
    let numbers = numbers(alloc, premises)?;
    is_above_rule(alloc, steps, part, numbers.as_slice(), d)
}
