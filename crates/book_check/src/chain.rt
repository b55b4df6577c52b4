//! Steps whose conclusion is an error wherever one of the paths that it tests isn't held: they are judged where all of these are held.
//! There the values of premises, accesses and calls are basics, so that no tree is made. The chain of a tree is its tests along the
//! held branches. The basic of a value at a chain is what the value is where each path of the chain is held, if that is known.
ghost use Rattle.std.specs.Prelude.{◌≡◌, true, map, IfSome};
ghost use Rattle.std.specs.List.{list_all};
ghost use Rattle.std.specs.Option.{option_copied};
ghost use Rattle.algebra.specs.declared.basic.Basic.TheVariants.{Error};
ghost use Rattle.algebra.specs.Basics.{lift_of};
ghost use Rattle.algebra.specs.HeldPaths.{Held, with_path};
ghost use Rattle.conditions.specs.Conditions.{cond_of, value_of, LeafC};
ghost use Rattle.core_program.specs.Locks.{path_of};
ghost use Rattle.core_program.specs.Views.{expr_of, exprs_from, program_of, stmt_of, stmts_from};
ghost use Rattle.rules.specs.Effect.{access_of, call_of};
ghost use Rattle.rules.specs.Mentions.{paths_of};
ghost use Rattle.rules.specs.Rules.{AtMost};
ghost use Rattle.book_check.specs.Chains.{EndsAt, HoldsAll};
ghost use Rattle.book_check.specs.Judges.{call_name as call_name_of, judge_assignment, judge_program, judge_rel, judge_value, named_set};
ghost use Rattle.effects.specs.Rules.{block_value, expr_rule as expr_rule_of, in_sequence, lock_value, rule_of, stmt_rule as stmt_rule_of};
ghost use Rattle.effects.specs.Bodies.{part_of};

use crate::judge::Judge;
use crate::lookups::{line_number, tree_at};
use crate::names::call_name;
use crate::pairs::all_keep_paths;
use crate::rule_values::paths;
use algebra::Basic;
use conditions::Tree;
use core_program::{CoreExpr, CoreProgram, CoreStmt, path_of};
use effects::{BodyPart, Branching, access_value};
use paths::{FieldId, MethodId, Path};
use rules::required_of;
use std::alloc::Global;

/// Whether a tree is an error at every set.
fn is_error(t: &Tree) -> bool
    ensures { result ≡ true → cond_of t.now ≡ LeafC Error }
{
    matches!(t, Tree::Leaf(Basic::Error))
}

/// The basic at the end of the held branches, where each other branch is an error.
fn last_basic(t: &Tree) -> Option<Basic>
    ensures { IfSome result (λ b. EndsAt b (cond_of t.now)) }
{
    match t {
        Tree::Leaf(basic) => Some(*basic),
        Tree::Test(_, held, free) => {
            if !is_error(free) {
                return None;
            }
            last_basic(held)
        }
    }
}

/// What follows the test of a path along the held branches.
#[tactic(auto, using(crate::proofs::ChainLemmas::first_held, crate::proofs::ChainLemmas::later_held))]
fn behind<'a>(chain: &'a Tree, path: &Path) -> Option<&'a Tree>
    ensures held { IfSome result (λ r. (H : Held) → HoldsAll (cond_of chain.now) H → H path.now ≡ true) }
    ensures rest { IfSome result (λ r. (H : Held) → HoldsAll (cond_of chain.now) H → HoldsAll (cond_of r.now) H) }
{
    match chain {
        Tree::Leaf(_) => None,
        Tree::Test(root, held, _) => {
            if root.same(path) {
                return Some(held);
            }
            behind(held, path)
        }
    }
}

/// The basic of a tree at a chain.
fn basic_at(t: &Tree, chain: &Tree) -> Option<Basic>
    ensures { IfSome result (λ b. (H : Held) → HoldsAll (cond_of chain.now) H → value_of (cond_of t.now) H ≡ b) }
{
    match t {
        Tree::Leaf(basic) => Some(*basic),
        Tree::Test(path, held, _) => {
            let rest = behind(chain, path)?;
            basic_at(held, rest)
        }
    }
}

/// The basic of the tree with this number at a chain.
fn number_at(judge: &Judge<'_>, chain: &Tree, number: u32) -> Option<Basic>
    ensures { IfSome result (λ b. (H : Held) → HoldsAll (cond_of chain.now) H → judge_value judge.now number H ≡ b) }
{
    let tree = tree_at(judge.table, number)?;
    basic_at(tree, chain)
}

/// The basic of the trees with these numbers, one after another, at a chain.
fn sequence_at(judge: &Judge<'_>, chain: &Tree, numbers: &[u32]) -> Option<Basic>
    ensures { IfSome result (λ b. (H : Held) → HoldsAll (cond_of chain.now) H → in_sequence (map (judge_value judge.now) numbers.now) H ≡ b) }
{
    let mut all = Basic::Const;
    let mut rest = numbers;
    'numbers: while let Some((number, others)) = rest.split_first() {
        let next = number_at(judge, chain, *number)?;
        all = all.seq(next);
        rest = others;
    }
    Some(all)
}

/// The basic of reading or writing a field of this receiver at a chain.
fn access_at(
    program: &CoreProgram,
    chain: &Tree,
    receiver: &CoreExpr,
    field: FieldId,
    writes: bool,
) -> Option<Basic>
    ensures { IfSome result (λ b. (H : Held) → HoldsAll (cond_of chain.now) H →
        access_of (program_of program.now) writes field (path_of (program_of program.now) (expr_of receiver.now)) H ≡ b) }
{
    match access_value(program, receiver, field, writes) {
        Branching::Always(basic) => Some(basic),
        Branching::Where(path, held, _) => {
            behind(chain, &path)?;
            Some(held)
        }
    }
}

/// The basic of a callee's tree at a chain of the caller: at the set that the callee begins with.
fn called_at(
    chain: &Tree,
    rel: &[Path],
    receiver: Option<&Path>,
    args: &[Option<Path>],
    t: &Tree,
) -> Option<Basic>
    ensures { IfSome result (λ b. (H : Held) → HoldsAll (cond_of chain.now) H →
        value_of (cond_of t.now) (named_set (call_name_of rel.now (option_copied receiver.entry) args.now) H) ≡ b) }
{
    match t {
        Tree::Leaf(basic) => Some(*basic),
        Tree::Test(path, held, _) => {
            let name = call_name(rel, receiver, args, path)?;
            behind(chain, &name)?;
            called_at(chain, rel, receiver, args, held)
        }
    }
}

/// Whether each of a callee's required paths has a name here that is one of the chain's paths.
fn has_required(
    chain: &Tree,
    rel: &[Path],
    receiver: Option<&Path>,
    args: &[Option<Path>],
    required: &[Path],
) -> bool
    ensures { result ≡ true → (H : Held) → HoldsAll (cond_of chain.now) H →
        list_all (named_set (call_name_of rel.now (option_copied receiver.entry) args.now) H) required.now ≡ true }
{
    let Some((path, rest)) = required.split_first() else {
        return true;
    };
    let Some(name) = call_name(rel, receiver, args, path) else {
        return false;
    };
    if behind(chain, &name).is_none() {
        return false;
    }
    has_required(chain, rel, receiver, args, rest)
}

/// The basic of the last part of a call at a chain, by the paths of its receiver and its arguments.
fn call_by_paths(
    judge: &Judge<'_>,
    chain: &Tree,
    callee: MethodId,
    receiver: Option<&Path>,
    args: &[Option<Path>],
) -> Option<Basic>
    ensures { IfSome result (λ b. (H : Held) → HoldsAll (cond_of chain.now) H →
        call_of (judge_program judge.now) (judge_rel judge.now) (judge_assignment judge.now) callee (option_copied receiver.entry) args.now H ≡ b) }
{
    let rel = judge.sets.rel(callee);
    if !has_required(
        chain,
        rel,
        receiver,
        args,
        required_of(judge.program, callee),
    ) {
        return None;
    }
    let number = line_number(judge.lines, callee)?;
    let tree = tree_at(judge.table, number)?;
    called_at(chain, rel, receiver, args, tree)
}

/// The basic of the last part of a call at a chain.
fn call_at(
    alloc: Global,
    judge: &Judge<'_>,
    chain: &Tree,
    callee: MethodId,
    receiver: &CoreExpr,
    args: &[CoreExpr],
) -> Option<Basic>
    ensures { IfSome result (λ b. (H : Held) → HoldsAll (cond_of chain.now) H →
        call_of (judge_program judge.now) (judge_rel judge.now) (judge_assignment judge.now) callee (path_of (judge_program judge.now) (expr_of receiver.now))
        (paths_of (judge_program judge.now) (exprs_from args.now)) H ≡ b) }
{
    let receiver = path_of(judge.program, receiver);
    let Ok(args) = paths(alloc, judge.program, args) else {
        return None;
    };
    call_by_paths(judge, chain, callee, receiver.as_ref(), args.as_slice())
}

/// The basic of an expression's rule at a chain, where the rule ends in an access or a call.
fn expr_at(
    alloc: Global,
    judge: &Judge<'_>,
    chain: &Tree,
    e: &CoreExpr,
    numbers: &[u32],
) -> Option<Basic>
    ensures { IfSome result (λ b. (H : Held) → HoldsAll (cond_of chain.now) H →
        expr_rule_of (judge_program judge.now) (judge_rel judge.now) (judge_assignment judge.now) (expr_of e.now) (map (judge_value judge.now) numbers.now) H ≡ b) }
{
    match e {
        CoreExpr::Get(receiver, field) => {
            let before = sequence_at(judge, chain, numbers)?;
            let access = access_at(judge.program, chain, receiver, *field, false)?;
            Some(before.seq(access))
        }
        CoreExpr::Call(receiver, callee, args) => {
            let before = sequence_at(judge, chain, numbers)?;
            let call = call_at(alloc, judge, chain, *callee, receiver, args.as_slice())?;
            Some(before.seq(call))
        }
        _ => None,
    }
}

/// The basic of a block at a chain, where its statements keep the paths that are held.
fn block_at(judge: &Judge<'_>, chain: &Tree, body: &[CoreStmt], numbers: &[u32]) -> Option<Basic>
    ensures { IfSome result (λ b. (H : Held) → HoldsAll (cond_of chain.now) H →
        block_value (judge_program judge.now) (stmts_from body.now) (map (judge_value judge.now) numbers.now) H ≡ b) }
{
    if body.len() != numbers.len() {
        return None;
    }
    if !all_keep_paths(body) {
        return None;
    }
    sequence_at(judge, chain, numbers)
}

/// The basic of a tree at a chain to which this path is added.
#[tactic(auto, using(crate::proofs::ChainLemmas::lock_held, crate::proofs::ChainLemmas::under_held))]
fn basic_under(t: &Tree, chain: &Tree, lock: &Path) -> Option<Basic>
    ensures { IfSome result (λ b. (H : Held) → HoldsAll (cond_of chain.now) H → value_of (cond_of t.now) (with_path lock.now H) ≡ b) }
{
    match t {
        Tree::Leaf(basic) => Some(*basic),
        Tree::Test(path, held, _) => {
            if lock.same(path) {
                return basic_under(held, chain, lock);
            }
            let rest = behind(chain, path)?;
            basic_under(held, rest, lock)
        }
    }
}

/// Whether a basic is the same under a lock.
fn is_lifted(basic: Basic) -> bool
    ensures { result ≡ true → lift_of basic ≡ basic }
{
    !matches!(basic, Basic::Const | Basic::Mover)
}

/// The basic of a synchronized part at a chain, where the lock changes nothing.
fn locked_at(judge: &Judge<'_>, chain: &Tree, lock: &Path, numbers: &[u32]) -> Option<Basic>
    ensures { IfSome result (λ b. (H : Held) → HoldsAll (cond_of chain.now) H → lock_value lock.now (map (judge_value judge.now) numbers.now) H ≡ b) }
{
    let (number, _) = numbers.split_first()?;
    let tree = tree_at(judge.table, *number)?;
    let basic = basic_under(tree, chain, lock)?;
    if !is_lifted(basic) {
        return None;
    }
    Some(basic)
}

/// The basic of a statement's rule at a chain, where the rule ends in an access, or is a block's or that of a synchronized part.
fn stmt_at(judge: &Judge<'_>, chain: &Tree, s: &CoreStmt, numbers: &[u32]) -> Option<Basic>
    ensures { IfSome result (λ b. (H : Held) → HoldsAll (cond_of chain.now) H →
        stmt_rule_of (judge_program judge.now) (judge_rel judge.now) (judge_assignment judge.now) (stmt_of s.now) (map (judge_value judge.now) numbers.now) H ≡ b) }
{
    match s {
        CoreStmt::Block(body) => block_at(judge, chain, body.as_slice(), numbers),
        CoreStmt::SetField(receiver, field, _) => {
            let before = sequence_at(judge, chain, numbers)?;
            let access = access_at(judge.program, chain, receiver, *field, true)?;
            Some(before.seq(access))
        }
        CoreStmt::Sync(lock, _) => locked_at(judge, chain, lock, numbers),
        _ => None,
    }
}

/// The basic of a part's rule at a chain.
fn part_at(
    alloc: Global,
    judge: &Judge<'_>,
    chain: &Tree,
    part: BodyPart<'_>,
    numbers: &[u32],
) -> Option<Basic>
    ensures { IfSome result (λ b. (H : Held) → HoldsAll (cond_of chain.now) H →
        rule_of (judge_program judge.now) (judge_rel judge.now) (judge_assignment judge.now) (part_of part.entry) (map (judge_value judge.now) numbers.now) H ≡ b) }
{
    match part {
        BodyPart::Expr(e) => expr_at(alloc, judge, chain, e, numbers),
        BodyPart::Stmt(s) => stmt_at(judge, chain, s, numbers),
    }
}

/// Whether a conclusion is at or above the value of a part's rule, judged where each path that it tests is held. `false` says nothing.
pub(crate) fn is_step_at_end(
    alloc: Global,
    judge: &Judge<'_>,
    part: BodyPart<'_>,
    numbers: &[u32],
    d: &Tree,
) -> bool
    ensures { result ≡ true → (H : Held) →
        AtMost (rule_of (judge_program judge.now) (judge_rel judge.now) (judge_assignment judge.now) (part_of part.entry) (map (judge_value judge.now) numbers.now) H) (value_of (cond_of d.now) H) }
{
    let Some(last) = last_basic(d) else {
        return false;
    };
    let Some(value) = part_at(alloc, judge, d, part, numbers) else {
        return false;
    };
    value.below(last)
}
