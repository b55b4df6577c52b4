//! The rules on trees: the value of a node from the numbers of its premises' conclusions.
ghost use Rattle.std.specs.Prelude.{◌≡◌, ◌==◌, ◌&&◌, ℕ, true, IfErr, IfOk, map};
ghost use Rattle.std.specs.List.{list_any};
ghost use Rattle.std.specs.Option.{option_copied};
ghost use Rattle.algebra.specs.declared.basic.Basic.TheVariants.{Const};
ghost use Rattle.algebra.specs.Basics.{seq_of};
ghost use Rattle.algebra.specs.HeldPaths.{Held};
ghost use Rattle.conditions.specs.Conditions.{cond_of, value_of, IsCanonical};
ghost use Rattle.core_program.specs.Locks.{path_of};
ghost use Rattle.core_program.specs.Views.{expr_of, exprs_from, program_of, stmt_of, stmts_from};
ghost use Rattle.rules.specs.Effect.{after_stmt, call_of};
ghost use Rattle.rules.specs.Mentions.{paths_of};
ghost use Rattle.book_check.specs.Judges.{judge_assignment, judge_program, judge_rel, judge_table, judge_value, AreCanonical};
ghost use Rattle.effects.specs.Rules.{block_value, rule_of, stmt_rule as stmt_rule_of, AreAllKnown, Value};
ghost use Rattle.book_check.specs.declared.refusal.Refusal.{Refusal};
ghost use Rattle.book_check.specs.Works.{IsUnbounded};
ghost use Rattle.book_check.specs.Charges.{known_value, IsKnownTree};
ghost use Rattle.book_check.specs.Blocks.{keeps_paths as keeps_paths_of, AreAbsorbed, IsAbsorbed};
ghost use Rattle.effects.specs.Bodies.{part_of};

use crate::charged::Charged;
use crate::judge::Judge;
use crate::lookups::{conclusion, line_tree};
use crate::names::{CallNames, at_call, before, with_required};
use crate::refusal::Refusal;
use crate::values::seq;
use crate::work::Work;
use algebra::Basic;
use conditions::Tree;
use core_program::{CoreExpr, CoreProgram, CoreStmt, path_of};
use effects::BodyPart;
use paths::{MethodId, Path};
use rules::required_of;
use std::alloc::{AllocError as NoMemory, Global};

/// How many numbers are noted at most.
const MOST_NOTED: usize = 16;

/// The value of the tree with this number, and then another.
fn conclusion_then(
    alloc: Global,
    work: Work<'_>,
    judge: &Judge<'_>,
    number: u32,
    later: &Tree,
) -> Result<Tree, NoMemory>
    requires canonical { AreCanonical (judge_table judge.now) }
    requires later { IsCanonical (cond_of later.now) }
    ensures known { IfOk result (λ r. IsCanonical (cond_of r)) }
    ensures value { IfOk result (λ r. (H : Held) → value_of (cond_of r) H ≡ seq_of (judge_value judge.now number H) (value_of (cond_of later.now) H)) }
{
    let first = conclusion(alloc, work, judge, number)?;
    Ok(seq(alloc, work, &first, later)?)
}

/// The path of each argument, or none.
pub fn paths(
    alloc: Global,
    program: &CoreProgram,
    args: &[CoreExpr],
) -> Result<Vec<Option<Path>>, NoMemory>
    ensures { IfOk result (λ paths. paths.items ≡ paths_of (program_of program.now) (exprs_from args.now)) }
{
    let mut paths = Vec::new(alloc);
    for arg in args {
        paths.push(path_of(program, arg))?;
    }
    Ok(paths)
}

/// What a callee's tree gives at a call on this receiver with these arguments, by their paths.
#[tactic(auto, using(crate::proofs::NameLemmas::call_value, crate::proofs::NameLemmas::call_all))]
fn call_by_paths(
    alloc: Global,
    work: Work<'_>,
    judge: &Judge<'_>,
    callee: MethodId,
    receiver: Option<&Path>,
    args: &[Option<Path>],
) -> Result<Tree, Refusal>
    requires { AreCanonical (judge_table judge.now) }
    ensures known { IfOk result (λ r. IsCanonical (cond_of r)) }
    ensures value { IfOk result (λ r. (H : Held) → value_of (cond_of r) H ≡
        call_of (judge_program judge.now) (judge_rel judge.now) (judge_assignment judge.now) callee (option_copied receiver.entry) args.now H) }
    ensures unbounded { IsUnbounded work.entry → IfErr result (λ e. e ≡ Refusal.NoMemory) }
{
    let rel = judge.sets.rel(callee);
    let none = Tree::Leaf(Basic::Const);
    let tree = line_tree(judge.table, judge.lines, callee, &none);
    let value = at_call(alloc, work, rel, receiver, args, tree)?;
    let names = CallNames {
        rel,
        receiver,
        args,
    };
    let required = required_of(judge.program, callee);
    with_required(alloc, work, &names, required, value)
}

/// The last part of a call.
pub fn call(
    alloc: Global,
    work: Work<'_>,
    judge: &Judge<'_>,
    callee: MethodId,
    receiver: &CoreExpr,
    args: &[CoreExpr],
) -> Result<Tree, Refusal>
    requires { AreCanonical (judge_table judge.now) }
    ensures known { IfOk result (λ r. IsCanonical (cond_of r)) }
    ensures value { IfOk result (λ r. (H : Held) → let P = judge_program judge.now in value_of (cond_of r) H ≡
        call_of P (judge_rel judge.now) (judge_assignment judge.now) callee (path_of P (expr_of receiver.now)) (paths_of P (exprs_from args.now)) H) }
    ensures unbounded { IsUnbounded work.entry → IfErr result (λ e. e ≡ Refusal.NoMemory) }
{
    let receiver = path_of(judge.program, receiver);
    let args = paths(alloc, judge.program, args)?;
    call_by_paths(
        alloc,
        work,
        judge,
        callee,
        receiver.as_ref(),
        args.as_slice(),
    )
}

/// The value of the rest of a block, and the numbers of trees that are known to change nothing before it.
#[derive(Drop)]
struct Rest {
    value: Tree,
    absorbed: Vec<u32>,
}

/// What is left behind the last statement.
fn nothing_left(alloc: Global) -> Rest
    ensures known { IsCanonical (cond_of result.value) }
    ensures absorbed { (V : ℕ → Value) → AreAbsorbed V (value_of (cond_of result.value)) result.absorbed.items }
    ensures value { (H : Held) → value_of (cond_of result.value) H ≡ Const }
{
    Rest {
        value: Tree::Leaf(Basic::Const),
        absorbed: Vec::new(alloc),
    }
}

/// Whether a list has a number.
fn has_number(numbers: &[u32], number: u32) -> bool
    ensures { result ≡ list_any (λ n. n == number) numbers.now }
{
    numbers.contains(&number)
}

/// The list with a number that is absorbed, where the list is short; no list where the number isn't.
fn noted(
    alloc: Global,
    absorbed: Vec<u32>,
    number: u32,
    is_absorbed: bool,
) -> Result<Vec<u32>, NoMemory>
    ensures { (V : ℕ → Value) (v : Value) → (is_absorbed ≡ true → AreAbsorbed V v absorbed.items × IsAbsorbed V v number) → IfOk result (λ r. AreAbsorbed V v r.items) }
{
    if !is_absorbed {
        return Ok(Vec::new(alloc));
    }
    if absorbed.len() >= MOST_NOTED {
        return Ok(absorbed);
    }
    let mut longer = absorbed;
    longer.push(number)?;
    Ok(longer)
}

/// Whether both hold.
fn both(first: bool, second: bool) -> bool
    ensures { result ≡ (first && second) }
{
    first && second
}

/// Whether the paths that are held behind a statement are those before it.
pub fn keeps_paths(s: &CoreStmt) -> bool
    ensures { result ≡ keeps_paths_of (stmt_of s.now) }
{
    !matches!(s, CoreStmt::Local { is_final: true, .. })
}

/// A statement of a block and then the rest of the block, from the rest's value.
fn statement_and_rest(
    alloc: Global,
    work: Work<'_>,
    judge: &Judge<'_>,
    s: &CoreStmt,
    number: u32,
    rest: Rest,
) -> Result<Rest, NoMemory>
    requires canonical { AreCanonical (judge_table judge.now) }
    requires known { IsCanonical (cond_of rest.value) }
    requires absorbed { AreAbsorbed (judge_value judge.now) (value_of (cond_of rest.value)) rest.absorbed.items }
    ensures known { IfOk result (λ r. IsCanonical (cond_of r.value)) }
    ensures absorbed { IfOk result (λ r. AreAbsorbed (judge_value judge.now) (value_of (cond_of r.value)) r.absorbed.items) }
    ensures value { IfOk result (λ r. (H : Held) → value_of (cond_of r.value) H ≡
        seq_of (judge_value judge.now number H) (value_of (cond_of rest.value) (after_stmt (judge_program judge.now) (stmt_of s.now) H))) }
{
    let keeps = keeps_paths(s);
    if both(keeps, has_number(rest.absorbed.as_slice(), number)) {
        return Ok(rest);
    }
    let Rest { value, absorbed } = rest;
    let later = before(alloc, work, judge.program, s, value)?;
    let whole = conclusion_then(alloc, work, judge, number, &later)?;
    let longer = noted(alloc, absorbed, number, both(keeps, whole.same(&later)))?;
    Ok(Rest {
        value: whole,
        absorbed: longer,
    })
}

/// The statements of a block, from the last to the first.
fn block(
    alloc: Global,
    work: Work<'_>,
    judge: &Judge<'_>,
    body: &[CoreStmt],
    numbers: &[u32],
) -> Result<Tree, NoMemory>
    requires { AreCanonical (judge_table judge.now) }
    ensures known { IfOk result (λ r. IsCanonical (cond_of r)) }
    ensures value { IfOk result (λ r. (H : Held) → value_of (cond_of r) H ≡
        block_value (judge_program judge.now) (stmts_from body.now) (map (judge_value judge.now) numbers.now) H) }
{
    let mut rest = nothing_left(alloc);
    let mut place = body.len().min(numbers.len());
    while place > 0 {
        place -= 1;
        rest = statement_and_rest(alloc, work, judge, &body[place], numbers[place], rest)?;
    }
    Ok(rest.value)
}

/// The trees that these numbers have.
fn premises(
    alloc: Global,
    trees: &Charged<'_>,
    judge: &Judge<'_>,
    numbers: &[u32],
) -> Result<Vec<Tree>, NoMemory>
    requires { AreCanonical (judge_table judge.now) }
    ensures known { IfOk result (λ found. AreAllKnown IsKnownTree trees.now found.items) }
    ensures values { IfOk result (λ found. map (known_value trees.now) found.items ≡ map (judge_value judge.now) numbers.now) }
{
    let mut found = Vec::with_capacity(alloc, numbers.len())?;
    for number in numbers {
        let tree = conclusion(alloc, trees.work, judge, *number)?;
        found.push(tree)?;
    }
    Ok(found)
}

/// The value that a part's rule gives, by the rule of any algebra.
fn part_rule(
    alloc: Global,
    work: Work<'_>,
    judge: &Judge<'_>,
    part: BodyPart<'_>,
    numbers: &[u32],
) -> Result<Tree, NoMemory>
    requires { AreCanonical (judge_table judge.now) }
    ensures known { IfOk result (λ r. IsCanonical (cond_of r)) }
    ensures value { IfOk result (λ r. (H : Held) → value_of (cond_of r) H ≡
        rule_of (judge_program judge.now) (judge_rel judge.now) (judge_assignment judge.now) (part_of part.entry) (map (judge_value judge.now) numbers.now) H) }
{
    let mut trees = Charged { work };
    let values = premises(alloc, &trees, judge, numbers)?;
    effects::rule(alloc, judge, &mut trees, part, values.as_slice())
}

/// The value of a statement's node. A block passes over statements that change nothing, so no tree is made for these.
fn stmt_rule(
    alloc: Global,
    work: Work<'_>,
    judge: &Judge<'_>,
    s: &CoreStmt,
    numbers: &[u32],
) -> Result<Tree, NoMemory>
    requires { AreCanonical (judge_table judge.now) }
    ensures known { IfOk result (λ r. IsCanonical (cond_of r)) }
    ensures value { IfOk result (λ r. (H : Held) → value_of (cond_of r) H ≡
        stmt_rule_of (judge_program judge.now) (judge_rel judge.now) (judge_assignment judge.now) (stmt_of s.now) (map (judge_value judge.now) numbers.now) H) }
{
    match s {
        CoreStmt::Block(body) => block(alloc, work, judge, body.as_slice(), numbers),
        _ => part_rule(alloc, work, judge, BodyPart::Stmt(s), numbers),
    }
}

/// The value that a part's rule gives, from the numbers of its premises' conclusions, within so much work.
pub fn rule(
    alloc: Global,
    work: Work<'_>,
    judge: &Judge<'_>,
    part: BodyPart<'_>,
    numbers: &[u32],
) -> Result<Tree, NoMemory>
    requires { AreCanonical (judge_table judge.now) }
    ensures known { IfOk result (λ r. IsCanonical (cond_of r)) }
    ensures value { IfOk result (λ r. (H : Held) → value_of (cond_of r) H ≡
        rule_of (judge_program judge.now) (judge_rel judge.now) (judge_assignment judge.now) (part_of part.entry) (map (judge_value judge.now) numbers.now) H) }
{
    match part {
        BodyPart::Expr(_) => part_rule(alloc, work, judge, part, numbers),
        BodyPart::Stmt(s) => stmt_rule(alloc, work, judge, s, numbers),
    }
}
