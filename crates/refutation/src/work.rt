//! The work that judging a certificate may take.
ghost use Rattle.std.specs.Prelude.{◌≡◌, ◌≤◌, ◌<◌, ◌+◌, ◌*◌, true, false, slice_get};
ghost use Rattle.core_program.specs.Sizes.{nodes_of, nodes_of_each, stmt_nodes, stmt_nodes_each};
ghost use Rattle.core_program.specs.Views.{program_of, expr_of, exprs_from, stmt_of, stmts_from};
ghost use Rattle.refutation.specs.Works.{body_work, rising};

use core_program::{CoreExpr, CoreProgram, CoreStmt};
use paths::MethodId;

/// The most work: parts of bodies, and overriding methods, that are looked at. A line that is looked at says something new at one set of
/// paths, and what is said there rises at most four times. So the program bounds the work, whoever wrote the lines.
pub(crate) const MOST_WORK: u64 = 1 << 31;

/// The work of a call beside that of its parts: the paths that its callee begins with; and that of an overriding method.
const WORK_OF_CALL: u64 = 8;

/// The work of a look at a method's body, where it is there.
pub(crate) fn body_cost(program: &CoreProgram, method: MethodId) -> u64
    ensures { result ≤ body_work (slice_get (program_of program.now).methods method) }
{
    match program.methods().get(method.0 as usize) {
        Some(method) => statement_cost(&method.body),
        None => 0,
    }
}

/// The work of looks at overriding methods, each counted once: their numbers ascend.
pub(crate) fn overriding_cost(methods: &[MethodId]) -> u64
    ensures { result ≤ 8 * rising 0 methods.now }
{
    let mut count = 0u64;
    let mut least = 0u64;
    for method in methods {
        let number = u64::from(method.0);
        if least <= number {
            count = count.saturating_add(1);
            least = number + 1;
        }
    }
    count.saturating_mul(WORK_OF_CALL)
}

/// Takes so much work from what is left, and says whether so much was left.
pub(crate) fn spend(left: &mut u64, cost: u64) -> bool
    ensures spent { result ≡ true → left.old ≡ left.new + cost }
    ensures over { result ≡ false → left.old < cost }
{
    if cost > *left {
        return false;
    }
    *left -= cost;
    true
}

/// The parts of an expression.
#[cycle(expression_cost)]
fn expression_cost(e: &CoreExpr) -> u64
    ensures { result ≤ 8 * nodes_of (expr_of e.now) }
{
    match e {
        CoreExpr::Int(_)
        | CoreExpr::Truth(_)
        | CoreExpr::Null
        | CoreExpr::This
        | CoreExpr::Var { .. } => 1,
        CoreExpr::Not(a) | CoreExpr::Neg(a) | CoreExpr::Get(a, _) => {
            expression_cost(a).saturating_add(1)
        }
        CoreExpr::Binary(_, a, b) | CoreExpr::And(a, b) | CoreExpr::Or(a, b) => expression_cost(a)
            .saturating_add(expression_cost(b))
            .saturating_add(1),
        CoreExpr::Call(a, _, args) => expression_cost(a)
            .saturating_add(arguments_cost(args.as_slice()))
            .saturating_add(WORK_OF_CALL),
        CoreExpr::New(_, args) => arguments_cost(args.as_slice()).saturating_add(1),
    }
}

/// The parts of arguments.
#[cycle(expression_cost)]
fn arguments_cost(es: &[CoreExpr]) -> u64
    ensures { result ≤ 8 * nodes_of_each (exprs_from es.now) }
{
    match es.split_first() {
        Some((e, rest)) => expression_cost(e).saturating_add(arguments_cost(rest)),
        None => 0,
    }
}

/// The parts of a statement.
#[cycle(statement_cost)]
fn statement_cost(s: &CoreStmt) -> u64
    ensures { result ≤ 8 * stmt_nodes (stmt_of s.now) }
{
    match s {
        CoreStmt::Empty | CoreStmt::Return(None) => 1,
        CoreStmt::Block(body) => block_cost(body.as_slice()).saturating_add(1),
        CoreStmt::Local { value: e, .. }
        | CoreStmt::SetVar(_, e)
        | CoreStmt::Do(e, _)
        | CoreStmt::Return(Some(e))
        | CoreStmt::Print(e)
        | CoreStmt::Start(e) => expression_cost(e).saturating_add(1),
        CoreStmt::SetField(a, _, b) => expression_cost(a)
            .saturating_add(expression_cost(b))
            .saturating_add(1),
        CoreStmt::If(c, a, b) => expression_cost(c)
            .saturating_add(statement_cost(a))
            .saturating_add(statement_cost(b))
            .saturating_add(1),
        CoreStmt::While(c, a) => expression_cost(c)
            .saturating_add(statement_cost(a))
            .saturating_add(1),
        CoreStmt::Sync(_, a) => statement_cost(a).saturating_add(1),
    }
}

/// The parts of statements.
#[cycle(statement_cost)]
fn block_cost(statements: &[CoreStmt]) -> u64
    ensures { result ≤ 8 * stmt_nodes_each (stmts_from statements.now) }
{
    let mut cost = 0u64;
    for s in statements {
        cost = cost.saturating_add(statement_cost(s));
    }
    cost
}
