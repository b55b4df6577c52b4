//! The work of a book, as far as it is little: what is left of a bound behind it.
ghost use Rattle.std.specs.Prelude.{◌≡◌, ◌<◌, ◌≤◌, ◌+◌, false, map, MatchOption};
ghost use Rattle.conditions.specs.Conditions.{cond_of};
ghost use Rattle.core_program.specs.Views.{expr_of, method_of, program_of, stmt_of};
ghost use Rattle.effects.specs.Bodies.{list_of, part_of};
ghost use Rattle.effects.specs.Parts.{parts_of, ExprP, StmtP};
ghost use Rattle.books.specs.Derivations.{node};
ghost use Rattle.book_check.specs.BookWork.{book_work, line_work, lines_work, makes_tree as makes_tree_of, most_book_work, own_leaves as own_leaves_of, premises_work, step_work as step_work_of, value_work as value_work_of};

use crate::leaves::{doubled, leaves_among, numbered_leaves, product};
use crate::pairs::all_keep_paths;
use books::{FirstLine, Lines, Nodes};
use conditions::Tree;
use core_program::{CoreExpr, CoreMethod, CoreProgram, CoreStmt};
use effects::{BodyPart, InnerParts, inner_parts};

/// A book with no more work than this is judged, whatever its trees test.
pub const MOST_WORK: u32 = 1 << 26;

/// Whether a tree is made for a statement's value.
fn stmt_makes_tree(s: &CoreStmt) -> bool
    ensures { result ≡ makes_tree_of (StmtP (stmt_of s.now)) }
{
    match s {
        CoreStmt::Block(body) => !all_keep_paths(body.as_slice()),
        _ => false,
    }
}

/// Whether a tree is made for a part's value.
fn makes_tree(part: BodyPart<'_>) -> bool
    ensures { result ≡ makes_tree_of (part_of part.entry) }
{
    match part {
        BodyPart::Expr(_) => false,
        BodyPart::Stmt(s) => stmt_makes_tree(s),
    }
}

/// How many leaves an expression's own trees have at most.
fn expr_leaves(e: &CoreExpr) -> u32
    ensures { result ≡ own_leaves_of (ExprP (expr_of e.now)) }
{
    match e {
        CoreExpr::Call(_, _, _) => 257,
        CoreExpr::Get(_, _) => 3,
        _ => 2,
    }
}

/// How many leaves a statement's own trees have at most.
fn stmt_leaves(s: &CoreStmt) -> u32
    ensures { result ≡ own_leaves_of (StmtP (stmt_of s.now)) }
{
    match s {
        CoreStmt::SetField(_, _, _) => 3,
        _ => 2,
    }
}

/// How many leaves a part's own trees have at most.
fn own_leaves(part: BodyPart<'_>) -> u32
    ensures { result ≡ own_leaves_of (part_of part.entry) }
{
    match part {
        BodyPart::Expr(e) => expr_leaves(e),
        BodyPart::Stmt(s) => stmt_leaves(s),
    }
}

/// How many leaves the value of a part's rule has, where its premises' trees have so many together; `None` where more than so many.
fn value_work(part: BodyPart<'_>, before: u32, most: u32) -> Option<u32>
    ensures { MatchOption result (most < value_work_of (part_of part.entry) before) (λ n. (n ≡ value_work_of (part_of part.entry) before) × (n ≤ most)) }
{
    if makes_tree(part) {
        return doubled(before, most);
    }
    let own = own_leaves(part);
    let Some(all) = before.checked_add(own) else {
        return None;
    };
    product(all, all, most)
}

/// The work of a node itself; `None` where it is more than so much.
fn step_work<F: Nodes>(
    table: &[Tree],
    part: BodyPart<'_>,
    number: u32,
    premises: F,
    most: u32,
) -> Option<u32>
    requires { F.AreKept premises }
    ensures { MatchOption result (most < step_work_of (map cond_of table.now) (part_of part.entry) number (F.nodes premises))
        (λ n. (n ≡ step_work_of (map cond_of table.now) (part_of part.entry) number (F.nodes premises)) × (n ≤ most)) }
{
    let Some(most_of) = numbered_leaves(table, number, most) else {
        return None;
    };
    let Some(before) = leaves_among(table, premises, most) else {
        return None;
    };
    let Some(value) = value_work(part, before, most) else {
        return None;
    };
    product(most_of, value, most)
}

/// What is left behind the work of a node and of all below it; `None` where that is more.
#[cycle(spending)]
fn left_behind_node<F: Nodes>(
    table: &[Tree],
    part: BodyPart<'_>,
    number: u32,
    premises: F,
    left: u32,
) -> Option<u32>
    requires { F.AreKept premises }
    ensures { MatchOption result (left < step_work_of (map cond_of table.now) (part_of part.entry) number (F.nodes premises) + premises_work (map cond_of table.now) (parts_of (part_of part.entry)) (F.nodes premises))
        (λ n. n + (step_work_of (map cond_of table.now) (part_of part.entry) number (F.nodes premises) + premises_work (map cond_of table.now) (parts_of (part_of part.entry)) (F.nodes premises)) ≡ left) }
{
    let Some(work) = step_work(table, part, number, premises, left) else {
        return None;
    };
    left_behind_premises(table, inner_parts(part), premises, left - work)
}

/// What is left behind the work of nodes side by side and of all below them; `None` where that is more.
#[cycle(spending)]
fn left_behind_premises<F: Nodes>(
    table: &[Tree],
    parts: InnerParts<'_>,
    premises: F,
    left: u32,
) -> Option<u32>
    requires { F.AreKept premises }
    ensures { MatchOption result (left < premises_work (map cond_of table.now) (list_of parts.entry) (F.nodes premises))
        (λ n. n + premises_work (map cond_of table.now) (list_of parts.entry) (F.nodes premises) ≡ left) }
{
    let mut parts = parts;
    let mut rest = premises;
    let mut behind = left;
    while let Some(first) = rest.first() {
        let Some((part, others)) = parts.first() else {
            return Some(behind);
        };
        let Some(next) = left_behind_node(table, part, first.number, first.premises, behind) else {
            return None;
        };
        behind = next;
        parts = others;
        rest = first.rest;
    }
    Some(behind)
}

/// What is left behind the work of a method line; `None` where that is more.
fn left_behind_line<L: Lines>(
    table: &[Tree],
    method: &CoreMethod,
    line: &FirstLine<L::Premises, L>,
    left: u32,
) -> Option<u32>
    requires kept { L.Premises.AreKept line.now.premises }
    ensures { MatchOption result
        (left < line_work (map cond_of table.now) (method_of method.now) (record { id = line.now.id; number = line.now.number; body = node line.now.word line.now.node (L.Premises.nodes line.now.premises) }))
        (λ n. n + line_work (map cond_of table.now) (method_of method.now) (record { id = line.now.id; number = line.now.number; body = node line.now.word line.now.node (L.Premises.nodes line.now.premises) }) ≡ left) }
{
    let Some(leaves) = numbered_leaves(table, line.node, left) else {
        return None;
    };
    let Some(work) = product(256, leaves, left) else {
        return None;
    };
    let body = BodyPart::Stmt(&method.body);
    left_behind_node(table, body, line.node, line.premises, left - work)
}

/// What is left behind the work of method lines; `None` where that is more.
fn left_behind_lines<L: Lines>(
    table: &[Tree],
    methods: &[CoreMethod],
    from: L,
    left: u32,
) -> Option<u32>
    requires { L.AreLinesKept from }
    ensures { MatchOption result (left < lines_work (map cond_of table.now) (map method_of methods.now) (L.lines from))
        (λ n. n + lines_work (map cond_of table.now) (map method_of methods.now) (L.lines from) ≡ left) }
{
    let mut methods = methods;
    let mut ahead = from;
    let mut behind = left;
    while let Some(line) = ahead.first_line() {
        let Some((method, others)) = methods.split_first() else {
            return Some(behind);
        };
        let Some(next) = left_behind_line(table, method, &line, behind) else {
            return None;
        };
        behind = next;
        methods = others;
        ahead = line.rest;
    }
    Some(behind)
}

/// Whether the work of a book is little. `false` only where it is more.
pub(crate) fn is_little<L: Lines>(program: &CoreProgram, table: &[Tree], from: L) -> bool
    requires { L.AreLinesKept from }
    ensures { result ≡ false → most_book_work < book_work (program_of program.now) (record { table = map cond_of table.now; lines = L.lines from }) }
{
    left_behind_lines(table, program.methods(), from, MOST_WORK).is_some()
}
