//! The parts of a body beside the nodes of a derivation.
ghost use Rattle.std.specs.Prelude.{◌≡◌, ◌==◌, length};
ghost use Rattle.books.specs.Derivations.{count_nodes};
ghost use Rattle.core_program.specs.Views.{expr_of, stmt_of};
ghost use Rattle.effects.specs.Parts.{ExprP, StmtP};
ghost use Rattle.effects.specs.Bodies.{list_of, part_of};
ghost use Rattle.book_check.specs.Parts.{node_word};

use books::{Nodes, Word};
use core_program::{CoreExpr, CoreStmt};
use effects::{BodyPart, InnerParts};

/// The word of an expression's node.
fn expr_word(e: &CoreExpr) -> Word
    ensures { result ≡ node_word (ExprP (expr_of e.now)) }
{
    match e {
        CoreExpr::Int(_) | CoreExpr::Truth(_) | CoreExpr::Null => Word::Lit,
        CoreExpr::This => Word::This,
        CoreExpr::Var { .. } => Word::Var,
        CoreExpr::Not(_) | CoreExpr::Neg(_) => Word::Un,
        CoreExpr::Binary(_, _, _) => Word::Bin,
        CoreExpr::And(_, _) => Word::And,
        CoreExpr::Or(_, _) => Word::Or,
        CoreExpr::Get(_, _) => Word::Get,
        CoreExpr::Call(_, _, _) => Word::Call,
        CoreExpr::New(_, _) => Word::New,
    }
}

/// The word of a statement's node.
fn stmt_word(s: &CoreStmt) -> Word
    ensures { result ≡ node_word (StmtP (stmt_of s.now)) }
{
    match s {
        CoreStmt::Empty => Word::Skip,
        CoreStmt::Block(_) => Word::Block,
        CoreStmt::Local { .. } => Word::Local,
        CoreStmt::SetVar(_, _) => Word::Set,
        CoreStmt::SetField(_, _, _) => Word::Put,
        CoreStmt::Do(_, _) => Word::Do,
        CoreStmt::If(_, _, _) => Word::If,
        CoreStmt::While(_, _) => Word::While,
        CoreStmt::Sync(_, _) => Word::Sync,
        CoreStmt::Return(_) => Word::Return,
        CoreStmt::Print(_) => Word::Print,
        CoreStmt::Start(_) => Word::Start,
    }
}

/// The word of a part's node.
pub fn part_word(part: BodyPart<'_>) -> Word
    ensures { result ≡ node_word (part_of part.entry) }
{
    match part {
        BodyPart::Expr(e) => expr_word(e),
        BodyPart::Stmt(s) => stmt_word(s),
    }
}

/// Whether there are as many nodes as parts.
pub fn same_length<F: Nodes>(parts: InnerParts<'_>, nodes: F) -> bool
    requires { F.AreKept nodes }
    ensures { result ≡ (count_nodes (F.nodes nodes) == length (list_of parts.entry)) }
{
    let mut parts = parts;
    let mut rest = nodes;
    while let Some(first) = rest.first() {
        let Some((_, others)) = parts.first() else {
            return false;
        };
        parts = others;
        rest = first.rest;
    }
    parts.first().is_none()
}
