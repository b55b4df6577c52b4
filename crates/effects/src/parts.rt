//! The parts of a body in memory.
ghost use Rattle.std.specs.Prelude.{◌≡◌, ◌∷◌, [], IfNone, IfSome};
ghost use Rattle.core_program.specs.Views.{expr_of, stmt_of};
ghost use Rattle.effects.specs.Parts.{ExprP, StmtP, parts_of};
ghost use Rattle.effects.specs.Bodies.{list_of, part_of};

use core_program::{CoreExpr, CoreStmt};

/// A part of a body.
#[derive(Clone, Copy)]
pub enum BodyPart<'a> {
    Expr(&'a CoreExpr),
    Stmt(&'a CoreStmt),
}

/// The parts of a part that are still to come, in order.
#[derive(Clone, Copy)]
pub enum InnerParts<'a> {
    End,
    One(BodyPart<'a>),
    Two(BodyPart<'a>, BodyPart<'a>),
    Three(BodyPart<'a>, BodyPart<'a>, BodyPart<'a>),
    Call(&'a CoreExpr, &'a [CoreExpr]),
    Args(&'a [CoreExpr]),
    Block(&'a [CoreStmt]),
}

/// The parts of an expression.
fn expr_parts(e: &CoreExpr) -> InnerParts<'_>
    ensures { list_of result ≡ parts_of (ExprP (expr_of e.now)) }
{
    match e {
        CoreExpr::Int(_)
        | CoreExpr::Truth(_)
        | CoreExpr::Null
        | CoreExpr::This
        | CoreExpr::Var { .. } => InnerParts::End,
        CoreExpr::Not(a) | CoreExpr::Neg(a) | CoreExpr::Get(a, _) => {
            InnerParts::One(BodyPart::Expr(a))
        }
        CoreExpr::Binary(_, a, b) | CoreExpr::And(a, b) | CoreExpr::Or(a, b) => {
            InnerParts::Two(BodyPart::Expr(a), BodyPart::Expr(b))
        }
        CoreExpr::Call(a, _, args) => InnerParts::Call(a, args.as_slice()),
        CoreExpr::New(_, args) => InnerParts::Args(args.as_slice()),
    }
}

/// The parts of a statement.
fn stmt_parts(s: &CoreStmt) -> InnerParts<'_>
    ensures { list_of result ≡ parts_of (StmtP (stmt_of s.now)) }
{
    match s {
        CoreStmt::Empty | CoreStmt::Return(None) => InnerParts::End,
        CoreStmt::Block(body) => InnerParts::Block(body.as_slice()),
        CoreStmt::Local { value, .. } | CoreStmt::SetVar(_, value) => {
            InnerParts::One(BodyPart::Expr(value))
        }
        CoreStmt::SetField(a, _, b) => InnerParts::Two(BodyPart::Expr(a), BodyPart::Expr(b)),
        CoreStmt::Do(e, _) | CoreStmt::Return(Some(e)) | CoreStmt::Print(e) | CoreStmt::Start(e) =>
            InnerParts::One(BodyPart::Expr(e)),
        CoreStmt::If(c, a, b) => {
            InnerParts::Three(BodyPart::Expr(c), BodyPart::Stmt(a), BodyPart::Stmt(b))
        }
        CoreStmt::While(c, a) => InnerParts::Two(BodyPart::Expr(c), BodyPart::Stmt(a)),
        CoreStmt::Sync(_, a) => InnerParts::One(BodyPart::Stmt(a)),
    }
}

/// The parts that a part is made of.
pub fn inner_parts(part: BodyPart<'_>) -> InnerParts<'_>
    ensures { list_of result ≡ parts_of (part_of part.entry) }
{
    match part {
        BodyPart::Expr(e) => expr_parts(e),
        BodyPart::Stmt(s) => stmt_parts(s),
    }
}

impl<'a> InnerParts<'a> {
    /// The first part, and the others.
    pub fn first(self) -> Option<(BodyPart<'a>, InnerParts<'a>)>
        ensures none { IfNone result (list_of self.entry ≡ []) }
        ensures some { IfSome result (λ x. list_of self.entry ≡ part_of x.0 ∷ list_of x.1) }
    {
        match self {
            InnerParts::End => None,
            InnerParts::One(a) => Some((a, InnerParts::End)),
            InnerParts::Two(a, b) => Some((a, InnerParts::One(b))),
            InnerParts::Three(a, b, c) => Some((a, InnerParts::Two(b, c))),
            InnerParts::Call(e, args) => Some((BodyPart::Expr(e), InnerParts::Args(args))),
            InnerParts::Args(args) => {
                let (e, rest) = args.split_first()?;
                Some((BodyPart::Expr(e), InnerParts::Args(rest)))
            }
            InnerParts::Block(body) => {
                let (s, rest) = body.split_first()?;
                Some((BodyPart::Stmt(s), InnerParts::Block(rest)))
            }
        }
    }
}
