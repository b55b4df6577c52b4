//! Where expressions and statements begin.

ghost use Rattle.std.specs.Prelude.{◌≡◌};
ghost use Rattle.syntax.specs.Offsets.{begins_at, first_at};
ghost use Rattle.syntax.specs.Views.{expr_tree, stmt_of};

use crate::tree::{Expr, Stmt};

impl Expr<'_> {
    /// The offset of the first token.
    pub fn first_at(&self) -> u32
        ensures { result ≡ first_at (expr_tree self.now) }
    {
        match self {
            Expr::Number(_, at)
            | Expr::Least(at)
            | Expr::Truth(_, at)
            | Expr::Null(at)
            | Expr::This(at)
            | Expr::Paren(_, at)
            | Expr::Not(_, at)
            | Expr::Neg(_, at)
            | Expr::New(_, _, at) => *at,
            Expr::Var(name) => name.at,
            Expr::Binary(_, first, _, _) | Expr::Get(first, _) | Expr::Call(first, _, _) => {
                first.first_at()
            }
        }
    }
}

impl Stmt<'_> {
    /// The offset of the first token.
    pub fn begins_at(&self) -> u32
        ensures { result ≡ begins_at (stmt_of self.now) }
    {
        match self {
            Stmt::Empty(at)
            | Stmt::Block(_, at)
            | Stmt::Do(_, at)
            | Stmt::If(_, _, _, at)
            | Stmt::While(_, _, at)
            | Stmt::Sync(_, _, at)
            | Stmt::Return(_, at)
            | Stmt::Print(_, at)
            | Stmt::Start(_, at) => *at,
            Stmt::Local { at, .. } => *at,
            Stmt::SetVar(name, _, _) => name.at,
            Stmt::SetField(receiver, _, _, _) => receiver.first_at(),
        }
    }
}
