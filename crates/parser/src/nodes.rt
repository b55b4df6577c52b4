//! What is read of an expression, expressions without parts, and nodes made of their parts.

ghost use Rattle.std.specs.Prelude.{◌≡◌, map, IfOk};
ghost use Rattle.syntax.specs.Heights.{height as height_of};
ghost use Rattle.syntax.specs.Trees.{BinaryE, CallE, NewE};
ghost use Rattle.syntax.specs.Views.{expr_tree, exprs_from};
ghost use Rattle.parser.specs.Answer.{Gives};
ghost use Rattle.parser.specs.Expressions.{leaf as leaf_at};

use crate::lexeme::Lexeme;
use crate::stop::Stop;
use crate::tokens::{accept, begins_number, name, number};
use std::alloc::Global;
use syntax::{Expr, Name, Op, Terminal};

/// An expression, its height, and the tokens behind it.
#[derive(Drop)]
pub struct Parsed<'t, 'a> {
    pub tree: Box<Expr<'a>>,
    pub height: u32,
    pub rest: &'t [Lexeme<'a>],
}

/// Arguments, the height of the highest, and the tokens behind them.
#[derive(Drop)]
pub struct Arguments<'t, 'a> {
    pub items: Vec<Expr<'a>>,
    pub height: u32,
    pub rest: &'t [Lexeme<'a>],
}

/// A number, a truth value, `null`, `this` or a name, and the tokens behind it.
#[tactic(auto, unfolding(crate::specs::Expressions::leaf))]
fn leaf_tree<'t, 'a>(tokens: &'t [Lexeme<'a>]) -> Result<(Expr<'a>, &'t [Lexeme<'a>]), Stop<'t, 'a>>
    ensures tree { Gives (λ x. (expr_tree x.0, x.1.now)) result (leaf_at tokens.now) }
    ensures height { IfOk result (λ x. height_of (expr_tree x.0) ≡ 1) }
{
    if begins_number(tokens) {
        let ((value, at), rest) = number(tokens)?;
        return Ok((Expr::Number(value, at), rest));
    }
    if let Some((at, rest)) = accept(tokens, Terminal::True) {
        return Ok((Expr::Truth(true, at), rest));
    }
    if let Some((at, rest)) = accept(tokens, Terminal::False) {
        return Ok((Expr::Truth(false, at), rest));
    }
    if let Some((at, rest)) = accept(tokens, Terminal::Null) {
        return Ok((Expr::Null(at), rest));
    }
    if let Some((at, rest)) = accept(tokens, Terminal::This) {
        return Ok((Expr::This(at), rest));
    }
    let (variable, rest) = name(tokens)?;
    Ok((Expr::Var(variable), rest))
}

/// A number, a truth value, `null`, `this` or a name.
pub(crate) fn leaf<'t, 'a>(
    alloc: Global,
    tokens: &'t [Lexeme<'a>],
) -> Result<Parsed<'t, 'a>, Stop<'t, 'a>>
    ensures tree { Gives (λ x. (expr_tree x.tree.value, x.rest.now)) result (leaf_at tokens.now) }
    ensures height { IfOk result (λ x. x.height ≡ height_of (expr_tree x.tree.value)) }
    ensures limit { IfOk result (λ x. x.height ≡ 1) }
{
    let (tree, rest) = leaf_tree(tokens)?;
    Ok(Parsed {
        tree: Box::new(alloc, tree)?,
        height: 1,
        rest,
    })
}

pub(crate) fn make_call<'a>(
    receiver: Box<Expr<'a>>,
    method: Name<'a>,
    arguments: Vec<Expr<'a>>,
) -> Expr<'a>
    ensures { expr_tree result ≡ CallE (expr_tree receiver.entry.value) method.entry (exprs_from (map expr_tree arguments.entry.items)) }
{
    Expr::Call(receiver, method, arguments)
}

pub(crate) fn make_binary<'a>(
    op: Op,
    left: Box<Expr<'a>>,
    right: Box<Expr<'a>>,
    at: u32,
) -> Expr<'a>
    ensures { expr_tree result ≡ BinaryE op (expr_tree left.entry.value) (expr_tree right.entry.value) at }
{
    Expr::Binary(op, left, right, at)
}

pub(crate) fn make_new<'a>(class: Name<'a>, arguments: Vec<Expr<'a>>, at: u32) -> Expr<'a>
    ensures { expr_tree result ≡ NewE class.entry (exprs_from (map expr_tree arguments.entry.items)) at }
{
    Expr::New(class, arguments, at)
}
