//! Writes expressions.
#![tactic(auto, using(crate::proofs::Writing::writes_none, crate::proofs::Writing::writes_one, crate::proofs::Writing::writes_both))]

ghost use Rattle.std.specs.Prelude.{◌≡◌, [], ◌∷◌, ◌++◌, OnOk, map};
ghost use Rattle.syntax.specs.Grammar.{sign_of};
ghost use Rattle.printer.specs.Layout.{Fixed, writes};
ghost use Rattle.printer.specs.Printing.{args_lexemes, expr_lexemes};
ghost use Rattle.syntax.specs.Trees.{NewE};
ghost use Rattle.syntax.specs.declared.terminal.Terminal.TheVariants as terminals;
ghost use Rattle.syntax.specs.Views.{expr_tree, exprs_from};

use crate::names::{write_dotted, write_name};
use crate::page::Printer;
use lexer::GREATEST_LITERAL;
use std::alloc::AllocError as NoMemory;
use syntax::{Expr, Name, Op, Terminal};

#[cycle(expressions)]
pub(crate) fn write_expr(to: &mut Printer, expr: &Expr) -> Result<(), NoMemory>
    ensures { OnOk result (to.new ≡ writes to.old (expr_lexemes (expr_tree expr.now))) }
{
    match expr {
        Expr::Number(number, _) => to.number(*number),
        Expr::Least(_) => {
            to.terminal(Terminal::Minus)?;
            to.number(GREATEST_LITERAL)
        }
        Expr::Truth(true, _) => to.terminal(Terminal::True),
        Expr::Truth(false, _) => to.terminal(Terminal::False),
        Expr::Null(_) => to.terminal(Terminal::Null),
        Expr::This(_) => to.terminal(Terminal::This),
        Expr::Var(name) => write_name(to, name),
        Expr::Paren(inner, _) => {
            to.terminal(Terminal::OpenParen)?;
            write_expr(to, inner)?;
            to.terminal(Terminal::CloseParen)
        }
        Expr::Not(operand, _) => {
            to.terminal(Terminal::Bang)?;
            write_expr(to, operand)
        }
        Expr::Neg(operand, _) => {
            to.terminal(Terminal::Minus)?;
            write_expr(to, operand)
        }
        Expr::Binary(op, left, right, _) => {
            write_expr(to, left)?;
            to.terminal(sign(*op))?;
            write_expr(to, right)
        }
        Expr::Get(receiver, name) => {
            write_expr(to, receiver)?;
            write_dotted(to, name)
        }
        Expr::Call(receiver, name, args) => {
            write_expr(to, receiver)?;
            write_dotted(to, name)?;
            write_arguments(to, args)
        }
        Expr::New(class, args, _) => write_new(to, class, args),
    }
}

/// Writes `new NAME(ARGUMENTS)`.
#[cycle(expressions)]
fn write_new(to: &mut Printer, class: &Name, args: &[Expr]) -> Result<(), NoMemory>
    ensures { OnOk result (to.new ≡ writes to.old (expr_lexemes (NewE class.now (exprs_from (map expr_tree args.now)) 0))) }
{
    to.terminal(Terminal::New)?;
    write_name(to, class)?;
    write_arguments(to, args)
}

/// Writes arguments in parentheses.
#[cycle(expressions)]
fn write_arguments(to: &mut Printer, args: &[Expr]) -> Result<(), NoMemory>
    ensures { OnOk result (to.new ≡ writes to.old (Fixed terminals.OpenParen ∷ args_lexemes (exprs_from (map expr_tree args.now)) ++ (Fixed terminals.CloseParen ∷ []))) }
{
    to.terminal(Terminal::OpenParen)?;
    write_args(to, args)?;
    to.terminal(Terminal::CloseParen)
}

/// Writes arguments with commas between them.
#[cycle(expressions)]
fn write_args(to: &mut Printer, args: &[Expr]) -> Result<(), NoMemory>
    ensures { OnOk result (to.new ≡ writes to.old (args_lexemes (exprs_from (map expr_tree args.now)))) }
{
    let Some((first, rest)) = args.split_first() else {
        return Ok(());
    };
    write_expr(to, first)?;
    for arg in rest {
        to.terminal(Terminal::Comma)?;
        write_expr(to, arg)?;
    }
    Ok(())
}

fn sign(op: Op) -> Terminal
    ensures { result ≡ sign_of op }
{
    match op {
        Op::Or => Terminal::OrOr,
        Op::And => Terminal::AndAnd,
        Op::Eq => Terminal::EqualTo,
        Op::Ne => Terminal::NotEqual,
        Op::Lt => Terminal::Less,
        Op::Le => Terminal::LessEqual,
        Op::Gt => Terminal::Greater,
        Op::Ge => Terminal::GreaterEqual,
        Op::Add => Terminal::Plus,
        Op::Sub => Terminal::Minus,
        Op::Mul => Terminal::Star,
        Op::Div => Terminal::Slash,
        Op::Rem => Terminal::Percent,
    }
}
