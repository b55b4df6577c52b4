//! Writes statements.
#![tactic(auto, using(crate::proofs::Writing::writes_none, crate::proofs::Writing::writes_one, crate::proofs::Writing::writes_both))]

ghost use Rattle.std.specs.Prelude.{◌≡◌, [], ◌∷◌, ◌++◌, OnOk, map};
ghost use Rattle.std.specs.Option.{option_map};
ghost use Rattle.printer.specs.Layout.{Fixed, writes};
ghost use Rattle.printer.specs.Printing.{expr_lexemes, lock_lexemes, stmt_lexemes, stmts_lexemes};
ghost use Rattle.syntax.specs.Trees.{BlockS, LocalS, ParenE, PrintS, ReturnS, SetFieldS, SetVarS, StartS};
ghost use Rattle.syntax.specs.declared.terminal.Terminal.TheVariants as terminals;
ghost use Rattle.syntax.specs.Views.{expr_tree, lock_of, stmt_of, stmts_from};

use crate::expressions::write_expr;
use crate::names::{write_flag, write_lock, write_name, write_type};
use crate::page::Printer;
use std::alloc::AllocError as NoMemory;
use syntax::{Expr, Lock, Name, Stmt, Terminal, TypeName};

/// Writes the statements of a block.
#[cycle(statements)]
pub(crate) fn write_stmts(to: &mut Printer, stmts: &[Stmt]) -> Result<(), NoMemory>
    ensures { OnOk result (to.new ≡ writes to.old (stmts_lexemes (stmts_from (map stmt_of stmts.now)))) }
{
    for stmt in stmts {
        write_stmt(to, stmt)?;
    }
    Ok(())
}

#[cycle(statements)]
fn write_stmt(to: &mut Printer, stmt: &Stmt) -> Result<(), NoMemory>
    ensures { OnOk result (to.new ≡ writes to.old (stmt_lexemes (stmt_of stmt.now))) }
{
    match stmt {
        Stmt::Empty(_) => to.terminal(Terminal::Semicolon),
        Stmt::Block(stmts, _) => write_block(to, stmts),
        Stmt::Local {
            is_final,
            ty,
            name,
            value,
            at: _,
        } => write_local(to, *is_final, ty, name, value),
        Stmt::SetVar(name, value, _) => write_assignment(to, name, value),
        Stmt::SetField(receiver, name, value, _) => write_set_field(to, receiver, name, value),
        Stmt::Do(call, _) => {
            write_expr(to, call)?;
            to.terminal(Terminal::Semicolon)
        }
        Stmt::If(condition, stmt, other, _) => {
            write_in_parentheses(to, Terminal::If, condition)?;
            write_stmt(to, stmt)?;
            let Some(other) = other else {
                return Ok(());
            };
            to.terminal(Terminal::Else)?;
            write_stmt(to, other)
        }
        Stmt::While(condition, stmt, _) => {
            write_in_parentheses(to, Terminal::While, condition)?;
            write_stmt(to, stmt)
        }
        Stmt::Sync(lock, stmts, _) => {
            write_lock_to_take(to, lock)?;
            write_block(to, stmts)
        }
        Stmt::Return(value, _) => write_return(to, value),
        Stmt::Print(value, _) => write_print(to, value),
        Stmt::Start(value, _) => write_start(to, value),
    }
}

/// Writes statements in braces.
#[cycle(statements)]
fn write_block(to: &mut Printer, stmts: &[Stmt]) -> Result<(), NoMemory>
    ensures { OnOk result (to.new ≡ writes to.old (stmt_lexemes (BlockS (stmts_from (map stmt_of stmts.now)) 0))) }
{
    to.terminal(Terminal::OpenBrace)?;
    write_stmts(to, stmts)?;
    to.terminal(Terminal::CloseBrace)
}

/// Writes what stands before the block of a `synchronized`.
fn write_lock_to_take(to: &mut Printer, lock: &Lock) -> Result<(), NoMemory>
    ensures { OnOk result (to.new ≡ writes to.old (Fixed terminals.Synchronized ∷ Fixed terminals.OpenParen ∷ lock_lexemes (lock_of lock.now) ++ (Fixed terminals.CloseParen ∷ []))) }
{
    to.terminal(Terminal::Synchronized)?;
    to.terminal(Terminal::OpenParen)?;
    write_lock(to, lock)?;
    to.terminal(Terminal::CloseParen)
}

fn write_local(
    to: &mut Printer,
    is_final: bool,
    ty: &TypeName,
    name: &Name,
    value: &Expr,
) -> Result<(), NoMemory>
    ensures { OnOk result (to.new ≡ writes to.old (stmt_lexemes (LocalS is_final ty.now name.now (expr_tree value.now) 0))) }
{
    write_flag(to, Terminal::Final, is_final)?;
    write_type(to, ty)?;
    write_assignment(to, name, value)
}

fn write_set_field(
    to: &mut Printer,
    receiver: &Expr,
    name: &Name,
    value: &Expr,
) -> Result<(), NoMemory>
    ensures { OnOk result (to.new ≡ writes to.old (stmt_lexemes (SetFieldS (expr_tree receiver.now) name.now (expr_tree value.now) 0))) }
{
    write_expr(to, receiver)?;
    to.terminal(Terminal::Dot)?;
    write_assignment(to, name, value)
}

/// Writes `NAME = VALUE;`.
fn write_assignment(to: &mut Printer, name: &Name, value: &Expr) -> Result<(), NoMemory>
    ensures { OnOk result (to.new ≡ writes to.old (stmt_lexemes (SetVarS name.now (expr_tree value.now) 0))) }
{
    write_name(to, name)?;
    to.terminal(Terminal::Assign)?;
    write_expr(to, value)?;
    to.terminal(Terminal::Semicolon)
}

/// Writes a terminal, and an expression in parentheses.
fn write_in_parentheses(to: &mut Printer, before: Terminal, inner: &Expr) -> Result<(), NoMemory>
    ensures { OnOk result (to.new ≡ writes to.old (Fixed before ∷ expr_lexemes (ParenE (expr_tree inner.now) 0))) }
{
    to.terminal(before)?;
    to.terminal(Terminal::OpenParen)?;
    write_expr(to, inner)?;
    to.terminal(Terminal::CloseParen)
}

fn write_return(to: &mut Printer, value: &Option<Box<Expr>>) -> Result<(), NoMemory>
    ensures { OnOk result (to.new ≡ writes to.old (stmt_lexemes (ReturnS (option_map (λ b. expr_tree b.value) value.now) 0))) }
{
    to.terminal(Terminal::Return)?;
    let Some(value) = value else {
        return to.terminal(Terminal::Semicolon);
    };
    write_expr(to, value)?;
    to.terminal(Terminal::Semicolon)
}

fn write_print(to: &mut Printer, value: &Expr) -> Result<(), NoMemory>
    ensures { OnOk result (to.new ≡ writes to.old (stmt_lexemes (PrintS (expr_tree value.now) 0))) }
{
    to.terminal(Terminal::System)?;
    to.terminal(Terminal::Dot)?;
    to.terminal(Terminal::Out)?;
    to.terminal(Terminal::Dot)?;
    to.terminal(Terminal::Println)?;
    to.terminal(Terminal::OpenParen)?;
    write_expr(to, value)?;
    to.terminal(Terminal::CloseParen)?;
    to.terminal(Terminal::Semicolon)
}

fn write_start(to: &mut Printer, value: &Expr) -> Result<(), NoMemory>
    ensures { OnOk result (to.new ≡ writes to.old (stmt_lexemes (StartS (expr_tree value.now) 0))) }
{
    to.terminal(Terminal::New)?;
    to.terminal(Terminal::Thread)?;
    to.terminal(Terminal::OpenParen)?;
    write_expr(to, value)?;
    to.terminal(Terminal::CloseParen)?;
    to.terminal(Terminal::Dot)?;
    to.terminal(Terminal::Start)?;
    to.terminal(Terminal::OpenParen)?;
    to.terminal(Terminal::CloseParen)?;
    to.terminal(Terminal::Semicolon)
}
