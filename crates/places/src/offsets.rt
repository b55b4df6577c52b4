//! The offsets of nodes.

ghost use Rattle.std.specs.Prelude.{◌≡◌, ◌++◌, map, IfOk, OnOk};
ghost use Rattle.syntax.specs.Views.{expr_tree, exprs_from, member_of, stmt_of, stmts_from};
ghost use Rattle.places.specs.Sources.{block_sources, expr_place, expr_sources, exprs_sources, member_places, source_offset, stmt_sources};

use std::alloc::{AllocError as NoMemory, Global};
use syntax::{Expr, Member, Stmt};

/// The offset at which a node made of an expression is told.
fn expr_place(e: &Expr) -> u32
    ensures { result ≡ expr_place (expr_tree e.now) }
{
    match e {
        Expr::Number(_, at)
        | Expr::Least(at)
        | Expr::Truth(_, at)
        | Expr::Null(at)
        | Expr::This(at)
        | Expr::Paren(_, at)
        | Expr::Not(_, at)
        | Expr::Neg(_, at)
        | Expr::Binary(_, _, _, at)
        | Expr::New(_, _, at) => *at,
        Expr::Var(name) | Expr::Get(_, name) | Expr::Call(_, name, _) => name.at,
    }
}

/// Adds the offsets of the nodes of an expression.
#[cycle(expressions)]
fn add_expr(e: &Expr, places: &mut Vec<u32>) -> Result<(), NoMemory>
    ensures { OnOk result (places.new.items ≡ places.old.items ++ map source_offset (expr_sources (expr_tree e.now))) }
{
    if let Expr::Paren(inner, _) = e {
        return add_expr(inner, places);
    }
    places.push(expr_place(e))?;
    match e {
        Expr::Not(a, _) | Expr::Neg(a, _) | Expr::Get(a, _) => add_expr(a, places),
        Expr::Binary(_, a, b, _) => {
            add_expr(a, places)?;
            add_expr(b, places)
        }
        Expr::Call(receiver, _, args) => {
            add_expr(receiver, places)?;
            add_exprs(args.as_slice(), places)
        }
        Expr::New(_, args, _) => add_exprs(args.as_slice(), places),
        Expr::Number(_, _)
        | Expr::Least(_)
        | Expr::Truth(_, _)
        | Expr::Null(_)
        | Expr::This(_)
        | Expr::Var(_)
        | Expr::Paren(_, _) => Ok(()),
    }
}

/// Adds those of arguments.
#[cycle(expressions)]
fn add_exprs(es: &[Expr], places: &mut Vec<u32>) -> Result<(), NoMemory>
    ensures { OnOk result (places.new.items ≡ places.old.items ++ map source_offset (exprs_sources (exprs_from (map expr_tree es.now)))) }
{
    for e in es {
        add_expr(e, places)?;
    }
    Ok(())
}

/// Adds the offsets of the nodes of a statement.
#[cycle(statements)]
fn add_stmt(s: &Stmt, places: &mut Vec<u32>) -> Result<(), NoMemory>
    ensures { OnOk result (places.new.items ≡ places.old.items ++ map source_offset (stmt_sources (stmt_of s.now))) }
{
    let begin = s.begins_at();
    places.push(begin)?;
    match s {
        Stmt::Empty(_) => Ok(()),
        Stmt::Block(body, _) => add_block(body.as_slice(), places),
        Stmt::SetField(receiver, _, value, _) => {
            add_expr(receiver, places)?;
            add_expr(value, places)
        }
        Stmt::If(test, then, other, _) => {
            add_expr(test, places)?;
            add_stmt(then, places)?;
            let Some(other) = other else {
                places.push(begin)?;
                return Ok(());
            };
            add_stmt(other, places)
        }
        Stmt::While(test, body, _) => {
            add_expr(test, places)?;
            add_stmt(body, places)
        }
        Stmt::Sync(_, body, _) => {
            places.push(begin)?;
            add_block(body.as_slice(), places)
        }
        Stmt::Return(value, _) => {
            let Some(e) = value else {
                return Ok(());
            };
            add_expr(e, places)
        }
        Stmt::Local { value: e, .. }
        | Stmt::SetVar(_, e, _)
        | Stmt::Do(e, _)
        | Stmt::Print(e, _)
        | Stmt::Start(e, _) => add_expr(e, places),
    }
}

/// Adds those of the statements of a block.
#[cycle(statements)]
fn add_block(body: &[Stmt], places: &mut Vec<u32>) -> Result<(), NoMemory>
    ensures { OnOk result (places.new.items ≡ places.old.items ++ map source_offset (block_sources (stmts_from (map stmt_of body.now)))) }
{
    for s in body {
        add_stmt(s, places)?;
    }
    Ok(())
}

/// The offsets of the nodes of a method, by their numbers; none of another member.
pub fn method_places(alloc: Global, member: &Member) -> Result<Vec<u32>, NoMemory>
    ensures { IfOk result (λ places. places.items ≡ member_places (member_of member.now)) }
{
    let mut places = Vec::new(alloc);
    if let Member::Method { name, body, .. } = member {
        places.push(name.at)?;
        add_block(body.as_slice(), &mut places)?;
    }
    Ok(places)
}
