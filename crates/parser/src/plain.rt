//! Statements without statements in them. `high` is the height that is still allowed.

ghost use Rattle.std.specs.Prelude.{◌≡◌, ◌<◌, ◌≤◌};
ghost use Rattle.syntax.specs.Grammar.{may_be_statement};
ghost use Rattle.syntax.specs.Heights.{height as height_of};
ghost use Rattle.syntax.specs.Limits.{most_height};
ghost use Rattle.syntax.specs.Trees.{SetFieldS};
ghost use Rattle.syntax.specs.Views.{expr_tree, stmt_of};
ghost use Rattle.parser.specs.Answer.{Gives};
ghost use Rattle.parser.specs.Statements.{assign as assign_at, assigned as assigned_at, call_end as call_end_at, condition as condition_at, expression as expression_at, expression_statement as expression_statement_at, finish as finish_at, finish_from as finish_from_at, local_rest as local_rest_at, local_statement as local_statement_at, name_statement as name_statement_at, new_statement as new_statement_at, plain_statement as plain_statement_at, print_statement as print_statement_at, return_statement as return_statement_at, start_rest as start_rest_at, target as target_at};

use crate::expression::{LEVELS, chain, dots, new_rest, primary};
use crate::lexeme::Lexeme;
use crate::nodes::Parsed;
use crate::starts::{begins_declaration, begins_second_name};
use crate::stop::{Stop, SyntaxFault};
use crate::tokens::{accept, begins, begins_name, name, take};
use crate::words::{last_field, type_name};
use std::alloc::Global;
use syntax::{Expr, Name, Stmt, Terminal, TypeName};

/// An expression that is a part of a node at most `high` nodes high.
fn expression<'t, 'a>(
    alloc: Global,
    tokens: &'t [Lexeme<'a>],
    high: u32,
) -> Result<(Box<Expr<'a>>, &'t [Lexeme<'a>]), Stop<'t, 'a>>
    requires high { high ≤ most_height }
    requires positive { 0 < high }
    ensures { Gives (λ x. (expr_tree x.0.value, x.1.now)) result (expression_at high tokens.now) }
{
    let Parsed {
        tree,
        height: _,
        rest,
    } = chain(alloc, tokens, high - 1, LEVELS)?;
    Ok((tree, rest))
}

/// An expression in parentheses.
#[tactic(auto, unfolding(crate::specs::Statements::condition))]
pub fn condition<'t, 'a>(
    alloc: Global,
    tokens: &'t [Lexeme<'a>],
    high: u32,
) -> Result<(Box<Expr<'a>>, &'t [Lexeme<'a>]), Stop<'t, 'a>>
    requires high { high ≤ most_height }
    requires positive { 0 < high }
    ensures { Gives (λ x. (expr_tree x.0.value, x.1.now)) result (condition_at high tokens.now) }
{
    let (_, rest) = take(tokens, Terminal::OpenParen)?;
    let (value, rest) = expression(alloc, rest, high)?;
    let (_, rest) = take(rest, Terminal::CloseParen)?;
    Ok((value, rest))
}

#[tactic(auto, unfolding(crate::specs::Statements::return_statement))]
fn return_statement<'t, 'a>(
    alloc: Global,
    tokens: &'t [Lexeme<'a>],
    high: u32,
) -> Result<(Stmt<'a>, &'t [Lexeme<'a>]), Stop<'t, 'a>>
    requires high { high ≤ most_height }
    requires positive { 0 < high }
    ensures { Gives (λ x. (stmt_of x.0, x.1.now)) result (return_statement_at high tokens.now) }
{
    let (at, rest) = take(tokens, Terminal::Return)?;
    if let Some((_, rest)) = accept(rest, Terminal::Semicolon) {
        return Ok((Stmt::Return(None, at), rest));
    }
    let (value, rest) = expression(alloc, rest, high)?;
    let (_, rest) = take(rest, Terminal::Semicolon)?;
    Ok((Stmt::Return(Some(value), at), rest))
}

#[tactic(auto, unfolding(crate::specs::Statements::print_statement))]
fn print_statement<'t, 'a>(
    alloc: Global,
    tokens: &'t [Lexeme<'a>],
    high: u32,
) -> Result<(Stmt<'a>, &'t [Lexeme<'a>]), Stop<'t, 'a>>
    requires high { high ≤ most_height }
    requires positive { 0 < high }
    ensures { Gives (λ x. (stmt_of x.0, x.1.now)) result (print_statement_at high tokens.now) }
{
    let (at, rest) = take(tokens, Terminal::System)?;
    let (_, rest) = take(rest, Terminal::Dot)?;
    let (_, rest) = take(rest, Terminal::Out)?;
    let (_, rest) = take(rest, Terminal::Dot)?;
    let (_, rest) = take(rest, Terminal::Println)?;
    let (value, rest) = condition(alloc, rest, high)?;
    let (_, rest) = take(rest, Terminal::Semicolon)?;
    Ok((Stmt::Print(value, at), rest))
}

/// The start of a thread, behind its `new`, which is at the offset `at`.
#[tactic(auto, unfolding(crate::specs::Statements::start_rest))]
fn start_rest<'t, 'a>(
    alloc: Global,
    tokens: &'t [Lexeme<'a>],
    high: u32,
    at: u32,
) -> Result<(Stmt<'a>, &'t [Lexeme<'a>]), Stop<'t, 'a>>
    requires high { high ≤ most_height }
    requires positive { 0 < high }
    ensures { Gives (λ x. (stmt_of x.0, x.1.now)) result (start_rest_at high at tokens.now) }
{
    let (_, rest) = take(tokens, Terminal::Thread)?;
    let (value, rest) = condition(alloc, rest, high)?;
    let (_, rest) = take(rest, Terminal::Dot)?;
    let (_, rest) = take(rest, Terminal::Start)?;
    let (_, rest) = take(rest, Terminal::OpenParen)?;
    let (_, rest) = take(rest, Terminal::CloseParen)?;
    let (_, rest) = take(rest, Terminal::Semicolon)?;
    Ok((Stmt::Start(value, at), rest))
}

/// The value of an assignment, behind its target, with the offset of the `=`.
#[tactic(auto, unfolding(crate::specs::Statements::assigned))]
fn assigned<'t, 'a>(
    alloc: Global,
    tokens: &'t [Lexeme<'a>],
    high: u32,
) -> Result<((Box<Expr<'a>>, u32), &'t [Lexeme<'a>]), Stop<'t, 'a>>
    requires high { high ≤ most_height }
    requires positive { 0 < high }
    ensures { Gives (λ x. ((expr_tree x.0.0.value, x.0.1), x.1.now)) result (assigned_at high tokens.now) }
{
    let (at, rest) = take(tokens, Terminal::Assign)?;
    let (value, rest) = expression(alloc, rest, high)?;
    let (_, rest) = take(rest, Terminal::Semicolon)?;
    Ok(((value, at), rest))
}

/// The name and the value of a declaration, whose first token is at the offset `at`.
#[tactic(auto, unfolding(crate::specs::Statements::local_rest, crate::specs::Statements::assign))]
fn local_rest<'t, 'a>(
    alloc: Global,
    is_final: bool,
    ty: TypeName<'a>,
    at: u32,
    tokens: &'t [Lexeme<'a>],
    high: u32,
) -> Result<(Stmt<'a>, &'t [Lexeme<'a>]), Stop<'t, 'a>>
    requires high { high ≤ most_height }
    requires positive { 0 < high }
    ensures { Gives (λ x. (stmt_of x.0, x.1.now)) result (local_rest_at high is_final ty.entry at tokens.now) }
{
    let (name, rest) = name(tokens)?;
    let ((value, _), rest) = assigned(alloc, rest, high)?;
    Ok((
        Stmt::Local {
            is_final,
            ty,
            name,
            value,
            at,
        },
        rest,
    ))
}

/// A declaration whose type isn't a class, or that says `final`.
#[tactic(auto, unfolding(crate::specs::Statements::local_statement))]
fn local_statement<'t, 'a>(
    alloc: Global,
    tokens: &'t [Lexeme<'a>],
    high: u32,
) -> Result<(Stmt<'a>, &'t [Lexeme<'a>]), Stop<'t, 'a>>
    requires high { high ≤ most_height }
    requires positive { 0 < high }
    ensures { Gives (λ x. (stmt_of x.0, x.1.now)) result (local_statement_at high tokens.now) }
{
    if let Some((at, rest)) = accept(tokens, Terminal::Final) {
        let (ty, rest) = type_name(rest)?;
        return local_rest(alloc, true, ty, at, rest, high);
    }
    if let Some((at, rest)) = accept(tokens, Terminal::Int) {
        return local_rest(alloc, false, TypeName::Int, at, rest, high);
    }
    let (at, rest) = take(tokens, Terminal::Boolean)?;
    local_rest(alloc, false, TypeName::Boolean, at, rest, high)
}

/// Whether an expression may stand as a statement.
fn is_statement(expr: &Expr) -> bool
    ensures { result ≡ may_be_statement (expr_tree expr.now) }
{
    matches!(expr, Expr::Call(_, _, _) | Expr::New(_, _, _))
}

/// The end of a call or `new` that stands as a statement.
#[tactic(auto, unfolding(crate::specs::Statements::call_end))]
fn call_end<'t, 'a>(
    front: Parsed<'t, 'a>,
    high: u32,
) -> Result<(Stmt<'a>, &'t [Lexeme<'a>]), Stop<'t, 'a>>
    requires height { front.height ≡ height_of (expr_tree front.tree.value) }
    ensures { Gives (λ x. (stmt_of x.0, x.1.now)) result (call_end_at high (expr_tree front.entry.tree.value) front.entry.rest.now) }
{
    let Parsed { tree, height, rest } = front;
    let at = tree.first_at();
    if !begins(rest, Terminal::Semicolon) {
        return Err(Stop::Fault(SyntaxFault::Unexpected, rest));
    }
    if high <= height {
        return Err(Stop::Fault(SyntaxFault::TooDeep, rest));
    }
    let (_, rest) = take(rest, Terminal::Semicolon)?;
    Ok((Stmt::Do(tree, at), rest))
}

/// An assignment to what was read.
#[tactic(auto, unfolding(crate::specs::Statements::assign))]
fn target<'t, 'a>(
    alloc: Global,
    tree: Expr<'a>,
    tokens: &'t [Lexeme<'a>],
    high: u32,
) -> Result<(Stmt<'a>, &'t [Lexeme<'a>]), Stop<'t, 'a>>
    requires high { high ≤ most_height }
    requires positive { 0 < high }
    ensures { Gives (λ x. (stmt_of x.0, x.1.now)) result (target_at high (expr_tree tree.entry) tokens.now) }
{
    match tree {
        Expr::Var(name) => {
            let ((value, at), rest) = assigned(alloc, tokens, high)?;
            Ok((Stmt::SetVar(name, value, at), rest))
        }
        Expr::Get(receiver, name) => {
            let ((value, at), rest) = assigned(alloc, tokens, high)?;
            Ok((Stmt::SetField(receiver, name, value, at), rest))
        }
        _ => Err(Stop::Fault(SyntaxFault::Unexpected, tokens)),
    }
}

/// What stands behind a postfix that begins a statement.
#[tactic(auto, unfolding(crate::specs::Statements::finish))]
fn finish<'t, 'a>(
    alloc: Global,
    front: Parsed<'t, 'a>,
    high: u32,
) -> Result<(Stmt<'a>, &'t [Lexeme<'a>]), Stop<'t, 'a>>
    requires high { high ≤ most_height }
    requires positive { 0 < high }
    requires height { front.height ≡ height_of (expr_tree front.tree.value) }
    ensures { Gives (λ x. (stmt_of x.0, x.1.now)) result (finish_at high (expr_tree front.entry.tree.value) front.entry.rest.now) }
{
    if is_statement(&front.tree) {
        return call_end(front, high);
    }
    let Parsed {
        tree,
        height: _,
        rest,
    } = front;
    target(alloc, Box::into_inner(tree), rest, high)
}

/// An assignment to a field of what was read.
#[tactic(auto, unfolding(crate::specs::Statements::assign))]
fn field_assignment<'t, 'a>(
    alloc: Global,
    receiver: Box<Expr<'a>>,
    field: Name<'a>,
    tokens: &'t [Lexeme<'a>],
    high: u32,
) -> Result<(Stmt<'a>, &'t [Lexeme<'a>]), Stop<'t, 'a>>
    requires high { high ≤ most_height }
    requires positive { 0 < high }
    ensures { Gives (λ x. (stmt_of x.0, x.1.now)) result (assign_at high (SetFieldS (expr_tree receiver.entry.value) field.entry) tokens.now) }
{
    let ((value, at), rest) = assigned(alloc, tokens, high)?;
    Ok((Stmt::SetField(receiver, field, value, at), rest))
}

/// What stands behind a primary that begins a statement.
#[tactic(auto, unfolding(crate::specs::Statements::finish_from, crate::specs::Statements::finish), using(crate::proofs::AtOnce::dots_field))]
pub(crate) fn finish_from<'t, 'a>(
    alloc: Global,
    front: Parsed<'t, 'a>,
    high: u32,
) -> Result<(Stmt<'a>, &'t [Lexeme<'a>]), Stop<'t, 'a>>
    requires high { high ≤ most_height }
    requires positive { 0 < high }
    requires height { front.height ≡ height_of (expr_tree front.tree.value) }
    requires limit { front.height ≤ high }
    ensures { Gives (λ x. (stmt_of x.0, x.1.now)) result (finish_from_at high (expr_tree front.entry.tree.value) front.entry.rest.now) }
{
    if front.height < high {
        if let Some((field, rest)) = last_field(front.rest) {
            let Parsed {
                tree,
                height: _,
                rest: _,
            } = front;
            return field_assignment(alloc, tree, field, rest, high);
        }
    }
    let whole = dots(alloc, front, high)?;
    finish(alloc, whole, high)
}

#[tactic(auto, unfolding(crate::specs::Statements::new_statement))]
fn new_statement<'t, 'a>(
    alloc: Global,
    tokens: &'t [Lexeme<'a>],
    high: u32,
) -> Result<(Stmt<'a>, &'t [Lexeme<'a>]), Stop<'t, 'a>>
    requires high { high ≤ most_height }
    requires positive { 0 < high }
    ensures { Gives (λ x. (stmt_of x.0, x.1.now)) result (new_statement_at high tokens.now) }
{
    let (at, rest) = take(tokens, Terminal::New)?;
    if begins(rest, Terminal::Thread) {
        return start_rest(alloc, rest, high, at);
    }
    let front = new_rest(alloc, rest, high, at)?;
    finish_from(alloc, front, high)
}

/// A declaration whose type is a class, or a statement that begins with a variable.
#[tactic(auto, unfolding(crate::specs::Statements::name_statement))]
fn name_statement<'t, 'a>(
    alloc: Global,
    tokens: &'t [Lexeme<'a>],
    high: u32,
    in_block: bool,
) -> Result<(Stmt<'a>, &'t [Lexeme<'a>]), Stop<'t, 'a>>
    requires high { high ≤ most_height }
    requires positive { 0 < high }
    ensures { Gives (λ x. (stmt_of x.0, x.1.now)) result (name_statement_at high in_block tokens.now) }
{
    let (first, rest) = name(tokens)?;
    if begins_second_name(rest, in_block) {
        let at = first.at;
        return local_rest(alloc, false, TypeName::Class(first), at, rest, high);
    }
    let front = Parsed {
        tree: Box::new(alloc, Expr::Var(first))?,
        height: 1,
        rest,
    };
    finish_from(alloc, front, high)
}

#[tactic(auto, unfolding(crate::specs::Statements::expression_statement))]
fn expression_statement<'t, 'a>(
    alloc: Global,
    tokens: &'t [Lexeme<'a>],
    high: u32,
) -> Result<(Stmt<'a>, &'t [Lexeme<'a>]), Stop<'t, 'a>>
    requires high { high ≤ most_height }
    requires positive { 0 < high }
    ensures { Gives (λ x. (stmt_of x.0, x.1.now)) result (expression_statement_at high tokens.now) }
{
    let front = primary(alloc, tokens, high)?;
    finish_from(alloc, front, high)
}

/// The statements without parts of their own kind.
#[tactic(auto, unfolding(crate::specs::Statements::plain_statement))]
pub fn plain_statement<'t, 'a>(
    alloc: Global,
    tokens: &'t [Lexeme<'a>],
    high: u32,
    in_block: bool,
) -> Result<(Stmt<'a>, &'t [Lexeme<'a>]), Stop<'t, 'a>>
    requires high { high ≤ most_height }
    requires positive { 0 < high }
    ensures { Gives (λ x. (stmt_of x.0, x.1.now)) result (plain_statement_at high in_block tokens.now) }
{
    if let Some((at, rest)) = accept(tokens, Terminal::Semicolon) {
        return Ok((Stmt::Empty(at), rest));
    }
    if begins(tokens, Terminal::Return) {
        return return_statement(alloc, tokens, high);
    }
    if begins(tokens, Terminal::System) {
        return print_statement(alloc, tokens, high);
    }
    if begins(tokens, Terminal::New) {
        return new_statement(alloc, tokens, high);
    }
    if begins_name(tokens) {
        return name_statement(alloc, tokens, high, in_block);
    }
    if begins_declaration(tokens, in_block) {
        return local_statement(alloc, tokens, high);
    }
    expression_statement(alloc, tokens, high)
}
