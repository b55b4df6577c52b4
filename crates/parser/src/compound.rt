//! Blocks and the statements with statements in them. `high` is the height that is still allowed, and bounds the depth of the recursion.

ghost use Rattle.std.specs.Prelude.{◌≡◌, ◌-◌, ◌<◌, ◌≤◌, map, length, true, IfOk};
ghost use Rattle.syntax.specs.Limits.{most_height};
ghost use Rattle.syntax.specs.Trees.{BlockS, IfS, IfElseS, SyncS};
ghost use Rattle.syntax.specs.Views.{expr_tree, lock_of, stmt_of, stmts_from};
ghost use Rattle.parser.specs.Answer.{Gives};
ghost use Rattle.parser.specs.Combine.{item_step, several};
ghost use Rattle.parser.specs.Statements.{block_goes_on as may_go_on};
ghost use Rattle.parser.specs.Blocks.{block_at, braces, else_part as else_part_at, if_statement as if_statement_at, statement_at, statement_with, sync_statement as sync_statement_at, while_statement as while_statement_at};

use crate::lexeme::Lexeme;
use crate::nodes::Parsed;
use crate::plain::{condition, finish_from, plain_statement};
use crate::starts::{begins_statement, goes_on};
use crate::stop::{Stop, SyntaxFault};
use crate::tokens::{accept, begins, take};
use crate::words::lock;
use std::alloc::Global;
use syntax::{Expr, Lock, Stmt, Terminal};

/// A block: the offsets of its braces, and its statements.
#[derive(Drop)]
pub struct Braces<'a> {
    pub at: u32,
    pub statements: Vec<Stmt<'a>>,
    pub end: u32,
}

fn make_block<'a>(statements: Vec<Stmt<'a>>, at: u32) -> Stmt<'a>
    ensures { stmt_of result ≡ BlockS (stmts_from (map stmt_of statements.entry.items)) at }
{
    Stmt::Block(statements, at)
}

fn make_sync<'a>(lock: Lock<'a>, statements: Vec<Stmt<'a>>, at: u32) -> Stmt<'a>
    ensures { stmt_of result ≡ SyncS (lock_of lock.entry) (stmts_from (map stmt_of statements.entry.items)) at }
{
    Stmt::Sync(lock, statements, at)
}

fn make_if<'a>(condition: Box<Expr<'a>>, then: Box<Stmt<'a>>, at: u32) -> Stmt<'a>
    ensures { stmt_of result ≡ IfS (expr_tree condition.entry.value) (stmt_of then.entry.value) at }
{
    Stmt::If(condition, then, None, at)
}

fn make_if_else<'a>(
    condition: Box<Expr<'a>>,
    then: Box<Stmt<'a>>,
    other: Box<Stmt<'a>>,
    at: u32,
) -> Stmt<'a>
    ensures { stmt_of result ≡ IfElseS (expr_tree condition.entry.value) (stmt_of then.entry.value) (stmt_of other.entry.value) at }
{
    Stmt::If(condition, then, Some(other), at)
}

/// The `else` of an `if`, where there is one.
#[cycle(statement)]
#[tactic(auto, unfolding(crate::specs::Blocks::else_part))]
fn else_part<'t, 'a>(
    alloc: Global,
    condition: Box<Expr<'a>>,
    branch: Box<Stmt<'a>>,
    at: u32,
    tokens: &'t [Lexeme<'a>],
    high: u32,
) -> Result<(Stmt<'a>, &'t [Lexeme<'a>]), Stop<'t, 'a>>
    requires high { high ≤ most_height }
    requires positive { 0 < high }
    ensures { Gives (λ x. (stmt_of x.0, x.1.now)) result (else_part_at high (statement_at (high - 1)) (block_at (high - 1)) at (expr_tree condition.entry.value) (stmt_of branch.entry.value) tokens.now) }
{
    if let Some((_, rest)) = accept(tokens, Terminal::Else) {
        let (other, rest) = statement(alloc, rest, high - 1, false)?;
        let other = Box::new(alloc, other)?;
        return Ok((make_if_else(condition, branch, other, at), rest));
    }
    Ok((make_if(condition, branch, at), tokens))
}

#[cycle(statement)]
#[tactic(auto, unfolding(crate::specs::Blocks::if_statement))]
fn if_statement<'t, 'a>(
    alloc: Global,
    tokens: &'t [Lexeme<'a>],
    high: u32,
) -> Result<(Stmt<'a>, &'t [Lexeme<'a>]), Stop<'t, 'a>>
    requires high { high ≤ most_height }
    requires positive { 0 < high }
    ensures { Gives (λ x. (stmt_of x.0, x.1.now)) result (if_statement_at high (statement_at (high - 1)) (block_at (high - 1)) tokens.now) }
{
    let (at, rest) = take(tokens, Terminal::If)?;
    let (value, rest) = condition(alloc, rest, high)?;
    let (branch, rest) = statement(alloc, rest, high - 1, false)?;
    let branch = Box::new(alloc, branch)?;
    else_part(alloc, value, branch, at, rest, high)
}

#[cycle(statement)]
#[tactic(auto, unfolding(crate::specs::Blocks::while_statement))]
fn while_statement<'t, 'a>(
    alloc: Global,
    tokens: &'t [Lexeme<'a>],
    high: u32,
) -> Result<(Stmt<'a>, &'t [Lexeme<'a>]), Stop<'t, 'a>>
    requires high { high ≤ most_height }
    requires positive { 0 < high }
    ensures { Gives (λ x. (stmt_of x.0, x.1.now)) result (while_statement_at high (statement_at (high - 1)) (block_at (high - 1)) tokens.now) }
{
    let (at, rest) = take(tokens, Terminal::While)?;
    let (value, rest) = condition(alloc, rest, high)?;
    let (repeated, rest) = statement(alloc, rest, high - 1, false)?;
    Ok((Stmt::While(value, Box::new(alloc, repeated)?, at), rest))
}

#[cycle(statement)]
#[tactic(auto, unfolding(crate::specs::Blocks::sync_statement))]
fn sync_statement<'t, 'a>(
    alloc: Global,
    tokens: &'t [Lexeme<'a>],
    high: u32,
) -> Result<(Stmt<'a>, &'t [Lexeme<'a>]), Stop<'t, 'a>>
    requires high { high ≤ most_height }
    requires positive { 0 < high }
    ensures { Gives (λ x. (stmt_of x.0, x.1.now)) result (sync_statement_at high (statement_at (high - 1)) (block_at (high - 1)) tokens.now) }
{
    let (at, rest) = take(tokens, Terminal::Synchronized)?;
    let (_, rest) = take(rest, Terminal::OpenParen)?;
    let (held, rest) = lock(alloc, rest)?;
    let (_, rest) = take(rest, Terminal::CloseParen)?;
    let (inside, rest) = block(alloc, rest, high - 1)?;
    let Braces {
        at: _,
        statements,
        end: _,
    } = inside;
    Ok((make_sync(held, statements, at), rest))
}

/// One statement more of a block.
#[cycle(statement)]
#[tactic(auto, using(crate::proofs::StatementLoops::statement_shorter))]
fn next_statement<'t, 'a>(
    alloc: Global,
    so_far: (Vec<Stmt<'a>>, &'t [Lexeme<'a>]),
    high: u32,
) -> Result<(Vec<Stmt<'a>>, &'t [Lexeme<'a>]), Stop<'t, 'a>>
    requires high { high < most_height }
    ensures tree { Gives (λ x. (map stmt_of x.0.items, x.1.now)) result (item_step (statement_at high true) (map stmt_of so_far.entry.0.items) so_far.entry.1.now) }
    ensures shorter { IfOk result (λ x. length x.1.now < length so_far.entry.1.now) }
{
    let (mut statements, rest) = so_far;
    let (item, rest) = statement(alloc, rest, high, true)?;
    statements.push(item)?;
    Ok((statements, rest))
}

/// The statements up to the closing brace.
#[cycle(statement)]
#[tactic(auto, using(crate::proofs::StatementLoops::statement_more, crate::proofs::StatementLoops::statement_done))]
fn statements<'t, 'a>(
    alloc: Global,
    tokens: &'t [Lexeme<'a>],
    high: u32,
) -> Result<(Vec<Stmt<'a>>, &'t [Lexeme<'a>]), Stop<'t, 'a>>
    requires high { high < most_height }
    ensures { Gives (λ x. (map stmt_of x.0.items, x.1.now)) result (several may_go_on (statement_at high true) tokens.now) }
{
    let mut list = (Vec::new(alloc), tokens);
    while goes_on(list.1) {
        list = next_statement(alloc, list, high)?;
    }
    Ok(list)
}

/// A block that counts as one node, at most `high` nodes high.
#[cycle(statement)]
#[tactic(auto, unfolding(crate::specs::Blocks::braces), using(crate::proofs::StatementLoops::block_zero, crate::proofs::StatementLoops::block_positive))]
pub fn block<'t, 'a>(
    alloc: Global,
    tokens: &'t [Lexeme<'a>],
    high: u32,
) -> Result<(Braces<'a>, &'t [Lexeme<'a>]), Stop<'t, 'a>>
    requires high { high ≤ most_height }
    ensures { Gives (λ x. ((x.0.at, map stmt_of x.0.statements.items, x.0.end), x.1.now)) result (block_at high tokens.now) }
{
    if high == 0 {
        if begins(tokens, Terminal::OpenBrace) {
            return Err(Stop::Fault(SyntaxFault::TooDeep, tokens));
        }
        return Err(Stop::Fault(SyntaxFault::Unexpected, tokens));
    }
    let (at, rest) = take(tokens, Terminal::OpenBrace)?;
    let (statements, rest) = statements(alloc, rest, high - 1)?;
    let (end, rest) = take(rest, Terminal::CloseBrace)?;
    Ok((
        Braces {
            at,
            statements,
            end,
        },
        rest,
    ))
}

/// A statement at most `high` nodes high; in a block it may be a declaration. One that begins with `this` is told first.
#[cycle(statement)]
#[tactic(auto, unfolding(crate::specs::Blocks::statement_with), using(crate::proofs::StatementLoops::statement_zero, crate::proofs::StatementLoops::statement_positive, crate::proofs::StatementLoops::block_statement_is, crate::proofs::StatementLoops::this_statement))]
fn statement<'t, 'a>(
    alloc: Global,
    tokens: &'t [Lexeme<'a>],
    high: u32,
    in_block: bool,
) -> Result<(Stmt<'a>, &'t [Lexeme<'a>]), Stop<'t, 'a>>
    requires high { high ≤ most_height }
    ensures { Gives (λ x. (stmt_of x.0, x.1.now)) result (statement_at high in_block tokens.now) }
{
    if high == 0 {
        if begins_statement(tokens, in_block) {
            return Err(Stop::Fault(SyntaxFault::TooDeep, tokens));
        }
        return Err(Stop::Fault(SyntaxFault::Unexpected, tokens));
    }
    if let Some((at, rest)) = accept(tokens, Terminal::This) {
        let tree = Box::new(alloc, Expr::This(at))?;
        let height = 1;
        return finish_from(alloc, Parsed { tree, height, rest }, high);
    }
    if begins(tokens, Terminal::OpenBrace) {
        let (inside, rest) = block(alloc, tokens, high)?;
        let Braces {
            at,
            statements,
            end: _,
        } = inside;
        return Ok((make_block(statements, at), rest));
    }
    if begins(tokens, Terminal::If) {
        return if_statement(alloc, tokens, high);
    }
    if begins(tokens, Terminal::While) {
        return while_statement(alloc, tokens, high);
    }
    if begins(tokens, Terminal::Synchronized) {
        return sync_statement(alloc, tokens, high);
    }
    plain_statement(alloc, tokens, high, in_block)
}
