//! The core nodes of statements that hold statements.

ghost use Rattle.std.specs.Prelude.{◌≡◌, ◌+◌, ◌||◌, None, true, option_map, IfOk};
ghost use Rattle.core_program.specs.Core.{BlockS, EmptyS, IfS, WhileS, SyncS};
ghost use Rattle.core_program.specs.Views.{stmt_of, stmts_from};
ghost use Rattle.typing.specs.Gathered.{gathered};
ghost use Rattle.typing.specs.Rulings.{both};
ghost use Rattle.typing.specs.Stmts.{if_node};
ghost use Rattle.typing.specs.Views.{boxed_expr};
ghost use Rattle.typing.specs.BodyViews.{boxed_stmt};

use crate::gather::Gathered;
use core_program::{CoreExpr, CoreStmt, CoreType};
use paths::Path;
use std::alloc::{AllocError as NoMemory, Global};

/// What a statement gives: its core node, where it has one; how many locals it declares; whether it can complete; of a
/// declaration, the type that is written, where it is one.
#[derive(Drop)]
pub(crate) struct StmtPart {
    pub(crate) node: Option<CoreStmt>,
    pub(crate) locals: usize,
    pub(crate) completes: bool,
    pub(crate) declared: Option<CoreType>,
}

/// What a statement in another gives: its core node in a box, where it has one; how many locals it declares; whether it
/// can complete.
#[derive(Drop)]
pub(crate) struct BoxedPart {
    pub(crate) node: Option<Box<CoreStmt>>,
    pub(crate) locals: usize,
    pub(crate) completes: bool,
}

/// The sum of two counts. There is no memory for a program that has more of something than a `usize` can count.
pub(crate) fn total(count: usize, more: usize) -> Result<usize, NoMemory>
    ensures { IfOk result (λ n. n ≡ count + more) }
{
    match count.checked_add(more) {
        Some(total) => Ok(total),
        None => Err(NoMemory),
    }
}

fn block_node(nodes: Vec<CoreStmt>) -> CoreStmt
    ensures { stmt_of result ≡ BlockS (stmts_from nodes.items) }
{
    CoreStmt::Block(nodes)
}

/// The block of these statements, where none is missing.
pub(crate) fn block_of(nodes: Gathered<CoreStmt>) -> Option<CoreStmt>
    ensures { option_map stmt_of result ≡ option_map (λ all. BlockS (stmts_from all)) (gathered nodes) }
{
    match nodes.all() {
        Some(nodes) => Some(block_node(nodes)),
        None => None,
    }
}

fn boxed_node(alloc: Global, node: Option<CoreStmt>) -> Result<Option<Box<CoreStmt>>, NoMemory>
    ensures { IfOk result (λ b. option_map boxed_stmt b ≡ option_map stmt_of node) }
{
    let Some(node) = node else {
        return Ok(None);
    };
    let node = Box::new(alloc, node)?;
    Ok(Some(node))
}

/// What a statement gives, with its core node in a box.
pub(crate) fn boxed_part(alloc: Global, part: StmtPart) -> Result<BoxedPart, NoMemory>
    ensures node { IfOk result (λ p. option_map boxed_stmt p.node ≡ option_map stmt_of part.node) }
    ensures locals { IfOk result (λ p. p.locals ≡ part.locals) }
    ensures completes { IfOk result (λ p. p.completes ≡ part.completes) }
{
    let locals = part.locals;
    let completes = part.completes;
    let node = boxed_node(alloc, part.node)?;
    Ok(BoxedPart {
        node,
        locals,
        completes,
    })
}

fn if_node(
    condition: Option<Box<CoreExpr>>,
    then: Option<Box<CoreStmt>>,
    other: Option<Box<CoreStmt>>,
) -> Option<CoreStmt>
    ensures { option_map stmt_of result ≡ option_map if_node (both (option_map boxed_expr condition) (both (option_map boxed_stmt then) (option_map boxed_stmt other))) }
{
    Some(CoreStmt::If(condition?, then?, other?))
}

/// A choice between two statements.
pub(crate) fn if_part(
    alloc: Global,
    condition: Option<Box<CoreExpr>>,
    then: BoxedPart,
    other: StmtPart,
) -> Result<StmtPart, NoMemory>
    ensures node { IfOk result (λ p. option_map stmt_of p.node ≡ option_map if_node (both (option_map boxed_expr condition) (both (option_map boxed_stmt then.node) (option_map stmt_of other.node)))) }
    ensures locals { IfOk result (λ p. p.locals ≡ then.locals + other.locals) }
    ensures completes { IfOk result (λ p. p.completes ≡ (then.completes || other.completes)) }
    ensures declared { IfOk result (λ p. p.declared ≡ None) }
{
    let other = boxed_part(alloc, other)?;
    let locals = total(then.locals, other.locals)?;
    let completes = then.completes || other.completes;
    Ok(StmtPart {
        node: if_node(condition, then.node, other.node),
        locals,
        completes,
        declared: None,
    })
}

/// A choice between a statement and nothing.
pub(crate) fn if_alone(
    alloc: Global,
    condition: Option<Box<CoreExpr>>,
    then: StmtPart,
) -> Result<StmtPart, NoMemory>
    ensures node { IfOk result (λ p. option_map stmt_of p.node ≡ option_map (λ q. IfS q.0 q.1 EmptyS) (both (option_map boxed_expr condition) (option_map stmt_of then.node))) }
    ensures locals { IfOk result (λ p. p.locals ≡ then.locals) }
    ensures completes { IfOk result (λ p. p.completes ≡ true) }
    ensures declared { IfOk result (λ p. p.declared ≡ None) }
{
    let locals = then.locals;
    let then = boxed_node(alloc, then.node)?;
    let other = Box::new(alloc, CoreStmt::Empty)?;
    Ok(StmtPart {
        node: if_node(condition, then, Some(other)),
        locals,
        completes: true,
        declared: None,
    })
}

fn while_node(condition: Option<Box<CoreExpr>>, body: Option<Box<CoreStmt>>) -> Option<CoreStmt>
    ensures { option_map stmt_of result ≡ option_map (λ p. WhileS p.0 p.1) (both (option_map boxed_expr condition) (option_map boxed_stmt body)) }
{
    Some(CoreStmt::While(condition?, body?))
}

/// A loop around a statement. It completes where its condition may be false.
pub(crate) fn while_part(
    alloc: Global,
    condition: Option<Box<CoreExpr>>,
    completes: bool,
    inner: StmtPart,
) -> Result<StmtPart, NoMemory>
    ensures node { IfOk result (λ p. option_map stmt_of p.node ≡ option_map (λ q. WhileS q.0 q.1) (both (option_map boxed_expr condition) (option_map stmt_of inner.node))) }
    ensures locals { IfOk result (λ p. p.locals ≡ inner.locals) }
    ensures completes { IfOk result (λ p. p.completes ≡ completes) }
    ensures declared { IfOk result (λ p. p.declared ≡ None) }
{
    let locals = inner.locals;
    let body = boxed_node(alloc, inner.node)?;
    Ok(StmtPart {
        node: while_node(condition, body),
        locals,
        completes,
        declared: None,
    })
}

fn sync_node(path: Option<Path>, body: Option<Box<CoreStmt>>) -> Option<CoreStmt>
    ensures { option_map stmt_of result ≡ option_map (λ p. SyncS p.0 p.1) (both path (option_map boxed_stmt body)) }
{
    Some(CoreStmt::Sync(path?, body?))
}

/// A block that holds a lock.
pub(crate) fn sync_part(
    alloc: Global,
    path: Option<Path>,
    inner: StmtPart,
) -> Result<StmtPart, NoMemory>
    ensures node { IfOk result (λ p. option_map stmt_of p.node ≡ option_map (λ q. SyncS q.0 q.1) (both path (option_map stmt_of inner.node))) }
    ensures locals { IfOk result (λ p. p.locals ≡ inner.locals) }
    ensures completes { IfOk result (λ p. p.completes ≡ inner.completes) }
    ensures declared { IfOk result (λ p. p.declared ≡ None) }
{
    let locals = inner.locals;
    let completes = inner.completes;
    let body = boxed_node(alloc, inner.node)?;
    Ok(StmtPart {
        node: sync_node(path, body),
        locals,
        completes,
        declared: None,
    })
}
