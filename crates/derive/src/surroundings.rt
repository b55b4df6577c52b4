//! A basis as the context of a part, over nodes: what callees give, and values before final locals.
ghost use Rattle.std.specs.Prelude.{◌≡◌, length, IfOk};
ghost use Rattle.std.specs.Option.{option_copied};
ghost use Rattle.algebra.specs.HeldPaths.{Held};
ghost use Rattle.core_program.specs.Locks.{path_of};
ghost use Rattle.core_program.specs.Views.{expr_of, exprs_from, program_of, stmt_of};
ghost use Rattle.rules.specs.Effect.{after_stmt, call_of};
ghost use Rattle.rules.specs.Mentions.{paths_of};
ghost use Rattle.rules.specs.Near.{rel_of};
ghost use Rattle.conditions.specs.Shown.{IsAmongFirst, node_value};
ghost use Rattle.book_check.specs.Judges.{named_set};
ghost use Rattle.derive.specs.Bases.{own_trees, trees_assign};
ghost use Rattle.derive.specs.Named.{Keeping, name_under};

use crate::basis::Basis;
use crate::names::{Names, named, with_required};
use algebra::Basic;
use book_check::paths;
use conditions::{Node, NodeTable};
use core_program::{CoreExpr, CoreProgram, CoreStmt, path_of};
use effects::Context;
use paths::{MethodId, Path};
use rules::required_of;
use std::alloc::{AllocError as NoMemory, Global};

/// What is assigned to a method, under these names; const where it isn't there.
fn assigned(
    alloc: Global,
    basis: &Basis<'_>,
    table: &mut NodeTable,
    names: &Names<'_>,
    m: MethodId,
) -> Result<Node, NoMemory>
    ensures known { IfOk result (λ r. IsAmongFirst (length table.new) r) }
    ensures value { IfOk result (λ r. (H : Held) → node_value table.new r H ≡ trees_assign (own_trees basis.now) m (named_set (name_under names.now) H)) }
    ensures keeps { Keeping table.old table.new }
{
    match basis.own.get(m.0 as usize) {
        Some(tree) => named(alloc, table, names, tree),
        None => Ok(table.basic(Basic::Const)),
    }
}

/// What a callee's tree gives at a call on this receiver with these arguments, by their paths.
#[tactic(auto, using(crate::proofs::Tables::keeps_chain))]
fn call_by_paths(
    alloc: Global,
    basis: &Basis<'_>,
    table: &mut NodeTable,
    callee: MethodId,
    receiver: Option<&Path>,
    args: &[Option<Path>],
) -> Result<Node, NoMemory>
    ensures known { IfOk result (λ r. IsAmongFirst (length table.new) r) }
    ensures value { IfOk result (λ r. (H : Held) → node_value table.new r H ≡ call_of (program_of basis.now.program.now) (rel_of basis.now.sets.now)
        (trees_assign (own_trees basis.now)) callee (option_copied receiver.entry) args.now H) }
    ensures keeps { Keeping table.old table.new }
{
    let names = Names::At(basis.sets.rel(callee), receiver, args);
    let value = assigned(alloc, basis, table, &names, callee)?;
    with_required(
        alloc,
        table,
        &names,
        required_of(basis.program, callee),
        value,
    )
}

/// The last part of a call.
fn call(
    alloc: Global,
    basis: &Basis<'_>,
    table: &mut NodeTable,
    callee: MethodId,
    receiver: &CoreExpr,
    args: &[CoreExpr],
) -> Result<Node, NoMemory>
    ensures known { IfOk result (λ r. IsAmongFirst (length table.new) r) }
    ensures value { IfOk result (λ r. (H : Held) → let P = program_of basis.now.program.now in node_value table.new r H ≡ call_of P (rel_of basis.now.sets.now)
        (trees_assign (own_trees basis.now)) callee (path_of P (expr_of receiver.now)) (paths_of P (exprs_from args.now)) H) }
    ensures keeps { Keeping table.old table.new }
{
    let receiver = path_of(basis.program, receiver);
    let args = paths(alloc, basis.program, args)?;
    call_by_paths(
        alloc,
        basis,
        table,
        callee,
        receiver.as_ref(),
        args.as_slice(),
    )
}

/// The value of the rest of a block before a statement.
fn before(
    alloc: Global,
    program: &CoreProgram,
    table: &mut NodeTable,
    s: &CoreStmt,
    rest: Node,
) -> Result<Node, NoMemory>
    requires { IsAmongFirst (length table.old) rest }
    ensures known { IfOk result (λ r. IsAmongFirst (length table.new) r) }
    ensures value { IfOk result (λ r. (H : Held) → node_value table.new r H ≡ node_value table.old rest (after_stmt (program_of program.now) (stmt_of s.now) H)) }
    ensures keeps { Keeping table.old table.new }
{
    let CoreStmt::Local {
        slot,
        is_final: true,
        value,
        ..
    } = s
    else {
        return Ok(rest);
    };
    let path = path_of(program, value);
    let tree = table.tree_of(alloc, &rest)?;
    named(alloc, table, &Names::Before(*slot, path.as_ref()), &tree)
}

impl<'a> Context<NodeTable> for Basis<'a> {
    ghost IsReady = { λ s. Unit {0} };

    ghost plain = { λ s. program_of s.program.now };

    ghost called = { λ s. call_of (program_of s.program.now) (rel_of s.sets.now) (trees_assign (own_trees s)) };

    ghost after = { λ s. after_stmt (program_of s.program.now) };

    fn program(&self) -> &CoreProgram {
        self.program
    }

    fn call_value(
        &self,
        alloc: Global,
        table: &mut NodeTable,
        receiver: &CoreExpr,
        callee: MethodId,
        args: &[CoreExpr],
    ) -> Result<Node, NoMemory> {
        call(alloc, self, table, callee, receiver, args)
    }

    fn before(
        &self,
        alloc: Global,
        table: &mut NodeTable,
        s: &CoreStmt,
        rest: Node,
    ) -> Result<Node, NoMemory> {
        before(alloc, self.program, table, s, rest)
    }
}
