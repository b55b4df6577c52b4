//! What is wrong with a part that is an error by itself.

ghost use Rattle.std.specs.Prelude.{◌≡◌, find, not, IfOk};
ghost use Rattle.algebra.specs.HeldPaths.{has_path};
ghost use Rattle.explain.specs.Names.{passed_expr, second_name};
ghost use Rattle.std.specs.Option.{option_copied};
ghost use Rattle.core_program.specs.Views.{expr_of, exprs_from, program_of};
ghost use Rattle.core_program.specs.Locks.{path_of};
ghost use Rattle.effects.specs.Parts.{ExprP};
ghost use Rattle.rules.specs.Guards.{guard_of};
ghost use Rattle.rules.specs.Near.{rel_of};
ghost use Rattle.explain.specs.Causes.{access_cause, call_cause, cause_of, first_lacking, slot_lack};
ghost use Rattle.explain.specs.Views.{part_of_walk};

use crate::found::CorePart;
use crate::names::{Alias, Lack, lack_of, name_at_call, passed_expr, second_name};
use crate::walk::Walk;
use algebra::has;
use core_program::{CoreExpr, CoreProgram, CoreStmt, path_of};
use effects::{Called, held_under};
use paths::{FieldId, MethodId, Path};
use rules::{Guard, guard_at, required_of};
use std::alloc::AllocError as NoMemory;

/// What is wrong with a part that is an error by itself.
#[derive(Drop)]
pub enum Cause {
    /// A field of a receiver that has this path or none; whether its guard guards writes alone; that guard, which isn't held; and under
    /// which other name it is held, if it is.
    Bare(Option<Path>, FieldId, bool, Path, Option<Path>),
    /// A field, whether its guard guards writes alone, and why the guard has no name here.
    Nameless(FieldId, bool, Lack),
    /// A callee, a path that it requires, its name here, which isn't held, and under which other name it is held, if it is.
    Lacking(MethodId, Path, Path, Option<Path>),
    /// A callee, a path that it requires, and why that has no name here.
    LackingName(MethodId, Path, Lack),
    /// A callee that is an error where it has what it requires.
    Refused(MethodId),
    /// Nothing of these.
    Other,
}

/// An access: the receiver, the field, and whether its guard guards writes alone.
#[derive(Clone, Copy)]
struct Access<'e> {
    receiver: &'e CoreExpr,
    field: FieldId,
    writes_only: bool,
}

/// An access whose guard, which is this path, isn't held.
fn bare(
    program: &CoreProgram,
    aliases: &[Alias],
    held: &[Path],
    access: Access<'_>,
    guard: Path,
) -> Cause
    ensures { result ≡ Cause.Bare (path_of (program_of program.now) (expr_of access.entry.receiver.now)) access.entry.field access.entry.writes_only guard (second_name aliases.now (has_path held.now) guard) }
{
    let second = second_name(aliases, held, &guard);
    Cause::Bare(
        path_of(program, access.receiver),
        access.field,
        access.writes_only,
        guard,
        second,
    )
}

/// What is wrong with an access.
fn access_cause(
    program: &CoreProgram,
    aliases: &[Alias],
    held: &[Path],
    receiver: &CoreExpr,
    field: FieldId,
) -> Cause
    ensures { let P = program_of program.now in let e = expr_of receiver.now in
        result ≡ access_cause P aliases.now (has_path held.now) e field (guard_of P field (path_of P e)) }
{
    match guard_at(program, receiver, field) {
        Guard::Named(guard) => {
            let access = Access {
                receiver,
                field,
                writes_only: false,
            };
            bare(program, aliases, held, access, guard)
        }
        Guard::WriteNamed(guard) => {
            let access = Access {
                receiver,
                field,
                writes_only: true,
            };
            bare(program, aliases, held, access, guard)
        }
        Guard::Unnamed => Cause::Nameless(field, false, lack_of(program, receiver)),
        Guard::WriteUnnamed => Cause::Nameless(field, true, lack_of(program, receiver)),
        Guard::Final | Guard::Free => Cause::Other,
    }
}

/// Why what stands for a callee's slot at a call has no path.
fn slot_lack(program: &CoreProgram, receiver: &CoreExpr, args: &[CoreExpr], slot: u16) -> Lack
    ensures { result ≡ slot_lack (program_of program.now) (passed_expr (expr_of receiver.now) (exprs_from args.now) slot) }
{
    match passed_expr(receiver, args, slot) {
        Some(e) => lack_of(program, e),
        None => Lack::Value,
    }
}

/// The first of these paths that isn't held.
fn first_lacking<'r>(required: &'r [Path], known: &[Path]) -> Option<&'r Path>
    ensures { option_copied result ≡ find (λ q. not (has_path known.now q)) required.now }
{
    for path in required {
        if !has(known, path) {
            return Some(path);
        }
    }
    None
}

/// What is wrong with a call that begins its callee without this path, or with all that are required.
fn lacking(
    program: &CoreProgram,
    aliases: &[Alias],
    held: &[Path],
    call: Called<'_>,
    path: Option<&Path>,
) -> Cause
    ensures { result ≡ call_cause (program_of program.now) aliases.now (has_path held.now) (expr_of call.entry.receiver.now) call.entry.callee (exprs_from call.entry.args.now) (option_copied path.entry) }
{
    let Some(path) = path else {
        return Cause::Refused(call.callee);
    };
    match name_at_call(program, call.receiver, call.args, path) {
        Some(name) => {
            let second = second_name(aliases, held, &name);
            Cause::Lacking(call.callee, path.copy(), name, second)
        }
        None => {
            let lack = slot_lack(program, call.receiver, call.args, path.root);
            Cause::LackingName(call.callee, path.copy(), lack)
        }
    }
}

/// What is wrong with a call.
fn call_cause<A>(
    walk: &Walk<'_, A>,
    aliases: &[Alias],
    held: &[Path],
    receiver: &CoreExpr,
    callee: MethodId,
    args: &[CoreExpr],
) -> Result<Cause, NoMemory>
    ensures { IfOk result (λ cause. let P = program_of walk.now.program.now in let e = expr_of receiver.now in let es = exprs_from args.now in
        cause ≡ call_cause P aliases.now (has_path held.now) e callee es (first_lacking P (rel_of walk.now.sets.now) (has_path held.now) e callee es)) }
{
    let call = Called {
        receiver,
        callee,
        args,
    };
    let known = held_under(walk.alloc, walk.program, walk.sets, &call, held)?;
    let paths = required_of(walk.program, callee);
    let path = first_lacking(paths, known.as_slice());
    Ok(lacking(walk.program, aliases, held, call, path))
}

/// What is wrong with an expression that is an error by itself where these paths are held.
fn expr_cause<A>(
    walk: &Walk<'_, A>,
    aliases: &[Alias],
    e: &CoreExpr,
    held: &[Path],
) -> Result<Cause, NoMemory>
    ensures { IfOk result (λ cause. cause ≡ cause_of (program_of walk.now.program.now) (rel_of walk.now.sets.now) aliases.now (has_path held.now) (ExprP (expr_of e.now))) }
{
    match e {
        CoreExpr::Get(receiver, field) => {
            Ok(access_cause(walk.program, aliases, held, receiver, *field))
        }
        CoreExpr::Call(receiver, callee, args) => {
            call_cause(walk, aliases, held, receiver, *callee, args.as_slice())
        }
        _ => Ok(Cause::Other),
    }
}

/// What is wrong with a part that is an error by itself where these paths are held.
pub fn cause_of<A>(
    walk: &Walk<'_, A>,
    aliases: &[Alias],
    part: CorePart<'_>,
    held: &[Path],
) -> Result<Cause, NoMemory>
    ensures { IfOk result (λ cause. cause ≡ cause_of (program_of walk.now.program.now) (rel_of walk.now.sets.now) aliases.now (has_path held.now) (part_of_walk part.entry)) }
{
    match part {
        CorePart::Expr(e) => expr_cause(walk, aliases, e, held),
        CorePart::Stmt(CoreStmt::SetField(receiver, field, _)) => {
            Ok(access_cause(walk.program, aliases, held, receiver, *field))
        }
        CorePart::Stmt(_) => Ok(Cause::Other),
    }
}
