//! What a step does, and which lock would help it.

ghost use Rattle.std.specs.Prelude.{◌≡◌, IfOk};
ghost use Rattle.algebra.specs.Basics.{below_of};
ghost use Rattle.algebra.specs.declared.basic.Basic.TheVariants.{Mover};
ghost use Rattle.rules.specs.Effect.{call_of};
ghost use Rattle.algebra.specs.HeldPaths.{has_path, with_path};
ghost use Rattle.core_program.specs.Core.{CallE};
ghost use Rattle.core_program.specs.Locks.{path_of};
ghost use Rattle.core_program.specs.Views.{expr_of, exprs_from, program_of};
ghost use Rattle.effects.specs.Parts.{ExprP};
ghost use Rattle.rules.specs.Guards.{guard_of};
ghost use Rattle.rules.specs.Mentions.{paths_of};
ghost use Rattle.rules.specs.Near.{rel_of};
ghost use Rattle.rules.specs.Search.{row_at};
ghost use Rattle.explain.specs.Helping.{guard_help, help};
ghost use Rattle.explain.specs.Deeds.{deed_of_part, help_of, hold_or, no_access_help, no_call_help};
ghost use Rattle.explain.specs.Names.{second_name};
ghost use Rattle.explain.specs.Views.{part_of_walk};

use crate::found::CorePart;
use crate::names::{Alias, Lack, lack_of, second_name};
use crate::takings::taken_lock;
use crate::walk::Walk;
use algebra::Basic;
use core_program::{CoreExpr, CoreProgram, CoreStmt, path_of};
use effects::{Assigned, Called, call_effect, with_path};
use paths::{FieldId, MethodId, Path};
use rules::{Guard, OverridingMethods, guard_at, renaming_at};
use std::alloc::AllocError as NoMemory;

/// What a step does.
#[derive(Drop)]
pub enum Deed {
    /// Reads a field of a receiver that has this path or none.
    Reads(Option<Path>, FieldId, Guard),
    /// Writes one.
    Writes(Option<Path>, FieldId, Guard),
    /// Calls a method that is this at the paths that it begins with, and the lock that the call takes and gives back, if it does nothing else.
    Calls(MethodId, Basic, Option<Path>),
    /// Takes a lock and gives it back.
    Locks(Path),
    Prints,
    Starts,
    /// Does nothing of these.
    Other,
}

/// Which lock would help a step.
#[derive(Drop)]
pub enum Help {
    /// With this one held the step can be moved; under which other name it is held, if it is.
    Hold(Path, Option<Path>),
    /// None: nothing guards the field.
    Unguarded,
    /// None: the field is guarded for writing only, so it may be read at any time.
    WritesOnly,
    /// The guard, which has no name here.
    Unnamed(Lack),
    /// None of those that have a name here.
    NoneNamed,
    /// None of those that have a name here; and why the receiver of the call has none.
    ReceiverUnnamed(Lack),
    /// None: others see the step.
    Seen,
}

/// What a call does by itself.
fn call_deed<A: Assigned>(
    walk: &Walk<'_, A>,
    over: &OverridingMethods,
    receiver: &CoreExpr,
    callee: MethodId,
    args: &[CoreExpr],
    held: &[Path],
) -> Result<Deed, NoMemory>
    ensures { IfOk result (λ deed. let part = ExprP (CallE (expr_of receiver.now) callee (exprs_from args.now)) in
        deed ≡ deed_of_part (program_of walk.now.program.now) (rel_of walk.now.sets.now) (A.Assigned.assigned walk.now.assigned.now) (row_at over.now) part (has_path held.now)) }
{
    let call = Called {
        receiver,
        callee,
        args,
    };
    let own = call_effect(
        walk.alloc,
        walk.program,
        walk.sets,
        walk.assigned,
        &call,
        held,
    )?;
    let taken = taken_lock(walk, over, &call, own, held)?;
    Ok(Deed::Calls(callee, own, taken))
}

/// What an expression does by itself.
fn expr_deed<A: Assigned>(
    walk: &Walk<'_, A>,
    over: &OverridingMethods,
    e: &CoreExpr,
    held: &[Path],
) -> Result<Deed, NoMemory>
    ensures { IfOk result (λ deed. deed ≡ deed_of_part (program_of walk.now.program.now) (rel_of walk.now.sets.now) (A.Assigned.assigned walk.now.assigned.now) (row_at over.now) (ExprP (expr_of e.now)) (has_path held.now)) }
{
    match e {
        CoreExpr::Get(receiver, field) => Ok(Deed::Reads(
            path_of(walk.program, receiver),
            *field,
            guard_at(walk.program, receiver, *field),
        )),
        CoreExpr::Call(receiver, callee, args) => {
            call_deed(walk, over, receiver, *callee, args.as_slice(), held)
        }
        _ => Ok(Deed::Other),
    }
}

/// What a part does by itself. `over` has the methods that override each.
pub fn deed_of<A: Assigned>(
    walk: &Walk<'_, A>,
    over: &OverridingMethods,
    part: CorePart<'_>,
    held: &[Path],
) -> Result<Deed, NoMemory>
    ensures { IfOk result (λ deed. deed ≡ deed_of_part (program_of walk.now.program.now) (rel_of walk.now.sets.now) (A.Assigned.assigned walk.now.assigned.now) (row_at over.now) (part_of_walk part.entry) (has_path held.now)) }
{
    match part {
        CorePart::Expr(e) => expr_deed(walk, over, e, held),
        CorePart::Stmt(CoreStmt::SetField(receiver, field, _)) => Ok(Deed::Writes(
            path_of(walk.program, receiver),
            *field,
            guard_at(walk.program, receiver, *field),
        )),
        CorePart::Stmt(CoreStmt::Sync(path, _)) => Ok(Deed::Locks(path.copy())),
        CorePart::Stmt(CoreStmt::Print(_)) => Ok(Deed::Prints),
        CorePart::Stmt(CoreStmt::Start(_)) => Ok(Deed::Starts),
        CorePart::Stmt(_) => Ok(Deed::Other),
    }
}

/// A lock that would help.
fn hold(aliases: &[Alias], held: &[Path], path: Path) -> Help
    ensures { result ≡ Help.Hold path (second_name aliases.now (has_path held.now) path) }
{
    let second = second_name(aliases, held, &path);
    Help::Hold(path, second)
}

/// Which lock would help an access, else why there is none.
fn access_help(
    program: &CoreProgram,
    aliases: &[Alias],
    held: &[Path],
    receiver: &CoreExpr,
    field: FieldId,
    writes: bool,
) -> Help
    ensures { let P = program_of program.now in let guard = guard_of P field (path_of P (expr_of receiver.now)) in
        result ≡ hold_or aliases.now (has_path held.now) (guard_help writes guard) (no_access_help P (expr_of receiver.now) guard) }
{
    match guard_at(program, receiver, field) {
        Guard::Named(path) => hold(aliases, held, path),
        Guard::WriteNamed(path) => {
            if writes {
                Help::WritesOnly
            } else {
                hold(aliases, held, path)
            }
        }
        Guard::Unnamed | Guard::WriteUnnamed => Help::Unnamed(lack_of(program, receiver)),
        Guard::Free | Guard::Final => Help::Unguarded,
    }
}

/// Whether a call can be moved with one path more held.
pub(crate) fn moves_with<A: Assigned>(
    walk: &Walk<'_, A>,
    receiver: &CoreExpr,
    callee: MethodId,
    args: &[CoreExpr],
    held: &[Path],
    path: &Path,
) -> Result<bool, NoMemory>
    ensures { IfOk result (λ b. let P = program_of walk.now.program.now in
        b ≡ below_of (call_of P (rel_of walk.now.sets.now) (A.Assigned.assigned walk.now.assigned.now) callee (path_of P (expr_of receiver.now)) (paths_of P (exprs_from args.now)) (with_path path.now (has_path held.now))) Mover) }
{
    let more = with_path(walk.alloc, path, held)?;
    let call = Called {
        receiver,
        callee,
        args,
    };
    let with = call_effect(
        walk.alloc,
        walk.program,
        walk.sets,
        walk.assigned,
        &call,
        more.as_slice(),
    )?;
    Ok(with.below(Basic::Mover))
}

/// Which lock would help a call: the first name of a relevant path of the callee with which the call can be moved.
fn call_help<A: Assigned>(
    walk: &Walk<'_, A>,
    receiver: &CoreExpr,
    callee: MethodId,
    args: &[CoreExpr],
    held: &[Path],
) -> Result<Option<Path>, NoMemory>
    ensures { IfOk result (λ path. path ≡ help (program_of walk.now.program.now) (rel_of walk.now.sets.now) (A.Assigned.assigned walk.now.assigned.now) (ExprP (CallE (expr_of receiver.now) callee (exprs_from args.now))) (has_path held.now)) }
{
    let renaming = renaming_at(walk.alloc, walk.program, walk.sets, receiver, callee, args)?;
    for (_, name) in renaming.pairs.as_slice() {
        if let Some(name) = name {
            if moves_with(walk, receiver, callee, args, held, name)? {
                return Ok(Some(name.copy()));
            }
        }
    }
    Ok(None)
}

/// Why no lock helps a call.
fn no_call_help(program: &CoreProgram, receiver: &CoreExpr) -> Help
    ensures { let P = program_of program.now in result ≡ no_call_help P (expr_of receiver.now) (path_of P (expr_of receiver.now)) }
{
    match path_of(program, receiver) {
        Some(_) => Help::NoneNamed,
        None => Help::ReceiverUnnamed(lack_of(program, receiver)),
    }
}

/// Which lock would help an expression, else why there is none.
fn expr_help<A: Assigned>(
    walk: &Walk<'_, A>,
    aliases: &[Alias],
    e: &CoreExpr,
    held: &[Path],
) -> Result<Help, NoMemory>
    ensures { IfOk result (λ h. h ≡ help_of (program_of walk.now.program.now) (rel_of walk.now.sets.now) (A.Assigned.assigned walk.now.assigned.now) aliases.now (ExprP (expr_of e.now)) (has_path held.now)) }
{
    match e {
        CoreExpr::Get(receiver, field) => {
            Ok(access_help(walk.program, aliases, held, receiver, *field, false))
        }
        CoreExpr::Call(receiver, callee, args) => {
            match call_help(walk, receiver, *callee, args.as_slice(), held)? {
                Some(path) => Ok(hold(aliases, held, path)),
                None => Ok(no_call_help(walk.program, receiver)),
            }
        }
        _ => Ok(Help::Seen),
    }
}

/// Which lock would help a part, else why there is none.
pub fn help_of<A: Assigned>(
    walk: &Walk<'_, A>,
    aliases: &[Alias],
    part: CorePart<'_>,
    held: &[Path],
) -> Result<Help, NoMemory>
    ensures { IfOk result (λ h. h ≡ help_of (program_of walk.now.program.now) (rel_of walk.now.sets.now) (A.Assigned.assigned walk.now.assigned.now) aliases.now (part_of_walk part.entry) (has_path held.now)) }
{
    match part {
        CorePart::Expr(e) => expr_help(walk, aliases, e, held),
        CorePart::Stmt(CoreStmt::SetField(receiver, field, _)) => {
            Ok(access_help(walk.program, aliases, held, receiver, *field, true))
        }
        CorePart::Stmt(CoreStmt::Sync(path, _)) => Ok(hold(aliases, held, path.copy())),
        CorePart::Stmt(_) => Ok(Help::Seen),
    }
}
