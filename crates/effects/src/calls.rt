//! The last part of a call.
ghost use Rattle.std.specs.Prelude.{◌≡◌, IfOk};
ghost use Rattle.algebra.specs.HeldPaths.{has_path};
ghost use Rattle.core_program.specs.Locks.{path_of};
ghost use Rattle.core_program.specs.Views.{expr_of, exprs_from, program_of};
ghost use Rattle.rules.specs.Effect.{call_of};
ghost use Rattle.rules.specs.Mentions.{paths_of};
ghost use Rattle.rules.specs.Near.{rel_of};

use crate::assigned::Assigned;
use crate::callee_sets::held_under;
use crate::lists::has_all;
use algebra::Basic;
use core_program::{CoreExpr, CoreProgram};
use paths::{MethodId, Path};
use rules::{RelevantSets, required_of};
use std::alloc::{AllocError as NoMemory, Global};

/// A call of a method on this receiver with these arguments.
#[derive(Clone, Copy)]
pub struct Called<'a> {
    pub receiver: &'a CoreExpr,
    pub callee: MethodId,
    pub args: &'a [CoreExpr],
}

/// What is assigned to a callee at the set with which a call begins it, an error where that lacks a required path.
pub fn call_effect<A: Assigned>(
    alloc: Global,
    program: &CoreProgram,
    sets: &RelevantSets,
    assigned: &A,
    call: &Called<'_>,
    held: &[Path],
) -> Result<Basic, NoMemory>
    ensures { IfOk result (λ b.
        let P = program_of program.now in
        b ≡ call_of P (rel_of sets.now) (A.Assigned.assigned assigned.now) call.now.callee (path_of P (expr_of call.now.receiver.now)) (paths_of P (exprs_from call.now.args.now)) (has_path held.now)) }
{
    let known = held_under(alloc, program, sets, call, held)?;
    if has_all(known.as_slice(), required_of(program, call.callee)) {
        Ok(assigned.at(call.callee, known.as_slice()))
    } else {
        Ok(Basic::Error)
    }
}
