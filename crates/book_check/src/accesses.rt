//! Reading and writing fields, as trees.
ghost use Rattle.std.specs.Prelude.{◌≡◌, IfErr, IfOk};
ghost use Rattle.algebra.specs.HeldPaths.{Held};
ghost use Rattle.conditions.specs.Conditions.{cond_of, value_of, IsCanonical};
ghost use Rattle.core_program.specs.Locks.{path_of};
ghost use Rattle.core_program.specs.Views.{expr_of, program_of};
ghost use Rattle.rules.specs.Effect.{access_of};
ghost use Rattle.book_check.specs.declared.refusal.Refusal.{Refusal};
ghost use Rattle.book_check.specs.Works.{IsUnbounded};

use crate::refusal::Refusal;
use crate::values::{held_or, leaf};
use crate::work::Work;
use conditions::Tree;
use core_program::{CoreExpr, CoreProgram};
use effects::{Branching, access_value};
use paths::FieldId;
use std::alloc::Global;

/// Reading or writing a field of this receiver.
pub fn access(
    alloc: Global,
    work: Work<'_>,
    program: &CoreProgram,
    receiver: &CoreExpr,
    field: FieldId,
    writes: bool,
) -> Result<Tree, Refusal>
    ensures known { IfOk result (λ r. IsCanonical (cond_of r)) }
    ensures value { IfOk result (λ r. (H : Held) → let P = program_of program.now in
        value_of (cond_of r) H ≡ access_of P writes field (path_of P (expr_of receiver.now)) H) }
    ensures unbounded { IsUnbounded work.entry → IfErr result (λ e. e ≡ Refusal.NoMemory) }
{
    match access_value(program, receiver, field, writes) {
        Branching::Always(basic) => Ok(leaf(basic)),
        Branching::Where(path, held, free) => {
            let there = leaf(held);
            let elsewhere = leaf(free);
            held_or(alloc, work, Some(&path), &there, &elsewhere)
        }
    }
}
