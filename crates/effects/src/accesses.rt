//! Reading and writing fields: their values look at one path at most.
ghost use Rattle.std.specs.Prelude.{◌≡◌, IfOk, if◌then◌else◌};
ghost use Rattle.algebra.specs.HeldPaths.{Held};
ghost use Rattle.algebra.specs.Values.{Keeps};
ghost use Rattle.core_program.specs.Locks.{path_of};
ghost use Rattle.core_program.specs.Views.{expr_of, program_of};
ghost use Rattle.rules.specs.Effect.{access_of};
ghost use Rattle.effects.specs.Accesses.{branching_value};

use algebra::{Algebra, Basic};
use core_program::{CoreExpr, CoreProgram};
use paths::{FieldId, Path};
use rules::{Guard, guard_at};
use std::alloc::{AllocError as NoMemory, Global};

/// A basic, or one where a path is held and another where it isn't.
#[derive(Drop)]
pub enum Branching {
    Always(Basic),
    Where(Path, Basic, Basic),
}

/// Reading or writing a field of this receiver.
pub fn access_value(
    program: &CoreProgram,
    receiver: &CoreExpr,
    field: FieldId,
    writes: bool,
) -> Branching
    ensures { (H : Held) → let P = program_of program.now in
        branching_value result H ≡ access_of P writes field (path_of P (expr_of receiver.now)) H }
{
    match guard_at(program, receiver, field) {
        Guard::Final => Branching::Always(Basic::Const),
        Guard::Free => Branching::Always(Basic::Atomic),
        Guard::Unnamed => Branching::Always(Basic::Error),
        Guard::WriteUnnamed if writes => Branching::Always(Basic::Error),
        Guard::WriteUnnamed => Branching::Always(Basic::Atomic),
        Guard::Named(path) => Branching::Where(path, Basic::Mover, Basic::Error),
        Guard::WriteNamed(path) if writes => Branching::Where(path, Basic::Atomic, Basic::Error),
        Guard::WriteNamed(path) => Branching::Where(path, Basic::Mover, Basic::Atomic),
    }
}

/// A basic where this path is held, and another where it isn't.
fn held_or_else<G: Algebra>(
    alloc: Global,
    algebra: &mut G,
    path: &Path,
    held: Basic,
    other: Basic,
) -> Result<G::A, NoMemory>
    ensures known { IfOk result (λ r. G.IsKnown algebra.new r) }
    ensures value { IfOk result (λ r. (H : Held) → G.value algebra.new r H ≡ (if H path.now then held else other)) }
    ensures keeps { Keeps G.IsKnown G.value algebra.old algebra.new }
{
    let held = algebra.leaf(alloc, held)?;
    let other = algebra.leaf(alloc, other)?;
    algebra.held_or(alloc, path, &held, &other)
}

/// Reading or writing a field of this receiver, as a value of an algebra.
pub fn access<G: Algebra>(
    alloc: Global,
    program: &CoreProgram,
    algebra: &mut G,
    receiver: &CoreExpr,
    field: FieldId,
    writes: bool,
) -> Result<G::A, NoMemory>
    ensures known { IfOk result (λ r. G.IsKnown algebra.new r) }
    ensures value { IfOk result (λ r. (H : Held) → let P = program_of program.now in
        G.value algebra.new r H ≡ access_of P writes field (path_of P (expr_of receiver.now)) H) }
    ensures keeps { Keeps G.IsKnown G.value algebra.old algebra.new }
{
    match access_value(program, receiver, field, writes) {
        Branching::Always(basic) => algebra.leaf(alloc, basic),
        Branching::Where(path, held, free) => held_or_else(alloc, algebra, &path, held, free),
    }
}
