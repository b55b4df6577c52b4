//! Reading and writing variables and fields.
ghost use Rattle.std.specs.Prelude.{◌≡◌, if◌then◌else◌};
ghost use Rattle.algebra.specs.HeldPaths.{has_path};
ghost use Rattle.core_program.specs.Locks.{path_of};
ghost use Rattle.core_program.specs.Views.{expr_of, program_of};
ghost use Rattle.rules.specs.Effect.{access_of, variable_effect};

use algebra::{Basic, has};
use core_program::{CoreExpr, CoreProgram};
use paths::{FieldId, Path};
use rules::{Guard, guard_at};

/// Reading a variable.
pub fn variable(is_final: bool) -> Basic
    ensures { result ≡ variable_effect is_final }
{
    if is_final { Basic::Const } else { Basic::Mover }
}

/// A basic where this path is held, and another where it isn't.
fn held_or(held: &[Path], path: &Path, there: Basic, other: Basic) -> Basic
    ensures { result ≡ (if has_path held.now path.now then there else other) }
{
    if has(held, path) { there } else { other }
}

/// Reading or writing a field of this receiver.
pub fn access(
    program: &CoreProgram,
    receiver: &CoreExpr,
    field: FieldId,
    writes: bool,
    held: &[Path],
) -> Basic
    ensures { let P = program_of program.now in
        result ≡ access_of P writes field (path_of P (expr_of receiver.now)) (has_path held.now) }
{
    match guard_at(program, receiver, field) {
        Guard::Final => Basic::Const,
        Guard::Free => Basic::Atomic,
        Guard::Unnamed => Basic::Error,
        Guard::WriteUnnamed if writes => Basic::Error,
        Guard::WriteUnnamed => Basic::Atomic,
        Guard::Named(path) => held_or(held, &path, Basic::Mover, Basic::Error),
        Guard::WriteNamed(path) if writes => held_or(held, &path, Basic::Atomic, Basic::Error),
        Guard::WriteNamed(path) => held_or(held, &path, Basic::Mover, Basic::Atomic),
    }
}
