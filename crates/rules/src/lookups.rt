//! What the rules ask of a method and of a list of paths.
ghost use Rattle.std.specs.Prelude.{◌≡◌, slice_get};
ghost use Rattle.core_program.specs.Views.{program_of};
ghost use Rattle.rules.specs.Effect.{required_paths};
ghost use Rattle.rules.specs.Rules.{declared_bound};

use algebra::Basic;
use core_program::CoreProgram;
use paths::{MethodId, Path};

/// The paths that a method requires; none where there is no such method.
pub fn required_of(program: &CoreProgram, method: MethodId) -> &[Path]
    ensures { result.now ≡ required_paths (slice_get (program_of program.now).methods method) }
{
    match program.methods().get(method.0 as usize) {
        Some(method) => method.requires_.as_slice(),
        None => &[],
    }
}

/// The greatest basic that a method may have at its required paths, by whether it is declared atomic.
pub fn bound_of(annotated: bool) -> Basic
    ensures { result ≡ declared_bound annotated }
{
    if annotated {
        Basic::Atomic
    } else {
        Basic::Cmpd
    }
}
