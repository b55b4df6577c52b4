//! The law of light bodies.
ghost use Rattle.std.specs.Prelude.{◌≡◌, ◌≤◌, ◌^◌, ℕ, Some, slice_get};
ghost use Rattle.core_program.specs.Core.{Program, Method};
ghost use Rattle.core_program.specs.Typed.{IsTyped};
ghost use Rattle.levels.specs.Walks.{syncs_in};

/// The walk through each body of a typed program can count its `synchronized`.
pub fn light_laws()
    ensures { (P : Program) → IsTyped P → (m : ℕ) (method : Method) → slice_get P.methods m ≡ Some method → syncs_in method.body ≤ 2 ^ 63 }
{}
