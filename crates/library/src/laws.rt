//! Laws of neighbouring steps.
ghost use Rattle.std.specs.Prelude.{◌+◌, ℕ, List, IsSome, slice_get};
ghost use Rattle.core_program.specs.Core.{Program};
ghost use Rattle.state.specs.States.{State};
ghost use Rattle.semantics.specs.Step.{Move};
ghost use Rattle.semantics.specs.Run.{Runs};
ghost use Rattle.library.specs.Exchanged.{AreNeighbours};

/// Two neighbouring entries of a schedule that runs are two neighbouring steps.
pub fn neighbour_laws()
    ensures there { (P : Program) (s : List ℕ) (place : ℕ) → Runs P s → IsSome (slice_get s (place + 1)) →
        (q : State) × (t : ℕ) × (u : ℕ) × (m : Move) × (n : Move) × AreNeighbours P s place q t u m n }
{}
