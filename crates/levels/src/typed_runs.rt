//! Laws of typed states.
ghost use Rattle.std.specs.Prelude.{◌≡◌, ℕ, List, Some};
ghost use Rattle.core_program.specs.Core.{Program};
ghost use Rattle.core_program.specs.Typed.{IsTyped};
ghost use Rattle.state.specs.States.{State, initial};
ghost use Rattle.semantics.specs.Run.{run};
ghost use Rattle.levels.specs.SlotTypes.{AreMarked};
ghost use Rattle.levels.specs.TypedStates.{IsTypedState};

/// Each state to which a schedule runs is typed, for any marks of classes that are equal along what they extend: so it is at the
/// start, and each step keeps it.
pub fn typed_laws()
    ensures first { (P : Program) (mark : ℕ → ℕ) → IsTyped P → AreMarked P mark → IsTypedState P mark (initial P) }
    ensures typed { (P : Program) (mark : ℕ → ℕ) → IsTyped P → AreMarked P mark → (s : List ℕ) (q : State) → run P s ≡ Some q → IsTypedState P mark q }
{}
