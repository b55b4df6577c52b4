//! Laws of neighbouring steps.

ghost use Rattle.std.specs.Prelude.{◌≡◌, ◌≢◌, ℕ, List, true, length, Some};
ghost use Rattle.core_program.specs.Core.{Program};
ghost use Rattle.core_program.specs.Typed.{IsTyped};
ghost use Rattle.state.specs.States.{State, initial};
ghost use Rattle.semantics.specs.Run.{run};
ghost use Rattle.semantics.specs.Step.{Move, Moves, outcome, moved};
ghost use Rattle.semantics.specs.Words.{moves_right, moves_left};
ghost use Rattle.reduction.specs.Neighbours.{MovesRight, MovesLeft};
ghost use Rattle.reduction.specs.Orderly.{IsOrderly};
ghost use Rattle.reduction.specs.Addresses.{HasNoDanglingAddress};
ghost use Rattle.reduction.specs.Swapped.{MayPass, started, Swapped};

/// No address dangles in any state of any run, and in such a state whatever is asked about an object is asked about one
/// that is there.
pub fn address_laws()
    ensures initial { (P : Program) → HasNoDanglingAddress (initial P) }
    ensures step { (P : Program) (q : State) (t : ℕ) (m : Move) → HasNoDanglingAddress q → outcome P q t ≡ Moves m → HasNoDanglingAddress (moved t m q) }
    ensures run { (P : Program) (s : List ℕ) (q : State) → run P s ≡ Some q → HasNoDanglingAddress q }
    ensures orderly { (P : Program) (q : State) → HasNoDanglingAddress q → IsOrderly P q }
{}

/// Two neighbouring steps of different threads change places where their kinds let them pass and the first doesn't start the
/// second's thread: each step is then the same as before, and both orders lead to the same state.
pub fn exchange_laws()
    ensures exchange { (P : Program) → IsTyped P → (q : State) → HasNoDanglingAddress q → (t u : ℕ) → t ≢ u → (m n : Move) → outcome P q t ≡ Moves m → outcome P (moved t m q) u ≡ Moves n →
        MayPass m.kind n.kind → started (length q.threads) m.change ≢ Some u → Swapped P q t m u n }
{}

/// What the kinds mean: a step of kind Right or Both is a right mover, one of kind Left or Both a left mover.
pub fn mover_laws()
    ensures right { (P : Program) → IsTyped P → (q : State) → HasNoDanglingAddress q → (t : ℕ) (m : Move) → outcome P q t ≡ Moves m → moves_right m.kind ≡ true → MovesRight P q t m }
    ensures left { (P : Program) → IsTyped P → (q : State) → HasNoDanglingAddress q → (u : ℕ) (n : Move) → moves_left n.kind ≡ true → MovesLeft P q u n }
{}
