//! Laws of orders and of walks.
ghost use Rattle.std.specs.Prelude.{◌≡◌, ℕ, List, Option, Bool, Some, None, true, false};
ghost use Rattle.core_program.specs.Core.{Program};
ghost use Rattle.state.specs.States.{State, initial};
ghost use Rattle.semantics.specs.Run.{run, IsUninterrupted};
ghost use Rattle.semantics.specs.Step.{step};
ghost use Rattle.witness.specs.Witness.{Comparison, SameState, SameObjects, SameOutput, IsLike, IsWeaker, IsWitnessAs, IsFullWitnessAs, IsKeptAs, IsReachedAs};
ghost use Rattle.witness.specs.Walks.{walk, entry_counts, none_left, IsClosedSet};
ghost use Rattle.witness.specs.Unseen.{HasUnseenStep, GoesAlone, IsClosedUpTo, IsOfShared};

/// Whole states tell more ends apart than objects and output do, and these more than output alone. A witness by what tells less
/// apart is one by what tells more apart, and a full witness is a witness.
pub fn comparison_laws()
    ensures objects { IsWeaker SameState SameObjects }
    ensures output { IsWeaker SameObjects SameOutput }
    ensures weaker { (P : Program) (strong weak : Comparison) → IsWeaker strong weak → (s : List ℕ) →
        IsWitnessAs P (IsLike weak) s → IsWitnessAs P (IsLike strong) s }
    ensures full { (P : Program) (by : Comparison) (s : List ℕ) → IsFullWitnessAs P (IsLike by) s → IsWitnessAs P (IsLike by) s }
{}

/// A schedule runs to a state and interrupts no atomic call exactly where it walks to that state.
pub fn walk_laws()
    ensures runs { (P : Program) (r : List ℕ) (q : State) → walk P (initial P) None r ≡ Some q → run P r ≡ Some q }
    ensures uninterrupted { (P : Program) (r : List ℕ) (q : State) → walk P (initial P) None r ≡ Some q → IsUninterrupted P r }
    ensures walks { (P : Program) (r : List ℕ) (q : State) → run P r ≡ Some q → IsUninterrupted P r → walk P (initial P) None r ≡ Some q }
{}

/// A closed set in which the schedule's start stands, with its entries left, shows that no order of the schedule ends so; one
/// without counts, that no schedule that interrupts nobody does.
pub fn closed_laws()
    ensures counted { (P : Program) (by : Comparison) (s : List ℕ) (q : State) (node : State → Option ℕ → (ℕ → ℕ) → Bool) →
        IsClosedSet P true (λ r busy left. node r busy left ≡ true) (IsLike by q) → node (initial P) None (entry_counts s) ≡ true → IsKeptAs P (IsLike by) s q → ⊥ }
    ensures whole { (P : Program) (by : Comparison) (q : State) (node : State → Option ℕ → (ℕ → ℕ) → Bool) →
        IsClosedSet P false (λ r busy left. node r busy left ≡ true) (IsLike by q) → node (initial P) None none_left ≡ true → IsReachedAs P (IsLike by) q → ⊥ }
{}

/// A step that nobody else sees stays while another thread steps, and leads behind that thread's step to where that one leads
/// behind it. So the search may go on alone with it: a set that is closed up to such steps shows what a closed set shows.
pub fn passing_laws()
    ensures stays { (P : Program) (q p : State) (t u : ℕ) → (u ≡ t → ⊥) → HasUnseenStep P q t → step P q u ≡ Some p → HasUnseenStep P p t }
    ensures passes { (P : Program) (q p next : State) (t u : ℕ) → (u ≡ t → ⊥) → HasUnseenStep P q t → step P q u ≡ Some p → step P q t ≡ Some next → step P next u ≡ step P p t }
    ensures counted { (P : Program) (by : Comparison) (s : List ℕ) (q : State) (node : State → Option ℕ → (ℕ → ℕ) → Bool) →
        IsClosedUpTo P true (IsLike by q) (λ r busy left. node r busy left ≡ true) → GoesAlone P true (IsLike by q) (λ r busy left. node r busy left ≡ true) (initial P) None (entry_counts s) → IsKeptAs P (IsLike by) s q → ⊥ }
    ensures whole { (P : Program) (by : Comparison) (q : State) (node : State → Option ℕ → (ℕ → ℕ) → Bool) → IsOfShared (IsLike by q) →
        IsClosedUpTo P false (IsLike by q) (λ r busy left. node r busy left ≡ true) → GoesAlone P false (IsLike by q) (λ r busy left. node r busy left ≡ true) (initial P) None none_left → IsReachedAs P (IsLike by) q → ⊥ }
{}
