//! Laws of steps, runs and words.
ghost use Rattle.std.specs.Prelude.{◌≡◌, ◌↔◌, ◌⊎◌, ◌++◌, ℕ, List, [], ◌∷◌, length, true, Option, Some, None, option_and_then, slice_get};
ghost use Rattle.std.specs.FinMap as map;
ghost use Rattle.core_program.specs.Core.{Program};
ghost use Rattle.state.specs.declared.value.Address.{Address};
ghost use Rattle.state.specs.declared.value.Fault.{Fault};
ghost use Rattle.state.specs.declared.value.StepKind.{StepKind};
ghost use Rattle.state.specs.Memory.{IsNumbered};
ghost use Rattle.state.specs.States.{State, Frame, Thread, Done, Faulted, initial};
ghost use Rattle.semantics.specs.Step.{Shared, Change, changed, turn, Absent, IsDone, HadFaulted, Waits, Move, Moves, outcome, moved, step, kind_of};
ghost use Rattle.semantics.specs.Changes.{objects_after, locks_after};
ghost use Rattle.semantics.specs.Asks.{LooksSame, asks};
ghost use Rattle.semantics.specs.Run.{run, run_from, inside, Runs, IsUninterrupted, IsRearrangement};
ghost use Rattle.semantics.specs.Units.{entries, are_kept, written_order};
ghost use Rattle.semantics.specs.Waiting.{WaitsFor};
ghost use Rattle.semantics.specs.Words.{IsReducible, IsReduciblePrefix, is_reducible};

/// A thread has no step exactly where it is absent, is done, had faulted, or has an acquire next of a lock that
/// another thread holds; and each reason is told exactly where it stands.
pub fn step_laws()
    ensures none { (P : Program) (q : State) (t : ℕ) → (step P q t ≡ None) ↔ ((slice_get q.threads t ≡ None)
        ⊎ ((slice_get q.threads t ≡ Some Done)
        ⊎ (((kind : Fault) × (frames : List Frame) × (slice_get q.threads t ≡ Some (Faulted kind frames)))
        ⊎ ((a : Address) × (holder : ℕ) × WaitsFor q t a holder)))) }
    ensures absent { (P : Program) (q : State) (t : ℕ) → (outcome P q t ≡ Absent) ↔ (slice_get q.threads t ≡ None) }
    ensures done { (P : Program) (q : State) (t : ℕ) → (outcome P q t ≡ IsDone) ↔ (slice_get q.threads t ≡ Some Done) }
    ensures faulted { (P : Program) (q : State) (t : ℕ) (kind : Fault) → (outcome P q t ≡ HadFaulted kind) ↔
        ((frames : List Frame) × (slice_get q.threads t ≡ Some (Faulted kind frames))) }
    ensures waits { (P : Program) (q : State) (t : ℕ) (a : Address) (holder : ℕ) → (outcome P q t ≡ Waits a holder) ↔ WaitsFor q t a holder }
    ensures kind { (P : Program) (q : State) (t : ℕ) → (kind_of P q t ≡ None) ↔ (step P q t ≡ None) }
{}

/// A run of two schedules, one after the other, is the run of both; and in each state that a schedule runs to,
/// each thread's objects are numbered from 0, so its next address is free: that is so at the start, and each step keeps it.
pub fn run_laws()
    ensures append { (P : Program) (q : State) (s r : List ℕ) →
        run_from P q (s ++ r) ≡ option_and_then (λ next. run_from P next r) (run_from P q s) }
    ensures numbered { (P : Program) (s : List ℕ) (q : State) → run P s ≡ Some q → IsNumbered q.heap }
    ensures numbered_initial { (P : Program) → IsNumbered (initial P).heap }
    ensures numbered_step { (P : Program) (q : State) (t : ℕ) (r : State) → IsNumbered q.heap → step P q t ≡ Some r → IsNumbered r.heap }
{}

/// What a change does to each object and to each lock.
pub fn change_laws()
    ensures objects { (c : Change) (q : State) → map.get (changed c q).heap ≡ objects_after c (map.get q.heap) }
    ensures locks { (c : Change) (q : State) → map.get (changed c q).locks ≡ locks_after c (map.get q.locks) }
{}

/// A thread's turn depends on what all threads share only at the one thing that it asks: where that looks the same, it comes
/// to the same.
pub fn asking_laws()
    ensures same { (P : Program) (t : ℕ) (see other : Shared) (thread : Option Thread) → LooksSame P t see other (asks P thread) → turn P see t thread ≡ turn P other t thread }
{}

/// One more step at the end of a run adds one entry.
pub fn entry_laws()
    ensures more { (P : Program) (s : List ℕ) (q : State) (t : ℕ) (move : Move) → run P s ≡ Some q → outcome P q t ≡ Moves move →
        entries P (s ++ t ∷ []) ≡ entries P s ++ record { place = length s; thread = t; kind = move.kind; inside = inside P (moved t move q) t } ∷ [] }
{}

/// The test for reducible words is exact, and what can be made reducible is so.
pub fn word_laws()
    ensures test { (word : List StepKind) → (is_reducible word ≡ true) ↔ IsReducible word }
    ensures prefix { (word : List StepKind) → IsReduciblePrefix word ↔ IsReducible word }
{}

/// A schedule that runs is uninterrupted exactly where the test on its entries says so, and its written order is
/// a rearrangement of it.
pub fn unit_laws()
    ensures uninterrupted { (P : Program) (s : List ℕ) → Runs P s → (are_kept (entries P s) ≡ true) ↔ IsUninterrupted P s }
    ensures rearrangement { (P : Program) (s : List ℕ) → Runs P s → IsRearrangement s (written_order P s) }
{}
