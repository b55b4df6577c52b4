//! Guards held and reducible words.
ghost use Rattle.std.specs.Prelude.{◌≡◌, ◌≢◌, ℕ, Bool, List, Some, slice_get, false};
ghost use Rattle.core_program.specs.Core.{Program};
ghost use Rattle.core_program.specs.Typed.{IsTyped};
ghost use Rattle.rules.specs.Near.{MethodPaths, AreRelevant, rel_of};
ghost use Rattle.rules.specs.Effect.{Assignment};
ghost use Rattle.rules.specs.Rules.{IsAdmissible, IsAccepted};
ghost use Rattle.state.specs.declared.value.StepKind.TheVariants.{Bare};
ghost use Rattle.state.specs.Memory.{IsNumbered};
ghost use Rattle.state.specs.States.{State, initial};
ghost use Rattle.semantics.specs.Step.{Move, Moves, outcome, moved, kind_of};
ghost use Rattle.semantics.specs.Run.{run};
ghost use Rattle.semantics.specs.Units.{Entry, entries, units, word_of};
ghost use Rattle.semantics.specs.Words.{IsReducible, HasWords, FitPhases};
ghost use Rattle.reduction.specs.Safe.{IsSafe, flags_after};

/// Guards are held: in no state that a schedule of an accepted program runs to is some thread's next step Bare.
pub fn guards_held()
    ensures { (P : Program) → IsTyped P → IsAccepted P → (s : List ℕ) (q : State) → run P s ≡ Some q → (t : ℕ) → kind_of P q t ≢ Some Bare }
{}

/// Words are reducible: along every schedule of an accepted program, up to each of its entries, the kinds of each atomic
/// call's steps, and of each unit at all, are a reducible word.
pub fn reducible_words()
    ensures calls { (P : Program) → IsTyped P → IsAccepted P → (s : List ℕ) → HasWords (units (entries P s)) }
    ensures units { (P : Program) → IsTyped P → IsAccepted P → (s : List ℕ) (n : ℕ) (u : List Entry) → slice_get (units (entries P s)) n ≡ Some u → IsReducible (word_of u) }
{}

/// Entries each of which may be made in the phase of its thread, outside atomic calls at the start, have reducible words.
pub fn phases_give_words()
    ensures { (es : List Entry) → FitPhases (λ t. false) es → HasWords (units es) }
{}

/// Safe states, on which both rest: the one at the start is safe, and each step of a thread keeps every thread safe.
pub fn safe_states()
    ensures initial { (P : Program) (sets : List MethodPaths) (A : Assignment) → IsTyped P → IsSafe P (rel_of sets) A (initial P) (λ t. false) }
    ensures step { (P : Program) (sets : List MethodPaths) (A : Assignment) → IsTyped P → AreRelevant P sets → IsAdmissible P (rel_of sets) A → (q : State) (flags : ℕ → Bool) (t : ℕ) (move : Move) →
        IsNumbered q.heap → IsSafe P (rel_of sets) A q flags → outcome P q t ≡ Moves move → IsSafe P (rel_of sets) A (moved t move q) (flags_after P q flags t move.kind) }
{}
