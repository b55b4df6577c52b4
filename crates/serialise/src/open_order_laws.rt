//! Laws of the open order.

ghost use Rattle.std.specs.Prelude.{◌≡◌, ℕ, List, Some, None, slice_get};
ghost use Rattle.core_program.specs.Core.{Program};
ghost use Rattle.core_program.specs.Typed.{IsTyped};
ghost use Rattle.rules.specs.Rules.{IsAccepted};
ghost use Rattle.state.specs.States.{State};
ghost use Rattle.semantics.specs.Run.{run, open_thread, IsUninterrupted};
ghost use Rattle.semantics.specs.Units.{Entry, entries, units, word_of, written_order};
ghost use Rattle.semantics.specs.Words.{IsReducible};
ghost use Rattle.serialise.specs.Whole.{IsGathered, AreUnitsWhole};
ghost use Rattle.serialise.specs.OpenOrder.{open_order};

/// Where a schedule runs, and the kinds of each of its units are a reducible word, its open order is a rearrangement that runs
/// to the same state, is whole, and leads every thread through the same frames and statuses. Where no thread stands inside an
/// atomic call at the end, it is the written order.
pub fn open_order_runs()
    ensures gathers { (P : Program) → IsTyped P → (s : List ℕ) (q : State) → run P s ≡ Some q →
        ((n : ℕ) (u : List Entry) → slice_get (units (entries P s)) n ≡ Some u → IsReducible (word_of u)) → IsGathered P s (open_order P s) q }
    ensures units { (P : Program) → IsTyped P → (s : List ℕ) (q : State) → run P s ≡ Some q →
        ((n : ℕ) (u : List Entry) → slice_get (units (entries P s)) n ≡ Some u → IsReducible (word_of u)) → AreUnitsWhole P (open_order P s) }
    ensures closed { (P : Program) → IsTyped P → (s : List ℕ) (q : State) → run P s ≡ Some q → open_thread P q ≡ None → open_order P s ≡ written_order P s }
    ensures uninterrupted { (P : Program) → IsTyped P → (s : List ℕ) (q : State) → run P s ≡ Some q →
        ((n : ℕ) (u : List Entry) → slice_get (units (entries P s)) n ≡ Some u → IsReducible (word_of u)) → open_thread P q ≡ None → IsUninterrupted P (open_order P s) }
{}

/// Every schedule of an accepted program that runs, also one that leaves atomic calls open, has in its open order a
/// rearrangement that runs to the same heap, locks, threads and output, and in which no entry of another thread stands between
/// two entries of one outermost atomic call.
pub fn accepted_programs_gather()
    ensures { (P : Program) → IsTyped P → IsAccepted P → (s : List ℕ) (q : State) → run P s ≡ Some q → IsGathered P s (open_order P s) q }
{}
