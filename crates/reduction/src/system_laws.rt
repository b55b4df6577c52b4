//! The theorem.

ghost use Rattle.std.specs.Prelude.{◌≡◌, ℕ, Bool, true, List, Some, slice_get};
ghost use Rattle.semantics.specs.Units.{Entry, units, word_of};
ghost use Rattle.semantics.specs.Words.{IsReducible};
ghost use Rattle.reduction.specs.Movers.{HasMovers};
ghost use Rattle.reduction.specs.Serial.{NobodyInside, IsSerialOrder};
ghost use Rattle.reduction.specs.Systems.{System, system_run_from, system_entries_from, written_from};

/// Where the kinds of a system's steps mean what they say in its sound states, and a schedule runs from a sound state to one
/// in which nobody is inside a block, and the kinds of each of its units are a reducible word, its written order is a
/// rearrangement that runs to the same state, interrupts no block, and leads every thread through the same own.
pub fn reduction<S, O>()
    ensures { (M : System S O) (sound : S → Bool) (start end : S) → HasMovers M (λ q. sound q ≡ true) → sound start ≡ true → (s : List ℕ) →
        system_run_from M start s ≡ Some end → NobodyInside M end →
        ((n : ℕ) (u : List Entry) → slice_get (units (system_entries_from M start 0 s)) n ≡ Some u → IsReducible (word_of u)) →
        IsSerialOrder M start s (written_from M start s) end }
{}
