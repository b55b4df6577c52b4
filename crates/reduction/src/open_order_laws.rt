//! The theorem of the open order.

ghost use Rattle.std.specs.Prelude.{◌≡◌, ℕ, Bool, true, List, Some, slice_get};
ghost use Rattle.semantics.specs.Units.{Entry, units, word_of};
ghost use Rattle.semantics.specs.Words.{IsReducible};
ghost use Rattle.reduction.specs.Movers.{HasMovers};
ghost use Rattle.reduction.specs.Serial.{NobodyInside};
ghost use Rattle.reduction.specs.Systems.{System, system_run_from, system_entries_from, written_from};
ghost use Rattle.reduction.specs.Gathering.{open_from, IsGatheredOrder, AreUnitsTogether};

/// Where the kinds of a system's steps mean what they say in its sound states, and a schedule runs from a sound state, and the
/// kinds of each of its units are a reducible word, its open order is a rearrangement that runs to the same state, keeps each
/// block in one piece, and leads every thread through the same own. Blocks may be left open at the end; where none is, it is the
/// written order.
pub fn open_order_gathers<S, O>()
    ensures gathers { (M : System S O) (sound : S → Bool) (start end : S) → HasMovers M (λ q. sound q ≡ true) → sound start ≡ true → (s : List ℕ) →
        system_run_from M start s ≡ Some end →
        ((n : ℕ) (u : List Entry) → slice_get (units (system_entries_from M start 0 s)) n ≡ Some u → IsReducible (word_of u)) →
        IsGatheredOrder M start s (open_from M start s) end }
    ensures units { (M : System S O) (sound : S → Bool) (start end : S) → HasMovers M (λ q. sound q ≡ true) → sound start ≡ true → (s : List ℕ) →
        system_run_from M start s ≡ Some end →
        ((n : ℕ) (u : List Entry) → slice_get (units (system_entries_from M start 0 s)) n ≡ Some u → IsReducible (word_of u)) →
        AreUnitsTogether M start (open_from M start s) }
    ensures closed { (M : System S O) (sound : S → Bool) (start end : S) → HasMovers M (λ q. sound q ≡ true) → sound start ≡ true → (s : List ℕ) →
        system_run_from M start s ≡ Some end → NobodyInside M end → open_from M start s ≡ written_from M start s }
{}
