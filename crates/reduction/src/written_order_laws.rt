//! Laws of the written order.

ghost use Rattle.std.specs.Prelude.{◌≡◌, ℕ, List, Some, None, slice_get};
ghost use Rattle.core_program.specs.Core.{Program};
ghost use Rattle.core_program.specs.Typed.{IsTyped};
ghost use Rattle.rules.specs.Rules.{IsAccepted};
ghost use Rattle.state.specs.States.{State};
ghost use Rattle.semantics.specs.Run.{run, open_thread};
ghost use Rattle.semantics.specs.Units.{Entry, entries, units, word_of, written_order};
ghost use Rattle.semantics.specs.Words.{IsReducible};
ghost use Rattle.reduction.specs.SerialSchedules.{IsSerial};

/// Where a schedule runs to a state with no thread inside an atomic call, and the kinds of each of its units are a reducible
/// word, its written order is a rearrangement that runs to the same state, interrupts no atomic call, and leads every thread
/// through the same frames and statuses.
pub fn written_order_runs()
    ensures { (P : Program) → IsTyped P → (s : List ℕ) (q : State) → run P s ≡ Some q → open_thread P q ≡ None →
        ((n : ℕ) (u : List Entry) → slice_get (units (entries P s)) n ≡ Some u → IsReducible (word_of u)) → IsSerial P s (written_order P s) q }
{}

/// Rewriting: every schedule of an accepted program that runs to a state with no thread inside an atomic call has in its
/// written order a rearrangement that runs to the same heap, locks, threads and output and interrupts no atomic call.
pub fn accepted_programs_rewrite()
    ensures { (P : Program) → IsTyped P → IsAccepted P → (s : List ℕ) (q : State) → run P s ≡ Some q → open_thread P q ≡ None → IsSerial P s (written_order P s) q }
{}
