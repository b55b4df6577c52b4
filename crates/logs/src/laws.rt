//! Laws of logs.

ghost use Rattle.std.specs.Prelude.{◌≡◌, ℕ, List, [], Some, None, slice_get};
ghost use Rattle.reduction.specs.Gathering.{open_from, IsGatheredOrder, AreUnitsTogether};
ghost use Rattle.reduction.specs.Movers.{HasMovers};
ghost use Rattle.reduction.specs.Serial.{NobodyInside, IsSerialOrder};
ghost use Rattle.reduction.specs.Systems.{system_run_from, system_entries_from, written_from};
ghost use Rattle.logs.specs.Examples.{refusal_of_note, counter_guard, counter_log, lock_taken_twice, stale};
ghost use Rattle.logs.specs.Events.{LogLine, order_of};
ghost use Rattle.logs.specs.Judging.{Known, Impossible, Cut, Goes, nothing_known, judged, memory_before};
ghost use Rattle.logs.specs.Logs.{Guard, logs};
ghost use Rattle.logs.specs.Memory.{LogMemory};
ghost use Rattle.logs.specs.Serial.{IsSerialLog};
ghost use Rattle.semantics.specs.Units.{Entry, units, word_of};
ghost use Rattle.semantics.specs.Words.{IsReducible};

/// Whatever is guessed of the guards, the kinds of a log's events mean what they say; so where a log can have happened, ends
/// with nobody inside a block, and has reducible words, its written order is serial: each thread does what it did, each read
/// sees the value that it saw, the end is the same, and no block is interrupted.
pub fn logs_serialise()
    ensures movers { (guard : ℕ → Guard) → HasMovers (logs guard) (λ q. Unit {0}) }
    ensures serial { (guard : ℕ → Guard) (start end : LogMemory) (s : List ℕ) → system_run_from (logs guard) start s ≡ Some end → NobodyInside (logs guard) end →
        ((n : ℕ) (u : List Entry) → slice_get (units (system_entries_from (logs guard) start 0 s)) n ≡ Some u → IsReducible (word_of u)) →
        IsSerialOrder (logs guard) start s (written_from (logs guard) start s) end }
{}

/// A log that is judged to its end, with no thread inside a block, is serial, whatever is guessed of the guards: its lines can
/// stand in an order in which each can happen, each thread's in their own order, the end is the same, and no block is
/// interrupted. That order is the written order of the log's run.
pub fn judged_logs_are_serial()
    ensures serial { (guard : ℕ → Guard) (lines : List LogLine) (k : Known) → judged guard nothing_known lines ≡ Goes k → ((t : ℕ) → k.depth t ≡ 0) → IsSerialLog lines }
    ensures written { (guard : ℕ → Guard) (lines : List LogLine) (k : Known) → judged guard nothing_known lines ≡ Goes k → ((t : ℕ) → k.depth t ≡ 0) →
        IsSerialOrder (logs guard) (memory_before nothing_known lines) (order_of lines) (written_from (logs guard) (memory_before nothing_known lines) (order_of lines)) (memory_before k []) }
{}

/// A log that is judged to its end may be cut off inside blocks. Whatever is guessed of the guards, its open order keeps each block
/// in one piece: each thread does what it did, each read sees the value that it saw, and the end is the same.
pub fn cut_logs_gather()
    ensures gathers { (guard : ℕ → Guard) (lines : List LogLine) (k : Known) → judged guard nothing_known lines ≡ Goes k →
        IsGatheredOrder (logs guard) (memory_before nothing_known lines) (order_of lines) (open_from (logs guard) (memory_before nothing_known lines) (order_of lines)) (memory_before k []) }
    ensures units { (guard : ℕ → Guard) (lines : List LogLine) (k : Known) → judged guard nothing_known lines ≡ Goes k →
        AreUnitsTogether (logs guard) (memory_before nothing_known lines) (open_from (logs guard) (memory_before nothing_known lines) (order_of lines)) }
{}

/// Two threads count under a lock: the log is judged to its end. A block that takes the lock twice can be cut; and no read sees
/// a value that isn't there.
pub fn examples_of_logs()
    ensures counter { refusal_of_note (judged counter_guard nothing_known counter_log) ≡ None }
    ensures twice { refusal_of_note (judged counter_guard nothing_known lock_taken_twice) ≡ Some Cut }
    ensures stale { refusal_of_note (judged counter_guard nothing_known stale) ≡ Some Impossible }
{}
