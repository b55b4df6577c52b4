//! What is known of the source and the schedule for a number of workers.
ghost use Rattle.std.specs.Prelude.{◌≡◌, ◌+◌, ◌*◌, ℕ, List, length};
ghost use Rattle.schedule.specs.Rounds.{IsGenerated};
ghost use Rattle.schedule.specs.Sources.{generated_source};

/// There is one schedule for a number of workers, and it has 4 entries and 109 for each worker. The source has 369 bytes and 30 for
/// each worker.
pub fn generated_laws()
    ensures one { (n : ℕ) (schedule other : List ℕ) → IsGenerated n schedule → IsGenerated n other → schedule ≡ other }
    ensures source_size { (n : ℕ) → length (generated_source n) ≡ 369 + 30 * n }
    ensures size { (n : ℕ) (schedule : List ℕ) → IsGenerated n schedule → length schedule ≡ 4 + 109 * n }
{}
