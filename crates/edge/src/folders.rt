//! What can be read: files by name.
ghost use Rattle.std.specs.Prelude.{◌≡◌, ◌≢◌, ℕ, ◌+◌, ◌^◌, ◌<◌, ◌≤◌, Bool, true, List, Option, length, if◌then◌else◌, IsSome, IfSome, IfOk, OnOk};
ghost use Rattle.edge.specs.Faults.{HasCause};
ghost use Rattle.edge.specs.Pieces.{GivesFrom};

/// A read or a write that failed. The count of faults of the folder or the sink rose.
#[derive(Clone, Copy, Debug, PartialEq, Eq)]
pub struct Failed;

/// Files that are read by name, a part at a time.
pub trait Folder {
    // The bytes of a file, where the folder tells them.
    ghost told: { Self → List ℕ → Option (List ℕ) };

    // How often reads of a name have failed.
    ghost faults: { Self → List ℕ → ℕ };

    // How many reads were made, where the folder counts them.
    ghost calls: { Self → ℕ } = { λ _. 0 };

    // How many files were opened, where the folder counts them.
    ghost opened: { Self → ℕ } = { λ _. 0 };

    // Whether a read of a name from a byte on goes on in a file that is open.
    ghost is_open: { Self → List ℕ → ℕ → Bool } = { λ _ _ _. true };

    /// Reads bytes of the file `name` into the front of `into`, from byte `at` of the file on, and returns how many.
    /// What stands behind them in `into`, and in the whole of it after a failure, is not said.
    fn read_at(&mut self, name: &str, at: u64, into: &mut [u8]) -> Result<usize, Failed>
        ensures bound { IfOk result (λ n. n ≤ length into.new) }
        ensures bytes { IfOk result (λ n. IfSome (told self.old name.now) (GivesFrom at n into.new)) }
        ensures told { (other : List ℕ) → told self.new other ≡ told self.old other }

        // A failure has a cause: the count of this name rose, or stands at its last value.
        ensures cause { HasCause (faults self.old name.now) (faults self.new name.now) result }
        ensures never_fall { (other : List ℕ) → faults self.old other ≤ faults self.new other }
        ensures calm { OnOk result ((other : List ℕ) → faults self.new other ≡ faults self.old other) }
        ensures others { (other : List ℕ) → other ≢ name.now → IsSome (told self.old other) →
            faults self.new other ≡ faults self.old other }
        ensures counted { calls self.new ≤ calls self.old + 1 }

        // A file is opened once for all reads that begin where the one before ended.
        ensures opens { opened self.new ≤ opened self.old + (if is_open self.old name.now at then 0 else 1) }
        ensures still_open { IfOk result (λ n. 0 < n → at + n < 2 ^ 64 → is_open self.new name.now (at + n) ≡ true) };
}
