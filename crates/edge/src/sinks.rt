//! What can be written to.
ghost use Rattle.std.specs.Prelude.{◌≡◌, ℕ, ◌+◌, ◌<◌, ◌≤◌, List, Option, length, IfOk, OnOk};
ghost use Rattle.std.specs.Io.KnownBytes.{WriteAppends};
ghost use Rattle.edge.specs.Faults.{HasCause};

use crate::folders::Failed;

/// A place that takes bytes, a part at a time.
pub trait Sink {
    // The bytes written so far, where the sink tells them.
    ghost written: { Self → Option (List ℕ) };

    // How often writes have failed.
    ghost faults: { Self → ℕ };

    // How many writes were made, where the sink counts them.
    ghost calls: { Self → ℕ } = { λ _. 0 };

    /// Writes a front of `piece`, at least one byte where it is not empty, and returns how many bytes.
    fn write(&mut self, piece: &[u8]) -> Result<usize, Failed>
        ensures bound { IfOk result (λ n. n ≤ length piece.now) }
        ensures some { IfOk result (λ n. 0 < length piece.now → 0 < n) }

        // The first n bytes were appended, and none after a failure. A sink that tells its bytes goes on telling.
        ensures appends { WriteAppends (written self.old) (written self.new) result piece.now }

        // A failure has a cause: the count rose, or stands at its last value.
        ensures cause { HasCause (faults self.old) (faults self.new) result }
        ensures calm { OnOk result (faults self.new ≡ faults self.old) }
        ensures counted { calls self.new ≤ calls self.old + 1 };
}
