//! Standard output. Its bytes are the system's, so no clause speaks of them.
ghost use Rattle.std.specs.Prelude.{◌≡◌, None};

use crate::folders::Failed;
use crate::sinks::Sink;
use std::io;
use std::io::{Print, Write};
use std::marker::Model;

/// Standard output. It tells no bytes.
#[derive(Drop)]
pub struct OutSink<'r, R> {
    rt: &'r R,
    faults: u64,
}

impl<'r, R> Model for OutSink<'r, R> {
    ghost use Rattle.std.specs.Prelude.{ℕ};

    ghost Value = { ℕ };

    ghost view = { λ s. s.faults };
}

impl<'r, R> OutSink<'r, R> {
    /// What `rt` prints to, with a count of 0.
    pub fn new(rt: &'r R) -> Self
        ensures { result ≡ 0 }
    {
        OutSink { rt, faults: 0 }
    }
}

impl<'r, R: Print> Sink for OutSink<'r, R> {
    ghost written = { λ _. None };

    ghost faults = { λ s. s };

    fn write(&mut self, piece: &[u8]) -> Result<usize, Failed> {
        match io::writer(self.rt).write(piece) {
            Ok(n) if n > 0 || piece.is_empty() => Ok(n),
            // A device that takes nothing would never end a loop of writes.
            _ => {
                self.faults = self.faults.saturating_add(1);
                Err(Failed)
            }
        }
    }
}
