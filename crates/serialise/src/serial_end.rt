//! Why a schedule isn't rewritten.
use crate::run_end::RunEnd;
use machine::Stopped;
use std::alloc::{AllocError, AllocFailed};

/// Why a schedule isn't rewritten.
#[derive(Clone, Copy, PartialEq, Eq, Debug)]
pub enum SerialEnd {
    /// It doesn't run: its first entry that has no step, and why.
    Stopped(Stopped),
    /// It ends with a thread inside an atomic call; this is the least such.
    Open { thread: u32 },
    /// Memory was wanting.
    NoMemory,
}

impl From<AllocError> for SerialEnd {
    ghost use Rattle.std.specs.Prelude.{◌≡◌};
    ghost use Rattle.serialise.specs.declared.serial_end.SerialEnd.TheVariants as ends;

    ghost from_gives = { λ _ end. end ≡ ends.NoMemory };

    fn from(_: AllocError) -> SerialEnd {
        SerialEnd::NoMemory
    }
}

impl<T: Drop> From<AllocFailed<T>> for SerialEnd {
    ghost use Rattle.std.specs.Prelude.{◌≡◌};
    ghost use Rattle.serialise.specs.declared.serial_end.SerialEnd.TheVariants as ends;

    ghost from_gives = { λ _ end. end ≡ ends.NoMemory };

    fn from(_: AllocFailed<T>) -> SerialEnd {
        SerialEnd::NoMemory
    }
}

/// A schedule that doesn't run isn't rewritten for the same reason.
impl From<RunEnd> for SerialEnd {
    ghost use Rattle.std.specs.Prelude.{ℕ, List};
    ghost use Rattle.core_program.specs.Core.{Program};
    ghost use Rattle.serialise.specs.NoRun.{IsNoRun};
    ghost use Rattle.serialise.specs.Rewritten.{IsRefused};

    ghost from_gives = { λ end given. (P : Program) (s : List ℕ) → IsNoRun P s end → IsRefused P s given };

    fn from(end: RunEnd) -> SerialEnd {
        match end {
            RunEnd::Stopped(stopped) => SerialEnd::Stopped(stopped),
            RunEnd::NoMemory => SerialEnd::NoMemory,
        }
    }
}
