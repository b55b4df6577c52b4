//! Why a schedule doesn't run.
ghost use Rattle.std.specs.Prelude.{◌≡◌};
ghost use Rattle.serialise.specs.NoRun.{refusal};

use machine::{StepEnd, Stopped};
use std::alloc::{AllocError, AllocFailed};

/// Why a schedule doesn't run.
#[derive(Clone, Copy, PartialEq, Eq, Debug)]
pub enum RunEnd {
    /// Its first entry that has no step, and why.
    Stopped(Stopped),
    /// Memory was wanting.
    NoMemory,
}

impl From<AllocError> for RunEnd {
    ghost use Rattle.std.specs.Prelude.{◌≡◌};
    ghost use Rattle.serialise.specs.declared.run_end.RunEnd.TheVariants as ends;

    ghost from_gives = { λ _ end. end ≡ ends.NoMemory };

    fn from(_: AllocError) -> RunEnd {
        RunEnd::NoMemory
    }
}

impl<T: Drop> From<AllocFailed<T>> for RunEnd {
    ghost use Rattle.std.specs.Prelude.{◌≡◌};
    ghost use Rattle.serialise.specs.declared.run_end.RunEnd.TheVariants as ends;

    ghost from_gives = { λ _ end. end ≡ ends.NoMemory };

    fn from(_: AllocFailed<T>) -> RunEnd {
        RunEnd::NoMemory
    }
}

/// Why a schedule doesn't run whose entry of this number, counted from 1, didn't step.
pub(crate) fn refusal(entry: u32, thread: u32, why: StepEnd) -> RunEnd
    ensures { result ≡ refusal entry thread why }
{
    match why {
        StepEnd::NoMemory => RunEnd::NoMemory,
        why => RunEnd::Stopped(Stopped { entry, thread, why }),
    }
}
