//! How evaluation ends.
ghost use Rattle.std.specs.Prelude.{◌≡◌};
ghost use Rattle.replay.specs.Answers.{ended_value};
ghost use Rattle.replay.specs.Ends.{end_of};

use state::{Address, Fault, Value};
use std::alloc::{AllocError, AllocFailed};

/// Why evaluation gives nothing.
#[derive(Clone, Copy, PartialEq, Eq, Debug)]
pub enum EvalEnd {
    /// The thread would fault.
    Faults(Fault),
    /// The thread would wait for the lock of this address, which another thread holds.
    Waits { address: Address, holder: u32 },
    /// There are no turns left for a call or a turn of a loop, or a number would be above 4,294,967,295.
    Short,
    /// More than 100 calls would be open within each other.
    Deep,
    /// Memory was wanting.
    NoMemory,
}

impl From<AllocError> for EvalEnd {
    ghost use Rattle.std.specs.Prelude.{◌≡◌};
    ghost use Rattle.replay.specs.declared.ends.EvalEnd.TheVariants as ends;

    ghost from_gives = { λ _ end. end ≡ ends.NoMemory };

    fn from(_: AllocError) -> EvalEnd {
        EvalEnd::NoMemory
    }
}

impl<T: Drop> From<AllocFailed<T>> for EvalEnd {
    ghost use Rattle.std.specs.Prelude.{◌≡◌};
    ghost use Rattle.replay.specs.declared.ends.EvalEnd.TheVariants as ends;

    ghost from_gives = { λ _ end. end ≡ ends.NoMemory };

    fn from(_: AllocFailed<T>) -> EvalEnd {
        EvalEnd::NoMemory
    }
}

/// How a statement ended: what stands after it comes next, or the method returned.
#[derive(Clone, Copy)]
pub(crate) enum Flow {
    GoesOn,
    Returns(Option<Value>),
}

/// The value that a body ends with; null where it has none.
pub(crate) fn ended_value(flow: Flow) -> Value
    ensures { result ≡ ended_value (end_of flow) }
{
    match flow {
        Flow::Returns(Some(v)) => v,
        Flow::Returns(None) | Flow::GoesOn => Value::Null,
    }
}
