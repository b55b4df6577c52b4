//! How a command on files ends, why a source isn't read, and a refusal on the way.

ghost use Rattle.std.specs.Prelude.{◌≡◌, ◌≤◌, length};
ghost use Rattle.lexer.specs.Limits.{longest_source};
ghost use Rattle.report.specs.SourceFaults.{IsToldFault, source_fault_offset, fault_words};
ghost use Rattle.sources.specs.Refusals.{TellsAt, TellsEnd};

use lexer::Place;
use report::{SourceFault, refused_text};
use std::alloc::{AllocError, AllocError as NoMemory, Global};

/// How a command on files ends: done, or with the first refusal in the order of work.
#[derive(Clone, Copy, Debug, PartialEq, Eq)]
pub enum Ending {
    /// The command was done.
    Done,
    /// The source is refused as it stands.
    Refused,
    /// No assignment of atomicities is admissible.
    Inadmissible,
    /// The text of the schedule is none.
    NoSchedule,
    /// An entry of the schedule can't step.
    Stopped,
    /// The schedule ends with a thread inside an atomic call.
    Open,
    /// The text of the book is none, or its book is wrong for the source.
    BookRefused,
    /// No certificate of refusal is there: the source is accepted.
    NothingToBlame,
    /// The text of the certificate is none, or its certificate is wrong for the source.
    BlameRefused,
    /// The text of the levels is none for the source, or the source isn't ordered by them.
    LevelsRefused,
    /// A call of the schedule has too many calls within each other to be evaluated.
    CallTooDeep,
}

impl Ending {
    ghost use Rattle.sources.specs.Refusals.{code_of};

    /// The exit status.
    pub fn code(self) -> u8
        ensures { result ≡ code_of self }
    {
        match self {
            Ending::Done => 0,
            Ending::Refused => 1,
            Ending::Inadmissible => 2,
            Ending::NoSchedule => 3,
            Ending::Stopped => 4,
            Ending::Open => 5,
            Ending::BookRefused => 11,
            Ending::NothingToBlame => 12,
            Ending::BlameRefused => 13,
            Ending::LevelsRefused => 14,
            Ending::CallTooDeep => 15,
        }
    }
}

/// Why a source isn't read: its first fault, or want of memory.
#[derive(Clone, Copy)]
pub enum SourceEnd {
    /// The source is refused as it stands: the place at which that is told, and the fault.
    Fault(Place, SourceFault),
    /// Memory was refused.
    NoMemory,
}

impl From<AllocError> for SourceEnd {
    ghost use Rattle.std.specs.Prelude.{◌≡◌};
    ghost use Rattle.sources.specs.declared.refusal.SourceEnd.TheVariants as ends;

    ghost from_gives = { λ _ e. e ≡ ends.NoMemory };

    fn from(_error: AllocError) -> SourceEnd {
        SourceEnd::NoMemory
    }
}

/// Why a command ends without its own text.
#[derive(Drop)]
pub enum Refusal {
    /// How it ends, and the line that says why.
    Line(Ending, String),
    /// Memory was refused.
    NoMemory,
}

impl From<AllocError> for Refusal {
    ghost use Rattle.std.specs.Prelude.{◌≡◌};
    ghost use Rattle.sources.specs.declared.refusal.Refusal.TheVariants as refusal;

    ghost from_gives = { λ _ e. e ≡ refusal.NoMemory };

    fn from(_error: AllocError) -> Refusal {
        Refusal::NoMemory
    }
}

/// The end of a source for a fault of this text.
pub fn refuse(text: &str, fault: &SourceFault) -> SourceEnd
    requires small { length text.now ≤ longest_source }
    requires told { IsToldFault fault.now }
    ensures line { TellsAt text.now (source_fault_offset fault.now) (fault_words fault.now) result }
    ensures told { IsToldFault fault.now }
{
    SourceEnd::Fault(fault.place(text), *fault)
}

/// The refusal of a source that isn't read.
pub fn refusal_of(alloc: Global, end: SourceEnd) -> Refusal
    ensures { TellsEnd end result }
{
    match end {
        SourceEnd::Fault(place, fault) => match refused_text(alloc, place, &fault) {
            Ok(line) => Refusal::Line(Ending::Refused, line),
            Err(NoMemory) => Refusal::NoMemory,
        },
        SourceEnd::NoMemory => Refusal::NoMemory,
    }
}
