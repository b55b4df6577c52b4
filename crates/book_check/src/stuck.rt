//! Why a way to judge a step comes to no answer.
use crate::refusal::Refusal;
use crate::work::Work;

/// Why a way to judge a step comes to no answer.
#[derive(Clone, Copy, Debug)]
pub(crate) enum Stuck {
    /// The way doesn't tell it, or not within its work, so that another way may.
    Undecided,
    /// Memory was wanting.
    NoMemory,
}

impl From<Refusal> for Stuck {
    fn from(refusal: Refusal) -> Stuck {
        match refusal {
            Refusal::NoMemory => Stuck::NoMemory,
            Refusal::Work => Stuck::Undecided,
        }
    }
}

/// What no way decides would take more work than it may.
impl From<Stuck> for Refusal {
    fn from(stuck: Stuck) -> Refusal {
        match stuck {
            Stuck::NoMemory => Refusal::NoMemory,
            Stuck::Undecided => Refusal::Work,
        }
    }
}

/// Takes the visit of one pair of subtrees from the work that is left.
pub(crate) fn visit(work: Work<'_>) -> Result<(), Stuck> {
    Ok(work.take(1)?)
}
