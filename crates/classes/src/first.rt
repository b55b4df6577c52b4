//! The first of the faults that are found one after the other.
ghost use Rattle.std.specs.Prelude.{◌≡◌, Some};
ghost use Rattle.classes.specs.declared.first.FaultPlace.{FaultPlace};
ghost use Rattle.classes.specs.First.{comes_before, earlier, is_told};

/// Where a fault stands: its offset in bytes, from 0, and its rank among the faults that may stand at one offset.
#[derive(Clone, Copy, Debug, PartialEq, Eq)]
pub struct FaultPlace {
    pub offset: u64,
    pub rank: u8,
}

impl FaultPlace {
    /// Whether a fault here is told in place of one there.
    fn comes_before(self, other: FaultPlace) -> bool
        ensures { result ≡ comes_before self other }
    {
        self.offset < other.offset || (self.offset == other.offset && self.rank < other.rank)
    }
}

/// A fault that has a place.
pub trait Placed: Copy {
    // Where it stands.
    ghost place_of: { Self → FaultPlace };

    /// Where it stands.
    fn place(self) -> FaultPlace
        ensures { result ≡ place_of self };
}

/// The first of a fault that was found before, if any, and this one.
pub fn first_of<F: Placed>(found: Option<F>, fault: F) -> Option<F>
    ensures { result ≡ Some (earlier F.place_of found fault) }
{
    match found {
        Some(earlier) if !fault.place().comes_before(earlier.place()) => Some(earlier),
        _ => Some(fault),
    }
}

/// Whether this fault is told where another one may have been found before.
pub(crate) fn is_told<F: Placed>(found: Option<F>, fault: F) -> bool
    ensures { result ≡ is_told F.place_of found fault }
{
    match found {
        Some(earlier) => fault.place().comes_before(earlier.place()),
        None => true,
    }
}
