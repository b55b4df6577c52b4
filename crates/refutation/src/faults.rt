//! What the first fault of a text is, apart from how the text is read.
ghost use Rattle.std.specs.Prelude.{◌≡◌, ◌↔◌, ℕ, List, Some};
ghost use Rattle.refutation.specs.FirstFaults.{IsBrokenAt, IsFirstFault};
ghost use Rattle.refutation.specs.Reading.{first_certificate_fault};

/// The first fault of a text stands where a rule is broken: a number out of range begins, or a path that doesn't come after the one before
/// it. Else it stands where no text goes on, of lines whose paths may stand in any order. It is the only place of which that is so.
pub fn first_faults()
    ensures broken { (bytes : List ℕ) (place : ℕ) → IsBrokenAt bytes place → first_certificate_fault bytes ≡ Some place }
    ensures exact { (bytes : List ℕ) (place : ℕ) → (first_certificate_fault bytes ≡ Some place) ↔ IsFirstFault bytes place }
{}
