//! What the first fault of a text is, apart from how the text is read.
ghost use Rattle.std.specs.Prelude.{◌≡◌, ℕ, List, Some, take};
ghost use Rattle.books.specs.declared.stop.Kind.{Kind};
ghost use Rattle.books.specs.Faults.{fault_at, first_book_fault};
ghost use Rattle.books.specs.Fronts.{IsFrontOfBook};

/// The text of some book begins with the bytes before the first fault, its own rules aside: numbers out of range, trees that aren't
/// canonical, heights.
pub fn front_laws()
    ensures before { (bytes : List ℕ) (kind : Kind) (place : ℕ) → first_book_fault bytes ≡ Some (fault_at kind place) → IsFrontOfBook (take place bytes) }
{}
