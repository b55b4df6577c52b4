//! The laws of the first fault of a book's text.
ghost use Rattle.std.specs.Prelude.{◌≡◌, ◌↔◌, ℕ, List, Some};
ghost use Rattle.books.specs.declared.stop.Kind.{Kind};
ghost use Rattle.books.specs.Faults.{fault_at, first_book_fault};
ghost use Rattle.book_faults.specs.Breaks.{BreaksAt};
ghost use Rattle.book_faults.specs.FirstFaults.{IsFirstBookFault};

/// The first fault of a text that is no book's stands where a rule is broken, and is of that rule's kind: a number out of range or a tree
/// that isn't canonical begins there, or a bracket too deep. Else it stands where no text goes on, of books whose numbers fit. It is the
/// only fault of which that is so.
pub fn first_book_faults()
    ensures broken { (bytes : List ℕ) (kind : Kind) (place : ℕ) → BreaksAt bytes kind place → first_book_fault bytes ≡ Some (fault_at kind place) }
    ensures exact { (bytes : List ℕ) (kind : Kind) (place : ℕ) → (first_book_fault bytes ≡ Some (fault_at kind place)) ↔ IsFirstBookFault bytes kind place }
{}
