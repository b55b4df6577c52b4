//! No book goes on with the byte at which the first fault of a text stands.
ghost use Rattle.std.specs.Prelude.{◌≡◌, ◌+◌, ◌<◌, ◌++◌, ◌⊎◌, ℕ, List, Some, length, take, drop};
ghost use Rattle.books.specs.declared.stop.Kind.{Kind};
ghost use Rattle.books.specs.Books.{Book};
ghost use Rattle.books.specs.Faults.{fault_at, first_book_fault};
ghost use Rattle.books.specs.Texts.{IsBookText};
ghost use Rattle.books.specs.Broken.{IsBroken};

/// The text of no book begins with the bytes up to the first fault and the byte at which it stands, unless a number out of range or a
/// tree that isn't canonical begins there.
pub fn fault_laws()
    ensures there { (bytes : List ℕ) (kind : Kind) (place : ℕ) → first_book_fault bytes ≡ Some (fault_at kind place) → place < length bytes →
        ((more : List ℕ) (book : Book) → IsBookText (take (place + 1) bytes ++ more) book → ⊥) ⊎ IsBroken bytes (drop place bytes) }
{}
