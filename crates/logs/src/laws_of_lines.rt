//! Laws of lines.
ghost use Rattle.std.specs.Prelude.{◌≡◌, ℕ, List, Some};
ghost use Rattle.logs.specs.Said.{SaidData, said_of, Spells};

/// What a row is read as is what it spells.
pub fn lines_are_spelled()
    ensures { (row : List ℕ) (said : SaidData) → said_of row ≡ Some said → Spells said row }
{}
