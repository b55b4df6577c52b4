//! Cells whose numbers rise.
ghost use Rattle.std.specs.Prelude.{◌≡◌, ℕ, ◌<◌, ◌≢◌, Bool, true, false, not, IsTrue, length, Contains, MatchOption, IfOk, OnErr};
ghost use Rattle.fixpoint.specs.Assignments.{CellNumbers, IsAbove, AreAllMet};

use std::alloc::{AllocError as NoMemory, Global};

/// Cells that each hold numbers and demand something of the numbers of all cells. A cell is named by its place.
pub trait Rising {
    // The assignment that stands now.
    ghost marks: { Self → CellNumbers };

    // Whether the demand of a cell is met at an assignment.
    ghost met: { Self → CellNumbers → ℕ → Bool };

    // How often a cell can still rise, at most.
    ghost left: { Self → ℕ };

    // Whether the demand of the first cell may look at the numbers of the second.
    ghost looks: { Self → ℕ → ℕ → Bool } = { λ _ _ _. true };

    // What a state has kept of an earlier one, beside its cells.
    ghost keeps: { Self → Self → Type 0 } = { λ _ _. Unit {0} };

    /// The number of cells.
    fn cells(&self) -> usize
        ensures { result ≡ length (marks self.now) };

    /// How often a cell can still rise, at most.
    fn room(&self) -> u64
        ensures { result ≡ left self.now };

    /// The cells whose demands may look at a cell, or none where every cell's may.
    fn readers(&self, cell: usize) -> Option<&[usize]>
        ensures { MatchOption result (Unit {0}) (λ readers. (reader : ℕ) →
            reader < length (marks self.now) → looks self.now reader cell ≡ true → Contains readers.now reader) }
    {
        None
    }

    /// Raises the numbers of a cell whose demand is not met, and says whether it did.
    fn raise(&mut self, alloc: Global, cell: usize) -> Result<bool, NoMemory>
        requires { cell < length (marks self.old) }
        ensures same_met { met self.new ≡ met self.old }
        ensures same_looks { looks self.new ≡ looks self.old }

        // It rises exactly where the demand is not met, and else nothing changes.
        ensures exact { IfOk result (λ raised. raised ≡ not (met self.old (marks self.old) cell)) }
        ensures kept { IfOk result (λ raised. raised ≡ false → marks self.new ≡ marks self.old) }
        ensures kept_room { IfOk result (λ raised. raised ≡ false → left self.new ≡ left self.old) }

        // It rises no higher than any closed assignment asks.
        ensures rises { IfOk result (λ raised. IsTrue raised → IsAbove (marks self.new) (marks self.old)) }
        ensures under { IfOk result (λ raised. IsTrue raised → (x : CellNumbers) →
            AreAllMet (met self.old) x → IsAbove x (marks self.old) → IsAbove x (marks self.new)) }
        ensures room_falls { IfOk result (λ raised. IsTrue raised → left self.new < left self.old) }

        // A demand that doesn't look at this cell is met after the rise: the cell's own, and each that was met before.
        ensures others { IfOk result (λ raised. IsTrue raised → (other : ℕ) → looks self.old other cell ≡ false →
            (other ≢ cell → IsTrue (met self.old (marks self.old) other)) → IsTrue (met self.old (marks self.new) other)) }

        // What was kept is kept on, also where memory is wanting.
        ensures keeps { (earlier : Self) → keeps earlier self.old → keeps earlier self.new }

        ensures err { OnErr result (marks self.new ≡ marks self.old) };
}
