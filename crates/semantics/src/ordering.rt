//! Laws of the written order.
ghost use Rattle.std.specs.Prelude.{◌≡◌, ℕ, List};
ghost use Rattle.core_program.specs.Core.{Program};
ghost use Rattle.semantics.specs.Units.{entries, written_order};
ghost use Rattle.semantics.specs.Sorted.{sorted_order};

/// The written order is the run's entries in ascending order of the commit places of their units; entries of one unit keep
/// their order.
pub fn order_laws()
    ensures sorted { (P : Program) (s : List ℕ) → written_order P s ≡ sorted_order (entries P s) }
{}
