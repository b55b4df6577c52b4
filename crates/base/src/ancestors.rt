//! The tests for circles and for ancestors are exact.
ghost use Rattle.std.specs.Prelude.{◌≡◌, ◌<◌, ◌↔◌, ◌⊎◌, ℕ, true, Option, Some, None};
ghost use Rattle.base.specs.Ancestors.{AreBelow, IsAncestor, IsCircular, is_circular, reaches, steps_up};

/// Going up from a number goes on for as many steps as there are numbers exactly where it comes to a number that is its own
/// ancestor. Where none is, going up ends.
pub fn circle_laws()
    ensures exact { (above : ℕ → Option ℕ) (count c : ℕ) → AreBelow above count → c < count → (is_circular above count c ≡ true) ↔ IsCircular above c }
    ensures ends { (above : ℕ → Option ℕ) (count : ℕ) → AreBelow above count → ((c : ℕ) → IsAncestor above c c → ⊥) → (c : ℕ) → c < count → steps_up above count c ≡ None }
{}

/// The test finds exactly the number itself and its ancestors, also on a circle.
pub fn reaching_laws()
    ensures { (above : ℕ → Option ℕ) (count c d : ℕ) → AreBelow above count → c < count → (reaches above count (Some c) d ≡ true) ↔ ((c ≡ d) ⊎ IsAncestor above c d) }
{}
