//! Rows of overriding methods: all of them, or the nearest.
ghost use Rattle.std.specs.Prelude.{◌≡◌, ℕ, List};
ghost use Rattle.rules.specs.Search.{row_at};

use crate::nearest::NearestMethods;
use crate::overriding::OverridingMethods;
use paths::MethodId;

/// For each method a row of methods that override it.
pub trait Overriding {
    // The rows.
    ghost rows: { Self → List (List ℕ) };

    /// The row of a method; an empty one where it has none.
    fn row(&self, m: MethodId) -> &[MethodId]
        ensures { result.now ≡ row_at (rows self.now) m };
}

impl Overriding for OverridingMethods {
    ghost rows = { λ s. s };

    fn row(&self, m: MethodId) -> &[MethodId] {
        self.of(m)
    }
}

impl Overriding for NearestMethods {
    ghost rows = { λ s. s };

    fn row(&self, m: MethodId) -> &[MethodId] {
        self.of(m)
    }
}
