//! An assignment that can be asked.
ghost use Rattle.std.specs.Prelude.{◌≡◌};
ghost use Rattle.algebra.specs.HeldPaths.{has_path};

use algebra::Basic;
use paths::{MethodId, Path};

/// A basic for each method at each set of held paths.
pub trait Assigned {
    ghost use Rattle.rules.specs.Effect.{Assignment};

    ghost assigned: { Self → Assignment };

    /// What is assigned to a method at the set of these paths.
    fn at(&self, method: MethodId, held: &[Path]) -> Basic
        ensures { result ≡ assigned self.now method (has_path held.now) };
}
