//! Sets of held paths as lists.
ghost use Rattle.std.specs.Prelude.{◌≡◌};
ghost use Rattle.algebra.specs.HeldPaths.{has_path};

use paths::Path;

/// Whether the list has the path.
pub fn has(paths: &[Path], path: &Path) -> bool
    ensures { result ≡ has_path paths.now path.now }
{
    paths.iter().any(|other| other.same(path))
}
