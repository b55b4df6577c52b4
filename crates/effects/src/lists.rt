//! Held paths as a list.
ghost use Rattle.std.specs.Prelude.{◌≡◌, ◌∷◌, IfOk};
ghost use Rattle.std.specs.List.{list_all};
ghost use Rattle.algebra.specs.HeldPaths.{has_path};

use algebra::has;
use paths::Path;
use std::alloc::{AllocError as NoMemory, Global};

/// Whether each of these paths is held.
pub fn has_all(held: &[Path], paths: &[Path]) -> bool
    ensures { result ≡ list_all (has_path held.now) paths.now }
{
    for path in paths {
        if !has(held, path) {
            return false;
        }
    }
    true
}

/// A copy of the list.
pub fn copied(alloc: Global, held: &[Path]) -> Result<Vec<Path>, NoMemory>
    ensures { IfOk result (λ copies. copies.items ≡ held.now) }
{
    let mut copies = Vec::new(alloc);
    for path in held {
        copies.push(path.copy())?;
    }
    Ok(copies)
}

/// The list with one more path, which stands first.
pub fn with_path(alloc: Global, path: &Path, held: &[Path]) -> Result<Vec<Path>, NoMemory>
    ensures { IfOk result (λ more. more.items ≡ path.now ∷ held.now) }
{
    let mut more = Vec::new(alloc);
    more.push(path.copy())?;
    for other in held {
        more.push(other.copy())?;
    }
    Ok(more)
}
