//! Why a program isn't shown to be ordered.
use paths::{ClassId, MethodId};
use std::alloc::AllocError;

/// Why a program isn't shown to be ordered.
#[derive(Clone, Copy, Debug, PartialEq, Eq)]
pub enum LevelEnd {
    /// The method is the first in the source with a bad `synchronized`: one that takes a lock which isn't held while the walk's level
    /// isn't below that of the lock's class. `class` is that of the first of these in written order, and `under` the greatest
    /// level with which a walk comes to it badly.
    Order {
        method: MethodId,
        class: ClassId,
        under: u32,
    },
    /// There was no memory for the search.
    NoMemory,
}

impl From<AllocError> for LevelEnd {
    ghost use Rattle.std.specs.Prelude.{◌≡◌};
    ghost use Rattle.level_check.specs.declared.end.LevelEnd.TheVariants as ends;

    ghost from_gives = { λ _ end. end ≡ ends.NoMemory };

    fn from(_: AllocError) -> Self {
        LevelEnd::NoMemory
    }
}
