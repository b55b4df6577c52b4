//! What a walk has seen.
use paths::{ClassId, MethodId, Path};

/// What may run: a method alone, or any of it and those that override it.
#[derive(Clone, Copy, Drop, PartialEq, Eq, Hash)]
pub struct Callee {
    pub method: MethodId,
    pub alone: bool,
}

/// What a walk comes to: what may run at a call, with those of its relevant paths that are held there, or a
/// `synchronized` on a lock of a class whose level isn't above that of the walk. `place` counts the `synchronized` of the
/// body in written order, from 0.
#[derive(Drop)]
pub enum Seen {
    Comes {
        callee: Callee,
        held: Vec<Path>,
        under: u32,
    },
    Bad {
        place: u64,
        class: ClassId,
        under: u32,
    },
}
