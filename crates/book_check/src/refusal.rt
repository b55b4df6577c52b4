//! Why an operation on trees isn't made.
ghost use Rattle.std.specs.Prelude.{◌≡◌};
ghost use Rattle.book_check.specs.declared.refusal.Refusal.TheVariants as refusal;

use std::alloc::AllocError;

/// Why an operation on trees isn't made.
#[derive(Clone, Copy, Debug, PartialEq, Eq)]
pub enum Refusal {
    /// Memory was wanting.
    NoMemory,
    /// It would take more work than it may.
    Work,
}

impl From<AllocError> for Refusal {
    ghost from_gives = { λ _ e. e ≡ refusal.NoMemory };

    fn from(_: AllocError) -> Self {
        Refusal::NoMemory
    }
}

/// Where no work that ends is told apart from want of memory.
impl From<Refusal> for AllocError {
    fn from(_: Refusal) -> Self {
        AllocError
    }
}
