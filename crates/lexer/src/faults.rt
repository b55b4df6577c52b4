//! Why a source has no tokens.

ghost use Rattle.std.specs.Prelude.{◌≡◌};
ghost use Rattle.lexer.specs.declared.faults.LexFault.TheVariants.{NoMemory as OutOfMemory};

use std::alloc::{AllocError, AllocFailed};
use thiserror::Error;

/// The first fault of a source, with the offset in bytes, from 0, at which it stands.
#[derive(Clone, Copy, Debug, PartialEq, Eq, Error)]
pub enum LexFault {
    /// No token, blank or comment begins with this character.
    #[error("no token begins at byte {0}")]
    BadCharacter(u32),
    /// A `/*` has no `*/` after it. The offset is that of its `/`.
    #[error("the comment at byte {0} is never closed")]
    OpenComment(u32),
    /// A number is above 2,147,483,648. The offset is that of its first digit.
    #[error("the number at byte {0} is above 2147483648")]
    LiteralTooLarge(u32),
    /// A word has more than 64 bytes. The offset is that of its first byte.
    #[error("the word at byte {0} has more than 64 bytes")]
    NameTooLong(u32),
    #[error("out of memory")]
    NoMemory,
}

impl From<AllocError> for LexFault {
    ghost from_gives = { λ _ e. e ≡ OutOfMemory };

    fn from(_error: AllocError) -> LexFault {
        LexFault::NoMemory
    }
}

impl<T: Drop> From<AllocFailed<T>> for LexFault {
    ghost from_gives = { λ _ e. e ≡ OutOfMemory };

    fn from(_error: AllocFailed<T>) -> LexFault {
        LexFault::NoMemory
    }
}
