//! Why reading stops.

ghost use Rattle.std.specs.Prelude.{◌≡◌};

use crate::lexeme::Lexeme;
use std::alloc::{AllocError, AllocFailed};

/// Why tokens can't be read: one is not expected where it stands, or a node would be too high.
#[derive(Clone, Copy, Debug, PartialEq, Eq)]
pub enum SyntaxFault {
    Unexpected,
    TooDeep,
}

/// Want of memory, or a fault and the tokens from the faulty one on.
#[derive(Drop)]
pub enum Stop<'t, 'a> {
    Memory,
    Fault(SyntaxFault, &'t [Lexeme<'a>]),
}

impl<'t, 'a> From<AllocError> for Stop<'t, 'a> {
    ghost use Rattle.parser.specs.declared.stop.Stop.TheVariants.{Memory};

    ghost from_gives = { λ _ e. e ≡ Memory };

    fn from(_error: AllocError) -> Stop<'t, 'a> {
        Stop::Memory
    }
}

impl<'t, 'a, T: Drop> From<AllocFailed<T>> for Stop<'t, 'a> {
    ghost use Rattle.parser.specs.declared.stop.Stop.TheVariants.{Memory};

    ghost from_gives = { λ _ e. e ≡ Memory };

    fn from(_error: AllocFailed<T>) -> Stop<'t, 'a> {
        Stop::Memory
    }
}
