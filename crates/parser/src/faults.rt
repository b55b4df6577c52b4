//! Why tokens have no tree.

use thiserror::Error;

/// Where a list of tokens stops being a program. Places count tokens from 0, and the end of the tokens counts as one
/// last token.
#[derive(Clone, Copy, Debug, PartialEq, Eq, Error)]
pub enum ParseFault {
    /// No program begins with the tokens up to this one, and some program begins with those before it.
    #[error("token {0} is unexpected")]
    Unexpected(u32),
    /// Every program that begins with the tokens up to this one has a method body that is too high.
    #[error("at token {0} a method body is too deep")]
    TooDeep(u32),
    #[error("out of memory")]
    NoMemory,
}
