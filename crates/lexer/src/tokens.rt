//! Tokens, whose texts are slices of the source.

use std::marker::Model;

/// What a token is.
#[derive(Clone, Copy, Debug, PartialEq, Eq)]
pub enum TokenKind {
    /// A word that isn't reserved.
    Name,
    /// A reserved word.
    Word,
    /// A decimal number, at most 2,147,483,648, with its value.
    Number(u32),
    /// An operator or a mark of punctuation.
    Sign,
}

/// A token of a source, seen in contracts with its text as bytes. `text` is a slice of the source, and `at` the offset
/// of its first byte, from 0.
#[derive(Clone, Debug, Drop)]
pub struct Token<'a> {
    pub kind: TokenKind,
    pub text: &'a str,
    pub at: u32,
}

impl<'a> Model for Token<'a> {
    ghost use Rattle.lexer.specs.Seen.{SeenToken};

    ghost Value = { SeenToken };

    ghost view = { λ t. record { kind = t.kind; text = t.text.now; at = t.at } };
}
