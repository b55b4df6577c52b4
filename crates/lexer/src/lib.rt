//! The tokens of a source, cut from the left by longest match, and the words that are no names.
#![tactic(auto)]

mod faults;
mod laws;
mod lexer;
mod pieces;
mod places;
mod tokens;
mod utf8;
mod words;

pub use faults::LexFault;
pub use laws::{token_laws, writing_laws};
pub use lexer::{GREATEST_LITERAL, LONGEST_SOURCE, lex};
pub use places::{Place, place_of};
pub use tokens::{Token, TokenKind};
pub use utf8::{NotText, utf8_text};
pub use words::is_reserved;
