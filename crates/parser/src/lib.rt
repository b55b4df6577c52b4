//! The parser, by recursive descent with one token of preview: first the expressions and the statements that hold no
//! statement, then blocks, members and programs. The limit of height bounds the depth.
#![tactic(auto)]

mod compound;
mod expression;
mod faults;
mod levels;
mod lexeme;
mod member;
mod nodes;
mod parser;
mod plain;
mod program;
mod starts;
mod stop;
mod tokens;
mod words;

pub use compound::{Braces, block};
pub use expression::{LEVELS, chain, dots, new_rest, primary};
pub use faults::ParseFault;
pub use lexeme::{Lexeme, lexemes};
pub use nodes::{Arguments, Parsed};
pub use parser::{parse, parse_laws};
pub use plain::{condition, plain_statement};
pub use starts::{begins_statement, goes_on};
pub use stop::{Stop, SyntaxFault};
pub use tokens::{accept, begins, begins_name, flag, is_leaf, is_name_token, name, take};
pub use words::{field_name, lock, type_name};
