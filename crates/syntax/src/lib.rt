//! The syntax of the language: its trees, and the grammar that relates them to lists of tokens.
#![tactic(auto)]

mod laws;
mod offsets;
mod terminal;
mod tree;

pub use laws::name_laws;
pub use terminal::Terminal;
pub use tree::{Class, Expr, Lock, MOST_HEIGHT, Member, Name, Op, Param, Program, Stmt, TypeName};
