//! The core program: what elaboration makes of a source, in numbers. Types, lent parts, and lock expressions.
#![tactic(auto)]

pub mod examples;
mod laws;
mod lent;
mod lock;
mod overriding;
mod program;
mod tree;
mod types;

pub use laws::{lists_as_plain_data, paths_are_locks};
pub use lock::path_of;
pub use program::{CoreClass, CoreField, CoreMethod, CoreProgram};
pub use tree::{CoreExpr, CoreStmt};
pub use types::{CoreOp, CoreType, UnaryOp};
