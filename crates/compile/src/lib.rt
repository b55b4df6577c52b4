//! Stack code and its compiler: instructions, the lines of expressions and statements, the room of operands, and what
//! it means that code stands for work lists. Each instruction is one action of the machine and names its successor, so
//! that no jump is a step of its own.
#![tactic(auto)]

mod compiler;
mod emit;
mod rooms;
mod stack;

pub use compiler::compile;
pub use emit::{emit_stmt, put};
pub use stack::{Code, CodeTable, Instr};
