//! Examples of what the definitions of the front end say, one for each of their cases, which the check computes. They
//! stand above all of these definitions, so that a new example proves nothing below anew.
#![tactic(auto)]

pub mod bytes;
pub mod core_programs;
pub mod expressions;
pub mod faults;
pub mod heights;
pub mod lines;
pub mod locks;
pub mod members;
pub mod overriding;
pub mod productions;
pub mod statements;
pub mod tables;
pub mod terminals;
pub mod tokens;
