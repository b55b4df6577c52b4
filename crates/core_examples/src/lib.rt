//! Examples of what the definitions say, one for each of their cases, which the check computes: whoever changes a case
//! changes an example. They stand above the definitions, so that a new example proves nothing below anew.
#![tactic(auto)]

pub mod accesses;
pub mod actions;
pub mod basics;
pub mod calls;
pub mod classes;
pub mod core_types;
pub mod effects;
pub mod insides;
pub mod judgements;
pub mod lock_paths;
pub mod locks;
pub mod memory;
pub mod mentions;
pub mod operators;
pub mod path_examples;
pub mod runs;
pub mod turns;
pub mod unfolding;
pub mod units;
