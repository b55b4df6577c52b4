//! The rules of atomicity: relevant paths, guards, renamings, effects and accepted programs. After Flanagan and Qadeer
//! (2003), taken at one set of held locks at a time; the tables are this checker's own. For each method the nearest
//! ones that override it. From these all others that override it are reached, one after the other, so what is asked of
//! each of them need only be asked of the nearest. Which methods call a method, and that the effect of a body depends
//! on what is assigned to the methods that it calls alone.
#![tactic(auto)]

mod above;
mod body_clauses;
mod caller_laws;
mod callers;
mod cells;
mod clauses;
pub mod examples;
mod guard;
mod laws;
mod laying;
mod lookups;
mod nearest;
mod overriding;
mod passing;
mod ranges;
mod relevance;
mod renaming;
mod rows_of_overriding;
mod search;
mod sets;

pub use caller_laws::only_callees_count;
pub use callers::{Callers, callers_of};
pub use guard::{Guard, guard_at};
pub use laws::{
    closed_above_larger_sets, greater_assignments_rise, more_held_paths_fall,
    only_near_paths_count, relevant_sets_are_unique, well_formed_methods_have_few,
};
pub use lookups::{bound_of, required_of};
pub use nearest::{NearestMethods, nearest_overriders};
pub use overriding::{OverridingMethods, method_at, overriders};
pub use relevance::{RuleEnd, relevant};
pub use renaming::renaming_at;
pub use rows_of_overriding::Overriding;
pub use sets::RelevantSets;
