//! The effect of a part of a body (Flanagan and Qadeer 2003), from those of the parts that it is made of: over any
//! algebra of values, for all sets of held paths at once; and at one set of held paths, which is a list, for an
//! assignment that is asked where a method is called. At one set no table of values is made, and nothing is asked of
//! the program.
#![tactic(auto)]

mod accesses;
pub mod accesses_at;
mod assigned;
mod callee_sets;
mod calls;
mod context;
mod lists;
mod locals;
mod parts;
mod rule_of_part;
mod walk_at;

pub use accesses::{Branching, access, access_value};
pub use accesses_at::variable;
pub use assigned::Assigned;
pub use callee_sets::{among, held_under};
pub use calls::{Called, call_effect};
pub use context::Context;
pub use lists::{copied, has_all, with_path};
pub use locals::{after, local_name};
pub use parts::{BodyPart, InnerParts, inner_parts};
pub use rule_of_part::rule;
pub use walk_at::{expr_effect, stmt_effect};
