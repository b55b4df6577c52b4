//! Ids of the core program, and lock paths with their order, extension and renaming under a call.
#![tactic(auto)]

mod ids;
mod path;
mod renaming;

pub use ids::{ClassId, FieldId, MethodId};
pub use path::{Path, extend, order, order_laws};
pub use renaming::{Renaming, under_call};
