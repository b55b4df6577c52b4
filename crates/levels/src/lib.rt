//! Lock levels (a partial order of classes by numbers): walks, contexts, ordered programs, circles of waiting threads,
//! and the types that values keep in runs.
#![tactic(auto)]

mod laws;
mod levels;
mod typed_runs;

pub use laws::{answer_laws, level_laws};
pub use levels::Levels;
pub use typed_runs::typed_laws;
