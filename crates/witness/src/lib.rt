//! Witnesses that a promise is broken: orders of schedules that interrupt no atomic call, as definitions; which
//! schedules have one; how a search shows that there is none; that a program with a witness isn't accepted; and how one
//! is looked for: schedules are proposed in which few threads are switched, and judged.
#![tactic(auto)]

mod courses;
mod direct;
mod ends;
pub mod examples;
mod goal;
mod judge;
mod laws;
mod node;
mod order_laws;
mod passing;
mod places;
mod plans;
mod schedules;
mod search;
mod seeking;
mod table;
mod unseen;
mod verdict;

pub use goal::{Compared, Goal};
pub use judge::{Judged, judge_orders, judge_ways};
pub use laws::witness_laws;
pub use order_laws::{closed_laws, comparison_laws, passing_laws, walk_laws};
pub use seeking::{Found, Sought, seek};
pub use verdict::{Case, NoVerdict, Sense, Verdict, judge_schedule};
