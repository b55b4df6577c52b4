//! A walk through the trees of a forest that is told by what stands above each node.
#![tactic(auto)]

mod left;
mod steps;

pub use steps::{Step, after, walk};
