//! What is said so far.
use crate::floors::Floors;
use crate::line::Line;

/// The lines so far, and what they say of each method.
#[derive(Drop)]
pub(crate) struct Said<'a> {
    pub(crate) floors: Floors<'a>,
    pub(crate) lines: Vec<Line>,
}
