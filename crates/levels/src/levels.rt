//! Levels of classes.

/// A level for each class, in the order of their ids; levels begin at 1.
#[derive(Drop)]
pub struct Levels {
    pub of: Vec<u32>,
}
