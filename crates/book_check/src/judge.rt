//! What a book is judged by.
use conditions::Tree;
use core_program::CoreProgram;
use rules::RelevantSets;

/// A program with its relevant sets, the table of a book, and for each method line the number of its tree.
#[derive(Clone, Copy)]
pub struct Judge<'a> {
    pub program: &'a CoreProgram,
    pub sets: &'a RelevantSets,
    pub table: &'a [Tree],
    pub lines: &'a [u32],
}
