//! What a book is derived from.
use conditions::Tree;
use core_program::CoreProgram;
use rules::RelevantSets;

/// A program with its relevant sets, and the trees that are assigned to its methods.
#[derive(Clone, Copy)]
pub(crate) struct Basis<'a> {
    pub(crate) program: &'a CoreProgram,
    pub(crate) sets: &'a RelevantSets,
    pub(crate) own: &'a [Tree],
}
