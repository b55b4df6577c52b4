//! What is told of a source.

use places::LineIndex;
use sources::Source;
use syntax::Member;

/// What is told of a source: the name of its file, where its lines are, the source, and its methods in the tree.
#[derive(Clone, Copy)]
pub(crate) struct Told<'t, 'p, 'a> {
    pub(crate) file: &'t str,
    pub(crate) index: &'t LineIndex<'a>,
    pub(crate) source: &'t Source<'a>,
    pub(crate) methods: &'t Vec<&'p Member<'a>>,
}
