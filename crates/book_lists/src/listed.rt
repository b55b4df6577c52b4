//! Books in lists: the nodes of all derivations stand in one, in the order of their text.
ghost use Rattle.book_lists.specs.Listed.{unlisted, unlisted_lines, AreListed, IsList};

use books::{First, FirstLine, Lines, Nodes, Word};
use conditions::Tree;
use paths::MethodId;

/// A node of a derivation: its word, the number of its conclusion, and how many nodes are below it, which come next in the list.
#[derive(Clone, Copy)]
pub struct ListedNode {
    pub word: Word,
    pub number: u32,
    pub below: u32,
}

/// A book in lists: its table; for each method line the method and the number of its tree; and the nodes of all lines.
#[derive(Drop)]
pub struct ListedBook {
    pub table: Vec<Tree>,
    pub lines: Vec<(MethodId, u32)>,
    pub nodes: Vec<ListedNode>,
}

/// Nodes side by side in a list, with those below them.
#[derive(Clone, Copy)]
pub struct InList<'a> {
    pub nodes: &'a [ListedNode],
}

impl<'a> Nodes for InList<'a> {
    ghost nodes = { λ m. unlisted m.nodes.now };

    ghost AreKept = { λ m. IsList m.nodes.now };

    fn first(self) -> Option<First<Self>> {
        let (first, behind) = self.nodes.split_first()?;
        let (premises, rest) = behind.split_at(first.below as usize);
        Some(First {
            word: first.word,
            number: first.number,
            premises: InList { nodes: premises },
            rest: InList { nodes: rest },
        })
    }
}

/// Method lines in lists.
#[derive(Clone, Copy)]
pub struct LinesInList<'a> {
    pub lines: &'a [(MethodId, u32)],
    pub nodes: &'a [ListedNode],
}

impl<'a> Lines for LinesInList<'a> {
    type Premises = InList<'a>;

    ghost lines = { λ m. unlisted_lines m.lines.now m.nodes.now };

    ghost AreLinesKept = { λ m. AreListed m.lines.now m.nodes.now (unlisted_lines m.lines.now m.nodes.now) };

    fn first_line(self) -> Option<FirstLine<InList<'a>, Self>> {
        let (head, lines) = self.lines.split_first()?;
        let (body, behind) = self.nodes.split_first()?;
        let (premises, nodes) = behind.split_at(body.below as usize);
        Some(FirstLine {
            id: head.0,
            number: head.1,
            word: body.word,
            node: body.number,
            premises: InList { nodes: premises },
            rest: LinesInList { lines, nodes },
        })
    }
}
