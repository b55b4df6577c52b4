//! Nodes side by side, wherever they are kept.
ghost use Rattle.std.specs.Prelude.{◌≡◌, IfNone, IfSome};
ghost use Rattle.books.specs.Derivations.{node, no_nodes, and_node};
ghost use Rattle.books.specs.Views.{ArePremises, nodes_in};

use crate::cursor::Premises;
use crate::word::Word;

/// The first of some nodes: its word, the number of its conclusion and its premises; and the other nodes.
#[derive(Clone, Copy)]
pub struct First<F> {
    pub word: Word,
    pub number: u32,
    pub premises: F,
    pub rest: F,
}

/// Nodes side by side, in memory or in the text of a book.
pub trait Nodes: Copy {
    ghost use Rattle.books.specs.Derivations.{Nodes};

    /// What they are.
    ghost nodes: { Self → Nodes };

    /// What holds of them where they are kept.
    ghost AreKept: { Self → Type 0 };

    /// The first of them. `None` where there is none.
    fn first(self) -> Option<First<Self>>
        requires kept { AreKept self }
        ensures none { IfNone result (nodes self ≡ no_nodes) }
        ensures some { IfSome result (λ f. nodes self ≡ and_node (node f.word f.number (nodes f.premises)) (nodes f.rest)) }
        ensures premises_kept { IfSome result (λ f. AreKept f.premises) }
        ensures rest_kept { IfSome result (λ f. AreKept f.rest) };
}

impl<'a> Nodes for Premises<'a> {
    ghost nodes = { λ p. nodes_in p.rest.now };

    ghost AreKept = { λ p. ArePremises p (nodes_in p.rest.now) };

    fn first(self) -> Option<First<Self>> {
        let mut rest = self;
        let view = rest.next()?;
        Some(First {
            word: view.word,
            number: view.number,
            premises: view.premises(),
            rest,
        })
    }
}
