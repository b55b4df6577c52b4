//! Method lines of a book, wherever they are kept.
ghost use Rattle.std.specs.Prelude.{◌≡◌, ◌∷◌, [], map, IfNone, IfSome};
ghost use Rattle.books.specs.Derivations.{node};
ghost use Rattle.books.specs.Memory.{method_line_of};
ghost use Rattle.books.specs.Views.{lines_in, IsAtSome};

use crate::cursor::{BookCursor, Premises};
use crate::derivation::{Derivation, InMemory};
use crate::nodes::Nodes;
use crate::word::Word;
use paths::MethodId;

/// The first of some method lines: the method, the number of its tree, and the word, the number and the premises of its body's
/// node; and the other lines.
#[derive(Clone, Copy)]
pub struct FirstLine<F, L> {
    pub id: MethodId,
    pub number: u32,
    pub word: Word,
    pub node: u32,
    pub premises: F,
    pub rest: L,
}

/// Method lines, in memory or in the text of a book.
pub trait Lines: Copy {
    ghost use Rattle.std.specs.Prelude.{List};
    ghost use Rattle.books.specs.Books.{Line};

    /// How premises are kept.
    type Premises: Nodes;

    /// What they are.
    ghost lines: { Self → List Line };

    /// What holds of them where they are kept.
    ghost AreLinesKept: { Self → Type 0 };

    /// The first of them. `None` where there is none.
    fn first_line(self) -> Option<FirstLine<Self::Premises, Self>>
        requires kept { AreLinesKept self }
        ensures none { IfNone result (lines self ≡ []) }
        ensures some { IfSome result (λ f. lines self ≡ record { id = f.id; number = f.number; body = node f.word f.node (Self.Premises.nodes f.premises) } ∷ lines f.rest) }
        ensures premises_kept { IfSome result (λ f. Self.Premises.AreKept f.premises) }
        ensures rest_kept { IfSome result (λ f. AreLinesKept f.rest) };
}

/// Method lines in memory.
#[derive(Clone, Copy)]
pub struct LinesInMemory<'a> {
    pub lines: &'a [(MethodId, u32, Derivation)],
}

impl<'a> Lines for LinesInMemory<'a> {
    type Premises = InMemory<'a>;

    ghost lines = { λ m. map method_line_of m.lines.now };

    ghost AreLinesKept = { λ m. Unit {0} };

    fn first_line(self) -> Option<FirstLine<InMemory<'a>, Self>> {
        let (first, rest) = self.lines.split_first()?;
        let body = first.2.lent();
        Some(FirstLine {
            id: first.0,
            number: first.1,
            word: body.word,
            node: body.number,
            premises: InMemory {
                nodes: body.premises,
            },
            rest: LinesInMemory { lines: rest },
        })
    }
}

impl<'a> Lines for BookCursor<'a> {
    type Premises = Premises<'a>;

    ghost lines = { λ c. lines_in c.lines.now };

    ghost AreLinesKept = { IsAtSome };

    fn first_line(self) -> Option<FirstLine<Premises<'a>, Self>> {
        let mut rest = self;
        let Some(line) = rest.next_method() else {
            return None;
        };
        Some(FirstLine {
            id: line.id,
            number: line.number,
            word: line.node.word,
            node: line.node.number,
            premises: line.node.premises(),
            rest,
        })
    }
}
