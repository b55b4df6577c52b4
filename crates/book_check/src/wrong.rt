//! What is wrong with a book.

use crate::refusal::Refusal;
use books::BookFault;
use std::alloc::{AllocError, AllocFailed};

/// What is wrong with a book for a program: a position among the method lines, and a node of the derivation there, counted from 0
/// in the order in which nodes are written.
#[derive(Clone, Copy, Debug, PartialEq, Eq)]
pub enum Wrong {
    /// The node's word or number of premises isn't the program's; or, at node 0, the method line isn't the program's, or is
    /// missing, or is one too many.
    Shape { method: u32, node: u32 },
    /// The node's conclusion isn't at or above its rule's value; or, at node 0, the body's conclusion isn't at or below the
    /// method's tree.
    Step { method: u32, node: u32 },
    /// The method's tree tests a path that isn't relevant, or is greater somewhere with a path held than without it.
    Table { method: u32 },
    /// The method's tree breaks the method's bound.
    Bound { method: u32 },
    /// There was no memory for the judgement.
    Memory,
    /// The tree of a method that overrides this one isn't at or below its tree, at some part of its relevant paths that has its
    /// required ones.
    Override { method: u32 },
    /// The judgement would take more work than it may.
    Work,
}

/// What is wrong with a text: it is no book's, or its book is wrong for the program.
#[derive(Clone, Copy, Debug, PartialEq, Eq)]
pub enum TextWrong {
    /// The text has this fault first.
    Book(BookFault),
    /// The text is that of a book, with which this is wrong first.
    Wrong(Wrong),
}

impl From<AllocError> for Wrong {
    ghost use Rattle.std.specs.Prelude.{◌≡◌};
    ghost use Rattle.book_check.specs.declared.wrong.Wrong.TheVariants as wrong;

    ghost from_gives = { λ _ fault. fault ≡ wrong.Memory };

    fn from(_: AllocError) -> Self {
        Wrong::Memory
    }
}

impl<T: Drop> From<AllocFailed<T>> for Wrong {
    ghost use Rattle.std.specs.Prelude.{◌≡◌};
    ghost use Rattle.book_check.specs.declared.wrong.Wrong.TheVariants as wrong;

    ghost from_gives = { λ _ fault. fault ≡ wrong.Memory };

    fn from(_: AllocFailed<T>) -> Self {
        Wrong::Memory
    }
}

impl From<Refusal> for Wrong {
    ghost use Rattle.std.specs.Prelude.{◌≡◌};
    ghost use Rattle.book_check.specs.Faults.{unjudged_by};

    ghost from_gives = { λ refusal fault. fault ≡ unjudged_by refusal };

    fn from(refusal: Refusal) -> Self {
        match refusal {
            Refusal::NoMemory => Wrong::Memory,
            Refusal::Work => Wrong::Work,
        }
    }
}
