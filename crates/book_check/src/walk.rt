//! A walk along the nodes of a derivation, beside the parts that they stand for.
ghost use Rattle.std.specs.Prelude.{◌≡◌, ◌↔◌, ◌+◌, true, IfErr, IfOk};
ghost use Rattle.books.specs.Derivations.{node};
ghost use Rattle.book_check.specs.Parts.{places, places_of};
ghost use Rattle.effects.specs.Bodies.{list_of, part_of};
ghost use Rattle.book_check.specs.declared.refusal.Refusal.{Refusal};
ghost use Rattle.book_check.specs.Walks.{AllIn, AllNodes, IsWalkEnd};

use crate::refusal::Refusal;
use books::{Nodes, Word};
use effects::{BodyPart, InnerParts, inner_parts};
use std::alloc::{AllocError as NoMemory, Global};

/// Where a walk ends: all nodes are good, and this number comes next; or this is the least that is not.
#[derive(Clone, Copy)]
pub(crate) enum End {
    Good(u32),
    Bad(u32),
}

/// What is asked of each node.
pub(crate) trait Asked {
    ghost use Rattle.book_check.specs.Parts.{PlacedNode};
    ghost use Rattle.books.specs.Derivations.{Node};

    /// The answer that is right.
    ghost IsGood: { Self → PlacedNode → Type 0 };

    /// Where no bound of work is met.
    ghost IsNear: { Self → Node → Type 0 };

    /// Who meets no bound of work anywhere.
    ghost IsFree: { Self → Type 0 };

    /// What holds of whoever asks.
    ghost IsReady: { Self → Type 0 };

    /// Whether a node with this word, this number and these premises is right at this part.
    fn is_good<F: Nodes>(
        &self,
        alloc: Global,
        part: BodyPart<'_>,
        word: Word,
        number: u32,
        premises: F,
    ) -> Result<bool, Refusal>
        requires kept { F.AreKept premises }
        requires ready { IsReady self.now }
        ensures good { IfOk result (λ b. (b ≡ true) ↔ IsGood self.now (record { part = part_of part.entry; at = node word number (F.nodes premises) })) }
        ensures near { IsNear self.now (node word number (F.nodes premises)) → IfErr result (λ e. e ≡ Refusal.NoMemory) }
        ensures free { IsFree self.now → IfErr result (λ e. e ≡ Refusal.NoMemory) };
}

/// The next number; want of memory where there is none, which comes with no book that fits 16,777,216 bytes.
fn after(at: u32) -> Result<u32, NoMemory>
    ensures { IfOk result (λ next. next ≡ at + 1) }
{
    match at.checked_add(1) {
        Some(next) => Ok(next),
        None => Err(NoMemory),
    }
}

/// A node: its word, the number of its conclusion and its premises.
#[derive(Clone, Copy)]
pub(crate) struct WalkedNode<F> {
    pub(crate) word: Word,
    pub(crate) number: u32,
    pub(crate) premises: F,
}

/// Walks along a node and those below it, of which it has this number.
#[cycle(walking)]
pub(crate) fn walk_node<F: Nodes, J: Asked>(
    alloc: Global,
    asked: &J,
    part: BodyPart<'_>,
    walked: &WalkedNode<F>,
    at: u32,
) -> Result<End, Refusal>
    requires kept { F.AreKept walked.now.premises }
    requires ready { J.IsReady asked.now }
    ensures end { IfOk result (λ e. IsWalkEnd (J.IsGood asked.now) (places (part_of part.entry) (node walked.now.word walked.now.number (F.nodes walked.now.premises))) at e) }
    ensures near { AllNodes (J.IsNear asked.now) (node walked.now.word walked.now.number (F.nodes walked.now.premises)) → IfErr result (λ e. e ≡ Refusal.NoMemory) }
    ensures free { J.IsFree asked.now → IfErr result (λ e. e ≡ Refusal.NoMemory) }
{
    let next = after(at)?;
    let premises = walked.premises;
    if !asked.is_good(alloc, part, walked.word, walked.number, premises)? {
        return Ok(End::Bad(at));
    }
    walk_premises(alloc, asked, inner_parts(part), premises, next)
}

/// Walks along nodes side by side and those below them, of which the first has this number.
#[cycle(walking)]
fn walk_premises<F: Nodes, J: Asked>(
    alloc: Global,
    asked: &J,
    parts: InnerParts<'_>,
    premises: F,
    at: u32,
) -> Result<End, Refusal>
    requires kept { F.AreKept premises }
    requires ready { J.IsReady asked.now }
    ensures end { IfOk result (λ e. IsWalkEnd (J.IsGood asked.now) (places_of (list_of parts.entry) (F.nodes premises)) at e) }
    ensures near { AllIn (J.IsNear asked.now) (F.nodes premises) → IfErr result (λ e. e ≡ Refusal.NoMemory) }
    ensures free { J.IsFree asked.now → IfErr result (λ e. e ≡ Refusal.NoMemory) }
{
    let mut parts = parts;
    let mut rest = premises;
    let mut next = at;
    while let Some(first) = rest.first() {
        let Some((part, others)) = parts.first() else {
            return Ok(End::Good(next));
        };
        let walked = WalkedNode {
            word: first.word,
            number: first.number,
            premises: first.premises,
        };
        match walk_node(alloc, asked, part, &walked, next)? {
            End::Good(after) => next = after,
            End::Bad(node) => return Ok(End::Bad(node)),
        }
        parts = others;
        rest = first.rest;
    }
    Ok(End::Good(next))
}
