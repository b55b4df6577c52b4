//! How much work on trees the judgement of a book may make. Whoever wrote the book, the judgement comes to an end soon. Trees over the
//! few paths near a method are small, so the work on them needs no bound.
ghost use Rattle.std.specs.Prelude.{◌≡◌, IfErr};
ghost use Rattle.book_check.specs.declared.refusal.Refusal.{Refusal};
ghost use Rattle.book_check.specs.Works.{IsUnbounded};

use crate::refusal::Refusal;
use std::cell::Cell;

/// How deep an operation may go.
pub const MOST_DEPTH: u32 = 512;

/// The work that may be made.
#[derive(Clone, Copy)]
pub enum Work<'a> {
    /// Visits of so many pairs of subtrees as are left here.
    Bounded(&'a Cell<u32>),
    /// As much as it takes.
    Unbounded,
}

/// The work of a step by pairs: what may be made on trees, and what may be visited.
#[derive(Clone, Copy)]
pub struct StepWork<'a, 'b> {
    /// What the trees that a part has of its own may take.
    pub trees: Work<'a>,
    /// What comparing pairs of trees may take.
    pub pairs: Work<'b>,
}

impl<'a> Work<'a> {
    /// Takes these pairs from what is left. Refused where less is left, and then nothing is taken.
    pub fn take(self, pairs: u32) -> Result<(), Refusal>
        ensures { IsUnbounded self.entry → IfErr result (λ e. e ≡ Refusal.NoMemory) }
    {
        let Work::Bounded(left) = self else {
            return Ok(());
        };
        match left.get().checked_sub(pairs) {
            Some(rest) => {
                left.set(rest);
                Ok(())
            }
            None => Err(Refusal::Work),
        }
    }
}
