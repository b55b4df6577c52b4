//! What is asked of each node: first its shape, then its step.
ghost use Rattle.std.specs.Prelude.{◌≡◌, ◌↔◌, true};
ghost use Rattle.books.specs.Derivations.{node};
ghost use Rattle.effects.specs.Bodies.{part_of};
ghost use Rattle.book_check.specs.Judges.{judge_assignment, judge_program, judge_rel, judge_table, judge_value, AreCanonical};
ghost use Rattle.book_check.specs.Parts.{FitsPart};
ghost use Rattle.book_check.specs.Nearness.{steps_near, AreNear, AreOwnNear};
ghost use Rattle.book_check.specs.Good.{IsStep};
ghost use Rattle.book_check.specs.Works.{IsUnbounded};

use crate::parts::{part_word, same_length};
use crate::refusal::Refusal;
use crate::steps::{Steps, is_step};
use crate::walk::Asked;
use books::{Nodes, Word};
use effects::{BodyPart, inner_parts};
use std::alloc::Global;

/// Asks whether a node has the word and the number of premises of its part.
#[derive(Clone, Copy)]
pub(crate) struct Shapes;

/// Whether a node has the word and the number of premises of its part.
#[tactic(auto, using(crate::proofs::AskedLemmas::fits_is))]
fn fits<F: Nodes>(part: BodyPart<'_>, word: Word, number: u32, premises: F) -> bool
    requires { F.AreKept premises }
    ensures { (result ≡ true) ↔ FitsPart (record { part = part_of part.entry; at = node word number (F.nodes premises) }) }
{
    let same_word = word == part_word(part);
    let same_count = same_length(inner_parts(part), premises);
    same_word && same_count
}

impl Asked for Shapes {
    ghost IsGood = { λ s x. FitsPart x };

    ghost IsNear = { λ s d. Unit {0} };

    ghost IsFree = { λ s. Unit {0} };

    ghost IsReady = { λ s. Unit {0} };

    fn is_good<F: Nodes>(
        &self,
        _alloc: Global,
        part: BodyPart<'_>,
        word: Word,
        number: u32,
        premises: F,
    ) -> Result<bool, Refusal> {
        Ok(fits(part, word, number, premises))
    }
}

/// Asks whether a node's conclusion is at or above its rule's value.
impl<'a> Asked for Steps<'a> {
    ghost IsGood = { λ s x. IsStep (judge_program s.judge.now) (judge_rel s.judge.now) (judge_value s.judge.now) (judge_assignment s.judge.now) x };

    ghost IsNear = { λ s d. AreOwnNear s.judge.now × AreNear (steps_near s) (judge_table s.judge.now) d };

    ghost IsFree = { λ s. IsUnbounded s.left };

    ghost IsReady = { λ s. AreCanonical (judge_table s.judge.now) };

    fn is_good<F: Nodes>(
        &self,
        alloc: Global,
        part: BodyPart<'_>,
        _word: Word,
        number: u32,
        premises: F,
    ) -> Result<bool, Refusal> {
        is_step(alloc, self, part, number, premises)
    }
}
