//! The least closed assignment of a source, and whether every method keeps its bound in it.

ghost use Rattle.std.specs.Prelude.{ℕ, List, map, IfOk};
ghost use Rattle.conditions.specs.Conditions.{cond_of};
ghost use Rattle.core_program.specs.Views.{program_of};
ghost use Rattle.explain_commands.specs.Least.{IsLeastJudged};
ghost use Rattle.sources.specs.Checking.{IsSourceOf};

use conditions::{NodeTable, Tree};
use sources::{Ending, Judgement, Source, verdict_on};
use std::alloc::{AllocError as NoMemory, Global};

/// How it ends for a source, and trees that show its least closed assignment.
#[derive(Drop)]
pub(crate) struct Judged {
    pub(crate) ending: Ending,
    pub(crate) trees: Vec<Tree>,
}

/// The least closed assignment of a source, found in this table of nodes.
fn judged_in(alloc: Global, source: &Source<'_>, nodes: &mut NodeTable) -> Result<Judged, NoMemory>
    requires { (file : List ℕ) × IsSourceOf file source.now }
    ensures { IfOk result (λ judged. IsLeastJudged (program_of source.now.program) source.now.sets (map cond_of judged.trees.items) judged.ending) }
{
    let Judgement { inferred, verdict } = verdict_on(alloc, source, nodes)?;
    let trees = nodes.trees_of(alloc, inferred.methods.as_slice())?;
    match verdict {
        Ok(()) => Ok(Judged {
            ending: Ending::Done,
            trees,
        }),
        Err(_) => Ok(Judged {
            ending: Ending::Inadmissible,
            trees,
        }),
    }
}

/// The least closed assignment of a source, as canonical trees.
pub(crate) fn judge(alloc: Global, source: &Source<'_>) -> Result<Judged, NoMemory>
    requires { (file : List ℕ) × IsSourceOf file source.now }
    ensures { IfOk result (λ judged. IsLeastJudged (program_of source.now.program) source.now.sets (map cond_of judged.trees.items) judged.ending) }
{
    let mut nodes = NodeTable::new(alloc);
    judged_in(alloc, source, &mut nodes)
}
