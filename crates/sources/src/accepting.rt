//! Asks whether the rules accept a well-formed source.

ghost use Rattle.std.specs.Prelude.{ℕ, List, map, IfOk, MatchResult};
ghost use Rattle.classes.specs.Views.{table_data};
ghost use Rattle.conditions.specs.Conditions.{cond_of};
ghost use Rattle.core_program.specs.Views.{program_of};
ghost use Rattle.report.specs.Verdicts.{broken_line};
ghost use Rattle.rules.specs.Rules.{IsAccepted};
ghost use Rattle.sources.specs.Checking.{IsSourceOf};
ghost use Rattle.sources.specs.Judged.{IsJudgedSource, IsJudgement};
ghost use Rattle.sources.specs.Refusals.{IsRight, Tells};
ghost use Rattle.sources.specs.Verdicts.{IsShownLeast, NoAccepted};

use crate::checking::Source;
use crate::refusal::{Ending, Refusal};
use classes::ClassTable;
use conditions::{Node, NodeTable, Tree};
use infer::{Broken, Inferred, infer, verdict};
use report::broken_text;
use std::alloc::{AllocError as NoMemory, Global};

/// The least closed assignment of a source, by nodes of a table, and the verdict: the first method whose bound it breaks.
#[derive(Drop)]
pub struct Judgement {
    pub inferred: Inferred<Node>,
    pub verdict: Result<(), Broken>,
}

/// The least closed assignment of a source, found in this table of nodes, and the verdict on it.
pub fn verdict_on(
    alloc: Global,
    source: &Source,
    nodes: &mut NodeTable,
) -> Result<Judgement, NoMemory>
    requires { (file : List ℕ) × IsSourceOf file source.now }
    ensures { IfOk result (λ judged. IsJudgement (program_of source.now.program) source.now.sets nodes.new judged.inferred.methods.items judged.verdict) }
{
    let inferred = infer(alloc, &source.program, &source.sets, nodes)?;
    let kept = verdict(&source.program, &inferred, nodes);
    Ok(Judgement {
        inferred,
        verdict: kept,
    })
}

/// The refusal of a source for a method whose bound is broken.
fn refuse_broken(alloc: Global, table: &ClassTable, broken: &Broken) -> Refusal
    ensures { Tells Ending.Inadmissible (broken_line (table_data table.now) broken.now.method broken.now.declared broken.now.found) result }
{
    match broken_text(alloc, table, broken) {
        Ok(line) => Refusal::Line(Ending::Inadmissible, line),
        Err(NoMemory) => Refusal::NoMemory,
    }
}

/// The least closed assignment of an accepted source, found in this table of nodes; else the first method whose bound it breaks.
fn judged_in(
    alloc: Global,
    source: &Source,
    nodes: &mut NodeTable,
) -> Result<Inferred<Node>, Refusal>
    requires { (file : List ℕ) × IsSourceOf file source.now }
    ensures { (file : List ℕ) → IsSourceOf file source.now →
        MatchResult result (λ inferred. IsJudgedSource (program_of source.now.program) nodes.new inferred.methods.items) (IsRight (NoAccepted file)) }
{
    let Judgement { inferred, verdict } = verdict_on(alloc, source, nodes)?;
    match verdict {
        Ok(()) => Ok(inferred),
        Err(broken) => Err(refuse_broken(alloc, &source.table, &broken)),
    }
}

/// Whether the rules accept a source; else the first method whose bound its least closed assignment breaks.
pub fn judge(alloc: Global, source: &Source) -> Result<(), Refusal>
    requires { (file : List ℕ) × IsSourceOf file source.now }
    ensures { (file : List ℕ) → IsSourceOf file source.now →
        MatchResult result (λ _. IsAccepted (program_of source.now.program)) (IsRight (NoAccepted file)) }
{
    let mut nodes = NodeTable::new(alloc);
    match judged_in(alloc, source, &mut nodes) {
        Ok(_) => Ok(()),
        Err(refusal) => Err(refusal),
    }
}

/// The least closed assignment of an accepted source, as canonical trees; else the first method whose bound it breaks.
pub fn accepted(alloc: Global, source: &Source) -> Result<Inferred<Tree>, Refusal>
    requires { (file : List ℕ) × IsSourceOf file source.now }
    ensures { (file : List ℕ) → IsSourceOf file source.now →
        MatchResult result (λ inferred. IsShownLeast (program_of source.now.program) (map cond_of inferred.methods.items)) (IsRight (NoAccepted file)) }
{
    let mut nodes = NodeTable::new(alloc);
    match judged_in(alloc, source, &mut nodes) {
        Ok(inferred) => {
            let methods = nodes.trees_of(alloc, inferred.methods.as_slice())?;
            Ok(Inferred { methods })
        }
        Err(refusal) => Err(refusal),
    }
}
