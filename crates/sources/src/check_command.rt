//! `check FILE`.

ghost use Rattle.std.specs.Prelude.{◌≡◌, ◌++◌, ◌≤◌, ◌^◌, ℕ, List, length, map, IfOk, OnOk, MatchResult, string_bytes};
ghost use Rattle.lexer.specs.Limits.{longest_source};
ghost use Rattle.classes.specs.Views.{table_data};
ghost use Rattle.conditions.specs.Conditions.{cond_of};
ghost use Rattle.report.specs.Verdicts.{atomicity_line};
ghost use Rattle.sources.specs.Checking.{IsSourceOf};
ghost use Rattle.sources.specs.Refusals.{IsRight};
ghost use Rattle.sources.specs.Check.{CheckAnswer, report_from};

use crate::accepting::accepted;
use crate::checking::{Source, read_source};
use crate::refusal::{Ending, Refusal};
use classes::ClassTable;
use conditions::Tree;
use paths::MethodId;
use report::atomicity_text;
use std::alloc::{AllocError as NoMemory, Global};
use std::mem::forget;

/// Writes the line of a method, with its tree.
fn write_line(
    alloc: Global,
    text: &mut String,
    table: &ClassTable,
    method: MethodId,
    tree: &Tree,
) -> Result<(), NoMemory>
    ensures { OnOk result (string_bytes text.new ≡ string_bytes text.old ++ atomicity_line (table_data table.now) method (cond_of tree.now)) }
{
    let line = atomicity_text(alloc, table, method, tree)?;
    text.push_str(line.as_str())
}

/// A line for each method, with its tree.
fn report(alloc: Global, table: &ClassTable, trees: &[Tree]) -> Result<String, NoMemory>
    requires { length trees.now ≤ 2 ^ 32 }
    ensures { IfOk result (λ text. string_bytes text ≡ report_from (table_data table.now) 0 (map cond_of trees.now)) }
{
    let mut text = String::new(alloc);
    for (m, tree) in trees.iter().enumerate() {
        write_line(alloc, &mut text, table, MethodId(m as u32), tree)?;
    }
    Ok(text)
}

/// A line for each method of a source that the rules accept, or the refusal.
#[tactic(auto, using(crate::proofs::SourceRows::rules_refused))]
fn judged(alloc: Global, source: &Source) -> Result<Vec<u8>, Refusal>
    requires { (file : List ℕ) × IsSourceOf file source.now }
    ensures { (file : List ℕ) → IsSourceOf file source.now →
        MatchResult result (λ text. CheckAnswer file Ending.Done text.items) (IsRight (CheckAnswer file)) }
{
    let inferred = accepted(alloc, source)?;
    let text = report(alloc, &source.table, inferred.methods.as_slice())?;
    Ok(text.into_bytes())
}

/// Judges a source: a line for each method, or the refusal.
#[tactic(auto, using(crate::proofs::SourceRows::source_refused))]
pub fn check(alloc: Global, bytes: &[u8]) -> Result<Vec<u8>, Refusal>
    requires { length bytes.now ≤ longest_source }
    ensures { MatchResult result (λ text. CheckAnswer bytes.now Ending.Done text.items) (IsRight (CheckAnswer bytes.now)) }
{
    let source = read_source(alloc, bytes)?;
    let text = judged(alloc, &source);
    forget(source);
    text
}
