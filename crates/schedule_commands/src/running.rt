//! `run FILE SCHEDULE`.

ghost use Rattle.std.specs.Prelude.{◌≤◌, ℕ, List, length, MatchResult};
ghost use Rattle.lexer.specs.Limits.{longest_source};
ghost use Rattle.sources.specs.Limits.{longest_second_file};
ghost use Rattle.sources.specs.Checking.{IsSourceOf};
ghost use Rattle.sources.specs.Refusals.{IsRight};
ghost use Rattle.schedule_commands.specs.Run.{RunAnswer};

use crate::schedules::{schedule_of, state_after};
use compile::compile;
use sources::{Ending, Refusal, Source, read_source};
use std::alloc::Global;
use std::mem::forget;

/// The text of the state that a schedule of a source runs to, or the refusal.
fn state_for(alloc: Global, source: &Source, text: &[u8]) -> Result<Vec<u8>, Refusal>
    requires source { (file : List ℕ) × IsSourceOf file source.now }
    requires text { length text.now ≤ longest_second_file }
    ensures { (file : List ℕ) → IsSourceOf file source.now →
        MatchResult result (λ out. RunAnswer file text.now Ending.Done out.items) (IsRight (RunAnswer file text.now)) }
{
    let schedule = schedule_of(alloc, text)?;
    let code = compile(alloc, &source.program)?;
    let state = state_after(alloc, source, &code, schedule.as_slice())?;
    Ok(state.into_bytes())
}

/// Runs a schedule of a source: the text of the state that it runs to, or the refusal.
#[tactic(auto, using(crate::proofs::ScheduleRows::run_source_refused))]
pub fn run_schedule(alloc: Global, file: &[u8], text: &[u8]) -> Result<Vec<u8>, Refusal>
    requires file { length file.now ≤ longest_source }
    requires text { length text.now ≤ longest_second_file }
    ensures { MatchResult result (λ out. RunAnswer file.now text.now Ending.Done out.items) (IsRight (RunAnswer file.now text.now)) }
{
    let source = read_source(alloc, file)?;
    let state = state_for(alloc, &source, text);
    forget(source);
    state
}
