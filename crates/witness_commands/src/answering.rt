//! What is answered to the bytes of a source and of a schedule.

ghost use Rattle.std.specs.Prelude.{◌≢◌, ◌≤◌, ℕ, List, length, IfOk, MatchResult};
ghost use Rattle.lexer.specs.Limits.{longest_source};
ghost use Rattle.sources.specs.Limits.{longest_second_file};
ghost use Rattle.core_program.specs.Core.{Program};
ghost use Rattle.core_program.specs.Views.{program_of};
ghost use Rattle.machine.specs.declared.deed.StepEnd.TheVariants as ends;
ghost use Rattle.witness.specs.Verdicts.{IsVerdict, IsNoVerdict};
ghost use Rattle.schedule_commands.specs.Schedules.{NoOrder};
ghost use Rattle.sources.specs.Checking.{IsSourceOf};
ghost use Rattle.sources.specs.Refusals.{IsRight, Tells};
ghost use Rattle.report.specs.Schedules.{stopped_line};
ghost use Rattle.witness_commands.specs.Answers.{IsSaid, RefusesInput, AnswersSchedule, most_states};

use crate::lines::{broken_line, undecided_line};
use compile::compile;
use machine::Stopped;
use report::stopped_text;
use schedule::write_schedule;
use schedule_commands::{refuse_open, schedule_of};
use sources::{Ending, Refusal, Source, read_source};
use std::alloc::{AllocError as NoMemory, Global};
use std::mem::forget;
use witness::{Case, NoVerdict, Verdict, judge_schedule, witness_laws};

/// The most states that are seen.
const MOST_STATES: u32 = 20_000;

/// The status and the text that are answered.
#[derive(Drop)]
pub struct Said {
    pub status: u8,
    pub text: Vec<u8>,
}

/// The refusal of a schedule that stops so.
fn refuse_stop(alloc: Global, stopped: &Stopped) -> Refusal
    requires { stopped.now.why ≢ ends.NoMemory }
    ensures { Tells Ending.Stopped (stopped_line stopped.now) result }
{
    match stopped_text(alloc, stopped) {
        Ok(line) => Refusal::Line(Ending::Stopped, line),
        Err(NoMemory) => Refusal::NoMemory,
    }
}

/// The refusal of a schedule of which nothing is told, for this reason.
fn refuse_end(alloc: Global, end: NoVerdict) -> Refusal
    requires { (P : Program) × (s : List ℕ) × IsNoVerdict P s end }
    ensures { (P : Program) (s : List ℕ) → IsNoVerdict P s end → IsRight (NoOrder P s) result }
{
    match end {
        NoVerdict::Stopped(stopped) => refuse_stop(alloc, &stopped),
        NoVerdict::Open { thread } => refuse_open(alloc, thread),
        NoVerdict::NoMemory => Refusal::NoMemory,
    }
}

/// What is told of a schedule of a source.
fn verdict_on(alloc: Global, source: &Source, schedule: &[u32]) -> Result<Verdict, Refusal>
    requires source { (file : List ℕ) × IsSourceOf file source.now }
    requires short { length schedule.now ≤ 200000 }
    ensures { MatchResult result (IsVerdict (program_of source.now.program) most_states schedule.now) (IsRight (NoOrder (program_of source.now.program) schedule.now)) }
{
    let code = compile(alloc, &source.program)?;
    let case = Case {
        program: &source.program,
        code: &code,
        schedule,
        most: MOST_STATES,
    };
    match judge_schedule(alloc, &case) {
        Ok(verdict) => Ok(verdict),
        Err(end) => Err(refuse_end(alloc, end)),
    }
}

/// The status and the text for what is told.
fn answer_of(alloc: Global, verdict: &Verdict) -> Result<Said, NoMemory>
    ensures { IfOk result (λ said. IsSaid verdict.now said.status said.text.items) }
{
    match verdict {
        Verdict::Kept(order) => Ok(Said {
            status: 0,
            text: write_schedule(alloc, order.as_slice())?.into_bytes(),
        }),
        Verdict::Broken(sense) => Ok(Said {
            status: 2,
            text: broken_line(alloc, *sense)?.into_bytes(),
        }),
        Verdict::Undecided { seen } => Ok(Said {
            status: 16,
            text: undecided_line(alloc, *seen)?.into_bytes(),
        }),
    }
}

/// What is answered to a source and the text of a schedule; or the refusal.
fn answered_source(alloc: Global, source: &Source, text: &[u8]) -> Result<Said, Refusal>
    requires source { (file : List ℕ) × IsSourceOf file source.now }
    requires text { length text.now ≤ longest_second_file }
    ensures { (file : List ℕ) → IsSourceOf file source.now →
        MatchResult result (λ said. AnswersSchedule file text.now said.status said.text.items) (IsRight (RefusesInput file text.now)) }
{
    witness_laws();
    let schedule = schedule_of(alloc, text)?;
    let verdict = verdict_on(alloc, source, schedule.as_slice())?;
    Ok(answer_of(alloc, &verdict)?)
}

/// What is answered to the bytes of both files; or the refusal.
fn answered(alloc: Global, file: &[u8], text: &[u8]) -> Result<Said, Refusal>
    requires file { length file.now ≤ longest_source }
    requires text { length text.now ≤ longest_second_file }
    ensures { MatchResult result (λ said. AnswersSchedule file.now text.now said.status said.text.items) (IsRight (RefusesInput file.now text.now)) }
{
    let source = read_source(alloc, file)?;
    let out = answered_source(alloc, &source, text);
    forget(source);
    out
}

/// How it ends, and the text that is written, for the bytes of a source and of the text of a schedule.
pub fn judge_files(alloc: Global, file: &[u8], text: &[u8]) -> Result<Said, NoMemory>
    requires file { length file.now ≤ longest_source }
    requires text { length text.now ≤ longest_second_file }
    ensures { IfOk result (λ said. AnswersSchedule file.now text.now said.status said.text.items) }
{
    match answered(alloc, file, text) {
        Ok(said) => Ok(said),
        Err(Refusal::Line(ending, line)) => Ok(Said {
            status: ending.code(),
            text: line.into_bytes(),
        }),
        Err(Refusal::NoMemory) => Err(NoMemory),
    }
}
