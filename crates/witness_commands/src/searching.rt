//! What is answered to the bytes of a source alone.

ghost use Rattle.std.specs.Prelude.{◌≤◌, ℕ, List, length, IfOk, MatchResult};
ghost use Rattle.lexer.specs.Limits.{longest_source};
ghost use Rattle.sources.specs.Checking.{IsSourceOf, NoSource};
ghost use Rattle.sources.specs.Refusals.{IsRight};
ghost use Rattle.witness_commands.specs.Answers.{IsSoughtSaid, AnswersSearch};
ghost use Rattle.witness.specs.declared.seeking.Sought.TheVariants as answers;

use crate::answering::Said;
use crate::lines::{broken_line, none_found_line};
use compile::compile;
use schedule_commands::with_comments;
use sources::{Refusal, Source, read_source};
use std::alloc::{AllocError as NoMemory, Global};
use std::mem::forget;
use witness::{Found, Sought, seek, witness_laws};

/// The status and the text for a witness.
fn found_answer(alloc: Global, found: &Found) -> Result<Said, NoMemory>
    ensures { IfOk result (λ said. IsSoughtSaid (answers.Witness found.now) said.status said.text.items) }
{
    let line = broken_line(alloc, found.sense)?;
    let text = with_comments(alloc, found.schedule.as_slice(), line.as_bytes())?;
    Ok(Said { status: 2, text })
}

/// The status and the text for what was found.
fn sought_answer(alloc: Global, sought: &Sought) -> Result<Said, NoMemory>
    ensures { IfOk result (λ said. IsSoughtSaid sought.now said.status said.text.items) }
{
    match sought {
        Sought::Witness(found) => found_answer(alloc, found),
        Sought::Nothing { tried } => Ok(Said {
            status: 16,
            text: none_found_line(alloc, *tried)?.into_bytes(),
        }),
    }
}

/// What is answered to a source.
fn sought_in(alloc: Global, source: &Source) -> Result<Said, NoMemory>
    requires { (file : List ℕ) × IsSourceOf file source.now }
    ensures { (file : List ℕ) → IsSourceOf file source.now → IfOk result (λ said. AnswersSearch file said.status said.text.items) }
{
    witness_laws();
    let code = compile(alloc, &source.program)?;
    let sought = seek(alloc, &source.program, &code)?;
    sought_answer(alloc, &sought)
}

/// What is answered to the bytes of a source; or the refusal.
fn sought_or_refused(alloc: Global, file: &[u8]) -> Result<Said, Refusal>
    requires { length file.now ≤ longest_source }
    ensures { MatchResult result (λ said. AnswersSearch file.now said.status said.text.items) (IsRight (NoSource file.now)) }
{
    let source = read_source(alloc, file)?;
    let out = sought_in(alloc, &source);
    forget(source);
    match out {
        Ok(said) => Ok(said),
        Err(NoMemory) => Err(Refusal::NoMemory),
    }
}

/// How it ends, and the text that is written, for the bytes of a source alone: it looks for a witness.
pub fn seek_in_file(alloc: Global, file: &[u8]) -> Result<Said, NoMemory>
    requires { length file.now ≤ longest_source }
    ensures { IfOk result (λ said. AnswersSearch file.now said.status said.text.items) }
{
    match sought_or_refused(alloc, file) {
        Ok(said) => Ok(said),
        Err(Refusal::Line(ending, line)) => Ok(Said {
            status: ending.code(),
            text: line.into_bytes(),
        }),
        Err(Refusal::NoMemory) => Err(NoMemory),
    }
}
