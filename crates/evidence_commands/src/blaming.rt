//! `blame FILE`.
ghost use Rattle.std.specs.Prelude.{◌≤◌, ℕ, List, length, MatchResult};
ghost use Rattle.lexer.specs.Limits.{longest_source};
ghost use Rattle.refutation.specs.Texts.{IsCertificateText};
ghost use Rattle.sources.specs.Checking.{IsSourceOf};
ghost use Rattle.sources.specs.Refusals.{IsRight, Tells};
ghost use Rattle.evidence_commands.specs.Blames.{BlameAnswer};
ghost use Rattle.evidence_commands.specs.CertificateLines.{nothing_line};

use refutation::{Blame, BlameEnd, blame, write_blame};
use sources::{Ending, Refusal, Source, read_source};
use std::alloc::{AllocError as NoMemory, Global};
use std::mem::forget;

/// Where the range of the count of lines ends.
const LINES_END: usize = 1 << 32;

/// The refusal where an assignment is admissible.
fn nothing_to_blame(alloc: Global) -> Refusal
    ensures { Tells Ending.NothingToBlame nothing_line result }
{
    match String::from_str(alloc, "nothing to blame\n") {
        Ok(line) => Refusal::Line(Ending::NothingToBlame, line),
        Err(NoMemory) => Refusal::NoMemory,
    }
}

/// The text of a certificate. There is no memory for more lines than numbers.
fn text_of(alloc: Global, blame: &Blame) -> Result<Vec<u8>, NoMemory>
    ensures { MatchResult result (λ text. IsCertificateText text.items blame.now) (λ _. Unit {0}) }
{
    if blame.lines().len() >= LINES_END {
        return Err(NoMemory);
    }
    write_blame(alloc, blame)
}

/// The text of the certificate of a source, or the refusal.
fn blame_text(alloc: Global, source: &Source) -> Result<Vec<u8>, Refusal>
    requires { (file : List ℕ) × IsSourceOf file source.now }
    ensures { (file : List ℕ) → IsSourceOf file source.now →
        MatchResult result (λ text. BlameAnswer file Ending.Done text.items) (IsRight (BlameAnswer file)) }
{
    match blame(alloc, &source.program, &source.sets) {
        Ok(blame) => Ok(text_of(alloc, &blame)?),
        Err(BlameEnd::Accepted) => Err(nothing_to_blame(alloc)),
        Err(BlameEnd::NoMemory) => Err(Refusal::NoMemory),
    }
}

/// Writes the certificate of refusal of a source, or refuses it.
#[tactic(auto, using(crate::proofs::Rows::blame_source_refused))]
pub fn blame_source(alloc: Global, bytes: &[u8]) -> Result<Vec<u8>, Refusal>
    requires { length bytes.now ≤ longest_source }
    ensures { MatchResult result (λ text. BlameAnswer bytes.now Ending.Done text.items) (IsRight (BlameAnswer bytes.now)) }
{
    let source = read_source(alloc, bytes)?;
    let text = blame_text(alloc, &source);
    forget(source);
    text
}
