//! `derive FILE`.

ghost use Rattle.std.specs.Prelude.{◌≤◌, ℕ, List, length, MatchResult};
ghost use Rattle.lexer.specs.Limits.{longest_source};
ghost use Rattle.sources.specs.Checking.{IsSourceOf};
ghost use Rattle.sources.specs.Refusals.{IsRight};
ghost use Rattle.evidence_commands.specs.Derive.{DeriveAnswer};

use books::write_book;
use derive::derive;
use sources::{Ending, Refusal, Source, accepted, read_source};
use std::alloc::Global;
use std::mem::forget;

/// The text of the book of a source that the rules accept, or the refusal.
fn book_text(alloc: Global, source: &Source) -> Result<Vec<u8>, Refusal>
    requires { (file : List ℕ) × IsSourceOf file source.now }
    ensures { (file : List ℕ) → IsSourceOf file source.now →
        MatchResult result (λ text. DeriveAnswer file Ending.Done text.items) (IsRight (DeriveAnswer file)) }
{
    let inferred = accepted(alloc, source)?;
    let book = derive(alloc, &source.program, &source.sets, &inferred)?;
    let text = write_book(alloc, &book)?;
    forget(book);
    Ok(text)
}

/// Writes the book of a source that the rules accept, or refuses it.
#[tactic(auto, using(crate::proofs::BookRows::derive_source_refused))]
pub fn derive_book(alloc: Global, bytes: &[u8]) -> Result<Vec<u8>, Refusal>
    requires { length bytes.now ≤ longest_source }
    ensures { MatchResult result (λ text. DeriveAnswer bytes.now Ending.Done text.items) (IsRight (DeriveAnswer bytes.now)) }
{
    let source = read_source(alloc, bytes)?;
    let text = book_text(alloc, &source);
    forget(source);
    text
}
