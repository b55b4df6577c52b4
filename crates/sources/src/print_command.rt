//! `print FILE`.

ghost use Rattle.std.specs.Prelude.{◌≤◌, length, MatchResult};
ghost use Rattle.lexer.specs.Limits.{longest_source};
ghost use Rattle.sources.specs.Programs.{NoProgram};
ghost use Rattle.sources.specs.Refusals.{IsRight, IsRightEnd};
ghost use Rattle.sources.specs.Print.{PrintAnswer};

use crate::reading::{text_of, tree_of};
use crate::refusal::{Ending, Refusal, SourceEnd, refusal_of};
use printer::print_program;
use std::alloc::Global;
use std::mem::forget;

/// The canonical text of a source that is a program of the grammar, or why it is none.
fn canonical_text(alloc: Global, bytes: &[u8]) -> Result<Vec<u8>, SourceEnd>
    requires { length bytes.now ≤ longest_source }
    ensures { MatchResult result (λ text. PrintAnswer bytes.now Ending.Done text.items) (IsRightEnd (NoProgram bytes.now)) }
{
    let text = text_of(bytes)?;
    let tree = tree_of(alloc, text)?;
    let printed = print_program(alloc, &tree)?;
    forget(tree);
    Ok(printed.into_bytes())
}

/// Writes a source in canonical layout, or refuses it.
pub fn print(alloc: Global, bytes: &[u8]) -> Result<Vec<u8>, Refusal>
    requires { length bytes.now ≤ longest_source }
    ensures { MatchResult result (λ text. PrintAnswer bytes.now Ending.Done text.items) (IsRight (PrintAnswer bytes.now)) }
{
    match canonical_text(alloc, bytes) {
        Ok(text) => Ok(text),
        Err(end) => Err(refusal_of(alloc, end)),
    }
}
