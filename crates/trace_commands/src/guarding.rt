//! The guards by which a log is judged.
ghost use Rattle.std.specs.Prelude.{◌≡◌, ℕ, List, Option, Some, None, IfOk, IsErr, MatchResult, option_map};
ghost use Rattle.trace_commands.specs.Outcomes.{IsGuarding, IsGuardsText};

use crate::answering::{LONGEST, Outcome, over, unread};
use crate::lines::fault_line;
use crate::words::Row;
use edge::{Folder, ReadEnd, read_file};
use log_guess::{GivenEnd, GuessEnd, Guessed, guess_file, read_guards};
use logs::Guards;
use std::alloc::{AllocError as NoMemory, Global};

/// Guards, and how many bytes of the log were read to guess them; or the outcome where there are none.
#[derive(Drop)]
pub enum Guarding {
    Guards(Guards, Option<u64>),
    Ended(Outcome),
}

/// There are no guards, and it ended so.
fn ended(outcome: Result<Outcome, NoMemory>) -> Result<Guarding, NoMemory>
    ensures { MatchResult result (λ g. MatchResult outcome (λ o. g ≡ Guarding.Ended o) (λ _. ⊥)) (λ _. IsErr outcome) }
{
    match outcome {
        Ok(outcome) => Ok(Guarding::Ended(outcome)),
        Err(NoMemory) => Err(NoMemory),
    }
}

/// Guards that were guessed.
fn found(guessed: Guessed) -> Guarding
    ensures { result ≡ Guarding.Guards guessed.guards (Some guessed.many) }
{
    let Guessed { guards, many } = guessed;
    Guarding::Guards(guards, Some(many))
}

/// The guards that are guessed from a log.
fn guessed<F: Folder>(alloc: Global, folder: &mut F, log: &str) -> Result<Guarding, NoMemory>
    ensures told { (other : List ℕ) → F.told folder.new other ≡ F.told folder.old other }
    ensures guarding { IfOk result (IsGuarding log.now None (F.told folder.old) (F.faults folder.old) (F.faults folder.new)) }
{
    match guess_file(alloc, folder, log, LONGEST) {
        Ok(guessed) => Ok(found(guessed)),
        Err(GuessEnd::Fault) => ended(unread(alloc, log)),
        Err(GuessEnd::TooLarge) => ended(over(alloc, log)),
        Err(GuessEnd::NoMemory) => Err(NoMemory),
    }
}

/// The guards that a text gives.
fn given_in(alloc: Global, name: &str, text: &[u8]) -> Result<Guarding, NoMemory>
    ensures { (log : List ℕ) (told : List ℕ → Option (List ℕ)) (before now : List ℕ → ℕ) → ((other : List ℕ) → now other ≡ before other) → IsGuardsText (told name.now) text.now →
        IfOk result (IsGuarding log (Some name.now) told before now) }
{
    match read_guards(alloc, text) {
        Ok(guards) => Ok(Guarding::Guards(guards, None)),
        Err(GivenEnd::NoLine(line)) => {
            let text = fault_line(alloc, name, line, b"not a line of guards")?;
            Ok(Guarding::Ended(Outcome { status: 1, text }))
        }
        Err(GivenEnd::NoMemory) => Err(NoMemory),
    }
}

/// The guards that a file gives.
fn given<F: Folder>(alloc: Global, folder: &mut F, name: &str) -> Result<Guarding, NoMemory>
    ensures told { (other : List ℕ) → F.told folder.new other ≡ F.told folder.old other }
    ensures guarding { (log : List ℕ) → IfOk result (IsGuarding log (Some name.now) (F.told folder.old) (F.faults folder.old) (F.faults folder.new)) }
{
    match read_file(alloc, folder, name, LONGEST) {
        Ok(bytes) => given_in(alloc, name, bytes.as_slice()),
        Err(ReadEnd::Fault) => ended(unread(alloc, name)),
        Err(ReadEnd::TooLarge) => ended(over(alloc, name)),
        Err(ReadEnd::NoMemory) => Err(NoMemory),
    }
}

/// The guards that are asked for.
pub fn guards_for<F: Folder>(
    alloc: Global,
    folder: &mut F,
    row: &Row<'_>,
) -> Result<Guarding, NoMemory>
    ensures told { (other : List ℕ) → F.told folder.new other ≡ F.told folder.old other }
    ensures guarding { IfOk result (IsGuarding row.now.log.now (option_map (λ g. g.now) row.now.guards) (F.told folder.old) (F.faults folder.old) (F.faults folder.new)) }
{
    match row.guards {
        Some(file) => given(alloc, folder, file),
        None => guessed(alloc, folder, row.log),
    }
}
