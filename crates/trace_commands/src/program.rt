//! The top call of the program.
ghost use Rattle.std.specs.Prelude.{◌≡◌, ◌⊎◌, ℕ, List, Option, map, option_map, IfOk, string_bytes};
ghost use Rattle.std.specs.Io.KnownBytes.{Keeps};
ghost use Rattle.edge.specs.Faults.{Rose};
ghost use Rattle.edge.specs.Said.{SaysText};
ghost use Rattle.trace_commands.specs.Exact.{IsAskedByText, IsExactByText, IsAskedAlone, IsExactAlone};
ghost use Rattle.trace_commands.specs.Outcomes.{IsTraceOutcome, SaysOutcome};
ghost use Rattle.trace_commands.specs.Sentence.{IsSerialFile};
ghost use Rattle.trace_commands.specs.Words.{NamesLog, NamesNoLog, trace_usage_line};

use crate::answering::{Outcome, judged};
use crate::guarding::{Guarding, guards_for};
use crate::lines::USAGE;
use crate::words::{Row, row_of};
use edge::{Folder, Sink, say};
use logs::serial_texts_have_serial_logs;
use std::alloc::{AllocError as NoMemory, Global};

/// Judges the log that is asked for.
fn perform<F: Folder>(alloc: Global, folder: &mut F, row: &Row<'_>) -> Result<Outcome, NoMemory>
    ensures { IfOk result (λ o. IsTraceOutcome row.now.log.now (option_map (λ g. g.now) row.now.guards) (F.told folder.old) (F.faults folder.old) (F.faults folder.new)
        o.status o.text.items) }
{
    match guards_for(alloc, folder, row) {
        Ok(Guarding::Guards(guards, before)) => judged(alloc, folder, row.log, &guards, before),
        Ok(Guarding::Ended(outcome)) => Ok(outcome),
        Err(NoMemory) => Err(NoMemory),
    }
}

/// Judges the log that the words name, over this folder and this sink, and answers the exit status.
///
/// The words are the command line without the program's name. Statuses: 0, the log is serial; 1, a line is no line of a log, or of guards; 2, a
/// block may be cut; 3, a line can't have happened; 4, a thread is still inside a block at the end; 6, a file can't be read; 7, the text can't be
/// written; 8, memory was refused; 9, the words ask for nothing; 10, a file is over its limit.
pub fn run<F: Folder, K: Sink>(alloc: Global, words: &[String], folder: &mut F, sink: &mut K) -> u8
    // Words that ask for nothing: this path takes no memory, so it never answers 8.
    ensures usage { NamesNoLog (map string_bytes words.now) → SaysText result 9 trace_usage_line (K.written sink.old) (K.written sink.new) (K.faults sink.old) (K.faults sink.new) }
    ensures usage_only { result ≡ 9 → NamesNoLog (map string_bytes words.now) }

    // A sink that fails, want of memory.
    ensures cannot_write { result ≡ 7 → Rose (K.faults sink.old) (K.faults sink.new) }
    ensures no_memory { result ≡ 8 → Keeps (K.written sink.old) (K.written sink.new) }

    // Else what was found of the log was said, with its status; or a front of it, and the sink failed.
    ensures outcome { (log : List ℕ) (guards : Option (List ℕ)) → NamesLog (map string_bytes words.now) log guards → (result ≡ 8) ⊎
        SaysOutcome log guards (F.told folder.old) (F.faults folder.old) (F.faults folder.new) (K.written sink.old) (K.written sink.new) (K.faults sink.old) (K.faults sink.new) result }

    // The files are told: each status comes exactly where it belongs to the bytes, with the guards that the file gives; with guesses, by some guards.
    ensures exact { (log name bytes text : List ℕ) → IsAskedByText (map string_bytes words.now) (F.told folder.old) log name bytes text → IsExactByText text bytes result }
    ensures guessed { (log bytes : List ℕ) → IsAskedAlone (map string_bytes words.now) (F.told folder.old) log bytes → IsExactAlone bytes result }

    // The sentence that the program is for, derived from these.
    ensures serial { (log : List ℕ) (guards : Option (List ℕ)) → NamesLog (map string_bytes words.now) log guards → result ≡ 0 → IsSerialFile (F.told folder.old log) }
{
    serial_texts_have_serial_logs();
    let Some(row) = row_of(words) else {
        return say(sink, 9, USAGE);
    };
    match perform(alloc, folder, &row) {
        Ok(outcome) => say(sink, outcome.status, outcome.text.as_slice()),
        Err(NoMemory) => 8,
    }
}
