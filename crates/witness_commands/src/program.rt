//! The top call of the program.

ghost use Rattle.std.specs.Prelude.{◌≡◌, ◌⊎◌, ℕ, List, Option, Some, None, map, option_map, IfOk, IfSome, string_bytes};
ghost use Rattle.std.specs.Io.KnownBytes.{Appends, Keeps};
ghost use Rattle.sources.specs.Files.{HasSameFaults, WritesText, WritesFrontOf};
ghost use Rattle.edge.specs.Faults.{Rose};
ghost use Rattle.edge.specs.Calls.{call_record};
ghost use Rattle.edge.specs.Lines.{cannot_read_line, too_large_line};
ghost use Rattle.edge.specs.Said.{SaysText, IsTroubleStatus};
ghost use Rattle.witness_commands.specs.Outcomes.{IsWitnessOutcome, IsUnreadLine};
ghost use Rattle.witness_commands.specs.Reading.{IsFirstTooLargeInput, IsFirstUnreadInput};
ghost use Rattle.witness_commands.specs.Sentence.{Witnesses};
ghost use Rattle.witness_commands.specs.Words.{NamesFiles, NamesNoFiles, witness_usage_line};
ghost use Rattle.witness_commands.specs.Written.{IsAsked, IsExact, WritesAnswerToFiles, BelongsToFiles, IsSomeTextOfFiles};

use crate::answering::{Said, judge_files};
use crate::lines::USAGE;
use crate::searching::seek_in_file;
use crate::words::names_of;
use edge::{Folder, ReadEnd, Sink, cannot_read_line, read_file, say, too_large_line};
use std::alloc::{AllocError as NoMemory, Global};

/// The most bytes that a source may have.
const LARGEST_SOURCE: u32 = 262_144;

/// The most bytes that the text of a schedule may have.
const LARGEST_SCHEDULE: u32 = 16_777_216;

/// The status and the line for a file of this name that wasn't read.
fn unread(alloc: Global, name: &str, end: ReadEnd) -> Result<Said, NoMemory>
    ensures { IfOk result (λ said. IsUnreadLine name.now end said.status said.text.items) }
{
    match end {
        ReadEnd::Fault => Ok(Said {
            status: 6,
            text: cannot_read_line(alloc, name)?.into_bytes(),
        }),
        ReadEnd::TooLarge => Ok(Said {
            status: 10,
            text: too_large_line(alloc, name)?.into_bytes(),
        }),
        ReadEnd::NoMemory => Err(NoMemory),
    }
}

/// Reads a source and a schedule, and judges.
fn judge<F: Folder>(
    alloc: Global,
    folder: &mut F,
    source: &str,
    schedule: &str,
) -> Result<Said, NoMemory>
    ensures { IfOk result (λ said. IsWitnessOutcome source.now (Some schedule.now) (F.told folder.old) (F.faults folder.old) (F.faults folder.new) said.status said.text.items) }
{
    let file = match read_file(alloc, folder, source, LARGEST_SOURCE) {
        Ok(bytes) => bytes,
        Err(end) => return unread(alloc, source, end),
    };
    let text = match read_file(alloc, folder, schedule, LARGEST_SCHEDULE) {
        Ok(bytes) => bytes,
        Err(end) => return unread(alloc, schedule, end),
    };
    judge_files(alloc, file.as_slice(), text.as_slice())
}

/// Reads a source, and looks for a witness.
fn search<F: Folder>(alloc: Global, folder: &mut F, source: &str) -> Result<Said, NoMemory>
    ensures { IfOk result (λ said. IsWitnessOutcome source.now None (F.told folder.old) (F.faults folder.old) (F.faults folder.new) said.status said.text.items) }
{
    match read_file(alloc, folder, source, LARGEST_SOURCE) {
        Ok(bytes) => seek_in_file(alloc, bytes.as_slice()),
        Err(end) => unread(alloc, source, end),
    }
}

/// Reads the files, and makes the text.
fn perform<F: Folder>(
    alloc: Global,
    folder: &mut F,
    source: &str,
    schedule: Option<&str>,
) -> Result<Said, NoMemory>
    ensures { IfOk result (λ said. IsWitnessOutcome source.now (option_map (λ name. name.now) schedule.entry) (F.told folder.old) (F.faults folder.old) (F.faults folder.new) said.status said.text.items) }
{
    match schedule {
        Some(name) => judge(alloc, folder, source, name),
        None => search(alloc, folder, source),
    }
}

/// Judges the schedule that the words name, or looks for one in the source that they name, and answers the exit status.
///
/// The words are the command line without the program's name. Statuses: 0, an order was written that interrupts no atomic call and
/// leaves the same; 1, the source is refused as it stands; 2, there is no such order, so a promise is broken, or a schedule was
/// written that has none; 3, the text of the schedule is none; 4, an entry of the schedule can't step; 5, the schedule ends with a
/// thread inside an atomic call; 6, a file can't be read; 7, the text can't be written; 8, memory was refused; 9, the words ask for
/// nothing; 10, a file is over its limit; 16, as many states were seen as may be, or no such schedule was found.
pub fn run<F: Folder, K: Sink>(alloc: Global, words: &[String], folder: &mut F, sink: &mut K) -> u8
    // Words that ask for nothing: this path takes no memory, so it never answers 8.
    ensures usage { NamesNoFiles (map string_bytes words.now) → SaysText result 9 witness_usage_line (K.written sink.old) (K.written sink.new) (K.faults sink.old) (K.faults sink.new) }
    ensures usage_only { result ≡ 9 → NamesNoFiles (map string_bytes words.now) }

    // The source is read before the schedule, where one is named, and the first refusal is the answer; else none failed.
    ensures cannot_read { (source : List ℕ) (schedule : Option (List ℕ)) → NamesFiles (map string_bytes words.now) source schedule → result ≡ 6 →
        (name : List ℕ) × IsFirstUnreadInput (F.told folder.old) (F.faults folder.old) (F.faults folder.new) source schedule name × Appends (K.written sink.old) (K.written sink.new) (cannot_read_line name) }
    ensures too_large { (source : List ℕ) (schedule : Option (List ℕ)) → NamesFiles (map string_bytes words.now) source schedule → result ≡ 10 →
        (name : List ℕ) × IsFirstTooLargeInput (F.told folder.old) (F.faults folder.old) (F.faults folder.new) source schedule name × Appends (K.written sink.old) (K.written sink.new) (too_large_line name) }
    ensures quiet { IsTroubleStatus result ⊎ HasSameFaults (F.faults folder.old) (F.faults folder.new) }

    // A sink that fails, want of memory.
    ensures cannot_write { result ≡ 7 → Rose (K.faults sink.old) (K.faults sink.new) }
    ensures no_memory { result ≡ 8 → Keeps (K.written sink.old) (K.written sink.new) }

    // Whether or not the folder tells the files: they have bytes to which status and text are the answer.
    ensures bytes { (source : List ℕ) (schedule : Option (List ℕ)) → NamesFiles (map string_bytes words.now) source schedule →
        IsTroubleStatus result ⊎ WritesAnswerToFiles source schedule (F.told folder.old) result (K.written sink.old) (K.written sink.new) }

    // The files are told: each status comes where its fact holds, and the text is the one that belongs to it.
    ensures exact { (source : List ℕ) (schedule : Option (List ℕ)) (file : List ℕ) (text : Option (List ℕ)) → IsAsked (map string_bytes words.now) (F.told folder.old) source schedule file text → IsExact file text result }
    ensures text { (source : List ℕ) (schedule : Option (List ℕ)) (file : List ℕ) (text : Option (List ℕ)) → IsAsked (map string_bytes words.now) (F.told folder.old) source schedule file text →
        IsTroubleStatus result ⊎ WritesText (BelongsToFiles source schedule file text result) (K.written sink.old) (K.written sink.new) }
    ensures front { (source : List ℕ) (schedule : Option (List ℕ)) (file : List ℕ) (text : Option (List ℕ)) → IsAsked (map string_bytes words.now) (F.told folder.old) source schedule file text → result ≡ 7 →
        WritesFrontOf (IsSomeTextOfFiles source schedule file text (F.told folder.old) (F.faults folder.old) (F.faults folder.new)) (K.written sink.old) (K.written sink.new) }

    // No count rose or stands at its last value: the answer, or want of memory.
    ensures complete { (source : List ℕ) (schedule : Option (List ℕ)) (file : List ℕ) (text : Option (List ℕ)) → IsAsked (map string_bytes words.now) (F.told folder.old) source schedule file text →
        (Rose (F.faults folder.old source) (F.faults folder.new source) → ⊥) → IfSome schedule (λ name. Rose (F.faults folder.old name) (F.faults folder.new name) → ⊥) →
        (Rose (K.faults sink.old) (K.faults sink.new) → ⊥) → (result ≡ 8) ⊎ WritesText (BelongsToFiles source schedule file text result) (K.written sink.old) (K.written sink.new) }

    // The sentence that the program is for, derived from these.
    ensures sentence { Witnesses (call_record (map string_bytes words.now) (F.told folder.old) (F.faults folder.old) (F.faults folder.new)
        (K.faults sink.old) (K.faults sink.new) (K.written sink.old) (K.written sink.new) result) }
{
    let Some((source, schedule)) = names_of(words) else {
        return say(sink, 9, USAGE);
    };
    match perform(alloc, folder, source, schedule) {
        Ok(said) => say(sink, said.status, said.text.as_slice()),
        Err(NoMemory) => 8,
    }
}
