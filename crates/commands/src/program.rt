//! The top call of the program.

ghost use Rattle.std.specs.Prelude.{◌≡◌, ◌⊎◌, ◌≤◌, ◌+◌, ℕ, List, Option, Contains, length, map, IfOk, MatchResult, string_bytes};
ghost use Rattle.std.specs.Io.KnownBytes.{Keeps};
ghost use Rattle.edge.specs.Faults.{Rose};
ghost use Rattle.sources.specs.Refusals.{IsRight};
ghost use Rattle.sources.specs.declared.refusal.Ending.{Ending as EndingData};
ghost use Rattle.sources.specs.Files.{HasSameFaults, WritesText};
ghost use Rattle.commands.specs.Lines.{usage_line};
ghost use Rattle.commands.specs.Rows.{Row, IsRow, IsNoRow, IsWithin, limits_of};
ghost use Rattle.commands.specs.Files.{IsAskedRow, AreBounded};
ghost use Rattle.edge.specs.Said.{IsTroubleStatus, SaysText};
ghost use Rattle.commands.specs.Answers.{CommandAnswer, IsExactStatus, Belongs};
ghost use Rattle.commands.specs.Said.{WritesUnread, WritesTooLarge, WritesAnswerToBytes, WritesFront, WritesFrontToBytes};
ghost use Rattle.commands.specs.Commands.{row_of_words, exit_status};
ghost use Rattle.edge.specs.Calls.{call_record};
ghost use Rattle.commands.specs.Headline.{Headline};
ghost use Rattle.commands.specs.Books.{Books};
ghost use Rattle.commands.specs.OpenCalls.{OpenCalls};
ghost use Rattle.commands.specs.Refutations.{Refutations};
ghost use Rattle.commands.specs.NoCircles.{NoCircles};
ghost use Rattle.commands.specs.ReplayedCalls.{ReplayedCalls};
ghost use Rattle.commands.specs.Outcomes.{IsUnreadFor, IsOutcome};

use crate::command::{Command, Words, words_of};
use crate::files::{Unread, file_at, read_files};
use crate::lines::USAGE;
use crate::status::Status;
use edge::{Folder, Sink, cannot_read_line, too_large_line};
use evidence_commands::{blame_source, derive_book, order_levels, verify_blame, verify_book};
use schedule_commands::{generate_figures, replay_calls, run_schedule, serialise, serialise_open};
use sources::{Ending, Refusal, check, print};
use std::alloc::{AllocError as NoMemory, Global};

/// A status of the program, and the text that is written with it.
#[derive(Drop)]
struct Outcome {
    status: Status,
    text: Vec<u8>,
}

/// The text of the command for the bytes of its files, or the refusal.
fn answer(alloc: Global, command: Command, files: &[Vec<u8>]) -> Result<Vec<u8>, Refusal>
    requires within { IsWithin command }
    requires bounded { AreBounded (limits_of command) (map (λ file. file.items) files.now) }
    ensures { MatchResult result (λ text. CommandAnswer command (map (λ file. file.items) files.now) Ending.Done text.items) (IsRight (CommandAnswer command (map (λ file. file.items) files.now))) }
{
    match command {
        Command::Check => check(alloc, file_at(files, 0)),
        Command::Print => print(alloc, file_at(files, 0)),
        Command::Run => run_schedule(alloc, file_at(files, 0), file_at(files, 1)),
        Command::Serialise => serialise(alloc, file_at(files, 0), file_at(files, 1)),
        Command::Derive => derive_book(alloc, file_at(files, 0)),
        Command::Verify => verify_book(alloc, file_at(files, 0), file_at(files, 1)),
        Command::SerialiseOpen => serialise_open(alloc, file_at(files, 0), file_at(files, 1)),
        Command::Blame => blame_source(alloc, file_at(files, 0)),
        Command::VerifyBlame => verify_blame(alloc, file_at(files, 0), file_at(files, 1)),
        Command::Levels => order_levels(alloc, file_at(files, 0), file_at(files, 1)),
        Command::Replay => replay_calls(alloc, file_at(files, 0), file_at(files, 1)),
        Command::Generate(workers) => generate_figures(alloc, workers),
    }
}

/// The status and the text of the command for the bytes of its files.
fn ended(alloc: Global, command: Command, files: &[Vec<u8>]) -> Result<Outcome, NoMemory>
    requires within { IsWithin command }
    requires bounded { AreBounded (limits_of command) (map (λ file. file.items) files.now) }
    ensures { IfOk result (λ o. (ending : EndingData) × (o.status ≡ Status.Ended ending) × CommandAnswer command (map (λ file. file.items) files.now) ending o.text.items) }
{
    match answer(alloc, command, files) {
        Ok(text) => Ok(Outcome {
            status: Status::Ended(Ending::Done),
            text,
        }),
        Err(Refusal::Line(ending, line)) => Ok(Outcome {
            status: Status::Ended(ending),
            text: line.into_bytes(),
        }),
        Err(Refusal::NoMemory) => Err(NoMemory),
    }
}

/// The line for files that weren't read.
fn unread(alloc: Global, end: Unread<'_>) -> Result<Outcome, NoMemory>
    ensures { (row : Row) (told : List ℕ → Option (List ℕ)) (before now : List ℕ → ℕ) → IsUnreadFor (limits_of row.command) row.names told before now end.entry →
        IfOk result (λ o. IsOutcome row told before now o.status o.text.items) }
{
    match end {
        Unread::Fault(name) => Ok(Outcome {
            status: Status::CannotRead,
            text: cannot_read_line(alloc, name)?.into_bytes(),
        }),
        Unread::TooLarge(name) => Ok(Outcome {
            status: Status::TooLarge,
            text: too_large_line(alloc, name)?.into_bytes(),
        }),
        Unread::NoMemory => Err(NoMemory),
    }
}

/// Reads the files of the row, and does what its command says.
fn perform<F: Folder>(alloc: Global, folder: &mut F, words: Words<'_>) -> Result<Outcome, NoMemory>
    requires within { IsWithin words.command }
    requires files { length (row_of_words words).names ≡ length (limits_of words.command) }
    ensures outcome { IfOk result (λ o. IsOutcome (row_of_words words.entry) (F.told folder.old) (F.faults folder.old) (F.faults folder.new) o.status o.text.items) }
    ensures opened { F.opened folder.new ≤ F.opened folder.old + length (row_of_words words.entry).names }
{
    match read_files(alloc, folder, words.command.limits(), words.names) {
        Ok(files) => ended(alloc, words.command, files.as_slice()),
        Err(end) => unread(alloc, end),
    }
}

/// Writes the text, and gives the status, or that of a sink that failed.
fn say<K: Sink>(sink: &mut K, status: Status, text: &[u8]) -> u8
    ensures { SaysText result (exit_status status) text.now (K.written sink.old) (K.written sink.new) (K.faults sink.old) (K.faults sink.new) }
{
    edge::say(sink, status.code(), text)
}

/// Does what the words say, over this folder and this sink, and answers the exit status.
///
/// The words are the command line without the program's name. Statuses: 0, the command was done and its text was written; 1,
/// the source is refused as it stands; 2, no assignment of atomicities is admissible; 3, the text of the schedule is none; 4, an
/// entry of the schedule can't step; 5, the schedule ends with a thread inside an atomic call; 6, a file can't be read; 7, the text
/// can't be written; 8, memory was refused; 9, the words are no row; 10, a file is over its limit; 11, the text of the book is none,
/// or its book is wrong for the source; 12, there is no certificate of refusal, since the source is accepted; 13, the text of the
/// certificate is none, or it is none for the source; 14, the text of the levels is none, or the source isn't ordered by them; 15, a
/// call is too deep to be evaluated. Each status but 0, 7 and 8 writes the one line that says why, and all texts go to the sink.
pub fn run<F: Folder, K: Sink>(alloc: Global, words: &[String], folder: &mut F, sink: &mut K) -> u8
    // Words that are no row: this path takes no memory, so it never answers 8.
    ensures usage { IsNoRow (map string_bytes words.now) → SaysText result 9 usage_line (K.written sink.old) (K.written sink.new) (K.faults sink.old) (K.faults sink.new) }
    ensures usage_only { result ≡ 9 → IsNoRow (map string_bytes words.now) }

    // Files are read in the order of the words, and the first refusal is the answer: this is the first that can't be read, or the
    // first that is over its limit, and else none failed.
    ensures cannot_read { (row : Row) → IsRow (map string_bytes words.now) row → result ≡ 6 →
        WritesUnread row (F.told folder.old) (F.faults folder.old) (F.faults folder.new) (K.written sink.old) (K.written sink.new) }
    ensures too_large { (row : Row) → IsRow (map string_bytes words.now) row → result ≡ 10 →
        WritesTooLarge row (F.told folder.old) (F.faults folder.old) (F.faults folder.new) (K.written sink.old) (K.written sink.new) }
    ensures quiet { IsTroubleStatus result ⊎ HasSameFaults (F.faults folder.old) (F.faults folder.new) }

    // A sink that fails, want of memory.
    ensures cannot_write { result ≡ 7 → Rose (K.faults sink.old) (K.faults sink.new) }
    ensures no_memory { result ≡ 8 → Keeps (K.written sink.old) (K.written sink.new) }

    // Whether or not the folder tells the files: they have bytes to which status and text are the answer.
    ensures bytes { (row : Row) → IsRow (map string_bytes words.now) row →
        IsTroubleStatus result ⊎ WritesAnswerToBytes row (F.told folder.old) result (K.written sink.old) (K.written sink.new) }

    // Where the sink failed, a front of such a text was written, or of the line of a file that can't be read.
    ensures cut_short { (row : Row) → IsRow (map string_bytes words.now) row → result ≡ 7 →
        WritesFrontToBytes row (F.told folder.old) (F.faults folder.old) (F.faults folder.new) (K.written sink.old) (K.written sink.new) }

    // Each file of a row is opened once, so the answer speaks of one file.
    ensures opened { (row : Row) → IsRow (map string_bytes words.now) row → F.opened folder.new ≤ F.opened folder.old + length row.names }

    // The files are told: each status comes exactly where its fact holds, and the text is the one that belongs to it.
    ensures exact { (row : Row) (files : List (List ℕ)) → IsAskedRow (map string_bytes words.now) (F.told folder.old) row files → IsExactStatus row files result }
    ensures text { (row : Row) (files : List (List ℕ)) → IsAskedRow (map string_bytes words.now) (F.told folder.old) row files →
        IsTroubleStatus result ⊎ WritesText (Belongs row files result) (K.written sink.old) (K.written sink.new) }
    ensures front { (row : Row) (files : List (List ℕ)) → IsAskedRow (map string_bytes words.now) (F.told folder.old) row files → result ≡ 7 →
        WritesFront row files (F.told folder.old) (F.faults folder.old) (F.faults folder.new) (K.written sink.old) (K.written sink.new) }

    // No count rose or stands at its last value: the answer, or want of memory.
    ensures complete { (row : Row) (files : List (List ℕ)) → IsAskedRow (map string_bytes words.now) (F.told folder.old) row files →
        ((name : List ℕ) → Contains row.names name → Rose (F.faults folder.old name) (F.faults folder.new name) → ⊥) → (Rose (K.faults sink.old) (K.faults sink.new) → ⊥) →
        (result ≡ 8) ⊎ WritesText (Belongs row files result) (K.written sink.old) (K.written sink.new) }

    // The sentence that the program is for, derived from these.
    ensures headline { Headline (call_record (map string_bytes words.now) (F.told folder.old) (F.faults folder.old) (F.faults folder.new)
        (K.faults sink.old) (K.faults sink.new) (K.written sink.old) (K.written sink.new) result) }

    // What books are for, derived from these too.
    ensures books { Books (call_record (map string_bytes words.now) (F.told folder.old) (F.faults folder.old) (F.faults folder.new)
        (K.faults sink.old) (K.faults sink.new) (K.written sink.old) (K.written sink.new) result) }

    // What `serialise-open` is for, derived from these too.
    ensures open_calls { OpenCalls (call_record (map string_bytes words.now) (F.told folder.old) (F.faults folder.old) (F.faults folder.new)
        (K.faults sink.old) (K.faults sink.new) (K.written sink.old) (K.written sink.new) result) }

    // What certificates of refusal are for, derived from these too.
    ensures refutations { Refutations (call_record (map string_bytes words.now) (F.told folder.old) (F.faults folder.old) (F.faults folder.new)
        (K.faults sink.old) (K.faults sink.new) (K.written sink.old) (K.written sink.new) result) }

    // What lock levels are for, derived from these too.
    ensures no_circles { NoCircles (call_record (map string_bytes words.now) (F.told folder.old) (F.faults folder.old) (F.faults folder.new)
        (K.faults sink.old) (K.faults sink.new) (K.written sink.old) (K.written sink.new) result) }

    // What `replay` is for, derived from these too.
    ensures replayed_calls { ReplayedCalls (call_record (map string_bytes words.now) (F.told folder.old) (F.faults folder.old) (F.faults folder.new)
        (K.faults sink.old) (K.faults sink.new) (K.written sink.old) (K.written sink.new) result) }
{
    let Some(row) = words_of(words) else {
        return say(sink, Status::Usage, USAGE);
    };
    match perform(alloc, folder, row) {
        Ok(outcome) => say(sink, outcome.status, outcome.text.as_slice()),
        Err(NoMemory) => Status::NoMemory.code(),
    }
}
