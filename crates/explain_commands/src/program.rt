//! The top call of the program.

ghost use Rattle.std.specs.Prelude.{◌≡◌, ◌⊎◌, ◌≤◌, ◌+◌, ◌++◌, ℕ, List, length, map, IfOk, string_bytes};
ghost use Rattle.std.specs.Io.KnownBytes.{Appends, Keeps};
ghost use Rattle.lexer.specs.Limits.{longest_source};
ghost use Rattle.sources.specs.Files.{HasSameFaults, IsUnread, IsOver, WritesText, WritesFrontOf};
ghost use Rattle.edge.specs.Faults.{Rose};
ghost use Rattle.edge.specs.Calls.{call_record};
ghost use Rattle.edge.specs.Lines.{cannot_read_line, too_large_line};
ghost use Rattle.edge.specs.Said.{SaysText, IsTroubleStatus};
ghost use Rattle.explain_commands.specs.declared.words.Order.{Order as OrderData};
ghost use Rattle.explain_commands.specs.Outcomes.{AreOutcomes, IsExplainOutcome};
ghost use Rattle.explain_commands.specs.Sentence.{ExplainsBroken};
ghost use Rattle.explain_commands.specs.Words.{AsksFor, AsksForAll, AsksNothing, explain_usage_line};
ghost use Rattle.explain_commands.specs.Written.{AreAnswers, AreCalm, AreTold, IsAskedFile, IsExactStatusOfFile, WritesAnswerToFile, BelongsToFile, IsSomeText, IsSomeTextToBytes, IsTextOfFiles};

use crate::answering::explain;
use crate::lines::USAGE;
use crate::words::{Order, files_of};
use crate::worse::worse;
use edge::{Folder, ReadEnd, Sink, cannot_read_line, read_file, say, too_large_line};
use std::alloc::{AllocError as NoMemory, Global};

/// The most bytes that a source may have.
const LARGEST_SOURCE: u32 = 262_144;

/// A status, and a text.
#[derive(Drop)]
struct Outcome {
    status: u8,
    text: String,
}

/// Reads a file, and makes its lines.
fn perform<F: Folder>(
    alloc: Global,
    folder: &mut F,
    order: Order,
    name: &str,
) -> Result<Outcome, NoMemory>
    ensures outcome { IfOk result (λ o. IsExplainOutcome order name.now (F.told folder.old) (F.faults folder.old) (F.faults folder.new) o.status (string_bytes o.text)) }
    ensures told { (other : List ℕ) → F.told folder.new other ≡ F.told folder.old other }
    ensures never_fall { (other : List ℕ) → F.faults folder.old other ≤ F.faults folder.new other }
    ensures opened { F.opened folder.new ≤ F.opened folder.old + 1 }
{
    match read_file(alloc, folder, name, LARGEST_SOURCE) {
        Ok(bytes) => {
            let said = explain(alloc, order, name, bytes.as_slice())?;
            Ok(Outcome {
                status: said.ending.code(),
                text: said.text,
            })
        }
        Err(ReadEnd::Fault) => Ok(Outcome {
            status: 6,
            text: cannot_read_line(alloc, name)?,
        }),
        Err(ReadEnd::TooLarge) => Ok(Outcome {
            status: 10,
            text: too_large_line(alloc, name)?,
        }),
        Err(ReadEnd::NoMemory) => Err(NoMemory),
    }
}

/// Adds the lines of a file, and gives its status.
fn add_lines<F: Folder>(
    alloc: Global,
    folder: &mut F,
    order: Order,
    name: &str,
    text: &mut String,
) -> Result<u8, NoMemory>
    ensures outcome { IfOk result (λ status. (lines : List ℕ) × IsExplainOutcome order name.now (F.told folder.old) (F.faults folder.old) (F.faults folder.new) status lines
        × (string_bytes text.new ≡ string_bytes text.old ++ lines)) }
    ensures told { (other : List ℕ) → F.told folder.new other ≡ F.told folder.old other }
    ensures never_fall { (other : List ℕ) → F.faults folder.old other ≤ F.faults folder.new other }
    ensures opened { F.opened folder.new ≤ F.opened folder.old + 1 }
{
    let outcome = perform(alloc, folder, order, name)?;
    text.push_str(outcome.text.as_str())?;
    Ok(outcome.status)
}

/// Reads files, one after the other, and makes the lines of all.
fn perform_all<F: Folder>(
    alloc: Global,
    folder: &mut F,
    order: Order,
    names: &[String],
) -> Result<Outcome, NoMemory>
    ensures outcomes { IfOk result (λ o. AreOutcomes order (F.told folder.old) (map string_bytes names.now) (F.faults folder.old) (F.faults folder.new) o.status (string_bytes o.text)) }
    ensures opened { F.opened folder.new ≤ F.opened folder.old + length names.now }
{
    let mut status = 0;
    let mut text = String::new(alloc);
    for name in names {
        let next = add_lines(alloc, folder, order, name.as_str(), &mut text)?;
        status = worse(status, next);
    }
    Ok(Outcome { status, text })
}

/// Explains what the words name, over this folder and this sink, and answers the exit status.
///
/// The words are the command line without the program's name. Statuses are those of `check`: 0, every method keeps its bound; 1, the
/// source is refused as it stands; 2, no assignment of atomicities is admissible (by `--strict`, none in which each method is atomic but those
/// that threads begin with); 6, the file can't be read; 7, the text can't be written;
/// 8, memory was refused; 9, the words ask for nothing; 10, the file is over its limit. Of several files it is the worst of theirs: 6, 10,
/// 1, 2, 0.
pub fn run<F: Folder, K: Sink>(alloc: Global, words: &[String], folder: &mut F, sink: &mut K) -> u8
    // Words that ask for nothing: this path takes no memory, so it never answers 8.
    ensures usage { AsksNothing (map string_bytes words.now) → SaysText result 9 explain_usage_line (K.written sink.old) (K.written sink.new) (K.faults sink.old) (K.faults sink.new) }
    ensures usage_only { result ≡ 9 → AsksNothing (map string_bytes words.now) }

    // One file that can't be read, or that is over its limit; and else none failed.
    ensures cannot_read { (order : OrderData) (name : List ℕ) → AsksFor (map string_bytes words.now) order name → result ≡ 6 →
        IsUnread (F.told folder.old) (F.faults folder.old) (F.faults folder.new) name × Appends (K.written sink.old) (K.written sink.new) (cannot_read_line name) }
    ensures too_large { (order : OrderData) (name : List ℕ) → AsksFor (map string_bytes words.now) order name → result ≡ 10 →
        IsOver (F.told folder.old) (F.faults folder.old) (F.faults folder.new) longest_source name × Appends (K.written sink.old) (K.written sink.new) (too_large_line name) }
    ensures quiet { IsTroubleStatus result ⊎ HasSameFaults (F.faults folder.old) (F.faults folder.new) }

    // A sink that fails, want of memory.
    ensures cannot_write { result ≡ 7 → Rose (K.faults sink.old) (K.faults sink.new) }
    ensures no_memory { result ≡ 8 → Keeps (K.written sink.old) (K.written sink.new) }

    // Whether or not the folder tells the one file: it has bytes to which status and text are the answer.
    ensures bytes { (order : OrderData) (name : List ℕ) → AsksFor (map string_bytes words.now) order name →
        IsTroubleStatus result ⊎ WritesAnswerToFile order name (F.told folder.old) result (K.written sink.old) (K.written sink.new) }

    // Where the sink failed, a front of such a text was written, or of the line of a file that can't be read.
    ensures cut_short { (order : OrderData) (name : List ℕ) → AsksFor (map string_bytes words.now) order name → result ≡ 7 →
        WritesFrontOf (IsSomeTextToBytes order name (F.told folder.old) (F.faults folder.old) (F.faults folder.new)) (K.written sink.old) (K.written sink.new) }

    // One file or several: of each there is an outcome by itself; the status is the worst of theirs, the text is theirs in order.
    ensures files { (order : OrderData) (names : List (List ℕ)) → AsksForAll (map string_bytes words.now) order names → (result ≡ 7) ⊎ ((result ≡ 8)
        ⊎ WritesText (AreOutcomes order (F.told folder.old) names (F.faults folder.old) (F.faults folder.new) result) (K.written sink.old) (K.written sink.new)) }
    ensures files_cut { (order : OrderData) (names : List (List ℕ)) → AsksForAll (map string_bytes words.now) order names → result ≡ 7 →
        WritesFrontOf (IsTextOfFiles order names (F.told folder.old) (F.faults folder.old) (F.faults folder.new)) (K.written sink.old) (K.written sink.new) }

    // Each of them is told, and no count of theirs or of the sink rose or stands at its last value: all answers, or want of memory.
    ensures files_complete { (order : OrderData) (names : List (List ℕ)) → AsksForAll (map string_bytes words.now) order names → AreTold (F.told folder.old) names →
        AreCalm (F.faults folder.old) (F.faults folder.new) names → (Rose (K.faults sink.old) (K.faults sink.new) → ⊥) →
        (result ≡ 8) ⊎ WritesText (AreAnswers order (F.told folder.old) names result) (K.written sink.old) (K.written sink.new) }

    // Each file is opened once, so each answer speaks of one file.
    ensures opened { (order : OrderData) (names : List (List ℕ)) → AsksForAll (map string_bytes words.now) order names → F.opened folder.new ≤ F.opened folder.old + length names }
    ensures opens_none { AsksNothing (map string_bytes words.now) → F.opened folder.new ≡ F.opened folder.old }

    // One file that is told: each status comes exactly where its fact holds, and the text is the one that belongs to it.
    ensures exact { (order : OrderData) (name file : List ℕ) → IsAskedFile (map string_bytes words.now) (F.told folder.old) order name file → IsExactStatusOfFile order file result }
    ensures text { (order : OrderData) (name file : List ℕ) → IsAskedFile (map string_bytes words.now) (F.told folder.old) order name file →
        IsTroubleStatus result ⊎ WritesText (BelongsToFile order name file result) (K.written sink.old) (K.written sink.new) }
    ensures front { (order : OrderData) (name file : List ℕ) → IsAskedFile (map string_bytes words.now) (F.told folder.old) order name file → result ≡ 7 →
        WritesFrontOf (IsSomeText order name file (F.told folder.old) (F.faults folder.old) (F.faults folder.new)) (K.written sink.old) (K.written sink.new) }

    // No count rose or stands at its last value: the answer, or want of memory.
    ensures complete { (order : OrderData) (name file : List ℕ) → IsAskedFile (map string_bytes words.now) (F.told folder.old) order name file →
        (Rose (F.faults folder.old name) (F.faults folder.new name) → ⊥) → (Rose (K.faults sink.old) (K.faults sink.new) → ⊥) →
        (result ≡ 8) ⊎ WritesText (BelongsToFile order name file result) (K.written sink.old) (K.written sink.new) }

    // The sentence that the program is for, derived from these.
    ensures sentence { ExplainsBroken (call_record (map string_bytes words.now) (F.told folder.old) (F.faults folder.old) (F.faults folder.new)
        (K.faults sink.old) (K.faults sink.new) (K.written sink.old) (K.written sink.new) result) }
{
    let Some((order, names)) = files_of(words) else {
        return say(sink, 9, USAGE);
    };
    match perform_all(alloc, folder, order, names) {
        Ok(outcome) => say(sink, outcome.status, outcome.text.as_bytes()),
        Err(NoMemory) => 8,
    }
}
