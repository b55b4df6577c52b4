//! The words of the command line.

ghost use Rattle.std.specs.Prelude.{◌≡◌, ◌<◌, ◌∷◌, ◌++◌, [], ℕ, List, codes, decimal, map, MatchOption, string_bytes};
ghost use Rattle.commands.specs.Commands.{row_of_words};
ghost use Rattle.commands.specs.Rows.{IsRow, IsNoRow, IsWithin, command_word, worker_words};

use itoa::Buffer;
use schedule::MOST_WORKERS;

/// The most bytes that a source may have.
const LARGEST_SOURCE: u32 = 262_144;

/// The most bytes that the text of a schedule may have.
const LARGEST_SCHEDULE: u32 = 16_777_216;

/// The most bytes that the text of a book may have.
const LARGEST_BOOK: u32 = 16_777_216;

/// The most bytes that the text of a certificate of refusal may have.
const LARGEST_BLAME: u32 = 16_777_216;

/// The most bytes that the text of lock levels may have.
const LARGEST_LEVELS: u32 = 16_777_216;

/// What is to be done with the named files.
#[derive(Clone, Copy, Debug, PartialEq, Eq)]
pub enum Command {
    /// Judges a source.
    Check,
    /// Writes a source in canonical layout.
    Print,
    /// Runs a schedule of a source.
    Run,
    /// Writes a schedule of a source with each atomic call in one piece.
    Serialise,
    /// Writes the book of a source.
    Derive,
    /// Checks a source by a book.
    Verify,
    /// Writes a schedule of a source with each atomic call in one piece, also one that is left open.
    SerialiseOpen,
    /// Writes the certificate that refuses a source.
    Blame,
    /// Checks a certificate of refusal of a source.
    VerifyBlame,
    /// Checks that the locks of a source are taken in the order of their levels.
    Levels,
    /// Evaluates each completed atomic call of a schedule by itself.
    Replay,
    /// Makes a source and a schedule for so many workers, and tells the figures of its serialised form.
    Generate(u32),
}

impl Command {
    ghost use Rattle.commands.specs.Rows.{command_word, worker_words, limits_of, IsWithin};

    /// The command with this name, of those that have no number.
    fn named(word: &str) -> Option<Command>
        ensures { MatchOption result ((command : Command) → worker_words command ≡ [] → word.now ≡ command_word command → ⊥)
            (λ command. (worker_words command ≡ []) × IsWithin command × (word.now ≡ command_word command)) }
    {
        match word {
            "check" => Some(Command::Check),
            "print" => Some(Command::Print),
            "run" => Some(Command::Run),
            "serialise" => Some(Command::Serialise),
            "derive" => Some(Command::Derive),
            "verify" => Some(Command::Verify),
            "serialise-open" => Some(Command::SerialiseOpen),
            "blame" => Some(Command::Blame),
            "verify-blame" => Some(Command::VerifyBlame),
            "levels" => Some(Command::Levels),
            "replay" => Some(Command::Replay),
            _ => None,
        }
    }

    /// The most bytes that each of its files may have, in the order of the words.
    pub fn limits(self) -> &'static [u32]
        ensures { result.now ≡ limits_of self }
    {
        match self {
            Command::Check | Command::Print | Command::Derive | Command::Blame => &[LARGEST_SOURCE],
            Command::Run | Command::Serialise | Command::SerialiseOpen | Command::Replay => {
                &[LARGEST_SOURCE, LARGEST_SCHEDULE]
            }
            Command::Verify => &[LARGEST_SOURCE, LARGEST_BOOK],
            Command::VerifyBlame => &[LARGEST_SOURCE, LARGEST_BLAME],
            Command::Levels => &[LARGEST_SOURCE, LARGEST_LEVELS],
            Command::Generate(_) => &[],
        }
    }
}

/// A command, and the names of its files.
#[derive(Clone, Copy)]
pub struct Words<'a> {
    pub command: Command,
    pub names: &'a [String],
}

/// The number of workers that a word is, in decimal digits without a leading zero.
fn workers_in(word: &str) -> Option<u32>
    ensures { MatchOption result ((n : ℕ) → n < 1000 → word.now ≡ decimal n → ⊥) (λ n. (n < 1000) × (word.now ≡ decimal n)) }
{
    let Ok(number) = word.parse::<u32>() else {
        return None;
    };
    let mut digits = Buffer::new();
    if digits.format(number) != word {
        return None;
    }
    if number < MOST_WORKERS {
        Some(number)
    } else {
        None
    }
}

/// The command that makes a source, where the words are its word and a number; and the words behind these.
fn generated<'a>(word: &str, rest: &'a [String]) -> Option<(Command, &'a [String])>
    ensures { MatchOption result
        ((n : ℕ) (names : List (List ℕ)) → n < 1000 → word.now ≡ codes "generate" → map string_bytes rest.now ≡ decimal n ∷ names → ⊥)
        (λ found. IsWithin found.0 × (word.now ≡ command_word found.0) × (map string_bytes rest.now ≡ worker_words found.0 ++ map string_bytes found.1.now)) }
{
    if word != "generate" {
        return None;
    }
    let (number, names) = rest.split_first()?;
    let workers = workers_in(number.as_str())?;
    Some((Command::Generate(workers), names))
}

/// The command that the words begin with, and the words behind it and its number.
fn command_in<'a>(word: &str, rest: &'a [String]) -> Option<(Command, &'a [String])>
    ensures { MatchOption result
        ((command : Command) (names : List (List ℕ)) → IsWithin command → word.now ≡ command_word command → map string_bytes rest.now ≡ worker_words command ++ names → ⊥)
        (λ found. IsWithin found.0 × (word.now ≡ command_word found.0) × (map string_bytes rest.now ≡ worker_words found.0 ++ map string_bytes found.1.now)) }
{
    match Command::named(word) {
        Some(command) => Some((command, rest)),
        None => generated(word, rest),
    }
}

/// The row that the words are, if they are one.
pub fn words_of(words: &[String]) -> Option<Words<'_>>
    ensures { MatchOption result (IsNoRow (map string_bytes words.now)) (λ row. IsRow (map string_bytes words.now) (row_of_words row)) }
{
    let (word, rest) = words.split_first()?;
    let (command, names) = command_in(word.as_str(), rest)?;
    if names.len() == command.limits().len() {
        Some(Words { command, names })
    } else {
        None
    }
}
