//! The words of the command line.

ghost use Rattle.std.specs.Prelude.{◌≡◌, ◌≢◌, ◌∷◌, [], ℕ, List, map, MatchOption, option_map, string_bytes};
ghost use Rattle.witness_commands.specs.Words.{NamesFiles, NamesNoFiles};

/// The only one of these words.
fn only_word(words: &[String]) -> Option<&str>
    ensures { MatchOption result ((name : List ℕ) → map string_bytes words.now ≢ name ∷ []) (λ name. map string_bytes words.now ≡ name.now ∷ []) }
{
    let (name, rest) = words.split_first()?;
    if rest.is_empty() {
        Some(name.as_str())
    } else {
        None
    }
}

/// The names of a source and of a schedule, or that of a source alone, where the words are these.
pub fn names_of(words: &[String]) -> Option<(&str, Option<&str>)>
    ensures { MatchOption result (NamesNoFiles (map string_bytes words.now)) (λ names. NamesFiles (map string_bytes words.now) names.0.now (option_map (λ name. name.now) names.1)) }
{
    let (source, rest) = words.split_first()?;
    if rest.is_empty() {
        return Some((source.as_str(), None));
    }
    let schedule = only_word(rest)?;
    Some((source.as_str(), Some(schedule)))
}
