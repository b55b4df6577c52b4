//! The words of the command line.
ghost use Rattle.std.specs.Prelude.{◌≡◌, ◌≢◌, ◌∷◌, [], ℕ, List, map, MatchOption, option_map, string_bytes};
ghost use Rattle.trace_commands.specs.Words.{NamesLog, NamesNoLog, guards_word};

/// What is asked for: a log, and the file of guards where one is given.
#[derive(Clone, Copy)]
pub struct Row<'w> {
    pub log: &'w str,
    pub guards: Option<&'w str>,
}

/// The word behind which the name of a file of guards stands.
const GUARDS: &str = "--guards";

/// The only one of these words.
fn only_word(words: &[String]) -> Option<&str>
    ensures { MatchOption result ((name : List ℕ) → map string_bytes words.now ≢ name ∷ []) (λ name. map string_bytes words.now ≡ name.now ∷ []) }
{
    let (name, rest) = words.split_first()?;
    if rest.is_empty() {
        Some(name.as_str())
    } else {
        None
    }
}

/// The name of the file of guards behind its flag.
fn guards_file(words: &[String]) -> Option<&str>
    ensures { MatchOption result ((name : List ℕ) → map string_bytes words.now ≢ guards_word ∷ name ∷ []) (λ name. map string_bytes words.now ≡ guards_word ∷ name.now ∷ []) }
{
    let (flag, rest) = words.split_first()?;
    if flag.as_str() == GUARDS {
        only_word(rest)
    } else {
        None
    }
}

/// What the words ask for.
pub fn row_of(words: &[String]) -> Option<Row<'_>>
    ensures { MatchOption result (NamesNoLog (map string_bytes words.now)) (λ row. NamesLog (map string_bytes words.now) row.log.now (option_map (λ g. g.now) row.guards)) }
{
    if let Some(log) = only_word(words) {
        return Some(Row { log, guards: None });
    }
    let (log, rest) = words.split_first()?;
    let file = guards_file(rest)?;
    Some(Row {
        log: log.as_str(),
        guards: Some(file),
    })
}
