//! The words of the command line.

ghost use Rattle.std.specs.Prelude.{◌≡◌, ◌≢◌, ℕ, [], List, true, false, map, MatchOption, string_bytes};
ghost use Rattle.explain_commands.specs.declared.words.Order.TheVariants as order;
ghost use Rattle.explain_commands.specs.Words.{AsksForAll, AsksNothing, HasNoFlag, IsFlagWord, all_word, strict_word};

/// What is asked of sources.
#[derive(Clone, Copy, Debug, PartialEq, Eq)]
pub enum Order {
    /// Why each method that breaks its bound does.
    Why,
    /// The basic of each part of each method.
    All,
    /// Why each method isn't atomic but those that threads begin with.
    Strict,
}

/// The word that asks for the basic of each part.
const ALL: &str = "--all";

/// The word by which each method counts as atomic.
const STRICT: &str = "--strict";

/// Whether a word is the one that asks for the basic of each part.
fn is_all(word: &str) -> bool
    ensures yes { result ≡ true → word.now ≡ all_word }
    ensures no { result ≡ false → word.now ≢ all_word }
{
    word == ALL
}

/// Whether a word is the one by which each method counts as atomic.
fn is_strict(word: &str) -> bool
    ensures yes { result ≡ true → word.now ≡ strict_word }
    ensures no { result ≡ false → word.now ≢ strict_word }
{
    word == STRICT
}

/// Whether a word is one of the two.
fn is_flag(word: &str) -> bool
    ensures yes { result ≡ true → IsFlagWord word.now }
    ensures no { result ≡ false → IsFlagWord word.now → ⊥ }
{
    if is_all(word) {
        return true;
    }
    is_strict(word)
}

/// Whether one of them is among these.
fn has_flag(words: &[String]) -> bool
    ensures none { result ≡ false → HasNoFlag (map string_bytes words.now) }
    ensures some { result ≡ true → HasNoFlag (map string_bytes words.now) → ⊥ }
{
    for word in words {
        if is_flag(word.as_str()) {
            return true;
        }
    }
    false
}

/// The words, where they are names alone.
fn only_names(words: &[String]) -> Option<&[String]>
    ensures { MatchOption result ((names : List (List ℕ)) → AsksForAll (map string_bytes words.now) order.Why names → ⊥) (λ names. AsksForAll (map string_bytes words.now) order.Why (map string_bytes names.now)) }
{
    if words.is_empty() || has_flag(words) {
        None
    } else {
        Some(words)
    }
}

/// These names, where there is one at least.
fn one_at_least(names: &[String]) -> Option<&[String]>
    ensures { MatchOption result (map string_bytes names.now ≡ []) (λ same. (map string_bytes names.now ≡ map string_bytes same.now) × (map string_bytes same.now ≢ [])) }
{
    if names.is_empty() { None } else { Some(names) }
}

/// The names behind the word that asks for the basic of each part.
fn names_behind_all(words: &[String]) -> Option<&[String]>
    ensures { MatchOption result ((names : List (List ℕ)) → AsksForAll (map string_bytes words.now) order.All names → ⊥) (λ names. AsksForAll (map string_bytes words.now) order.All (map string_bytes names.now)) }
{
    let (flag, names) = words.split_first()?;
    if is_all(flag.as_str()) {
        one_at_least(names)
    } else {
        None
    }
}

/// The names behind the word by which each method counts as atomic.
fn names_behind_strict(words: &[String]) -> Option<&[String]>
    ensures { MatchOption result ((names : List (List ℕ)) → AsksForAll (map string_bytes words.now) order.Strict names → ⊥) (λ names. AsksForAll (map string_bytes words.now) order.Strict (map string_bytes names.now)) }
{
    let (flag, names) = words.split_first()?;
    if is_strict(flag.as_str()) {
        one_at_least(names)
    } else {
        None
    }
}

/// What the words ask for, and of which files.
pub fn files_of(words: &[String]) -> Option<(Order, &[String])>
    ensures { MatchOption result (AsksNothing (map string_bytes words.now)) (λ row. AsksForAll (map string_bytes words.now) row.0 (map string_bytes row.1.now)) }
{
    if let Some(names) = names_behind_all(words) {
        return Some((Order::All, names));
    }
    if let Some(names) = names_behind_strict(words) {
        return Some((Order::Strict, names));
    }
    let names = only_names(words)?;
    Some((Order::Why, names))
}
