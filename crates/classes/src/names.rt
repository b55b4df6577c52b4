//! A set of names, each once, in order of first appearance.

ghost use Rattle.std.specs.Prelude.{◌≡◌, [], ◌<◌, not, bytes_eq, position, slice_get, length, option_map, IfOk, IfSome, OnOk, OnErr};
ghost use Rattle.std.specs.List.{list_any};
ghost use Rattle.classes.specs.Names.{has_text, with_text};

use indexmap::IndexSet;
use std::alloc::{AllocError as NoMemory, Global};
use std::marker::Model;

/// How many names are held in a plain list, before those that are hashed.
const FEW: usize = 4;

/// A set of names, slices of the source, seen in contracts as their texts in order of first appearance. Most sets have
/// few names, and a comparison with each of these takes less than a hash.
#[derive(Drop)]
pub struct NameSet<'a> {
    few: Vec<&'a str>,
    more: IndexSet<&'a str>,
}

impl<'a> Model for NameSet<'a> {
    ghost use Rattle.std.specs.Prelude.{ℕ, List, map, ◌++◌};
    ghost use Rattle.classes.specs.Shows.{shows};

    ghost Value = { List (List ℕ) };

    ghost view = { λ s. map shows (s.few.items ++ s.more.keys) };
}

/// Whether two names are the same. Most are told by their lengths.
fn is_same(name: &str, other: &str) -> bool
    ensures { result ≡ bytes_eq name.now other.now }
{
    name.len() == other.len() && name == other
}

/// Whether a list has a name.
fn is_in(names: &[&str], text: &str) -> bool
    ensures { result ≡ list_any (λ name. bytes_eq text.now name.now) names.now }
{
    names.iter().any(|name| is_same(text, name))
}

/// The place of a name in a list.
fn place_in(names: &[&str], text: &str) -> Option<usize>
    ensures place { result ≡ position (λ name. bytes_eq text.now name.now) names.now }
    ensures within { IfSome result (λ place. place < length names.now) }
{
    names.iter().position(|name| is_same(text, name))
}

impl<'a> NameSet<'a> {
    /// A set with no name in it.
    pub fn new(alloc: Global) -> NameSet<'a>
        ensures { result ≡ [] }
    {
        NameSet {
            few: Vec::new(alloc),
            more: IndexSet::new(alloc),
        }
    }

    /// Adds a name, and says whether it is new. On `Err` the set is as before.
    pub fn add(&mut self, text: &'a str) -> Result<bool, NoMemory>
        ensures is_new { IfOk result (λ is_new. is_new ≡ not (has_text self.old text.now)) }
        ensures names { OnOk result (self.new ≡ with_text self.old text.now) }
        ensures err { OnErr result (self.new ≡ self.old) }
    {
        if is_in(&self.few, text) {
            return Ok(false);
        }
        if self.more.is_empty() && self.few.len() < FEW {
            self.few.push(text)?;
            return Ok(true);
        }
        Ok(self.more.insert(text)?)
    }

    /// Whether a name is in the set.
    pub fn contains(&self, text: &str) -> bool
        ensures { result ≡ has_text self.now text.now }
    {
        is_in(&self.few, text) || self.more.contains(text)
    }

    /// The number of a name, counted from 0.
    pub fn number_of(&self, text: &str) -> Option<usize>
        ensures { result ≡ position (bytes_eq text.now) self.now }
    {
        match place_in(&self.few, text) {
            Some(place) => Some(place),
            None => {
                // Only the proof needs this: the length bounds the sum below.
                let _ = self.more.len();
                let place = self.more.get_index_of(text)?;
                Some(self.few.len() + place)
            }
        }
    }

    /// The name with this number.
    pub fn name_at(&self, index: usize) -> Option<&'a str>
        ensures { option_map (λ n. n.now) result ≡ slice_get self.now index }
    {
        if index < self.few.len() {
            Some(self.few[index])
        } else {
            let name = self.more.get_index(index - self.few.len())?;
            Some(*name)
        }
    }

    /// How many names there are.
    pub fn len(&self) -> usize
        ensures { result ≡ length self.now }
    {
        self.few.len() + self.more.len()
    }
}
