//! A table of values by word.
ghost use Rattle.std.specs.Prelude.{◌≡◌, ℕ, OnOk, length, option_copied, option_map, slice_get};
ghost use Rattle.logs.specs.Numbers.{number_of_word};
ghost use Rattle.logs.specs.Tables.{value_in_table, values_with};

use indexmap::IndexMap;
use std::alloc::{AllocError as NoMemory, Global};

/// Values by word.
#[derive(Drop)]
pub struct Table<V> {
    values: IndexMap<Vec<u8>, V>,
}

impl<V: Drop> Table<V> {
    /// A table with no word in it.
    pub fn new(alloc: Global) -> Table<V>
        ensures { (n : ℕ) → value_in_table result n ≡ None }
    {
        Table {
            values: IndexMap::new(alloc),
        }
    }

    /// The value of a word, where it has one.
    pub fn get(&self, word: &[u8]) -> Option<&V>
        ensures { option_copied result ≡ value_in_table self.now (number_of_word word.now) }
    {
        self.values.get(word)
    }

    /// Gives a word this value.
    pub fn put(&mut self, alloc: Global, word: &[u8], value: V) -> Result<(), NoMemory>
        ensures { OnOk result ((n : ℕ) → value_in_table self.new n ≡ values_with (number_of_word word.now) value (value_in_table self.old) n) }
    {
        let key = Vec::from_slice(alloc, word)?;
        match self.values.insert(key, value) {
            Ok(_) => Ok(()),
            Err(_) => Err(NoMemory),
        }
    }

    /// The value of a word, to be changed.
    pub fn get_mut(&mut self, word: &[u8]) -> Option<&mut V> {
        self.values.get_mut(word)
    }

    /// How many words have values.
    pub fn len(&self) -> usize
        ensures { result ≡ length self.now.values.entries }
    {
        self.values.len()
    }

    /// The word at a place of the table, and its value.
    pub fn entry(&self, place: usize) -> Option<(&[u8], &V)>
        ensures { option_map (λ e. e.0.now) result ≡ option_map (λ e. e.0.items) (slice_get self.now.values.entries place) }
    {
        let (word, value) = self.values.get_index(place)?;
        Some((word.as_slice(), value))
    }
}
