//! A folder and a sink that never fail.
ghost use Rattle.std.specs.Prelude.{◌≡◌, ◌≤◌, ◌+◌, ◌-◌, ◌^◌, min, ℕ, List, Some, None, false, length, drop, is_err, IfOk};
ghost use Rattle.edge.specs.Faults.{HasCause};
ghost use Rattle.edge.specs.Pieces.{GivesFrom};
ghost use Rattle.edge.specs.InMemory.{stored_files, bytes_or_none, given_count};

use crate::folders::{Failed, Folder};
use crate::memory_folder::{find_file, give};
use crate::sinks::Sink;
use std::marker::Model;

/// Files that are kept in memory, and whose reads never fail. Of two files of one name the first counts, and a name without a file
/// counts as an empty file.
#[derive(Drop)]
pub struct NeverFailsFolder {
    files: Vec<(String, Vec<u8>)>,
}

impl Model for NeverFailsFolder {
    ghost use Rattle.std.specs.Prelude.{List};
    ghost use Rattle.edge.specs.InMemory.{StoredFile, stored_files};

    ghost Value = { List StoredFile };

    ghost view = { λ s. stored_files s.files.items };
}

impl NeverFailsFolder {
    /// A folder of these names and contents.
    pub fn new(files: Vec<(String, Vec<u8>)>) -> NeverFailsFolder
        ensures { result ≡ stored_files files.items }
    {
        NeverFailsFolder { files }
    }
}

/// The bytes of the first file of a name, and none where there is no such file.
fn bytes_or_none<'f>(files: &'f [(String, Vec<u8>)], name: &str) -> &'f [u8]
    ensures { result.now ≡ bytes_or_none (stored_files files.now) name.now }
{
    match find_file(files, name) {
        Some((_, file)) => file,
        None => &[],
    }
}

impl Folder for NeverFailsFolder {
    ghost told = { λ files name. Some (bytes_or_none files name) };

    ghost faults = { λ _ _. 0 };

    fn read_at(&mut self, name: &str, at: u64, into: &mut [u8]) -> Result<usize, Failed>
        ensures never_fails { is_err result ≡ false }
        ensures kept { self.new ≡ self.old }
        ensures count { IfOk result (λ n. n ≡ given_count (length into.old) (length into.old) at (bytes_or_none self.old name.now)) }
        ensures rest { IfOk result (λ n. drop n into.new ≡ drop n into.old) }

        ensures bytes { IfOk result (λ n. GivesFrom at n into.new (bytes_or_none self.old name.now)) }
        ensures bound { IfOk result (λ n. n ≤ length into.new) }
        ensures told { (other : List ℕ) → Some (bytes_or_none self.new other) ≡ Some (bytes_or_none self.old other) }
        ensures cause { HasCause 0 0 result }
    {
        let most = into.len();
        let file = bytes_or_none(&self.files, name);
        Ok(give(file, at, most, into))
    }
}

/// A sink that takes all bytes, counts them and drops them. It tells none.
#[derive(Drop)]
pub struct NeverFailsSink {
    taken: u64,
}

impl Model for NeverFailsSink {
    ghost use Rattle.std.specs.Prelude.{ℕ};

    ghost Value = { ℕ };

    ghost view = { λ s. s.taken };
}

impl NeverFailsSink {
    /// A sink that has taken nothing.
    pub fn new() -> NeverFailsSink
        ensures { result ≡ 0 }
    {
        NeverFailsSink { taken: 0 }
    }
}

impl Sink for NeverFailsSink {
    ghost written = { λ _. None };

    ghost faults = { λ _. 0 };

    fn write(&mut self, piece: &[u8]) -> Result<usize, Failed>
        ensures never_fails { is_err result ≡ false }
        ensures all { IfOk result (λ n. n ≡ length piece.now) }
        ensures taken { self.new ≡ min (self.old + length piece.now) (2 ^ 64 - 1) }
    {
        self.taken = self.taken.saturating_add(piece.len() as u64);
        Ok(piece.len())
    }
}
