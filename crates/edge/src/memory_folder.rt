//! A folder in memory, which fails at chosen calls.
ghost use Rattle.std.specs.Prelude.{◌≡◌, ◌≢◌, ◌<◌, ◌≤◌, ◌+◌, ℕ, List, Some, None, length, take, drop, replicate, slice_index, slice_set, string_bytes, position, is_err, IfOk, IfSome, IfNone, IsSome, OnOk, OnErr};
ghost use Rattle.std.specs.Str.{bytes_eq};
ghost use Rattle.edge.specs.Faults.{HasCause, next_count};
ghost use Rattle.edge.specs.Pieces.{GivesFrom};
ghost use Rattle.edge.specs.InMemory.{FolderInMemory, stored_files, stored_place, bytes_of, fault_count, read_fails, given_count, after_failed_read};

use crate::folders::{Failed, Folder};
use crate::memory_sink::is_failing;
use std::alloc::{AllocError as NoMemory, Global};
use std::marker::Model;

/// Files that are kept in memory. Of two files of one name the first counts.
#[derive(Drop)]
pub struct MemFolder {
    files: Vec<(String, Vec<u8>)>,
    most: usize,
    failing: Vec<u64>,
    calls: u64,
    file_faults: Vec<u64>,
    missing_faults: u64,
}

impl Model for MemFolder {
    ghost use Rattle.std.specs.Prelude.{◌<◌, ◌≡◌, length};
    ghost use Rattle.edge.specs.InMemory.{FolderInMemory, stored_files};

    ghost Value = { FolderInMemory };

    ghost view = { λ s. record {
      files = stored_files s.files.items;
      most = s.most;
      failing = s.failing.items;
      calls = s.calls;
      file_faults = s.file_faults.items;
      missing_faults = s.missing_faults;
    } };

    ghost invariant = { λ s. (0 < s.most) × (length s.file_faults.items ≡ length s.files.items) };
}

impl MemFolder {
    /// A folder of these names and contents that gives at most `most` bytes a call. The calls whose numbers, counted
    /// from 1, stand in `fail` fail. A read of a name without a file fails too.
    pub fn new(
        alloc: Global,
        files: Vec<(String, Vec<u8>)>,
        most: usize,
        fail: Vec<u64>,
    ) -> Result<MemFolder, NoMemory>
        requires { 1 ≤ most }
        ensures { IfOk result (λ folder. folder ≡ record {
          files = stored_files files.items;
          most = most;
          failing = fail.items;
          calls = 0;
          file_faults = replicate (length files.items) 0;
          missing_faults = 0;
        }) }
    {
        let file_faults = vec![in alloc; 0; files.len()]?;
        Ok(MemFolder {
            files,
            most,
            failing: fail,
            calls: 0,
            file_faults,
            missing_faults: 0,
        })
    }
}

/// The place of the first file of a name.
fn place_of(files: &[(String, Vec<u8>)], name: &str) -> Option<usize>
    ensures { result ≡ stored_place (stored_files files.now) name.now }
{
    first_named(files, name)
}

/// The first file of a name: its place and its bytes.
pub(crate) fn find_file<'f>(files: &'f [(String, Vec<u8>)], name: &str) -> Option<(usize, &'f [u8])>
    ensures no_place { IfNone result (stored_place (stored_files files.now) name.now ≡ None) }
    ensures no_bytes { IfNone result (bytes_of (stored_files files.now) name.now ≡ None) }
    ensures place { IfSome result (λ file. stored_place (stored_files files.now) name.now ≡ Some file.0) }
    ensures bytes { IfSome result (λ file. bytes_of (stored_files files.now) name.now ≡ Some file.1.now) }
    ensures within { IfSome result (λ file. file.0 < length files.now) }
{
    let Some(place) = place_of(files, name) else {
        return None;
    };
    Some((place, files[place].1.as_slice()))
}

/// The first place of a name in a list of files.
fn first_named(files: &[(String, Vec<u8>)], name: &str) -> Option<usize>
    ensures { result ≡ position (λ f. bytes_eq (string_bytes f.0) name.now) files.now }
{
    files.iter().position(|file| file.0.as_str() == name)
}

/// One fault more of the file at a place.
fn count_fault(faults: &mut [u64], place: usize)
    requires { place < length faults.old }
    ensures counted { faults.new ≡ slice_set faults.old place (next_count (slice_index faults.old place)) }
    ensures grows { slice_index faults.old place ≤ next_count (slice_index faults.old place) }
{
    faults[place] = faults[place].saturating_add(1);
}

/// Copies at most `most` bytes of a file from byte `at` on, and returns how many.
pub(crate) fn give(file: &[u8], at: u64, most: usize, into: &mut [u8]) -> usize
    ensures count { result ≡ given_count most (length into.old) at file.now }
    ensures bytes { take result into.new ≡ take result (drop at file.now) }
    ensures rest { drop result into.new ≡ drop result into.old }
{
    let rest = match usize::try_from(at) {
        Ok(start) if start < file.len() => &file[start..],
        _ => &[],
    };
    let count = rest.len().min(most).min(into.len());
    into[..count].copy_from_slice(&rest[..count]);
    count
}

impl Folder for MemFolder {
    ghost told = { λ s name. bytes_of s.files name };

    ghost faults = { fault_count };

    ghost calls = { λ s. s.calls };

    fn read_at(&mut self, name: &str, at: u64, into: &mut [u8]) -> Result<usize, Failed>
        // It fails exactly at the calls that are to fail, and at a name without a file.
        ensures fails { is_err result ≡ read_fails self.old name.now }
        ensures failed { OnErr result (self.new ≡ after_failed_read self.old name.now) }
        ensures read { OnOk result (self.new ≡ record self.old { calls = self.old.calls + 1 }) }

        // It gives as many bytes as it may, and leaves the rest of the buffer as it was.
        ensures count { IfOk result (λ n. IfSome (bytes_of self.old.files name.now) (λ file.
            n ≡ given_count self.old.most (length into.old) at file)) }
        ensures bytes { IfOk result (λ n. IfSome (bytes_of self.old.files name.now) (GivesFrom at n into.new)) }
        ensures rest { IfOk result (λ n. drop n into.new ≡ drop n into.old) }
        ensures untouched { OnErr result (into.new ≡ into.old) }

        ensures bound { IfOk result (λ n. n ≤ length into.new) }
        ensures told { (other : List ℕ) → bytes_of self.new.files other ≡ bytes_of self.old.files other }
        ensures cause { HasCause (fault_count self.old name.now) (fault_count self.new name.now) result }
        ensures never_fall { (other : List ℕ) → fault_count self.old other ≤ fault_count self.new other }
        ensures others { (other : List ℕ) → other ≢ name.now → IsSome (bytes_of self.old.files other) →
            fault_count self.new other ≡ fault_count self.old other }
        ensures counted { self.new.calls ≤ self.old.calls + 1 }
    {
        let fails = is_failing(&self.failing, self.calls);
        self.calls = self.calls.saturating_add(1);
        let Some((place, file)) = find_file(&self.files, name) else {
            self.missing_faults = self.missing_faults.saturating_add(1);
            return Err(Failed);
        };
        if fails {
            count_fault(&mut self.file_faults, place);
            return Err(Failed);
        }
        Ok(give(file, at, self.most, into))
    }
}
