//! Real files. Their bytes are the system's, so a clause speaks of them only where an open file tells its own.
ghost use Rattle.std.specs.Prelude.{◌≡◌, ◌≢◌, ℕ, List, ◌==◌, ◌&&◌, ◌<◌, ◌≤◌, ◌+◌, ◌^◌, None, Some, IsSome, true, length, drop, if◌then◌else◌, IfOk, IfSome, OnOk};
ghost use Rattle.std.specs.Str.{bytes_eq};
ghost use Rattle.edge.specs.Faults.{HasCause, next_count};
ghost use Rattle.edge.specs.Pieces.{GivesFrom};
ghost use Rattle.edge.specs.RealFiles.{told_bytes, reads_counted, continues_read, left_of};

use crate::folders::{Failed, Folder};
use arrayvec::ArrayString;
use std::fs::File;
use std::io;
use std::io::{ErrorKind, Read, Seek, SeekFrom};
use std::marker::Model;
use std::rt::Files;

/// How many bytes a name has at most. The system takes none that is longer.
const LONGEST_NAME: usize = 4096;

/// A file that is being read, its name, and the byte at which the next read goes on.
#[derive(Drop)]
struct Reading<F> {
    name: ArrayString<LONGEST_NAME>,
    at: u64,
    file: F,
}

/// The files of the system. It tells no bytes, and keeps one count of faults for all names. A file stays open from its first
/// byte to its last, as long as each read begins where the one before it ended: all these bytes are of one file, whatever is
/// put in its place meanwhile, and a file that can only be read from front to back can be read.
#[derive(Drop)]
pub struct FileFolder<'r, R: Files> {
    rt: &'r R,
    faults: u64,
    opened: u64,
    reading: Option<Reading<R::File>>,
}

impl<'r, R: Files> Model for FileFolder<'r, R> {
    ghost use Rattle.std.specs.Option.{option_map};
    ghost use Rattle.edge.specs.RealFiles.{RealFolder};

    ghost Value = { RealFolder };

    ghost view = { λ s. record {
      faults = s.faults;
      opened = s.opened;
      reading = option_map (λ r. record { name = r.name.bytes; at = r.at; left = R.File.remaining r.file }) s.reading;
    } };
}

impl<'r, R: Files> FileFolder<'r, R> {
    /// The files that `rt` opens; none failed so far, and none is open.
    pub fn new(rt: &'r R) -> Self
        ensures { result ≡ record { faults = 0; opened = 0; reading = None } }
    {
        FileFolder {
            rt,
            faults: 0,
            opened: 0,
            reading: None,
        }
    }

    /// The file that is being read, where a read of this name from this byte on goes on in it; else the file of that name, opened.
    fn take(&mut self, name: &str, at: u64) -> io::Result<Reading<R::File>>
        ensures faults { self.new.faults ≡ self.old.faults }
        ensures opened { self.new.opened ≡ (if continues_read self.old name.now at then self.old.opened else next_count self.old.opened) }
        ensures reading { self.new.reading ≡ None }
        ensures name { IfOk result (λ r. r.name.bytes ≡ name.now) }
        ensures at { IfOk result (λ r. r.at ≡ at) }
        ensures left { IfOk result (λ r. IfSome (left_of self.old name.now at) (λ left. R.File.remaining r.file ≡ Some left)) }
    {
        if let Some(reading) = self.reading.take() {
            if is_next(&reading, name, at) {
                return Ok(reading);
            }
        }
        self.opened = self.opened.saturating_add(1);
        open_at(self.rt, name, at)
    }

    /// Reads a part of a file.
    fn read_part(&mut self, name: &str, at: u64, into: &mut [u8]) -> io::Result<usize>
        ensures faults { self.new.faults ≡ self.old.faults }
        ensures opened { self.new.opened ≡ (if continues_read self.old name.now at then self.old.opened else next_count self.old.opened) }
        ensures still_open { IfOk result (λ n. 0 < n → at + n < 2 ^ 64 → continues_read self.new name.now (at + n) ≡ true) }
        ensures left { IfOk result (λ n. IfSome (left_of self.old name.now at) (GivesFrom 0 n into.new)) }
        ensures less { IfOk result (λ n. 0 < n → at + n < 2 ^ 64 → IfSome (left_of self.old name.now at) (λ left.
            left_of self.new name.now (at + n) ≡ Some (drop n left))) }
        ensures bound { IfOk result (λ n. n ≤ length into.new) }
    {
        let mut reading = self.take(name, at)?;
        let n = reading.file.read(into)?;
        self.reading = read_on(reading, n);
        Ok(n)
    }
}

/// Whether a read of a name from a byte on goes on in this file.
fn is_next<F>(reading: &Reading<F>, name: &str, at: u64) -> bool
    ensures { result ≡ ((reading.now.at == at) && bytes_eq reading.now.name.bytes name.now) }
{
    reading.at == at && reading.name.as_str() == name
}

/// Opens a file, to read it from a byte on. What is read from its front on needs no seeking.
fn open_at<R: Files>(rt: &R, name: &str, at: u64) -> io::Result<Reading<R::File>>
    ensures name { IfOk result (λ r. r.name.bytes ≡ name.now) }
    ensures at { IfOk result (λ r. r.at ≡ at) }
{
    let Ok(kept) = ArrayString::from(name) else {
        return Err(io::Error::from(ErrorKind::InvalidInput));
    };
    let mut file = File::open(rt, name)?;
    if at > 0 {
        file.seek(SeekFrom::Start(at))?;
    }
    Ok(Reading {
        name: kept,
        at,
        file,
    })
}

/// The file after a read of so many bytes; none after a read of none, which its end gives.
fn read_on<F: Drop>(mut reading: Reading<F>, count: usize) -> Option<Reading<F>>
    ensures some { 0 < count → reading.at + count < 2 ^ 64 → IsSome result }
    ensures at { IfSome result (λ r. r.at ≡ reading.at + count) }
    ensures name { IfSome result (λ r. r.name ≡ reading.name) }
    ensures file { IfSome result (λ r. r.file ≡ reading.file) }
{
    if count == 0 {
        return None;
    }
    reading.at = reading.at.checked_add(count as u64)?;
    Some(reading)
}

impl<'r, R: Files> Folder for FileFolder<'r, R> {
    ghost told = { told_bytes };

    ghost faults = { λ s _. s.faults };

    ghost calls = { reads_counted };

    ghost opened = { λ s. s.opened };

    ghost is_open = { continues_read };

    fn read_at(&mut self, name: &str, at: u64, into: &mut [u8]) -> Result<usize, Failed>
        // A read that begins where the last one ended goes on in the same file; any other opens one.
        ensures opened { self.new.opened ≡ (if continues_read self.old name.now at then self.old.opened else next_count self.old.opened) }
        ensures still_open { IfOk result (λ n. 0 < n → at + n < 2 ^ 64 → continues_read self.new name.now (at + n) ≡ true) }

        // Where the open file tells the bytes that are left, these are read.
        ensures left { IfOk result (λ n. IfSome (left_of self.old name.now at) (GivesFrom 0 n into.new)) }
        ensures less { IfOk result (λ n. 0 < n → at + n < 2 ^ 64 → IfSome (left_of self.old name.now at) (λ left.
            left_of self.new name.now (at + n) ≡ Some (drop n left))) }

        ensures bound { IfOk result (λ n. n ≤ length into.new) }
        ensures bytes { IfOk result (λ n. IfSome (told_bytes self.old name.now) (GivesFrom at n into.new)) }
        ensures cause { HasCause self.old.faults self.new.faults result }
        ensures calm { OnOk result ((other : List ℕ) → self.new.faults ≡ self.old.faults) }
        ensures others { (other : List ℕ) → other ≢ name.now → IsSome (told_bytes self.old other) → self.new.faults ≡ self.old.faults }
        ensures counted { reads_counted self.new ≤ reads_counted self.old + 1 }
        ensures opens { self.new.opened ≤ self.old.opened + (if continues_read self.old name.now at then 0 else 1) }
    {
        match self.read_part(name, at, into) {
            Ok(n) => Ok(n),
            Err(_) => {
                self.faults = self.faults.saturating_add(1);
                Err(Failed)
            }
        }
    }
}
