//! A log read from a file.
ghost use Rattle.std.specs.Prelude.{◌≡◌, ◌≢◌, ◌<◌, ◌≤◌, ◌+◌, ℕ, List, IsSome, MatchResult, OnOk, IfErr};
ghost use Rattle.logs.specs.Views.{guards_data};
ghost use Rattle.log_reading.specs.Reading.{HasReadWhole, IsReadEnd};
ghost use Rattle.logs.specs.Stops.{stand_of};
ghost use Rattle.logs.specs.Walks.{front};

use edge::Folder;
use logs::{Guards, Walk, WalkEnd};
use std::alloc::Global;

/// Why a log was not read to its end.
#[derive(Clone, Copy, PartialEq, Eq)]
pub enum ReadEnd {
    /// A read failed.
    Fault,
    /// The file has more bytes than the limit.
    TooLarge,
    /// The walk ended.
    Walk(WalkEnd),
}

/// How many bytes a read asks for.
const CHUNK: usize = 4096;

/// Goes through the file `name`, where it has at most `limit` bytes, and answers how many it has.
pub fn walk_file<F: Folder>(
    alloc: Global,
    folder: &mut F,
    name: &str,
    limit: u32,
    guards: &Guards,
    walk: &mut Walk,
) -> Result<u64, ReadEnd>
    requires start { stand_of walk.old ≡ front }
    ensures walked { MatchResult result
        (λ many. HasReadWhole (guards_data guards.now) (F.told folder.old name.now) limit many (stand_of walk.new))
        (λ end. IsReadEnd (guards_data guards.now) (F.told folder.old name.now) limit (F.faults folder.old name.now) (F.faults folder.new name.now) (stand_of walk.new) end) }
    ensures calm { OnOk result ((other : List ℕ) → F.faults folder.new other ≡ F.faults folder.old other) }
    ensures calm_end { IfErr result (λ end. end ≢ ReadEnd.Fault →
        (other : List ℕ) → F.faults folder.new other ≡ F.faults folder.old other) }
    ensures never_fall { (other : List ℕ) → F.faults folder.old other ≤ F.faults folder.new other }
    ensures others { (other : List ℕ) → other ≢ name.now → IsSome (F.told folder.old other) →
        F.faults folder.new other ≡ F.faults folder.old other }
    ensures told { (other : List ℕ) → F.told folder.new other ≡ F.told folder.old other }
{
    let mut chunk = [0; CHUNK];
    let mut at = 0;
    'chunks: while at <= limit as u64 {
        let Ok(n) = folder.read_at(name, at, &mut chunk) else {
            return Err(ReadEnd::Fault);
        };
        if n == 0 {
            return Ok(at);
        }
        if let Err(end) = walk.feed(alloc, guards, &chunk[..n]) {
            return Err(ReadEnd::Walk(end));
        }
        at += n as u64;
    }
    Err(ReadEnd::TooLarge)
}
