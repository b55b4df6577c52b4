//! A file read whole, and bytes written whole.
ghost use Rattle.std.specs.Prelude.{◌≡◌, ◌≢◌, ℕ, ◌+◌, ◌<◌, ◌≤◌, List, length, IsSome, IfSome, IfOk, IfErr, OnOk, OnErr, IsErrOf};
ghost use Rattle.std.specs.Io.KnownBytes.{Appends};
ghost use Rattle.edge.specs.Faults.{Rose, HasCause};
ghost use Rattle.edge.specs.Pieces.{AppendsFront};

use crate::folders::Folder;
use crate::sinks::Sink;
use std::alloc::{AllocError, Global};

/// A write failed before all bytes were written.
#[derive(Clone, Copy, Debug, PartialEq, Eq)]
pub struct Fault;

/// Why a file was not read whole.
#[derive(Clone, Copy, Debug, PartialEq, Eq)]
pub enum ReadEnd {
    /// A read failed.
    Fault,
    /// The file has more bytes than the limit.
    TooLarge,
    /// There was no memory for its bytes.
    NoMemory,
}

impl From<AllocError> for ReadEnd {
    ghost use Rattle.std.specs.Prelude.{◌≡◌};
    ghost use Rattle.edge.specs.declared.transfer.ReadEnd.TheVariants as ends;

    ghost from_gives = { λ _ end. end ≡ ends.NoMemory };

    fn from(_: AllocError) -> Self {
        ReadEnd::NoMemory
    }
}

/// How many bytes a read asks for.
const CHUNK: usize = 32_768;

/// Reads the file `name` whole, where it has at most `limit` bytes.
pub fn read_file<F: Folder>(
    alloc: Global,
    folder: &mut F,
    name: &str,
    limit: u32,
) -> Result<Vec<u8>, ReadEnd>
    ensures whole { IfOk result (λ bytes. IfSome (F.told folder.old name.now) (λ file. bytes.items ≡ file)) }
    ensures within { IfOk result (λ bytes. length bytes.items ≤ limit) }
    ensures too_large { IsErrOf result ReadEnd.TooLarge →
        IfSome (F.told folder.old name.now) (λ file. limit < length file) }

    // Only a fault changes a count: that of this name rose, or stands at its last value.
    ensures fault { IsErrOf result ReadEnd.Fault →
        Rose (F.faults folder.old name.now) (F.faults folder.new name.now) }
    ensures calm { OnOk result ((other : List ℕ) → F.faults folder.new other ≡ F.faults folder.old other) }
    ensures calm_end { IfErr result (λ end. end ≢ ReadEnd.Fault →
        (other : List ℕ) → F.faults folder.new other ≡ F.faults folder.old other) }
    ensures never_fall { (other : List ℕ) → F.faults folder.old other ≤ F.faults folder.new other }
    ensures others { (other : List ℕ) → other ≢ name.now → IsSome (F.told folder.old other) →
        F.faults folder.new other ≡ F.faults folder.old other }

    ensures told { (other : List ℕ) → F.told folder.new other ≡ F.told folder.old other }
    ensures counted { F.calls folder.new ≤ F.calls folder.old + (limit + 1) }

    // At most one file is opened, so all bytes are of one file.
    ensures opened { F.opened folder.new ≤ F.opened folder.old + 1 }
{
    let limit = limit as usize;
    let mut bytes = Vec::new(alloc);
    let mut chunk = [0; CHUNK];
    'chunks: while bytes.len() <= limit {
        let Ok(n) = folder.read_at(name, bytes.len() as u64, &mut chunk) else {
            return Err(ReadEnd::Fault);
        };
        if n == 0 {
            return Ok(bytes);
        }
        bytes.extend_from_slice(&chunk[..n])?;
    }
    Err(ReadEnd::TooLarge)
}

/// Writes all the bytes. Takes no memory.
pub fn write_all<K: Sink>(sink: &mut K, bytes: &[u8]) -> Result<(), Fault>
    ensures whole { OnOk result (Appends (K.written sink.old) (K.written sink.new) bytes.now) }
    ensures front { OnErr result (AppendsFront (K.written sink.old) (K.written sink.new) bytes.now) }

    // A fault has a cause: the count rose, or stands at its last value.
    ensures cause { HasCause (K.faults sink.old) (K.faults sink.new) result }
    ensures calm { OnOk result (K.faults sink.new ≡ K.faults sink.old) }
    ensures counted { K.calls sink.new ≤ K.calls sink.old + length bytes.now }
{
    let mut written = 0;
    'pieces: while written < bytes.len() {
        let Ok(n) = sink.write(&bytes[written..]) else {
            return Err(Fault);
        };
        written += n;
    }
    Ok(())
}
