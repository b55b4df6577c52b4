//! A sink in memory, which fails at chosen calls.
ghost use Rattle.std.specs.Prelude.{◌≡◌, ◌<◌, ◌≤◌, ◌+◌, [], Some, take, length, is_err, IfOk, OnErr};
ghost use Rattle.edge.specs.Faults.{HasCause};
ghost use Rattle.edge.specs.InMemory.{is_failing, write_fails, taken_count, after_write, after_failed_write};

use crate::folders::Failed;
use crate::sinks::Sink;
use std::alloc::{AllocError as NoMemory, Global};
use std::marker::Model;

/// Bytes that are kept in memory, with room for a fixed number of them.
#[derive(Drop)]
pub struct MemSink {
    bytes: Vec<u8>,
    room: usize,
    most: usize,
    failing: Vec<u64>,
    calls: u64,
    faults: u64,
}

impl Model for MemSink {
    ghost use Rattle.std.specs.Prelude.{◌<◌, ◌≤◌, vec_len, vec_capacity};
    ghost use Rattle.edge.specs.InMemory.{SinkInMemory};

    ghost Value = { SinkInMemory };

    ghost view = { λ s. record {
      bytes = s.bytes.items;
      room = s.room;
      most = s.most;
      failing = s.failing.items;
      calls = s.calls;
      faults = s.faults;
    } };

    ghost invariant = { λ s. (0 < s.most) × (vec_len s.bytes ≤ s.room) × (s.room ≤ vec_capacity s.bytes) };
}

impl MemSink {
    /// A sink that takes at most `most` bytes a call and `room` bytes in all. The calls whose numbers, counted from 1,
    /// stand in `fail` fail.
    pub fn new(alloc: Global, most: usize, fail: Vec<u64>, room: usize) -> Result<MemSink, NoMemory>
        requires { 1 ≤ most }
        ensures { IfOk result (λ sink. sink ≡ record {
          bytes = [];
          room = room;
          most = most;
          failing = fail.items;
          calls = 0;
          faults = 0;
        }) }
    {
        let bytes = Vec::with_capacity(alloc, room)?;
        Ok(MemSink {
            bytes,
            room,
            most,
            failing: fail,
            calls: 0,
            faults: 0,
        })
    }

    /// The bytes written so far.
    pub fn bytes(&self) -> &[u8]
        ensures { result.now ≡ self.now.bytes }
    {
        self.bytes.as_slice()
    }
}

impl Sink for MemSink {
    ghost written = { λ s. Some s.bytes };

    ghost faults = { λ s. s.faults };

    ghost calls = { λ s. s.calls };

    fn write(&mut self, piece: &[u8]) -> Result<usize, Failed>
        // It fails exactly at the calls that are to fail, and where its room is full and the piece is not empty.
        ensures fails { is_err result ≡ write_fails self.old piece.now }
        ensures failed { OnErr result (self.new ≡ after_failed_write self.old) }

        // It takes as many bytes as it may.
        ensures count { IfOk result (λ n. n ≡ taken_count self.old piece.now) }
        ensures wrote { IfOk result (λ n. self.new ≡ after_write self.old (take n piece.now)) }

        ensures some { IfOk result (λ n. 0 < length piece.now → 0 < n) }
        ensures cause { HasCause self.old.faults self.new.faults result }
    {
        let left = self.room - self.bytes.len();
        if is_failing(&self.failing, self.calls) || (!piece.is_empty() && left == 0) {
            self.calls = self.calls.saturating_add(1);
            self.faults = self.faults.saturating_add(1);
            return Err(Failed);
        }
        let count = piece.len().min(self.most).min(left);
        self.bytes.extend_from_slice(&piece[..count]).unwrap();
        self.calls += 1;
        Ok(count)
    }
}

/// Whether the call after `calls` calls fails: no number is left for it, or its number is listed.
pub(crate) fn is_failing(failing: &[u64], calls: u64) -> bool
    ensures { result ≡ is_failing failing.now calls }
{
    if calls == u64::MAX {
        return true;
    }
    failing.contains(&(calls + 1))
}
