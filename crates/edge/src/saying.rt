//! Writes the text of an outcome.

ghost use Rattle.edge.specs.Said.{SaysText};

use crate::sinks::Sink;
use crate::transfer::{Fault, write_all};

/// The status of a text that can't be written.
const CANNOT_WRITE: u8 = 7;

/// Writes the text, and gives the status, or that of a sink that failed.
pub fn say<K: Sink>(sink: &mut K, status: u8, text: &[u8]) -> u8
    ensures { SaysText result status text.now (K.written sink.old) (K.written sink.new) (K.faults sink.old) (K.faults sink.new) }
{
    match write_all(sink, text) {
        Ok(()) => status,
        Err(Fault) => CANNOT_WRITE,
    }
}
