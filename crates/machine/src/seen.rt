//! What a thread may see.
ghost use Rattle.std.specs.Prelude.{◌≡◌};

use crate::targets::Targets;
use compile::CodeTable;
use core_program::CoreProgram;
use state::{Address, Heap, Locks, Value};

/// A program with what was found of its calls, its code, the heap, the held locks, and the number of the thread that looks.
#[derive(Clone, Copy)]
pub struct Seen<'a> {
    pub targets: &'a Targets<'a>,
    pub code: &'a CodeTable,
    pub heap: &'a Heap,
    pub locks: &'a Locks,
    pub thread: u32,
}

impl<'a> Seen<'a> {
    /// The program.
    pub(crate) fn program(&self) -> &'a CoreProgram
        ensures { result.now ≡ self.now.targets.now }
    {
        self.targets.program()
    }
}

/// The top frame of a thread, as an instruction sees it: its slots, its operands with the topmost last, and the locks that it
/// took with the last one last; and how many frames the thread has.
#[derive(Clone, Copy)]
pub(crate) struct TopFrame<'a> {
    pub(crate) slots: &'a [Value],
    pub(crate) operands: &'a [Value],
    pub(crate) taken: &'a [Address],
    pub(crate) frames: usize,
}
