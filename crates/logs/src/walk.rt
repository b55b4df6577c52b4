//! Walks through bytes.
ghost use Rattle.std.specs.Prelude.{◌≡◌, ◌<◌, ◌+◌, [], MatchResult, OnOk};
ghost use Rattle.logs.specs.Views.{guards_data};
ghost use Rattle.logs.specs.Said.{said_of};
ghost use Rattle.logs.specs.Stops.{stand_of, IsEnd};
ghost use Rattle.logs.specs.Walks.{Stands, front, after_row, after_byte, walked};

use crate::guards::Guards;
use crate::judge::{Judge, Refusal, Stop};
use crate::lines::{Deed, Said, read_line};
use crate::table::Table;
use std::alloc::{AllocError as NoMemory, Global};

/// Why a walk ends early.
#[derive(Clone, Copy, PartialEq, Eq)]
pub enum WalkEnd {
    /// A line is no line of a log.
    NoLine,
    /// A line is refused.
    Refused(Refusal),
    NoMemory,
}

/// A block: its name, and the line on which it begins.
#[derive(Drop)]
pub struct Block {
    pub name: Vec<u8>,
    pub line: u64,
}

/// A judge in a text, the outermost block that each thread began last, the bytes behind the last line's end, and the number of their line.
#[derive(Drop)]
pub struct Walk {
    judge: Judge,
    blocks: Table<Block>,
    row: Vec<u8>,
    line: u64,
}

/// Notes the block that a line begins, where that is an outermost one.
fn note_block(
    alloc: Global,
    judge: &Judge,
    blocks: &mut Table<Block>,
    line: u64,
    said: &Said<'_>,
) -> Result<(), NoMemory> {
    let Deed::Begin(name) = said.deed else {
        return Ok(());
    };
    if judge.phase(said.thread).depth != 1 {
        return Ok(());
    }
    let name = Vec::from_slice(alloc, name)?;
    blocks.put(alloc, said.thread, Block { name, line })
}

impl Walk {
    /// At the front of a text.
    pub fn new(alloc: Global) -> Walk
        ensures { stand_of result ≡ front }
    {
        Walk {
            judge: Judge::new(alloc),
            blocks: Table::new(alloc),
            row: Vec::new(alloc),
            line: 1,
        }
    }

    /// The bytes behind the last line's end.
    pub fn row(&self) -> &[u8]
        ensures { result.now ≡ self.now.row.items }
    {
        self.row.as_slice()
    }

    /// What is known of threads' blocks.
    pub fn judge(&self) -> &Judge
        ensures { result.now ≡ self.now.judge }
    {
        &self.judge
    }

    /// The outermost block that a thread began last.
    pub fn block(&self, thread: &[u8]) -> Option<&Block> {
        self.blocks.get(thread)
    }

    /// The number of the line in which it stands.
    pub fn line(&self) -> u64
        ensures { result ≡ self.now.line }
    {
        self.line
    }

    /// The end of a line.
    fn end_line(&mut self, alloc: Global, guards: &Guards) -> Result<(), WalkEnd>
        requires { 0 < self.old.line }
        ensures line { 0 < self.new.line }
        ensures walked { MatchResult result
            (λ _. after_row (guards_data guards.now) (stand_of self.old) (said_of self.old.row.items) ≡ Stands (stand_of self.new))
            (λ end. IsEnd (stand_of self.new) (after_row (guards_data guards.now) (stand_of self.old) (said_of self.old.row.items)) end) }
    {
        let Some(said) = read_line(self.row.as_slice()) else {
            return Err(WalkEnd::NoLine);
        };
        match self.judge.note(alloc, guards, self.line, &said) {
            Ok(()) => {}
            Err(Stop::Refused(why)) => return Err(WalkEnd::Refused(why)),
            Err(Stop::NoMemory) => return Err(WalkEnd::NoMemory),
        }
        match note_block(alloc, &self.judge, &mut self.blocks, self.line, &said) {
            Ok(()) => {}
            Err(NoMemory) => return Err(WalkEnd::NoMemory),
        }
        match self.next_line() {
            Ok(()) => Ok(()),
            Err(NoMemory) => Err(WalkEnd::NoMemory),
        }
    }

    /// Goes on to the next line.
    fn next_line(&mut self) -> Result<(), NoMemory>
        requires { 0 < self.old.line }
        ensures line { 0 < self.new.line }
        ensures known { self.new.judge ≡ self.old.judge }
        ensures row { OnOk result (self.new.row.items ≡ []) }
        ensures next { OnOk result (self.new.line ≡ self.old.line + 1) }
    {
        self.row.clear();
        let Some(line) = self.line.checked_add(1) else {
            return Err(NoMemory);
        };
        self.line = line;
        Ok(())
    }

    /// One byte more.
    fn byte(&mut self, alloc: Global, guards: &Guards, byte: u8) -> Result<(), WalkEnd>
        requires { 0 < self.old.line }
        ensures line { 0 < self.new.line }
        ensures walked { MatchResult result
            (λ _. after_byte (guards_data guards.now) (stand_of self.old) byte ≡ Stands (stand_of self.new))
            (λ end. IsEnd (stand_of self.new) (after_byte (guards_data guards.now) (stand_of self.old) byte) end) }
    {
        if byte == b'\n' {
            return self.end_line(alloc, guards);
        }
        match self.row.push(byte) {
            Ok(()) => Ok(()),
            Err(_) => Err(WalkEnd::NoMemory),
        }
    }

    /// Goes through these bytes.
    pub fn feed(&mut self, alloc: Global, guards: &Guards, bytes: &[u8]) -> Result<(), WalkEnd>
        requires { 0 < self.old.line }
        ensures line { 0 < self.new.line }
        ensures walked { MatchResult result
            (λ _. walked (guards_data guards.now) (stand_of self.old) bytes.now ≡ Stands (stand_of self.new))
            (λ end. IsEnd (stand_of self.new) (walked (guards_data guards.now) (stand_of self.old) bytes.now) end) }
    {
        for byte in bytes {
            match self.byte(alloc, guards, *byte) {
                Ok(()) => {}
                Err(end) => return Err(end),
            }
        }
        Ok(())
    }
}
