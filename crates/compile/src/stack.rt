//! Instructions, lines of code, and the code of a program.
use core_program::{CoreOp, UnaryOp};
use paths::{ClassId, FieldId, MethodId};
use state::Value;

/// An instruction. `AndThen`, `OrElse` and `Branch` name the place that is gone to on the other outcome: where the
/// right part of `&&` or `||` is evaluated, and where a condition is false. `Ret` says whether its method has a result.
#[derive(Clone, Copy, PartialEq, Eq, Debug)]
pub enum Instr {
    Push(Value),
    Load(u16),
    Store(u16),
    Drop,
    Unary(UnaryOp),
    Binary(CoreOp),
    AndThen(u32),
    OrElse(u32),
    Branch(u32),
    Get(FieldId),
    Put(FieldId),
    New(ClassId),
    Call(MethodId),
    Acquire,
    Release,
    Ret(bool),
    Print,
    Start,
}

/// A line of code: an instruction, and the place where the frame goes on after it.
#[derive(Clone, Copy, PartialEq, Eq, Debug)]
pub struct Code {
    pub instr: Instr,
    pub next: u32,
}

/// The code of a program: its lines by their places, and for each method the place where it begins and the greatest
/// number of operands that a frame of it holds at any place.
#[derive(Drop)]
pub struct CodeTable {
    pub code: Vec<Code>,
    pub entry: Vec<u32>,
    pub room: Vec<u32>,
}
