//! Steps that nobody else sees.
ghost use Rattle.std.specs.Prelude.{◌≡◌, true, slice_get};
ghost use Rattle.core_program.specs.Views.{program_of};
ghost use Rattle.state.specs.States.{State};
ghost use Rattle.state.specs.Frames.{top_frame, operands_of};
ghost use Rattle.state.specs.Values.{top, address_of};
ghost use Rattle.machine.specs.Standing.{program_run, StandsFor};
ghost use Rattle.witness.specs.Unseen.{instr_reach, is_final_field, HasValue, IsLasting, IsNextLasting, HasUnseenStep};

use crate::node::is_inside;
use compile::{CodeTable, Instr};
use core_program::CoreProgram;
use machine::{Machine, address_of, listed_value, operand};
use paths::FieldId;
use state::{Heap, ThreadCell, ThreadState};

/// What an instruction looks at or changes: nothing but the frames of its own thread; a field that it reads; or something
/// else that all threads share.
#[derive(Clone, Copy)]
pub(crate) enum Reach {
    Own,
    Field(FieldId),
    Shared,
}

/// What an instruction looks at or changes. What enters a method counts as shared.
fn reach_of(instr: Instr) -> Reach
    ensures { result ≡ instr_reach instr }
{
    match instr {
        Instr::Push(_) | Instr::Load(_) | Instr::Store(_) | Instr::Drop => Reach::Own,
        Instr::Unary(_) | Instr::Binary(_) => Reach::Own,
        Instr::AndThen(_) | Instr::OrElse(_) | Instr::Branch(_) => Reach::Own,
        Instr::Ret(_) => Reach::Own,
        Instr::Get(field) => Reach::Field(field),
        Instr::Put(_) | Instr::New(_) | Instr::Call(_) => Reach::Shared,
        Instr::Acquire | Instr::Release | Instr::Print | Instr::Start => Reach::Shared,
    }
}

/// Whether a field is final.
fn is_final(program: &CoreProgram, field: FieldId) -> bool
    ensures { result ≡ is_final_field (slice_get (program_of program.now).fields field) }
{
    match program.fields.get(field.0 as usize) {
        Some(found) => found.is_final,
        None => false,
    }
}

/// Whether the topmost operand refers to an object that has a value of this field.
fn has_value(program: &CoreProgram, heap: &Heap, cell: &ThreadCell, field: FieldId) -> bool
    ensures { result ≡ true → HasValue (program_of program.now) heap.now (address_of (top (operands_of (top_frame cell.now)))) field }
{
    let Some(address) = address_of(operand(cell.operands(), 0)) else {
        return false;
    };
    match heap.find(address) {
        Some((class, values)) => listed_value(program, class, values, field).is_some(),
        None => false,
    }
}

/// Whether an instruction of a thread looks at nothing that another one may change, and changes nothing but its own frames.
fn is_quiet(program: &CoreProgram, heap: &Heap, cell: &ThreadCell, instr: Instr) -> bool
    ensures { result ≡ true → IsLasting (program_of program.now) heap.now (instr_reach instr) (address_of (top (operands_of (top_frame cell.now)))) }
{
    match reach_of(instr) {
        Reach::Own => true,
        Reach::Field(field) => is_final(program, field) && has_value(program, heap, cell, field),
        Reach::Shared => false,
    }
}

/// Whether the next instruction of a running thread is of this kind.
fn is_quiet_next(program: &CoreProgram, heap: &Heap, code: &CodeTable, cell: &ThreadCell) -> bool
    ensures { result ≡ true → IsNextLasting (program_of program.now) code.now.code.items heap.now cell.now }
{
    let Some(place) = cell.place() else {
        return false;
    };
    match code.code.get(place as usize) {
        Some(line) => is_quiet(program, heap, cell, line.instr),
        None => false,
    }
}

/// Whether a thread has a step that nobody else sees: it runs, its next instruction is of this kind, and it stands inside no
/// atomic call.
pub(crate) fn is_unseen(machine: &Machine<'_>, code: &CodeTable, thread: u32) -> bool
    requires { code.now ≡ machine.now.code }
    ensures { result ≡ true → (q : State) → StandsFor machine.now q → HasUnseenStep (program_run machine.now) q thread }
{
    if is_inside(machine, thread) {
        return false;
    }
    let program = machine.program();
    let heap = machine.heap();
    match machine.threads().get(thread as usize) {
        Some(cell) => match cell.state() {
            ThreadState::Running => is_quiet_next(program, heap, code, cell),
            _ => false,
        },
        None => false,
    }
}
