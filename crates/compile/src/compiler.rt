//! The code of a program.
ghost use Rattle.std.specs.Prelude.{◌≡◌, ◌++◌, IfOk, vec_len, ◌+◌};
ghost use Rattle.core_program.specs.Views.{program_of, method_of};
ghost use Rattle.compile.specs.IsCode.{IsCodeOf};
ghost use Rattle.compile.specs.Rooms.{stmt_room, method_rooms};
ghost use Rattle.compile.specs.Emission.{emitted_method, method_weight, first_line_of_method, emitted_methods, method_entries};

use crate::emit::{emit_stmt, put};
use crate::rooms::stmt_room;
use crate::stack::{Code, CodeTable, Instr};
use core_program::{CoreMethod, CoreProgram};
use std::alloc::{AllocError as NoMemory, Global};

/// The code of a program, in which each method's entry stands for its body and a return. Want of memory also where a
/// place or a number of operands is past 32 bits.
pub fn compile(alloc: Global, program: &CoreProgram) -> Result<CodeTable, NoMemory>
    ensures { IfOk result (λ t. IsCodeOf (program_of program.now) t.code.items t.entry.items t.room.items) }
{
    compiled(alloc, program)
}

/// The lines, entries and rooms of all methods, in order.
fn compiled(alloc: Global, program: &CoreProgram) -> Result<CodeTable, NoMemory>
    ensures code { IfOk result (λ t. t.code.items ≡ emitted_methods (program_of program.now).methods 0) }
    ensures entry { IfOk result (λ t. t.entry.items ≡ method_entries (program_of program.now).methods 0) }
    ensures room { IfOk result (λ t. t.room.items ≡ method_rooms (program_of program.now).methods) }
{
    let mut code = Vec::new(alloc);
    let mut entry = Vec::new(alloc);
    let mut room = Vec::new(alloc);
    for method in program.methods() {
        entry.push(emit_method(&mut code, method)?)?;
        room.push(stmt_room(&method.body)?)?;
    }
    Ok(CodeTable { code, entry, room })
}

/// Puts down a method: its return, then its body; answers where it begins.
fn emit_method(code: &mut Vec<Code>, method: &CoreMethod) -> Result<u32, NoMemory>
    ensures code { IfOk result (λ at. code.new.items ≡ code.old.items ++ emitted_method (method_of method.now) (vec_len code.old)) }
    ensures len { IfOk result (λ at. vec_len code.new ≡ vec_len code.old + method_weight (method_of method.now)) }
    ensures place { IfOk result (λ at. at ≡ first_line_of_method (method_of method.now) (vec_len code.old)) }
{
    let returns = put(code, Instr::Ret(method.result.is_some()), 0)?;
    emit_stmt(code, &method.body, returns, returns)
}
