//! Fields that are written though nothing guards them.

ghost use Rattle.std.specs.Prelude.{◌≡◌, ◌≤◌, ◌^◌, ◌++◌, List, length, IfOk, OnOk};
ghost use Rattle.core_program.specs.Locks.{path_of};
ghost use Rattle.core_program.specs.Views.{expr_of, method_of, program_of, stmt_of};
ghost use Rattle.rules.specs.Guards.{guard_of};
ghost use Rattle.explain.specs.declared.unguarded.BareWrite.{BareWrite as Write};
ghost use Rattle.explain.specs.Unguarded.{bare_field, bare_in, bare_write, bare_writes, first_writes, if_free, is_written, with_write, writes_in, writes_of};
ghost use Rattle.explain.specs.Views.{part_of_walk, visit_of, visits_of};

use crate::explaining::walk_body;
use crate::found::{CorePart, Visited};
use crate::walk::Walk;
use core_program::{CoreExpr, CoreMethod, CoreProgram, CoreStmt};
use effects::Assigned;
use paths::{FieldId, MethodId};
use rules::{Guard, guard_at};
use std::alloc::AllocError as NoMemory;

/// The write of a field that nothing guards: the method, the number of the node that writes, and the field.
#[derive(Clone, Copy)]
pub struct BareWrite {
    pub method: MethodId,
    pub node: usize,
    pub field: FieldId,
}

/// The field, where nothing guards it at this receiver.
fn if_free(program: &CoreProgram, receiver: &CoreExpr, field: FieldId) -> Option<FieldId>
    ensures { result ≡ if_free (guard_of (program_of program.now) field (path_of (program_of program.now) (expr_of receiver.now))) field }
{
    match guard_at(program, receiver, field) {
        Guard::Free => Some(field),
        _ => None,
    }
}

/// The field that a statement writes by itself, where nothing guards it.
fn bare_in(program: &CoreProgram, s: &CoreStmt) -> Option<FieldId>
    ensures { result ≡ bare_in (program_of program.now) (stmt_of s.now) }
{
    match s {
        CoreStmt::SetField(receiver, field, _) => if_free(program, receiver, *field),
        _ => None,
    }
}

/// The same of a part.
fn bare_field(program: &CoreProgram, part: CorePart<'_>) -> Option<FieldId>
    ensures { result ≡ bare_field (program_of program.now) (part_of_walk part.entry) }
{
    match part {
        CorePart::Expr(_) => None,
        CorePart::Stmt(s) => bare_in(program, s),
    }
}

/// Whether one of these writes is of this field.
fn is_written(field: FieldId, writes: &[BareWrite]) -> bool
    ensures { result ≡ is_written field writes.now }
{
    for write in writes {
        if write.field == field {
            return true;
        }
    }
    false
}

/// Adds the write of a part, where it writes a field that nothing guards and that isn't among these.
fn add_write(
    program: &CoreProgram,
    id: MethodId,
    part: &Visited<'_>,
    writes: &mut Vec<BareWrite>,
) -> Result<(), NoMemory>
    ensures { OnOk result ((rest : List Write) → writes.new.items ++ first_writes writes.new.items rest
        ≡ writes.old.items ++ first_writes writes.old.items (with_write (bare_write (program_of program.now) id (visit_of part.now)) rest)) }
{
    let Some(field) = bare_field(program, part.part) else {
        return Ok(());
    };
    if is_written(field, writes.as_slice()) {
        return Ok(());
    }
    writes.push(BareWrite {
        method: id,
        node: part.node,
        field,
    })?;
    Ok(())
}

/// Adds those of parts of a method, one after the other.
fn add_each(
    program: &CoreProgram,
    id: MethodId,
    parts: &[Visited<'_>],
    writes: &mut Vec<BareWrite>,
) -> Result<(), NoMemory>
    ensures { OnOk result ((rest : List Write) → writes.new.items ++ first_writes writes.new.items rest
        ≡ writes.old.items ++ first_writes writes.old.items (writes_of (program_of program.now) id (visits_of parts.now) ++ rest)) }
{
    for part in parts {
        add_write(program, id, part, writes)?;
    }
    Ok(())
}

/// Adds those of a method: a write of a field that nothing guards can't be moved by itself, so the walk found it.
fn add_method<A: Assigned>(
    walk: &Walk<'_, A>,
    id: MethodId,
    method: &CoreMethod,
    writes: &mut Vec<BareWrite>,
) -> Result<(), NoMemory>
    ensures { OnOk result ((rest : List Write) → writes.new.items ++ first_writes writes.new.items rest
        ≡ writes.old.items ++ first_writes writes.old.items (writes_in (program_of walk.now.program.now) id (method_of method.now) ++ rest)) }
{
    let walked = walk_body(walk, &method.body, method.requires_.as_slice())?;
    add_each(walk.program, id, walked.1.heavy.as_slice(), writes)
}

/// The first write of each field that nothing guards, in source order.
pub fn bare_writes<A: Assigned>(walk: &Walk<'_, A>) -> Result<Vec<BareWrite>, NoMemory>
    requires { length (program_of walk.now.program.now).methods ≤ 2 ^ 32 }
    ensures { IfOk result (λ writes. writes.items ≡ bare_writes (program_of walk.now.program.now)) }
{
    let mut writes = Vec::new(walk.alloc);
    for (m, method) in walk.program.methods().iter().enumerate() {
        add_method(walk, MethodId(m as u32), method, &mut writes)?;
    }
    Ok(writes)
}
