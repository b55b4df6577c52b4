//! The types of a method's slots.
ghost use Rattle.std.specs.Prelude.{◌≡◌, ◌++◌, IfOk, OnOk};
ghost use Rattle.core_program.specs.Views.{method_of, stmt_of, stmts_from};
ghost use Rattle.levels.specs.SlotTypes.{local_types, local_types_each, slot_types};

use core_program::{CoreMethod, CoreStmt, CoreType};
use std::alloc::{AllocError as NoMemory, Global};

/// The types of a method's slots: `this`, the parameters, the locals in order of declaration.
pub fn slot_types(alloc: Global, method: &CoreMethod) -> Result<Vec<CoreType>, NoMemory>
    ensures { IfOk result (λ types. types.items ≡ slot_types (method_of method.now)) }
{
    let mut types = Vec::new(alloc);
    types.push(CoreType::Class(method.class))?;
    for (_, ty) in &method.params {
        types.push(*ty)?;
    }
    add_locals(&method.body, &mut types)?;
    Ok(types)
}

/// Adds the types of the locals that a statement declares.
#[cycle(locals)]
fn add_locals(s: &CoreStmt, types: &mut Vec<CoreType>) -> Result<(), NoMemory>
    ensures { OnOk result (types.new.items ≡ types.old.items ++ local_types (stmt_of s.now)) }
{
    match s {
        CoreStmt::Block(body) => add_each(body.as_slice(), types),
        CoreStmt::Local { ty, .. } => {
            types.push(*ty)?;
            Ok(())
        }
        CoreStmt::If(_, a, b) => {
            add_locals(a, types)?;
            add_locals(b, types)
        }
        CoreStmt::While(_, a) | CoreStmt::Sync(_, a) => add_locals(a, types),
        CoreStmt::Empty
        | CoreStmt::SetVar(_, _)
        | CoreStmt::SetField(_, _, _)
        | CoreStmt::Do(_, _)
        | CoreStmt::Return(_)
        | CoreStmt::Print(_)
        | CoreStmt::Start(_) => Ok(()),
    }
}

/// Adds those of the statements of a block.
#[cycle(locals)]
fn add_each(body: &[CoreStmt], types: &mut Vec<CoreType>) -> Result<(), NoMemory>
    ensures { OnOk result (types.new.items ≡ types.old.items ++ local_types_each (stmts_from body.now)) }
{
    for s in body {
        add_locals(s, types)?;
    }
    Ok(())
}
