//! The call that a thread makes next.
use crate::calling::class_at;
use crate::operators::{address_of, operand};
use crate::seen::Seen;
use compile::Instr;
use paths::{ClassId, MethodId};
use state::ThreadCell;

/// The method that a thread's line calls, where it is a call.
fn called(seen: &Seen<'_>, cell: &ThreadCell) -> Option<MethodId> {
    let place = cell.place()?;
    let line = seen.code.code.get(place as usize)?;
    match line.instr {
        Instr::Call(method) => Some(method),
        _ => None,
    }
}

/// The class of the object on which a thread calls a method next, and this method.
pub(crate) fn next_call(seen: &Seen<'_>, cell: &ThreadCell) -> Option<(ClassId, MethodId)> {
    let method = called(seen, cell)?;
    let found = seen.program().methods.get(method.0 as usize)?;
    let address = address_of(operand(cell.operands(), found.params.len()))?;
    let class = class_at(seen, address)?;
    Some((class, method))
}
