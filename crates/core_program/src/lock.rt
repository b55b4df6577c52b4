//! Lock expressions: which expressions have a path.
ghost use Rattle.std.specs.Prelude.{◌≡◌, slice_get};
ghost use Rattle.core_program.specs.Views.{program_of, expr_of};
ghost use Rattle.core_program.specs.Locks.{path_of, get_path, leads_on};

use crate::program::CoreProgram;
use crate::tree::CoreExpr;
use crate::types::CoreType;
use paths::{FieldId, Path};

/// The path of a lock expression; `None` exactly where the expression is none.
pub fn path_of(program: &CoreProgram, e: &CoreExpr) -> Option<Path>
    ensures { result ≡ path_of (program_of program.now) (expr_of e.now) }
{
    match e {
        CoreExpr::This => Some(Path::of_root(0)),
        CoreExpr::Var {
            slot,
            is_final: true,
            ty: CoreType::Class(_),
        } => Some(Path::of_root(*slot)),
        CoreExpr::Get(receiver, field) => get_path(program, *field, path_of(program, receiver)),
        _ => None,
    }
}

/// The path of the field of a receiver that has this path, or none.
fn get_path(program: &CoreProgram, field: FieldId, receiver: Option<Path>) -> Option<Path>
    ensures { result ≡ get_path (program_of program.now) field receiver }
{
    if leads_on(program, field) {
        let mut path = receiver?;
        path.fields.try_push(field).ok()?;
        Some(path)
    } else {
        None
    }
}

/// Whether a path may go on through a field.
fn leads_on(program: &CoreProgram, field: FieldId) -> bool
    ensures { result ≡ leads_on (slice_get (program_of program.now).fields field) }
{
    match program.fields.get(field.0 as usize) {
        Some(f) => f.is_final && matches!(f.ty, CoreType::Class(_)),
        None => false,
    }
}
