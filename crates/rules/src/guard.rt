//! The guard of an access.
ghost use Rattle.std.specs.Prelude.{◌≡◌, Some, IfSome};
ghost use Rattle.paths.specs.Paths.{extended, extended_some};
ghost use Rattle.core_program.specs.Core.{Program};
ghost use Rattle.core_program.specs.Locks.{path_of, slot_path};
ghost use Rattle.core_program.specs.Views.{program_of, expr_of};
ghost use Rattle.rules.specs.Guards.{guard_of, guard_by};

use core_program::{CoreExpr, CoreProgram, CoreType, path_of};
use paths::{FieldId, Path, extend};

/// What guards an access to a field: nothing, since the field is final; nothing, though it is mutable; the lock
/// with this path; a lock that has no path here; or the same two where the lock guards writes only.
#[derive(Drop)]
pub enum Guard {
    Final,
    Free,
    Named(Path),
    Unnamed,
    WriteNamed(Path),
    WriteUnnamed,
}

/// The guard of an access to a field of this receiver.
pub fn guard_at(program: &CoreProgram, receiver: &CoreExpr, field: FieldId) -> Guard
    ensures { let P = program_of program.now in
        result ≡ guard_of P field (path_of P (expr_of receiver.now)) }
{
    let Some(accessed) = program.fields().get(field.0 as usize) else {
        return Guard::Unnamed;
    };
    if accessed.is_final {
        return Guard::Final;
    }
    match &accessed.guard {
        None => Guard::Free,
        Some(guard) => named_guard(program, receiver, accessed.writes_only, guard),
    }
}

/// The guard at this receiver that a field has by its declaration; of writes only, or of reads too.
fn named_guard(program: &CoreProgram, receiver: &CoreExpr, writes_only: bool, guard: &Path) -> Guard
    ensures { let P = program_of program.now in
        result ≡ guard_by writes_only (extended_some (path_of P (expr_of receiver.now)) guard.now.fields) }
{
    if guard.fields.is_empty() {
        if let Some(slot) = slot_of(receiver) {
            return slot_guard(writes_only, slot);
        }
    }
    match path_of(program, receiver) {
        Some(path) => guard_by(writes_only, through(path, guard.fields.as_slice())),
        None => guard_by(writes_only, None),
    }
}

/// The slot that a receiver is, where its path is a slot alone.
fn slot_of(receiver: &CoreExpr) -> Option<u16>
    ensures { IfSome result (λ slot. (P : Program) → path_of P (expr_of receiver.now) ≡ Some (slot_path slot)) }
{
    match receiver {
        CoreExpr::This => Some(0),
        CoreExpr::Var {
            slot,
            is_final: true,
            ty: CoreType::Class(_),
        } => Some(*slot),
        _ => None,
    }
}

/// A guard that is a slot alone; of writes only, or of reads too.
fn slot_guard(writes_only: bool, slot: u16) -> Guard
    ensures { result ≡ guard_by writes_only (Some (slot_path slot)) }
{
    if writes_only {
        Guard::WriteNamed(Path::of_root(slot))
    } else {
        Guard::Named(Path::of_root(slot))
    }
}

/// The path through these fields; none where it is too long.
fn through(path: Path, fields: &[FieldId]) -> Option<Path>
    ensures { result ≡ extended path fields.now }
{
    // Only the proof needs this: that a path has at most two fields is known where they are counted.
    let _count = path.fields.len();
    if fields.is_empty() {
        return Some(path);
    }
    extend(&path, fields)
}

/// A guard with this path, or one that has none here; of writes only, or of reads too.
fn guard_by(writes_only: bool, path: Option<Path>) -> Guard
    ensures { result ≡ guard_by writes_only path }
{
    match (writes_only, path) {
        (false, Some(path)) => Guard::Named(path),
        (false, None) => Guard::Unnamed,
        (true, Some(path)) => Guard::WriteNamed(path),
        (true, None) => Guard::WriteUnnamed,
    }
}
