//! The kind of what a thread does next.
ghost use Rattle.std.specs.Prelude.{◌≡◌, Some, slice_get};
ghost use Rattle.std.specs.Option.{option_copied};
ghost use Rattle.core_program.specs.Views.{field_of};
ghost use Rattle.semantics.specs.Step.{next_at, followed, holds_object, some_address, mutable_kind, access_kind};
ghost use Rattle.semantics.specs.Locking.{guarded_kind};
ghost use Rattle.machine.specs.CodeMachine.{deed_kind};
ghost use Rattle.machine.specs.Turns.{kind_done, cell_kind, turn_kind};
ghost use Rattle.machine.specs.Seen.{program_in, code_lines_in, entry_in, room_in, shared_in};

use crate::decide::{next_deed, value_at};
use crate::deed::{Deed, Turn};
use crate::operators::address_of;
use crate::seen::Seen;
use core_program::CoreField;
use paths::{FieldId, Path};
use state::{Address, StepKind, ThreadCell, ThreadState, Value};

/// The value of a field of what a value refers to.
fn next_at(seen: &Seen<'_>, v: Value, field: FieldId) -> Option<Value>
    ensures { result ≡ next_at (program_in seen.now) (shared_in seen.now) seen.now.thread v field }
{
    match v {
        Value::Ref(address) => value_at(seen, address, field),
        _ => None,
    }
}

/// The value that fields lead to from a value.
fn followed(seen: &Seen<'_>, v: Value, fields: &[FieldId]) -> Option<Value>
    ensures { result ≡ followed (program_in seen.now) (shared_in seen.now) seen.now.thread v fields.now }
{
    match fields.split_first() {
        None => Some(v),
        Some((first, rest)) => match next_at(seen, v, *first) {
            Some(next) => followed(seen, next, rest),
            None => None,
        },
    }
}

/// Whether the thread holds the lock of what a value refers to, where there is one.
fn holds(seen: &Seen<'_>, v: Option<Value>) -> bool
    ensures { result ≡ holds_object (program_in seen.now) (shared_in seen.now) seen.now.thread
        (some_address (program_in seen.now) (shared_in seen.now) seen.now.thread v) }
{
    let Some(v) = v else {
        return false;
    };
    let Some(address) = address_of(v) else {
        return false;
    };
    match seen.locks.find(address) {
        Some((holder, _)) => holder == seen.thread,
        None => false,
    }
}

/// Of an access to a guarded field.
fn guarded_kind(writes_only: bool, writes: bool, held: bool) -> StepKind
    ensures { result ≡ guarded_kind writes_only writes held }
{
    match (writes_only, writes, held) {
        (false, _, true) => StepKind::Both,
        (false, _, false) => StepKind::Bare,
        (true, false, true) => StepKind::Both,
        (true, false, false) => StepKind::Other,
        (true, true, true) => StepKind::Other,
        (true, true, false) => StepKind::Bare,
    }
}

/// Of an access to a mutable field of the object at an address.
fn mutable_kind(
    seen: &Seen<'_>,
    writes_only: bool,
    writes: bool,
    address: Address,
    guard: Option<&Path>,
) -> StepKind
    ensures { result ≡ mutable_kind (program_in seen.now) (shared_in seen.now) seen.now.thread writes_only writes address (option_copied guard.entry) }
{
    match guard {
        None => StepKind::Other,
        Some(guard) => {
            let at = followed(seen, Value::Ref(address), guard.fields.as_slice());
            guarded_kind(writes_only, writes, holds(seen, at))
        }
    }
}

/// Of a read or a write of a field of the object at an address.
fn access_kind(seen: &Seen<'_>, writes: bool, address: Address, field: FieldId) -> StepKind
    ensures { result ≡ access_kind (program_in seen.now) (shared_in seen.now) seen.now.thread writes address (slice_get (program_in seen.now).fields field) }
{
    match seen.program().fields.get(field.0 as usize) {
        None => StepKind::Both,
        Some(found) => field_kind(seen, writes, address, found),
    }
}

/// The same of a field that is there.
fn field_kind(seen: &Seen<'_>, writes: bool, address: Address, field: &CoreField) -> StepKind
    ensures { result ≡ access_kind (program_in seen.now) (shared_in seen.now) seen.now.thread writes address (Some (field_of field.now)) }
{
    if field.is_final {
        StepKind::Both
    } else {
        mutable_kind(
            seen,
            field.writes_only,
            writes,
            address,
            field.guard.as_ref(),
        )
    }
}

/// The kind of what is done.
pub(crate) fn deed_kind(seen: &Seen<'_>, deed: Deed) -> StepKind
    ensures { result ≡ deed_kind (program_in seen.now) (shared_in seen.now) seen.now.thread deed }
{
    match deed {
        Deed::Reads { address, field, .. } => access_kind(seen, false, address, field),
        Deed::Writes { address, field, .. } => access_kind(seen, true, address, field),
        Deed::Takes { again: false, .. } => StepKind::Right,
        Deed::Gives { frees: true, .. } => StepKind::Left,
        Deed::Prints { .. } | Deed::Starts { .. } => StepKind::Other,
        _ => StepKind::Both,
    }
}

/// The kind of what is done; none where the thread waits.
fn kind_done(seen: &Seen<'_>, deed: Deed) -> Option<StepKind>
    ensures { result ≡ kind_done (program_in seen.now) (shared_in seen.now) seen.now.thread deed }
{
    match deed {
        Deed::Waits { .. } => None,
        other => Some(deed_kind(seen, other)),
    }
}

/// The kind of a thread's next step; none where it has none.
pub fn cell_kind(seen: &Seen<'_>, cell: &ThreadCell) -> Option<StepKind>
    ensures { result ≡ cell_kind (program_in seen.now) (code_lines_in seen.now) (entry_in seen.now) (room_in seen.now) (shared_in seen.now) seen.now.thread cell.now }
{
    match cell.state() {
        ThreadState::Ready => Some(StepKind::Both),
        ThreadState::Running => kind_done(seen, next_deed(seen, cell)),
        ThreadState::Done => None,
        ThreadState::Faulted(_) => None,
    }
}

/// The kind of the step that a turn comes to; Both where it comes to none.
pub fn turn_kind(seen: &Seen<'_>, turn: Turn) -> StepKind
    ensures { result ≡ turn_kind (program_in seen.now) (shared_in seen.now) seen.now.thread turn }
{
    match turn {
        Turn::Does(deed) => deed_kind(seen, deed),
        Turn::Starts { .. } => StepKind::Other,
        _ => StepKind::Both,
    }
}
