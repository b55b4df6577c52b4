//! What looks at methods may still take, and what is known from the last of them.
ghost use Rattle.std.specs.Prelude.{◌≡◌, ◌≤◌, ◌<◌, ◌+◌, ◌*◌, true, false, length, IfOk, OnOk};
ghost use Rattle.core_program.specs.Views.{program_of};
ghost use Rattle.rules.specs.Near.{rel_of};
ghost use Rattle.rules.specs.Overriding.{AreOverriders};
ghost use Rattle.refutation.specs.Lines.{overriding};
ghost use Rattle.refutation.specs.Overs.{TellsOver};
ghost use Rattle.refutation.specs.Tables.{said_by};

use crate::floors::Floors;
use crate::judged::Judged;
use crate::overs::{OverTable, over_table};
use crate::told::OverTables;
use crate::work::{overriding_cost, spend};
use paths::MethodId;
use std::alloc::{AllocError as NoMemory, Global};

/// What is left of the work, and what is said of the methods that override the one that was looked at last.
#[derive(Drop)]
pub(crate) struct Looks {
    pub(crate) left: u64,
    pub(crate) known: OverTable,
}

/// Makes the table of a method, where it isn't known: false where that would take more work than is left.
pub(crate) fn renew(
    alloc: Global,
    judged: &Judged<'_>,
    looks: &mut Looks,
    floors: &Floors<'_>,
    method: MethodId,
) -> Result<bool, NoMemory>
    requires over { AreOverriders (program_of judged.now.program.now) judged.now.over.now }
    requires known { let rel = rel_of floors.now.sets.now in
        TellsOver (program_of judged.now.program.now) rel (said_by rel floors.now.tables.items) looks.old.known.method looks.old.known.table looks.old.known.whole }
    ensures known { let rel = rel_of floors.now.sets.now in
        OnOk result (TellsOver (program_of judged.now.program.now) rel (said_by rel floors.now.tables.items) looks.new.known.method looks.new.known.table looks.new.known.whole) }
    ensures its { IfOk result (λ b. b ≡ true → looks.new.known.method ≡ method) }
    ensures spent { IfOk result (λ b. b ≡ true → looks.old.left ≤ looks.new.left + 8 * length (overriding (program_of judged.now.program.now) method)) }
    ensures less { IfOk result (λ b. b ≡ false → looks.old.left < 8 * length (overriding (program_of judged.now.program.now) method)) }
{
    if looks.known.whole && looks.known.method == method {
        return Ok(true);
    }
    if !spend(&mut looks.left, overriding_cost(judged.over.of(method))) {
        return Ok(false);
    }
    let none = OverTables::none(alloc, 0)?;
    looks.known = over_table(alloc, judged, floors, &none, method)?;
    Ok(true)
}

/// Forgets the table where it is that of another method, of which the next line may say something that it hasn't.
pub(crate) fn forget_others(known: &mut OverTable, method: MethodId)
    ensures whole { known.new.whole ≡ true → known.old.whole ≡ true }
    ensures its { known.new.whole ≡ true → known.new.method ≡ method }
    ensures method { known.new.method ≡ known.old.method }
    ensures table { known.new.table ≡ known.old.table }
{
    if known.method != method {
        known.whole = false;
    }
}
