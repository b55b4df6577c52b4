//! For which methods each waits: the one to which its explanation leads; and, where it runs in a circle, those that it calls and that do so
//! too, and those that override it, where they are more than `atomic` at what is held there.

ghost use Rattle.std.specs.Prelude.{◌≤◌, ◌^◌, length};
ghost use Rattle.core_program.specs.Views.{program_of};

use crate::asked::{OPEN, Queues};
use crate::grounds::{Ground, rank_at};
use crate::program::method_at;
use crate::walk::Walk;
use algebra::Basic;
use core_program::CoreMethod;
use effects::{Assigned, among};
use paths::{MethodId, Path};
use rules::{Overriding, OverridingMethods, callers_of, method_at as method_id};
use std::alloc::{AllocError as NoMemory, Global};

/// Each method without a rank waits for the one to which it leads.
pub(crate) fn led_queues(alloc: Global, grounds: &[Ground]) -> Result<Queues, NoMemory> {
    let mut queues = Queues::new(alloc, grounds.len())?;
    for (place, ground) in grounds.iter().enumerate() {
        if let Some(lead) = ground.lead {
            queues.add_led(place, lead)?;
        }
    }
    Ok(queues)
}

/// Whether a method is an error at its required paths.
fn is_error<A: Assigned>(walk: &Walk<'_, A>, id: MethodId) -> bool {
    match method_at(walk.program, id) {
        Some(method) => walk.assigned.at(id, method.requires_.as_slice()) == Basic::Error,
        None => false,
    }
}

/// Rows in which no method overrides another: of each method only those count that call it.
#[derive(Clone, Copy)]
struct NoRows;

impl Overriding for NoRows {
    ghost use Rattle.std.specs.Prelude.{[]};

    ghost rows = { λ _. [] };

    fn row(&self, _m: MethodId) -> &[MethodId] {
        &[]
    }
}

/// A method without a rank waits for one that it calls: as one that may be an error by that, where both are errors.
fn add_caller<A: Assigned>(
    walk: &Walk<'_, A>,
    grounds: &[Ground],
    queues: &mut Queues,
    caller: usize,
    callee: MethodId,
    is_wrong: bool,
) -> Result<(), NoMemory> {
    let id = method_id(caller)?;
    if rank_at(grounds, id) == OPEN {
        queues.add_known(caller, callee, is_wrong && is_error(walk, id))?;
    }
    Ok(())
}

/// Each method without a rank waits for those without a rank that it calls.
fn add_callers<A: Assigned>(
    walk: &Walk<'_, A>,
    grounds: &[Ground],
    queues: &mut Queues,
) -> Result<(), NoMemory>
    requires { length (program_of walk.now.program.now).methods ≤ 2 ^ 32 }
{
    let rows = callers_of(walk.alloc, walk.program, &NoRows)?;
    for (place, row) in rows.as_slice().iter().enumerate() {
        let callee = method_id(place)?;
        if rank_at(grounds, callee) == OPEN {
            let is_wrong = is_error(walk, callee);
            for caller in row.callers() {
                add_caller(walk, grounds, queues, *caller, callee, is_wrong)?;
            }
        }
    }
    Ok(())
}

/// A method waits for one that overrides it, where that is more than `atomic` where these paths are held.
fn add_overriding<A: Assigned>(
    walk: &Walk<'_, A>,
    queues: &mut Queues,
    place: usize,
    over: MethodId,
    held: &[Path],
) -> Result<(), NoMemory> {
    let known = among(walk.alloc, walk.sets.rel(over), held)?;
    let own = walk.assigned.at(over, known.as_slice());
    if !own.below(Basic::Atomic) {
        queues.add_known(place, over, own == Basic::Error)?;
    }
    Ok(())
}

/// A method waits for those that override it, and is to be asked at first.
fn add_method<A: Assigned>(
    walk: &Walk<'_, A>,
    over: &OverridingMethods,
    queues: &mut Queues,
    id: MethodId,
    method: &CoreMethod,
) -> Result<(), NoMemory> {
    let place = id.0 as usize;
    let required = method.requires_.as_slice();
    for other in over.of(id) {
        add_overriding(walk, queues, place, *other, required)?;
    }
    queues.ask_known(place, is_error(walk, id))
}

/// Each method without a rank waits for those by which it may be more than `atomic`, and is to be asked at first.
pub(crate) fn add_open<A: Assigned>(
    walk: &Walk<'_, A>,
    over: &OverridingMethods,
    grounds: &[Ground],
    queues: &mut Queues,
) -> Result<(), NoMemory>
    requires { length (program_of walk.now.program.now).methods ≤ 2 ^ 32 }
{
    let mut any = false;
    for (m, method) in walk.program.methods().iter().enumerate() {
        let id = MethodId(m as u32);
        if rank_at(grounds, id) == OPEN {
            add_method(walk, over, queues, id, method)?;
            any = true;
        }
    }
    if !any {
        return Ok(());
    }
    add_callers(walk, grounds, queues)
}
