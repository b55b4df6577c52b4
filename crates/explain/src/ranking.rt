//! Ranks of methods, by which their explanations don't lead in a circle.

ghost use Rattle.std.specs.Prelude.{◌≡◌, ◌≤◌, ◌<◌, ◌+◌, ◌^◌, ℕ, List, false, true, Some, length, slice_get, IfOk, OnOk};
ghost use Rattle.algebra.specs.declared.basic.Basic.TheVariants.{Atomic};
ghost use Rattle.core_program.specs.Core.{Program};
ghost use Rattle.core_program.specs.Views.{method_of, program_of};
ghost use Rattle.paths.specs.Paths.{PathData};
ghost use Rattle.rules.specs.Effect.{Assignment};
ghost use Rattle.rules.specs.Near.{rel_of};
ghost use Rattle.rules.specs.Rules.{AtMost};
ghost use Rattle.rules.specs.Search.{row_at};
ghost use Rattle.explain.specs.declared.ranking.Bounds.{Bounds};
ghost use Rattle.explain.specs.Leads.{limit_for, told_limit};
ghost use Rattle.explain.specs.Strict.{AreEntryMarks};
ghost use Rattle.explain.specs.Ranking.{AreCircling, AreRanked, AreStuck, first_ground, first_grounds, ground_by, is_stuck_at, may_rank, open_rank};

use crate::asked::{OPEN, Queues};
use crate::entries::entry_marks;
use crate::explaining::why_more;
use crate::grounds::{Ground, Lowered, is_reason, leads_below, rank_at, reason_lead, why_known};
use crate::program::keeps;
use crate::strict::strict_limit;
use crate::walk::Walk;
use algebra::Basic;
use core_program::CoreMethod;
use effects::Assigned;
use paths::MethodId;
use rules::{OverridingMethods, bound_of};
use std::alloc::AllocError as NoMemory;

/// Which bounds methods have to keep: those that they declare, or those that they have where each counts as `atomic`.
#[derive(Clone, Copy)]
pub enum Bounds {
    Declared,
    Strict,
}

/// A rank that is given, and the level to which methods of that rank and greater ones are lowered.
#[derive(Clone, Copy)]
pub(crate) struct Round {
    pub(crate) number: u64,
    pub(crate) level: Basic,
}

/// The greatest basic that a method may have without being told.
fn limit_for<A: Assigned>(
    walk: &Walk<'_, A>,
    marks: &[bool],
    bounds: Bounds,
    id: MethodId,
    method: &CoreMethod,
) -> Basic
    requires { AreEntryMarks (program_of walk.now.program.now) marks.now }
    ensures { result ≡ limit_for bounds (program_of walk.now.program.now) (A.Assigned.assigned walk.now.assigned.now) id (method_of method.now) }
{
    match bounds {
        Bounds::Declared => told_limit(walk, id, method),
        Bounds::Strict => strict_limit(walk, marks, id, method),
    }
}

/// The same, by the bounds that methods declare.
fn told_limit<A: Assigned>(walk: &Walk<'_, A>, id: MethodId, method: &CoreMethod) -> Basic
    ensures { result ≡ told_limit (A.Assigned.assigned walk.now.assigned.now) id (method_of method.now) }
{
    if keeps(walk, id, method) {
        Basic::Atomic
    } else {
        bound_of(method.annotated)
    }
}

/// A method before ranks are given: where it is more than it may be it has none, and the lead of what it comes to in the end.
fn first_ground<A: Assigned>(
    walk: &Walk<'_, A>,
    over: &OverridingMethods,
    marks: &[bool],
    bounds: Bounds,
    id: MethodId,
    method: &CoreMethod,
) -> Result<Ground, NoMemory>
    requires { AreEntryMarks (program_of walk.now.program.now) marks.now }
    ensures { IfOk result (λ first. first ≡ first_ground (program_of walk.now.program.now) (rel_of walk.now.sets.now) (A.Assigned.assigned walk.now.assigned.now) (row_at over.now) bounds id (method_of method.now)) }
{
    let limit = limit_for(walk, marks, bounds, id, method);
    if walk
        .assigned
        .at(id, method.requires_.as_slice())
        .below(limit)
    {
        return Ok(Ground {
            rank: 0,
            level: None,
            lead: None,
        });
    }
    let why = why_more(walk, over.of(id), id, method, limit)?;
    Ok(Ground {
        rank: OPEN,
        level: None,
        lead: reason_lead(walk, &why)?,
    })
}

/// All methods before ranks are given.
pub(crate) fn first_grounds<A: Assigned>(
    walk: &Walk<'_, A>,
    over: &OverridingMethods,
    bounds: Bounds,
) -> Result<Vec<Ground>, NoMemory>
    requires { length (program_of walk.now.program.now).methods ≤ 2 ^ 32 }
    ensures { IfOk result (λ grounds. grounds.items ≡ first_grounds (program_of walk.now.program.now) (rel_of walk.now.sets.now) (A.Assigned.assigned walk.now.assigned.now) (row_at over.now) bounds) }
{
    let marks = entry_marks(walk.alloc, walk.program)?;
    let mut grounds = Vec::new(walk.alloc);
    for (m, method) in walk.program.methods().iter().enumerate() {
        let id = MethodId(m as u32);
        grounds.push(first_ground(walk, over, marks.as_slice(), bounds, id, method)?)?;
    }
    Ok(grounds)
}

/// Whether a method has no rank, and its explanation leads nowhere or to a method of smaller rank than this.
fn may_rank(grounds: &[Ground], place: usize, round: u64) -> bool
    ensures { result ≡ may_rank grounds.now round (slice_get grounds.now place) }
{
    match grounds.get(place) {
        Some(ground) => ground.rank == OPEN && leads_below(grounds, round, &ground.lead),
        None => false,
    }
}

/// Gives this rank to a method that has none, where its explanation leads nowhere or to a method of smaller rank; then those that wait for it
/// are to be asked.
pub(crate) fn rank_led(
    grounds: &mut Vec<Ground>,
    queues: &mut Queues,
    place: usize,
    round: u64,
) -> Result<bool, NoMemory>
    requires { round < open_rank }
    ensures length { length grounds.new.items ≡ length grounds.old.items }
    ensures ranked { OnOk result ((bounds : Bounds) (P : Program) (rel : ℕ → List PathData) (A : Assignment) (overs : ℕ → List ℕ) → AreRanked bounds P rel A overs grounds.old.items (round + 1) → AreRanked bounds P rel A overs grounds.new.items (round + 1)) }
    ensures circling { OnOk result ((bounds : Bounds) (P : Program) (rel : ℕ → List PathData) (A : Assignment) (overs : ℕ → List ℕ) → AreCircling bounds P rel A overs grounds.old.items (round + 1) → AreCircling bounds P rel A overs grounds.new.items (round + 1)) }
    ensures same { IfOk result (λ any. any ≡ false → grounds.new.items ≡ grounds.old.items) }
    ensures stuck { IfOk result (λ any. any ≡ false → may_rank grounds.old.items round (slice_get grounds.old.items place) ≡ false) }
{
    if !may_rank(grounds.as_slice(), place, round) {
        return Ok(false);
    }
    grounds[place].rank = round;
    queues.wake(place)?;
    Ok(true)
}

/// Gives this rank to all such methods.
pub(crate) fn rank_all_led(
    grounds: &mut Vec<Ground>,
    queues: &mut Queues,
    round: u64,
) -> Result<bool, NoMemory>
    requires { round < open_rank }
    ensures length { length grounds.new.items ≡ length grounds.old.items }
    ensures ranked { OnOk result ((bounds : Bounds) (P : Program) (rel : ℕ → List PathData) (A : Assignment) (overs : ℕ → List ℕ) → AreRanked bounds P rel A overs grounds.old.items (round + 1) → AreRanked bounds P rel A overs grounds.new.items (round + 1)) }
    ensures same { IfOk result (λ any. any ≡ false → grounds.new.items ≡ grounds.old.items) }
    ensures stuck { IfOk result (λ any. any ≡ false → (place : ℕ) → place < length grounds.old.items → may_rank grounds.old.items round (slice_get grounds.old.items place) ≡ false) }
{
    let mut any = false;
    for place in 0..grounds.len() {
        any |= rank_led(grounds, queues, place, round)?;
    }
    Ok(any)
}

/// The ground of a method with a reason by what is known before a rank, where there is one, and it leads to a smaller rank.
fn ground_by<A: Assigned>(
    walk: &Walk<'_, A>,
    over: &OverridingMethods,
    grounds: &[Ground],
    round: &Round,
    id: MethodId,
    method: &CoreMethod,
) -> Result<Option<Ground>, NoMemory>
    ensures { IfOk result (λ found. found ≡ ground_by (program_of walk.now.program.now) (rel_of walk.now.sets.now) (A.Assigned.assigned walk.now.assigned.now) (row_at over.now) grounds.now round.now.level round.now.number id (method_of method.now)) }
{
    let level = round.level;
    let number = round.number;
    let known = Lowered {
        assigned: walk.assigned,
        grounds,
        from: number,
        level,
    };
    let why = why_known(walk, &known, over, id, method)?;
    let lead = reason_lead(walk, &why)?;
    if !is_reason(&why) || !leads_below(grounds, number, &lead) {
        return Ok(None);
    }
    Ok(Some(Ground {
        rank: number,
        level: Some(level),
        lead,
    }))
}

/// Gives this rank to a method that has none, where there is such a ground.
pub(crate) fn rank_known<A: Assigned>(
    walk: &Walk<'_, A>,
    over: &OverridingMethods,
    grounds: &mut Vec<Ground>,
    round: &Round,
    id: MethodId,
    method: &CoreMethod,
) -> Result<bool, NoMemory>
    requires place { id < length grounds.old.items }
    requires round { round.now.number < open_rank }
    requires level { AtMost Atomic round.now.level }
    ensures length { length grounds.new.items ≡ length grounds.old.items }
    ensures ranked { OnOk result ((bounds : Bounds) → slice_get (program_of walk.now.program.now).methods id ≡ Some (method_of method.now) →
        AreCircling bounds (program_of walk.now.program.now) (rel_of walk.now.sets.now) (A.Assigned.assigned walk.now.assigned.now) (row_at over.now) grounds.old.items (round.now.number + 1) →
        AreCircling bounds (program_of walk.now.program.now) (rel_of walk.now.sets.now) (A.Assigned.assigned walk.now.assigned.now) (row_at over.now) grounds.new.items (round.now.number + 1)) }
    ensures same { IfOk result (λ any. any ≡ false → grounds.new.items ≡ grounds.old.items) }
    ensures stuck { IfOk result (λ any. any ≡ false → is_stuck_at (program_of walk.now.program.now) (rel_of walk.now.sets.now) (A.Assigned.assigned walk.now.assigned.now) (row_at over.now)
        grounds.old.items round.now.level round.now.number id (method_of method.now) ≡ true) }
{
    if rank_at(grounds.as_slice(), id) != OPEN {
        return Ok(false);
    }
    match ground_by(walk, over, grounds.as_slice(), round, id, method)? {
        Some(ground) => {
            grounds[id.0 as usize] = ground;
            Ok(true)
        }
        None => Ok(false),
    }
}

/// Gives this rank to all methods that have none and for which there is such a ground.
pub(crate) fn rank_all_known<A: Assigned>(
    walk: &Walk<'_, A>,
    over: &OverridingMethods,
    grounds: &mut Vec<Ground>,
    round: &Round,
) -> Result<bool, NoMemory>
    requires few { length (program_of walk.now.program.now).methods ≤ 2 ^ 32 }
    requires each { length grounds.old.items ≡ length (program_of walk.now.program.now).methods }
    requires round { round.now.number < open_rank }
    requires level { AtMost Atomic round.now.level }
    ensures length { length grounds.new.items ≡ length grounds.old.items }
    ensures ranked { OnOk result ((bounds : Bounds) →
        AreCircling bounds (program_of walk.now.program.now) (rel_of walk.now.sets.now) (A.Assigned.assigned walk.now.assigned.now) (row_at over.now) grounds.old.items (round.now.number + 1) →
        AreCircling bounds (program_of walk.now.program.now) (rel_of walk.now.sets.now) (A.Assigned.assigned walk.now.assigned.now) (row_at over.now) grounds.new.items (round.now.number + 1)) }
    ensures same { IfOk result (λ any. any ≡ false → grounds.new.items ≡ grounds.old.items) }
    ensures stuck { IfOk result (λ any. any ≡ false → AreStuck (program_of walk.now.program.now) (rel_of walk.now.sets.now) (A.Assigned.assigned walk.now.assigned.now) (row_at over.now)
        grounds.new.items round.now.level round.now.number) }
{
    let mut any = false;
    for (m, method) in walk.program.methods().iter().enumerate() {
        any |= rank_known(walk, over, grounds, round, MethodId(m as u32), method)?;
    }
    Ok(any)
}
