//! On what the explanation of each method rests: ranks by which none leads in a circle.

ghost use Rattle.std.specs.Prelude.{◌≡◌, None, IfOk, if◌then◌else◌};
ghost use Rattle.algebra.specs.HeldPaths.{has_path};
ghost use Rattle.core_program.specs.Views.{method_of, program_of};
ghost use Rattle.rules.specs.Near.{rel_of};
ghost use Rattle.rules.specs.Search.{row_at};
ghost use Rattle.explain.specs.Explaining.{is_error_of_part, why_of};
ghost use Rattle.explain.specs.Grounds.{lesser, level_at, lowered, rank_at, why_by};
ghost use Rattle.explain.specs.Leads.{is_reason, reason_lead, leads_below};
ghost use Rattle.explain.specs.Programs.{called_by};
ghost use Rattle.explain.specs.Views.{part_of_walk, why_data};

use crate::errors::is_own;
use crate::explaining::{Why, why_more};
use crate::found::CorePart;
use crate::program::called_by;
use crate::walk::Walk;
use algebra::Basic;
use core_program::CoreMethod;
use effects::Assigned;
use paths::{MethodId, Path};
use rules::OverridingMethods;
use std::alloc::AllocError as NoMemory;

/// The rank of a method, the level by which it is explained, if it isn't explained as it is, and the method to which that leads.
#[derive(Clone, Copy)]
pub struct Ground {
    pub rank: u64,
    pub level: Option<Basic>,
    pub lead: Option<MethodId>,
}

/// The rank of a method.
pub(crate) fn rank_at(grounds: &[Ground], id: MethodId) -> u64
    ensures { result ≡ rank_at grounds.now id }
{
    match grounds.get(id.0 as usize) {
        Some(ground) => ground.rank,
        None => 0,
    }
}

/// The level of a method.
fn level_at(grounds: &[Ground], id: MethodId) -> Option<Basic>
    ensures { result ≡ level_at grounds.now id }
{
    match grounds.get(id.0 as usize) {
        Some(ground) => ground.level,
        None => None,
    }
}

/// The lesser of two basics.
fn lesser(a: Basic, b: Basic) -> Basic
    ensures { result ≡ lesser a b }
{
    if a.below(b) { a } else { b }
}

/// An assignment where methods of this rank and greater ones are no more than a level.
#[derive(Drop)]
pub(crate) struct Lowered<'a, 'g, A> {
    pub(crate) assigned: &'a A,
    pub(crate) grounds: &'g [Ground],
    pub(crate) from: u64,
    pub(crate) level: Basic,
}

impl<A: Assigned> Assigned for Lowered<'_, '_, A> {
    ghost use Rattle.explain.specs.Grounds.{lowered};

    ghost assigned = { λ v. lowered (A.Assigned.assigned v.assigned.now) v.grounds.now v.from v.level };

    fn at(&self, method: MethodId, held: &[Path]) -> Basic {
        let whole = self.assigned.at(method, held);
        if self.from <= rank_at(self.grounds, method) {
            lesser(whole, self.level)
        } else {
            whole
        }
    }
}

/// Why a method is more than a level, by what is known before a rank.
pub(crate) fn why_known<'p, A: Assigned>(
    walk: &Walk<'_, A>,
    known: &Lowered<'_, '_, A>,
    over: &OverridingMethods,
    id: MethodId,
    method: &'p CoreMethod,
) -> Result<Why<'p>, NoMemory>
    ensures { IfOk result (λ why. why_data why ≡ why_of (program_of walk.now.program.now) (rel_of walk.now.sets.now)
        (lowered (A.Assigned.assigned known.now.assigned.now) known.now.grounds.now known.now.from known.now.level) (row_at over.now id) id (method_of method.now) known.now.level) }
{
    let lower = Walk {
        alloc: walk.alloc,
        program: walk.program,
        sets: walk.sets,
        assigned: known,
    };
    why_more(&lower, over.of(id), id, method, known.level)
}

/// Why a method is more than the limit, by its ground.
pub(crate) fn why_by<'p, A: Assigned>(
    walk: &Walk<'_, A>,
    over: &OverridingMethods,
    grounds: &[Ground],
    id: MethodId,
    method: &'p CoreMethod,
    limit: Basic,
) -> Result<Why<'p>, NoMemory>
    ensures { IfOk result (λ why. why_data why ≡ why_by (program_of walk.now.program.now) (rel_of walk.now.sets.now) (A.Assigned.assigned walk.now.assigned.now) (row_at over.now)
        grounds.now id (method_of method.now) limit) }
{
    let Some(level) = level_at(grounds, id) else {
        return why_more(walk, over.of(id), id, method, limit);
    };
    let known = Lowered {
        assigned: walk.assigned,
        grounds,
        from: rank_at(grounds, id),
        level,
    };
    why_known(walk, &known, over, id, method)
}

/// The method that an error calls, where that is an error itself and has all that it requires.
fn wrong_lead<A: Assigned>(
    walk: &Walk<'_, A>,
    part: CorePart<'_>,
    held: &[Path],
) -> Result<Option<MethodId>, NoMemory>
    ensures { IfOk result (λ lead. lead ≡ (if is_error_of_part (program_of walk.now.program.now) (rel_of walk.now.sets.now) (part_of_walk part.entry) (has_path held.now) then None else called_by (part_of_walk part.entry))) }
{
    if is_own(walk, part, held)? {
        return Ok(None);
    }
    Ok(called_by(part))
}

/// The method to which a reason leads.
pub(crate) fn reason_lead<A: Assigned>(
    walk: &Walk<'_, A>,
    why: &Why<'_>,
) -> Result<Option<MethodId>, NoMemory>
    ensures { IfOk result (λ lead. lead ≡ reason_lead (program_of walk.now.program.now) (rel_of walk.now.sets.now) (why_data why.now)) }
{
    match why {
        Why::Wrong(error) => wrong_lead(walk, error.part, error.held.as_slice()),
        Why::Compound(step) => Ok(called_by(step.part)),
        Why::Overridden(over, _) => Ok(Some(*over)),
        Why::Looped(_, _) | Why::Two(_, _) | Why::Nothing => Ok(None),
    }
}

/// Whether there is a reason.
pub(crate) fn is_reason(why: &Why<'_>) -> bool
    ensures { result ≡ is_reason (why_data why.now) }
{
    match why {
        Why::Nothing => false,
        Why::Wrong(_)
        | Why::Looped(_, _)
        | Why::Compound(_)
        | Why::Two(_, _)
        | Why::Overridden(_, _) => true,
    }
}

/// Whether a reason leads nowhere, or to a method of smaller rank.
pub(crate) fn leads_below(grounds: &[Ground], rank: u64, lead: &Option<MethodId>) -> bool
    ensures { result ≡ leads_below grounds.now rank lead.now }
{
    match lead {
        Some(id) => rank_at(grounds, *id) < rank,
        None => true,
    }
}
