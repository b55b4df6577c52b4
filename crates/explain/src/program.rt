//! The explanations of a whole program.

ghost use Rattle.std.specs.Prelude.{◌≡◌, ◌≤◌, ◌+◌, ◌^◌, ◌++◌, List, ◌∷◌, true, map, length, slice_get, unwrap_or, option_map, not, ◌&&◌, IfOk, IfSome, IfNone, OnOk, ℕ, []};
ghost use Rattle.std.specs.Option.{option_copied};
ghost use Rattle.core_program.specs.Core.{Method};
ghost use Rattle.core_program.specs.Views.{method_of, program_of};
ghost use Rattle.rules.specs.Near.{rel_of};
ghost use Rattle.rules.specs.Search.{row_at};
ghost use Rattle.explain.specs.declared.grounds.Ground.{Ground};
ghost use Rattle.explain.specs.Programs.{called_by, explained, explanations, explanations_from, keeps, led, led_to, marked, explained_methods, IsToldNext};
ghost use Rattle.explain.specs.Views.{explained_data, part_of_walk, why_data};

use crate::explaining::Why;
use crate::found::CorePart;
use crate::grounds::{Ground, why_by};
use crate::walk::Walk;
use algebra::Basic;
use core_program::{CoreExpr, CoreMethod, CoreProgram};
use effects::Assigned;
use paths::MethodId;
use rules::{OverridingMethods, bound_of};
use std::alloc::AllocError as NoMemory;

/// A method with the greatest basic that it may have, what it has at its required paths, and why that is more. `is_refused` is false of
/// a method that keeps its bound: it is explained since a refused one is compound by it.
#[derive(Drop)]
pub struct Explained<'p> {
    pub method: MethodId,
    pub is_refused: bool,
    pub limit: Basic,
    pub found: Basic,
    pub why: Why<'p>,
}

/// The method that a part calls, where it is a call.
pub(crate) fn called_by(part: CorePart<'_>) -> Option<MethodId>
    ensures { result ≡ called_by (part_of_walk part.entry) }
{
    match part {
        CorePart::Expr(CoreExpr::Call(_, callee, _)) => Some(*callee),
        _ => None,
    }
}

/// The method by which an explained one is what it is: the one that its step calls, or that overrides it.
pub(crate) fn led_to(why: &Why<'_>) -> Option<MethodId>
    ensures { result ≡ led_to (why_data why.now) }
{
    match why {
        Why::Compound(step) => called_by(step.part),
        Why::Overridden(over, _) => Some(*over),
        Why::Wrong(_) | Why::Looped(_, _) | Why::Two(_, _) | Why::Nothing => None,
    }
}

/// What an explanation is made of: a walk, the methods that override each, and on what the explanation of each rests.
#[derive(Drop)]
pub(crate) struct Basis<'b, 'w, A> {
    pub(crate) walk: &'b Walk<'w, A>,
    pub(crate) over: &'b OverridingMethods,
    pub(crate) grounds: &'b [Ground],
}

/// What a method is at its required paths, and why that is more than this limit.
pub(crate) fn explain_method<'p, A: Assigned>(
    basis: &Basis<'_, '_, A>,
    id: MethodId,
    method: &'p CoreMethod,
    is_refused: bool,
    limit: Basic,
) -> Result<Explained<'p>, NoMemory>
    ensures { IfOk result (λ x. let walk = basis.now.walk.now in
        explained_data x ≡ explained (program_of walk.program.now) (rel_of walk.sets.now) (A.Assigned.assigned walk.assigned.now) (row_at basis.now.over.now) basis.now.grounds.now
        is_refused limit id (method_of method.now)) }
{
    let walk = basis.walk;
    let found = walk.assigned.at(id, method.requires_.as_slice());
    let why = why_by(walk, basis.over, basis.grounds, id, method, limit)?;
    Ok(Explained {
        method: id,
        is_refused,
        limit,
        found,
        why,
    })
}

/// Whether a method keeps its bound.
pub(crate) fn keeps<A: Assigned>(walk: &Walk<'_, A>, id: MethodId, method: &CoreMethod) -> bool
    ensures { result ≡ keeps (A.Assigned.assigned walk.now.assigned.now) id (method_of method.now) }
{
    let found = walk.assigned.at(id, method.requires_.as_slice());
    found.below(bound_of(method.annotated))
}

/// Whether a method is told already; one that isn't there counts as told.
fn is_told(told: &[bool], id: MethodId) -> bool
    ensures { result ≡ unwrap_or (slice_get told.now id) true }
{
    told.get(id.0 as usize).copied().unwrap_or(true)
}

/// The method with this id, where it is there.
pub(crate) fn method_at(program: &CoreProgram, id: MethodId) -> Option<&CoreMethod>
    ensures { option_map method_of (option_copied result) ≡ slice_get (program_of program.now).methods id }
{
    program.methods().get(id.0 as usize)
}

/// Whether a method isn't told yet and keeps its bound.
fn may_follow<A: Assigned>(
    walk: &Walk<'_, A>,
    told: &[bool],
    id: MethodId,
    method: &CoreMethod,
) -> bool
    ensures { result ≡ (not (unwrap_or (slice_get told.now id) true) && keeps (A.Assigned.assigned walk.now.assigned.now) id (method_of method.now)) }
{
    !is_told(told, id) && keeps(walk, id, method)
}

/// A method that is told next.
#[derive(Drop)]
struct Followed<'p> {
    id: MethodId,
    method: &'p CoreMethod,
}

/// The method that is told next, where an explanation leads to one that is there, isn't told yet, and keeps its bound.
fn next_told<'p, A: Assigned>(
    walk: &Walk<'p, A>,
    told: &[bool],
    next: Option<MethodId>,
) -> Option<Followed<'p>>
    ensures some { IfSome result (λ found. IsToldNext (program_of walk.now.program.now) (A.Assigned.assigned walk.now.assigned.now) told.now next found.id (method_of found.method.now)) }
    ensures none { IfNone result ((overs : ℕ → List ℕ) (grounds : List Ground) (most : ℕ) →
        led (program_of walk.now.program.now) (rel_of walk.now.sets.now) (A.Assigned.assigned walk.now.assigned.now) overs grounds most told.now next ≡ []) }
{
    let id = next?;
    let method = method_at(walk.program, id)?;
    if may_follow(walk, told, id, method) {
        return Some(Followed { id, method });
    }
    None
}

/// Adds the compound methods to which an explanation leads, each the next one's reason, up to one that is told already or refused.
pub(crate) fn follow<'p, A: Assigned>(
    basis: &Basis<'_, 'p, A>,
    most: usize,
    first: Option<MethodId>,
    told: &mut Vec<bool>,
    all: &mut Vec<Explained<'p>>,
) -> Result<(), NoMemory>
    ensures all { OnOk result (let more = led (program_of basis.now.walk.now.program.now) (rel_of basis.now.walk.now.sets.now) (A.Assigned.assigned basis.now.walk.now.assigned.now) (row_at basis.now.over.now) basis.now.grounds.now most told.old.items first in
        map explained_data all.new.items ≡ map explained_data all.old.items ++ more) }
    ensures told { OnOk result (let more = led (program_of basis.now.walk.now.program.now) (rel_of basis.now.walk.now.sets.now) (A.Assigned.assigned basis.now.walk.now.assigned.now) (row_at basis.now.over.now) basis.now.grounds.now most told.old.items first in
        told.new.items ≡ marked told.old.items (explained_methods more)) }
{
    let mut next = first;
    for _ in 0..most {
        let Some(found) = next_told(basis.walk, told.as_slice(), next) else {
            return Ok(());
        };
        let id = found.id;
        let x = explain_method(basis, id, found.method, false, Basic::Atomic)?;
        told[id.0 as usize] = true;
        next = led_to(&x.why);
        all.push(x)?;
    }
    Ok(())
}

/// Adds the explanation of a method, where it breaks its bound, and those of the compound methods to which that leads.
fn add_refused<'p, A: Assigned>(
    basis: &Basis<'_, 'p, A>,
    id: MethodId,
    method: &'p CoreMethod,
    told: &mut Vec<bool>,
    all: &mut Vec<Explained<'p>>,
) -> Result<(), NoMemory>
    ensures { OnOk result ((rest : List Method) → let from = explanations_from (program_of basis.now.walk.now.program.now) (rel_of basis.now.walk.now.sets.now) (A.Assigned.assigned basis.now.walk.now.assigned.now) (row_at basis.now.over.now) basis.now.grounds.now in
        map explained_data all.new.items ++ from told.new.items (id + 1) rest ≡ map explained_data all.old.items ++ from told.old.items id (method_of method.now ∷ rest)) }
{
    if keeps(basis.walk, id, method) {
        return Ok(());
    }
    let limit = bound_of(method.annotated);
    let x = explain_method(basis, id, method, true, limit)?;
    let next = led_to(&x.why);
    all.push(x)?;
    follow(basis, basis.walk.program.methods().len(), next, told, all)
}

/// The explanations of the methods that break their bounds, in source order; behind each those of the compound methods to which it
/// leads, where they aren't told before.
pub fn explanations<'b, 'p, A: Assigned>(
    walk: &'b Walk<'p, A>,
    over: &'b OverridingMethods,
    grounds: &'b [Ground],
) -> Result<Vec<Explained<'p>>, NoMemory>
    requires { length (program_of walk.now.program.now).methods ≤ 2 ^ 32 }
    ensures { IfOk result (λ all. map explained_data all.items ≡ explanations (program_of walk.now.program.now) (rel_of walk.now.sets.now) (A.Assigned.assigned walk.now.assigned.now) (row_at over.now) grounds.now) }
{
    let methods = walk.program.methods();
    let mut all = Vec::new(walk.alloc);
    let mut told = vec![in walk.alloc; false; methods.len()]?;
    for (m, method) in methods.iter().enumerate() {
        let basis = Basis {
            walk,
            over,
            grounds,
        };
        add_refused(&basis, MethodId(m as u32), method, &mut told, &mut all)?;
    }
    Ok(all)
}
