//! Why a method is more than it may be.

ghost use Rattle.std.specs.Prelude.{◌≡◌, ◌∷◌, ◌++◌, List, [], slice_get, filter, not, option_map, IfOk, IfSome, IfNone, OnOk, MatchOption, IsSome, None, if◌then◌else◌};
ghost use Rattle.algebra.specs.HeldPaths.{has_path};
ghost use Rattle.core_program.specs.Views.{expr_of, method_of, program_of, stmt_of};
ghost use Rattle.effects.specs.Parts.{ExprP};
ghost use Rattle.rules.specs.Effect.{effect};
ghost use Rattle.rules.specs.Near.{rel_of};
ghost use Rattle.explain.specs.PartEffects.{own_of};
ghost use Rattle.explain.specs.StepReadings.{first_where, is_cmpd, own_at};
ghost use Rattle.explain.specs.Steps.{stmt_steps};
ghost use Rattle.explain.specs.Visits.{Visit, stmt_visits};
ghost use Rattle.explain.specs.Basics.{stmt_basics};
ghost use Rattle.explain.specs.Explaining.{body_why, is_call_of_method, compound_or, compound_why, done_in_order, begins_compound, only_step_why, over_of, steps_of, steps_why, why_of, with_first};
ghost use Rattle.explain.specs.Views.{errors_in, heavy_in, part_of_walk, visit_of, visits_of, why_data};

use crate::errors::{errors_of, wrong};
use crate::found::{CorePart, Found, Visited};
use crate::walk::{Walk, walk_stmt};
use algebra::Basic;
use core_program::{CoreExpr, CoreMethod, CoreStmt};
use effects::{Assigned, Called, among, call_effect};
use paths::{MethodId, Path};
use std::alloc::AllocError as NoMemory;

/// Why a method is more than it may be.
#[derive(Drop)]
pub enum Why<'p> {
    /// This part is an error by itself.
    Wrong(Visited<'p>),
    /// This step, which the loop with this number repeats.
    Looped(Visited<'p>, usize),
    /// This step, which is compound by itself.
    Compound(Visited<'p>),
    /// These are two steps.
    Two(Visited<'p>, Visited<'p>),
    /// This method overrides it, and is this at its required paths.
    Overridden(MethodId, Basic),
    /// Nothing is found.
    Nothing,
}

/// The visit at a place, where there is one.
pub(crate) fn taken<'p>(visits: Vec<Visited<'p>>, place: usize) -> Option<Visited<'p>>
    ensures { option_map visit_of result ≡ slice_get (visits_of visits.entry.items) place }
{
    visits.into_iter().nth(place)
}

/// Whether a step is compound by itself.
pub(crate) fn is_compound<A: Assigned>(
    walk: &Walk<'_, A>,
    step: &Visited<'_>,
) -> Result<bool, NoMemory>
    ensures { IfOk result (λ b. b ≡ is_cmpd (own_at (program_of walk.now.program.now) (rel_of walk.now.sets.now) (A.Assigned.assigned walk.now.assigned.now) (visit_of step.now))) }
{
    match step.part {
        CorePart::Expr(e) => is_compound_call(walk, e, step.held.as_slice()),
        CorePart::Stmt(_) => Ok(false),
    }
}

/// Whether an expression is compound by itself: only a call can be.
fn is_compound_call<A: Assigned>(
    walk: &Walk<'_, A>,
    e: &CoreExpr,
    held: &[Path],
) -> Result<bool, NoMemory>
    ensures { IfOk result (λ b. b ≡ is_cmpd (own_of (program_of walk.now.program.now) (rel_of walk.now.sets.now) (A.Assigned.assigned walk.now.assigned.now) (ExprP (expr_of e.now)) (has_path held.now))) }
{
    match e {
        CoreExpr::Call(receiver, callee, args) => {
            let call = Called {
                receiver,
                callee: *callee,
                args: args.as_slice(),
            };
            let own = call_effect(
                walk.alloc,
                walk.program,
                walk.sets,
                walk.assigned,
                &call,
                held,
            )?;
            Ok(is_cmpd(own))
        }
        _ => Ok(false),
    }
}

/// Whether a basic is `cmpd`.
fn is_cmpd(basic: Basic) -> bool
    ensures { result ≡ is_cmpd basic }
{
    basic == Basic::Cmpd
}

/// The steps that aren't compound by themselves, and those that are.
fn parted<'p, A: Assigned>(
    walk: &Walk<'_, A>,
    steps: Vec<Visited<'p>>,
) -> Result<(Vec<Visited<'p>>, Vec<Visited<'p>>), NoMemory>
    ensures own { IfOk result (λ parts. let P = program_of walk.now.program.now in let rel = rel_of walk.now.sets.now in let T = A.Assigned.assigned walk.now.assigned.now in
        visits_of parts.0.items ≡ filter (λ v. not (is_cmpd (own_at P rel T v))) (visits_of steps.entry.items)) }
    ensures compound { IfOk result (λ parts. let P = program_of walk.now.program.now in let rel = rel_of walk.now.sets.now in let T = A.Assigned.assigned walk.now.assigned.now in
        visits_of parts.1.items ≡ filter (λ v. is_cmpd (own_at P rel T v)) (visits_of steps.entry.items)) }
{
    let mut own = Vec::new(walk.alloc);
    let mut compounds = Vec::new(walk.alloc);
    for step in steps {
        let by_itself = is_compound(walk, &step)?;
        put(step, by_itself, &mut own, &mut compounds)?;
    }
    Ok((own, compounds))
}

/// Puts a step behind those that aren't compound by themselves, or behind those that are.
fn put<'p>(
    step: Visited<'p>,
    is_compound: bool,
    own: &mut Vec<Visited<'p>>,
    compounds: &mut Vec<Visited<'p>>,
) -> Result<(), NoMemory>
    ensures own { OnOk result (own.new.items ≡ own.old.items ++ (if is_compound then [] else step.entry ∷ [])) }
    ensures compounds { OnOk result (compounds.new.items ≡ compounds.old.items ++ (if is_compound then step.entry ∷ [] else [])) }
{
    if is_compound {
        compounds.push(step)?;
    } else {
        own.push(step)?;
    }
    Ok(())
}

/// Whether a part is a call of this method.
fn calls(method: MethodId, part: CorePart<'_>) -> bool
    ensures { result ≡ is_call_of_method method (part_of_walk part.entry) }
{
    match part {
        CorePart::Expr(e) => is_call(method, e),
        CorePart::Stmt(_) => false,
    }
}

/// Whether an expression is one.
fn is_call(method: MethodId, e: &CoreExpr) -> bool
    ensures { result ≡ is_call_of_method method (ExprP (expr_of e.now)) }
{
    match e {
        CoreExpr::Call(_, callee, _) => *callee == method,
        _ => false,
    }
}

/// The place of the first step that doesn't call this method, where there is one.
fn other_place(method: MethodId, steps: &[Visited<'_>]) -> Option<usize>
    ensures { let vs = visits_of steps.now in let first = first_where (λ v. not (is_call_of_method method v.part)) vs in
        MatchOption result (first ≡ None) (λ place. IsSome first × (slice_get vs place ≡ first)) }
{
    for (place, step) in steps.iter().enumerate() {
        if !calls(method, step.part) {
            return Some(place);
        }
    }
    None
}

/// A compound step, if there is one.
fn compound<'p>(step: Option<Visited<'p>>) -> Why<'p>
    ensures { why_data result ≡ compound_or (option_map visit_of step.entry) None [] }
{
    match step {
        Some(step) => Why::Compound(step),
        None => Why::Nothing,
    }
}

/// A compound step, if there is one, behind another step if there is one.
fn behind<'p>(own: Option<Visited<'p>>, compound: Option<Visited<'p>>) -> Why<'p>
    ensures { (vs : List Visit) → option_map visit_of compound.entry ≡ slice_get vs 0 → why_data result ≡ with_first (option_map visit_of own.entry) vs }
{
    match (own, compound) {
        (Some(first), Some(second)) => Why::Two(first, second),
        (None, Some(step)) => Why::Compound(step),
        (_, None) => Why::Nothing,
    }
}

/// The first compound step that doesn't call the method itself; else the first, behind another step if there is one.
fn compound_why<'p>(id: MethodId, own: Option<Visited<'p>>, compounds: Vec<Visited<'p>>) -> Why<'p>
    ensures { why_data result ≡ compound_why id (option_map visit_of own.entry) (visits_of compounds.entry.items) }
{
    match other_place(id, compounds.as_slice()) {
        Some(place) => compound(taken(compounds, place)),
        None => behind(own, taken(compounds, 0)),
    }
}

/// Of two steps the one first that is done first.
fn done_in_order<'p>(call_first: bool, why: Why<'p>) -> Why<'p>
    ensures { why_data result ≡ done_in_order call_first (why_data why.entry) }
{
    if !call_first {
        return why;
    }
    match why {
        Why::Two(first, second) => Why::Two(second, first),
        other => other,
    }
}

/// Why a body with these steps is compound: those that aren't compound by themselves, and those that are.
fn steps_why<'p>(
    id: MethodId,
    call_first: bool,
    own: Vec<Visited<'p>>,
    compounds: Vec<Visited<'p>>,
) -> Why<'p>
    ensures { why_data result ≡ steps_why id call_first (visits_of own.entry.items) (visits_of compounds.entry.items) }
{
    let mut rest = own.into_iter();
    let Some(first) = rest.next() else {
        return compound_why(id, None, compounds);
    };
    if let Some(around) = first.looped {
        return Why::Looped(first, around);
    }
    match rest.next() {
        Some(second) => Why::Two(first, second),
        None => done_in_order(call_first, compound_why(id, Some(first), compounds)),
    }
}

/// Whether steps begin with one that is compound by itself.
fn begins_compound<A: Assigned>(walk: &Walk<'_, A>, steps: &[Visited<'_>]) -> Result<bool, NoMemory>
    ensures { IfOk result (λ b. b ≡ begins_compound (program_of walk.now.program.now) (rel_of walk.now.sets.now) (A.Assigned.assigned walk.now.assigned.now) (visits_of steps.now)) }
{
    match steps.first() {
        Some(step) => is_compound(walk, step),
        None => Ok(false),
    }
}

/// Why a body with this step alone is compound.
fn only_step_why<'p, A: Assigned>(
    walk: &Walk<'_, A>,
    step: Visited<'p>,
) -> Result<Why<'p>, NoMemory>
    ensures { IfOk result (λ why. why_data why ≡ only_step_why (program_of walk.now.program.now) (rel_of walk.now.sets.now) (A.Assigned.assigned walk.now.assigned.now) (visit_of step.entry)) }
{
    if is_compound(walk, &step)? {
        return Ok(Why::Compound(step));
    }
    match step.looped {
        Some(around) => Ok(Why::Looped(step, around)),
        None => Ok(Why::Nothing),
    }
}

/// Takes out the only step, where there is one step.
fn take_only<'p>(steps: &mut Vec<Visited<'p>>) -> Option<Visited<'p>>
    ensures some { IfSome result (λ step. steps.old.items ≡ step ∷ []) }
    ensures none { IfNone result (steps.new.items ≡ steps.old.items) }
{
    if steps.len() == 1 { steps.pop() } else { None }
}

/// Why a body with these steps is compound.
fn compound_body<'p, A: Assigned>(
    walk: &Walk<'_, A>,
    id: MethodId,
    steps: Vec<Visited<'p>>,
) -> Result<Why<'p>, NoMemory>
    ensures { IfOk result (λ why. why_data why ≡ steps_of (program_of walk.now.program.now) (rel_of walk.now.sets.now) (A.Assigned.assigned walk.now.assigned.now) id (visits_of steps.entry.items)) }
{
    let mut steps = steps;
    if let Some(step) = take_only(&mut steps) {
        return only_step_why(walk, step);
    }
    let call_first = begins_compound(walk, steps.as_slice())?;
    let (own, compounds) = parted(walk, steps)?;
    Ok(steps_why(id, call_first, own, compounds))
}

/// The first of these methods that is more than the limit where these paths are held.
fn first_over<'p, A: Assigned>(
    walk: &Walk<'_, A>,
    overs: &[MethodId],
    held: &[Path],
    limit: Basic,
) -> Result<Why<'p>, NoMemory>
    ensures { IfOk result (λ why. why_data why ≡ over_of (rel_of walk.now.sets.now) (A.Assigned.assigned walk.now.assigned.now) limit overs.now (has_path held.now)) }
{
    for over in overs {
        let known = among(walk.alloc, walk.sets.rel(*over), held)?;
        let own = walk.assigned.at(*over, known.as_slice());
        if !own.below(limit) {
            return Ok(Why::Overridden(*over, own));
        }
    }
    Ok(Why::Nothing)
}

/// What a walk through a body finds where these paths are held, and its effect there.
pub(crate) fn walk_body<'p, A: Assigned>(
    walk: &Walk<'_, A>,
    body: &'p CoreStmt,
    held: &[Path],
) -> Result<(Basic, Found<'p>), NoMemory>
    ensures effect { IfOk result (λ walked. let P = program_of walk.now.program.now in let rel = rel_of walk.now.sets.now in let T = A.Assigned.assigned walk.now.assigned.now in
        walked.0 ≡ effect P rel T (stmt_of body.now) (has_path held.now)) }
    ensures basics { IfOk result (λ walked. let P = program_of walk.now.program.now in let rel = rel_of walk.now.sets.now in let T = A.Assigned.assigned walk.now.assigned.now in
        walked.1.basics.items ≡ stmt_basics P rel T (stmt_of body.now) (has_path held.now)) }
    ensures steps { IfOk result (λ walked. let P = program_of walk.now.program.now in let rel = rel_of walk.now.sets.now in let T = A.Assigned.assigned walk.now.assigned.now in
        visits_of walked.1.steps.items ≡ stmt_steps P rel T (stmt_of body.now) 0 (has_path held.now) None) }
    ensures heavy { IfOk result (λ walked. let P = program_of walk.now.program.now in let rel = rel_of walk.now.sets.now in let T = A.Assigned.assigned walk.now.assigned.now in
        visits_of walked.1.heavy.items ≡ heavy_in P rel T (stmt_visits P (stmt_of body.now) 0 (has_path held.now) None)) }
{
    let mut found = Found::new(walk.alloc);
    let effect = walk_stmt(walk, body, held, None, &mut found)?;
    Ok((effect, found))
}

/// What a walk through a method's body finds at its required paths, and its effect there.
pub(crate) fn walk_method<'p, A: Assigned>(
    walk: &Walk<'_, A>,
    method: &'p CoreMethod,
) -> Result<(Basic, Found<'p>), NoMemory>
    ensures effect { IfOk result (λ walked. let P = program_of walk.now.program.now in let rel = rel_of walk.now.sets.now in let T = A.Assigned.assigned walk.now.assigned.now in let m = method_of method.now in
        walked.0 ≡ effect P rel T m.body (has_path m.requires_)) }
    ensures basics { IfOk result (λ walked. let P = program_of walk.now.program.now in let rel = rel_of walk.now.sets.now in let T = A.Assigned.assigned walk.now.assigned.now in let m = method_of method.now in
        walked.1.basics.items ≡ stmt_basics P rel T m.body (has_path m.requires_)) }
    ensures steps { IfOk result (λ walked. let P = program_of walk.now.program.now in let rel = rel_of walk.now.sets.now in let T = A.Assigned.assigned walk.now.assigned.now in let m = method_of method.now in
        visits_of walked.1.steps.items ≡ stmt_steps P rel T m.body 0 (has_path m.requires_) None) }
    ensures heavy { IfOk result (λ walked. let P = program_of walk.now.program.now in let rel = rel_of walk.now.sets.now in let T = A.Assigned.assigned walk.now.assigned.now in let m = method_of method.now in
        visits_of walked.1.heavy.items ≡ heavy_in P rel T (stmt_visits P m.body 0 (has_path m.requires_) None)) }
{
    let (effect, found) = walk_body(walk, &method.body, method.requires_.as_slice())?;
    Ok((effect, found))
}

/// Why a body with this effect, these parts that can't be moved and these steps is an error or compound.
fn body_why<'p, A: Assigned>(
    walk: &Walk<'_, A>,
    id: MethodId,
    effect: Basic,
    found: Found<'p>,
) -> Result<Why<'p>, NoMemory>
    ensures { IfOk result (λ why. why_data why ≡ body_why (program_of walk.now.program.now) (rel_of walk.now.sets.now) (A.Assigned.assigned walk.now.assigned.now) id effect
        (errors_in (program_of walk.now.program.now) (rel_of walk.now.sets.now) (A.Assigned.assigned walk.now.assigned.now) (visits_of found.entry.heavy.items)) (visits_of found.entry.steps.items)) }
{
    let Found { steps, heavy, .. } = found;
    if effect == Basic::Error {
        wrong(walk, errors_of(walk, heavy)?)
    } else {
        compound_body(walk, id, steps)
    }
}

/// Why a method that these methods override is more than the limit at its required paths.
pub(crate) fn why_more<'p, A: Assigned>(
    walk: &Walk<'_, A>,
    overs: &[MethodId],
    id: MethodId,
    method: &'p CoreMethod,
    limit: Basic,
) -> Result<Why<'p>, NoMemory>
    ensures { IfOk result (λ why. why_data why ≡ why_of (program_of walk.now.program.now) (rel_of walk.now.sets.now) (A.Assigned.assigned walk.now.assigned.now) overs.now id (method_of method.now) limit) }
{
    let (effect, found) = walk_method(walk, method)?;
    if effect.below(limit) {
        first_over(walk, overs, method.requires_.as_slice(), limit)
    } else {
        body_why(walk, id, effect, found)
    }
}

/// The basic of each part of a method at its required paths, by the parts' numbers.
pub fn basics<A: Assigned>(walk: &Walk<'_, A>, method: &CoreMethod) -> Result<Vec<Basic>, NoMemory>
    ensures { IfOk result (λ basics. let m = method_of method.now in
        basics.items ≡ stmt_basics (program_of walk.now.program.now) (rel_of walk.now.sets.now) (A.Assigned.assigned walk.now.assigned.now) m.body (has_path m.requires_)) }
{
    let (_, found) = walk_method(walk, method)?;
    let Found { basics, .. } = found;
    Ok(basics)
}
