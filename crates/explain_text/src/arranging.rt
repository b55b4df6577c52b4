//! Which explanations are told, and in which order.

ghost use Rattle.std.specs.Prelude.{◌≡◌, ◌==◌, ◌++◌, ◌∷◌, List, [], count_by, drop, map, IfOk, OnOk};
ghost use Rattle.std.specs.List.{list_any};
ghost use Rattle.core_program.specs.Views.{program_of};
ghost use Rattle.explain.specs.Views.{explained_data, why_data};
ghost use Rattle.rules.specs.Near.{rel_of};
ghost use Rattle.explain_text.specs.Arrangements.{BlamingData, alone, arranged, behind, blamed, first_blaming, firsthand, refused_callee, secondhand};
ghost use Rattle.explain_text.specs.ArrangementViews.{arranged_data, blaming_data};

use effects::Assigned;
use explain::{Cause, Explained, Walk, Why, cause_of};
use paths::MethodId;
use std::alloc::{AllocError as NoMemory, Global};

/// An explanation that is told, and how many more methods are errors for the same method and are only counted.
#[derive(Drop)]
pub struct Arranged<'p> {
    pub told: Explained<'p>,
    pub more: usize,
}

/// An explanation of an error, and the method for whose error alone it is one.
#[derive(Drop)]
pub(crate) struct Blaming<'p> {
    pub(crate) told: Explained<'p>,
    pub(crate) callee: MethodId,
}

/// The method that a call with this cause calls, where that is an error itself.
fn refused_callee(cause: &Cause) -> Option<MethodId>
    ensures { result ≡ refused_callee cause.now }
{
    match cause {
        Cause::Refused(callee) => Some(*callee),
        Cause::Bare(_, _, _, _, _)
        | Cause::Nameless(_, _, _)
        | Cause::Lacking(_, _, _, _)
        | Cause::LackingName(_, _, _)
        | Cause::Other => None,
    }
}

/// The method for whose error alone one is an error that has this reason.
fn blamed<A: Assigned>(walk: &Walk<'_, A>, why: &Why<'_>) -> Result<Option<MethodId>, NoMemory>
    ensures { IfOk result (λ callee. callee ≡ blamed (program_of walk.now.program.now) (rel_of walk.now.sets.now) (why_data why.now)) }
{
    match why {
        Why::Wrong(error) => {
            let none = Vec::new(walk.alloc);
            let cause = cause_of(walk, none.as_slice(), error.part, error.held.as_slice())?;
            Ok(refused_callee(&cause))
        }
        Why::Looped(_, _)
        | Why::Compound(_)
        | Why::Two(_, _)
        | Why::Overridden(_, _)
        | Why::Nothing => Ok(None),
    }
}

/// Puts an explanation behind those with a reason of their own, or behind those that blame a method.
fn put<'p>(
    told: Explained<'p>,
    callee: Option<MethodId>,
    own: &mut Vec<Arranged<'p>>,
    blaming: &mut Vec<Blaming<'p>>,
) -> Result<(), NoMemory>
    ensures own { OnOk result (map arranged_data own.new.items ≡ map arranged_data own.old.items ++ alone (explained_data told.entry) callee) }
    ensures blaming { OnOk result (map blaming_data blaming.new.items ≡ map blaming_data blaming.old.items ++ behind (explained_data told.entry) callee) }
{
    if let Some(callee) = callee {
        blaming.push(Blaming { told, callee })?;
    } else {
        own.push(Arranged { told, more: 0 })?;
    }
    Ok(())
}

/// Those with a reason of their own, and those that blame a method.
fn parted<'p, A: Assigned>(
    walk: &Walk<'_, A>,
    all: Vec<Explained<'p>>,
) -> Result<(Vec<Arranged<'p>>, Vec<Blaming<'p>>), NoMemory>
    ensures own { IfOk result (λ parts. map arranged_data parts.0.items ≡ firsthand (program_of walk.now.program.now) (rel_of walk.now.sets.now) (map explained_data all.entry.items)) }
    ensures blaming { IfOk result (λ parts. map blaming_data parts.1.items ≡ secondhand (program_of walk.now.program.now) (rel_of walk.now.sets.now) (map explained_data all.entry.items)) }
{
    let mut own = Vec::new(walk.alloc);
    let mut blaming = Vec::new(walk.alloc);
    for told in all {
        let callee = blamed(walk, &told.why)?;
        put(told, callee, &mut own, &mut blaming)?;
    }
    Ok((own, blaming))
}

/// The methods that these blame.
fn callees_of(alloc: Global, all: &[Blaming<'_>]) -> Result<Vec<MethodId>, NoMemory>
    ensures { IfOk result (λ callees. callees.items ≡ map (λ y. y.callee) (map blaming_data all.now)) }
{
    let mut callees = Vec::new(alloc);
    for one in all {
        callees.push(one.callee)?;
    }
    Ok(callees)
}

/// How many of these are this method.
fn count_of(callee: MethodId, callees: &[MethodId]) -> usize
    ensures { result ≡ count_by (λ m. m == callee) callees.now }
{
    callees.iter().filter(|other| **other == callee).count()
}

/// Whether a method is among these.
fn is_among(callee: MethodId, seen: &[MethodId]) -> bool
    ensures { result ≡ list_any (λ m. m == callee) seen.now }
{
    seen.contains(&callee)
}

/// Those behind the first.
fn behind_first(callees: &[MethodId]) -> &[MethodId]
    ensures { result.now ≡ drop 1 callees.now }
{
    match callees.split_first() {
        Some((_, others)) => others,
        None => callees,
    }
}

/// Adds an explanation, where it is the first that blames its method, with the number of those behind it that do too.
fn add_first<'p>(
    first: Blaming<'p>,
    others: &[MethodId],
    seen: &mut Vec<MethodId>,
    told: &mut Vec<Arranged<'p>>,
) -> Result<(), NoMemory>
    ensures { OnOk result ((ys : List BlamingData) → others.now ≡ map (λ y. y.callee) ys → map arranged_data told.new.items ++ first_blaming seen.new.items ys
        ≡ map arranged_data told.old.items ++ first_blaming seen.old.items (blaming_data first.entry ∷ ys)) }
{
    if is_among(first.callee, seen.as_slice()) {
        return Ok(());
    }
    seen.push(first.callee)?;
    told.push(Arranged {
        more: count_of(first.callee, others),
        told: first.told,
    })?;
    Ok(())
}

/// Adds of each blamed method the first explanation that blames it, and how many more do.
fn add_blaming<'p>(
    alloc: Global,
    blaming: Vec<Blaming<'p>>,
    told: &mut Vec<Arranged<'p>>,
) -> Result<(), NoMemory>
    ensures { OnOk result (map arranged_data told.new.items ≡ map arranged_data told.old.items ++ first_blaming [] (map blaming_data blaming.entry.items)) }
{
    let callees = callees_of(alloc, blaming.as_slice())?;
    let mut seen = Vec::new(alloc);
    let mut left = callees.as_slice();
    for first in blaming {
        left = behind_first(left);
        add_first(first, left, &mut seen, told)?;
    }
    Ok(())
}

/// What is told of explanations: those with a reason of their own; then, of each method for whose error alone others are errors, the first
/// of these, and how many more there are.
pub fn arrange<'p, A: Assigned>(
    walk: &Walk<'_, A>,
    all: Vec<Explained<'p>>,
) -> Result<Vec<Arranged<'p>>, NoMemory>
    ensures { IfOk result (λ told. map arranged_data told.items ≡ arranged (program_of walk.now.program.now) (rel_of walk.now.sets.now) (map explained_data all.entry.items)) }
{
    let (own, blaming) = parted(walk, all)?;
    let mut told = own;
    add_blaming(walk.alloc, blaming, &mut told)?;
    Ok(told)
}
