//! What is still to be said of one method.
ghost use Rattle.std.specs.Prelude.{◌∷◌, ◌<◌, [], filter, length, IfOk, OnOk};
ghost use Rattle.std.specs.List.{AllByRecursion, list_all};
ghost use Rattle.std.specs.List.Sorted.{IsStrictlySortedBy};
ghost use Rattle.paths.specs.Paths.{path_order};
ghost use Rattle.algebra.specs.HeldPaths.{has_path};
ghost use Rattle.core_program.specs.Views.{program_of, method_of};
ghost use Rattle.rules.specs.Near.{AreRelevant, rel_of};
ghost use Rattle.rules.specs.Overriding.{AreOverriders};
ghost use Rattle.rules.specs.Rules.{IsSubset, AtMost};
ghost use Rattle.refutation.specs.Lines.{floor, overriding, joined_over};
ghost use Rattle.refutation.specs.Tables.{said_by};
ghost use Rattle.refutation.specs.Passes.{cells_in, subsets_of};
ghost use Rattle.refutation.specs.Ends.{KeptAgrees, IsPass, cells_at};
ghost use Rattle.refutation.specs.Overs.{IsSaidOver};
ghost use Rattle.refutation.specs.Waiting.{Adds};
ghost use Rattle.refutation.specs.Bodies.{IsBodyKnown};

use crate::bodies::Bodies;
use crate::check::keeps_bound;
use crate::floors::Floors;
use crate::judged::Judged;
use crate::line::Line;
use crate::overs::{OverSaid, tells_as_much, tells_as_much_at};
use crate::parts::{HeldSet, parts_with};
use crate::said::Said;
use crate::short_path::packed;
use crate::up::{run_effect, said_over};
use algebra::Basic;
use core_program::CoreMethod;
use effects::Assigned;
use paths::{MethodId, Path};
use std::alloc::{AllocError as NoMemory, Global};

/// Asks what a call of a method comes to where these paths are held, and adds the line that says so where that is new: whether it is
/// above the bound of the method.
fn ask(
    alloc: Global,
    judged: &Judged<'_>,
    said: &mut Said<'_>,
    over: &OverSaid,
    bodies: &Bodies,
    held: &[Path],
) -> Result<bool, NoMemory>
    requires there { over.now.method < length (program_of judged.now.program.now).methods }
    requires over { AreOverriders (program_of judged.now.program.now) judged.now.over.now }
    requires said { let rel = rel_of judged.now.sets.now in IsSaidOver (program_of judged.now.program.now) rel (floor rel said.old.lines.items) over.now.method over.now.table over.now.whole over.now.most }
    requires agrees { KeptAgrees (program_of judged.now.program.now) judged.now.sets.now said.old.floors.sets.now said.old.floors.tables.items said.old.lines.items }
    requires ascends { IsStrictlySortedBy path_order held.now }
    requires inside { IsSubset (has_path held.now) (has_path (rel_of judged.now.sets.now over.now.method)) }
    requires body { IsBodyKnown (program_of judged.now.program.now) (rel_of judged.now.sets.now) over.now.method (held.now ∷ []) said.old.lines.items bodies.now.table bodies.now.is_told bodies.now.is_said }
    ensures agrees { OnOk result (KeptAgrees (program_of judged.now.program.now) judged.now.sets.now said.new.floors.sets.now said.new.floors.tables.items said.new.lines.items) }
    ensures adds { OnOk result (Adds over.now.method said.old.lines.items said.new.lines.items) }
    ensures asked { IfOk result (λ broken. IsPass (program_of judged.now.program.now) (rel_of judged.now.sets.now) (record { method = over.now.method; held = held.now } ∷ []) said.old.lines.items said.new.lines.items broken) }
{
    let method = over.method;
    let found = run_effect(alloc, judged, &said.floors, over, bodies, held)?;
    if found.below(said.floors.at(method, held)) {
        return Ok(false);
    }
    let short = packed(alloc, held)?;
    said.floors.add(method, held, found);
    said.lines.push(Line {
        method,
        found,
        held: short,
    })?;
    Ok(!keeps_bound(judged.program, method, found))
}

/// Asks so, but not where what the method's body comes to is said there, and as much as is said of the methods that override it.
fn ask_unsaid(
    alloc: Global,
    judged: &Judged<'_>,
    said: &mut Said<'_>,
    over: &OverSaid,
    bodies: &Bodies,
    held: &[Path],
) -> Result<bool, NoMemory>
    requires there { over.now.method < length (program_of judged.now.program.now).methods }
    requires over { AreOverriders (program_of judged.now.program.now) judged.now.over.now }
    requires said { let rel = rel_of judged.now.sets.now in IsSaidOver (program_of judged.now.program.now) rel (floor rel said.old.lines.items) over.now.method over.now.table over.now.whole over.now.most }
    requires agrees { KeptAgrees (program_of judged.now.program.now) judged.now.sets.now said.old.floors.sets.now said.old.floors.tables.items said.old.lines.items }
    requires ascends { IsStrictlySortedBy path_order held.now }
    requires inside { IsSubset (has_path held.now) (has_path (rel_of judged.now.sets.now over.now.method)) }
    requires body { IsBodyKnown (program_of judged.now.program.now) (rel_of judged.now.sets.now) over.now.method (held.now ∷ []) said.old.lines.items bodies.now.table bodies.now.is_told bodies.now.is_said }
    ensures agrees { OnOk result (KeptAgrees (program_of judged.now.program.now) judged.now.sets.now said.new.floors.sets.now said.new.floors.tables.items said.new.lines.items) }
    ensures adds { OnOk result (Adds over.now.method said.old.lines.items said.new.lines.items) }
    ensures asked { IfOk result (λ broken. IsPass (program_of judged.now.program.now) (rel_of judged.now.sets.now) (record { method = over.now.method; held = held.now } ∷ []) said.old.lines.items said.new.lines.items broken) }
{
    if bodies.is_said && tells_as_much_at(&said.floors, over, held) {
        return Ok(false);
    }
    ask(alloc, judged, said, over, bodies, held)
}

/// Asks of a method at each of these sets, up to the first line that is above its bound.
fn ask_sets(
    alloc: Global,
    judged: &Judged<'_>,
    said: &mut Said<'_>,
    over: &OverSaid,
    bodies: &Bodies,
    parts: &[HeldSet],
) -> Result<bool, NoMemory>
    requires there { over.now.method < length (program_of judged.now.program.now).methods }
    requires over { AreOverriders (program_of judged.now.program.now) judged.now.over.now }
    requires said { let rel = rel_of judged.now.sets.now in IsSaidOver (program_of judged.now.program.now) rel (floor rel said.old.lines.items) over.now.method over.now.table over.now.whole over.now.most }
    requires agrees { KeptAgrees (program_of judged.now.program.now) judged.now.sets.now said.old.floors.sets.now said.old.floors.tables.items said.old.lines.items }
    requires ascend { AllByRecursion (IsStrictlySortedBy path_order) parts.now }
    requires inside { AllByRecursion (λ held. IsSubset (has_path held) (has_path (rel_of judged.now.sets.now over.now.method))) parts.now }
    requires body { IsBodyKnown (program_of judged.now.program.now) (rel_of judged.now.sets.now) over.now.method parts.now said.old.lines.items bodies.now.table bodies.now.is_told bodies.now.is_said }
    ensures agrees { OnOk result (KeptAgrees (program_of judged.now.program.now) judged.now.sets.now said.new.floors.sets.now said.new.floors.tables.items said.new.lines.items) }
    ensures adds { OnOk result (Adds over.now.method said.old.lines.items said.new.lines.items) }
    ensures asked { IfOk result (λ broken. IsPass (program_of judged.now.program.now) (rel_of judged.now.sets.now) (cells_at over.now.method parts.now) said.old.lines.items said.new.lines.items broken) }
{
    for part in parts {
        let held = part.paths.as_slice();
        if ask_unsaid(alloc, judged, said, over, bodies, held)? {
            return Ok(true);
        }
    }
    Ok(false)
}

/// The most that is said of the methods that override one: what is said where no path is held.
pub(crate) fn said_at_most(judged: &Judged<'_>, floors: &Floors<'_>, method: MethodId) -> Basic
    requires { AreOverriders (program_of judged.now.program.now) judged.now.over.now }
    ensures { let rel = rel_of floors.now.sets.now in
        AtMost (joined_over rel (said_by rel floors.now.tables.items) (overriding (program_of judged.now.program.now) method) (has_path [])) result }
{
    said_over(
        floors,
        judged.over.of(method),
        &[],
        Basic::Const,
        Basic::Error,
    )
}

/// Asks of a method at each part of its relevant paths that has its required ones, up to the first line that is above its bound. Where
/// what its body comes to is said at them all, it is asked at those alone at which less is said of it than of the methods that override it.
pub(crate) fn ask_method(
    alloc: Global,
    judged: &Judged<'_>,
    said: &mut Said<'_>,
    over: &OverSaid,
    bodies: &Bodies,
    method: &CoreMethod,
) -> Result<bool, NoMemory>
    requires there { over.now.method < length (program_of judged.now.program.now).methods }
    requires over { AreOverriders (program_of judged.now.program.now) judged.now.over.now }
    requires said { let rel = rel_of judged.now.sets.now in IsSaidOver (program_of judged.now.program.now) rel (floor rel said.old.lines.items) over.now.method over.now.table over.now.whole over.now.most }
    requires relevant { AreRelevant (program_of judged.now.program.now) judged.now.sets.now }
    requires agrees { KeptAgrees (program_of judged.now.program.now) judged.now.sets.now said.old.floors.sets.now said.old.floors.tables.items said.old.lines.items }
    requires body { let rel = rel_of judged.now.sets.now in
        IsBodyKnown (program_of judged.now.program.now) rel over.now.method (filter (λ held. list_all (has_path held) (method_of method.now).requires_) (subsets_of (rel over.now.method))) said.old.lines.items bodies.now.table bodies.now.is_told bodies.now.is_said }
    ensures agrees { OnOk result (KeptAgrees (program_of judged.now.program.now) judged.now.sets.now said.new.floors.sets.now said.new.floors.tables.items said.new.lines.items) }
    ensures adds { OnOk result (Adds over.now.method said.old.lines.items said.new.lines.items) }
    ensures asked { IfOk result (λ broken. let rel = rel_of judged.now.sets.now in
        IsPass (program_of judged.now.program.now) rel (cells_in over.now.method (method_of method.now).requires_ (subsets_of (rel over.now.method))) said.old.lines.items said.new.lines.items broken) }
{
    let id = over.method;
    if bodies.is_said && tells_as_much(&said.floors, over, id) {
        return Ok(false);
    }
    let parts = parts_with(alloc, judged.sets.rel(id), method.requires_.as_slice())?;
    ask_sets(alloc, judged, said, over, bodies, parts.as_slice())
}
