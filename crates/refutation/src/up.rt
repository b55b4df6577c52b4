//! What a call of a method comes to under an assignment.
ghost use Rattle.std.specs.Prelude.{◌≡◌, true, slice_get, IfOk};
ghost use Rattle.algebra.specs.Basics.{below_of, join_of};
ghost use Rattle.algebra.specs.HeldPaths.{has_path};
ghost use Rattle.core_program.specs.Views.{program_of};
ghost use Rattle.rules.specs.Near.{rel_of};
ghost use Rattle.rules.specs.Overriding.{AreOverriders};
ghost use Rattle.rules.specs.Rules.{IsSubset, AtMost};
ghost use Rattle.refutation.specs.Lines.{body_effect, joined_over, certified_effect};
ghost use Rattle.refutation.specs.Overs.{IsSaidOver};
ghost use Rattle.refutation.specs.Bodies.{body_under};
ghost use Rattle.refutation.specs.Tables.{said_by, table_entry};

use crate::bodies::Bodies;
use crate::floors::{Floors, entry};
use crate::judged::Judged;
use crate::overs::OverSaid;
use algebra::Basic;
use core_program::CoreProgram;
use effects::{Assigned, stmt_effect};
use paths::{MethodId, Path};
use rules::RelevantSets;
use std::alloc::{AllocError as NoMemory, Global};

/// The effect of a method's body, where the method is there.
pub(crate) fn body_effect(
    alloc: Global,
    program: &CoreProgram,
    sets: &RelevantSets,
    floors: &Floors<'_>,
    method: MethodId,
    held: &[Path],
) -> Result<Basic, NoMemory>
    ensures { IfOk result (λ b. let P = program_of program.now in
        b ≡ body_effect P (rel_of sets.now) (said_by (rel_of floors.now.sets.now) floors.now.tables.items) (slice_get P.methods method) (has_path held.now)) }
{
    match program.methods().get(method.0 as usize) {
        Some(method) => stmt_effect(alloc, program, sets, floors, &method.body, held),
        None => Ok(Basic::Const),
    }
}

/// The greatest of a basic and of what is said of these methods where these paths are held. Once it is so much, no more of them are
/// looked at.
pub(crate) fn said_over(
    floors: &Floors<'_>,
    methods: &[MethodId],
    held: &[Path],
    from: Basic,
    enough: Basic,
) -> Basic
    ensures whole { let rel = rel_of floors.now.sets.now in let said = joined_over rel (said_by rel floors.now.tables.items) methods.now (has_path held.now) in
        AtMost said enough → result ≡ join_of from said }
    ensures reached { let rel = rel_of floors.now.sets.now in let said = joined_over rel (said_by rel floors.now.tables.items) methods.now (has_path held.now) in
        below_of enough result ≡ below_of enough (join_of from said) }
{
    let mut so_far = from;
    for method in methods {
        if enough.below(so_far) {
            return so_far;
        }
        so_far = so_far.join(floors.at(*method, held));
    }
    so_far
}

/// The effect of a method's body: by the table where it is told.
fn body_or_told(
    alloc: Global,
    judged: &Judged<'_>,
    floors: &Floors<'_>,
    method: MethodId,
    bodies: &Bodies,
    held: &[Path],
) -> Result<Basic, NoMemory>
    requires { bodies.now.is_told ≡ true →
        table_entry (rel_of floors.now.sets.now method) bodies.now.table (has_path held.now) ≡ body_under (program_of judged.now.program.now) (rel_of judged.now.sets.now) (said_by (rel_of floors.now.sets.now) floors.now.tables.items) method (has_path held.now) }
    ensures { IfOk result (λ b. b ≡ body_under (program_of judged.now.program.now) (rel_of judged.now.sets.now) (said_by (rel_of floors.now.sets.now) floors.now.tables.items) method (has_path held.now)) }
{
    if bodies.is_told {
        let rel = floors.sets.rel(method);
        return Ok(entry(rel, bodies.table.basics.as_slice(), held));
    }
    body_effect(alloc, judged.program, judged.sets, floors, method, held)
}

/// What a call of a method of the program comes to where these paths are held: its body, or what is said of the methods that override
/// it. These are looked at one by one only where there is no table of what is said of them all, and only where the body comes to less than
/// what is said of them at most.
pub(crate) fn run_effect(
    alloc: Global,
    judged: &Judged<'_>,
    floors: &Floors<'_>,
    over: &OverSaid,
    bodies: &Bodies,
    held: &[Path],
) -> Result<Basic, NoMemory>
    requires over { AreOverriders (program_of judged.now.program.now) judged.now.over.now }
    requires same { floors.now.sets.now ≡ judged.now.sets.now }
    requires inside { IsSubset (has_path held.now) (has_path (rel_of judged.now.sets.now over.now.method)) }
    requires told { bodies.now.is_told ≡ true →
        table_entry (rel_of floors.now.sets.now over.now.method) bodies.now.table (has_path held.now) ≡ body_under (program_of judged.now.program.now) (rel_of judged.now.sets.now) (said_by (rel_of floors.now.sets.now) floors.now.tables.items) over.now.method (has_path held.now) }
    requires said { let rel = rel_of floors.now.sets.now in IsSaidOver (program_of judged.now.program.now) rel (said_by rel floors.now.tables.items) over.now.method over.now.table over.now.whole over.now.most }
    ensures { IfOk result (λ b.
        b ≡ certified_effect (program_of judged.now.program.now) (rel_of judged.now.sets.now) (said_by (rel_of floors.now.sets.now) floors.now.tables.items) over.now.method (has_path held.now)) }
{
    let body = body_or_told(alloc, judged, floors, over.method, bodies, held)?;
    let methods = judged.over.of(over.method);
    if over.whole && !methods.is_empty() {
        let others = entry(
            floors.sets.rel(over.method),
            over.table.basics.as_slice(),
            held,
        );
        return Ok(body.join(others));
    }
    Ok(said_over(floors, methods, held, body, over.most))
}
