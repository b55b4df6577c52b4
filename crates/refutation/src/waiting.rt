//! Asking one method, and which methods wait then.
ghost use Rattle.std.specs.Prelude.{◌≡◌, ◌<◌, ◌∷◌, [], length, Some, IfOk, OnOk, true, false, slice_get};
ghost use Rattle.core_program.specs.Views.{program_of, method_of};
ghost use Rattle.rules.specs.Near.{AreRelevant, rel_of};
ghost use Rattle.rules.specs.Overriding.{AreOverriders};
ghost use Rattle.rules.specs.Search.{row_at as overs_at};
ghost use Rattle.rules.specs.Called.{AreCallers, callers_of_method, has_method};
ghost use Rattle.refutation.specs.Ends.{KeptAgrees, IsPass};
ghost use Rattle.refutation.specs.Passes.{cells_in, subsets_of};
ghost use Rattle.refutation.specs.Overs.{SaysNoMore};
ghost use Rattle.refutation.specs.Tables.{said_by};
ghost use Rattle.refutation.specs.Waiting.{AreSettled, AreBodiesSettled, AreOversKnown, AreWoken, AreWokenBut};

use crate::ask::ask_method;
use crate::bodies::{BodyMark, bodies_of};
use crate::floors::{Floors, method_at};
use crate::judged::Asking;
use crate::overs::{said_of_overriding, says_no_more};
use crate::said::Said;
use crate::waits::{Waiting, Waits};
use core_program::CoreMethod;
use paths::MethodId;
use rules::Callers;
use std::alloc::{AllocError as NoMemory, Global};

/// Lets methods wait.
fn wake(waits: &mut Waits, methods: &[usize])
    ensures size { length waits.new ≡ length waits.old }
    ensures woken { AreWoken waits.old waits.new methods.now }
{
    for method in methods {
        waits.wake(*method);
    }
}

/// Lets a method wait where more is said of one that rose than of the method itself.
#[tactic(auto, using(crate::proofs::RiseLemmas::not_woken, crate::proofs::RiseLemmas::woken_one))]
fn wake_below(
    waits: &mut Waits,
    floors: &Floors<'_>,
    place: usize,
    risen: MethodId,
) -> Result<(), NoMemory>
    ensures size { length waits.new ≡ length waits.old }
    ensures woken { let rel = rel_of floors.now.sets.now in
        OnOk result (AreWokenBut (SaysNoMore rel (said_by rel floors.now.tables.items) risen) waits.old waits.new (place ∷ [])) }
{
    if !waits.is_asleep(place) {
        return Ok(());
    }
    if says_no_more(floors, risen, method_at(place)?) {
        return Ok(());
    }
    waits.wake(place);
    Ok(())
}

/// Lets those of some methods wait where more is said of one that rose than of them.
fn wake_overridden(
    waits: &mut Waits,
    floors: &Floors<'_>,
    methods: &[usize],
    risen: MethodId,
) -> Result<(), NoMemory>
    ensures size { length waits.new ≡ length waits.old }
    ensures woken { let rel = rel_of floors.now.sets.now in
        OnOk result (AreWokenBut (SaysNoMore rel (said_by rel floors.now.tables.items) risen) waits.old waits.new methods.now) }
{
    for place in methods {
        wake_below(waits, floors, *place, risen)?;
    }
    Ok(())
}

/// The callers of the method at a place; none where there is no such row.
fn callers_at(rows: &[Callers], place: usize) -> &[usize]
    ensures { result.now ≡ callers_of_method rows.now place }
{
    match rows.get(place) {
        Some(row) => row.callers(),
        None => &[],
    }
}

/// Whether a place is one of these.
fn has_place(places: &[usize], place: usize) -> bool
    ensures { result ≡ has_method places.now place }
{
    for other in places {
        if *other == place {
            return true;
        }
    }
    false
}

/// Whether what a method's body comes to stays so whatever more is said of the method: it doesn't call itself. And whether it is said: it
/// doesn't wait.
fn body_mark(asking: &Asking<'_>, bodies: &Waits, place: usize) -> BodyMark
    requires { place < length bodies.now }
    ensures said { result.is_said ≡ true → slice_get bodies.now place ≡ Some false }
    ensures stays { result.stays ≡ true → has_method (callers_of_method asking.now.calls.now place) place ≡ false }
{
    let stays = !has_place(callers_at(asking.calls, place), place);
    let is_said = !bodies.has(place);
    BodyMark { stays, is_said }
}

/// Asks of a method at each part of its relevant paths that has its required ones, up to the first line that is above its bound. Where
/// that adds a line, the methods that call it wait, and it waits itself, and so do those that it overrides of which less is said; else it
/// waits no longer. Its body doesn't wait then, but those of all that call it do.
pub(crate) fn ask_noting(
    alloc: Global,
    asking: &Asking<'_>,
    said: &mut Said<'_>,
    waits: &mut Waiting,
    id: MethodId,
    method: &CoreMethod,
) -> Result<bool, NoMemory>
    requires is { slice_get (program_of asking.now.judged.now.program.now).methods id ≡ Some (method_of method.now) }
    requires over { AreOverriders (program_of asking.now.judged.now.program.now) asking.now.judged.now.over.now }
    requires callers { AreCallers (program_of asking.now.judged.now.program.now) (overs_at asking.now.judged.now.over.now) asking.now.callers.now }
    requires rows { length asking.now.callers.now ≡ length (program_of asking.now.judged.now.program.now).methods }
    requires calls { AreCallers (program_of asking.now.judged.now.program.now) (overs_at []) asking.now.calls.now }
    requires call_rows { length asking.now.calls.now ≡ length (program_of asking.now.judged.now.program.now).methods }
    requires waits { length waits.old.methods ≡ length (program_of asking.now.judged.now.program.now).methods }
    requires body_waits { length waits.old.bodies ≡ length (program_of asking.now.judged.now.program.now).methods }
    requires relevant { AreRelevant (program_of asking.now.judged.now.program.now) asking.now.judged.now.sets.now }
    requires agrees { KeptAgrees (program_of asking.now.judged.now.program.now) asking.now.judged.now.sets.now said.old.floors.sets.now said.old.floors.tables.items said.old.lines.items }
    requires settled { AreSettled (program_of asking.now.judged.now.program.now) (rel_of asking.now.judged.now.sets.now) said.old.lines.items waits.old.methods }
    requires bodies { AreBodiesSettled (program_of asking.now.judged.now.program.now) (rel_of asking.now.judged.now.sets.now) said.old.lines.items waits.old.bodies }
    requires known { AreOversKnown (program_of asking.now.judged.now.program.now) asking.now.judged.now.over.now (rel_of asking.now.judged.now.sets.now) said.old.lines.items waits.old.known.tables.items waits.old.known.unknown }
    ensures agrees { OnOk result (KeptAgrees (program_of asking.now.judged.now.program.now) asking.now.judged.now.sets.now said.new.floors.sets.now said.new.floors.tables.items said.new.lines.items) }
    ensures asked { IfOk result (λ broken. let rel = rel_of asking.now.judged.now.sets.now in
        IsPass (program_of asking.now.judged.now.program.now) rel (cells_in id (method_of method.now).requires_ (subsets_of (rel id))) said.old.lines.items said.new.lines.items broken) }
    ensures size { length waits.new.methods ≡ length waits.old.methods }
    ensures body_size { length waits.new.bodies ≡ length waits.old.bodies }
    ensures settled { IfOk result (λ broken. broken ≡ false → AreSettled (program_of asking.now.judged.now.program.now) (rel_of asking.now.judged.now.sets.now) said.new.lines.items waits.new.methods) }
    ensures bodies { IfOk result (λ broken. broken ≡ false → AreBodiesSettled (program_of asking.now.judged.now.program.now) (rel_of asking.now.judged.now.sets.now) said.new.lines.items waits.new.bodies) }
    ensures known { IfOk result (λ broken. broken ≡ false → AreOversKnown (program_of asking.now.judged.now.program.now) asking.now.judged.now.over.now (rel_of asking.now.judged.now.sets.now) said.new.lines.items waits.new.known.tables.items waits.new.known.unknown) }
{
    let before = said.lines.len();
    let place = id.0 as usize;
    let mark = body_mark(asking, &waits.bodies, place);
    let bodies = bodies_of(alloc, asking.judged, said, id, method, mark)?;
    let over = said_of_overriding(alloc, asking.judged, &said.floors, &mut waits.known, id)?;
    if ask_method(alloc, asking.judged, said, &over, &bodies, method)? {
        return Ok(true);
    }
    waits.bodies.sleep(place);
    if said.lines.len() == before {
        waits.methods.sleep(place);
        return Ok(false);
    }
    wake(&mut waits.methods, callers_at(asking.calls, place));
    let looking = callers_at(asking.callers, place);
    wake_overridden(&mut waits.methods, &said.floors, looking, id)?;
    wake(&mut waits.known.unknown, looking);
    wake(&mut waits.bodies, callers_at(asking.calls, place));
    Ok(false)
}
