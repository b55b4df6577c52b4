//! The written certificate.
ghost use Rattle.std.specs.Prelude.{◌≡◌, ◌≤◌, ◌^◌, [], true, false, length, IfOk, OnOk, MatchResult};
ghost use Rattle.core_program.specs.Views.{program_of};
ghost use Rattle.rules.specs.Near.{AreRelevant, rel_of};
ghost use Rattle.rules.specs.Overriding.{AreOverriders};
ghost use Rattle.rules.specs.Search.{row_at as overs_at};
ghost use Rattle.rules.specs.Called.{AreCallers};
ghost use Rattle.refutation.specs.Certificates.{IsCertificate};
ghost use Rattle.refutation.specs.Passes.{Passes, pass, cells_of};
ghost use Rattle.refutation.specs.Ends.{KeptAgrees, IsBlameEnd};
ghost use Rattle.refutation.specs.Waiting.{AreSettled, AreBodiesSettled, AreOversKnown};

use crate::floors::Floors;
use crate::judged::{Asking, Judged, NoneOverriding};
use crate::line::Blame;
use crate::said::Said;
use crate::told::OverTables;
use crate::waiting::ask_noting;
use crate::waits::{Waiting, Waits};
use core_program::CoreProgram;
use paths::MethodId;
use rules::{RelevantSets, callers_of, overriders};
use std::alloc::{AllocError, AllocError as NoMemory, Global};

/// Why there is no certificate.
#[derive(Clone, Copy, Debug, PartialEq, Eq)]
pub enum BlameEnd {
    /// Some assignment is admissible.
    Accepted,
    /// There was no memory for the lines.
    NoMemory,
}

impl From<AllocError> for BlameEnd {
    ghost use Rattle.std.specs.Prelude.{◌≡◌};
    ghost use Rattle.refutation.specs.declared.passes.BlameEnd.TheVariants as ends;

    ghost from_gives = { λ _ e. e ≡ ends.NoMemory };

    fn from(_: AllocError) -> Self {
        BlameEnd::NoMemory
    }
}

/// One pass over the methods that wait, in source order: whether its last line is above the bound of its method. A method that doesn't
/// wait would add no line.
fn pass(
    alloc: Global,
    asking: &Asking<'_>,
    said: &mut Said<'_>,
    waits: &mut Waiting,
) -> Result<bool, NoMemory>
    requires few { length (program_of asking.now.judged.now.program.now).methods ≤ 2 ^ 32 }
    requires over { AreOverriders (program_of asking.now.judged.now.program.now) asking.now.judged.now.over.now }
    requires callers { AreCallers (program_of asking.now.judged.now.program.now) (overs_at asking.now.judged.now.over.now) asking.now.callers.now }
    requires rows { length asking.now.callers.now ≡ length (program_of asking.now.judged.now.program.now).methods }
    requires calls { AreCallers (program_of asking.now.judged.now.program.now) (overs_at []) asking.now.calls.now }
    requires call_rows { length asking.now.calls.now ≡ length (program_of asking.now.judged.now.program.now).methods }
    requires waits { length waits.old.methods ≡ length (program_of asking.now.judged.now.program.now).methods }
    requires body_waits { length waits.old.bodies ≡ length (program_of asking.now.judged.now.program.now).methods }
    requires relevant { AreRelevant (program_of asking.now.judged.now.program.now) asking.now.judged.now.sets.now }
    requires agrees { KeptAgrees (program_of asking.now.judged.now.program.now) asking.now.judged.now.sets.now said.old.floors.sets.now said.old.floors.tables.items said.old.lines.items }
    requires settled { AreSettled (program_of asking.now.judged.now.program.now) (rel_of asking.now.judged.now.sets.now) said.old.lines.items waits.old.methods }
    requires bodies { AreBodiesSettled (program_of asking.now.judged.now.program.now) (rel_of asking.now.judged.now.sets.now) said.old.lines.items waits.old.bodies }
    requires known { AreOversKnown (program_of asking.now.judged.now.program.now) asking.now.judged.now.over.now (rel_of asking.now.judged.now.sets.now) said.old.lines.items waits.old.known.tables.items waits.old.known.unknown }
    ensures agrees { OnOk result (KeptAgrees (program_of asking.now.judged.now.program.now) asking.now.judged.now.sets.now said.new.floors.sets.now said.new.floors.tables.items said.new.lines.items) }
    ensures size { length waits.new.methods ≡ length waits.old.methods }
    ensures body_size { length waits.new.bodies ≡ length waits.old.bodies }
    ensures settled { IfOk result (λ broken. broken ≡ false → AreSettled (program_of asking.now.judged.now.program.now) (rel_of asking.now.judged.now.sets.now) said.new.lines.items waits.new.methods) }
    ensures bodies { IfOk result (λ broken. broken ≡ false → AreBodiesSettled (program_of asking.now.judged.now.program.now) (rel_of asking.now.judged.now.sets.now) said.new.lines.items waits.new.bodies) }
    ensures known { IfOk result (λ broken. broken ≡ false → AreOversKnown (program_of asking.now.judged.now.program.now) asking.now.judged.now.over.now (rel_of asking.now.judged.now.sets.now) said.new.lines.items waits.new.known.tables.items waits.new.known.unknown) }
    ensures passed { IfOk result (λ broken. let P = program_of asking.now.judged.now.program.now in let rel = rel_of asking.now.judged.now.sets.now in
        pass P rel (cells_of P rel) said.old.lines.items ≡ record { all = said.new.lines.items; broken = broken }) }
{
    let methods = asking.judged.program.methods();
    let mut place = waits.methods.next(0);
    while place < methods.len() {
        let id = MethodId(place as u32);
        let method = &methods[place];
        if ask_noting(alloc, asking, said, waits, id, method)? {
            return Ok(true);
        }
        place = waits.methods.next(place + 1);
    }
    Ok(false)
}

/// Passes after each other, up to a line that is above its bound, or to a pass that adds nothing: whether there was such a line.
#[tactic(auto, using(crate::proofs::MakerLemmas::going_none, crate::proofs::MakerLemmas::going_more, crate::proofs::MakerLemmas::room_less, crate::proofs::MakerLemmas::going_broke, crate::proofs::MakerLemmas::going_still))]
fn passes(
    alloc: Global,
    asking: &Asking<'_>,
    said: &mut Said<'_>,
    waits: &mut Waiting,
) -> Result<bool, NoMemory>
    requires few { length (program_of asking.now.judged.now.program.now).methods ≤ 2 ^ 32 }
    requires over { AreOverriders (program_of asking.now.judged.now.program.now) asking.now.judged.now.over.now }
    requires callers { AreCallers (program_of asking.now.judged.now.program.now) (overs_at asking.now.judged.now.over.now) asking.now.callers.now }
    requires rows { length asking.now.callers.now ≡ length (program_of asking.now.judged.now.program.now).methods }
    requires calls { AreCallers (program_of asking.now.judged.now.program.now) (overs_at []) asking.now.calls.now }
    requires call_rows { length asking.now.calls.now ≡ length (program_of asking.now.judged.now.program.now).methods }
    requires waits { length waits.old.methods ≡ length (program_of asking.now.judged.now.program.now).methods }
    requires body_waits { length waits.old.bodies ≡ length (program_of asking.now.judged.now.program.now).methods }
    requires relevant { AreRelevant (program_of asking.now.judged.now.program.now) asking.now.judged.now.sets.now }
    requires agrees { KeptAgrees (program_of asking.now.judged.now.program.now) asking.now.judged.now.sets.now said.old.floors.sets.now said.old.floors.tables.items said.old.lines.items }
    requires none { said.old.lines.items ≡ [] }
    requires settled { AreSettled (program_of asking.now.judged.now.program.now) (rel_of asking.now.judged.now.sets.now) said.old.lines.items waits.old.methods }
    requires bodies { AreBodiesSettled (program_of asking.now.judged.now.program.now) (rel_of asking.now.judged.now.sets.now) said.old.lines.items waits.old.bodies }
    requires known { AreOversKnown (program_of asking.now.judged.now.program.now) asking.now.judged.now.over.now (rel_of asking.now.judged.now.sets.now) said.old.lines.items waits.old.known.tables.items waits.old.known.unknown }
    ensures agrees { OnOk result (KeptAgrees (program_of asking.now.judged.now.program.now) asking.now.judged.now.sets.now said.new.floors.sets.now said.new.floors.tables.items said.new.lines.items) }
    ensures passes { IfOk result (λ broken. Passes (program_of asking.now.judged.now.program.now) (rel_of asking.now.judged.now.sets.now) [] (record { all = said.new.lines.items; broken = broken })) }
{
    'rounds: loop {
        let before = said.lines.len();
        waits.methods.narrow();
        if pass(alloc, asking, said, waits)? {
            return Ok(true);
        }
        if said.lines.len() == before {
            return Ok(false);
        }
    }
}

/// The written certificate of refusal of a program with these relevant sets, exactly where no assignment is admissible.
///
/// It is made in passes over the methods in source order, and for each over the parts of its relevant paths that have its required
/// ones, in ascending order of the number whose bit i stands for the i-th path. At each the line with what a call of the method comes
/// to by the lines so far is added, where that isn't said already. A method is asked again only where one that it calls, or that
/// overrides it, was raised since. The first line above the bound of its method ends it; that method
/// may be another than the first whose bound the least closed assignment breaks.
#[tactic(auto, using(crate::proofs::PassLaws::broken_certificate, crate::proofs::PassLaws::kept_admissible))]
pub fn blame(alloc: Global, program: &CoreProgram, sets: &RelevantSets) -> Result<Blame, BlameEnd>
    requires few { length (program_of program.now).methods ≤ 2 ^ 32 }
    requires relevant { AreRelevant (program_of program.now) sets.now }
    ensures certificate { MatchResult result
        (λ blame. IsCertificate (program_of program.now) (rel_of sets.now) blame)
        (λ e. IsBlameEnd (program_of program.now) (rel_of sets.now) e) }
    ensures written { IfOk result (λ blame. Passes (program_of program.now) (rel_of sets.now) [] (record { all = blame; broken = true })) }
{
    let over = overriders(alloc, program)?;
    let callers = callers_of(alloc, program, &over)?;
    let calls = callers_of(alloc, program, &NoneOverriding)?;
    let count = program.methods().len();
    let floors = Floors::new(alloc, sets, count)?;
    let methods = Waits::all(alloc, count)?;
    let bodies = Waits::all(alloc, count)?;
    let known = OverTables::none(alloc, count)?;
    let mut waits = Waiting {
        methods,
        bodies,
        known,
    };
    let lines = Vec::new(alloc);
    let judged = Judged {
        program,
        sets,
        over: &over,
    };
    let asking = Asking {
        judged: &judged,
        callers: callers.as_slice(),
        calls: calls.as_slice(),
    };
    let mut said = Said { floors, lines };
    if passes(alloc, &asking, &mut said, &mut waits)? {
        Ok(Blame { lines: said.lines })
    } else {
        Err(BlameEnd::Accepted)
    }
}
