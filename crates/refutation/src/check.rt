//! The checker of certificates.
ghost use Rattle.std.specs.Prelude.{◌≡◌, ◌⊎◌, ◌<◌, ◌≤◌, ◌+◌, ◌-◌, ◌^◌, ◌∷◌, ◌++◌, List, [], true, length, slice_get, IfOk, IfErr, IfSome, OnOk, MatchOption, MatchResult};
ghost use Rattle.algebra.specs.Basics.{below_of};
ghost use Rattle.algebra.specs.HeldPaths.{has_path};
ghost use Rattle.core_program.specs.Views.{program_of};
ghost use Rattle.rules.specs.Near.{rel_of};
ghost use Rattle.rules.specs.Overriding.{AreOverriders};
ghost use Rattle.rules.specs.Rules.{IsSubset};
ghost use Rattle.refutation.specs.Lines.{LineData, certified_effect};
ghost use Rattle.refutation.specs.Overs.{TellsOver};
ghost use Rattle.refutation.specs.Tables.{TablesSay, said_by};
ghost use Rattle.refutation.specs.Certificates.{AreCertificateLines, IsCertificate, bound_of, breaks, is_justified, is_placed, keeps_bound};
ghost use Rattle.refutation.specs.Works.{IsOverWork, look_work, work_left};
ghost use Rattle.refutation.specs.Wrongs.{AllPass, IsFirstFailing, IsWrongCertificate, justified_at, placed_at};

use crate::floors::{Floors, Table, entry};
use crate::judged::Judged;
use crate::line::{Blame, Line};
use crate::looks::{Looks, forget_others, renew};
use crate::overs::OverTable;
use crate::short_path::{are_among, are_held, unpacked};
use crate::up::{body_effect, said_over};
use crate::work::{MOST_WORK, body_cost, spend};
use algebra::Basic;
use core_program::CoreProgram;
use effects::Assigned;
use paths::{MethodId, Path};
use rules::{RelevantSets, overriders};
use std::alloc::{AllocError, AllocError as NoMemory, Global};

/// Why lines are no certificate: the first cause that stands. Lines count from 1.
#[derive(Clone, Copy, Debug, PartialEq, Eq)]
pub enum BlameWrong {
    /// The method of the line isn't the program's, or the paths of the line aren't relevant to it or lack a required one.
    Place { line: u32 },
    /// The line doesn't follow from those before it.
    Step { line: u32 },
    /// There is no line, or the last one keeps the bound of its method.
    NoBound,
    /// There was no memory for the check.
    NoMemory,
    /// The work on the lines would pass its bound.
    Work,
}

impl From<AllocError> for BlameWrong {
    ghost use Rattle.std.specs.Prelude.{◌≡◌};
    ghost use Rattle.refutation.specs.declared.check.BlameWrong.TheVariants as wrong;

    ghost from_gives = { λ _ e. e ≡ wrong.NoMemory };

    fn from(_: AllocError) -> Self {
        BlameWrong::NoMemory
    }
}

/// Whether a line has a method of the program, at relevant paths that have the required ones.
fn is_placed(program: &CoreProgram, sets: &RelevantSets, line: &Line) -> bool
    ensures { result ≡ is_placed (program_of program.now) (rel_of sets.now) line.now }
{
    match program.methods().get(line.method.0 as usize) {
        Some(method) => {
            are_among(line.held.as_slice(), sets.rel(line.method))
                && are_held(line.held.as_slice(), method.requires_.as_slice())
        }
        None => false,
    }
}

/// The greatest basic that a method may have at its required paths; any, where it isn't there.
fn bound_of(program: &CoreProgram, method: MethodId) -> Basic
    ensures { result ≡ bound_of (slice_get (program_of program.now).methods method) }
{
    match program.methods().get(method.0 as usize) {
        Some(method) if method.annotated => Basic::Atomic,
        Some(_) => Basic::Cmpd,
        None => Basic::Error,
    }
}

/// Whether a basic is at most the bound of a method.
pub fn keeps_bound(program: &CoreProgram, method: MethodId, found: Basic) -> bool
    ensures { result ≡ keeps_bound (program_of program.now) method found }
{
    found.below(bound_of(program, method))
}

/// Whether there is a last line, and it is above the bound of its method.
fn breaks(program: &CoreProgram, lines: &[Line]) -> bool
    ensures { result ≡ breaks (program_of program.now) (slice_get lines.now (length lines.now - 1)) }
{
    match lines.last() {
        Some(line) => !keeps_bound(program, line.method, line.found),
        None => false,
    }
}

/// The first line without its place.
#[tactic(auto, using(crate::proofs::CheckLemmas::first_failing, crate::proofs::CheckLemmas::pass_none, crate::proofs::CheckLemmas::pass_more, crate::proofs::CheckLemmas::pass_all))]
fn unplaced(program: &CoreProgram, sets: &RelevantSets, lines: &[Line]) -> Option<usize>
    ensures first { let P = program_of program.now in let rel = rel_of sets.now in
        MatchOption result (AllPass (placed_at P rel) lines.now) (λ k. IsFirstFailing (placed_at P rel) lines.now k) }
    ensures within { IfSome result (λ k. k < length lines.now) }
{
    for at in 0..lines.len() {
        if !is_placed(program, sets, &lines[at]) {
            return Some(at);
        }
    }
    None
}

/// Whether a call of a line's method comes to at least the line's basic where these paths are held: by its body, else by what is said of
/// the methods that override it. These are looked at only then, and where there is a table of them once for all lines of the method that
/// stand one behind the other. None where that would take more work than is left.
fn is_reached(
    alloc: Global,
    judged: &Judged<'_>,
    looks: &mut Looks,
    floors: &Floors<'_>,
    line: &Line,
    held: &[Path],
) -> Result<Option<bool>, NoMemory>
    requires over { AreOverriders (program_of judged.now.program.now) judged.now.over.now }
    requires known { let rel = rel_of floors.now.sets.now in
        TellsOver (program_of judged.now.program.now) rel (said_by rel floors.now.tables.items) looks.old.known.method looks.old.known.table looks.old.known.whole }
    ensures known { let rel = rel_of floors.now.sets.now in
        OnOk result (TellsOver (program_of judged.now.program.now) rel (said_by rel floors.now.tables.items) looks.new.known.method looks.new.known.table looks.new.known.whole) }
    ensures work { let look = look_work (program_of judged.now.program.now) line.now.method in
        IfOk result (λ told. MatchOption told (looks.old.left < look) (λ _. looks.old.left ≤ looks.new.left + look)) }
    ensures reached { let rel = rel_of judged.now.sets.now in floors.now.sets.now ≡ judged.now.sets.now → IsSubset (has_path held.now) (has_path (rel line.now.method)) →
        IfOk result (λ told. IfSome told (λ b. b ≡ below_of line.now.found (certified_effect (program_of judged.now.program.now) rel (said_by rel floors.now.tables.items) line.now.method (has_path held.now)))) }
{
    let method = line.method;
    if !spend(&mut looks.left, body_cost(judged.program, method)) {
        return Ok(None);
    }
    let body = body_effect(alloc, judged.program, judged.sets, floors, method, held)?;
    if line.found.below(body) {
        return Ok(Some(true));
    }
    if !renew(alloc, judged, looks, floors, method)? {
        return Ok(None);
    }
    if looks.known.whole {
        let others = entry(
            floors.sets.rel(method),
            looks.known.table.basics.as_slice(),
            held,
        );
        return Ok(Some(line.found.below(body.join(others))));
    }
    let reached = said_over(floors, judged.over.of(method), held, body, line.found);
    Ok(Some(line.found.below(reached)))
}

/// Whether a line, which has its place, follows from what is said so far; and then says it too. None where a look at its method would
/// take more work than is left. A line that is said already follows, and takes no look.
fn follows(
    alloc: Global,
    judged: &Judged<'_>,
    looks: &mut Looks,
    floors: &mut Floors<'_>,
    line: &Line,
) -> Result<Option<bool>, NoMemory>
    requires there { line.now.method < length floors.old.tables.items }
    requires over { AreOverriders (program_of judged.now.program.now) judged.now.over.now }
    requires known { let rel = rel_of floors.old.sets.now in
        TellsOver (program_of judged.now.program.now) rel (said_by rel floors.old.tables.items) looks.old.known.method looks.old.known.table looks.old.known.whole }
    ensures known { let rel = rel_of floors.new.sets.now in
        OnOk result (TellsOver (program_of judged.now.program.now) rel (said_by rel floors.new.tables.items) looks.new.known.method looks.new.known.table looks.new.known.whole) }
    ensures sets { floors.new.sets.now ≡ floors.old.sets.now }
    ensures size { length floors.new.tables.items ≡ length floors.old.tables.items }
    ensures work { let look = look_work (program_of judged.now.program.now) in let all = length floors.old.tables.items in
        (before : List LineData) → TablesSay (rel_of floors.old.sets.now) floors.old.tables.items before →
        IfOk result (λ told. MatchOption told (looks.old.left < work_left look floors.old.tables.items all)
        (λ b. b ≡ true → looks.old.left + work_left look floors.new.tables.items all ≤ looks.new.left + work_left look floors.old.tables.items all)) }
    ensures follows { let P = program_of judged.now.program.now in let rel = rel_of judged.now.sets.now in
        (before : List LineData) → floors.old.sets.now ≡ judged.now.sets.now → TablesSay rel floors.old.tables.items before → AreCertificateLines P rel before → is_placed P rel line.now ≡ true →
        IfOk result (λ told. IfSome told (λ b. (b ≡ is_justified P rel before line.now) × (b ≡ true → TablesSay rel floors.new.tables.items (before ++ line.now ∷ [])))) }
{
    let paths = unpacked(alloc, line.held.as_slice())?;
    let held = paths.as_slice();
    if line.found.below(floors.at(line.method, held)) {
        return Ok(Some(true));
    }
    let Some(reached) = is_reached(alloc, judged, looks, floors, line, held)? else {
        return Ok(None);
    };
    if !reached {
        return Ok(Some(false));
    }
    forget_others(&mut looks.known, line.method);
    floors.add(line.method, held, line.found);
    Ok(Some(true))
}

/// The first line that doesn't follow from those before it; each has its place.
fn unjustified(
    alloc: Global,
    program: &CoreProgram,
    sets: &RelevantSets,
    lines: &[Line],
) -> Result<Option<usize>, BlameWrong>
    requires { AllPass (placed_at (program_of program.now) (rel_of sets.now)) lines.now }
    ensures first { let P = program_of program.now in let rel = rel_of sets.now in
        IfOk result (λ found. MatchOption found (AllPass (justified_at P rel lines.now) lines.now) (λ k. IsFirstFailing (justified_at P rel lines.now) lines.now k)) }
    ensures within { IfOk result (λ found. IfSome found (λ k. k < length lines.now)) }
    ensures over { IfErr result (λ e. (e ≡ BlameWrong.NoMemory) ⊎ ((e ≡ BlameWrong.Work) × IsOverWork (program_of program.now) (rel_of sets.now))) }
{
    let over = overriders(alloc, program)?;
    let judged = Judged {
        program,
        sets,
        over: &over,
    };
    let mut floors = Floors::new(alloc, sets, program.methods().len())?;
    let mut looks = Looks {
        left: MOST_WORK,
        known: OverTable {
            method: MethodId(0),
            table: Table {
                basics: Vec::new(alloc),
            },
            whole: false,
        },
    };
    for at in 0..lines.len() {
        let Some(passes) = follows(alloc, &judged, &mut looks, &mut floors, &lines[at])? else {
            return Err(BlameWrong::Work);
        };
        if !passes {
            return Ok(Some(at));
        }
    }
    Ok(None)
}

/// Whether lines are a certificate of refusal of a program with these relevant sets: then no assignment is admissible. A line that
/// is said already costs a look at its paths, any other the size of its method's body. The methods that override it are counted too at
/// the first of several lines of a method that its body doesn't reach, up to a stated amount of work.
pub fn check_blame(
    alloc: Global,
    program: &CoreProgram,
    sets: &RelevantSets,
    blame: &Blame,
) -> Result<(), BlameWrong>
    requires { length blame.now < 2 ^ 32 }
    ensures { MatchResult result
        (λ _. IsCertificate (program_of program.now) (rel_of sets.now) blame.now)
        (λ e. IsWrongCertificate (program_of program.now) (rel_of sets.now) blame.now e) }
{
    let lines = blame.lines();
    if let Some(at) = unplaced(program, sets, lines) {
        return Err(BlameWrong::Place {
            line: at as u32 + 1,
        });
    }
    let found = match unjustified(alloc, program, sets, lines) {
        Ok(found) => found,
        Err(wrong) => return Err(wrong),
    };
    if let Some(at) = found {
        return Err(BlameWrong::Step {
            line: at as u32 + 1,
        });
    }
    if !breaks(program, lines) {
        return Err(BlameWrong::NoBound);
    }
    Ok(())
}
