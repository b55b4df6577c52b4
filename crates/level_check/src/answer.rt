//! Whether a program is ordered for levels of its classes.
ghost use Rattle.std.specs.Prelude.{◌≡◌, ◌⊎◌, ℕ, List, Some, None, IfOk, IfErr, IsErrOf, MatchResult, MatchOption, OnOk};
ghost use Rattle.core_program.specs.Typed.{IsTyped};
ghost use Rattle.core_program.specs.Views.{program_of};
ghost use Rattle.rules.specs.Near.{AreRelevant, rel_of};
ghost use Rattle.rules.specs.Nearest.{AreNearest};
ghost use Rattle.rules.specs.Search.{row_at};
ghost use Rattle.state.specs.States.{State};
ghost use Rattle.semantics.specs.Run.{run};
ghost use Rattle.levels.specs.SlotTypes.{AreMarked};
ghost use Rattle.levels.specs.Walks.{level_in};
ghost use Rattle.levels.specs.Contexts.{IsOrdered, IsFirstBad};
ghost use Rattle.levels.specs.Circles.{Circle};
ghost use Rattle.level_check.specs.Told.{origin_in};
ghost use Rattle.level_check.specs.Origins.{AreOrigins};

use crate::bad::Bad;
use crate::cells::Cells;
use crate::end::LevelEnd;
use crate::explore::{first_cells, follow_all};
use crate::judged::Judged;
use crate::levelled::greatest;
use crate::origins::origins;
use crate::scan::first_bad;
use core_program::CoreProgram;
use levels::{Levels, answer_laws, level_laws};
use rules::{RelevantSets, nearest_overriders};
use std::alloc::{AllocError as NoMemory, Global};

/// Whether a program is ordered for these levels of its classes.
///
/// Only contexts that are reached are looked at, each once for its calls and once for what is bad at its greatest level: a method with n
/// relevant paths has 2 ^ n at most. A call is looked at again only where the level of its context rose, which it does at most once
/// for each level of a class. A walk takes the size of the body, for each call with the relevant paths of the callee, or with the call's arguments
/// where it is overridden, times the paths that are held. What is called that others override is a context more, from which those that override it
/// next are reached, and from these the others.
pub fn ordered(
    alloc: Global,
    program: &CoreProgram,
    sets: &RelevantSets,
    levels: &Levels,
) -> Result<(), LevelEnd>
    requires typed { IsTyped (program_of program.now) }
    requires relevant { AreRelevant (program_of program.now) sets.now }
    requires marked { AreMarked (program_of program.now) (level_in levels.now.of.items) }

    // Each answer is right of the program.
    ensures ordered { OnOk result (IsOrdered (program_of program.now) (rel_of sets.now) (level_in levels.now.of.items)) }
    ensures order { (m c u : ℕ) → IsErrOf result (LevelEnd.Order m c u) → IsFirstBad (program_of program.now) (rel_of sets.now) (level_in levels.now.of.items) m c u }

    // The right one is given where there is memory.
    ensures all { IsOrdered (program_of program.now) (rel_of sets.now) (level_in levels.now.of.items) → IfErr result (λ end. end ≡ LevelEnd.NoMemory) }
    ensures first { (m c u : ℕ) → IsFirstBad (program_of program.now) (rel_of sets.now) (level_in levels.now.of.items) m c u →
        MatchResult result (λ _. ⊥) (λ end. (end ≡ LevelEnd.Order m c u) ⊎ (end ≡ LevelEnd.NoMemory)) }

    // In an ordered program no state to which a schedule runs has a circle of threads that wait for each other.
    ensures no_circle { OnOk result ((s : List ℕ) (q : State) → run (program_of program.now) s ≡ Some q → Circle q → ⊥) }
{
    level_laws();
    answer_laws();
    match found(alloc, program, sets, levels)? {
        None => Ok(()),
        Some(bad) => Err(end_of(&bad)),
    }
}

/// How the search ends where this is the first bad one.
fn end_of(bad: &Bad) -> LevelEnd
    ensures { result ≡ LevelEnd.Order bad.now.method bad.now.class bad.now.under }
{
    LevelEnd::Order {
        method: bad.method,
        class: bad.class,
        under: bad.under,
    }
}

/// The first bad `synchronized` of the program, or none where it is ordered.
fn found(
    alloc: Global,
    program: &CoreProgram,
    sets: &RelevantSets,
    levels: &Levels,
) -> Result<Option<Bad>, NoMemory>
    requires { IsTyped (program_of program.now) }
    ensures { IfOk result (λ found. MatchOption found
        (IsOrdered (program_of program.now) (rel_of sets.now) (level_in levels.now.of.items))
        (λ bad. IsFirstBad (program_of program.now) (rel_of sets.now) (level_in levels.now.of.items) bad.method bad.class bad.under)) }
{
    let over = nearest_overriders(alloc, program)?;
    let origins = origins(alloc, program, sets, &over)?;
    let judged = Judged {
        program,
        sets,
        over: &over,
        origins: &origins,
        levels: levels.of.as_slice(),
    };
    found_by(alloc, &judged)
}

/// The first bad `synchronized` of the judged program, or none where it is ordered.
fn found_by(alloc: Global, judged: &Judged<'_>) -> Result<Option<Bad>, NoMemory>
    requires typed { IsTyped (program_of judged.now.program.now) }
    requires over { AreNearest (program_of judged.now.program.now) judged.now.over.now }
    requires origins { AreOrigins (rel_of judged.now.sets.now) (row_at judged.now.over.now) (origin_in judged.now.origins.now.entries) }
    ensures { IfOk result (λ found. MatchOption found
        (IsOrdered (program_of judged.now.program.now) (rel_of judged.now.sets.now) (level_in judged.now.levels.now))
        (λ bad. IsFirstBad (program_of judged.now.program.now) (rel_of judged.now.sets.now) (level_in judged.now.levels.now) bad.method bad.class bad.under)) }
{
    let mut cells = first_cells(alloc, judged.program)?;
    let rows = follow_all(alloc, judged, &mut cells)?;
    let Cells { known, levels } = cells;
    let levels = greatest(alloc, levels, rows)?;
    first_bad(alloc, judged, &known, levels.as_slice())
}
