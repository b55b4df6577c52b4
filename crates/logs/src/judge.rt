//! The judge.
ghost use Rattle.std.specs.Prelude.{◌≡◌, ◌<◌, ◌≢◌, ◌⊎◌, ℕ, None, not, ◌==◌, ◌&&◌, ◌||◌, Some, IfOk, OnOk, MatchOption, MatchResult, option_map, unwrap_or};
ghost use Rattle.logs.specs.LogJudgeEvents.{event_of, log_line_of};
ghost use Rattle.logs.specs.Noting.{locks_in, turn_in, after_in, note_in, is_present, IsNotedStop};
ghost use Rattle.logs.specs.State.{known_of};
ghost use Rattle.logs.specs.Views.{known_cells, guards_data, turn_data};
ghost use Rattle.logs.specs.Said.{deed_data, said_data};
ghost use Rattle.logs.specs.Numbers.{number_of_word};
ghost use Rattle.logs.specs.Judging as logs;
ghost use Rattle.logs.specs.Logs.{Guard, kind_at};
ghost use Rattle.logs.specs.Memory as memory;
ghost use Rattle.logs.specs.Turns.{blocks_after as depth_in};
ghost use Rattle.semantics.specs.Units.{is_commit as is_commit_in};
ghost use Rattle.semantics.specs.Words.{fits_phase};

use crate::guards::{Guards, access_kind};
use crate::lines::{Deed, Said};
use crate::memory::{Cell, Cells, Content};
use crate::table::Table;
use crate::turns::{Turn, assumed, cell_of, turn_by};
use state::StepKind;
use std::alloc::{AllocError as NoMemory, Global};

/// Why a line is refused.
#[derive(Clone, Copy, PartialEq, Eq)]
pub enum Refusal {
    /// Its thread has ended.
    HasEnded,
    /// A block ends, and none is open.
    NoBlock,
    /// The event can't happen as its lock, its place or its thread is.
    Impossible,
    /// With this event its block may be cut; or it is an access without its guard.
    Cut,
}

/// Why a judge stops.
#[derive(Clone, Copy, PartialEq, Eq)]
pub enum Stop {
    Refused(Refusal),
    NoMemory,
}

impl From<NoMemory> for Stop {
    ghost use Rattle.std.specs.Prelude.{◌≡◌};
    ghost use Rattle.logs.specs.declared.judge.Stop.TheVariants as stops;

    ghost from_gives = { λ _ stop. stop ≡ stops.NoMemory };

    fn from(_: NoMemory) -> Self {
        Stop::NoMemory
    }
}

/// In how many blocks a thread is, and the line of the first Left or Other step in the outermost of them; 0 where there is none.
#[derive(Clone, Copy)]
pub struct Phase {
    pub depth: u64,
    pub commit: u64,
}

/// A thread's phase before a line, and in how many blocks it is after it.
#[derive(Clone, Copy)]
pub struct Ready {
    before: Phase,
    depth: u64,
}

/// What is kept of the lines so far.
#[derive(Drop)]
pub struct Judge {
    cells: Cells,
    phases: Table<Phase>,
}

/// The kind of an event, where it is an access.
fn kind_of(guards: &Guards, cells: &Cells, said: &Said<'_>) -> StepKind
    ensures { result ≡ kind_at (guards_data guards.now) (locks_in (known_cells cells.now)) (number_of_word said.now.thread.now) (event_of (deed_data said.now.deed)) }
{
    match said.deed {
        Deed::Read(place, _) => access_kind(guards, cells, place, said.thread),
        Deed::Write(place, _) => access_kind(guards, cells, place, said.thread),
        Deed::Change(place, _, _) => access_kind(guards, cells, place, said.thread),
        _ => StepKind::Both,
    }
}

/// In how many blocks a thread is after an event; none where no block is open that could end.
fn depth_after(deed: Deed<'_>, depth: u64) -> Result<u64, Stop>
    ensures { MatchResult result (λ after. depth_in (event_of (deed_data deed.entry)) depth ≡ Some after)
        (λ stop. (stop ≡ Stop.NoMemory) ⊎ ((stop ≡ Stop.Refused Refusal.NoBlock) × (depth_in (event_of (deed_data deed.entry)) depth ≡ None))) }
{
    match deed {
        Deed::Begin(_) => depth.checked_add(1).ok_or(Stop::NoMemory),
        Deed::End => depth.checked_sub(1).ok_or(Stop::Refused(Refusal::NoBlock)),
        _ => Ok(depth),
    }
}

/// Whether a step of this kind is Left or Other.
fn is_commit(kind: StepKind) -> bool
    ensures { result ≡ is_commit_in kind }
{
    match kind {
        StepKind::Left | StepKind::Other => true,
        StepKind::Both | StepKind::Right | StepKind::Bare => false,
    }
}

/// Whether a step of this kind may be made, by whether its block made a Left or Other step before.
fn fits(committed: bool, kind: StepKind) -> bool
    ensures { result ≡ fits_phase committed kind }
{
    match kind {
        StepKind::Both | StepKind::Left => true,
        StepKind::Right | StepKind::Other => !committed,
        StepKind::Bare => false,
    }
}

/// The line of the first Left or Other step in a block, after a step on this line.
fn commit_after(before: Phase, depth: u64, kind: StepKind, line: u64) -> u64
    requires { 0 < line }
    ensures { not (result == 0) ≡ (not (depth == 0) && (not (before.commit == 0) || is_commit_in kind)) }
{
    if depth == 0 {
        return 0;
    }
    if before.commit != 0 {
        return before.commit;
    }
    if is_commit(kind) { line } else { 0 }
}

/// The turn of a line, by what is known.
fn turn_of(
    alloc: Global,
    guards: &Guards,
    cells: &Cells,
    said: &Said<'_>,
) -> Result<Option<Turn>, NoMemory>
    ensures { IfOk result (λ turn. option_map turn_data turn ≡ turn_in (guards_data guards.now) (known_cells cells.now) (log_line_of (said_data said.now))) }
{
    let kind = kind_of(guards, cells, said);
    match cells.get(cell_of(said)) {
        Some(found) => turn_by(alloc, kind, said, found),
        None => {
            let found = assumed(alloc, said.deed)?;
            turn_by(alloc, kind, said, &found)
        }
    }
}

impl Judge {
    /// A judge who knows nothing.
    pub fn new(alloc: Global) -> Judge
        ensures { known_of result ≡ logs.nothing_known }
    {
        Judge {
            cells: Cells::new(alloc),
            phases: Table::new(alloc),
        }
    }

    /// In how many blocks a thread is.
    pub fn phase(&self, thread: &[u8]) -> Phase
        ensures depth { result.depth ≡ (known_of self.now).depth (number_of_word thread.now) }
        ensures committed { not (result.commit == 0) ≡ (known_of self.now).committed (number_of_word thread.now) }
    {
        match self.phases.get(thread) {
            Some(phase) => *phase,
            None => Phase {
                depth: 0,
                commit: 0,
            },
        }
    }

    /// Whether a thread is there.
    fn is_there(&self, thread: &[u8]) -> bool
        ensures { result ≡ is_present (unwrap_or ((known_of self.now).cells (memory.AtThread (number_of_word thread.now))) (memory.Thread memory.Present)) }
    {
        match self.cells.get(Cell::Thread(thread)) {
            Some(content) => matches!(content, Content::Present),
            None => true,
        }
    }

    /// Sees that the thread of a line is there, and in how many blocks it is after the line.
    fn enter(&mut self, alloc: Global, said: &Said<'_>) -> Result<Ready, Stop>
        ensures noted { (guard : ℕ → Guard) → MatchResult result
            (λ ready. logs.line_noted guard (known_of self.old) (log_line_of (said_data said.now)) ≡ note_in guard (known_of self.new) (log_line_of (said_data said.now)) ready.depth)
            (λ stop. IsNotedStop (logs.line_noted guard (known_of self.old) (log_line_of (said_data said.now))) stop) }
        ensures before { IfOk result (λ ready. not (ready.before.commit == 0) ≡ (known_of self.new).committed (number_of_word said.now.thread.now)) }
    {
        if !self.is_there(said.thread) {
            return Err(Stop::Refused(Refusal::HasEnded));
        }
        let before = self.phase(said.thread);
        let depth = match depth_after(said.deed, before.depth) {
            Ok(depth) => depth,
            Err(stop) => return Err(stop),
        };
        match self
            .cells
            .put(alloc, Cell::Thread(said.thread), Content::Present)
        {
            Ok(()) => Ok(Ready { before, depth }),
            Err(NoMemory) => Err(Stop::NoMemory),
        }
    }

    /// Notes a turn.
    fn make(
        &mut self,
        alloc: Global,
        line: u64,
        said: &Said<'_>,
        ready: Ready,
        turn: Turn,
    ) -> Result<(), NoMemory>
        requires counted { 0 < line }
        requires before { not (ready.before.commit == 0) ≡ (known_of self.old).committed (number_of_word said.now.thread.now) }
        ensures { OnOk result (known_of self.new ≡ after_in (known_of self.old) (log_line_of (said_data said.now)) ready.depth (turn_data turn)) }
    {
        let Turn { kind, content } = turn;
        let commit = commit_after(ready.before, ready.depth, kind, line);
        let phase = Phase {
            depth: ready.depth,
            commit,
        };
        match self.cells.put(alloc, cell_of(said), content) {
            Ok(()) => {}
            Err(NoMemory) => return Err(NoMemory),
        }
        match self.phases.put(alloc, said.thread, phase) {
            Ok(()) => Ok(()),
            Err(NoMemory) => Err(NoMemory),
        }
    }

    /// Judges a line.
    pub fn note(
        &mut self,
        alloc: Global,
        guards: &Guards,
        line: u64,
        said: &Said<'_>,
    ) -> Result<(), Stop>
        requires { 0 < line }
        ensures { MatchResult result
            (λ _. logs.line_noted (guards_data guards.now) (known_of self.old) (log_line_of (said_data said.now)) ≡ logs.Goes (known_of self.new))
            (λ stop. IsNotedStop (logs.line_noted (guards_data guards.now) (known_of self.old) (log_line_of (said_data said.now))) stop) }
    {
        let ready = match self.enter(alloc, said) {
            Ok(ready) => ready,
            Err(stop) => return Err(stop),
        };
        let turn = match turn_of(alloc, guards, &self.cells, said) {
            Ok(turn) => turn,
            Err(NoMemory) => return Err(Stop::NoMemory),
        };
        let Some(turn) = turn else {
            return Err(Stop::Refused(Refusal::Impossible));
        };
        if !fits(ready.before.commit != 0, turn.kind) {
            return Err(Stop::Refused(Refusal::Cut));
        }
        match self.make(alloc, line, said, ready, turn) {
            Ok(()) => Ok(()),
            Err(NoMemory) => Err(Stop::NoMemory),
        }
    }

    /// A thread that is inside a block.
    pub fn open_thread(&self) -> Option<&[u8]>
        ensures { MatchOption result ((t : ℕ) → (known_of self.now).depth t ≡ 0) (λ thread. (known_of self.now).depth (number_of_word thread.now) ≢ 0) }
    {
        for place in 0..self.phases.len() {
            let Some((thread, _)) = self.phases.entry(place) else {
                return None;
            };
            if self.phase(thread).depth != 0 {
                return Some(thread);
            }
        }
        None
    }
}
