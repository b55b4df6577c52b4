//! The machine.
ghost use Rattle.std.specs.Prelude.{◌≡◌, ◌≢◌, true, false, Err, ◌<◌, ◌≤◌, [], ◌+◌, length, Some, None, OnOk, OnErr, IfOk, IfErr, MatchResult, slice_get};
ghost use Rattle.std.specs.Option.{option_map};
ghost use Rattle.core_program.specs.Views.{program_of};
ghost use Rattle.core_program.specs.Typed.{IsTyped};
ghost use Rattle.state.specs.declared.value.StepKind.{StepKind};
ghost use Rattle.state.specs.Memory.{IsNumbered};
ghost use Rattle.state.specs.States.{State, initial};
ghost use Rattle.compile.specs.IsCode.{IsCodeOf};
ghost use Rattle.semantics.specs.Step.{outcome, kind_of};
ghost use Rattle.semantics.specs.Run.{is_inside, open_thread};
ghost use Rattle.machine.specs.declared.deed.StepEnd.TheVariants as ends;
ghost use Rattle.machine.specs.Lean.{step_takes};
ghost use Rattle.machine.specs.Standing.{program_run, StandsFor, IsTurn, IsKindTurn, IsSame, HasRun, HasStopped};
ghost use Rattle.machine.specs.MachineValue.{code_state};
ghost use Rattle.machine.specs.Taken.{thread_turn};

use crate::act::object_values;
use crate::called::next_call;
use crate::deed::{StepEnd, Turn};
use crate::equal::{copy_numbers, copy_threads, same_heap, same_locks, same_threads};
use crate::inside::{first_inside, stands_inside};
use crate::kinds::{cell_kind, turn_kind};
use crate::next::next_turn;
use crate::seen::Seen;
use crate::shared::SharedState;
use crate::targets::Targets;
use crate::turn::take_turn;
use compile::CodeTable;
use core_program::CoreProgram;
use paths::{ClassId, MethodId};
use state::{Address, Heap, Locks, StepKind, ThreadCell};
use std::alloc::{AllocError as NoMemory, Global};
use std::marker::Model;

/// Where a schedule stops: at its first entry, counted from 1, that doesn't step; the entry's thread; and why.
#[derive(Clone, Copy, PartialEq, Eq, Debug)]
pub struct Stopped {
    pub entry: u32,
    pub thread: u32,
    pub why: StepEnd,
}

/// A machine that runs a program's code. A contract sees the program, the code, the state and the number of steps made.
#[derive(Drop)]
pub struct Machine<'p> {
    program: &'p CoreProgram,
    code: &'p CodeTable,
    shared: SharedState,
    threads: Vec<ThreadCell>,
    made: u32,
    targets: Targets<'p>,
}

impl<'p> Model for Machine<'p> {
    ghost use Rattle.std.specs.Prelude.{◌≡◌, ◌<◌, ◌≤◌, ◌+◌, ◌^◌, length};
    ghost use Rattle.core_program.specs.Views.{program_of};
    ghost use Rattle.core_program.specs.contracts.tree.CoreStmt as statement;
    ghost use Rattle.std.specs.Coded.{codes};
    ghost use Rattle.compile.specs.IsCode.{IsCodeOf};
    ghost use Rattle.machine.specs.MachineValue.{MachineValue, state_code};
    ghost use Rattle.machine.specs.Reaching.{IsKept};
    ghost use Rattle.machine.specs.Counts.{IsCounted};

    ghost Value = { MachineValue };

    ghost coded = { Prim.hlevel (codes, statement.the_row.coded, state_code) };

    ghost view = { λ m. record {
      program = m.program.now;
      code = m.code.now;
      state = record { heap = m.shared.heap; locks = m.shared.locks; threads = m.threads.items; output = m.shared.output.items };
      made = m.made;
    } };

    ghost invariant = { λ m. IsCodeOf (program_of m.program.now) m.code.now.code.items m.code.now.entry.items m.code.now.room.items
        × (length m.threads.items ≤ m.made + 1) × (m.made < 2 ^ 32)
        × IsKept (program_of m.program.now) m.code.now.code.items m.code.now.entry.items m.code.now.room.items
        (record { heap = m.shared.heap; locks = m.shared.locks; threads = m.threads.items; output = m.shared.output.items })
        × IsCounted m.made m.shared.heap m.shared.locks × (m.targets ≡ m.program.now) };
}

impl<'p> Machine<'p> {
    /// A machine at the start: one object of the class `Main`, and a thread that is ready to run `main` on it.
    pub fn start(
        alloc: Global,
        program: &'p CoreProgram,
        code: &'p CodeTable,
    ) -> Result<Machine<'p>, NoMemory>
        requires { IsCodeOf (program_of program.now) code.now.code.items code.now.entry.items code.now.room.items }
        ensures stands { IfOk result (λ m. StandsFor m (initial (program_of program.now))) }
        ensures program { IfOk result (λ m. m.program ≡ program.now) }
        ensures code { IfOk result (λ m. m.code ≡ code.now) }
        ensures made { IfOk result (λ m. m.made ≡ 0) }
    {
        let mut heap = Heap::new(alloc);
        let address = Address {
            thread: 0,
            count: 0,
        };
        let values = object_values(alloc, program, program.main_class, &[], 0)?;
        heap.add(alloc, address, program.main_class, values)?;
        let mut threads = Vec::new(alloc);
        threads.push(ThreadCell::ready(alloc, address, program.main))?;
        Ok(Machine {
            program,
            code,
            shared: SharedState {
                heap,
                locks: Locks::new(alloc),
                output: Vec::new(alloc),
            },
            threads,
            made: 0,
            targets: Targets::new(alloc, program),
        })
    }

    /// An equal machine.
    pub fn copy(&self, alloc: Global) -> Result<Machine<'p>, NoMemory>
        ensures { IfOk result (λ m. m ≡ self.now) }
    {
        let heap = self.shared.heap.copy(alloc)?;
        let locks = self.shared.locks.copy(alloc)?;
        let output = copy_numbers(alloc, self.shared.output.as_slice())?;
        let threads = copy_threads(alloc, self.threads.as_slice())?;
        Ok(Machine {
            program: self.program,
            code: self.code,
            shared: SharedState {
                heap,
                locks,
                output,
            },
            threads,
            made: self.made,
            targets: self.targets.afresh(alloc),
        })
    }

    /// Whether two machines have come to equal states, but for the spare rooms of frames.
    pub fn same(&self, other: &Machine<'_>) -> bool
        ensures { result ≡ true → code_state self.now.state ≡ code_state other.now.state }
    {
        if !same_threads(self.threads(), other.threads()) {
            return false;
        }
        if !same_heap(self.heap(), other.heap()) {
            return false;
        }
        if !same_locks(self.locks(), other.locks()) {
            return false;
        }
        self.output() == other.output()
    }

    /// The program.
    pub fn program(&self) -> &'p CoreProgram
        ensures { result.now ≡ self.now.program }
    {
        self.program
    }

    /// The objects. Those of each thread are numbered from 0.
    pub fn heap(&self) -> &Heap
        ensures objects { result.now ≡ self.now.state.heap }
        ensures numbered { IsNumbered result.now }
    {
        &self.shared.heap
    }

    /// The held locks.
    pub fn locks(&self) -> &Locks
        ensures { result.now ≡ self.now.state.locks }
    {
        &self.shared.locks
    }

    /// The threads, by their numbers.
    pub fn threads(&self) -> &[ThreadCell]
        ensures { result.now ≡ self.now.state.threads }
    {
        self.threads.as_slice()
    }

    /// The number of threads: at most one more than steps were made.
    pub fn thread_count(&self) -> usize
        ensures count { result ≡ length self.now.state.threads }
        ensures few { result ≤ self.now.made + 1 }
    {
        self.threads.len()
    }

    /// The printed numbers.
    pub fn output(&self) -> &[i32]
        ensures { result.now ≡ self.now.state.output }
    {
        self.shared.output.as_slice()
    }

    /// The kind of a thread's next step; none exactly where it has none.
    pub fn kind(&self, thread: u32) -> Option<StepKind>
        ensures { (q : State) → StandsFor self.now q → result ≡ kind_of (program_run self.now) q thread }
    {
        let seen = Seen {
            targets: &self.targets,
            code: self.code,
            heap: &self.shared.heap,
            locks: &self.shared.locks,
            thread,
        };
        match self.threads.get(thread as usize) {
            Some(cell) => cell_kind(&seen, cell),
            None => None,
        }
    }

    /// One step of a thread. Each refusal comes exactly where the definition gives it, and leaves the machine as it was, as
    /// does want of memory. A step that faults its thread is Ok. A step that makes no frame, object, thread, hold of a lock or
    /// printed number takes no memory.
    pub fn step(&mut self, alloc: Global, thread: u32) -> Result<(), StepEnd>
        requires { self.old.made < 4294967295 }
        ensures turn { (q : State) → StandsFor self.old q → IsTurn thread result self.new q (outcome (program_run self.old) q thread) }
        ensures kept { OnErr result (IsSame self.new self.old) }
        ensures lean { IsTyped (program_run self.old) → (q : State) → StandsFor self.old q → step_takes (slice_get q.threads thread) ≡ false → result ≢ Err ends.NoMemory }
        ensures counted { OnOk result (self.new.made ≡ self.old.made + 1) }
        ensures program { self.new.program ≡ self.old.program }
        ensures code { self.new.code ≡ self.old.code }
    {
        self.note(thread);
        let turn = self.turn(thread);
        self.take(alloc, thread, turn)
    }

    /// One step of a thread, as `step` makes it, and its kind.
    pub fn step_kind(&mut self, alloc: Global, thread: u32) -> Result<StepKind, StepEnd>
        requires { self.old.made < 4294967295 }
        ensures turn { (q : State) → StandsFor self.old q → IsKindTurn thread result self.new q (outcome (program_run self.old) q thread) }
        ensures kept { OnErr result (IsSame self.new self.old) }
        ensures lean { IsTyped (program_run self.old) → (q : State) → StandsFor self.old q → step_takes (slice_get q.threads thread) ≡ false → result ≢ Err ends.NoMemory }
        ensures counted { OnOk result (self.new.made ≡ self.old.made + 1) }
        ensures program { self.new.program ≡ self.old.program }
        ensures code { self.new.code ≡ self.old.code }
    {
        self.note(thread);
        let turn = self.turn(thread);
        let kind = self.turn_kind(thread, &turn);
        match self.take(alloc, thread, turn) {
            Ok(()) => Ok(kind),
            Err(end) => Err(end),
        }
    }

    /// What a thread may see.
    fn seen(&self, thread: u32) -> Seen<'_>
        ensures program { result.targets.now ≡ self.now.program }
        ensures code { result.code.now ≡ self.now.code }
        ensures heap { result.heap.now ≡ self.now.state.heap }
        ensures locks { result.locks.now ≡ self.now.state.locks }
        ensures thread { result.thread ≡ thread }
    {
        Seen {
            targets: &self.targets,
            code: self.code,
            heap: &self.shared.heap,
            locks: &self.shared.locks,
            thread,
        }
    }

    /// What a thread's turn comes to.
    fn turn(&self, thread: u32) -> Turn
        ensures { result ≡ thread_turn self.now thread }
    {
        next_turn(&self.seen(thread), self.threads.as_slice())
    }

    /// The kind of a thread's next step, where its turn comes to this and it has one.
    fn turn_kind(&self, thread: u32, turn: &Turn) -> StepKind
        requires { turn.now ≡ thread_turn self.now thread }
        ensures { (q : State) (kind : StepKind) → StandsFor self.now q → kind_of (program_run self.now) q thread ≡ Some kind → result ≡ kind }
    {
        // Only the proof needs this: the invariant of a struct is known where one of its fields is used.
        let _ = &self.code;
        turn_kind(&self.seen(thread), *turn)
    }

    /// The class of the object on which a thread calls a method next, and this method.
    fn next_call(&self, thread: u32) -> Option<(ClassId, MethodId)> {
        match self.threads.get(thread as usize) {
            Some(cell) => next_call(&self.seen(thread), cell),
            None => None,
        }
    }

    /// Keeps which method runs for the call that a thread makes next, where looks may be dear.
    fn note(&mut self, thread: u32)
        ensures { self.new ≡ self.old }
    {
        if !self.targets.is_deep() {
            return;
        }
        let Some((class, method)) = self.next_call(thread) else {
            return;
        };
        self.targets.keep(class, method);
    }

    /// A turn of a thread, which comes to this.
    fn take(&mut self, alloc: Global, thread: u32, turn: Turn) -> Result<(), StepEnd>
        requires made { self.old.made < 4294967295 }
        requires decided { turn ≡ thread_turn self.old thread }
        ensures turn { (q : State) → StandsFor self.old q → IsTurn thread result self.new q (outcome (program_run self.old) q thread) }
        ensures kept { OnErr result (IsSame self.new self.old) }
        ensures lean { IsTyped (program_run self.old) → (q : State) → StandsFor self.old q → step_takes (slice_get q.threads thread) ≡ false → result ≢ Err ends.NoMemory }
        ensures counted { OnOk result (self.new.made ≡ self.old.made + 1) }
        ensures program { self.new.program ≡ self.old.program }
        ensures code { self.new.code ≡ self.old.code }
    {
        match take_turn(
            alloc,
            self.program,
            &mut self.shared,
            &mut self.threads,
            thread,
            turn,
        ) {
            Ok(()) => {
                self.made += 1;
                Ok(())
            }
            Err(why) => Err(why),
        }
    }

    /// Steps of the threads of a schedule, one after the other, up to the first that doesn't step. The machine then stands
    /// after the entries before it.
    pub fn run(&mut self, alloc: Global, schedule: &[u32]) -> Result<(), Stopped>
        requires { self.old.made + length schedule.now ≤ 4294967295 }
        ensures ran { OnOk result ((q : State) → StandsFor self.old q → HasRun self.new (program_run self.old) q schedule.now) }
        ensures stopped { IfErr result (λ s. (q : State) → StandsFor self.old q → HasStopped self.new (program_run self.old) q schedule.now s) }
        ensures counted { MatchResult result (λ _. self.new.made ≡ self.old.made + length schedule.now) (λ s. self.new.made + 1 ≡ self.old.made + s.entry) }
        ensures program { self.new.program ≡ self.old.program }
        ensures code { self.new.code ≡ self.old.code }
    {
        let mut entry = 0;
        for thread in schedule {
            entry += 1;
            match self.step(alloc, *thread) {
                Ok(()) => {}
                Err(why) => {
                    return Err(Stopped {
                        entry,
                        thread: *thread,
                        why,
                    });
                }
            }
        }
        Ok(())
    }

    /// The least number of a thread that stands inside an atomic call; none exactly where there is none.
    pub fn open_thread(&self) -> Option<u32>
        ensures { (q : State) → StandsFor self.now q → result ≡ open_thread (program_run self.now) q }
    {
        match first_inside(self.program, self.threads.as_slice()) {
            Some(place) => Some(place as u32),
            None => None,
        }
    }

    /// Whether the thread of this number stands inside an atomic call; none exactly where there is no such thread.
    pub fn inside(&self, thread: u32) -> Option<bool>
        ensures { (q : State) → StandsFor self.now q → result ≡ option_map (is_inside (program_run self.now)) (slice_get q.threads thread) }
    {
        match self.threads.get(thread as usize) {
            Some(cell) => Some(stands_inside(self.program, cell)),
            None => None,
        }
    }

    /// The number of steps that were made.
    pub fn made(&self) -> u32
        ensures { result ≡ self.now.made }
    {
        self.made
    }
}
