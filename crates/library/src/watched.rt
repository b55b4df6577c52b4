//! A machine that runs a checked program, and the list of its steps.
ghost use Rattle.std.specs.Prelude.{◌≡◌, ◌≢◌, ◌++◌, ◌∷◌, [], ◌<◌, ℕ, List, OnOk, OnErr, IfOk, IfErr};
ghost use Rattle.core_program.specs.Views.{program_of};
ghost use Rattle.state.specs.declared.value.StepKind.TheVariants.{Bare};
ghost use Rattle.state.specs.States.{State, initial};
ghost use Rattle.compile.specs.IsCode.{IsCodeOf};
ghost use Rattle.semantics.specs.Step.{outcome};
ghost use Rattle.machine.specs.declared.deed.StepEnd.TheVariants as ends;
ghost use Rattle.machine.specs.Standing.{program_run, StandsFor, IsSame};
ghost use Rattle.library.specs.Watching.{IsGuarded, IsWatchedTurn};

use book_check::Checked;
use compile::CodeTable;
use machine::{Machine, StepEnd};
use state::StepKind;
use std::alloc::{AllocError as NoMemory, Global};
use std::marker::Model;

/// One more thread at the end of a list.
fn list(steps: &mut Vec<u32>, thread: u32) -> Result<(), StepEnd>
    ensures ok { OnOk result (steps.new.items ≡ steps.old.items ++ thread ∷ []) }
    ensures kept { OnErr result (steps.new.items ≡ steps.old.items) }
    ensures memory { IfErr result (λ e. e ≡ ends.NoMemory) }
{
    match steps.push(thread) {
        Ok(()) => Ok(()),
        Err(_) => Err(StepEnd::NoMemory),
    }
}

/// The last thread of a list is taken off.
fn unlist(steps: &mut Vec<u32>)
    ensures { (before : List ℕ) (thread : ℕ) → steps.old.items ≡ before ++ thread ∷ [] → steps.new.items ≡ before }
{
    let _ = steps.pop();
}

/// A machine that runs a checked program, and the list of the steps that it made. Along that list no guard is missing, and
/// the kinds of each atomic call's steps are a reducible word (Lipton 1975; Flanagan and Qadeer 2003).
#[derive(Drop)]
pub struct Watched<'p> {
    machine: Machine<'p>,
    steps: Vec<u32>,
}

impl<'p> Model for Watched<'p> {
    ghost use Rattle.core_program.specs.contracts.tree.CoreStmt as statement;
    ghost use Rattle.std.specs.Coded.{codes};
    ghost use Rattle.machine.specs.MachineValue.{state_code};
    ghost use Rattle.library.specs.Watching.{WatchedValue, IsWatched};

    ghost Value = { WatchedValue };

    ghost coded = { Prim.hlevel (codes, statement.the_row.coded, state_code) };

    ghost view = { λ w. (w.machine, w.steps.items) };

    ghost invariant = { λ w. IsWatched w.machine w.steps.items };
}

impl<'p> Watched<'p> {
    /// The machine of a checked program at the start, and no step.
    pub fn start(
        alloc: Global,
        checked: &'p Checked,
        code: &'p CodeTable,
    ) -> Result<Watched<'p>, NoMemory>
        requires { IsCodeOf (program_of checked.now.0) code.now.code.items code.now.entry.items code.now.room.items }
        ensures stands { IfOk result (λ w. StandsFor w.0 (initial (program_of checked.now.0))) }
        ensures program { IfOk result (λ w. program_run w.0 ≡ program_of checked.now.0) }
        ensures code { IfOk result (λ w. w.0.code ≡ code.now) }
        ensures steps { IfOk result (λ w. w.1 ≡ []) }
        ensures shown { IfOk result (λ w. IsGuarded w.0 w.1) }
    {
        let machine = Machine::start(alloc, checked.program(), code)?;
        Ok(Watched {
            machine,
            steps: Vec::new(alloc),
        })
    }

    /// One step of a thread, and its kind, which is never Bare. A refusal leaves machine and list as they were.
    pub fn step(&mut self, alloc: Global, thread: u32) -> Result<StepKind, StepEnd>
        requires { self.old.0.made < 4294967295 }
        ensures turn { (q : State) → StandsFor self.old.0 q → IsWatchedTurn thread result self.new.0 q (outcome (program_run self.old.0) q thread) }
        ensures guarded { IfOk result (λ kind. kind ≢ Bare) }
        ensures listed { OnOk result (self.new.1 ≡ self.old.1 ++ thread ∷ []) }
        ensures kept { OnErr result (IsSame self.new.0 self.old.0) }
        ensures unlisted { OnErr result (self.new.1 ≡ self.old.1) }
        ensures program { self.new.0.program ≡ self.old.0.program }
        ensures code { self.new.0.code ≡ self.old.0.code }
        ensures shown { IsGuarded self.new.0 self.new.1 }
    {
        let Some(kind) = self.machine.kind(thread) else {
            return Err(self.machine.step(alloc, thread).unwrap_err());
        };
        list(&mut self.steps, thread)?;
        match self.machine.step(alloc, thread) {
            Ok(()) => Ok(kind),
            Err(why) => {
                unlist(&mut self.steps);
                Err(why)
            }
        }
    }

    /// The threads whose steps were made, in order.
    pub fn steps(&self) -> &[u32]
        ensures steps { result.now ≡ self.now.1 }
        ensures shown { IsGuarded self.now.0 self.now.1 }
    {
        self.steps.as_slice()
    }

    /// The machine. It stands for the state that its steps run to.
    pub fn machine(&self) -> &Machine<'p>
        ensures machine { result.now ≡ self.now.0 }
        ensures shown { IsGuarded self.now.0 self.now.1 }
    {
        &self.machine
    }
}
