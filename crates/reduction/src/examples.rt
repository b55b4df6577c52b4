//! The theorem over an example program.
ghost use Rattle.std.specs.Prelude.{◌≡◌, ◌≢◌, ℕ, List, Some};
ghost use Rattle.core_program.specs.Examples.{counter};
ghost use Rattle.state.specs.declared.value.StepKind.TheVariants.{Bare};
ghost use Rattle.state.specs.States.{State};
ghost use Rattle.semantics.specs.Step.{kind_of};
ghost use Rattle.semantics.specs.Run.{run};
ghost use Rattle.semantics.specs.Units.{entries, units};
ghost use Rattle.semantics.specs.Words.{HasWords};

/// The counter program meets the theorem's conditions: whatever the schedule, no step of it is Bare, and the kinds of each
/// call of `inc` are a reducible word.
pub fn the_counter_is_safe()
    ensures bare { (s : List ℕ) (q : State) → run counter s ≡ Some q → (t : ℕ) → kind_of counter q t ≢ Some Bare }
    ensures words { (s : List ℕ) → HasWords (units (entries counter s)) }
{}
