//! What comes of a schedule.
ghost use Rattle.std.specs.Prelude.{◌≡◌, ◌⊎◌, ℕ, List, Some};
ghost use Rattle.core_program.specs.Core.{Program};
ghost use Rattle.state.specs.States.{State, initial};
ghost use Rattle.semantics.specs.Run.{run, Runs};
ghost use Rattle.machine.specs.declared.machine.Stopped.{Stopped};
ghost use Rattle.machine.specs.Standing.{IsStopped};

/// Every schedule runs or stops; one that runs doesn't stop, and one that stops does so at one entry for one reason.
pub fn ending_laws()
    ensures either { (P : Program) (s : List ℕ) → Runs P s ⊎ ((stopped : Stopped) × IsStopped P (initial P) s stopped) }
    ensures runs { (P : Program) (s : List ℕ) (q : State) (stopped : Stopped) → run P s ≡ Some q → IsStopped P (initial P) s stopped → ⊥ }
    ensures once { (P : Program) (s : List ℕ) (one other : Stopped) → IsStopped P (initial P) s one → IsStopped P (initial P) s other → one ≡ other }
{}
