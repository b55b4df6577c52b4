//! Laws of the machine over code.
ghost use Rattle.std.specs.Prelude.{◌≡◌, ℕ, List};
ghost use Rattle.core_program.specs.Core.{Program};
ghost use Rattle.state.specs.States.{State, StateOf, initial};
ghost use Rattle.state.specs.Frames.{CodeFrame};
ghost use Rattle.compile.specs.declared.stack.Code.{Code};
ghost use Rattle.compile.specs.IsCode.{IsCodeOf};
ghost use Rattle.semantics.specs.Step.{step, outcome_kind, kind_of};
ghost use Rattle.machine.specs.CodeMachine.{code_outcome, code_step, code_initial};
ghost use Rattle.machine.specs.Likeness.{StateStands, SomeStands};

/// The machine over a program's code steps as the definition does: its state at the start stands for the initial one, and
/// a step from a state that stands for one of the definition's leads to one that stands for the next, or there is none on
/// either side; the kinds are the same.
pub fn code_laws()
    ensures start { (P : Program) (code : List Code) → StateStands P code (code_initial P) (initial P) }
    ensures step { (P : Program) (code : List Code) (entry room : List ℕ) (c : StateOf CodeFrame) (q : State) (t : ℕ) →
        IsCodeOf P code entry room → StateStands P code c q → SomeStands P code (code_step P code entry room c t) (step P q t) }
    ensures kind { (P : Program) (code : List Code) (entry room : List ℕ) (c : StateOf CodeFrame) (q : State) (t : ℕ) →
        IsCodeOf P code entry room → StateStands P code c q → outcome_kind (code_outcome P code entry room c t) ≡ kind_of P q t }
{}
