//! The laws of replay.
ghost use Rattle.std.specs.Prelude.{◌<◌, ℕ, List, length};
ghost use Rattle.core_program.specs.Core.{Program};
ghost use Rattle.core_program.specs.Typed.{IsTyped};
ghost use Rattle.state.specs.States.{State};
ghost use Rattle.semantics.specs.Run.{IsUninterrupted};
ghost use Rattle.replay.specs.Evaluation.{most_number};
ghost use Rattle.replay.specs.Calls.{IsCallAt, IsReplayed};
ghost use Rattle.replay.specs.Records.{Told, IsTold};
ghost use Rattle.replay.specs.Given.{IsGiven};

/// Each completed outermost atomic call of an uninterrupted schedule, evaluated by itself in the state before it with as many
/// turns as it has steps, gives the state after it, its result and what it printed; or it is deep, exactly where the call had
/// more than 100 frames of its own at some moment.
pub fn replay_laws()
    ensures { (P : Program) → IsTyped P → (s : List ℕ) → IsUninterrupted P s → length s < most_number →
        (place k t : ℕ) (q r : State) → IsCallAt P s place k t q r → IsReplayed P t k q r }
{}

/// What is told of a call of an uninterrupted schedule is what evaluation of the call by itself gives: its result and what it
/// printed; or evaluation is deep.
pub fn told_laws()
    ensures { (P : Program) → IsTyped P → (s : List ℕ) → IsUninterrupted P s → length s < most_number → (told : Told) → IsTold P s told → IsGiven P s told }
{}
