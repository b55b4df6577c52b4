//! What safe states need of an accepted program.
ghost use Rattle.std.specs.Prelude.{List};
ghost use Rattle.core_program.specs.Core.{Program};
ghost use Rattle.core_program.specs.Typed.{IsTyped};
ghost use Rattle.rules.specs.Near.{MethodPaths, AreRelevant, rel_of};
ghost use Rattle.rules.specs.Effect.{Assignment};
ghost use Rattle.rules.specs.Rules.{IsAdmissible};
ghost use Rattle.reduction.specs.Safe.{IsFree};
ghost use Rattle.reduction.specs.Turn.{Accepted};

/// A typed program with its relevant sets and an admissible assignment is as the proof of safe states needs it: bodies leave
/// operands where they are taken, no root of a held path is stored while it counts, and bounds hold where calls begin.
pub fn accepted_laws()
    ensures accepted { (P : Program) (sets : List MethodPaths) (A : Assignment) → IsTyped P → AreRelevant P sets → IsAdmissible P (rel_of sets) A → Accepted P (rel_of sets) A }
    ensures main { (P : Program) → IsTyped P → IsFree P P.main }
{}
