//! Laws of witnesses.
ghost use Rattle.std.specs.Prelude.{ℕ, List};
ghost use Rattle.core_program.specs.Core.{Program};
ghost use Rattle.core_program.specs.Typed.{IsTyped};
ghost use Rattle.rules.specs.Near.{MethodPaths, AreRelevant, AreFew, rel_of};
ghost use Rattle.rules.specs.Effect.{Assignment};
ghost use Rattle.rules.specs.Rules.{IsAdmissible, IsAccepted};
ghost use Rattle.witness.specs.Witness.{Comparison, IsLike, IsWitness, IsWitnessAs};

/// An accepted program has no witness, however ends are compared. So a program that has one has no admissible assignment.
pub fn witness_laws()
    ensures accepted { (P : Program) → IsTyped P → IsAccepted P → (s : List ℕ) → IsWitness P s → ⊥ }
    ensures compared { (P : Program) (by : Comparison) → IsTyped P → IsAccepted P → (s : List ℕ) → IsWitnessAs P (IsLike by) s → ⊥ }
    ensures refuted { (P : Program) (by : Comparison) (s : List ℕ) (sets : List MethodPaths) (A : Assignment) → IsTyped P → IsWitnessAs P (IsLike by) s →
        AreRelevant P sets → AreFew sets → IsAdmissible P (rel_of sets) A → ⊥ }
{}
