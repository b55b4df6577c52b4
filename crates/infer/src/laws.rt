//! Laws of the least closed assignment.
ghost use Rattle.std.specs.Prelude.{◌≡◌, ◌↔◌, ℕ, List};
ghost use Rattle.paths.specs.Paths.{PathData};
ghost use Rattle.algebra.specs.HeldPaths.{Held};
ghost use Rattle.core_program.specs.Core.{Program};
ghost use Rattle.core_program.specs.Typed.{IsTyped};
ghost use Rattle.rules.specs.Near.{MethodPaths, AreRelevant, AreFew, rel_of};
ghost use Rattle.rules.specs.Effect.{Assignment};
ghost use Rattle.rules.specs.Rules.{IsAdmissible, IsAccepted};
ghost use Rattle.infer.specs.Least.{IsLeast};
ghost use Rattle.infer.specs.Verdicts.{HoldBounds};

/// There is one least closed assignment, and it decides: some assignment is admissible exactly where the least one
/// keeps every bound.
pub fn least_assignment_laws()
    ensures unique { (P : Program) (rel : ℕ → List PathData) (A B : Assignment) → IsLeast P rel A → IsLeast P rel B →
        (m : ℕ) (H : Held) → A m H ≡ B m H }
    ensures decides { (P : Program) (sets : List MethodPaths) (A : Assignment) → IsTyped P → AreRelevant P sets →
        IsLeast P (rel_of sets) A → HoldBounds P A ↔ ((B : Assignment) × IsAdmissible P (rel_of sets) B) }
    ensures accepts { (P : Program) (sets : List MethodPaths) (A : Assignment) → IsTyped P → AreRelevant P sets → AreFew sets →
        IsLeast P (rel_of sets) A → HoldBounds P A ↔ IsAccepted P }
{}
