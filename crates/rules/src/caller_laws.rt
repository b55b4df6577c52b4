//! What a body depends on.
ghost use Rattle.std.specs.Prelude.{◌≡◌, ℕ, Bool, false, List};
ghost use Rattle.paths.specs.Paths.{PathData};
ghost use Rattle.algebra.specs.HeldPaths.{Held};
ghost use Rattle.core_program.specs.Core.{Program, Stmt};
ghost use Rattle.rules.specs.Effect.{Assignment, effect};
ghost use Rattle.rules.specs.Called.{stmt_calls};

/// Where two assignments differ only at methods that a body doesn't call, its effect is the same by both.
pub fn only_callees_count()
    ensures { (P : Program) (rel : ℕ → List PathData) (A B : Assignment) (test : ℕ → Bool) → ((m : ℕ) → test m ≡ false → (H : Held) → A m H ≡ B m H) →
        (s : Stmt) (H : Held) → stmt_calls test s ≡ false → effect P rel A s H ≡ effect P rel B s H }
{}
