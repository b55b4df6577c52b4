//! The law of the trees from which good books are derived.
ghost use Rattle.std.specs.Prelude.{◌≡◌, ℕ, List, length, Some, slice_get};
ghost use Rattle.paths.specs.Paths.{PathData};
ghost use Rattle.algebra.specs.HeldPaths.{Held};
ghost use Rattle.core_program.specs.Core.{Program};
ghost use Rattle.conditions.specs.Conditions.{Cond, value_of};
ghost use Rattle.rules.specs.Effect.{Assignment};
ghost use Rattle.infer.specs.Least.{IsLeast};
ghost use Rattle.infer.specs.Verdicts.{HoldBounds};
ghost use Rattle.derive.specs.Derived.{KeepsRules};
ghost use Rattle.derive.specs.Bases.{trees_assign};

/// Trees that show the least closed assignment keep the rules where it keeps every bound: so a good book is derived of them.
pub fn shown_trees_law()
    ensures { (P : Program) (rel : ℕ → List PathData) (A : Assignment) (trees : List Cond) → IsLeast P rel A → HoldBounds P A → length trees ≡ length P.methods →
        ((m : ℕ) (tree : Cond) → slice_get trees m ≡ Some tree → (H : Held) → value_of tree H ≡ A m H) → KeepsRules P rel (trees_assign trees) }
{}
