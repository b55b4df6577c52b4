//! The law of lock levels.
ghost use Rattle.std.specs.Prelude.{◌≡◌, ℕ, List, Some};
ghost use Rattle.paths.specs.Paths.{PathData};
ghost use Rattle.core_program.specs.Core.{Program};
ghost use Rattle.core_program.specs.Typed.{IsTyped};
ghost use Rattle.rules.specs.Near.{MethodPaths, AreRelevant, rel_of};
ghost use Rattle.state.specs.States.{State};
ghost use Rattle.semantics.specs.Run.{run};
ghost use Rattle.levels.specs.SlotTypes.{AreMarked};
ghost use Rattle.levels.specs.Contexts.{IsOrdered, IsFirstBad};
ghost use Rattle.levels.specs.Circles.{Circle};

/// In a typed program that is ordered for levels of its classes, which are equal along what classes extend, no state to which a
/// schedule runs has a circle of threads that wait for each other.
pub fn level_laws()
    ensures { (P : Program) (sets : List MethodPaths) (level : ℕ → ℕ) → IsTyped P → AreRelevant P sets → AreMarked P level → IsOrdered P (rel_of sets) level →
        (s : List ℕ) (q : State) → run P s ≡ Some q → Circle q → ⊥ }
{}

/// There is at most one first bad `synchronized`: a method, the class of the lock, and the greatest level.
pub fn answer_laws()
    ensures { (P : Program) (rel : ℕ → List PathData) (level : ℕ → ℕ) (m n c d u v : ℕ) → IsFirstBad P rel level m c u → IsFirstBad P rel level n d v →
        (m ≡ n) × (c ≡ d) × (u ≡ v) }
{}
