//! The laws of steps, errors, places and locks that would help. Nothing is asked of the assignment, the relevant paths or the program.

ghost use Rattle.std.specs.Prelude.{◌≡◌, ◌≢◌, ◌↔◌, ℕ, List, [], Contains, Some, true, IsSome};
ghost use Rattle.paths.specs.Paths.{PathData};
ghost use Rattle.algebra.specs.declared.basic.Basic.TheVariants.{Mover, Atomic, Cmpd, Error};
ghost use Rattle.algebra.specs.HeldPaths.{Held, with_path};
ghost use Rattle.core_program.specs.Core.{Program};
ghost use Rattle.rules.specs.Effect.{Assignment};
ghost use Rattle.rules.specs.Rules.{AtMost};
ghost use Rattle.effects.specs.Parts.{Part};
ghost use Rattle.explain.specs.PartEffects.{own_of, effect_of_part, parts_in};
ghost use Rattle.explain.specs.Visits.{Visit, part_visits};
ghost use Rattle.explain.specs.Steps.{movable_steps};
ghost use Rattle.explain.specs.StepReadings.{are_many, first_error, IsFirstError, HasNumberOfPart, IsOne};
ghost use Rattle.explain.specs.Helping.{help};

/// A part that is no error is compound exactly where it has two steps or more, or one that a loop repeats or that is compound itself;
/// atomic exactly where it has one step and neither holds; and can be moved exactly where it has none.
pub fn step_laws()
    ensures cmpd { (P : Program) (rel : ℕ → List PathData) (A : Assignment) (x : Part) (n : ℕ) (H : Held) → effect_of_part P rel A x H ≢ Error →
        (effect_of_part P rel A x H ≡ Cmpd) ↔ (are_many P rel A (movable_steps P rel A x n H) ≡ true) }
    ensures atomic { (P : Program) (rel : ℕ → List PathData) (A : Assignment) (x : Part) (n : ℕ) (H : Held) → effect_of_part P rel A x H ≢ Error →
        (effect_of_part P rel A x H ≡ Atomic) ↔ IsOne P rel A (movable_steps P rel A x n H) }
    ensures below { (P : Program) (rel : ℕ → List PathData) (A : Assignment) (x : Part) (n : ℕ) (H : Held) → effect_of_part P rel A x H ≢ Error →
        AtMost (effect_of_part P rel A x H) Mover ↔ (movable_steps P rel A x n H ≡ []) }
{}

/// A part is an error exactly where some part of it is one by itself at the set with which the walk comes to it; the first of these
/// has none before it.
pub fn error_laws()
    ensures error { (P : Program) (rel : ℕ → List PathData) (A : Assignment) (x : Part) (n : ℕ) (H : Held) →
        (effect_of_part P rel A x H ≡ Error) ↔ IsSome (first_error P rel A (part_visits P x n H)) }
    ensures first { (P : Program) (rel : ℕ → List PathData) (A : Assignment) (x : Part) (n : ℕ) (H : Held) (v : Visit) →
        first_error P rel A (part_visits P x n H) ≡ Some v → IsFirstError P rel A (part_visits P x n H) v }
{}

/// Each step is a visited part, and each visited part has the number of its place among all parts.
pub fn place_laws()
    ensures visited { (P : Program) (rel : ℕ → List PathData) (A : Assignment) (x : Part) (n : ℕ) (H : Held) (v : Visit) →
        Contains (movable_steps P rel A x n H) v → Contains (part_visits P x n H) v }
    ensures numbered { (P : Program) (x : Part) (n : ℕ) (H : Held) (v : Visit) → Contains (part_visits P x n H) v → HasNumberOfPart (parts_in x) n v }
{}

/// With the path that would help held, the part by itself can be moved.
pub fn help_laws()
    ensures helps { (P : Program) (rel : ℕ → List PathData) (A : Assignment) (x : Part) (H : Held) (p : PathData) → help P rel A x H ≡ Some p →
        AtMost (own_of P rel A x (with_path p H)) Mover }
{}
