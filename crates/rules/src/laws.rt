//! Laws of effects.
ghost use Rattle.std.specs.Prelude.{◌≡◌, ℕ, List, Some, slice_get, Contains};
ghost use Rattle.paths.specs.Paths.{PathData};
ghost use Rattle.algebra.specs.HeldPaths.{Held, has_path};
ghost use Rattle.core_program.specs.Core.{Program, Method, Expr, Stmt};
ghost use Rattle.rules.specs.Mentions.{Mention, expr_mentions, mentions};
ghost use Rattle.rules.specs.Near.{MethodPaths, AreRelevant, IsWellFormed, Near, rel_of};
ghost use Rattle.rules.specs.Limits.{IsFirstCrowded};
ghost use Rattle.rules.specs.Effect.{Assignment, expr_effect, effect};
ghost use Rattle.rules.specs.Rules.{IsSubset, AtMost, IsAntitone, IsClosed};

/// Under a falling assignment more held paths never give a greater effect.
pub fn more_held_paths_fall()
    ensures expression { (P : Program) (rel : ℕ → List PathData) (A : Assignment) → IsAntitone rel A →
        (e : Expr) (H K : Held) → IsSubset H K → AtMost (expr_effect P rel A e K) (expr_effect P rel A e H) }
    ensures statement { (P : Program) (rel : ℕ → List PathData) (A : Assignment) → IsAntitone rel A →
        (s : Stmt) (H K : Held) → IsSubset H K → AtMost (effect P rel A s K) (effect P rel A s H) }
{}

/// A closed assignment is at least the effect of a method's body, also where more is held than it is asked at.
pub fn closed_above_larger_sets()
    ensures { (P : Program) (rel : ℕ → List PathData) (A : Assignment) → IsAntitone rel A → IsClosed P rel A → (m : ℕ) (method : Method) →
        slice_get P.methods m ≡ Some method → (H K : Held) → IsSubset H (has_path (rel m)) → IsSubset (has_path method.requires_) H → IsSubset H K →
        AtMost (effect P rel A method.body K) (A m H) }
{}

/// A greater assignment never gives a smaller effect.
pub fn greater_assignments_rise()
    ensures expression { (P : Program) (rel : ℕ → List PathData) (A B : Assignment) →
        ((m : ℕ) (H : Held) → IsSubset H (has_path (rel m)) → AtMost (A m H) (B m H)) → (e : Expr) (H : Held) → AtMost (expr_effect P rel A e H) (expr_effect P rel B e H) }
    ensures statement { (P : Program) (rel : ℕ → List PathData) (A B : Assignment) →
        ((m : ℕ) (H : Held) → IsSubset H (has_path (rel m)) → AtMost (A m H) (B m H)) → (s : Stmt) (H : Held) → AtMost (effect P rel A s H) (effect P rel B s H) }
{}

/// The effect of a method's body, and of each part whose mentions are the body's, depends on no held path outside those
/// near the method.
pub fn only_near_paths_count()
    ensures body { (P : Program) (sets : List MethodPaths) (A : Assignment) → AreRelevant P sets →
        (m : ℕ) (method : Method) → slice_get P.methods m ≡ Some method → (H K : Held) →
        ((q : PathData) → Near P m q → H q ≡ K q) →
        effect P (rel_of sets) A method.body H ≡ effect P (rel_of sets) A method.body K }
    ensures expression { (P : Program) (sets : List MethodPaths) (A : Assignment) → AreRelevant P sets →
        (m : ℕ) (method : Method) → slice_get P.methods m ≡ Some method →
        (e : Expr) → ((x : Mention) → Contains (expr_mentions e) x → Contains (mentions method.body) x) → (H K : Held) →
        ((q : PathData) → Near P m q → H q ≡ K q) →
        expr_effect P (rel_of sets) A e H ≡ expr_effect P (rel_of sets) A e K }
    ensures statement { (P : Program) (sets : List MethodPaths) (A : Assignment) → AreRelevant P sets →
        (m : ℕ) (method : Method) → slice_get P.methods m ≡ Some method →
        (s : Stmt) → ((x : Mention) → Contains (mentions s) x → Contains (mentions method.body) x) → (H K : Held) →
        ((q : PathData) → Near P m q → H q ≡ K q) →
        effect P (rel_of sets) A s H ≡ effect P (rel_of sets) A s K }
{}

/// A program has one list of relevant sets.
pub fn relevant_sets_are_unique()
    ensures { (P : Program) (s t : List MethodPaths) → AreRelevant P s → AreRelevant P t → s ≡ t }
{}

/// In a well-formed program no method is past the limit of relevant paths.
pub fn well_formed_methods_have_few()
    ensures { (P : Program) (m : ℕ) → IsWellFormed P → ¬ (IsFirstCrowded P m) }
{}
