//! What explanations are worth. Nothing is asked of the assignment or the overriding methods.

ghost use Rattle.std.specs.Prelude.{◌≡◌, ◌==◌, ℕ, List, Contains, Option, None, Some, false, true, filter, slice_get};
ghost use Rattle.std.specs.List.{IsDistinct};
ghost use Rattle.algebra.specs.HeldPaths.{Held, with_path};
ghost use Rattle.algebra.specs.Basics.{below_of};
ghost use Rattle.algebra.specs.declared.basic.Basic.{Basic};
ghost use Rattle.algebra.specs.declared.basic.Basic.TheVariants.{Atomic, Mover};
ghost use Rattle.effects.specs.Parts.{Part};
ghost use Rattle.paths.specs.Paths.{PathData};
ghost use Rattle.core_program.specs.Core.{Method, Program};
ghost use Rattle.rules.specs.Effect.{Assignment};
ghost use Rattle.rules.specs.Rules.{AtMost};
ghost use Rattle.explain.specs.Helping.{help};
ghost use Rattle.explain.specs.PartEffects.{own_of};
ghost use Rattle.explain.specs.Around.{around, wrapped};
ghost use Rattle.explain.specs.declared.deeds.Help.TheVariants.{Hold};
ghost use Rattle.explain.specs.declared.grounds.Ground.{Ground};
ghost use Rattle.explain.specs.declared.names.Alias.{Alias};
ghost use Rattle.explain.specs.Deeds.{help_of};
ghost use Rattle.explain.specs.Explaining.{why_of};
ghost use Rattle.explain.specs.Leads.{LeadsAreTold};
ghost use Rattle.explain.specs.Meanings.{are_within, IsReasonOf};
ghost use Rattle.explain.specs.Names.{second_name};
ghost use Rattle.explain.specs.Programs.{compound, explanations, keeps, led_to, explained_methods, refused_from, IsExplained};
ghost use Rattle.explain.specs.Strict.{strict_explanations};
ghost use Rattle.explain.specs.Takings.{taken_lock, IsLockTaken};
ghost use Rattle.explain.specs.Whys.{ExplainedData};

/// The refused methods are told in source order, exactly those that break their bounds. No method is told twice, and none is left out
/// to which an explanation leads.
pub fn explanation_laws()
    ensures refused { (P : Program) (rel : ℕ → List PathData) (A : Assignment) (overs : ℕ → List ℕ) (grounds : List Ground) →
        filter (λ x. x.is_refused) (explanations P rel A overs grounds) ≡ refused_from P rel A overs grounds 0 P.methods }
    ensures once { (P : Program) (rel : ℕ → List PathData) (A : Assignment) (overs : ℕ → List ℕ) (grounds : List Ground) → IsDistinct (λ m k. m == k) (explained_methods (explanations P rel A overs grounds)) }
    ensures explained { (P : Program) (rel : ℕ → List PathData) (A : Assignment) (overs : ℕ → List ℕ) (grounds : List Ground) (x : ExplainedData) →
        Contains (explanations P rel A overs grounds) x → IsExplained P rel A overs grounds x }
    ensures led { (P : Program) (rel : ℕ → List PathData) (A : Assignment) (overs : ℕ → List ℕ) (grounds : List Ground) (x : ExplainedData) → Contains (explanations P rel A overs grounds) x →
        (m : ℕ) (method : Method) → led_to x.why ≡ Some m → slice_get P.methods m ≡ Some method → keeps A m method ≡ true →
        Contains (explanations P rel A overs grounds) (compound P rel A overs grounds m method) }
{}

/// The methods that are told are closed: each to which one of them leads is told too, unless it is atomic. So it is by the bounds that methods
/// declare, and where each counts as `atomic` but those that threads begin with.
pub fn leading_laws()
    ensures declared { (P : Program) (rel : ℕ → List PathData) (A : Assignment) (overs : ℕ → List ℕ) (grounds : List Ground) → LeadsAreTold P A (explanations P rel A overs grounds) }
    ensures strict { (P : Program) (rel : ℕ → List PathData) (A : Assignment) (overs : ℕ → List ℕ) (grounds : List Ground) → LeadsAreTold P A (strict_explanations P rel A overs grounds) }
{}

/// With the lock that is told held, the step can be moved. A lock is told wherever one helps, and another name that is told is held.
pub fn hold_laws()
    ensures moves { (P : Program) (rel : ℕ → List PathData) (A : Assignment) (aliases : List Alias) (x : Part) (H : Held) (p : PathData) (second : Option PathData) →
        help_of P rel A aliases x H ≡ Hold p second → AtMost (own_of P rel A x (with_path p H)) Mover }
    ensures told { (P : Program) (rel : ℕ → List PathData) (A : Assignment) (aliases : List Alias) (x : Part) (H : Held) (p : PathData) →
        help P rel A x H ≡ Some p → help_of P rel A aliases x H ≡ Hold p (second_name aliases H p) }
    ensures held { (aliases : List Alias) (H : Held) (p q : PathData) → second_name aliases H p ≡ Some q → H q ≡ true }
{}

/// A call of which it is told that it takes a lock and gives it back does so, and does nothing else that others can see. Nothing is asked
/// of what overrides the callee, beyond that these are the methods.
pub fn taking_laws()
    ensures { (P : Program) (rel : ℕ → List PathData) (A : Assignment) (overs : List ℕ) (m : ℕ) (receiver : Option PathData) (args : List (Option PathData)) (H : Held) (p : PathData) →
        taken_lock P rel A overs m receiver args H ≡ Some p → IsLockTaken P rel A overs m receiver args H p }
{}

/// With the lock that is told held around all of it, a method's body is at most what is asked for, and that lock is relevant to the method.
/// Where none is told, no relevant one helps.
pub fn around_laws()
    ensures fits { (P : Program) (rel : ℕ → List PathData) (A : Assignment) (m : ℕ) (method : Method) (limit : Basic) → slice_get P.methods m ≡ Some method →
        (p : PathData) → around P rel A m limit ≡ Some p → Contains (rel m) p × AtMost (wrapped P rel A method p) limit }
    ensures none { (P : Program) (rel : ℕ → List PathData) (A : Assignment) (m : ℕ) (method : Method) (limit : Basic) → slice_get P.methods m ≡ Some method →
        around P rel A m limit ≡ None → (p : PathData) → Contains (rel m) p → below_of (wrapped P rel A method p) limit ≡ false }
{}

/// A method whose body, or one that overrides it, is more than the limit has a reason, and what is told as its reason is so.
pub fn reason_laws()
    ensures { (P : Program) (rel : ℕ → List PathData) (A : Assignment) (overs : List ℕ) (self : ℕ) (method : Method) (limit : Basic) → AtMost Atomic limit →
        are_within P rel A overs method limit ≡ false → IsReasonOf P rel A overs method limit (why_of P rel A overs self method limit) }
{}
