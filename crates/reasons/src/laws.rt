//! What is known of the explanations of a least closed assignment.

ghost use Rattle.std.specs.Prelude.{◌≡◌, ◌↔◌, ℕ, List, Contains, None, Some, false, true, slice_get};
ghost use Rattle.algebra.specs.declared.basic.Basic.{Basic};
ghost use Rattle.algebra.specs.Basics.{below_of};
ghost use Rattle.algebra.specs.declared.basic.Basic.TheVariants.{Error, Mover};
ghost use Rattle.algebra.specs.HeldPaths.{Held, has_path};
ghost use Rattle.effects.specs.Parts.{Part};
ghost use Rattle.paths.specs.Paths.{PathData};
ghost use Rattle.core_program.specs.Core.{Method, Program};
ghost use Rattle.core_program.specs.Typed.{IsTyped};
ghost use Rattle.infer.specs.Least.{IsLeast};
ghost use Rattle.rules.specs.Effect.{Assignment, required_paths};
ghost use Rattle.rules.specs.Near.{AreFew, AreRelevant, MethodPaths, rel_of};
ghost use Rattle.rules.specs.Overriding.{AreOverriders};
ghost use Rattle.rules.specs.Rules.{AtMost, IsSubset};
ghost use Rattle.rules.specs.Search.{row_at};
ghost use Rattle.explain.specs.declared.names.Alias.{Alias};
ghost use Rattle.explain.specs.declared.names.Lack.{Lack};
ghost use Rattle.explain.specs.Causes.{cause_of};
ghost use Rattle.explain.specs.Deeds.{help_of};
ghost use Rattle.explain.specs.Fitting.{final_fits, first_lack, fitting, IsFitting};
ghost use Rattle.explain.specs.declared.grounds.Ground.{Ground};
ghost use Rattle.explain.specs.declared.ranking.Bounds.{Bounds};
ghost use Rattle.explain.specs.declared.ranking.Bounds.TheVariants.{Declared, Strict};
ghost use Rattle.explain.specs.Grounds.{level_at};
ghost use Rattle.explain.specs.Leads.{AreGrounded, IsReasonChain, IsReasonBy};
ghost use Rattle.explain.specs.Meanings.{are_within};
ghost use Rattle.explain.specs.Ranking.{AreAllRanked};
ghost use Rattle.explain.specs.Programs.{explanations};
ghost use Rattle.explain.specs.Strict.{IsStrictlyAccepted, keep_all, strict_explanations};
ghost use Rattle.explain.specs.Whys.{ExplainedData, Wrong};
ghost use Rattle.explain.specs.PartEffects.{own_of};
ghost use Rattle.explain.specs.Visits.{Visit};
ghost use Rattle.reasons.specs.Causing.{IsCause};
ghost use Rattle.reasons.specs.Helpless.{IsHelp};

/// A least closed assignment gives a method no more than its body and the methods that override it come to where its required paths are
/// held: where these are all within a limit, so is what is assigned.
pub fn least_laws()
    ensures { (P : Program) (rel : ℕ → List PathData) (A : Assignment) (rows : List (List ℕ)) → IsLeast P rel A → AreOverriders P rows →
        (m : ℕ) (method : Method) → slice_get P.methods m ≡ Some method → IsSubset (has_path method.requires_) (has_path (rel m)) →
        (limit : Basic) → are_within P rel A (row_at rows m) method limit ≡ true → AtMost (A m (has_path method.requires_)) limit }
{}

/// In a typed program's least closed assignment each method that is more than it may be gets a rank, by which its explanation leads nowhere
/// or to a method of smaller rank.
pub fn ground_laws()
    ensures { (P : Program) (sets : List MethodPaths) (A : Assignment) (rows : List (List ℕ)) →
        IsTyped P → AreRelevant P sets → IsLeast P (rel_of sets) A → AreOverriders P rows → (bounds : Bounds) (grounds : List Ground) →
        AreAllRanked bounds P (rel_of sets) A (row_at rows) grounds → AreGrounded bounds P (rel_of sets) A (row_at rows) grounds }
{}

/// Of a typed program's least closed assignment: each method that is told is more than it may be, also one to which another leads; and it
/// has a reason, which is so. Of an access or call that lacks a lock the cause is so, too. And explanations don't lead in a circle.
pub fn told_laws()
    ensures above { (P : Program) (sets : List MethodPaths) (A : Assignment) (rows : List (List ℕ)) →
        IsTyped P → AreRelevant P sets → IsLeast P (rel_of sets) A → AreOverriders P rows → (grounds : List Ground) → AreGrounded Declared P (rel_of sets) A (row_at rows) grounds →
        (x : ExplainedData) → Contains (explanations P (rel_of sets) A (row_at rows) grounds) x → below_of x.found x.limit ≡ false }
    ensures reason { (P : Program) (sets : List MethodPaths) (A : Assignment) (rows : List (List ℕ)) →
        IsTyped P → AreRelevant P sets → IsLeast P (rel_of sets) A → AreOverriders P rows → (grounds : List Ground) → AreGrounded Declared P (rel_of sets) A (row_at rows) grounds →
        (x : ExplainedData) → Contains (explanations P (rel_of sets) A (row_at rows) grounds) x →
        (method : Method) → slice_get P.methods x.method ≡ Some method →
        IsReasonBy P (rel_of sets) A (row_at rows x.method) method (level_at grounds x.method) x.limit x.why }
    ensures cause { (P : Program) (sets : List MethodPaths) (A : Assignment) (rows : List (List ℕ)) →
        IsTyped P → AreRelevant P sets → IsLeast P (rel_of sets) A → AreOverriders P rows → (grounds : List Ground) → AreGrounded Declared P (rel_of sets) A (row_at rows) grounds →
        (x : ExplainedData) → Contains (explanations P (rel_of sets) A (row_at rows) grounds) x → (v : Visit) → x.why ≡ Wrong v →
        (aliases : List Alias) → IsCause P (rel_of sets) A v.held v.part (cause_of P (rel_of sets) aliases v.held v.part) }
    ensures circle { (P : Program) (sets : List MethodPaths) (A : Assignment) (rows : List (List ℕ)) →
        IsTyped P → AreRelevant P sets → IsLeast P (rel_of sets) A → AreOverriders P rows → (grounds : List Ground) → AreGrounded Declared P (rel_of sets) A (row_at rows) grounds →
        (x : ExplainedData) → IsReasonChain P (rel_of sets) (explanations P (rel_of sets) A (row_at rows) grounds) x x → ⊥ }
{}

/// The same of what is told where each method counts as `atomic` but those that threads begin with. All keep these bounds in the least closed
/// assignment exactly where some falling and closed one keeps them.
pub fn strict_laws()
    ensures above { (P : Program) (sets : List MethodPaths) (A : Assignment) (rows : List (List ℕ)) →
        IsTyped P → AreRelevant P sets → IsLeast P (rel_of sets) A → AreOverriders P rows → (grounds : List Ground) → AreGrounded Strict P (rel_of sets) A (row_at rows) grounds →
        (x : ExplainedData) → Contains (strict_explanations P (rel_of sets) A (row_at rows) grounds) x → below_of x.found x.limit ≡ false }
    ensures reason { (P : Program) (sets : List MethodPaths) (A : Assignment) (rows : List (List ℕ)) →
        IsTyped P → AreRelevant P sets → IsLeast P (rel_of sets) A → AreOverriders P rows → (grounds : List Ground) → AreGrounded Strict P (rel_of sets) A (row_at rows) grounds →
        (x : ExplainedData) → Contains (strict_explanations P (rel_of sets) A (row_at rows) grounds) x →
        (method : Method) → slice_get P.methods x.method ≡ Some method →
        IsReasonBy P (rel_of sets) A (row_at rows x.method) method (level_at grounds x.method) x.limit x.why }
    ensures cause { (P : Program) (sets : List MethodPaths) (A : Assignment) (rows : List (List ℕ)) →
        IsTyped P → AreRelevant P sets → IsLeast P (rel_of sets) A → AreOverriders P rows → (grounds : List Ground) → AreGrounded Strict P (rel_of sets) A (row_at rows) grounds →
        (x : ExplainedData) → Contains (strict_explanations P (rel_of sets) A (row_at rows) grounds) x → (v : Visit) → x.why ≡ Wrong v →
        (aliases : List Alias) → IsCause P (rel_of sets) A v.held v.part (cause_of P (rel_of sets) aliases v.held v.part) }
    ensures circle { (P : Program) (sets : List MethodPaths) (A : Assignment) (rows : List (List ℕ)) →
        IsTyped P → AreRelevant P sets → IsLeast P (rel_of sets) A → AreOverriders P rows → (grounds : List Ground) → AreGrounded Strict P (rel_of sets) A (row_at rows) grounds →
        (x : ExplainedData) → IsReasonChain P (rel_of sets) (strict_explanations P (rel_of sets) A (row_at rows) grounds) x x → ⊥ }
    ensures decides { (P : Program) (sets : List MethodPaths) (A : Assignment) →
        IsTyped P → AreRelevant P sets → AreFew sets → IsLeast P (rel_of sets) A → (keep_all P A ≡ true) ↔ IsStrictlyAccepted P }
{}

/// What is told of a part that is an error by itself is so, at this part: its guard or a path that its callee requires isn't held here, or has
/// no name; or the callee is an error where it has what it requires. Asked is that what a method requires is relevant to it.
pub fn error_laws()
    ensures { (P : Program) (rel : ℕ → List PathData) (A : Assignment) (aliases : List Alias) (H : Held) (x : Part) →
        ((m : ℕ) → IsSubset (has_path (required_paths (slice_get P.methods m))) (has_path (rel m))) →
        own_of P rel A x H ≡ Error → IsCause P rel A H x (cause_of P rel aliases H x) }
{}

/// What is told of a step that can't be moved is so: the lock that is told isn't held, and makes it a mover; where none is told none does,
/// whether or not it has a name here.
pub fn help_laws()
    ensures { (P : Program) (rel : ℕ → List PathData) (A : Assignment) (aliases : List Alias) (x : Part) (H : Held) →
        below_of (own_of P rel A x H) Mover ≡ false → IsHelp P rel A x H (help_of P rel A aliases x H) }
{}

/// Where it is told of a variable or a field that it isn't final, that is the first one by which the method lacks the name of a lock. It can be
/// final: nothing assigns to the variable again, and no method to the field, which `Main` hasn't got. With it final the method's body is at most
/// what the method may be. Of the first one that isn't told so, to make it final doesn't help. That the changed program has the same assignment
/// isn't said.
pub fn final_laws()
    ensures first { (P : Program) (rel : ℕ → List PathData) (A : Assignment) (aliases : List Alias) (x : ExplainedData) (method : Method) →
        slice_get P.methods x.method ≡ Some method → (lack : Lack) → fitting P rel A aliases x ≡ Some lack → first_lack P rel A aliases x.why ≡ Some lack }
    ensures fits { (P : Program) (rel : ℕ → List PathData) (A : Assignment) (aliases : List Alias) (x : ExplainedData) (method : Method) →
        slice_get P.methods x.method ≡ Some method → (lack : Lack) → fitting P rel A aliases x ≡ Some lack → IsFitting P rel A method x.limit lack }
    ensures none { (P : Program) (rel : ℕ → List PathData) (A : Assignment) (aliases : List Alias) (x : ExplainedData) (method : Method) →
        slice_get P.methods x.method ≡ Some method → (lack : Lack) → first_lack P rel A aliases x.why ≡ Some lack → fitting P rel A aliases x ≡ None → final_fits P rel A method x.limit lack ≡ false }
{}
