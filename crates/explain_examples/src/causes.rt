//! What is wrong with errors, computed.
ghost use Rattle.std.specs.Prelude.{◌≡◌, true, false, [], ◌∷◌, map, Some, None};
ghost use Rattle.core_program.specs.Core.{EmptyS, SetFieldS, ThisE, GetE, CallE, no_exprs};
ghost use Rattle.core_program.specs.Examples.{this_path};
ghost use Rattle.effects.specs.Parts.{ExprP, StmtP};
ghost use Rattle.explain.specs.declared.causes.Cause.TheVariants.{Bare, Nameless, Lacking, LackingName, Refused, Other};
ghost use Rattle.explain.specs.declared.names.Lack.TheVariants.{Variable, Value};
ghost use Rattle.explain.specs.Causes.{cause_of, first_lacking, lacking, slot_lack};
ghost use Rattle.core_examples.specs.Bodies.{this_held, nothing_held};
ghost use Rattle.core_examples.specs.Fields.{path};
ghost use Rattle.core_examples.specs.Small.{one};
ghost use Rattle.explain_examples.specs.Shelf.{shelf, shelf_paths, plain, fixed, locals, fixed_held};

/// An access without its guard, which isn't held here, or has no name here.
pub fn what_is_wrong_with_accesses()
    ensures reads { map (cause_of shelf shelf_paths locals fixed_held) (ExprP (GetE ThisE 1) ∷ ExprP (GetE fixed 1) ∷ ExprP (GetE ThisE 2) ∷ []) ≡
        Bare (Some this_path) 1 false this_path (Some (path 2 [])) ∷ Bare (Some (path 2 [])) 1 false (path 2 []) (Some (path 2 [])) ∷ Bare (Some this_path) 2 true this_path (Some (path 2 [])) ∷ [] }
    ensures writes { map (cause_of shelf shelf_paths locals nothing_held) (StmtP (SetFieldS ThisE 1 one) ∷ StmtP (SetFieldS ThisE 2 one) ∷ []) ≡ Bare (Some this_path) 1 false this_path None ∷ Bare (Some this_path) 2 true this_path None ∷ [] }
    ensures unnamed { map (cause_of shelf shelf_paths locals nothing_held) (ExprP (GetE plain 1) ∷ StmtP (SetFieldS plain 2 one) ∷ []) ≡ Nameless 1 false (Variable 1) ∷ Nameless 2 true (Variable 1) ∷ [] }
    ensures unguarded { map (cause_of shelf shelf_paths locals nothing_held) (ExprP (GetE ThisE 0) ∷ ExprP (GetE ThisE 3) ∷ ExprP ThisE ∷ StmtP EmptyS ∷ []) ≡ Other ∷ Other ∷ Other ∷ Other ∷ [] }
{}

/// A call without a lock that the callee requires, or of a callee that is an error with all of them.
pub fn what_is_wrong_with_calls()
    ensures lacking { map (λ e. cause_of shelf shelf_paths locals fixed_held (ExprP (CallE e 9 no_exprs))) (ThisE ∷ plain ∷ fixed ∷ []) ≡
        Lacking 9 this_path this_path (Some (path 2 [])) ∷ LackingName 9 this_path (Variable 1) ∷ Refused 9 ∷ [] }
    ensures nothing_required { cause_of shelf shelf_paths locals nothing_held (ExprP (CallE ThisE 6 no_exprs)) ≡ Refused 6 }
    ensures no_method { cause_of shelf shelf_paths locals nothing_held (ExprP (CallE ThisE 40 no_exprs)) ≡ Refused 40 }
    ensures first { map (λ H. first_lacking shelf shelf_paths H ThisE 9 no_exprs) (nothing_held ∷ this_held ∷ []) ≡ Some this_path ∷ None ∷ [] }
    ensures nothing_passed { lacking shelf locals nothing_held ThisE 9 no_exprs (path 5 []) None ≡ LackingName 9 (path 5 []) Value }
    ensures slots { map (slot_lack shelf) (None ∷ Some plain ∷ []) ≡ Value ∷ Variable 1 ∷ [] }
{}
