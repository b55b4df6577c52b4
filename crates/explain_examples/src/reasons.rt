//! Why methods are refused, computed.
ghost use Rattle.std.specs.Prelude.{◌≡◌, true, false, [], ◌∷◌, map, Some, None};
ghost use Rattle.algebra.specs.declared.basic.Basic.TheVariants.{Const, Mover, Atomic, Cmpd, Error};
ghost use Rattle.core_program.specs.Core.{EmptyS, ThisE, CallE, no_exprs};
ghost use Rattle.core_program.specs.Examples.{block_of, plain_method};
ghost use Rattle.effects.specs.Parts.{ExprP, StmtP};
ghost use Rattle.rules.specs.Search.{row_at};
ghost use Rattle.explain.specs.Explaining.{body_why, is_call_of_method, only_step_why, over_of, steps_why, wrong_of};
ghost use Rattle.explain.specs.Programs.{called_by, explanations, if_untold, led, led_to, marked, refused, refused_from};
ghost use Rattle.explain.specs.Views.{heavy_in, inner, is_heavy};
ghost use Rattle.explain.specs.Whys.{Wrong, Looped, Compound, Two, Overridden, Nothing};
ghost use Rattle.explain_examples.specs.Outlines.{visit_nodes, outline, told_outline, wrong, looped, compound, two, overridden, nothing};
ghost use Rattle.core_examples.specs.Bodies.{this_held, nothing_held};
ghost use Rattle.explain_examples.specs.Shelf.{shelf, shelf_paths, shelf_levels, all_compound, at, callers, call_visit, overs, puts, run_method, write_visit};

/// What is told of the program, in order: each refused method with its reason, and behind one that calls a compound method that one, once.
pub fn what_is_told()
    ensures { map told_outline (explanations shelf shelf_paths shelf_levels (row_at overs) []) ≡
        record { method = 3; is_refused = true; limit = Atomic; found = Cmpd; why = two 1 4 }
        ∷ record { method = 4; is_refused = true; limit = Atomic; found = Cmpd; why = looped 4 1 }
        ∷ record { method = 5; is_refused = true; limit = Atomic; found = Cmpd; why = compound 2 }
        ∷ record { method = 2; is_refused = false; limit = Atomic; found = Cmpd; why = two 1 4 }
        ∷ record { method = 6; is_refused = true; limit = Cmpd; found = Error; why = wrong 1 }
        ∷ record { method = 7; is_refused = true; limit = Cmpd; found = Error; why = wrong 4 }
        ∷ record { method = 8; is_refused = true; limit = Cmpd; found = Error; why = wrong 2 }
        ∷ record { method = 10; is_refused = true; limit = Cmpd; found = Error; why = wrong 2 }
        ∷ record { method = 11; is_refused = true; limit = Atomic; found = Cmpd; why = two 1 5 }
        ∷ record { method = 12; is_refused = true; limit = Atomic; found = Cmpd; why = overridden 17 Cmpd }
        ∷ record { method = 13; is_refused = true; limit = Atomic; found = Cmpd; why = two 2 5 }
        ∷ record { method = 14; is_refused = true; limit = Atomic; found = Cmpd; why = two 9 12 }
        ∷ record { method = 15; is_refused = true; limit = Atomic; found = Cmpd; why = compound 2 }
        ∷ record { method = 17; is_refused = true; limit = Atomic; found = Cmpd; why = two 1 4 }
        ∷ [] }
{}

/// Those of the refused methods, by themselves, where the methods are numbered from 2 on.
pub fn which_methods_are_refused()
    ensures { map told_outline (refused_from shelf shelf_paths shelf_levels (row_at overs) [] 2 (plain_method 0 102 false puts ∷ plain_method 0 103 true puts ∷ plain_method 0 104 false puts ∷ plain_method 0 105 true (block_of (run_method 2)) ∷ [])) ≡
        record { method = 3; is_refused = true; limit = Atomic; found = Cmpd; why = two 1 4 } ∷ record { method = 5; is_refused = true; limit = Atomic; found = Cmpd; why = compound 2 } ∷ [] }
{}

/// Why a body with these steps is compound: those that aren't compound by themselves go first, and of the others those that call another method.
pub fn which_steps_are_told()
    ensures loops { map outline (steps_why 0 false (write_visit 1 (Some 7) ∷ write_visit 2 None ∷ []) [] ∷ steps_why 0 false (write_visit 1 None ∷ write_visit 2 (Some 7) ∷ []) [] ∷ steps_why 0 false (write_visit 1 (Some 7) ∷ []) (call_visit 3 2 ∷ []) ∷ []) ≡ looped 1 7 ∷ two 1 2 ∷ looped 1 7 ∷ [] }
    ensures compounds { map outline (steps_why 9 false [] (call_visit 3 2 ∷ call_visit 4 5 ∷ []) ∷ steps_why 2 false [] (call_visit 3 2 ∷ call_visit 4 5 ∷ []) ∷ steps_why 2 false [] (call_visit 3 2 ∷ []) ∷ []) ≡ compound 3 ∷ compound 4 ∷ compound 3 ∷ [] }
    ensures behind { map outline (steps_why 2 false (write_visit 1 None ∷ []) (call_visit 3 2 ∷ call_visit 4 5 ∷ []) ∷ steps_why 2 false (write_visit 1 None ∷ []) (call_visit 3 2 ∷ []) ∷ steps_why 2 false (write_visit 1 None ∷ []) [] ∷ []) ≡ compound 4 ∷ two 1 3 ∷ nothing ∷ [] }
    ensures no_call { is_call_of_method 2 (StmtP EmptyS) ∷ is_call_of_method 2 (ExprP ThisE) ∷ [] ≡ false ∷ false ∷ [] }
    ensures alone { map (λ v. outline (only_step_why shelf shelf_paths shelf_levels v)) (call_visit 3 2 ∷ write_visit 4 (Some 1) ∷ write_visit 5 None ∷ []) ≡ compound 3 ∷ looped 4 1 ∷ nothing ∷ [] }
    ensures bodies { map (λ b. outline (body_why shelf shelf_paths shelf_levels 0 b (write_visit 1 None ∷ []) (call_visit 3 2 ∷ []))) (Error ∷ Cmpd ∷ []) ≡ wrong 1 ∷ compound 3 ∷ [] }
    ensures errors { map (λ vs. outline (wrong_of shelf shelf_paths vs)) ([] ∷ (call_visit 1 6 ∷ write_visit 2 None ∷ []) ∷ (call_visit 1 6 ∷ call_visit 2 6 ∷ []) ∷ (call_visit 1 6 ∷ call_visit 2 9 ∷ []) ∷ []) ≡ nothing ∷ wrong 2 ∷ wrong 1 ∷ wrong 2 ∷ [] }
    ensures heavy { map is_heavy (Const ∷ Mover ∷ Atomic ∷ Cmpd ∷ Error ∷ []) ≡ false ∷ false ∷ true ∷ true ∷ true ∷ [] }
    ensures those { visit_nodes (heavy_in shelf shelf_paths shelf_levels (at 1 (StmtP EmptyS) nothing_held None ∷ write_visit 2 None ∷ call_visit 3 2 ∷ [])) ≡ 2 ∷ 3 ∷ [] }
    ensures inner { map inner ([] ∷ (Atomic ∷ Mover ∷ []) ∷ []) ≡ [] ∷ (Mover ∷ []) ∷ [] }
{}

/// Which overriding method is told, with what it is at those of the paths that are relevant to it.
pub fn which_overriding_methods_are_told()
    ensures first { map (λ ms. outline (over_of shelf_paths shelf_levels Atomic ms nothing_held)) ([] ∷ (18 ∷ 17 ∷ 2 ∷ []) ∷ (18 ∷ 0 ∷ []) ∷ []) ≡ nothing ∷ overridden 17 Cmpd ∷ nothing ∷ [] }
    ensures held { map (λ H. outline (over_of shelf_paths shelf_levels Atomic (13 ∷ []) H)) (this_held ∷ nothing_held ∷ []) ≡ nothing ∷ overridden 13 Cmpd ∷ [] }
    ensures relevant { outline (over_of (λ m. []) shelf_levels Atomic (13 ∷ []) this_held) ≡ overridden 13 Cmpd }
{}

/// To which method an explanation leads, and where it ends.
pub fn where_explanations_lead()
    ensures called { map called_by (ExprP (CallE ThisE 7 no_exprs) ∷ ExprP ThisE ∷ StmtP EmptyS ∷ []) ≡ Some 7 ∷ None ∷ None ∷ [] }
    ensures led { map led_to (Wrong (call_visit 1 7) ∷ Looped (call_visit 1 7) 0 ∷ Compound (call_visit 1 7) ∷ Two (call_visit 1 7) (call_visit 2 7) ∷ Overridden 8 Cmpd ∷ Nothing ∷ []) ≡ None ∷ None ∷ Some 7 ∷ None ∷ Some 8 ∷ None ∷ [] }
    ensures ends { map (λ told. map told_outline (if_untold shelf_levels told 2 (Some (plain_method 0 102 false puts)) (λ m. refused shelf shelf_paths shelf_levels (row_at overs) [] 2 m ∷ []))) ([] ∷ (false ∷ false ∷ true ∷ []) ∷ []) ≡ [] ∷ [] ∷ [] }
    ensures fuel { map (λ fuel. map told_outline (led shelf shelf_paths shelf_levels (row_at overs) [] fuel (false ∷ false ∷ false ∷ []) (Some 2))) (0 ∷ 1 ∷ []) ≡ [] ∷ (record { method = 2; is_refused = false; limit = Atomic; found = Cmpd; why = two 1 4 } ∷ []) ∷ [] }
    ensures circle { map (λ x. x.method) (led callers shelf_paths all_compound (λ m. []) [] 5 (false ∷ false ∷ []) (Some 0)) ≡ 0 ∷ 1 ∷ [] }
    ensures marked { marked (false ∷ false ∷ false ∷ []) (2 ∷ 0 ∷ []) ≡ true ∷ false ∷ true ∷ [] }
{}
