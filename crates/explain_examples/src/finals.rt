//! Variables and fields that should be final, computed.
ghost use Rattle.std.specs.Prelude.{◌≡◌, true, false, [], ◌∷◌, map, Some, None};
ghost use Rattle.algebra.specs.declared.basic.Basic.TheVariants.{Atomic, Cmpd, Error, Mover};
ghost use Rattle.core_program.specs.Core.{CallE, Field, GetE, IfS, LocalS, NewE, NotE, ReturnS, SetVarS, SyncS, ThisE, TruthE, VarE, WhileS, and_expr, no_exprs};
ghost use Rattle.core_program.specs.Examples.{plain_method, this_path};
ghost use Rattle.core_examples.specs.Bodies.{nothing_held};
ghost use Rattle.effects.specs.Parts.{ExprP};
ghost use Rattle.explain.specs.declared.causes.Cause.TheVariants as cause;
ghost use Rattle.explain.specs.declared.deeds.Help.TheVariants as helps;
ghost use Rattle.explain.specs.declared.names.Lack.TheVariants as lack;
ghost use Rattle.explain.specs.FinalFields.{can_be_final, field_finalised, final_field_fits, final_from, sets_field};
ghost use Rattle.explain.specs.Finalising.{assigns, final_expr, final_stmt, final_variable_fits, finalised};
ghost use Rattle.explain.specs.Fitting.{final_fits, first_lack, fitting, fitting_of, lack_in_cause, lack_in_help, lacking_final};
ghost use Rattle.explain.specs.Whys.{Compound, Looped, Nothing, Overridden, Two};
ghost use Rattle.explain_examples.specs.Bodies.{choice, locked_print, turns, whole_statement};
ghost use Rattle.explain_examples.specs.Finals.{bare_put, main_peeking, peek, peeking, peeking_and_setting, put_through, put_again, reaching, told_of_peek, told_of_put};
ghost use Rattle.explain_examples.specs.Shelf.{at, fields, fixed, made, plain, put_in, puts, shelf, shelf_levels, shelf_paths, shelf_type};

/// Which statements assign to a variable.
pub fn which_statements_assign()
    ensures one { map (assigns 1) (SetVarS 1 plain ∷ SetVarS 2 plain ∷ LocalS 1 false shelf_type made ∷ []) ≡ true ∷ false ∷ false ∷ [] }
    ensures parts { map (assigns 1) (choice ∷ turns ∷ locked_print ∷ whole_statement ∷ put_through ThisE ∷ put_again ∷ []) ≡ true ∷ false ∷ false ∷ true ∷ false ∷ true ∷ [] }
{}

/// A variable is made final where it is declared and where it is read, and no other one is.
pub fn where_a_variable_is_final()
    ensures reads { map (final_expr 1) (plain ∷ NotE plain ∷ GetE plain 3 ∷ CallE plain 2 (and_expr plain no_exprs) ∷ NewE 0 (and_expr plain no_exprs) ∷ []) ≡
        VarE 1 true shelf_type ∷ NotE (VarE 1 true shelf_type) ∷ GetE (VarE 1 true shelf_type) 3 ∷ CallE (VarE 1 true shelf_type) 2 (and_expr (VarE 1 true shelf_type) no_exprs) ∷ NewE 0 (and_expr (VarE 1 true shelf_type) no_exprs) ∷ [] }
    ensures others { map (final_expr 2) (plain ∷ fixed ∷ []) ≡ plain ∷ fixed ∷ [] }
    ensures declares { map (final_stmt 1) (LocalS 1 false shelf_type made ∷ LocalS 2 false shelf_type plain ∷ ReturnS (Some plain) ∷ ReturnS None ∷ []) ≡
        LocalS 1 true shelf_type made ∷ LocalS 2 false shelf_type (VarE 1 true shelf_type) ∷ ReturnS (Some (VarE 1 true shelf_type)) ∷ ReturnS None ∷ [] }
{}

/// It helps to make a variable final whose value is `this`, where the lock of that is held before it is declared; not one whose value is made
/// there, and not one that is assigned again.
pub fn where_final_helps()
    ensures effects { map (λ s. finalised shelf shelf_paths shelf_levels (plain_method 0 0 false s) 1) (put_through ThisE ∷ put_through made ∷ []) ≡ Atomic ∷ Error ∷ [] }
    ensures fits { map (λ s. final_variable_fits shelf shelf_paths shelf_levels (plain_method 0 0 false s) Cmpd 1) (put_through ThisE ∷ put_through made ∷ put_again ∷ []) ≡ true ∷ false ∷ false ∷ [] }
    ensures lacks { map (final_fits shelf shelf_paths shelf_levels (plain_method 0 0 false (put_through ThisE)) Cmpd) (lack.Variable 1 ∷ lack.Field 4 ∷ lack.Long ∷ lack.Value ∷ []) ≡ true ∷ false ∷ false ∷ false ∷ [] }
    ensures told { map (λ m. fitting reaching shelf_paths shelf_levels [] (told_of_put m)) (0 ∷ 1 ∷ 2 ∷ 3 ∷ []) ≡ Some (lack.Variable 1) ∷ None ∷ None ∷ None ∷ [] }
    ensures unasked { fitting_of reaching shelf_paths shelf_levels (Some (plain_method 0 0 false (put_through ThisE))) Cmpd None ≡ None }
{}

/// Which statements assign to a field.
pub fn which_statements_set_a_field()
    ensures one { map (sets_field 0) (put_in 0 ∷ put_in 1 ∷ SetVarS 0 plain ∷ []) ≡ true ∷ false ∷ false ∷ [] }
    ensures parts { map (sets_field 0) (puts ∷ WhileS (TruthE true) (put_in 0) ∷ IfS (TruthE true) (put_in 0) (put_in 1) ∷ IfS (TruthE true) (put_in 1) (put_in 0) ∷ SyncS this_path (put_in 0) ∷ locked_print ∷ []) ≡
        true ∷ true ∷ true ∷ true ∷ true ∷ false ∷ [] }
{}

/// It helps to make a field final that is read without a guard, where its lock isn't held anyway; not one that a method assigns to, and not one of
/// `Main`.
pub fn where_a_final_field_helps()
    ensures finals { map (λ (f : Field). f.is_final) (final_from 0 1 fields) ≡ false ∷ true ∷ false ∷ true ∷ false ∷ [] }
    ensures others { map (λ (f : Field). f.is_final) (final_from 1 1 fields) ≡ true ∷ false ∷ false ∷ true ∷ false ∷ [] }
    ensures can { map (λ P. can_be_final P 4) (peeking ∷ peeking_and_setting ∷ main_peeking ∷ []) ≡ true ∷ false ∷ false ∷ [] }
    ensures effects { map (field_finalised peeking shelf_paths shelf_levels (plain_method 0 100 true peek)) (4 ∷ 0 ∷ []) ≡ Atomic ∷ Cmpd ∷ [] }
    ensures fits { map (λ P. final_field_fits P shelf_paths shelf_levels (plain_method 0 100 true peek) Atomic 4) (peeking ∷ peeking_and_setting ∷ main_peeking ∷ []) ≡ true ∷ false ∷ false ∷ [] }
    ensures limit { final_field_fits peeking shelf_paths shelf_levels (plain_method 0 100 true peek) Mover 4 ≡ false }
    ensures lacks { map (final_fits peeking shelf_paths shelf_levels (plain_method 0 100 true peek) Atomic) (lack.Field 4 ∷ lack.Field 0 ∷ []) ≡ true ∷ false ∷ [] }
    ensures asked { first_lack peeking shelf_paths shelf_levels [] told_of_peek.why ≡ Some (lack.Field 4) }
    ensures told { map (λ P. fitting P shelf_paths shelf_levels [] told_of_peek) (peeking ∷ peeking_and_setting ∷ main_peeking ∷ []) ≡ Some (lack.Field 4) ∷ None ∷ None ∷ [] }
{}

/// Of which variable or field that is asked.
pub fn which_variable_is_asked()
    ensures lacks { map lacking_final (lack.Variable 3 ∷ lack.Field 3 ∷ lack.Long ∷ lack.Value ∷ []) ≡ Some (lack.Variable 3) ∷ Some (lack.Field 3) ∷ None ∷ None ∷ [] }
    ensures causes { map lack_in_cause (cause.Bare None 0 false this_path None ∷ cause.Nameless 0 false (lack.Variable 3) ∷ cause.Lacking 0 this_path this_path None ∷ cause.LackingName 0 this_path (lack.Field 4) ∷ cause.Refused 0 ∷ cause.Other ∷ []) ≡
        None ∷ Some (lack.Variable 3) ∷ None ∷ Some (lack.Field 4) ∷ None ∷ None ∷ [] }
    ensures help { map lack_in_help (helps.Hold this_path None ∷ helps.Unguarded ∷ helps.WritesOnly ∷ helps.Unnamed (lack.Variable 3) ∷ helps.NoneNamed ∷ helps.ReceiverUnnamed (lack.Field 4) ∷ helps.Seen ∷ []) ≡
        None ∷ None ∷ None ∷ Some (lack.Variable 3) ∷ None ∷ Some (lack.Field 4) ∷ None ∷ [] }
    ensures errors { map (first_lack shelf shelf_paths shelf_levels []) (bare_put ∷ Overridden 3 Cmpd ∷ Nothing ∷ []) ≡ Some (lack.Variable 1) ∷ None ∷ None ∷ [] }
    ensures steps { map (first_lack shelf shelf_paths shelf_levels [])
        (Looped (at 4 (ExprP (GetE plain 2)) nothing_held None) 1 ∷ Compound (at 4 (ExprP (CallE plain 2 no_exprs)) nothing_held None)
        ∷ Two (at 4 (ExprP (GetE ThisE 0)) nothing_held None) (at 6 (ExprP (GetE plain 2)) nothing_held None) ∷ Two (at 4 (ExprP (GetE (VarE 5 false shelf_type) 2)) nothing_held None) (at 6 (ExprP (GetE plain 2)) nothing_held None) ∷ []) ≡
        Some (lack.Variable 1) ∷ Some (lack.Variable 1) ∷ Some (lack.Variable 1) ∷ Some (lack.Variable 5) ∷ [] }
{}
