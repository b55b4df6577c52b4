//! Names of locks, and why there is none, computed.
ghost use Rattle.std.specs.Prelude.{◌≡◌, true, false, [], ◌∷◌, map, Some, None};
ghost use Rattle.core_program.specs.Core.{EmptyS, BlockS, LocalS, IfS, WhileS, SyncS, TruthE, ThisE, VarE, GetE, CallE, no_exprs, and_expr, no_stmts, and_stmt};
ghost use Rattle.core_program.specs.Examples.{this_path};
ghost use Rattle.explain.specs.declared.names.Lack.TheVariants.{Variable, Field, Long, Value};
ghost use Rattle.explain.specs.Names.{aliases_after, argument, lack_of, meant, names_from, passed_expr, second_name, through_final, with_alias};
ghost use Rattle.core_examples.specs.Bodies.{this_held, nothing_held};
ghost use Rattle.core_examples.specs.Fields.{path};
ghost use Rattle.core_examples.specs.Small.{one};
ghost use Rattle.explain_examples.specs.Shelf.{shelf, shelf_type, plain, fixed, made, locals, fixed_held};

/// Why an expression has no path: what stands in the way nearest to its end; of one that is too long, that.
pub fn why_there_is_no_name()
    ensures variables { map (lack_of shelf) (plain ∷ fixed ∷ ThisE ∷ []) ≡ Variable 1 ∷ Long ∷ Long ∷ [] }
    ensures final_fields { map (lack_of shelf) (GetE ThisE 3 ∷ GetE plain 3 ∷ GetE made 3 ∷ []) ≡ Long ∷ Variable 1 ∷ Value ∷ [] }
    ensures other_fields { map (lack_of shelf) (GetE ThisE 4 ∷ GetE (GetE ThisE 4) 3 ∷ GetE (GetE ThisE 3) 4 ∷ GetE plain 0 ∷ []) ≡ Field 4 ∷ Field 4 ∷ Field 4 ∷ Field 0 ∷ [] }
    ensures values { map (lack_of shelf) (made ∷ one ∷ CallE ThisE 0 no_exprs ∷ []) ≡ Value ∷ Value ∷ Value ∷ [] }
{}

/// What stands for a slot of a callee.
pub fn what_is_passed()
    ensures receiver { passed_expr ThisE (and_expr one no_exprs) 0 ≡ Some ThisE }
    ensures arguments { map (passed_expr ThisE (and_expr one (and_expr plain no_exprs))) (1 ∷ 2 ∷ 3 ∷ []) ≡ Some one ∷ Some plain ∷ None ∷ [] }
    ensures argument { map (argument (and_expr one (and_expr plain no_exprs))) (0 ∷ 1 ∷ 2 ∷ []) ≡ Some one ∷ Some plain ∷ None ∷ [] }
{}

/// The final locals of a body that have paths, in both branches and in loops.
pub fn which_locals_are_names()
    ensures none { with_alias locals 5 None ≡ locals }
    ensures more { with_alias locals 5 (Some (path 3 (3 ∷ []))) ≡ record { slot = 2; path = this_path } ∷ record { slot = 3; path = path 0 (3 ∷ []) } ∷ record { slot = 5; path = path 0 (3 ∷ 3 ∷ []) } ∷ [] }
    ensures block { aliases_after shelf [] (BlockS (and_stmt (LocalS 2 true shelf_type ThisE) (and_stmt (LocalS 3 true shelf_type (GetE (VarE 2 true shelf_type) 3)) no_stmts))) ≡ locals }
    ensures others { aliases_after shelf [] (BlockS (and_stmt (LocalS 2 false shelf_type ThisE) (and_stmt (LocalS 3 true shelf_type (GetE ThisE 4)) (and_stmt EmptyS no_stmts)))) ≡ [] }
    ensures branches { aliases_after shelf [] (IfS (TruthE true) (LocalS 2 true shelf_type ThisE) (LocalS 3 true shelf_type (GetE ThisE 3))) ≡ locals }
    ensures loops { aliases_after shelf [] (WhileS (TruthE true) (LocalS 2 true shelf_type ThisE)) ≡ record { slot = 2; path = this_path } ∷ [] }
    ensures locked { aliases_after shelf [] (SyncS this_path (LocalS 2 true shelf_type ThisE)) ≡ record { slot = 2; path = this_path } ∷ [] }
{}

/// What a path means, and its other names.
pub fn which_names_are_one_lock()
    ensures through { through_final (path 0 (3 ∷ [])) (path 3 (4 ∷ [])) ≡ path 0 (3 ∷ 4 ∷ []) }
    ensures too_long { through_final (path 0 (3 ∷ [])) (path 3 (3 ∷ 4 ∷ [])) ≡ path 3 (3 ∷ 4 ∷ []) }
    ensures meant { map (meant locals) (path 2 [] ∷ path 3 (3 ∷ []) ∷ path 4 [] ∷ []) ≡ this_path ∷ path 0 (3 ∷ 3 ∷ []) ∷ path 4 [] ∷ [] }
    ensures names { names_from locals (path 0 (3 ∷ [])) ≡ path 2 (3 ∷ []) ∷ path 3 [] ∷ [] }
    ensures own_name { map (second_name locals this_held) (path 2 [] ∷ this_path ∷ path 3 [] ∷ []) ≡ Some this_path ∷ Some this_path ∷ None ∷ [] }
    ensures other_name { map (second_name locals fixed_held) (this_path ∷ path 4 [] ∷ []) ≡ Some (path 2 []) ∷ None ∷ [] }
    ensures no_name { second_name locals nothing_held this_path ≡ None }
{}
