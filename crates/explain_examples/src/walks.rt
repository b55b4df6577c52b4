//! Walks through bodies and their steps, computed.
ghost use Rattle.std.specs.Prelude.{◌≡◌, true, false, [], ◌∷◌, ◌-◌, map, slice_get, Some, None};
ghost use Rattle.algebra.specs.declared.basic.Basic.TheVariants.{Const, Mover, Atomic, Cmpd, Error};
ghost use Rattle.core_program.specs.declared.types.CoreOp.TheVariants.{Add};
ghost use Rattle.core_program.specs.Core.{ThisE, BinaryE, GetE, CallE, no_exprs};
ghost use Rattle.core_program.specs.Core.{EmptyS, BlockS, LocalS, SetFieldS, WhileS, SyncS, PrintS, no_stmts, and_stmt};
ghost use Rattle.core_program.specs.Examples.{this_path};
ghost use Rattle.effects.specs.Parts.{ExprP, StmtP};
ghost use Rattle.rules.specs.declared.guard.Guard.TheVariants as guard;
ghost use Rattle.explain.specs.Helping.{first_path, guard_help, help, names_here};
ghost use Rattle.explain.specs.PartEffects.{own_of, effect_of_part, parts_in};
ghost use Rattle.explain.specs.StepReadings.{are_looped, are_many, are_two, first_error, is_cmpd, is_error};
ghost use Rattle.explain.specs.Steps.{own_step, movable_steps};
ghost use Rattle.explain.specs.Visits.{expr_visits, part_visits, stmt_visits};
ghost use Rattle.explain_examples.specs.Bodies.{whole_expression, whole_statement, whole_expression_parts, statement_parts, all_statements, read, read_all, stepping, stepping_branches, stepping_statements};
ghost use Rattle.explain_examples.specs.Outlines.{visit_nodes, some_of};
ghost use Rattle.core_examples.specs.Bodies.{this_held, nothing_held};
ghost use Rattle.core_examples.specs.Fields.{path};
ghost use Rattle.core_examples.specs.Small.{one};
ghost use Rattle.explain_examples.specs.Shelf.{shelf, shelf_paths, shelf_levels, call_visit, write_visit, plain, fixed, made, put_in, shelf_type};

/// The parts of an expression and of a statement, each before its own parts: the order of their numbers.
pub fn which_parts_there_are()
    ensures expression { parts_in (ExprP whole_expression) ≡ whole_expression_parts }
    ensures statement { parts_in (StmtP whole_statement) ≡ statement_parts }
{}

/// The parts that a walk comes to, each behind its own parts, with their numbers and the loops that repeat them.
pub fn where_walks_come_to()
    ensures expression { visit_nodes (part_visits shelf (ExprP whole_expression) 5 nothing_held) ≡ 8 ∷ 7 ∷ 6 ∷ 11 ∷ 10 ∷ 12 ∷ 9 ∷ 14 ∷ 16 ∷ 18 ∷ 17 ∷ 15 ∷ 13 ∷ 5 ∷ [] }
    ensures its_parts { map (λ v. slice_get whole_expression_parts (v.node - 5)) (expr_visits whole_expression 5 nothing_held None) ≡ map (λ v. Some v.part) (expr_visits whole_expression 5 nothing_held None) }
    ensures their_parts { map (λ e. map (λ v. slice_get (parts_in (ExprP e)) (v.node - 5)) (expr_visits e 5 nothing_held None)) stepping ≡ map (λ e. map (λ v. Some v.part) (expr_visits e 5 nothing_held None)) stepping }
    ensures statement { visit_nodes (part_visits shelf (StmtP whole_statement) 0 nothing_held) ≡
        2 ∷ 1 ∷ 4 ∷ 3 ∷ 6 ∷ 7 ∷ 5 ∷ 9 ∷ 8 ∷ 11 ∷ 13 ∷ 12 ∷ 15 ∷ 14 ∷ 10 ∷ 17 ∷ 19 ∷ 18 ∷ 16 ∷ 22 ∷ 21 ∷ 20 ∷ 24 ∷ 23 ∷ 25 ∷ 27 ∷ 26 ∷ 29 ∷ 28 ∷ 30 ∷ 0 ∷ [] }
    ensures parts_of_statements { map (λ s. map (λ v. slice_get (parts_in (StmtP s)) (v.node - 5)) (stmt_visits shelf s 5 nothing_held None)) all_statements ≡ map (λ s. map (λ v. Some v.part) (stmt_visits shelf s 5 nothing_held None)) all_statements }
    ensures its_loops { map (λ v. v.loop) (stmt_visits shelf (WhileS plain (put_in 0)) 4 nothing_held (Some 1)) ≡ Some 4 ∷ Some 4 ∷ Some 4 ∷ Some 4 ∷ Some 1 ∷ [] }
    ensures taken { map (λ v. v.held this_path) (stmt_visits shelf (SyncS this_path (put_in 1)) 4 nothing_held None) ≡ true ∷ true ∷ true ∷ false ∷ [] }
    ensures held { map (λ v. v.held (path 2 [])) (stmt_visits shelf (SyncS this_path (put_in 1)) 4 this_held None) ≡ false ∷ false ∷ false ∷ false ∷ [] }
    ensures numbers { map (λ H. visit_nodes (stmt_visits shelf (SyncS this_path (put_in 1)) 4 H None)) (this_held ∷ nothing_held ∷ []) ≡ (6 ∷ 7 ∷ 5 ∷ 4 ∷ []) ∷ (6 ∷ 7 ∷ 5 ∷ 4 ∷ []) ∷ [] }
    ensures behind { map (λ v. v.held (path 2 [])) (stmt_visits shelf (BlockS (and_stmt (LocalS 2 true shelf_type ThisE) (and_stmt (PrintS one) no_stmts))) 4 this_held None) ≡ false ∷ false ∷ true ∷ true ∷ false ∷ [] }
{}

/// The steps, in the order in which they are done: what can't be moved by itself, of an `if` those of the greater branch, and a `synchronized`
/// in place of a body that can be moved.
pub fn which_steps_there_are()
    ensures expressions { map (λ e. visit_nodes (movable_steps shelf shelf_paths shelf_levels (ExprP e) 5 nothing_held)) stepping ≡
        [] ∷ [] ∷ [] ∷ [] ∷ [] ∷ [] ∷ (6 ∷ []) ∷ (6 ∷ []) ∷ (6 ∷ 9 ∷ []) ∷ (6 ∷ 9 ∷ []) ∷ (6 ∷ 9 ∷ []) ∷ (6 ∷ 5 ∷ []) ∷ (6 ∷ 8 ∷ 10 ∷ 5 ∷ []) ∷ (6 ∷ 8 ∷ []) ∷ [] }
    ensures statement { visit_nodes (movable_steps shelf shelf_paths shelf_levels (StmtP whole_statement) 0 nothing_held) ≡ 5 ∷ 12 ∷ 18 ∷ 21 ∷ 26 ∷ 28 ∷ [] }
    ensures statements { map (λ s. visit_nodes (movable_steps shelf shelf_paths shelf_levels (StmtP s) 5 nothing_held)) stepping_statements ≡
        (6 ∷ []) ∷ (6 ∷ []) ∷ (6 ∷ 9 ∷ 5 ∷ []) ∷ (6 ∷ []) ∷ (6 ∷ 8 ∷ []) ∷ (6 ∷ []) ∷ [] ∷ (6 ∷ 5 ∷ []) ∷ (6 ∷ 5 ∷ []) ∷ [] ∷ [] }
    ensures greater { map (λ s. visit_nodes (movable_steps shelf shelf_paths shelf_levels (StmtP s) 0 nothing_held)) stepping_branches ≡ (2 ∷ []) ∷ (3 ∷ []) ∷ (2 ∷ []) ∷ (6 ∷ 9 ∷ []) ∷ (1 ∷ 3 ∷ []) ∷ [] }
    ensures its_loops { map (λ v. v.loop) (movable_steps shelf shelf_paths shelf_levels (StmtP (WhileS (GetE ThisE 0) (put_in 0))) 4 nothing_held) ≡ Some 4 ∷ Some 4 ∷ [] }
    ensures locks { visit_nodes (movable_steps shelf shelf_paths shelf_levels (StmtP (SyncS this_path (put_in 1))) 4 nothing_held) ≡ 4 ∷ [] }
    ensures locked { visit_nodes (movable_steps shelf shelf_paths shelf_levels (StmtP (SyncS this_path (put_in 0))) 4 nothing_held) ≡ 5 ∷ [] }
    ensures held { map (λ f. visit_nodes (movable_steps shelf shelf_paths shelf_levels (StmtP (SyncS this_path (put_in f))) 4 this_held)) (1 ∷ 0 ∷ []) ≡ [] ∷ (5 ∷ []) ∷ [] }
    ensures looped { map (λ v. v.loop) (movable_steps shelf shelf_paths shelf_levels (StmtP (WhileS plain (BlockS (and_stmt (SyncS this_path (put_in 1)) (and_stmt (SyncS this_path (put_in 0)) (and_stmt read_all no_stmts)))))) 4 nothing_held) ≡
        Some 4 ∷ Some 4 ∷ Some 4 ∷ Some 4 ∷ Some 4 ∷ [] }
    ensures fields { visit_nodes (movable_steps shelf shelf_paths shelf_levels (ExprP (GetE ThisE 1)) 9 this_held) ≡ [] }
    ensures own { map (λ x. visit_nodes (own_step shelf shelf_paths shelf_levels 3 x nothing_held None)) (StmtP (put_in 0) ∷ StmtP EmptyS ∷ []) ≡ (3 ∷ []) ∷ [] ∷ [] }
{}

/// What each part does by itself, and with its parts.
pub fn what_parts_do()
    ensures expressions { map (λ x. own_of shelf shelf_paths shelf_levels x nothing_held) whole_expression_parts ≡
        Cmpd ∷ Atomic ∷ Const ∷ Const ∷ Const ∷ Const ∷ Mover ∷ Const ∷ Const ∷ Const ∷ Const ∷ Const ∷ Mover ∷ Const ∷ [] }
    ensures statements { map (λ x. own_of shelf shelf_paths shelf_levels x nothing_held) statement_parts ≡
        Const ∷ Mover ∷ Mover ∷ Mover ∷ Mover ∷ Atomic ∷ Mover ∷ Const ∷ Const ∷ Const ∷ Const ∷ Mover ∷ Atomic ∷ Const ∷ Mover ∷ Mover ∷ Const ∷ Mover ∷ Atomic ∷ Const
        ∷ Atomic ∷ Atomic ∷ Const ∷ Const ∷ Mover ∷ Const ∷ Atomic ∷ Mover ∷ Atomic ∷ Mover ∷ Const ∷ [] }
    ensures guarded { map (λ H. own_of shelf shelf_paths shelf_levels (ExprP (GetE ThisE 2)) H) (this_held ∷ nothing_held ∷ []) ≡ Mover ∷ Atomic ∷ [] }
    ensures written { map (λ H. own_of shelf shelf_paths shelf_levels (StmtP (SetFieldS ThisE 2 one)) H) (this_held ∷ nothing_held ∷ []) ≡ Atomic ∷ Error ∷ [] }
    ensures locked { map (λ H. own_of shelf shelf_paths shelf_levels (StmtP (SyncS this_path EmptyS)) H) (this_held ∷ nothing_held ∷ []) ≡ Const ∷ Atomic ∷ [] }
    ensures whole { map (λ x. effect_of_part shelf shelf_paths shelf_levels x nothing_held) (ExprP (BinaryE Add plain read) ∷ StmtP (PrintS plain) ∷ []) ≡ Atomic ∷ Atomic ∷ [] }
{}

/// The lock that would help, by the guard and by the names of a callee's paths.
pub fn which_paths_help()
    ensures reads { map (guard_help false) (guard.Final ∷ guard.Free ∷ guard.Named this_path ∷ guard.Unnamed ∷ guard.WriteNamed this_path ∷ guard.WriteUnnamed ∷ []) ≡ None ∷ None ∷ Some this_path ∷ None ∷ Some this_path ∷ None ∷ [] }
    ensures writes { map (guard_help true) (guard.Final ∷ guard.Free ∷ guard.Named this_path ∷ guard.Unnamed ∷ guard.WriteNamed this_path ∷ guard.WriteUnnamed ∷ []) ≡ None ∷ None ∷ Some this_path ∷ None ∷ None ∷ None ∷ [] }
    ensures names { names_here (Some (path 2 [])) (None ∷ Some (path 3 []) ∷ []) (this_path ∷ path 1 [] ∷ path 2 (3 ∷ []) ∷ []) ≡ path 2 [] ∷ path 3 (3 ∷ []) ∷ [] }
    ensures first { map (λ ps. first_path this_held ps) ([] ∷ (path 2 [] ∷ this_path ∷ []) ∷ (path 2 [] ∷ []) ∷ []) ≡ None ∷ Some this_path ∷ None ∷ [] }
    ensures call { map (λ e. help shelf shelf_paths shelf_levels (ExprP (CallE e 0 no_exprs)) nothing_held) (fixed ∷ made ∷ []) ≡ Some (path 2 []) ∷ None ∷ [] }
    ensures expressions { map (λ x. help shelf shelf_paths shelf_levels x nothing_held) whole_expression_parts ≡ None ∷ None ∷ None ∷ None ∷ None ∷ None ∷ None ∷ None ∷ None ∷ None ∷ None ∷ None ∷ None ∷ None ∷ [] }
    ensures lock { map (λ x. help shelf shelf_paths shelf_levels x nothing_held) (StmtP (SyncS this_path EmptyS) ∷ StmtP (SetFieldS ThisE 1 one) ∷ StmtP (PrintS one) ∷ StmtP EmptyS ∷ []) ≡ Some this_path ∷ Some this_path ∷ None ∷ None ∷ [] }
{}

/// What a list of steps says of the whole.
pub fn what_steps_come_to()
    ensures compound { map is_cmpd (Const ∷ Mover ∷ Atomic ∷ Cmpd ∷ Error ∷ []) ≡ false ∷ false ∷ false ∷ true ∷ false ∷ [] }
    ensures wrong { map is_error (Const ∷ Mover ∷ Atomic ∷ Cmpd ∷ Error ∷ []) ≡ false ∷ false ∷ false ∷ false ∷ true ∷ [] }
    ensures two { map are_two ([] ∷ (write_visit 1 None ∷ []) ∷ (write_visit 1 None ∷ write_visit 2 None ∷ []) ∷ []) ≡ false ∷ false ∷ true ∷ [] }
    ensures looped { map are_looped ((write_visit 1 None ∷ []) ∷ (write_visit 1 None ∷ write_visit 2 (Some 0) ∷ []) ∷ []) ≡ false ∷ true ∷ [] }
    ensures many { map (are_many shelf shelf_paths shelf_levels) ([] ∷ (write_visit 1 None ∷ []) ∷ (write_visit 1 (Some 0) ∷ []) ∷ (call_visit 1 2 ∷ []) ∷ (write_visit 1 None ∷ write_visit 2 None ∷ []) ∷ []) ≡ false ∷ false ∷ true ∷ true ∷ true ∷ [] }
    ensures first { visit_nodes (some_of (first_error shelf shelf_paths shelf_levels (write_visit 1 None ∷ call_visit 2 6 ∷ call_visit 3 6 ∷ []))) ≡ 2 ∷ [] }
    ensures none { visit_nodes (some_of (first_error shelf shelf_paths shelf_levels (write_visit 1 None ∷ []))) ≡ [] }
{}
