//! What the parts of a body are at sets of held paths.
ghost use Rattle.std.specs.Prelude.{◌≡◌, pos, true, false, [], ◌∷◌, Some, None};
ghost use Rattle.algebra.specs.declared.basic.Basic.TheVariants.{Const, Mover, Atomic, Cmpd, Error};
ghost use Rattle.core_program.specs.declared.types.CoreOp.TheVariants.{Add};
ghost use Rattle.core_program.specs.declared.types.CoreType.TheVariants as type;
ghost use Rattle.core_program.specs.Core.{IntE, TruthE, NullE, ThisE, NotE, NegE, BinaryE, AndE, OrE, NewE, no_exprs, and_expr, EmptyS, BlockS, LocalS, SetVarS, DoS, IfS, WhileS, SyncS, ReturnS, PrintS, StartS, no_stmts, and_stmt, GetE, CallE, SetFieldS};
ghost use Rattle.algebra.specs.HeldPaths.{has_path};
ghost use Rattle.core_program.specs.Examples.{this_path};
ghost use Rattle.rules.specs.declared.guard.Guard.TheVariants.{Unnamed, WriteUnnamed};
ghost use Rattle.rules.specs.Effect.{access_effect, call_of, after_local, after_stmt, expr_effect, effect, block_effect};
ghost use Rattle.core_examples.specs.Seen.{four_fields};
ghost use Rattle.core_examples.specs.Fields.{path, nodes, node_type, of_this};
ghost use Rattle.core_examples.specs.Bodies.{nothing_held, this_held, one_path, with_required, this_relevant, both_relevant, by_locks, with_required_parameter, all_movers, read_of, write_of, plain_local, final_local, call_first_on};

/// Reads and writes of fields: final, unguarded, guarded, guarded for writing only, and with a guard that has no path here.
pub fn what_accesses_are()
    ensures final_read { expr_effect four_fields this_relevant all_movers (read_of 0) nothing_held ≡ Const }
    ensures free_read { expr_effect four_fields this_relevant all_movers (read_of 1) nothing_held ≡ Atomic }
    ensures free_write { effect four_fields this_relevant all_movers (write_of 1) this_held ≡ Atomic }
    ensures guarded_read { expr_effect four_fields this_relevant all_movers (read_of 2) this_held ≡ Mover }
    ensures guarded_read_without { expr_effect four_fields this_relevant all_movers (read_of 2) nothing_held ≡ Error }
    ensures guarded_write { effect four_fields this_relevant all_movers (write_of 2) this_held ≡ Mover }
    ensures guarded_write_without { effect four_fields this_relevant all_movers (write_of 2) nothing_held ≡ Error }
    ensures write_guarded_read { expr_effect four_fields this_relevant all_movers (read_of 3) this_held ≡ Mover }
    ensures write_guarded_read_without { expr_effect four_fields this_relevant all_movers (read_of 3) nothing_held ≡ Atomic }
    ensures write_guarded_write { effect four_fields this_relevant all_movers (write_of 3) this_held ≡ Atomic }
    ensures write_guarded_write_without { effect four_fields this_relevant all_movers (write_of 3) nothing_held ≡ Error }
    ensures unnamed_guard { access_effect false Unnamed this_held ≡ Error }
    ensures unnamed_write_guard_read { access_effect false WriteUnnamed this_held ≡ Atomic }
    ensures unnamed_write_guard_write { access_effect true WriteUnnamed this_held ≡ Error }
{}

/// Expressions: each is its parts in sequence, from left to right, and then what it does itself.
pub fn what_expressions_are()
    ensures number { expr_effect four_fields this_relevant all_movers (IntE (pos 1)) nothing_held ≡ Const }
    ensures truth { expr_effect four_fields this_relevant all_movers (TruthE true) nothing_held ≡ Const }
    ensures null { expr_effect four_fields this_relevant all_movers NullE nothing_held ≡ Const }
    ensures this { expr_effect four_fields this_relevant all_movers ThisE nothing_held ≡ Const }
    ensures plain { expr_effect four_fields this_relevant all_movers plain_local nothing_held ≡ Mover }
    ensures final_one { expr_effect four_fields this_relevant all_movers final_local nothing_held ≡ Const }
    ensures negated { expr_effect four_fields this_relevant all_movers (NegE (read_of 1)) nothing_held ≡ Atomic }
    ensures opposite { expr_effect four_fields this_relevant all_movers (NotE (read_of 1)) nothing_held ≡ Atomic }
    ensures sum { expr_effect four_fields this_relevant all_movers (BinaryE Add (read_of 1) (read_of 1)) nothing_held ≡ Cmpd }
    ensures left_of_sum { expr_effect four_fields this_relevant all_movers (BinaryE Add (read_of 1) plain_local) nothing_held ≡ Atomic }
    ensures right_of_sum { expr_effect four_fields this_relevant all_movers (BinaryE Add plain_local (read_of 1)) nothing_held ≡ Atomic }
    ensures both { expr_effect four_fields this_relevant all_movers (AndE plain_local (read_of 1)) nothing_held ≡ Atomic }
    ensures either { expr_effect four_fields this_relevant all_movers (OrE (read_of 1) (read_of 1)) nothing_held ≡ Cmpd }
    ensures left_of_or { expr_effect four_fields this_relevant all_movers (OrE (read_of 1) plain_local) nothing_held ≡ Atomic }
    ensures right_of_or { expr_effect four_fields this_relevant all_movers (OrE plain_local (read_of 1)) nothing_held ≡ Atomic }
    ensures new_object { expr_effect four_fields this_relevant all_movers (NewE 0 no_exprs) nothing_held ≡ Mover }
    ensures new_object_of_a_read { expr_effect four_fields this_relevant all_movers (NewE 0 (and_expr (read_of 1) no_exprs)) nothing_held ≡ Atomic }
    ensures receiver_first { expr_effect four_fields this_relevant all_movers (GetE (read_of 1) 1) nothing_held ≡ Cmpd }
    ensures both_of_and { expr_effect four_fields this_relevant all_movers (AndE (read_of 1) (read_of 1)) nothing_held ≡ Cmpd }
    ensures left_of_and { expr_effect four_fields this_relevant all_movers (AndE (read_of 1) plain_local) nothing_held ≡ Atomic }
    ensures new_object_of_two_reads { expr_effect four_fields this_relevant all_movers (NewE 0 (and_expr (read_of 1) (and_expr (read_of 1) no_exprs))) nothing_held ≡ Cmpd }
    ensures call_on_a_read { expr_effect four_fields this_relevant all_movers (call_first_on (read_of 1)) nothing_held ≡ Atomic }
    ensures call_with_a_read { expr_effect four_fields this_relevant all_movers (CallE ThisE 0 (and_expr (read_of 1) no_exprs)) nothing_held ≡ Atomic }
    ensures call_on_a_read_with_one { expr_effect four_fields this_relevant all_movers (CallE (read_of 1) 0 (and_expr (read_of 1) no_exprs)) nothing_held ≡ Cmpd }
    ensures call_of_const { expr_effect four_fields this_relevant (λ m H. Const) (call_first_on ThisE) nothing_held ≡ Const }
    ensures call { expr_effect with_required this_relevant all_movers (call_first_on ThisE) this_held ≡ Mover }
    ensures call_without { expr_effect with_required this_relevant all_movers (call_first_on ThisE) nothing_held ≡ Error }
    ensures call_on_no_lock { expr_effect with_required this_relevant all_movers (call_first_on plain_local) this_held ≡ Error }
{}

/// Statements: branches are joined, a loop is its body any number of times, and a lock that isn't held is taken and given back.
pub fn what_statements_are()
    ensures empty { effect four_fields this_relevant all_movers EmptyS nothing_held ≡ Const }
    ensures empty_block { effect four_fields this_relevant all_movers (BlockS no_stmts) nothing_held ≡ Const }
    ensures local { effect four_fields this_relevant all_movers (LocalS 1 false type.Int (IntE (pos 1))) nothing_held ≡ Mover }
    ensures assigned { effect four_fields this_relevant all_movers (SetVarS 1 (read_of 1)) nothing_held ≡ Atomic }
    ensures local_of_a_read { effect four_fields this_relevant all_movers (LocalS 1 true type.Int (read_of 1)) nothing_held ≡ Atomic }
    ensures assigned_a_number { effect four_fields this_relevant all_movers (SetVarS 1 (IntE (pos 1))) nothing_held ≡ Mover }
    ensures field_of_a_read { effect four_fields this_relevant all_movers (SetFieldS (read_of 1) 1 (IntE (pos 1))) nothing_held ≡ Cmpd }
    ensures field_to_a_read { effect four_fields this_relevant all_movers (SetFieldS ThisE 1 (read_of 1)) nothing_held ≡ Cmpd }
    ensures done { effect four_fields this_relevant all_movers (DoS (read_of 1) true) nothing_held ≡ Atomic }
    ensures first_branch { effect four_fields this_relevant all_movers (IfS (TruthE true) (write_of 1) EmptyS) nothing_held ≡ Atomic }
    ensures second_branch { effect four_fields this_relevant all_movers (IfS (TruthE true) EmptyS (write_of 1)) nothing_held ≡ Atomic }
    ensures condition { effect four_fields this_relevant all_movers (IfS (read_of 1) EmptyS (write_of 1)) nothing_held ≡ Cmpd }
    ensures loop_of_movers { effect four_fields this_relevant all_movers (WhileS plain_local EmptyS) nothing_held ≡ Mover }
    ensures loop_of_steps { effect four_fields this_relevant all_movers (WhileS plain_local (write_of 1)) nothing_held ≡ Cmpd }
    ensures loop_condition { effect four_fields this_relevant all_movers (WhileS (read_of 1) EmptyS) nothing_held ≡ Cmpd }
    ensures taken { effect four_fields this_relevant all_movers (SyncS this_path (write_of 2)) nothing_held ≡ Atomic }
    ensures held_already { effect four_fields this_relevant all_movers (SyncS this_path (write_of 2)) this_held ≡ Mover }
    ensures two_under_a_lock { effect four_fields this_relevant all_movers (SyncS this_path (BlockS (and_stmt (write_of 1) (and_stmt (write_of 1) no_stmts)))) nothing_held ≡ Cmpd }
    ensures two_locks { effect four_fields this_relevant all_movers (BlockS (and_stmt (SyncS this_path EmptyS) (and_stmt (SyncS this_path EmptyS) no_stmts))) nothing_held ≡ Cmpd }
    ensures second_name { effect four_fields this_relevant all_movers (BlockS (and_stmt (LocalS 1 true (type.Class 0) ThisE) (and_stmt (SyncS one_path EmptyS) no_stmts))) this_held ≡ Mover }
    ensures no_second_name { effect four_fields this_relevant all_movers (BlockS (and_stmt (LocalS 1 true (type.Class 0) NullE) (and_stmt (SyncS one_path EmptyS) no_stmts))) this_held ≡ Atomic }
    ensures returned { effect four_fields this_relevant all_movers (ReturnS (Some (read_of 1))) nothing_held ≡ Atomic }
    ensures returned_nothing { effect four_fields this_relevant all_movers (ReturnS None) nothing_held ≡ Const }
    ensures printed { effect four_fields this_relevant all_movers (PrintS (IntE (pos 1))) this_held ≡ Atomic }
    ensures printed_read { effect four_fields this_relevant all_movers (PrintS (read_of 1)) this_held ≡ Cmpd }
    ensures started_local { effect four_fields this_relevant all_movers (StartS final_local) this_held ≡ Atomic }
    ensures started { effect four_fields this_relevant all_movers (StartS (read_of 1)) this_held ≡ Cmpd }
{}

/// A guard that leads through a field is the lock of the object there, also behind a longer receiver.
pub fn what_longer_guards_are()
    ensures held { expr_effect nodes this_relevant all_movers (of_this 5) (has_path (path 0 (0 ∷ []) ∷ [])) ≡ Mover }
    ensures of_another { expr_effect nodes this_relevant all_movers (of_this 5) this_held ≡ Error }
    ensures behind_a_field { effect nodes this_relevant all_movers (SetFieldS (of_this 3) 4 (IntE (pos 1))) (has_path (path 0 (3 ∷ []) ∷ [])) ≡ Mover }
    ensures too_long { expr_effect nodes this_relevant all_movers (GetE (of_this 3) 7) (λ p. true) ≡ Error }
    ensures writes_too_long { expr_effect nodes this_relevant all_movers (GetE (GetE (of_this 3) 0) 6) (λ p. true) ≡ Atomic }
    ensures written_too_long { effect nodes this_relevant all_movers (SetFieldS (GetE (of_this 3) 0) 6 (IntE (pos 1))) (λ p. true) ≡ Error }
{}

/// A callee begins with those of its relevant paths whose names here are held, and with no other.
pub fn what_a_callee_finds_held()
    ensures receiver { call_of nodes both_relevant by_locks 0 (Some (path 3 (0 ∷ []))) (Some (path 4 []) ∷ []) (has_path (path 3 (0 ∷ []) ∷ [])) ≡ Mover }
    ensures argument { call_of nodes both_relevant by_locks 0 (Some (path 3 (0 ∷ []))) (Some (path 4 []) ∷ []) (has_path (path 4 [] ∷ [])) ≡ Atomic }
    ensures both { call_of nodes both_relevant by_locks 0 (Some (path 3 (0 ∷ []))) (Some (path 4 []) ∷ []) (has_path (path 4 [] ∷ path 3 (0 ∷ []) ∷ [])) ≡ Const }
    ensures neither { call_of nodes both_relevant by_locks 0 (Some (path 3 (0 ∷ []))) (Some (path 4 []) ∷ []) nothing_held ≡ Cmpd }
    ensures no_names { call_of nodes both_relevant by_locks 0 None (None ∷ []) (λ p. true) ≡ Cmpd }
    ensures not_relevant { call_of nodes this_relevant by_locks 0 (Some (path 3 [])) (Some (path 4 []) ∷ []) (λ p. true) ≡ Mover }
    ensures another_method { call_of nodes both_relevant by_locks 1 (Some (path 3 [])) (Some (path 4 []) ∷ []) (λ p. true) ≡ Error }
    ensures required_of_an_argument { call_of with_required_parameter both_relevant by_locks 0 None (Some (path 4 []) ∷ []) (has_path (path 4 [] ∷ [])) ≡ Atomic }
    ensures required_and_missing { call_of with_required_parameter both_relevant by_locks 0 (Some (path 4 [])) (None ∷ []) (λ p. true) ≡ Error }
    ensures of_an_expression { expr_effect nodes both_relevant by_locks (CallE (of_this 0) 0 (and_expr (of_this 3) no_exprs)) (has_path (path 0 (3 ∷ []) ∷ [])) ≡ Atomic }
{}

/// A final local is a second name of its value: with every path behind it, and in the place of what the slot named before.
pub fn what_second_names_hold()
    ensures itself { after_local (has_path (path 2 [] ∷ [])) 5 (Some (path 2 [])) (path 5 []) ≡ true }
    ensures behind { after_local (has_path (path 2 (3 ∷ []) ∷ [])) 5 (Some (path 2 [])) (path 5 (3 ∷ [])) ≡ true }
    ensures behind_a_longer_one { after_local (has_path (path 2 (3 ∷ 0 ∷ []) ∷ [])) 5 (Some (path 2 (3 ∷ []))) (path 5 (0 ∷ [])) ≡ true }
    ensures not_behind { after_local (has_path (path 2 [] ∷ [])) 5 (Some (path 2 [])) (path 5 (3 ∷ [])) ≡ false }
    ensures too_long { after_local (λ p. true) 5 (Some (path 2 (3 ∷ []))) (path 5 (0 ∷ 0 ∷ [])) ≡ false }
    ensures no_longer { after_local (has_path (path 5 [] ∷ [])) 5 (Some (path 2 [])) (path 5 []) ≡ false }
    ensures without_value { after_local (has_path (path 5 [] ∷ [])) 5 None (path 5 []) ≡ false }
    ensures first_name { after_local (has_path (path 2 [] ∷ [])) 5 (Some (path 2 [])) (path 2 []) ≡ true }
    ensures others { after_local (has_path (path 2 [] ∷ [])) 5 None (path 2 []) ≡ true }
    ensures declared { after_stmt nodes (LocalS 5 true node_type (of_this 0)) (has_path (path 0 (0 ∷ []) ∷ [])) (path 5 []) ≡ true }
    ensures plain { after_stmt nodes (LocalS 5 false node_type (of_this 0)) (has_path (path 0 (0 ∷ []) ∷ [])) (path 5 []) ≡ false }
    ensures other_statement { after_stmt nodes (SetVarS 5 (of_this 0)) (has_path (path 5 [] ∷ [])) (path 5 []) ≡ true }
    ensures behind_a_block { block_effect nodes this_relevant all_movers (and_stmt (BlockS (and_stmt (LocalS 5 true node_type ThisE) no_stmts)) (and_stmt (SyncS (path 5 []) EmptyS) no_stmts)) this_held ≡ Atomic }
{}
