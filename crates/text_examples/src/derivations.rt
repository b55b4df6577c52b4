//! The rules of derivations: the word and the parts of each part of a body, the places of a derivation, and the value that each rule gives.
ghost use Rattle.std.specs.Prelude.{◌≡◌, true, false, [], ◌∷◌, map, Some, None, pos};
ghost use Rattle.algebra.specs.declared.basic.Basic.TheVariants.{Const, Mover, Atomic, Cmpd, Error};
ghost use Rattle.core_program.specs.declared.types.CoreOp.TheVariants.{Add};
ghost use Rattle.core_program.specs.declared.types.CoreType.TheVariants as type;
ghost use Rattle.core_program.specs.Core.{IntE, TruthE, NullE, ThisE, VarE, NotE, NegE, BinaryE, AndE, OrE, GetE, CallE, NewE, no_exprs, and_expr};
ghost use Rattle.core_program.specs.Core.{EmptyS, BlockS, LocalS, SetVarS, SetFieldS, DoS, IfS, WhileS, SyncS, ReturnS, PrintS, StartS, no_stmts, and_stmt};
ghost use Rattle.core_program.specs.Examples.{this_path, put_seven};
ghost use Rattle.books.specs.declared.word.Word.TheVariants as w;
ghost use Rattle.books.specs.Derivations.{node, no_nodes, and_node};
ghost use Rattle.effects.specs.Parts.{ExprP, StmtP, parts_of};
ghost use Rattle.book_check.specs.Parts.{node_word, places, places_of};
ghost use Rattle.effects.specs.Rules.{in_sequence, choice_value, loop_value, lock_value, block_value, expr_rule, stmt_rule, rule_of};
ghost use Rattle.book_check.specs.Conclusions.{tree_value, table_value, conclusions};
ghost use Rattle.book_check.specs.Judges.{number_value, named_set, name_before_local, own_name, call_name};
ghost use Rattle.book_check.specs.Good.{line_value, book_assignment, rule_at};
ghost use Rattle.book_check.specs.Conclusions.{tests_only, tree_numbered};
ghost use Rattle.conditions.specs.Conditions.{LeafC, TestC};
ghost use Rattle.core_examples.specs.Seen.{four_fields};
ghost use Rattle.core_examples.specs.Bodies.{nothing_held, this_held, one_path, mover_under, with_required, this_relevant, both_relevant, all_movers, by_locks};
ghost use Rattle.core_examples.specs.Small.{one, two};
ghost use Rattle.core_examples.specs.Fields.{path};
ghost use Rattle.text_examples.specs.Premises.{con, mov, ato, two_arguments, two_statements, expressions, statements, mover_under_this, table, leaf_node, sync_put_node, sync_node, part_at_node};

/// The word of each part.
pub fn which_words_parts_have()
    ensures expressions { map node_word expressions ≡ w.Lit ∷ w.Lit ∷ w.Lit ∷ w.This ∷ w.Var ∷ w.Un ∷ w.Un ∷ w.Bin ∷ w.And ∷ w.Or ∷ w.Get ∷ w.Call ∷ w.New ∷ [] }
    ensures statements { map node_word statements ≡ w.Skip ∷ w.Block ∷ w.Local ∷ w.Set ∷ w.Put ∷ w.Do ∷ w.If ∷ w.While ∷ w.Sync ∷ w.Return ∷ w.Return ∷ w.Print ∷ w.Start ∷ [] }
{}

/// The parts of each part that the premises stand for.
pub fn which_parts_parts_have()
    ensures expressions { map parts_of expressions ≡ [] ∷ [] ∷ [] ∷ [] ∷ [] ∷ (ExprP one ∷ []) ∷ (ExprP one ∷ []) ∷ (ExprP one ∷ ExprP two ∷ []) ∷ (ExprP one ∷ ExprP two ∷ []) ∷ (ExprP one ∷ ExprP two ∷ [])
        ∷ (ExprP one ∷ []) ∷ (ExprP ThisE ∷ ExprP one ∷ ExprP two ∷ []) ∷ (ExprP one ∷ ExprP two ∷ []) ∷ [] }
    ensures statements { map parts_of statements ≡ [] ∷ (StmtP EmptyS ∷ StmtP (PrintS one) ∷ []) ∷ (ExprP one ∷ []) ∷ (ExprP one ∷ []) ∷ (ExprP one ∷ ExprP two ∷ []) ∷ (ExprP one ∷ [])
        ∷ (ExprP one ∷ StmtP EmptyS ∷ StmtP (PrintS two) ∷ []) ∷ (ExprP one ∷ StmtP EmptyS ∷ []) ∷ (StmtP EmptyS ∷ []) ∷ (ExprP one ∷ []) ∷ [] ∷ (ExprP one ∷ []) ∷ (ExprP one ∷ []) ∷ [] }
{}

/// The places of a derivation, in the order in which its nodes are written; where parts or nodes are missing, there is no place.
pub fn which_places_derivations_have()
    ensures leaf { places (ExprP one) leaf_node ≡ part_at_node (ExprP one) leaf_node ∷ [] }
    ensures inner { places (StmtP (SyncS this_path put_seven)) sync_node ≡ part_at_node (StmtP (SyncS this_path put_seven)) sync_node ∷ part_at_node (StmtP put_seven) sync_put_node
        ∷ part_at_node (ExprP ThisE) (node w.This 1 no_nodes) ∷ part_at_node (ExprP (IntE (pos 7))) leaf_node ∷ [] }
    ensures no_part { places_of [] (and_node leaf_node no_nodes) ≡ [] }
    ensures no_node { places_of (ExprP one ∷ []) no_nodes ≡ [] }
{}

/// How rules join the values of premises.
pub fn what_premises_come_to()
    ensures none { in_sequence [] nothing_held ≡ Const }
    ensures one_after_the_other { in_sequence (mov ∷ ato ∷ []) nothing_held ≡ Atomic }
    ensures two_atomic { in_sequence (ato ∷ con ∷ ato ∷ []) nothing_held ≡ Cmpd }
    ensures there { in_sequence (mover_under this_path ∷ []) this_held ≡ Mover }
    ensures elsewhere { in_sequence (mover_under this_path ∷ []) nothing_held ≡ Error }
    ensures first_branch { choice_value (con ∷ ato ∷ mov ∷ []) nothing_held ≡ Atomic }
    ensures second_branch { choice_value (con ∷ mov ∷ ato ∷ []) nothing_held ≡ Atomic }
    ensures after_the_condition { choice_value (ato ∷ ato ∷ con ∷ []) nothing_held ≡ Cmpd }
    ensures before_the_second { choice_value (ato ∷ con ∷ ato ∷ []) nothing_held ≡ Cmpd }
    ensures both_at_most { choice_value (con ∷ ato ∷ ato ∷ []) nothing_held ≡ Atomic }
    ensures too_few { choice_value (ato ∷ ato ∷ []) nothing_held ≡ Const }
    ensures movers_again { loop_value (con ∷ mov ∷ []) nothing_held ≡ Mover }
    ensures atomic_again { loop_value (con ∷ ato ∷ []) nothing_held ≡ Cmpd }
    ensures condition_again { loop_value (ato ∷ con ∷ []) nothing_held ≡ Cmpd }
    ensures no_body { loop_value (ato ∷ []) nothing_held ≡ Const }
    ensures lock_taken { lock_value this_path (mover_under this_path ∷ []) nothing_held ≡ Atomic }
    ensures lock_held { lock_value this_path (mover_under this_path ∷ []) this_held ≡ Mover }
    ensures another_lock { lock_value one_path (mover_under this_path ∷ []) nothing_held ≡ Error }
    ensures no_premise { lock_value this_path [] nothing_held ≡ Const }
    ensures block { block_value four_fields two_statements (mov ∷ ato ∷ []) nothing_held ≡ Atomic }
    ensures block_in_order { block_value four_fields two_statements (ato ∷ ato ∷ []) nothing_held ≡ Cmpd }
    ensures less_values { block_value four_fields two_statements (mov ∷ []) nothing_held ≡ Mover }
    ensures less_statements { block_value four_fields no_stmts (ato ∷ []) nothing_held ≡ Const }
    ensures behind_a_local { block_value four_fields (and_stmt (LocalS 1 true (type.Class 0) ThisE) (and_stmt EmptyS no_stmts)) (mov ∷ mover_under one_path ∷ []) this_held ≡ Mover }
    ensures before_a_local { block_value four_fields (and_stmt (LocalS 1 true (type.Class 0) ThisE) (and_stmt EmptyS no_stmts)) (mover_under one_path ∷ con ∷ []) this_held ≡ Error }
{}

/// The rule of each expression.
pub fn what_rules_of_expressions_give()
    ensures without_parts { map (λ e. expr_rule four_fields this_relevant all_movers e (ato ∷ []) nothing_held) (one ∷ TruthE true ∷ NullE ∷ ThisE ∷ VarE 1 true type.Int ∷ VarE 1 false type.Int ∷ [])
        ≡ Const ∷ Const ∷ Const ∷ Const ∷ Const ∷ Mover ∷ [] }
    ensures in_sequence { map (λ e. expr_rule four_fields this_relevant all_movers e (ato ∷ ato ∷ []) nothing_held) (NotE one ∷ NegE one ∷ BinaryE Add one two ∷ AndE one two ∷ OrE one two ∷ [])
        ≡ Cmpd ∷ Cmpd ∷ Cmpd ∷ Cmpd ∷ Cmpd ∷ [] }
    ensures field { expr_rule four_fields this_relevant all_movers (GetE ThisE 2) (con ∷ []) this_held ≡ Mover }
    ensures field_elsewhere { expr_rule four_fields this_relevant all_movers (GetE ThisE 2) (con ∷ []) nothing_held ≡ Error }
    ensures read { expr_rule four_fields this_relevant all_movers (GetE ThisE 3) (con ∷ []) this_held ≡ Mover }
    ensures after_the_object { expr_rule four_fields this_relevant all_movers (GetE ThisE 1) (ato ∷ []) nothing_held ≡ Cmpd }
    ensures call { expr_rule four_fields both_relevant by_locks (CallE ThisE 0 two_arguments) (con ∷ con ∷ con ∷ []) this_held ≡ Mover }
    ensures call_by_argument { expr_rule four_fields both_relevant by_locks (CallE one 0 (and_expr ThisE no_exprs)) (con ∷ con ∷ []) this_held ≡ Atomic }
    ensures after_the_arguments { expr_rule four_fields this_relevant all_movers (CallE ThisE 0 two_arguments) (con ∷ ato ∷ con ∷ []) nothing_held ≡ Atomic }
    ensures not_required { expr_rule with_required this_relevant all_movers (CallE ThisE 0 no_exprs) (con ∷ []) nothing_held ≡ Error }
    ensures made { expr_rule four_fields this_relevant all_movers (NewE 0 no_exprs) [] nothing_held ≡ Mover }
    ensures made_after { expr_rule four_fields this_relevant all_movers (NewE 0 two_arguments) (ato ∷ con ∷ []) nothing_held ≡ Atomic }
    ensures rule { rule_of four_fields this_relevant all_movers (ExprP (NotE one)) (ato ∷ []) nothing_held ≡ Atomic }
{}

/// The rule of each statement.
pub fn what_rules_of_statements_give()
    ensures empty { stmt_rule four_fields this_relevant all_movers EmptyS (ato ∷ []) nothing_held ≡ Const }
    ensures block { stmt_rule four_fields this_relevant all_movers (BlockS two_statements) (ato ∷ ato ∷ []) nothing_held ≡ Cmpd }
    ensures local { map (λ v. stmt_rule four_fields this_relevant all_movers (LocalS 1 true type.Int one) (v ∷ []) nothing_held) (con ∷ ato ∷ []) ≡ Mover ∷ Atomic ∷ [] }
    ensures assigned { map (λ v. stmt_rule four_fields this_relevant all_movers (SetVarS 1 one) (v ∷ []) nothing_held) (con ∷ ato ∷ []) ≡ Mover ∷ Atomic ∷ [] }
    ensures written { stmt_rule four_fields this_relevant all_movers (SetFieldS ThisE 3 one) (con ∷ con ∷ []) this_held ≡ Atomic }
    ensures written_elsewhere { stmt_rule four_fields this_relevant all_movers (SetFieldS ThisE 3 one) (con ∷ con ∷ []) nothing_held ≡ Error }
    ensures written_after { stmt_rule four_fields this_relevant all_movers (SetFieldS ThisE 1 one) (con ∷ ato ∷ []) nothing_held ≡ Cmpd }
    ensures done { stmt_rule four_fields this_relevant all_movers (DoS one true) (ato ∷ []) nothing_held ≡ Atomic }
    ensures branches { stmt_rule four_fields this_relevant all_movers (IfS one EmptyS EmptyS) (ato ∷ con ∷ ato ∷ []) nothing_held ≡ Cmpd }
    ensures branches_at_most { stmt_rule four_fields this_relevant all_movers (IfS one EmptyS EmptyS) (con ∷ ato ∷ ato ∷ []) nothing_held ≡ Atomic }
    ensures repeated { stmt_rule four_fields this_relevant all_movers (WhileS one EmptyS) (con ∷ ato ∷ []) nothing_held ≡ Cmpd }
    ensures locked { stmt_rule four_fields this_relevant all_movers (SyncS this_path EmptyS) (mover_under this_path ∷ []) nothing_held ≡ Atomic }
    ensures returned { stmt_rule four_fields this_relevant all_movers (ReturnS (Some one)) (ato ∷ []) nothing_held ≡ Atomic }
    ensures returned_nothing { stmt_rule four_fields this_relevant all_movers (ReturnS None) [] nothing_held ≡ Const }
    ensures printed { map (λ v. stmt_rule four_fields this_relevant all_movers (PrintS one) (v ∷ []) nothing_held) (con ∷ ato ∷ []) ≡ Atomic ∷ Cmpd ∷ [] }
    ensures started { map (λ v. stmt_rule four_fields this_relevant all_movers (StartS one) (v ∷ []) nothing_held) (con ∷ ato ∷ []) ≡ Atomic ∷ Cmpd ∷ [] }
    ensures rule { rule_of four_fields this_relevant all_movers (StmtP (PrintS one)) (con ∷ []) nothing_held ≡ Atomic }
{}

/// What numbers of trees are worth, and what nodes conclude.
pub fn what_nodes_conclude()
    ensures tree { map (tree_value (Some mover_under_this)) (nothing_held ∷ this_held ∷ []) ≡ Atomic ∷ Mover ∷ [] }
    ensures no_tree { tree_value None nothing_held ≡ Const }
    ensures number { map (λ n. table_value table n nothing_held) (0 ∷ 1 ∷ 2 ∷ []) ≡ Atomic ∷ Const ∷ Const ∷ [] }
    ensures premises { map (λ v. v nothing_held) (conclusions (table_value table) (and_node leaf_node (and_node sync_put_node no_nodes))) ≡ Const ∷ Atomic ∷ [] }
    ensures by_number { map (λ n. number_value table n nothing_held) (None ∷ Some 0 ∷ []) ≡ Const ∷ Atomic ∷ [] }
    ensures by_line { map (λ l. line_value table l nothing_held) (None ∷ Some (record { id = 3; number = 0; body = leaf_node }) ∷ []) ≡ Const ∷ Atomic ∷ [] }
    ensures assigned { map (λ m. book_assignment (record { table = table; lines = record { id = 0; number = 1; body = leaf_node } ∷ record { id = 1; number = 0; body = leaf_node } ∷ [] }) m nothing_held) (0 ∷ 1 ∷ 2 ∷ [])
        ≡ Const ∷ Atomic ∷ Const ∷ [] }
    ensures at_a_place { rule_at four_fields this_relevant (table_value table) all_movers (part_at_node (StmtP (SetFieldS ThisE 1 one)) sync_put_node) nothing_held ≡ Atomic }
    ensures trees { tree_numbered None ∷ tree_numbered (Some mover_under_this) ∷ [] ≡ LeafC Const ∷ mover_under_this ∷ [] }
{}

/// Which paths a tree tests, and under which names.
pub fn which_paths_are_tested()
    ensures leaf { tests_only [] (LeafC Error) ≡ true }
    ensures relevant { tests_only (this_path ∷ []) mover_under_this ≡ true }
    ensures not_relevant { tests_only (one_path ∷ []) mover_under_this ≡ false }
    ensures in_a_branch { tests_only (this_path ∷ []) (TestC this_path (TestC one_path (LeafC Const) (LeafC Mover)) (LeafC Error)) ≡ false }
    ensures in_the_other_branch { tests_only (this_path ∷ []) (TestC this_path (LeafC Error) (TestC one_path (LeafC Const) (LeafC Mover))) ≡ false }
    ensures of_a_local { map (name_before_local 1 (Some (path 0 (4 ∷ [])))) (one_path ∷ path 1 (5 ∷ []) ∷ path 1 (5 ∷ 6 ∷ []) ∷ this_path ∷ [])
        ≡ Some (path 0 (4 ∷ [])) ∷ Some (path 0 (4 ∷ 5 ∷ [])) ∷ None ∷ Some this_path ∷ [] }
    ensures of_a_local_without_path { map (name_before_local 1 None) (one_path ∷ this_path ∷ []) ≡ None ∷ Some this_path ∷ [] }
    ensures own { map (own_name (one_path ∷ [])) (one_path ∷ this_path ∷ []) ≡ Some one_path ∷ None ∷ [] }
    ensures of_a_callee { map (call_name (one_path ∷ this_path ∷ []) (Some (path 3 [])) (Some (path 4 []) ∷ [])) (this_path ∷ one_path ∷ path 1 (2 ∷ []) ∷ []) ≡ Some (path 3 []) ∷ Some (path 4 []) ∷ None ∷ [] }
    ensures named { map (named_set (own_name (this_path ∷ [])) this_held) (this_path ∷ one_path ∷ []) ≡ true ∷ false ∷ [] }
    ensures named_otherwise { map (named_set (name_before_local 1 (Some this_path)) this_held) (this_path ∷ one_path ∷ path 2 [] ∷ []) ≡ true ∷ true ∷ false ∷ [] }
{}
