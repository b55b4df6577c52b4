//! Statements: the core node of each, its faults, scopes, and what can complete.
ghost use Rattle.std.specs.Prelude.{◌≡◌, pos, true, false, [], ◌∷◌, map, Some, None, codes};
ghost use Rattle.core_program.specs.declared.types.CoreType.TheVariants as T;
ghost use Rattle.core_program.specs.Core as core;
ghost use Rattle.syntax.specs.declared.tree.TypeName.TheVariants as Y;
ghost use Rattle.syntax.specs.Trees.{NumberE, TruthE, NullE, ThisE, ParenE, NotE, EmptyS, BlockS, LocalS, SetVarS, SetFieldS, DoS, IfS, IfElseS, WhileS, SyncS, ReturnS, PrintS, StartS, no_stmts, more_stmts, no_exprs};
ghost use Rattle.typing.specs.declared.fault.TypeFault.TheVariants.{UnknownName, NoRule, FinalAssigned, NotALock, MissingReturn, Unreachable, TooManyLocals, Redeclared, NoMemory};
ghost use Rattle.typing.specs.Completion.{completes, completes_each, locals_in, locals_in_each};
ghost use Rattle.typing.specs.Faults.{type_fault_offset, type_fault_rank};
ghost use Rattle.typing.specs.Stmts.{stmt_core, stmt_faults, block_faults, counts_runnable, return_faults, declared_type, scope_after};
ghost use Rattle.front_examples.specs.Written.{name, class_type_name, x, variable_at, this_lock, lock_tree, one_expr, one_stmt};
ghost use Rattle.front_examples.specs.Shop.{shop_table, in_scope};
ghost use Rattle.front_examples.specs.Knots.{core_path};
ghost use Rattle.front_examples.specs.Typing.{stmt_at, stmt_faults_at, block_at, block_faults_at, var_n, var_b, var_r, var_i, n_core, b_core, r_core, method_call_tree, new_of, local_y, y_at, sold, sold_core, twin_left, twin_left_core, block_y, block_y_at};
ghost use Rattle.front_examples.specs.Whole.{jobs_table};

/// A local has the next slot, and a value that fits its type; it is one of at most 64, and has a name that isn't in scope.
pub fn what_locals_are()
    ensures final_one { stmt_at None (LocalS true Y.Int (name (codes "y") 5) (NumberE 7 8) 51) ≡ Some (core.LocalS 8 true T.Int (core.IntE (pos 7))) }
    ensures plain_one { stmt_at None (LocalS false Y.Boolean (name (codes "y") 5) (var_b 8) 51) ≡ Some (core.LocalS 8 false T.Boolean b_core) }
    ensures of_a_class_above { stmt_at None (LocalS false (class_type_name (codes "Item") 2) (name (codes "y") 5) (var_r 8) 51) ≡ Some (core.LocalS 8 false (T.Class 0) r_core) }
    ensures of_a_class_below { stmt_faults_at None (LocalS false (class_type_name (codes "Rare") 2) (name (codes "y") 5) (var_i 8) 51) ≡ NoRule 5 ∷ [] }
    ensures void_value { stmt_faults_at None (LocalS false Y.Int (name (codes "y") 5) (method_call_tree (var_r 8) (codes "log") no_exprs) 51) ≡ NoRule 5 ∷ [] }
    ensures unknown_type { stmt_faults_at None (LocalS false (class_type_name (codes "X") 2) (name (codes "y") 5) (var_r 8) 51) ≡ UnknownName 2 ∷ [] }
    ensures unknown_value { stmt_faults_at None (LocalS false Y.Int (name (codes "y") 5) x 51) ≡ UnknownName 9 ∷ [] }
    ensures both_unknown { stmt_faults_at None (LocalS false (class_type_name (codes "X") 2) (name (codes "y") 5) x 51) ≡ UnknownName 2 ∷ UnknownName 9 ∷ [] }
    ensures its_own_name { stmt_faults_at None (LocalS false Y.Int (name (codes "y") 5) (variable_at (codes "y") 8) 51) ≡ UnknownName 8 ∷ [] }
    ensures again { stmt_faults_at None (LocalS false Y.Int (name (codes "n") 5) (NumberE 7 8) 51) ≡ Redeclared 5 ∷ [] }
    ensures no_fit_and_again { stmt_faults_at None (LocalS false Y.Int (name (codes "n") 5) (var_b 8) 51) ≡ NoRule 5 ∷ Redeclared 5 ∷ [] }
    ensures last_one { stmt_faults shop_table 1 None 6 in_scope 63 local_y ≡ [] }
    ensures one_too_many { stmt_faults shop_table 1 None 6 in_scope 64 local_y ≡ TooManyLocals 5 ∷ [] }
    ensures no_node { stmt_core shop_table 1 None 6 in_scope 64 local_y ≡ None }
    ensures last_node { stmt_core shop_table 1 None 6 in_scope 63 local_y ≡ Some (core.LocalS 69 false T.Int (core.IntE (pos 7))) }
    ensures types { map (declared_type shop_table) (local_y ∷ LocalS false (class_type_name (codes "X") 2) (name (codes "y") 5) x 51 ∷ EmptyS 51 ∷ []) ≡ Some T.Int ∷ None ∷ None ∷ [] }
{}

/// What is assigned isn't final, and the value fits it.
pub fn what_is_assigned()
    ensures variable { stmt_at None (SetVarS (name (codes "b") 5) (TruthE true 8) 7) ≡ Some (core.SetVarS 2 (core.TruthE true)) }
    ensures final_variable { stmt_faults_at None (SetVarS (name (codes "n") 5) (NumberE 7 8) 7) ≡ FinalAssigned 5 ∷ [] }
    ensures final_and_no_fit { stmt_faults_at None (SetVarS (name (codes "n") 5) (var_b 8) 7) ≡ FinalAssigned 5 ∷ [] }
    ensures unknown_variable { stmt_faults_at None (SetVarS (name (codes "y") 5) x 7) ≡ UnknownName 5 ∷ UnknownName 9 ∷ [] }
    ensures no_fit { stmt_faults_at None (SetVarS (name (codes "b") 5) (var_n 8) 7) ≡ NoRule 7 ∷ [] }
    ensures class_below { stmt_at None (SetVarS (name (codes "i") 5) (var_r 8) 7) ≡ Some (core.SetVarS 4 r_core) }
    ensures field { stmt_at None (SetFieldS (var_r 3) (name (codes "sold") 5) (var_b 8) 7) ≡ Some (core.SetFieldS r_core 3 b_core) }
    ensures field_from_above { stmt_at None (SetFieldS (var_r 3) (name (codes "left") 5) (var_n 8) 7) ≡ Some (core.SetFieldS r_core 1 n_core) }
    ensures final_field { stmt_faults_at None (SetFieldS (var_r 3) (name (codes "price") 5) (var_n 8) 7) ≡ FinalAssigned 5 ∷ [] }
    ensures unknown_field { stmt_faults_at None (SetFieldS (var_i 3) (name (codes "sold") 5) (var_b 8) 7) ≡ UnknownName 5 ∷ [] }
    ensures field_of_an_int { stmt_faults_at None (SetFieldS (var_n 3) (name (codes "sold") 5) (var_b 8) 7) ≡ NoRule 5 ∷ [] }
    ensures unknown_receiver { stmt_faults_at None (SetFieldS x (name (codes "sold") 5) (NotE (var_n 8) 7) 6) ≡ UnknownName 9 ∷ NoRule 7 ∷ [] }
    ensures field_no_fit { stmt_faults_at None (SetFieldS (var_r 3) (name (codes "sold") 5) (var_n 8) 7) ≡ NoRule 7 ∷ [] }
    ensures no_value { stmt_faults_at None (SetFieldS (var_r 3) (name (codes "sold") 5) x 7) ≡ UnknownName 9 ∷ [] }
{}

/// Calls and new objects as statements, conditions, prints and starts.
pub fn what_statements_want()
    ensures empty { stmt_at None (EmptyS 51) ≡ Some core.EmptyS }
    ensures empty_faults { stmt_faults_at None (EmptyS 51) ≡ [] }
    ensures dropped { stmt_at None (DoS (method_call_tree (var_r 3) (codes "take") (one_expr (var_n 7))) 3) ≡ Some (core.DoS (core.CallE r_core 2 (core.and_expr n_core core.no_exprs)) true) }
    ensures void { stmt_at None (DoS (method_call_tree (var_r 3) (codes "log") no_exprs) 3) ≡ Some (core.DoS (core.CallE r_core 1 core.no_exprs) false) }
    ensures new_object { stmt_at None (DoS (new_of (codes "Item") (one_expr (var_n 7))) 3) ≡ Some (core.DoS (core.NewE 0 (core.and_expr n_core core.no_exprs)) true) }
    ensures no_call { stmt_faults_at None (DoS (var_n 3) 3) ≡ NoRule 3 ∷ [] }
    ensures unknown_call { stmt_faults_at None (DoS (method_call_tree x (codes "log") no_exprs) 9) ≡ UnknownName 9 ∷ [] }
    ensures branch { stmt_at None (IfS (var_b 3) (PrintS (var_n 6) 5) 51) ≡ Some (core.IfS b_core (core.PrintS n_core) core.EmptyS) }
    ensures branches { stmt_at None (IfElseS (var_b 3) (PrintS (var_n 6) 5) (EmptyS 8) 51) ≡ Some (core.IfS b_core (core.PrintS n_core) core.EmptyS) }
    ensures other_branches { stmt_at None (IfElseS (var_b 3) (EmptyS 5) (PrintS (var_n 9) 8) 51) ≡ Some (core.IfS b_core core.EmptyS (core.PrintS n_core)) }
    ensures no_condition { stmt_faults_at None (IfS (var_n 3) (PrintS (var_b 6) 5) 51) ≡ NoRule 51 ∷ NoRule 5 ∷ [] }
    ensures no_condition_either { stmt_faults_at None (IfElseS (var_n 3) (PrintS (var_b 6) 5) (PrintS (var_b 9) 8) 51) ≡ NoRule 51 ∷ NoRule 5 ∷ NoRule 8 ∷ [] }
    ensures unknown_condition { stmt_faults_at None (IfS x (EmptyS 5) 51) ≡ UnknownName 9 ∷ [] }
    ensures unknown_in_both { stmt_faults_at None (IfElseS x (EmptyS 5) (EmptyS 6) 51) ≡ UnknownName 9 ∷ [] }
    ensures slots_of_branches { stmt_at None (IfElseS (var_b 3) (BlockS (one_stmt local_y) 4) (BlockS (one_stmt local_y) 9) 51) ≡
        Some (core.IfS b_core (core.BlockS (core.and_stmt (y_at 8) core.no_stmts)) (core.BlockS (core.and_stmt (y_at 9) core.no_stmts))) }
    ensures repeated { stmt_at None (WhileS (var_b 3) (PrintS (var_n 6) 5) 51) ≡ Some (core.WhileS b_core (core.PrintS n_core)) }
    ensures no_test { stmt_faults_at None (WhileS (var_n 3) (PrintS (var_b 6) 5) 51) ≡ NoRule 51 ∷ NoRule 5 ∷ [] }
    ensures unknown_test { stmt_faults_at None (WhileS x (EmptyS 5) 51) ≡ UnknownName 9 ∷ [] }
    ensures locked { stmt_at None (SyncS (lock_tree (Some (name (codes "r") 3)) [] 3) (one_stmt (PrintS (var_n 6) 5)) 51) ≡
        Some (core.SyncS (core_path 3 []) (core.BlockS (core.and_stmt (core.PrintS n_core) core.no_stmts))) }
    ensures no_lock { stmt_faults_at None (SyncS (lock_tree (Some (name (codes "i") 3)) [] 3) (one_stmt (PrintS (var_b 6) 5)) 51) ≡ NotALock 3 ∷ NoRule 5 ∷ [] }
    ensures printed { stmt_at None (PrintS (var_n 3) 51) ≡ Some (core.PrintS n_core) }
    ensures printed_truth { stmt_faults_at None (PrintS (var_b 3) 51) ≡ NoRule 51 ∷ [] }
    ensures printed_nothing { stmt_faults_at None (PrintS x 51) ≡ UnknownName 9 ∷ [] }
    ensures started { stmt_at None (StartS (variable_at (codes "j") 3) 51) ≡ Some (core.StartS (core.VarE 5 false (T.Class 3))) }
    ensures not_runnable { stmt_faults_at None (StartS (var_i 3) 51) ≡ NoRule 51 ∷ [] }
    ensures started_int { stmt_faults_at None (StartS (var_n 3) 51) ≡ NoRule 51 ∷ [] }
    ensures started_null { stmt_faults_at None (StartS (NullE 3) 51) ≡ NoRule 51 ∷ [] }
    ensures no_class { counts_runnable None ≡ false }
    ensures started_nothing { stmt_faults_at None (StartS x 51) ≡ UnknownName 9 ∷ [] }
{}

/// What a statement's parts are is up to the class in which they stand.
pub fn what_this_class_has()
    ensures local { stmt_at None (LocalS false Y.Boolean (name (codes "y") 5) sold 51) ≡ Some (core.LocalS 8 false T.Boolean sold_core) }
    ensures local_fault { stmt_faults_at None (LocalS false Y.Int (name (codes "y") 5) sold 51) ≡ NoRule 5 ∷ [] }
    ensures assigned { stmt_at None (SetVarS (name (codes "b") 5) sold 51) ≡ Some (core.SetVarS 2 sold_core) }
    ensures assigned_fault { stmt_faults_at None (SetVarS (name (codes "i") 5) sold 51) ≡ NoRule 51 ∷ [] }
    ensures field { stmt_at None (SetFieldS (ThisE 13) (name (codes "sold") 5) sold 51) ≡ Some (core.SetFieldS core.ThisE 3 sold_core) }
    ensures field_fault { stmt_faults_at None (SetFieldS (ThisE 13) (name (codes "sold") 5) twin_left 51) ≡ NoRule 51 ∷ [] }
    ensures final_fault { stmt_faults_at None (SetFieldS (ThisE 13) (name (codes "twin") 5) sold 51) ≡ FinalAssigned 5 ∷ [] }
    ensures receiver_and_value { stmt_faults_at None (SetFieldS sold (name (codes "left") 5) (NotE twin_left 12) 51) ≡ NoRule 5 ∷ NoRule 12 ∷ [] }
    ensures done { stmt_at None (DoS (method_call_tree (ThisE 13) (codes "take") (one_expr twin_left)) 51) ≡ Some (core.DoS (core.CallE core.ThisE 2 (core.and_expr twin_left_core core.no_exprs)) true) }
    ensures done_fault { stmt_faults_at None (DoS sold 51) ≡ NoRule 51 ∷ [] }
    ensures condition { stmt_at None (IfS sold block_y 51) ≡ Some (core.IfS sold_core (block_y_at 8) core.EmptyS) }
    ensures condition_fault { stmt_faults_at None (IfS twin_left block_y 51) ≡ NoRule 51 ∷ [] }
    ensures conditions { stmt_at None (IfElseS sold block_y (EmptyS 52) 51) ≡ Some (core.IfS sold_core (block_y_at 8) core.EmptyS) }
    ensures conditions_fault { stmt_faults_at None (IfElseS twin_left block_y (EmptyS 52) 51) ≡ NoRule 51 ∷ [] }
    ensures test { stmt_at None (WhileS sold block_y 51) ≡ Some (core.WhileS sold_core (block_y_at 8)) }
    ensures test_fault { stmt_faults_at None (WhileS twin_left block_y 51) ≡ NoRule 51 ∷ [] }
    ensures lock { stmt_at None (SyncS (lock_tree None (name (codes "twin") 14 ∷ []) 13) (one_stmt local_y) 51) ≡ Some (core.SyncS (core_path 0 (2 ∷ [])) (block_y_at 8)) }
    ensures lock_fault { stmt_faults_at None (SyncS (lock_tree None (name (codes "sold") 14 ∷ []) 13) (one_stmt local_y) 51) ≡ NotALock 13 ∷ [] }
    ensures returned { stmt_at (Some T.Boolean) (ReturnS (Some sold) 51) ≡ Some (core.ReturnS (Some sold_core)) }
    ensures returned_fault { stmt_faults_at (Some T.Int) (ReturnS (Some sold) 51) ≡ NoRule 51 ∷ [] }
    ensures printed { stmt_at None (PrintS twin_left 51) ≡ Some (core.PrintS twin_left_core) }
    ensures printed_fault { stmt_faults_at None (PrintS sold 51) ≡ NoRule 51 ∷ [] }
    ensures started { stmt_core jobs_table 2 None 7 [] 1 (StartS (ThisE 13) 51) ≡ Some (core.StartS core.ThisE) }
    ensures not_started { stmt_faults jobs_table 1 None 7 [] 0 (StartS (ThisE 13) 51) ≡ NoRule 51 ∷ [] }
    ensures unknown_part_of_this { stmt_faults_at None (StartS sold 51) ≡ NoRule 51 ∷ [] }
    ensures block { stmt_at None block_y ≡ Some (block_y_at 8) }
{}

/// Locals inside of statements are counted with those before them.
pub fn how_locals_are_counted()
    ensures block { stmt_faults shop_table 1 None 6 in_scope 64 block_y ≡ TooManyLocals 5 ∷ [] }
    ensures branch { stmt_faults shop_table 1 None 6 in_scope 64 (IfS (var_b 3) block_y 51) ≡ TooManyLocals 5 ∷ [] }
    ensures first_branch { stmt_faults shop_table 1 None 6 in_scope 64 (IfElseS (var_b 3) block_y (EmptyS 52) 51) ≡ TooManyLocals 5 ∷ [] }
    ensures second_branch { stmt_faults shop_table 1 None 6 in_scope 63 (IfElseS (var_b 3) block_y block_y 51) ≡ TooManyLocals 5 ∷ [] }
    ensures repeated { stmt_faults shop_table 1 None 6 in_scope 64 (WhileS (var_b 3) block_y 51) ≡ TooManyLocals 5 ∷ [] }
    ensures locked { stmt_faults shop_table 1 None 6 in_scope 64 (SyncS this_lock (one_stmt local_y) 51) ≡ TooManyLocals 5 ∷ [] }
    ensures second { block_faults shop_table 1 None 6 in_scope 63 true (more_stmts block_y (one_stmt block_y)) ≡ TooManyLocals 5 ∷ [] }
    ensures not_in_scope { block_faults shop_table 1 None 6 in_scope 64 true (more_stmts local_y (one_stmt (PrintS (variable_at (codes "y") 11) 10))) ≡ TooManyLocals 5 ∷ UnknownName 11 ∷ [] }
    ensures slots_of_branches { stmt_at None (IfElseS (var_b 3) (BlockS (more_stmts block_y (one_stmt block_y)) 53) block_y 51) ≡
        Some (core.IfS b_core (core.BlockS (core.and_stmt (block_y_at 8) (core.and_stmt (block_y_at 9) core.no_stmts))) (block_y_at 10)) }
    ensures two_in_the_first_branch { stmt_faults shop_table 1 None 6 in_scope 62 (IfElseS (var_b 3) (BlockS (more_stmts block_y (one_stmt block_y)) 53) block_y 51) ≡ TooManyLocals 5 ∷ [] }
    ensures slots { block_at (more_stmts block_y (more_stmts (IfS (var_b 3) block_y 51) (one_stmt local_y))) ≡
        Some (core.and_stmt (block_y_at 8) (core.and_stmt (core.IfS b_core (block_y_at 9) core.EmptyS) (core.and_stmt (y_at 10) core.no_stmts))) }
{}

/// A return has a value that fits the result, or none in a void method.
pub fn what_returns_give()
    ensures nothing { stmt_at None (ReturnS None 51) ≡ Some (core.ReturnS None) }
    ensures nothing_of_a_result { stmt_faults_at (Some T.Int) (ReturnS None 51) ≡ NoRule 51 ∷ [] }
    ensures value { stmt_at (Some T.Int) (ReturnS (Some (var_n 3)) 51) ≡ Some (core.ReturnS (Some n_core)) }
    ensures class_below { stmt_at (Some (T.Class 0)) (ReturnS (Some (var_r 3)) 51) ≡ Some (core.ReturnS (Some r_core)) }
    ensures no_fit { stmt_faults_at (Some T.Int) (ReturnS (Some (var_b 3)) 51) ≡ NoRule 51 ∷ [] }
    ensures value_of_void { stmt_faults_at None (ReturnS (Some (var_n 3)) 51) ≡ NoRule 51 ∷ [] }
    ensures no_value { stmt_faults_at (Some T.Int) (ReturnS (Some x) 51) ≡ UnknownName 9 ∷ [] }
    ensures missing { return_faults true 7 ≡ MissingReturn 7 ∷ [] }
    ensures not_missing { return_faults false 7 ≡ [] }
{}

/// A local is in scope from behind its declaration to the end of its block; its slot isn't used again.
pub fn where_locals_are_in_scope()
    ensures used { block_at (more_stmts local_y (one_stmt (PrintS (variable_at (codes "y") 11) 10))) ≡
        Some (core.and_stmt (y_at 8) (core.and_stmt (core.PrintS (core.VarE 8 false T.Int)) core.no_stmts)) }
    ensures used_before { block_faults_at (more_stmts (PrintS (variable_at (codes "y") 3) 2) (one_stmt local_y)) ≡ UnknownName 3 ∷ [] }
    ensures again { block_faults_at (more_stmts local_y (one_stmt local_y)) ≡ Redeclared 5 ∷ [] }
    ensures after_its_block { block_faults_at (more_stmts (BlockS (one_stmt local_y) 51) (one_stmt (PrintS (variable_at (codes "y") 11) 10))) ≡ UnknownName 11 ∷ [] }
    ensures again_after_its_block { block_at (more_stmts (BlockS (one_stmt local_y) 51) (one_stmt local_y)) ≡
        Some (core.and_stmt (core.BlockS (core.and_stmt (y_at 8) core.no_stmts)) (core.and_stmt (y_at 9) core.no_stmts)) }
    ensures of_no_type { block_faults_at (more_stmts (LocalS false (class_type_name (codes "X") 2) (name (codes "y") 5) (var_r 8) 51) (one_stmt (PrintS (variable_at (codes "y") 11) 10))) ≡ UnknownName 2 ∷ UnknownName 11 ∷ [] }
    ensures past_the_limit { scope_after shop_table 1 None 6 in_scope 64 local_y ≡ in_scope }
    ensures slot_past_the_limit { scope_after shop_table 1 None 6 [] 60 local_y ≡ record { name = codes "y"; variable = record { slot = 66; is_final = false; ty = T.Int } } ∷ [] }
    ensures other_statement { scope_after shop_table 1 None 6 in_scope 2 (EmptyS 3) ≡ in_scope }
    ensures fault_in_a_block { block_at (more_stmts (PrintS (var_b 3) 2) no_stmts) ≡ None }
    ensures nothing { block_at no_stmts ≡ Some core.no_stmts }
{}

/// What can't be reached is told where it begins: each statement of the block that stands behind one that can't complete.
pub fn what_can_be_reached()
    ensures behind_a_return { block_faults_at (more_stmts (ReturnS None 51) (one_stmt (EmptyS 2))) ≡ Unreachable 2 ∷ [] }
    ensures each_behind { block_faults_at (more_stmts (ReturnS None 51) (more_stmts (EmptyS 2) (one_stmt (EmptyS 3)))) ≡ Unreachable 2 ∷ Unreachable 3 ∷ [] }
    ensures in_a_block_of_its_own { block_faults_at (more_stmts (ReturnS None 51) (one_stmt (BlockS (one_stmt (EmptyS 3)) 2))) ≡ Unreachable 2 ∷ [] }
    ensures with_faults_of_its_own { block_faults_at (more_stmts (ReturnS None 51) (one_stmt (PrintS (var_b 3) 2))) ≡ Unreachable 2 ∷ NoRule 2 ∷ [] }
    ensures last { block_faults_at (more_stmts (EmptyS 51) (one_stmt (ReturnS None 2))) ≡ [] }
    ensures in_a_lock { stmt_faults_at None (SyncS this_lock (more_stmts (ReturnS None 6) (one_stmt (EmptyS 7))) 51) ≡ Unreachable 7 ∷ [] }
    ensures in_a_block { stmt_faults_at None (BlockS (more_stmts (ReturnS None 6) (one_stmt (EmptyS 7))) 51) ≡ Unreachable 7 ∷ [] }
{}

/// A return can't complete, nor what ends in one, nor a loop on the literal `true` in any parentheses.
pub fn what_can_complete()
    ensures plain { map completes (EmptyS 51 ∷ local_y ∷ IfS x (ReturnS None 5) 51 ∷ PrintS x 51 ∷ []) ≡ true ∷ true ∷ true ∷ true ∷ [] }
    ensures returned { completes (ReturnS None 51) ≡ false }
    ensures blocks { map completes (BlockS (one_stmt (EmptyS 51)) 51 ∷ BlockS (one_stmt (ReturnS None 51)) 51 ∷ SyncS this_lock (one_stmt (ReturnS None 51)) 51 ∷ SyncS this_lock no_stmts 51 ∷ []) ≡ true ∷ false ∷ false ∷ true ∷ [] }
    ensures branches { map completes (IfElseS x (ReturnS None 51) (EmptyS 51) 51 ∷ IfElseS x (EmptyS 51) (ReturnS None 51) 51 ∷ IfElseS x (ReturnS None 51) (ReturnS None 51) 51 ∷ []) ≡ true ∷ true ∷ false ∷ [] }
    ensures loops { map completes (WhileS (TruthE true 2) (EmptyS 1) 1 ∷ WhileS (ParenE (ParenE (TruthE true 4) 3) 2) (EmptyS 1) 1 ∷ WhileS (TruthE false 2) (EmptyS 1) 1 ∷ WhileS (NotE (TruthE false 3) 2) (EmptyS 1) 1
        ∷ WhileS x (ReturnS None 1) 1 ∷ []) ≡ false ∷ false ∷ true ∷ true ∷ true ∷ [] }
    ensures first_of_two { completes_each (more_stmts (ReturnS None 51) (one_stmt (EmptyS 51))) ≡ false }
    ensures second_of_two { completes_each (more_stmts (EmptyS 51) (one_stmt (ReturnS None 51))) ≡ false }
    ensures locals { map locals_in (local_y ∷ EmptyS 51 ∷ BlockS (more_stmts local_y (one_stmt local_y)) 51 ∷ IfS x (BlockS (one_stmt local_y) 51) 51 ∷ WhileS x (BlockS (one_stmt local_y) 51) 51 ∷ SyncS this_lock (one_stmt local_y) 51 ∷ []) ≡
        1 ∷ 0 ∷ 2 ∷ 1 ∷ 1 ∷ 1 ∷ [] }
    ensures locals_of_branches { locals_in (IfElseS x (BlockS (one_stmt local_y) 51) (BlockS (more_stmts local_y (one_stmt local_y)) 51) 51) ≡ 3 }
    ensures no_locals { locals_in_each no_stmts ≡ 0 }
{}

/// The faults of types in the order in which they are told at one offset.
pub fn how_type_faults_are_ordered()
    ensures offsets { map type_fault_offset (UnknownName 5 ∷ NoRule 5 ∷ FinalAssigned 5 ∷ NotALock 5 ∷ MissingReturn 5 ∷ Unreachable 5 ∷ TooManyLocals 5 ∷ Redeclared 5 ∷ NoMemory ∷ []) ≡
        5 ∷ 5 ∷ 5 ∷ 5 ∷ 5 ∷ 5 ∷ 5 ∷ 5 ∷ 4294967296 ∷ [] }
    ensures ranks { map type_fault_rank (UnknownName 5 ∷ NoRule 5 ∷ FinalAssigned 5 ∷ NotALock 5 ∷ MissingReturn 5 ∷ Unreachable 5 ∷ TooManyLocals 5 ∷ Redeclared 5 ∷ NoMemory ∷ []) ≡
        1 ∷ 2 ∷ 3 ∷ 4 ∷ 5 ∷ 6 ∷ 7 ∷ 8 ∷ 9 ∷ [] }
{}
