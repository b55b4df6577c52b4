//! Types of the core program: which fit which, what operators give, what completes, and how high and large a body is.
ghost use Rattle.std.specs.Prelude.{◌≡◌, true, false, [], ◌∷◌, Some, None, map, slice_get};
ghost use Rattle.core_program.specs.declared.types.CoreOp.TheVariants.{Eq, Ne, Lt, Le, Gt, Ge, Add, Sub, Mul, Div, Rem};
ghost use Rattle.core_program.specs.declared.types.CoreType.TheVariants.{Int, Boolean, Class};
ghost use Rattle.core_program.specs.Core.{TruthE, ThisE, NotE, NegE, BinaryE, AndE, OrE, CallE, NewE, no_exprs, and_expr};
ghost use Rattle.core_program.specs.Core.{EmptyS, BlockS, LocalS, SetVarS, SetFieldS, DoS, IfS, WhileS, SyncS, ReturnS, PrintS, StartS, no_stmts, and_stmt};
ghost use Rattle.core_program.specs.Dispatch.{is_kind_of};
ghost use Rattle.core_program.specs.Types.{ValueT, NullT, VoidT, int_type, boolean_type, class_type, result_type, fits, binary_type, field_types, parameter_types};
ghost use Rattle.core_program.specs.Typed.{parameters, variables_after, declared_in, is_call_or_new, gives_value, can_complete, size_of, fields_from, is_final_at, most_body_height, most_class_fields, most_parameters, most_locals, most_nodes};
ghost use Rattle.core_program.specs.Sizes.{height_of, nodes_of, stmt_height, stmt_nodes};
ghost use Rattle.core_examples.specs.Seen.{two_parameters};
ghost use Rattle.core_examples.specs.Family.{family};
ghost use Rattle.core_examples.specs.Fields.{path, nodes, of_this};
ghost use Rattle.core_examples.specs.Small.{one, two, three};

/// A type fits itself, a class those above it, and that of `null` each class; nothing fits or is void.
pub fn which_types_fit()
    ensures ints { fits (is_kind_of family) int_type int_type ≡ true }
    ensures truths { fits (is_kind_of family) boolean_type boolean_type ≡ true }
    ensures int_and_truth { fits (is_kind_of family) int_type boolean_type ≡ false }
    ensures truth_and_class { fits (is_kind_of family) boolean_type (class_type 0) ≡ false }
    ensures class_and_int { fits (is_kind_of family) (class_type 0) int_type ≡ false }
    ensures same_class { fits (is_kind_of family) (class_type 1) (class_type 1) ≡ true }
    ensures class_above { fits (is_kind_of family) (class_type 2) (class_type 0) ≡ true }
    ensures class_below { fits (is_kind_of family) (class_type 0) (class_type 2) ≡ false }
    ensures null_and_class { fits (is_kind_of family) NullT (class_type 0) ≡ true }
    ensures null_and_int { fits (is_kind_of family) NullT int_type ≡ false }
    ensures nulls { fits (is_kind_of family) NullT NullT ≡ true }
    ensures class_and_null { fits (is_kind_of family) (class_type 0) NullT ≡ false }
    ensures void { fits (is_kind_of family) VoidT VoidT ≡ false }
    ensures void_and_int { fits (is_kind_of family) VoidT int_type ≡ false }
    ensures result { result_type (Some Int) ≡ ValueT Int }
    ensures no_result { result_type None ≡ VoidT }
{}

/// Arithmetic and comparisons take two ints; equality two types of which one fits the other.
pub fn what_operators_want()
    ensures arithmetic { map (λ op. binary_type (is_kind_of family) op int_type int_type) (Add ∷ Sub ∷ Mul ∷ Div ∷ Rem ∷ []) ≡
        Some int_type ∷ Some int_type ∷ Some int_type ∷ Some int_type ∷ Some int_type ∷ [] }
    ensures comparisons { map (λ op. binary_type (is_kind_of family) op int_type int_type) (Lt ∷ Le ∷ Gt ∷ Ge ∷ Eq ∷ Ne ∷ []) ≡
        Some boolean_type ∷ Some boolean_type ∷ Some boolean_type ∷ Some boolean_type ∷ Some boolean_type ∷ Some boolean_type ∷ [] }
    ensures no_truths { map (λ op. binary_type (is_kind_of family) op boolean_type boolean_type) (Add ∷ Sub ∷ Mul ∷ Div ∷ Rem ∷ Lt ∷ Le ∷ Gt ∷ Ge ∷ []) ≡
        None ∷ None ∷ None ∷ None ∷ None ∷ None ∷ None ∷ None ∷ None ∷ [] }
    ensures one_int { binary_type (is_kind_of family) Add int_type boolean_type ≡ None }
    ensures other_int { binary_type (is_kind_of family) Lt NullT int_type ≡ None }
    ensures class_and_above { map (λ op. binary_type (is_kind_of family) op (class_type 2) (class_type 0)) (Eq ∷ Ne ∷ []) ≡ Some boolean_type ∷ Some boolean_type ∷ [] }
    ensures class_and_below { map (λ op. binary_type (is_kind_of family) op (class_type 0) (class_type 2)) (Eq ∷ Ne ∷ []) ≡ Some boolean_type ∷ Some boolean_type ∷ [] }
    ensures apart { map (λ op. binary_type (is_kind_of family) op (class_type 0) (class_type 3)) (Eq ∷ Ne ∷ []) ≡ None ∷ None ∷ [] }
    ensures class_and_null { binary_type (is_kind_of family) Eq (class_type 0) NullT ≡ Some boolean_type }
    ensures int_and_null { binary_type (is_kind_of family) Eq int_type NullT ≡ None }
    ensures fields { field_types nodes (1 ∷ 8 ∷ 2 ∷ []) ≡ Class 0 ∷ Int ∷ [] }
    ensures parameter_list { parameter_types two_parameters ≡ Int ∷ Int ∷ [] }
{}

/// A return doesn't complete, and what ends in one doesn't, nor a loop on the literal `true`.
pub fn what_completes()
    ensures empty { can_complete EmptyS ≡ true }
    ensures returned { can_complete (ReturnS None) ≡ false }
    ensures block { can_complete (BlockS (and_stmt EmptyS (and_stmt EmptyS no_stmts))) ≡ true }
    ensures block_with_return { can_complete (BlockS (and_stmt (ReturnS None) (and_stmt EmptyS no_stmts))) ≡ false }
    ensures block_to_return { can_complete (BlockS (and_stmt EmptyS (and_stmt (ReturnS None) no_stmts))) ≡ false }
    ensures one_branch { can_complete (IfS (TruthE true) (ReturnS None) EmptyS) ≡ true }
    ensures other_branch { can_complete (IfS (TruthE true) EmptyS (ReturnS None)) ≡ true }
    ensures no_branch { can_complete (IfS (TruthE true) (ReturnS None) (ReturnS None)) ≡ false }
    ensures endless { can_complete (WhileS (TruthE true) EmptyS) ≡ false }
    ensures never { can_complete (WhileS (TruthE false) EmptyS) ≡ true }
    ensures loop_with_return { can_complete (WhileS (NotE (TruthE false)) (ReturnS None)) ≡ true }
    ensures lock { can_complete (SyncS (path 0 []) EmptyS) ≡ true }
    ensures lock_with_return { can_complete (SyncS (path 0 []) (ReturnS None)) ≡ false }
    ensures calls { map is_call_or_new (CallE ThisE 0 no_exprs ∷ NewE 0 no_exprs ∷ ThisE ∷ []) ≡ true ∷ true ∷ false ∷ [] }
    ensures values { map gives_value (int_type ∷ NullT ∷ VoidT ∷ []) ≡ true ∷ true ∷ false ∷ [] }
{}

/// Parameters have the slots behind `this`, and a declared local is in scope after its declaration.
pub fn what_stands_in_scope()
    ensures parameters { parameters two_parameters ≡ record { slot = 1; is_final = false; ty = Int } ∷ record { slot = 2; is_final = false; ty = Int } ∷ [] }
    ensures local { variables_after (LocalS 3 true Boolean (TruthE true)) [] ≡ record { slot = 3; is_final = true; ty = Boolean } ∷ [] }
    ensures other { variables_after (SetVarS 3 one) (parameters two_parameters) ≡ parameters two_parameters }
    ensures among_others { variables_after (LocalS 3 false Int one) (record { slot = 1; is_final = true; ty = Boolean } ∷ []) ≡ record { slot = 3; is_final = false; ty = Int } ∷ record { slot = 1; is_final = true; ty = Boolean } ∷ [] }
    ensures in_a_block { variables_after (BlockS (and_stmt (LocalS 3 true Int one) no_stmts)) [] ≡ [] }
    ensures declared { map declared_in (LocalS 1 false Int one ∷ SetVarS 1 one ∷ BlockS (and_stmt (LocalS 1 false Int one) (and_stmt (LocalS 2 false Int one) no_stmts)) ∷ []) ≡ 1 ∷ 0 ∷ 2 ∷ [] }
    ensures declared_inside { map declared_in (IfS (TruthE true) (LocalS 1 false Int one) (BlockS (and_stmt (LocalS 2 false Int one) (and_stmt (LocalS 3 false Int one) no_stmts)))
        ∷ WhileS (TruthE true) (LocalS 1 false Int one) ∷ SyncS (path 0 []) (LocalS 1 false Int one) ∷ []) ≡ 3 ∷ 1 ∷ 1 ∷ [] }
    ensures fields { fields_from 1 0 family.fields ≡ 1 ∷ [] }
    ensures all_fields { fields_from 0 5 nodes.fields ≡ 5 ∷ 6 ∷ 7 ∷ 8 ∷ 9 ∷ 10 ∷ 11 ∷ 12 ∷ [] }
    ensures final_fields { map is_final_at (slice_get nodes.fields 0 ∷ slice_get nodes.fields 1 ∷ slice_get nodes.fields 8 ∷ []) ≡ true ∷ false ∷ false ∷ [] }
    ensures limits { most_body_height ∷ most_class_fields ∷ most_parameters ∷ most_locals ∷ most_nodes ∷ [] ≡ 64 ∷ 32 ∷ 16 ∷ 64 ∷ 262144 ∷ [] }
{}

/// Each node is one higher than its highest part, and counts once.
pub fn how_high_and_large_bodies_are()
    ensures leaf { height_of one ≡ 1 }
    ensures opposite { height_of (NotE (NegE one)) ≡ 3 }
    ensures operators { map height_of (BinaryE Add (NegE one) two ∷ BinaryE Add one (NegE two) ∷ AndE one (NegE two) ∷ AndE (NegE one) two ∷ OrE (NegE one) two ∷ OrE one (NegE two) ∷ []) ≡ 3 ∷ 3 ∷ 3 ∷ 3 ∷ 3 ∷ 3 ∷ [] }
    ensures access { height_of (of_this 0) ≡ 2 }
    ensures call { height_of (CallE (of_this 0) 0 no_exprs) ≡ 3 }
    ensures arguments { map height_of (CallE ThisE 0 (and_expr one (and_expr (NegE two) no_exprs)) ∷ NewE 0 (and_expr (NegE one) (and_expr two no_exprs)) ∷ NewE 0 no_exprs ∷ []) ≡ 3 ∷ 3 ∷ 1 ∷ [] }
    ensures statements { map stmt_height (EmptyS ∷ BlockS no_stmts ∷ LocalS 1 false Int one ∷ SetVarS 1 one ∷ DoS (NewE 0 no_exprs) true ∷ ReturnS None ∷ ReturnS (Some one) ∷ PrintS one ∷ StartS ThisE ∷ []) ≡
        1 ∷ 1 ∷ 2 ∷ 2 ∷ 2 ∷ 1 ∷ 2 ∷ 2 ∷ 2 ∷ [] }
    ensures highest_part { map stmt_height (BlockS (and_stmt EmptyS (and_stmt (PrintS one) no_stmts)) ∷ BlockS (and_stmt (PrintS one) (and_stmt EmptyS no_stmts)) ∷ SetFieldS (of_this 0) 0 one ∷ SetFieldS ThisE 0 (NegE one) ∷ []) ≡
        3 ∷ 3 ∷ 3 ∷ 3 ∷ [] }
    ensures highest_branch { map stmt_height (IfS (NotE (NotE one)) EmptyS EmptyS ∷ IfS one (PrintS one) EmptyS ∷ IfS one EmptyS (PrintS one) ∷ WhileS (NotE one) EmptyS ∷ WhileS one (PrintS one) ∷ SyncS (path 0 []) (PrintS one) ∷ []) ≡
        4 ∷ 3 ∷ 3 ∷ 3 ∷ 3 ∷ 3 ∷ [] }
    ensures nodes { map nodes_of (one ∷ NotE one ∷ NegE one ∷ BinaryE Add one (NegE two) ∷ AndE one (NegE two) ∷ OrE (NegE one) two ∷ of_this 0 ∷ []) ≡ 1 ∷ 2 ∷ 2 ∷ 4 ∷ 4 ∷ 4 ∷ 2 ∷ [] }
    ensures call_nodes { map nodes_of (CallE (of_this 0) 0 (and_expr one (and_expr (NegE two) no_exprs)) ∷ NewE 0 (and_expr (NegE one) (and_expr three no_exprs)) ∷ []) ≡ 6 ∷ 4 ∷ [] }
    ensures statement_nodes { map stmt_nodes (EmptyS ∷ LocalS 1 false Int one ∷ SetVarS 1 one ∷ SetFieldS (of_this 0) 0 one ∷ DoS (NewE 0 no_exprs) true ∷ ReturnS None ∷ ReturnS (Some one) ∷ PrintS one ∷ StartS ThisE ∷ []) ≡
        1 ∷ 2 ∷ 2 ∷ 4 ∷ 2 ∷ 1 ∷ 2 ∷ 2 ∷ 2 ∷ [] }
    ensures inner_nodes { map stmt_nodes (BlockS (and_stmt EmptyS (and_stmt (PrintS one) no_stmts)) ∷ IfS (NotE one) (PrintS one) EmptyS ∷ WhileS (NotE one) (PrintS one) ∷ SyncS (path 0 []) (PrintS one) ∷ []) ≡ 4 ∷ 6 ∷ 5 ∷ 3 ∷ [] }
    ensures program { size_of family ≡ 15 }
{}
