//! The types of expressions, and their faults.
ghost use Rattle.std.specs.Prelude.{◌≡◌, pos, negsuc, true, false, [], ◌∷◌, map, Some, None, Ok, Err, codes};
ghost use Rattle.core_program.specs.declared.types.CoreType.TheVariants as T;
ghost use Rattle.core_program.specs.declared.types.CoreOp.TheVariants as core_op;
ghost use Rattle.core_program.specs.Core as core;
ghost use Rattle.core_program.specs.Types.{NullT, VoidT, int_type, boolean_type, class_type};
ghost use Rattle.syntax.specs.declared.tree.Op.TheVariants as O;
ghost use Rattle.syntax.specs.declared.tree.TypeName.TheVariants as Y;
ghost use Rattle.syntax.specs.Trees.{NumberE, LeastE, TruthE, NullE, ThisE, ParenE, NotE, NegE, BinaryE, GetE, CallE, NewE, no_exprs, more_exprs};
ghost use Rattle.typing.specs.declared.fault.TypeFault.TheVariants.{UnknownName, NoRule};
ghost use Rattle.typing.specs.Rules.{typed, type_rule, final_types, logical_node};
ghost use Rattle.typing.specs.Scopes.{is_bound, this_variable, scope_of_parameters};
ghost use Rattle.front_examples.specs.Written.{name, x, variable_at, one_expr};
ghost use Rattle.front_examples.specs.Shop.{shop_table, in_scope, n_param};
ghost use Rattle.front_examples.specs.Typing.{type_at, faults_at, var_n, var_b, var_r, var_i, n_core, b_core, r_core, i_core, method_call_tree, get_of, new_of};

/// What expressions without parts are, and where a name isn't known or a number is too large.
pub fn what_leaves_are()
    ensures number { type_at (NumberE 7 3) ≡ Some (typed int_type (core.IntE (pos 7))) }
    ensures greatest { type_at (NumberE 2147483647 3) ≡ Some (typed int_type (core.IntE (pos 2147483647))) }
    ensures too_large { type_at (NumberE 2147483648 3) ≡ None }
    ensures fault_of_a_large_one { faults_at (NumberE 2147483648 3) ≡ NoRule 3 ∷ [] }
    ensures least { type_at (LeastE 3) ≡ Some (typed int_type (core.IntE (negsuc 2147483647))) }
    ensures truth { type_at (TruthE true 3) ≡ Some (typed boolean_type (core.TruthE true)) }
    ensures null { type_at (NullE 3) ≡ Some (typed NullT core.NullE) }
    ensures this { type_at (ThisE 3) ≡ Some (typed (class_type 1) core.ThisE) }
    ensures variable { type_at (var_n 3) ≡ Some (typed int_type n_core) }
    ensures plain_variable { type_at (var_b 3) ≡ Some (typed boolean_type b_core) }
    ensures unknown { type_at x ≡ None }
    ensures fault_of_an_unknown_one { faults_at x ≡ UnknownName 9 ∷ [] }
    ensures parentheses { type_at (ParenE (var_n 3) 2) ≡ Some (typed int_type n_core) }
    ensures no_faults { faults_at (ParenE (var_n 3) 2) ≡ [] }
    ensures fault_in_parentheses { faults_at (ParenE x 2) ≡ UnknownName 9 ∷ [] }
{}

/// Signs before one part and between two parts: what they want, and the fault at the sign where a part is of another type.
pub fn what_signs_want()
    ensures opposite { type_at (NotE (var_b 3) 2) ≡ Some (typed boolean_type (core.NotE b_core)) }
    ensures opposite_of_an_int { faults_at (NotE (var_n 3) 2) ≡ NoRule 2 ∷ [] }
    ensures negated { type_at (NegE (var_n 3) 2) ≡ Some (typed int_type (core.NegE n_core)) }
    ensures negated_truth { faults_at (NegE (var_b 3) 2) ≡ NoRule 2 ∷ [] }
    ensures negated_null { type_at (NegE (NullE 3) 2) ≡ None }
    ensures opposite_of_nothing { faults_at (NotE x 2) ≡ UnknownName 9 ∷ [] }
    ensures negated_nothing { faults_at (NegE x 2) ≡ UnknownName 9 ∷ [] }
    ensures arithmetic { map (λ op. type_at (BinaryE op (var_n 3) (NumberE 1 5) 4)) (O.Add ∷ O.Sub ∷ O.Mul ∷ O.Div ∷ O.Rem ∷ []) ≡
        map (λ op. Some (typed int_type (core.BinaryE op n_core (core.IntE (pos 1))))) (core_op.Add ∷ core_op.Sub ∷ core_op.Mul ∷ core_op.Div ∷ core_op.Rem ∷ []) }
    ensures comparisons { map (λ op. type_at (BinaryE op (var_n 3) (NumberE 1 5) 4)) (O.Lt ∷ O.Le ∷ O.Gt ∷ O.Ge ∷ O.Eq ∷ O.Ne ∷ []) ≡
        map (λ op. Some (typed boolean_type (core.BinaryE op n_core (core.IntE (pos 1))))) (core_op.Lt ∷ core_op.Le ∷ core_op.Gt ∷ core_op.Ge ∷ core_op.Eq ∷ core_op.Ne ∷ []) }
    ensures both { type_at (BinaryE O.And (var_b 3) (TruthE true 5) 4) ≡ Some (typed boolean_type (core.AndE b_core (core.TruthE true))) }
    ensures either { type_at (BinaryE O.Or (var_b 3) (TruthE true 5) 4) ≡ Some (typed boolean_type (core.OrE b_core (core.TruthE true))) }
    ensures equal_objects { type_at (BinaryE O.Eq (var_i 3) (var_r 5) 4) ≡ Some (typed boolean_type (core.BinaryE core_op.Eq i_core r_core)) }
    ensures unlike_objects { faults_at (BinaryE O.Eq (var_i 3) (variable_at (codes "j") 5) 4) ≡ NoRule 4 ∷ [] }
    ensures logical { map (λ b. logical_node b n_core b_core) (true ∷ false ∷ []) ≡ core.AndE n_core b_core ∷ core.OrE n_core b_core ∷ [] }
    ensures no_ints { map (λ op. faults_at (BinaryE op (var_n 3) (var_b 5) 4)) (O.Add ∷ O.Sub ∷ O.Mul ∷ O.Div ∷ O.Rem ∷ O.Lt ∷ O.Le ∷ O.Gt ∷ O.Ge ∷ O.Eq ∷ O.Ne ∷ []) ≡
        map (λ op. NoRule 4 ∷ []) (O.Add ∷ O.Sub ∷ O.Mul ∷ O.Div ∷ O.Rem ∷ O.Lt ∷ O.Le ∷ O.Gt ∷ O.Ge ∷ O.Eq ∷ O.Ne ∷ []) }
    ensures first_no_truth { map (λ op. faults_at (BinaryE op (var_n 3) (var_b 5) 4)) (O.And ∷ O.Or ∷ []) ≡ (NoRule 4 ∷ []) ∷ (NoRule 4 ∷ []) ∷ [] }
    ensures second_no_truth { map (λ op. faults_at (BinaryE op (var_b 3) (var_n 5) 4)) (O.And ∷ O.Or ∷ []) ≡ (NoRule 4 ∷ []) ∷ (NoRule 4 ∷ []) ∷ [] }
    ensures no_first { faults_at (BinaryE O.Add x (var_b 5) 4) ≡ UnknownName 9 ∷ [] }
    ensures no_second { faults_at (BinaryE O.Add (var_b 5) x 4) ≡ UnknownName 9 ∷ [] }
    ensures in_order { faults_at (BinaryE O.Add (NotE (var_n 3) 2) (NegE (var_b 6) 5) 4) ≡ NoRule 2 ∷ NoRule 5 ∷ [] }
    ensures then_its_own { faults_at (BinaryE O.Add (var_b 3) (ParenE (var_n 6) 5) 4) ≡ NoRule 4 ∷ [] }
{}

/// Fields and methods of the receiver's class, its own or from above; arguments that fit, as many as parameters.
pub fn what_receivers_have()
    ensures own_field { type_at (get_of (var_r 3) (codes "sold")) ≡ Some (typed boolean_type (core.GetE r_core 3)) }
    ensures inherited_field { type_at (get_of (var_r 3) (codes "left")) ≡ Some (typed int_type (core.GetE r_core 1)) }
    ensures object_field { type_at (get_of (var_r 3) (codes "twin")) ≡ Some (typed (class_type 0) (core.GetE r_core 2)) }
    ensures field_from_below { faults_at (get_of (var_i 3) (codes "sold")) ≡ UnknownName 5 ∷ [] }
    ensures field_of_an_int { faults_at (get_of (var_n 3) (codes "sold")) ≡ NoRule 5 ∷ [] }
    ensures field_of_null { faults_at (get_of (NullE 3) (codes "sold")) ≡ NoRule 5 ∷ [] }
    ensures field_of_nothing { faults_at (get_of x (codes "sold")) ≡ UnknownName 9 ∷ [] }
    ensures own_method { type_at (method_call_tree (var_r 3) (codes "take") (one_expr (var_n 7))) ≡ Some (typed int_type (core.CallE r_core 2 (core.and_expr n_core core.no_exprs))) }
    ensures method_above { type_at (method_call_tree (var_i 3) (codes "take") (one_expr (var_n 7))) ≡ Some (typed int_type (core.CallE i_core 0 (core.and_expr n_core core.no_exprs))) }
    ensures inherited_method { type_at (method_call_tree (var_r 3) (codes "log") no_exprs) ≡ Some (typed VoidT (core.CallE r_core 1 core.no_exprs)) }
    ensures unknown_method { faults_at (method_call_tree (var_r 3) (codes "x") no_exprs) ≡ UnknownName 5 ∷ [] }
    ensures method_of_a_truth { faults_at (method_call_tree (var_b 3) (codes "log") no_exprs) ≡ NoRule 5 ∷ [] }
    ensures too_few { faults_at (method_call_tree (var_r 3) (codes "take") no_exprs) ≡ NoRule 5 ∷ [] }
    ensures too_many { faults_at (method_call_tree (var_r 3) (codes "take") (more_exprs (var_n 7) (one_expr (var_n 8)))) ≡ NoRule 5 ∷ [] }
    ensures no_fit { faults_at (method_call_tree (var_r 3) (codes "take") (one_expr (var_b 7))) ≡ NoRule 5 ∷ [] }
    ensures void_argument { faults_at (method_call_tree (var_r 3) (codes "take") (one_expr (method_call_tree (var_r 6) (codes "log") no_exprs))) ≡ NoRule 5 ∷ [] }
    ensures unknown_argument { faults_at (method_call_tree (var_r 3) (codes "take") (one_expr x)) ≡ UnknownName 9 ∷ [] }
    ensures unknown_second_argument { faults_at (method_call_tree (var_r 3) (codes "take") (more_exprs (var_n 7) (one_expr x))) ≡ UnknownName 9 ∷ [] }
    ensures unknown_method_and_argument { faults_at (method_call_tree (var_r 3) (codes "x") (one_expr x)) ≡ UnknownName 9 ∷ UnknownName 5 ∷ [] }
    ensures unknown_receiver { faults_at (method_call_tree x (codes "take") (one_expr (NotE (var_n 8) 7))) ≡ UnknownName 9 ∷ NoRule 7 ∷ [] }
    ensures no_receiver_and_argument { faults_at (method_call_tree (var_n 3) (codes "take") (one_expr x)) ≡ UnknownName 9 ∷ [] }
{}

/// A new object has a value for each final field, those from above first.
pub fn what_new_objects_want()
    ensures new_object { type_at (new_of (codes "Item") (one_expr (var_n 7))) ≡ Some (typed (class_type 0) (core.NewE 0 (core.and_expr n_core core.no_exprs))) }
    ensures inherited_first { type_at (new_of (codes "Rare") (more_exprs (var_n 7) (one_expr (var_r 8)))) ≡ Some (typed (class_type 1) (core.NewE 1 (core.and_expr n_core (core.and_expr r_core core.no_exprs)))) }
    ensures null_argument { type_at (new_of (codes "Rare") (more_exprs (var_n 7) (one_expr (NullE 8)))) ≡ Some (typed (class_type 1) (core.NewE 1 (core.and_expr n_core (core.and_expr core.NullE core.no_exprs)))) }
    ensures other_order { faults_at (new_of (codes "Rare") (more_exprs (var_r 7) (one_expr (var_n 8)))) ≡ NoRule 4 ∷ [] }
    ensures too_few { faults_at (new_of (codes "Rare") (one_expr (var_n 7))) ≡ NoRule 4 ∷ [] }
    ensures no_class { faults_at (new_of (codes "X") no_exprs) ≡ UnknownName 4 ∷ [] }
    ensures no_argument { faults_at (new_of (codes "Item") (one_expr x)) ≡ UnknownName 9 ∷ [] }
    ensures no_class_and_argument { faults_at (new_of (codes "X") (one_expr x)) ≡ UnknownName 9 ∷ UnknownName 4 ∷ [] }
    ensures finals { map (final_types shop_table) (0 ∷ 1 ∷ 2 ∷ 9 ∷ []) ≡ (T.Int ∷ []) ∷ (T.Int ∷ T.Class 0 ∷ []) ∷ [] ∷ [] ∷ [] }
    ensures types { map (type_rule shop_table) (Y.Int ∷ Y.Boolean ∷ Y.Class (name (codes "Rare") 3) ∷ Y.Class (name (codes "X") 3) ∷ []) ≡
        Ok T.Int ∷ Ok T.Boolean ∷ Ok (T.Class 1) ∷ Err (UnknownName 3) ∷ [] }
{}

/// The variables in scope, of which the first of a name counts.
pub fn what_names_mean()
    ensures bound { is_bound in_scope (codes "r") ≡ true }
    ensures not_bound { is_bound in_scope (codes "this") ≡ false }
    ensures this { this_variable 1 ≡ record { slot = 0; is_final = true; ty = T.Class 1 } }
    ensures parameters { scope_of_parameters shop_table 1 (n_param ∷ record { is_final = false; ty = Y.Class (name (codes "Rare") 0); name = name (codes "q") 0 } ∷ []) ≡
        record { name = codes "n"; variable = record { slot = 1; is_final = true; ty = T.Int } }
        ∷ record { name = codes "q"; variable = record { slot = 2; is_final = false; ty = T.Class 1 } } ∷ [] }
{}
