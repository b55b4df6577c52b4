//! What the locks of `requires` mean, and which methods may override which.
ghost use Rattle.std.specs.Prelude.{◌≡◌, ◌==◌, if◌then◌else◌, true, false, [], ◌∷◌, map, Some, None, codes};
ghost use Rattle.syntax.specs.declared.tree.TypeName.TheVariants as Y;
ghost use Rattle.classes.specs.Overriding.{field_from, field_named, class_of_type, reach_from, meaning_of, meanings_of, param_root, most_lock_fields, are_same_places, is_same_lock, are_among, same_where_known, same_mark, are_alike, is_same_result, is_same_signature, signature_of, may_override, headings_at, clashes, overrides_badly};
ghost use Rattle.front_examples.specs.Written.{name, class_type_name, param, this_lock, lock_tree, field, bare_method};
ghost use Rattle.front_examples.specs.Shop.{n_param, shop, right_constructor};
ghost use Rattle.front_examples.specs.Overridden.{locked_program, found, reach, field_place, first_params, signature, method_heading, requiring, pick, on_lock};

/// A field is looked for in the class itself, and then in the nearest ancestor that has one of the name.
pub fn which_field_a_lock_goes_through()
    ensures own { field_named locked_program 1 (codes "lock") ≡ Some (found 1 0 true (class_type_name (codes "L") 24)) }
    ensures second_own { field_named locked_program 1 (codes "num") ≡ Some (found 1 1 true Y.Int) }
    ensures inherited { field_named locked_program 1 (codes "open") ≡ Some (found 0 1 false (class_type_name (codes "L") 4)) }
    ensures behind_other_members { field_from 5 0 (bare_method (name (codes "f") 1) ∷ right_constructor ∷ field true Y.Int (name (codes "f") 2) ∷ []) (codes "f") ≡ Some (found 5 0 true Y.Int) }
    ensures above { field_named locked_program 0 (codes "lock") ≡ Some (found 0 0 true (class_type_name (codes "L") 2)) }
    ensures missing { field_named locked_program 0 (codes "num") ≡ None }
    ensures of_types { map (class_of_type locked_program) (Y.Int ∷ Y.Boolean ∷ class_type_name (codes "B") 0 ∷ class_type_name (codes "X") 0 ∷ []) ≡ None ∷ None ∷ Some 1 ∷ None ∷ [] }
{}

/// What a lock means: where it begins, through which fields it leads, and to which class.
pub fn what_locks_mean()
    ensures this { meaning_of locked_program 1 [] this_lock ≡ Some (reach 0 [] 1) }
    ensures field { meaning_of locked_program 0 [] (lock_tree None (name (codes "lock") 0 ∷ []) 0) ≡ Some (reach 0 (field_place 0 0 ∷ []) 2) }
    ensures own_field { meaning_of locked_program 1 [] (lock_tree None (name (codes "lock") 0 ∷ []) 0) ≡ Some (reach 0 (field_place 1 0 ∷ []) 2) }
    ensures two_fields { meaning_of locked_program 0 [] (lock_tree None (name (codes "lock") 0 ∷ name (codes "next") 0 ∷ []) 0) ≡ Some (reach 0 (field_place 0 0 ∷ field_place 2 0 ∷ []) 2) }
    ensures three_fields { meaning_of locked_program 0 [] (lock_tree None (name (codes "lock") 0 ∷ name (codes "next") 0 ∷ name (codes "next") 0 ∷ []) 0) ≡ None }
    ensures plain_field { meaning_of locked_program 0 [] (lock_tree None (name (codes "open") 0 ∷ []) 0) ≡ None }
    ensures number_field { meaning_of locked_program 1 [] (lock_tree None (name (codes "num") 0 ∷ []) 0) ≡ None }
    ensures no_field { meaning_of locked_program 0 [] (lock_tree None (name (codes "x") 0 ∷ []) 0) ≡ None }
    ensures first_parameter { meaning_of locked_program 0 first_params (lock_tree (Some (name (codes "p") 0)) [] 0) ≡ Some (reach 1 [] 2) }
    ensures parameter { meaning_of locked_program 0 first_params (lock_tree (Some (name (codes "q") 0)) (name (codes "lock") 0 ∷ []) 0) ≡ Some (reach 2 (field_place 1 0 ∷ []) 2) }
    ensures plain_parameter { meaning_of locked_program 0 first_params (lock_tree (Some (name (codes "s") 0)) [] 0) ≡ None }
    ensures number_parameter { meaning_of locked_program 0 (param true Y.Int (name (codes "n") 0) ∷ []) (lock_tree (Some (name (codes "n") 0)) [] 0) ≡ None }
    ensures no_parameter { meaning_of locked_program 0 first_params (lock_tree (Some (name (codes "x") 0)) [] 0) ≡ None }
    ensures first_of_two { param_root locked_program 4 (param true (class_type_name (codes "L") 0) (name (codes "p") 0) ∷ first_params) (codes "p") ≡ Some (reach_from 4 2) }
    ensures all { meanings_of locked_program 0 first_params (this_lock ∷ lock_tree (Some (name (codes "p") 0)) [] 0 ∷ []) ≡ Some (reach 0 [] 0 ∷ reach 1 [] 2 ∷ []) }
    ensures one_unknown { meanings_of locked_program 0 first_params (this_lock ∷ lock_tree (Some (name (codes "x") 0)) [] 0 ∷ []) ≡ None }
    ensures first_unknown { meanings_of locked_program 0 first_params (lock_tree (Some (name (codes "x") 0)) [] 0 ∷ this_lock ∷ []) ≡ None }
    ensures none { meanings_of locked_program 0 first_params [] ≡ Some [] }
    ensures most { most_lock_fields ≡ 2 }
{}

/// Two locks are the same by slot and fields, and two sets of locks where each lock of one stands in the other; what isn't known isn't compared.
pub fn which_locks_are_the_same()
    ensures same { is_same_lock (reach 1 (field_place 0 0 ∷ []) 2) (reach 1 (field_place 0 0 ∷ []) 5) ≡ true }
    ensures other_fields { is_same_lock (reach 1 (field_place 0 0 ∷ []) 2) (reach 1 [] 2) ≡ false }
    ensures other_slot { is_same_lock (reach 1 (field_place 0 0 ∷ []) 2) (reach 2 (field_place 0 0 ∷ []) 2) ≡ false }
    ensures other_class { are_same_places (field_place 0 0 ∷ []) (field_place 1 0 ∷ []) ≡ false }
    ensures other_place { are_same_places (field_place 0 0 ∷ []) (field_place 0 1 ∷ []) ≡ false }
    ensures longer { are_same_places (field_place 0 0 ∷ []) (field_place 0 0 ∷ field_place 0 0 ∷ []) ≡ false }
    ensures shorter { are_same_places (field_place 0 0 ∷ field_place 0 0 ∷ []) (field_place 0 0 ∷ []) ≡ false }
    ensures second_place { are_same_places (field_place 0 0 ∷ field_place 0 1 ∷ []) (field_place 0 0 ∷ field_place 0 2 ∷ []) ≡ false }
    ensures among { are_among (reach 0 [] 1 ∷ []) (reach 1 [] 1 ∷ reach 0 [] 1 ∷ []) ≡ true }
    ensures not_among { are_among (reach 0 [] 1 ∷ reach 1 [] 1 ∷ []) (reach 0 [] 1 ∷ []) ≡ false }
    ensures other_order { same_where_known (Some (reach 0 [] 1 ∷ reach 1 [] 1 ∷ [])) (Some (reach 1 [] 1 ∷ reach 0 [] 1 ∷ [])) ≡ true }
    ensures one_more { same_where_known (Some (reach 0 [] 1 ∷ [])) (Some (reach 0 [] 1 ∷ reach 1 [] 1 ∷ [])) ≡ false }
    ensures one_less { same_where_known (Some (reach 0 [] 1 ∷ reach 1 [] 1 ∷ [])) (Some (reach 0 [] 1 ∷ [])) ≡ false }
    ensures first_unknown { same_where_known None (Some (reach 0 [] 1 ∷ [])) ≡ true }
    ensures second_unknown { same_where_known (Some (reach 0 [] 1 ∷ [])) None ≡ true }
    ensures marks { same_mark true true ∷ same_mark true false ∷ same_mark false true ∷ same_mark false false ∷ [] ≡ true ∷ false ∷ false ∷ true ∷ [] }
    ensures results { is_same_result None None ∷ is_same_result None (Some Y.Int) ∷ is_same_result (Some Y.Int) None ∷ is_same_result (Some Y.Int) (Some Y.Boolean) ∷ is_same_result (Some Y.Int) (Some Y.Int) ∷ [] ≡
        true ∷ false ∷ false ∷ false ∷ true ∷ [] }
{}

/// Parameters are alike in types and `final` marks, whatever their names are.
pub fn which_parameters_are_alike()
    ensures other_names { are_alike first_params (param true (class_type_name (codes "L") 0) (name (codes "x") 0) ∷ param true (class_type_name (codes "B") 0) (name (codes "y") 0) ∷ param false (class_type_name (codes "L") 0) (name (codes "z") 0) ∷ []) ≡ true }
    ensures one_less { are_alike first_params (param true (class_type_name (codes "L") 0) (name (codes "x") 0) ∷ []) ≡ false }
    ensures one_more { are_alike [] first_params ≡ false }
    ensures other_mark { are_alike (param true Y.Int (name (codes "x") 0) ∷ []) (param false Y.Int (name (codes "x") 0) ∷ []) ≡ false }
    ensures other_type { are_alike (param true Y.Int (name (codes "x") 0) ∷ []) (param true Y.Boolean (name (codes "x") 0) ∷ []) ≡ false }
    ensures other_last { are_alike (n_param ∷ n_param ∷ []) (n_param ∷ param true Y.Boolean (name (codes "n") 0) ∷ []) ≡ false }
    ensures none { are_alike [] [] ≡ true }
{}

/// An overriding method has the same parameters, result, `atomic` and `requires`.
pub fn what_overriding_methods_share()
    ensures same { is_same_signature signature signature ≡ true }
    ensures other_parameters { is_same_signature signature (record signature { params = [] }) ≡ false }
    ensures other_result { is_same_signature signature (record signature { returns = None }) ≡ false }
    ensures other_mark { is_same_signature signature (record signature { atomic = true }) ≡ false }
    ensures other_locks { is_same_signature signature (record signature { locks = Some [] }) ≡ false }
    ensures unknown_locks { is_same_signature signature (record signature { locks = None }) ≡ true }
    ensures of_a_method { signature_of locked_program 0 requiring ≡ record { atomic = false; returns = None; params = n_param ∷ []; locks = Some (reach 0 [] 0 ∷ []) } }
    ensures other_names_of_locks { may_override locked_program 1 (pick (codes "p")) 0 (pick (codes "q")) ≡ true }
    ensures not_another_result { may_override locked_program 1 (pick (codes "p")) 0 requiring ≡ false }
    ensures other_class { may_override locked_program 1 on_lock 0 on_lock ≡ false }
    ensures same_class { may_override locked_program 0 on_lock 0 on_lock ≡ true }
    ensures clash { clashes (method_heading (codes "m") signature) (method_heading (codes "m") (record signature { atomic = true })) ≡ true }
    ensures other_method { clashes (method_heading (codes "m") signature) (method_heading (codes "n") (record signature { atomic = true })) ≡ false }
    ensures no_clash { clashes (method_heading (codes "m") signature) (method_heading (codes "m") signature) ≡ false }
    ensures badly { overrides_badly (λ k. method_heading (codes "m") (record signature { atomic = true }) ∷ []) (3 ∷ []) (method_heading (codes "m") signature) ≡ true }
    ensures badly_one_of_two { overrides_badly (λ k. method_heading (codes "n") signature ∷ method_heading (codes "m") (record signature { atomic = true }) ∷ []) (3 ∷ []) (method_heading (codes "m") signature) ≡ true }
    ensures further_above { overrides_badly (λ k. if k == 4 then method_heading (codes "m") (record signature { atomic = true }) ∷ [] else []) (3 ∷ 4 ∷ []) (method_heading (codes "m") signature) ≡ true }
    ensures nothing { overrides_badly (λ k. method_heading (codes "m") (record signature { atomic = true }) ∷ []) [] (method_heading (codes "m") signature) ≡ false }
    ensures methods { map (λ h. h.name.text) (headings_at shop 0) ≡ codes "take" ∷ codes "log" ∷ [] }
{}
