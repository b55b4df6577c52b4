//! Which lock expressions are locks, and with which paths.
ghost use Rattle.std.specs.Prelude.{◌≡◌, [], ◌∷◌, Some, None, Ok, Err, codes};
ghost use Rattle.typing.specs.declared.fault.TypeFault.TheVariants.{UnknownName, NotALock};
ghost use Rattle.typing.specs.Locks.{lock_rule};
ghost use Rattle.front_examples.specs.Written.{name, lock_tree};
ghost use Rattle.front_examples.specs.Shop.{shop_table, in_scope};
ghost use Rattle.front_examples.specs.Knots.{knots_table, knots_scope, core_path};

/// `this`, or a final variable, with at most two final fields behind it, of class type throughout.
pub fn which_expressions_are_locks()
    ensures this { lock_rule shop_table 1 in_scope (lock_tree None [] 5) ≡ Ok (core_path 0 []) }
    ensures field { lock_rule shop_table 1 in_scope (lock_tree None (name (codes "twin") 6 ∷ []) 5) ≡ Ok (core_path 0 (2 ∷ [])) }
    ensures variable { lock_rule shop_table 0 in_scope (lock_tree (Some (name (codes "r") 5)) [] 5) ≡ Ok (core_path 3 []) }
    ensures field_of_a_variable { lock_rule shop_table 0 in_scope (lock_tree (Some (name (codes "r") 5)) (name (codes "twin") 6 ∷ []) 5) ≡ Ok (core_path 3 (2 ∷ [])) }
    ensures plain_variable { lock_rule shop_table 0 in_scope (lock_tree (Some (name (codes "i") 5)) [] 5) ≡ Err (NotALock 5) }
    ensures int_variable { lock_rule shop_table 0 in_scope (lock_tree (Some (name (codes "n") 5)) [] 5) ≡ Err (NotALock 5) }
    ensures int_field { lock_rule shop_table 0 in_scope (lock_tree None (name (codes "price") 6 ∷ []) 5) ≡ Err (NotALock 5) }
    ensures behind_an_int { lock_rule shop_table 0 in_scope (lock_tree (Some (name (codes "n") 5)) (name (codes "x") 6 ∷ []) 5) ≡ Err (NotALock 5) }
    ensures unknown_variable { lock_rule shop_table 0 in_scope (lock_tree (Some (name (codes "x") 5)) (name (codes "y") 6 ∷ []) 5) ≡ Err (UnknownName 5) }
    ensures unknown_field { lock_rule shop_table 0 in_scope (lock_tree None (name (codes "x") 6 ∷ name (codes "y") 7 ∷ []) 5) ≡ Err (UnknownName 6) }
    ensures field_from_below { lock_rule shop_table 0 in_scope (lock_tree None (name (codes "twin") 6 ∷ []) 5) ≡ Err (UnknownName 6) }
    ensures no_variables { lock_rule shop_table 0 [] (lock_tree (Some (name (codes "r") 5)) [] 5) ≡ Err (UnknownName 5) }
{}

/// The whole lock is judged at its end: a field that isn't final, and a third one, are told at the first token, an unknown name before them.
pub fn how_long_locks_are()
    ensures two_fields { lock_rule knots_table 0 knots_scope (lock_tree None (name (codes "left") 6 ∷ name (codes "right") 7 ∷ []) 5) ≡ Ok (core_path 0 (0 ∷ 1 ∷ [])) }
    ensures three_fields { lock_rule knots_table 0 knots_scope (lock_tree None (name (codes "left") 6 ∷ name (codes "right") 7 ∷ name (codes "left") 8 ∷ []) 5) ≡ Err (NotALock 5) }
    ensures plain_field { lock_rule knots_table 0 knots_scope (lock_tree None (name (codes "next") 6 ∷ []) 5) ≡ Err (NotALock 5) }
    ensures plain_field_on_the_way { lock_rule knots_table 0 knots_scope (lock_tree None (name (codes "next") 6 ∷ name (codes "left") 7 ∷ []) 5) ≡ Err (NotALock 5) }
    ensures behind_a_plain_variable { lock_rule knots_table 0 knots_scope (lock_tree (Some (name (codes "k") 5)) (name (codes "left") 6 ∷ []) 5) ≡ Err (NotALock 5) }
    ensures unknown_behind_three { lock_rule knots_table 0 knots_scope (lock_tree None (name (codes "left") 6 ∷ name (codes "left") 7 ∷ name (codes "left") 8 ∷ name (codes "x") 9 ∷ []) 5) ≡ Err (UnknownName 9) }
    ensures unknown_behind_a_plain_one { lock_rule knots_table 0 knots_scope (lock_tree None (name (codes "next") 6 ∷ name (codes "x") 7 ∷ []) 5) ≡ Err (UnknownName 7) }
{}
