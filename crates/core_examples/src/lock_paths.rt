//! Which expressions are lock expressions, with which paths, and the guards of accesses.
ghost use Rattle.std.specs.Prelude.{◌≡◌, true, false, [], ◌∷◌, Option, Some, None};
ghost use Rattle.paths.specs.Paths.{PathData};
ghost use Rattle.core_program.specs.declared.types.CoreType.TheVariants.{Int, Boolean, Class};
ghost use Rattle.core_program.specs.Core.{NullE, ThisE, VarE, GetE, CallE, NewE, no_exprs, and_expr};
ghost use Rattle.core_program.specs.Locks.{is_class, path_of};
ghost use Rattle.rules.specs.declared.guard.Guard.TheVariants.{Final, Free, Named, Unnamed, WriteNamed, WriteUnnamed};
ghost use Rattle.rules.specs.Guards.{guard_of, guard_path};
ghost use Rattle.rules.specs.Mentions.{paths_of};
ghost use Rattle.core_examples.specs.Fields.{path, nodes, node_type, of_this};

/// `this` and final variables of class type are locks, and so are their final fields of class type, up to two of them.
pub fn which_expressions_are_locks()
    ensures this { path_of nodes ThisE ≡ Some (path 0 []) }
    ensures final_variable { path_of nodes (VarE 2 true node_type) ≡ Some (path 2 []) }
    ensures plain_variable { path_of nodes (VarE 2 false node_type) ≡ None }
    ensures final_number { path_of nodes (VarE 2 true Int) ≡ None }
    ensures final_truth { path_of nodes (VarE 2 true Boolean) ≡ None }
    ensures final_field { path_of nodes (of_this 0) ≡ Some (path 0 (0 ∷ [])) }
    ensures plain_field { path_of nodes (of_this 1) ≡ None }
    ensures number_field { path_of nodes (of_this 2) ≡ None }
    ensures no_field { path_of nodes (of_this 8) ≡ None }
    ensures two_fields { path_of nodes (GetE (of_this 0) 3) ≡ Some (path 0 (0 ∷ 3 ∷ [])) }
    ensures three_fields { path_of nodes (GetE (GetE (of_this 0) 3) 0) ≡ None }
    ensures behind_a_plain_field { path_of nodes (GetE (of_this 1) 0) ≡ None }
    ensures behind_a_variable { path_of nodes (GetE (VarE 2 true node_type) 3) ≡ Some (path 2 (3 ∷ [])) }
    ensures null { path_of nodes NullE ≡ None }
    ensures call { path_of nodes (CallE ThisE 0 no_exprs) ≡ None }
    ensures new_object { path_of nodes (NewE 0 no_exprs) ≡ None }
    ensures arguments { paths_of nodes (and_expr ThisE (and_expr NullE (and_expr (of_this 0) no_exprs))) ≡ Some (path 0 []) ∷ None ∷ Some (path 0 (0 ∷ [])) ∷ [] }
    ensures objects { is_class (Class 0) ≡ true }
    ensures numbers { is_class Int ≡ false }
    ensures truths { is_class Boolean ≡ false }
{}

/// The guard of an access is the receiver's path with the guard's fields behind it; where there is none it is unnamed.
pub fn which_guards_accesses_have()
    ensures final_field { (receiver : Option PathData) → guard_of nodes 0 receiver ≡ Final }
    ensures free { (receiver : Option PathData) → guard_of nodes 1 receiver ≡ Free }
    ensures by_this { guard_of nodes 4 (Some (path 1 (3 ∷ []))) ≡ Named (path 1 (3 ∷ [])) }
    ensures by_a_field { guard_of nodes 5 (Some (path 1 (3 ∷ []))) ≡ Named (path 1 (3 ∷ 0 ∷ [])) }
    ensures by_two_fields { guard_of nodes 7 (Some (path 1 [])) ≡ Named (path 1 (0 ∷ 3 ∷ [])) }
    ensures too_long { guard_of nodes 7 (Some (path 1 (3 ∷ []))) ≡ Unnamed }
    ensures no_receiver { guard_of nodes 4 None ≡ Unnamed }
    ensures of_writes { guard_of nodes 6 (Some (path 1 [])) ≡ WriteNamed (path 1 (0 ∷ [])) }
    ensures of_writes_too_long { guard_of nodes 6 (Some (path 1 (3 ∷ 3 ∷ []))) ≡ WriteUnnamed }
    ensures of_writes_no_receiver { guard_of nodes 6 None ≡ WriteUnnamed }
    ensures no_field { guard_of nodes 8 (Some (path 1 [])) ≡ Unnamed }
{}

/// A guard whose path is known has it, also one that guards writes alone.
pub fn which_guards_have_paths()
    ensures named { (p : PathData) → guard_path (Named p) ≡ Some p }
    ensures write_named { (p : PathData) → guard_path (WriteNamed p) ≡ Some p }
    ensures unnamed { guard_path Unnamed ≡ None }
    ensures write_unnamed { guard_path WriteUnnamed ≡ None }
    ensures free { guard_path Free ≡ None }
    ensures final_field { guard_path Final ≡ None }
{}
