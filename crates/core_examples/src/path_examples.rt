//! Lock paths: their order, longer ones, and what a callee's paths are called at a call.
ghost use Rattle.std.specs.Prelude.{◌≡◌, true, false, List, [], ◌∷◌, Option, Some, None};
ghost use Rattle.std.specs.declared.cmp.Ordering.TheVariants.{Less, Equal, Greater};
ghost use Rattle.paths.specs.Paths.{PathData, path_order, path_eq, extended, extended_some};
ghost use Rattle.paths.specs.Renamings.{under_call};
ghost use Rattle.core_examples.specs.Fields.{path};

/// The smaller root comes first, then the smaller first field that differs, and a path before the longer ones that begin with it.
pub fn how_paths_are_ordered()
    ensures by_root { path_order (path 1 (7 ∷ [])) (path 2 []) ≡ Less }
    ensures by_root_back { path_order (path 2 []) (path 1 (7 ∷ [])) ≡ Greater }
    ensures by_field { path_order (path 0 (1 ∷ 9 ∷ [])) (path 0 (2 ∷ [])) ≡ Less }
    ensures by_second_field { path_order (path 0 (1 ∷ 9 ∷ [])) (path 0 (1 ∷ 8 ∷ [])) ≡ Greater }
    ensures front_first { path_order (path 0 (1 ∷ [])) (path 0 (1 ∷ 0 ∷ [])) ≡ Less }
    ensures same { path_order (path 0 (1 ∷ 2 ∷ [])) (path 0 (1 ∷ 2 ∷ [])) ≡ Equal }
{}

/// Two paths are equal where root and all fields are.
pub fn which_paths_are_equal()
    ensures same { path_eq (path 0 (1 ∷ 2 ∷ [])) (path 0 (1 ∷ 2 ∷ [])) ≡ true }
    ensures other_root { path_eq (path 0 (1 ∷ [])) (path 3 (1 ∷ [])) ≡ false }
    ensures other_field { path_eq (path 0 (1 ∷ [])) (path 0 (2 ∷ [])) ≡ false }
    ensures longer { path_eq (path 0 (1 ∷ [])) (path 0 (1 ∷ 2 ∷ [])) ≡ false }
    ensures shorter { path_eq (path 0 (1 ∷ 2 ∷ [])) (path 0 (1 ∷ [])) ≡ false }
{}

/// More fields stand at the end, and a path has at most two.
pub fn how_paths_are_extended()
    ensures none_more { extended (path 1 (4 ∷ 5 ∷ [])) [] ≡ Some (path 1 (4 ∷ 5 ∷ [])) }
    ensures one_more { extended (path 1 (4 ∷ [])) (5 ∷ []) ≡ Some (path 1 (4 ∷ 5 ∷ [])) }
    ensures two_more { extended (path 1 []) (4 ∷ 5 ∷ []) ≡ Some (path 1 (4 ∷ 5 ∷ [])) }
    ensures too_long { extended (path 1 (4 ∷ [])) (5 ∷ 6 ∷ []) ≡ None }
    ensures of_some { extended_some (Some (path 1 [])) (4 ∷ []) ≡ Some (path 1 (4 ∷ [])) }
    ensures of_none { extended_some None [] ≡ None }
{}

/// `this` becomes the receiver's path and a parameter its argument's, with the callee's fields behind it.
pub fn what_a_callee_names()
    ensures receiver { (args : List (Option PathData)) → under_call (Some (path 3 (7 ∷ []))) args (path 0 (8 ∷ [])) ≡ Some (path 3 (7 ∷ 8 ∷ [])) }
    ensures no_receiver { (args : List (Option PathData)) → under_call None args (path 0 []) ≡ None }
    ensures first { under_call None (Some (path 4 []) ∷ Some (path 5 []) ∷ []) (path 1 (8 ∷ [])) ≡ Some (path 4 (8 ∷ [])) }
    ensures second { under_call None (Some (path 4 []) ∷ Some (path 5 []) ∷ []) (path 2 []) ≡ Some (path 5 []) }
    ensures without_path { under_call (Some (path 3 [])) (None ∷ []) (path 1 []) ≡ None }
    ensures missing { under_call (Some (path 3 [])) (Some (path 4 []) ∷ []) (path 2 []) ≡ None }
    ensures too_long { under_call (Some (path 3 (7 ∷ []))) [] (path 0 (8 ∷ 9 ∷ [])) ≡ None }
{}
