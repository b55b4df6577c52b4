//! Which explanations are told, computed.
ghost use Rattle.std.specs.Prelude.{◌≡◌, [], ◌∷◌, map, Some, None};
ghost use Rattle.core_program.specs.Examples.{this_path};
ghost use Rattle.explain.specs.declared.causes.Cause.TheVariants as cause;
ghost use Rattle.explain.specs.Whys.{Wrong, Looped, Nothing};
ghost use Rattle.explain_text.specs.Arrangements.{alone, arranged, behind, blamed, told_or_counted, first_blaming, firsthand, how_many, refused_callee, secondhand};
ghost use Rattle.explain_examples.specs.Errors.{an_error, call_of_own, calls_that_fail, six_errors, told_with};
ghost use Rattle.explain_examples.specs.Page.{locking_program, no_locks, one_step};

/// The method for whose error alone one is an error.
pub fn which_method_is_blamed()
    ensures causes { map refused_callee (cause.Refused 1 ∷ cause.Lacking 1 this_path this_path None ∷ cause.Other ∷ []) ≡ Some 1 ∷ None ∷ None ∷ [] }
    ensures reasons { map (blamed locking_program no_locks) (Wrong (call_of_own 1) ∷ Wrong (one_step 1) ∷ Looped (call_of_own 1) 0 ∷ Nothing ∷ []) ≡ Some 1 ∷ None ∷ None ∷ None ∷ [] }
{}

/// Those with a reason of their own are told first, then one for each method that is blamed, with the number of the others.
pub fn which_errors_are_told()
    ensures own { map told_with (firsthand locking_program no_locks six_errors) ≡ (0, 0) ∷ (6, 0) ∷ [] }
    ensures blaming { map (λ y. y.callee) (secondhand locking_program no_locks six_errors) ≡ 0 ∷ 1 ∷ 0 ∷ 0 ∷ [] }
    ensures no_piece { alone (an_error 2 0) (Some 0) ≡ [] }
    ensures no_blame { behind (an_error 2 0) None ≡ [] }
    ensures many { map (λ m. how_many m calls_that_fail) (0 ∷ 1 ∷ 2 ∷ []) ≡ 3 ∷ 1 ∷ 0 ∷ [] }
    ensures first { map told_with (first_blaming [] calls_that_fail) ≡ (2, 2) ∷ (3, 0) ∷ [] }
    ensures seen { map told_with (first_blaming (0 ∷ []) calls_that_fail) ≡ (3, 0) ∷ [] }
    ensures all { map told_with (arranged locking_program no_locks six_errors) ≡ (0, 0) ∷ (6, 0) ∷ (2, 2) ∷ (3, 0) ∷ [] }
    ensures counts { told_or_counted (arranged locking_program no_locks six_errors) ≡ 6 }
{}
