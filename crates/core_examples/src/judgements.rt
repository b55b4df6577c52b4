//! Relevant sets, and which programs are accepted.
ghost use Rattle.std.specs.Prelude.{◌≡◌, true, false, [], ◌∷◌, map};
ghost use Rattle.algebra.specs.declared.basic.Basic.TheVariants.{Atomic, Cmpd};
ghost use Rattle.algebra.specs.HeldPaths.{has_path};
ghost use Rattle.core_program.specs.Core.{EmptyS};
ghost use Rattle.core_program.specs.Examples.{synchronized_this};
ghost use Rattle.rules.specs.Near.{AreRelevant, begins_in, rel_of, loc_of, most_locks};
ghost use Rattle.rules.specs.Rules.{IsAccepted, held_in, declared_bound};
ghost use Rattle.core_examples.specs.Fields.{path};
ghost use Rattle.core_examples.specs.Judged.{meetings, meeting_sets, two_writes, no_lock, requiring_program, call_put, overridden, put_free};

/// A path becomes relevant by each of the six rules; one that is too long, that the class above lacks, that begins at another method's
/// local, or whose receiver is no path, doesn't.
pub fn which_paths_are_relevant()
    ensures { AreRelevant meetings meeting_sets }
{}

/// Two writes that nothing guards are compound, which no method declared `atomic` may be; an access without its lock no method may have.
pub fn which_bounds_are_kept()
    ensures compound { IsAccepted (two_writes false) }
    ensures not_atomic { IsAccepted (two_writes true) → ⊥ }
    ensures without_lock { IsAccepted no_lock → ⊥ }
{}

/// A method with `requires` is judged where it has its locks; who calls it has them.
pub fn who_has_required_locks()
    ensures with_lock { IsAccepted (requiring_program (synchronized_this call_put)) }
    ensures without_lock { IsAccepted (requiring_program call_put) → ⊥ }
{}

/// Who calls a method may come to one that overrides it, so both count.
pub fn what_overriding_methods_do()
    ensures both_movers { IsAccepted (overridden EmptyS) }
    ensures one_not { IsAccepted (overridden put_free) → ⊥ }
{}

/// What the rules of acceptance are made of: bounds, paths that a class knows, those of a set that are relevant, and sets by method.
pub fn what_the_rules_speak_of()
    ensures bounds { map declared_bound (true ∷ false ∷ []) ≡ Atomic ∷ Cmpd ∷ [] }
    ensures known { begins_in meetings 0 0 (0 ∷ 9 ∷ []) ≡ true }
    ensures unknown { begins_in meetings 0 0 (8 ∷ []) ≡ false }
    ensures known_below { begins_in meetings 1 0 (8 ∷ []) ≡ true }
    ensures this { begins_in meetings 0 0 [] ≡ true }
    ensures of_a_parameter { begins_in meetings 0 1 (8 ∷ []) ≡ true }
    ensures in_the_set { held_in (path 0 [] ∷ []) (has_path (path 0 [] ∷ path 1 [] ∷ [])) (path 0 []) ≡ true }
    ensures not_relevant { held_in (path 0 [] ∷ []) (has_path (path 0 [] ∷ path 1 [] ∷ [])) (path 1 []) ≡ false }
    ensures not_held { held_in (path 0 [] ∷ []) (has_path (path 1 [] ∷ [])) (path 0 []) ≡ false }
    ensures relevant { rel_of meeting_sets 5 ≡ path 0 (0 ∷ []) ∷ [] }
    ensures local { loc_of meeting_sets 5 ≡ path 1 [] ∷ [] }
    ensures no_method { rel_of meeting_sets 10 ≡ [] }
    ensures no_method_either { loc_of meeting_sets 10 ≡ [] }
    ensures limit { most_locks ≡ 8 }
{}
