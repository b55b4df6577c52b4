//! What is asked where each method counts as `atomic`, computed.
ghost use Rattle.std.specs.Prelude.{◌≡◌, true, false, [], ◌∷◌, map, Some, None};
ghost use Rattle.algebra.specs.declared.basic.Basic.TheVariants.{Atomic, Cmpd, Error};
ghost use Rattle.core_program.specs.Examples.{plain_method};
ghost use Rattle.explain.specs.Strict.{entries_behind, is_settled, refused_strictly, settled_from, strict_explanations, is_thread_entry, is_run, keep_all, keep_from, keeps_strictly, strict_bound, strict_from, strict_limit, strictly_broken, strictly_broken_from, strictly_told};
ghost use Rattle.explain_examples.specs.Outlines.{compound, nothing, told_outline, two};
ghost use Rattle.explain_examples.specs.Page.{locked_put, locking_program, no_locks, running_program};
ghost use Rattle.explain_examples.specs.Shelf.{all_compound, calling_entries, calling_main, put_in, puts, shelf_paths};

/// Which methods threads begin with, and how much each method may be: the program's `main` says `atomic` itself.
pub fn what_strictness_asks()
    ensures runs { map (is_run 2) (None ∷ Some 2 ∷ Some 3 ∷ []) ≡ false ∷ true ∷ false ∷ [] }
    ensures entries { map (is_thread_entry locking_program) (0 ∷ 1 ∷ 2 ∷ []) ≡ false ∷ true ∷ false ∷ [] }
    ensures threads { map (is_thread_entry running_program) (0 ∷ 1 ∷ 2 ∷ []) ≡ true ∷ true ∷ false ∷ [] }
    ensures bounds { map (λ m. strict_bound locking_program m (plain_method 0 0 false locked_put)) (0 ∷ 1 ∷ []) ≡ Atomic ∷ Cmpd ∷ [] }
    ensures promised { map (λ m. strict_bound running_program m (plain_method 0 0 true locked_put)) (0 ∷ 1 ∷ []) ≡ Atomic ∷ Atomic ∷ [] }
    ensures keeps { map (λ m. keeps_strictly locking_program all_compound m (plain_method 0 0 false locked_put)) (0 ∷ 1 ∷ []) ≡ false ∷ true ∷ [] }
    ensures limits { map (λ m. strict_limit locking_program all_compound m (plain_method 0 0 false locked_put)) (0 ∷ 1 ∷ []) ≡ Atomic ∷ Atomic ∷ [] }
    ensures wrong { map (λ m. strict_limit locking_program (λ k H. Error) m (plain_method 0 0 false locked_put)) (0 ∷ 1 ∷ []) ≡ Atomic ∷ Cmpd ∷ [] }
    ensures some_keep { map (λ m. keep_from locking_program all_compound m (plain_method 0 0 false locked_put ∷ plain_method 0 0 false locked_put ∷ [])) (0 ∷ 1 ∷ []) ≡ false ∷ false ∷ [] }
    ensures last_keeps { keep_from locking_program all_compound 1 (plain_method 0 0 false locked_put ∷ []) ≡ true }
    ensures broken { strictly_broken_from locking_program all_compound 0 (plain_method 0 0 false locked_put ∷ plain_method 0 0 false locked_put ∷ plain_method 0 0 false locked_put ∷ []) ≡ 0 ∷ 2 ∷ [] }
    ensures all { strictly_broken locking_program all_compound ≡ 0 ∷ 1 ∷ [] }
    ensures one { strictly_broken running_program all_compound ≡ 1 ∷ [] }
    ensures none_keep { keep_all locking_program all_compound ≡ false }
{}

/// What is told of them.
pub fn what_is_told_strictly()
    ensures one { map told_outline (strictly_told locking_program no_locks all_compound (λ m. []) [] 0 (plain_method 0 0 false locked_put)) ≡
        record { method = 0; is_refused = true; limit = Atomic; found = Cmpd; why = nothing } ∷ [] }
    ensures kept { map told_outline (strictly_told locking_program no_locks all_compound (λ m. []) [] 1 (plain_method 0 0 false locked_put)) ≡ [] }
    ensures those { map (λ x. x.method) (map told_outline (strict_from locking_program no_locks all_compound (λ m. []) [] 0 (plain_method 0 0 false locked_put ∷ plain_method 0 0 false locked_put ∷ plain_method 0 0 false locked_put ∷ []))) ≡ 0 ∷ 2 ∷ [] }
{}

/// Which methods need no lines as compound ones: those that are told, and those that are atomic.
pub fn which_methods_are_settled()
    ensures one { map (λ m. is_settled calling_main all_compound m (plain_method 0 100 false puts)) (0 ∷ 1 ∷ []) ≡ true ∷ false ∷ [] }
    ensures atomic { is_settled calling_main (λ m H. Atomic) 1 (plain_method 0 101 false (put_in 0)) ≡ true }
    ensures all { settled_from calling_main all_compound 0 (plain_method 0 100 false puts ∷ plain_method 0 101 false puts ∷ plain_method 0 102 false puts ∷ []) ≡ true ∷ false ∷ true ∷ [] }
{}

/// What is told behind them: a compound method that a thread begins with, where one of them leads to it, or one that is led to.
pub fn which_entries_are_told()
    ensures marked { map (λ told. map told_outline (entries_behind calling_main shelf_paths all_compound (λ k. []) [] told (refused_strictly calling_main shelf_paths all_compound (λ k. []) []))) ((true ∷ false ∷ []) ∷ (true ∷ true ∷ []) ∷ []) ≡
        (record { method = 1; is_refused = false; limit = Atomic; found = Cmpd; why = two 1 4 } ∷ []) ∷ [] ∷ [] }
    ensures none { map told_outline (entries_behind calling_main shelf_paths all_compound (λ k. []) [] (false ∷ false ∷ []) []) ≡ [] }
    ensures all { map told_outline (strict_explanations calling_main shelf_paths all_compound (λ k. []) []) ≡
        record { method = 0; is_refused = true; limit = Atomic; found = Cmpd; why = compound 2 } ∷ record { method = 1; is_refused = false; limit = Atomic; found = Cmpd; why = two 1 4 } ∷ [] }
    ensures both { map told_outline (strict_explanations calling_entries shelf_paths all_compound (λ k. []) []) ≡
        record { method = 0; is_refused = true; limit = Atomic; found = Cmpd; why = compound 2 } ∷ record { method = 1; is_refused = false; limit = Atomic; found = Cmpd; why = compound 2 }
        ∷ record { method = 2; is_refused = false; limit = Atomic; found = Cmpd; why = two 1 4 } ∷ [] }
{}
