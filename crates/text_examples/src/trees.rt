//! Conditional atomicities: their values, how they are written, and which are canonical.
ghost use Rattle.std.specs.Prelude.{◌≡◌, true, false, [], ◌∷◌, map, codes};
ghost use Rattle.algebra.specs.declared.basic.Basic.TheVariants.{Const, Mover, Atomic, Cmpd, Error};
ghost use Rattle.algebra.specs.HeldPaths.{has_path};
ghost use Rattle.conditions.specs.Conditions.{LeafC, TestC, value_of, cond_eq};
ghost use Rattle.conditions.specs.Texts.{path_text, text_of};
ghost use Rattle.books.specs.Books.{tests_high, is_canonical, most_nesting};
ghost use Rattle.core_examples.specs.Fields.{path};
ghost use Rattle.text_examples.specs.Texts.{mover_or_atomic, mover_or_error, two_tests};

/// A test is its first branch where the path is held, else the second one.
pub fn what_trees_are_worth()
    ensures leaf { value_of (LeafC Cmpd) (λ p. true) ≡ Cmpd }
    ensures held { value_of two_tests (has_path (path 0 [] ∷ [])) ≡ Const }
    ensures second_held { value_of two_tests (has_path (path 1 (7 ∷ 12 ∷ []) ∷ [])) ≡ Atomic }
    ensures none_held { value_of two_tests (has_path (path 1 [] ∷ [])) ≡ Cmpd }
    ensures same { cond_eq two_tests two_tests ≡ true }
    ensures other_leaf { cond_eq mover_or_atomic mover_or_error ≡ false }
    ensures other_first_branch { cond_eq (TestC (path 0 []) (LeafC Const) (LeafC Error)) mover_or_error ≡ false }
    ensures other_path { cond_eq (TestC (path 1 []) (LeafC Mover) (LeafC Error)) mover_or_error ≡ false }
    ensures leaf_and_test { cond_eq (LeafC Mover) mover_or_error ≡ false }
    ensures test_and_leaf { cond_eq mover_or_error (LeafC Mover) ≡ false }
    ensures leaves { cond_eq (LeafC Mover) (LeafC Atomic) ≡ false }
{}

/// A leaf is its name, a test stands in brackets; a path's numbers have points between them.
pub fn how_trees_are_written()
    ensures path_of_this { path_text (path 0 []) ≡ codes "0" }
    ensures longer_path { path_text (path 12 (7 ∷ 30 ∷ [])) ≡ codes "12.7.30" }
    ensures leaf { text_of (LeafC Cmpd) ≡ codes "cmpd" }
    ensures test { text_of mover_or_atomic ≡ codes "(0 mover atomic)" }
    ensures tests { text_of two_tests ≡ codes "(0 const (1.7.12 atomic cmpd))" }
    ensures in_the_first_branch { text_of (TestC (path 2 []) mover_or_atomic (LeafC Error)) ≡ codes "(2 (0 mover atomic) error)" }
{}

/// In a canonical tree paths ascend from the root on, and no test has two equal branches.
pub fn which_trees_are_canonical()
    ensures leaf { is_canonical (LeafC Error) ≡ true }
    ensures ascending { is_canonical two_tests ≡ true }
    ensures falling { is_canonical (TestC (path 2 []) mover_or_atomic (LeafC Error)) ≡ false }
    ensures falling_second { is_canonical (TestC (path 2 []) (LeafC Error) mover_or_atomic) ≡ false }
    ensures twice { is_canonical (TestC (path 0 []) mover_or_atomic (LeafC Error)) ≡ false }
    ensures equal_branches { is_canonical (TestC (path 0 []) (LeafC Error) (LeafC Error)) ≡ false }
    ensures equal_branches_below { is_canonical (TestC (path 0 []) (LeafC Error) (TestC (path 1 []) (LeafC Mover) (LeafC Mover))) ≡ false }
    ensures heights { map tests_high (LeafC Error ∷ mover_or_atomic ∷ two_tests ∷ TestC (path 0 []) two_tests (LeafC Error) ∷ []) ≡ 0 ∷ 1 ∷ 2 ∷ 3 ∷ [] }
    ensures limit { most_nesting ≡ 64 }
{}
