//! The tables of the five basics, and sets of held paths.
ghost use Rattle.std.specs.Prelude.{◌≡◌, true, false, [], ◌∷◌, Some, None, map, codes};
ghost use Rattle.algebra.specs.declared.basic.Basic.TheVariants.{Const, Mover, Atomic, Cmpd, Error};
ghost use Rattle.algebra.specs.Basics.{rank_of, below_of, join_of, seq_of, star_of, lift_of, name_of};
ghost use Rattle.algebra.specs.HeldPaths.{has_path, with_path, without_root, holds_at, is_named, partner_held, renamed};
ghost use Rattle.algebra.specs.Values.{sync_of};
ghost use Rattle.core_examples.specs.Fields.{path};
ghost use Rattle.core_examples.specs.Bodies.{all_basics, mover_under, nothing_held, one_held};

/// One after the other: each row is the first part, each column the second.
pub fn how_basics_follow()
    ensures const_first { map (seq_of Const) all_basics ≡ Const ∷ Mover ∷ Atomic ∷ Cmpd ∷ Error ∷ [] }
    ensures mover_first { map (seq_of Mover) all_basics ≡ Mover ∷ Mover ∷ Atomic ∷ Cmpd ∷ Error ∷ [] }
    ensures atomic_first { map (seq_of Atomic) all_basics ≡ Atomic ∷ Atomic ∷ Cmpd ∷ Cmpd ∷ Error ∷ [] }
    ensures cmpd_first { map (seq_of Cmpd) all_basics ≡ Cmpd ∷ Cmpd ∷ Cmpd ∷ Cmpd ∷ Error ∷ [] }
    ensures error_first { map (seq_of Error) all_basics ≡ Error ∷ Error ∷ Error ∷ Error ∷ Error ∷ [] }
{}

/// The greater of two.
pub fn how_basics_join()
    ensures const_first { map (join_of Const) all_basics ≡ Const ∷ Mover ∷ Atomic ∷ Cmpd ∷ Error ∷ [] }
    ensures mover_first { map (join_of Mover) all_basics ≡ Mover ∷ Mover ∷ Atomic ∷ Cmpd ∷ Error ∷ [] }
    ensures atomic_first { map (join_of Atomic) all_basics ≡ Atomic ∷ Atomic ∷ Atomic ∷ Cmpd ∷ Error ∷ [] }
    ensures cmpd_first { map (join_of Cmpd) all_basics ≡ Cmpd ∷ Cmpd ∷ Cmpd ∷ Cmpd ∷ Error ∷ [] }
    ensures error_first { map (join_of Error) all_basics ≡ Error ∷ Error ∷ Error ∷ Error ∷ Error ∷ [] }
{}

/// The order, any number of times, between an acquire and its release, and the names.
pub fn what_basics_are()
    ensures ranks { map rank_of all_basics ≡ 0 ∷ 1 ∷ 2 ∷ 3 ∷ 4 ∷ [] }
    ensures below { map (below_of Atomic) all_basics ≡ false ∷ false ∷ true ∷ true ∷ true ∷ [] }
    ensures repeated { map star_of all_basics ≡ Const ∷ Mover ∷ Cmpd ∷ Cmpd ∷ Error ∷ [] }
    ensures lifted { map lift_of all_basics ≡ Atomic ∷ Atomic ∷ Atomic ∷ Cmpd ∷ Error ∷ [] }
    ensures named { map name_of all_basics ≡ codes "const" ∷ codes "mover" ∷ codes "atomic" ∷ codes "cmpd" ∷ codes "error" ∷ [] }
{}

/// Sets of held paths: of a list, with one more, without those of a slot.
pub fn which_paths_are_held()
    ensures of_a_list { has_path (path 1 [] ∷ path 2 [] ∷ []) (path 2 []) ≡ true }
    ensures not_of_a_list { has_path (path 1 [] ∷ path 2 [] ∷ []) (path 2 (0 ∷ [])) ≡ false }
    ensures one_more { with_path (path 1 []) nothing_held (path 1 []) ≡ true }
    ensures no_more { with_path (path 1 []) nothing_held (path 2 []) ≡ false }
    ensures still { with_path (path 2 []) one_held (path 1 []) ≡ true }
    ensures without { without_root 1 one_held (path 1 []) ≡ false }
    ensures without_other { without_root 2 one_held (path 1 []) ≡ true }
    ensures known { holds_at (Some (path 1 [])) one_held ≡ true }
    ensures not_held { holds_at (Some (path 2 [])) one_held ≡ false }
    ensures unknown { holds_at None (λ p. true) ≡ false }
{}

/// A renaming tells a path by its partner, one with no partner counts as not held, and one that it doesn't name stays as it is.
pub fn what_renamings_tell()
    ensures named { is_named ((path 3 [], None) ∷ []) (path 3 []) ≡ true }
    ensures not_named { is_named ((path 3 [], None) ∷ []) (path 1 []) ≡ false }
    ensures partner { partner_held ((path 3 [], Some (path 1 [])) ∷ []) one_held (path 3 []) ≡ true }
    ensures of_another { partner_held ((path 3 [], Some (path 1 [])) ∷ []) one_held (path 1 []) ≡ false }
    ensures held { renamed ((path 3 [], Some (path 1 [])) ∷ []) one_held (path 3 []) ≡ true }
    ensures not_held { renamed ((path 1 [], Some (path 3 [])) ∷ []) one_held (path 1 []) ≡ false }
    ensures no_partner { renamed ((path 1 [], None) ∷ []) one_held (path 1 []) ≡ false }
    ensures as_it_is { renamed ((path 3 [], None) ∷ []) one_held (path 1 []) ≡ true }
    ensures some_pair { renamed ((path 3 [], None) ∷ (path 3 [], Some (path 1 [])) ∷ []) one_held (path 3 []) ≡ true }
{}

/// `synchronized`: the body as it is where the lock is held, else the lift of the body with the lock held.
pub fn what_synchronizing_is()
    ensures held { sync_of (path 1 []) (mover_under (path 1 [])) one_held ≡ Mover }
    ensures taken { sync_of (path 1 []) (mover_under (path 1 [])) nothing_held ≡ Atomic }
    ensures other { sync_of (path 2 []) (mover_under (path 1 [])) nothing_held ≡ Error }
{}
