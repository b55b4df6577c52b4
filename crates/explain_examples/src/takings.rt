//! Which lock a call takes, and which lock helps around a whole method, computed.
ghost use Rattle.std.specs.Prelude.{◌≡◌, true, false, [], ◌∷◌, map, Some, None, slice_get};
ghost use Rattle.algebra.specs.declared.basic.Basic.TheVariants.{Const, Mover, Atomic, Cmpd, Error};
ghost use Rattle.core_program.specs.Core.{EmptyS, SetFieldS, SyncS, ThisE};
ghost use Rattle.core_program.specs.Examples.{this_path};
ghost use Rattle.effects.specs.Parts.{ExprP, StmtP};
ghost use Rattle.explain.specs.Around.{around, lock_around, wrapped};
ghost use Rattle.explain.specs.Meanings.{are_within};
ghost use Rattle.explain.specs.Takings.{first_taken, if_atomic, is_freed, is_taking, locks, taken_lock, takes_in, takes_only};
ghost use Rattle.core_examples.specs.Bodies.{this_held, nothing_held};
ghost use Rattle.core_examples.specs.Fields.{path};
ghost use Rattle.core_examples.specs.Small.{one};
ghost use Rattle.explain_examples.specs.Shelf.{shelf, shelf_paths, shelf_levels, at, methods};

/// A lock is taken by an atomic call that is a mover with it held, where each part of each body that may run can be moved or takes it.
pub fn which_locks_calls_take()
    ensures atomic { map (λ b. if_atomic b (Some this_path)) (Const ∷ Mover ∷ Atomic ∷ Cmpd ∷ Error ∷ []) ≡ None ∷ None ∷ Some this_path ∷ None ∷ None ∷ [] }
    ensures synchronized { map (λ q. locks q (StmtP (SyncS this_path EmptyS))) (this_path ∷ path 2 [] ∷ []) ≡ true ∷ false ∷ [] }
    ensures others { map (locks this_path) (StmtP EmptyS ∷ ExprP ThisE ∷ []) ≡ false ∷ false ∷ [] }
    ensures parts { map (λ x. is_taking shelf shelf_paths shelf_levels this_path (at 1 x nothing_held None)) (StmtP (SyncS this_path EmptyS) ∷ StmtP (SyncS (path 2 []) EmptyS) ∷ StmtP (SetFieldS ThisE 0 one) ∷ StmtP EmptyS ∷ []) ≡
        true ∷ false ∷ false ∷ true ∷ [] }
    ensures bodies { map (λ m. takes_in shelf shelf_paths shelf_levels this_path (slice_get methods m) nothing_held) (0 ∷ 2 ∷ 14 ∷ 13 ∷ 40 ∷ []) ≡ true ∷ false ∷ false ∷ false ∷ false ∷ [] }
    ensures alone { takes_only shelf shelf_paths shelf_levels [] this_path 1 nothing_held ≡ true }
    ensures overridden { takes_only shelf shelf_paths shelf_levels (16 ∷ []) this_path 1 nothing_held ≡ false }
    ensures overriding { takes_only shelf shelf_paths shelf_levels (0 ∷ []) this_path 2 nothing_held ≡ false }
    ensures freed { map (is_freed shelf shelf_paths shelf_levels 0 (Some this_path) [] nothing_held) (Some this_path ∷ Some (path 2 []) ∷ None ∷ []) ≡ true ∷ false ∷ false ∷ [] }
    ensures first { first_taken shelf shelf_paths shelf_levels [] 0 (Some this_path) [] nothing_held (path 0 (3 ∷ []) ∷ this_path ∷ []) ≡ Some this_path }
    ensures none { first_taken shelf shelf_paths shelf_levels (16 ∷ []) 0 (Some this_path) [] nothing_held (this_path ∷ []) ≡ None }
    ensures call { taken_lock shelf shelf_paths shelf_levels [] 0 (Some (path 2 [])) [] nothing_held ≡ Some (path 2 []) }
    ensures printed { taken_lock shelf shelf_paths shelf_levels (16 ∷ []) 1 (Some this_path) [] nothing_held ≡ None }
    ensures held { taken_lock shelf shelf_paths shelf_levels [] 0 (Some this_path) [] this_held ≡ None }
{}

/// A lock around the whole method.
pub fn which_locks_help_around()
    ensures both { around shelf shelf_paths shelf_levels 13 Atomic ≡ Some this_path }
    ensures twice { around shelf shelf_paths shelf_levels 3 Atomic ≡ None }
    ensures no_method { around shelf shelf_paths shelf_levels 40 Atomic ≡ None }
    ensures values { map (λ m. wrapped shelf shelf_paths shelf_levels m this_path) methods ≡
        Atomic ∷ Atomic ∷ Cmpd ∷ Cmpd ∷ Cmpd ∷ Cmpd ∷ Atomic ∷ Atomic ∷ Atomic ∷ Mover ∷ Atomic ∷ Cmpd ∷ Atomic ∷ Atomic ∷ Atomic ∷ Cmpd ∷ Atomic ∷ Cmpd ∷ Atomic ∷ [] }
    ensures first { lock_around shelf shelf_paths shelf_levels (path 2 [] ∷ this_path ∷ []) (slice_get methods 13) Atomic ≡ Some this_path }
{}

/// Whether a body and the methods that override it are within a limit.
pub fn which_methods_are_within()
    ensures body { map (λ m. are_within shelf shelf_paths shelf_levels [] m Atomic) methods ≡
        true ∷ true ∷ false ∷ false ∷ false ∷ false ∷ false ∷ false ∷ false ∷ true ∷ false ∷ false ∷ true ∷ false ∷ false ∷ false ∷ true ∷ false ∷ true ∷ [] }
    ensures overriding { map (λ m. are_within shelf shelf_paths shelf_levels (18 ∷ 17 ∷ []) m Atomic) methods ≡
        false ∷ false ∷ false ∷ false ∷ false ∷ false ∷ false ∷ false ∷ false ∷ false ∷ false ∷ false ∷ false ∷ false ∷ false ∷ false ∷ false ∷ false ∷ false ∷ [] }
{}
