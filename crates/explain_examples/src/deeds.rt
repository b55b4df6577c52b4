//! What steps do and which locks help them, computed.
ghost use Rattle.std.specs.Prelude.{◌≡◌, [], ◌∷◌, map, Some, None};
ghost use Rattle.algebra.specs.declared.basic.Basic.TheVariants.{Atomic, Cmpd};
ghost use Rattle.core_program.specs.Core.{EmptyS, SetFieldS, SyncS, PrintS, StartS, ThisE, GetE, CallE, no_exprs};
ghost use Rattle.core_program.specs.Examples.{this_path};
ghost use Rattle.effects.specs.Parts.{ExprP, StmtP};
ghost use Rattle.rules.specs.declared.guard.Guard.TheVariants as guard;
ghost use Rattle.rules.specs.Search.{row_at};
ghost use Rattle.explain.specs.declared.deeds.Deed.TheVariants as deed;
ghost use Rattle.explain.specs.declared.deeds.Help.TheVariants as helps;
ghost use Rattle.explain.specs.declared.names.Lack.TheVariants.{Variable};
ghost use Rattle.explain.specs.Deeds.{deed_of_part, help_of, hold_or, no_access_help};
ghost use Rattle.core_examples.specs.Bodies.{nothing_held};
ghost use Rattle.core_examples.specs.Fields.{path};
ghost use Rattle.core_examples.specs.Small.{one};
ghost use Rattle.explain_examples.specs.Shelf.{shelf, shelf_paths, shelf_levels, overs, plain, made, locals, fixed_held};

/// What each part does by itself.
pub fn what_steps_do()
    ensures accesses { map (λ x. deed_of_part shelf shelf_paths shelf_levels (row_at overs) x nothing_held) (ExprP (GetE ThisE 0) ∷ ExprP (GetE plain 2) ∷ StmtP (SetFieldS ThisE 2 one) ∷ StmtP (SetFieldS plain 2 one) ∷ []) ≡
        deed.Reads (Some this_path) 0 guard.Free ∷ deed.Reads None 2 guard.WriteUnnamed ∷ deed.Writes (Some this_path) 2 (guard.WriteNamed this_path) ∷ deed.Writes None 2 guard.WriteUnnamed ∷ [] }
    ensures calls { map (λ m. deed_of_part shelf shelf_paths shelf_levels (row_at overs) (ExprP (CallE ThisE m no_exprs)) nothing_held) (0 ∷ 1 ∷ 2 ∷ []) ≡
        deed.Calls 0 Atomic (Some this_path) ∷ deed.Calls 1 Atomic None ∷ deed.Calls 2 Cmpd None ∷ [] }
    ensures others { map (λ x. deed_of_part shelf shelf_paths shelf_levels (row_at overs) x nothing_held) (StmtP (SyncS this_path EmptyS) ∷ StmtP (PrintS one) ∷ StmtP (StartS made) ∷ ExprP ThisE ∷ StmtP EmptyS ∷ []) ≡
        deed.Locks this_path ∷ deed.Prints ∷ deed.Starts ∷ deed.Other ∷ deed.Other ∷ [] }
{}

/// Which lock helps a part, or why none does.
pub fn which_locks_help()
    ensures accesses { map (λ x. help_of shelf shelf_paths shelf_levels locals x fixed_held) (ExprP (GetE ThisE 0) ∷ ExprP (GetE ThisE 1) ∷ ExprP (GetE ThisE 2) ∷ StmtP (SetFieldS ThisE 2 one) ∷ StmtP (SetFieldS ThisE 1 one) ∷ []) ≡
        helps.Unguarded ∷ helps.Hold this_path (Some (path 2 [])) ∷ helps.Hold this_path (Some (path 2 [])) ∷ helps.WritesOnly ∷ helps.Hold this_path (Some (path 2 [])) ∷ [] }
    ensures unnamed { map (λ x. help_of shelf shelf_paths shelf_levels locals x nothing_held) (ExprP (GetE plain 1) ∷ ExprP (GetE plain 2) ∷ StmtP (SetFieldS plain 2 one) ∷ StmtP (SetFieldS ThisE 0 one) ∷ []) ≡
        helps.Unnamed (Variable 1) ∷ helps.Unnamed (Variable 1) ∷ helps.Unnamed (Variable 1) ∷ helps.Unguarded ∷ [] }
    ensures calls { map (λ e. help_of shelf shelf_paths shelf_levels locals (ExprP (CallE e 0 no_exprs)) nothing_held) (ThisE ∷ plain ∷ []) ≡ helps.Hold this_path None ∷ helps.ReceiverUnnamed (Variable 1) ∷ [] }
    ensures never { map (λ m. help_of shelf shelf_paths shelf_levels locals (ExprP (CallE ThisE m no_exprs)) nothing_held) (1 ∷ 2 ∷ []) ≡ helps.NoneNamed ∷ helps.NoneNamed ∷ [] }
    ensures others { map (λ x. help_of shelf shelf_paths shelf_levels locals x nothing_held) (StmtP (SyncS (path 2 []) EmptyS) ∷ StmtP (PrintS one) ∷ ExprP ThisE ∷ []) ≡ helps.Hold (path 2 []) None ∷ helps.Seen ∷ helps.Seen ∷ [] }
    ensures guards { map (no_access_help shelf plain) (guard.Final ∷ guard.Free ∷ guard.Named this_path ∷ guard.Unnamed ∷ guard.WriteNamed this_path ∷ guard.WriteUnnamed ∷ []) ≡
        helps.Unguarded ∷ helps.Unguarded ∷ helps.Unguarded ∷ helps.Unnamed (Variable 1) ∷ helps.WritesOnly ∷ helps.Unnamed (Variable 1) ∷ [] }
    ensures reasons { map (λ o. hold_or locals nothing_held o helps.Seen) (None ∷ Some this_path ∷ []) ≡ helps.Seen ∷ helps.Hold this_path None ∷ [] }
{}
