//! Which fields are written though nothing guards them, computed.
ghost use Rattle.std.specs.Prelude.{◌≡◌, true, false, [], ◌∷◌, map, Some, None, codes};
ghost use Rattle.core_program.specs.Core.{EmptyS, ThisE};
ghost use Rattle.core_program.specs.Examples.{plain_method};
ghost use Rattle.effects.specs.Parts.{ExprP, StmtP};
ghost use Rattle.explain.specs.Unguarded.{bare_field, bare_write, bare_writes, first_writes, is_written, with_write, writes_from, writes_of};
ghost use Rattle.explain_text.specs.Warnings.{unguarded_words, warning_line};
ghost use Rattle.explain_examples.specs.Page.{page};
ghost use Rattle.explain_examples.specs.Shelf.{call_visit, put_in, puts, shelf, write_visit};
ghost use Rattle.explain_examples.specs.Writes.{written_by};

/// Which parts are such writes: of a field without a guard; not of one with a guard of any kind, of a final one, or of none.
pub fn which_writes_are_bare()
    ensures fields { map (λ f. bare_field shelf (StmtP (put_in f))) (0 ∷ 1 ∷ 2 ∷ 3 ∷ 4 ∷ 9 ∷ []) ≡ Some 0 ∷ None ∷ None ∷ None ∷ Some 4 ∷ None ∷ [] }
    ensures others { map (bare_field shelf) (StmtP EmptyS ∷ ExprP ThisE ∷ []) ≡ None ∷ None ∷ [] }
    ensures one { map (bare_write shelf 7) (write_visit 3 None ∷ call_visit 4 2 ∷ []) ≡ Some (written_by 7 3 0) ∷ None ∷ [] }
    ensures added { map (λ o. with_write o (written_by 7 3 0 ∷ [])) (None ∷ Some (written_by 7 1 0) ∷ []) ≡ (written_by 7 3 0 ∷ []) ∷ (written_by 7 1 0 ∷ written_by 7 3 0 ∷ []) ∷ [] }
    ensures those { writes_of shelf 7 (write_visit 1 None ∷ call_visit 3 2 ∷ write_visit 4 None ∷ []) ≡ written_by 7 1 0 ∷ written_by 7 4 0 ∷ [] }
    ensures methods { writes_from shelf 5 (plain_method 0 0 false puts ∷ plain_method 0 0 false (put_in 0) ∷ []) ≡ written_by 5 1 0 ∷ written_by 5 4 0 ∷ written_by 6 0 0 ∷ [] }
{}

/// Of each field the first of them.
pub fn which_fields_are_warned_of()
    ensures written { map (λ f. is_written f (written_by 2 1 0 ∷ written_by 3 1 4 ∷ [])) (0 ∷ 1 ∷ 4 ∷ []) ≡ true ∷ false ∷ true ∷ [] }
    ensures firsts { first_writes [] (written_by 2 1 0 ∷ written_by 2 4 0 ∷ written_by 3 1 4 ∷ written_by 4 1 0 ∷ []) ≡ written_by 2 1 0 ∷ written_by 3 1 4 ∷ [] }
    ensures before { first_writes (written_by 2 1 4 ∷ []) (written_by 3 1 4 ∷ written_by 4 1 0 ∷ []) ≡ written_by 4 1 0 ∷ [] }
    ensures all { bare_writes shelf ≡ written_by 2 1 0 ∷ [] }
    ensures words { unguarded_words ≡ codes " is written, and nothing guards it [unguarded-field]\n" }
    ensures line { warning_line page (written_by 0 2 0) ≡ codes "f:2:2: warning: A.v is written, and nothing guards it [unguarded-field]\n" }
{}
