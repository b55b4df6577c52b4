//! Whole lines, computed.
ghost use Rattle.std.specs.Prelude.{◌≡◌, true, false, [], ◌∷◌, ◌++◌, map, slice_get, codes, None};
ghost use Rattle.algebra.specs.declared.basic.Basic.TheVariants.{Const, Mover, Atomic, Cmpd, Error};
ghost use Rattle.explain.specs.declared.causes.Cause.TheVariants as cause;
ghost use Rattle.explain.specs.declared.deeds.Help.TheVariants as helps;
ghost use Rattle.explain.specs.Whys.{Wrong, Looped, Compound, Two, Overridden, Nothing};
ghost use Rattle.explain_text.specs.Blocks.{around_line, cause_line, declares, head_line, help_line, help_lines, help_note, is_words, kind_word, method_name_offset, more_lines, more_text, note_beside, over_line, promise_words, step_line, steps_lines};
ghost use Rattle.explain_text.specs.declared.codes.StepKind.TheVariants as kind;
ghost use Rattle.explain_text.specs.Listings.{listing_from};
ghost use Rattle.explain_text.specs.Pages.{words_before_kind, note_front, note_line, node_offset, place_front};
ghost use Rattle.core_examples.specs.Fields.{path};
ghost use Rattle.explain_examples.specs.Shelf.{all_compound, shelf_paths};
ghost use Rattle.explain_examples.specs.Page.{no_locks, page, locking_program, one_step, print_step};

/// How lines begin and end.
pub fn how_lines_begin()
    ensures offsets { map (node_offset page) (0 ∷ 2 ∷ 3 ∷ []) ≡ 1 ∷ 4 ∷ 0 ∷ [] }
    ensures places { map (place_front page) (1 ∷ 3 ∷ []) ≡ codes "f:1:2: " ∷ codes "f:2:1: " ∷ [] }
    ensures kinds { map (λ b. words_before_kind page 4 (kind_word b)) (true ∷ false ∷ []) ≡ codes "f:2:2: error: " ∷ codes "f:2:2: note: " ∷ [] }
    ensures notes { note_front page 2 ≡ codes "f:2:2: note: " }
    ensures line { note_line page 4 (codes "x") (codes "y") ≡ codes "f:2:2: note: x [y]\n" }
    ensures names { map (λ m. method_name_offset (slice_get locking_program.methods m)) (0 ∷ 1 ∷ 7 ∷ []) ≡ 4 ∷ 0 ∷ 0 ∷ [] }
    ensures promises { map (λ o. map (declares o) (Atomic ∷ Cmpd ∷ [])) (slice_get locking_program.methods 0 ∷ slice_get locking_program.methods 1 ∷ None ∷ []) ≡
        (false ∷ true ∷ []) ∷ (true ∷ true ∷ []) ∷ (true ∷ true ∷ []) ∷ [] }
    ensures words { map (λ b. is_words true b Atomic) (true ∷ false ∷ []) ≡ codes " is declared atomic, found " ∷ codes " is " ∷ [] }
    ensures other_words { map (λ b. is_words false b Atomic) (true ∷ false ∷ []) ≡ codes " counts as atomic, found " ∷ codes " is " ∷ [] }
    ensures promise { map promise_words (true ∷ false ∷ []) ≡ codes " is declared " ∷ codes " counts as " ∷ [] }
{}

/// The first line of a method, and the lines of errors and of overriding methods.
pub fn how_methods_are_told()
    ensures refused { head_line locking_program page (record { method = 1; is_refused = true; limit = Atomic; found = Cmpd; why = Two (one_step 1) (one_step 2) }) ≡ codes "f:1:1: error: A.main is declared atomic, found cmpd [two-steps]\n" }
    ensures strict { head_line locking_program page (record { method = 0; is_refused = true; limit = Atomic; found = Cmpd; why = Two (one_step 1) (one_step 2) }) ≡ codes "f:2:2: error: A.put counts as atomic, found cmpd [two-steps]\n" }
    ensures compound { head_line locking_program page (record { method = 1; is_refused = false; limit = Atomic; found = Cmpd; why = Compound (one_step 1) }) ≡ codes "f:1:1: note: A.main is cmpd [compound-call]\n" }
    ensures error { cause_line page 1 [] (cause.Refused 0) ≡ codes "f:2:1: note: calls A.put, which is an error itself [calls-an-error]\n" }
    ensures counts { map more_text (1 ∷ 2 ∷ 10 ∷ []) ≡ codes "1 more method is refused for a call of it" ∷ codes "2 more methods are refused for a call of it" ∷ codes "10 more methods are refused for a call of it" ∷ [] }
    ensures more { map (more_lines page (Wrong (one_step 1))) (0 ∷ 1 ∷ 2 ∷ []) ≡ [] ∷ codes "f:2:1: note: 1 more method is refused for a call of it [more-errors]\n" ∷ codes "f:2:1: note: 2 more methods are refused for a call of it [more-errors]\n" ∷ [] }
    ensures no_more { map (λ why. more_lines page why 2) (Looped (one_step 1) 0 ∷ Nothing ∷ []) ≡ [] ∷ [] ∷ [] }
    ensures overrides { over_line locking_program page 0 Cmpd ≡ codes "f:2:2: note: A.put overrides it, and is cmpd [overridden-by]\n" }
    ensures around { around_line locking_program page 1 Atomic (path 0 (1 ∷ [])) ≡ codes "f:1:1: note: with the lock of this.n held around all of it, A.main is atomic [help-around]\n" }
{}

/// The lines of steps: what they do, where another thread may come in, and what helps around the whole method, or else at each step.
pub fn how_steps_are_told()
    ensures step { step_line locking_program shelf_paths all_compound page (λ m. []) kind.Second (one_step 1) ≡ codes "f:2:1: note: a second one: takes the lock of this and gives it back [second-step]\n" }
    ensures help { help_line locking_program shelf_paths all_compound page [] (one_step 2) ≡ codes "f:2:2: note: with the lock of this held, this step can be moved [help-lock]\n" }
    ensures beside { map (λ other. note_beside locking_program shelf_paths all_compound page 1 helps.Seen other) (helps.Hold (path 0 []) None ∷ helps.NoneNamed ∷ []) ≡
        [] ∷ codes "f:2:1: note: no lock helps this step [help-none]\n" ∷ [] }
    ensures lock_beside { note_beside locking_program shelf_paths all_compound page 1 (helps.Hold (path 0 []) None) helps.Seen ≡ codes "f:2:1: note: with the lock of this held, this step can be moved [help-lock]\n" }
    ensures both { help_lines locking_program shelf_paths all_compound page [] (one_step 1) (one_step 2) ≡
        codes "f:2:1: note: with the lock of this held, this step can be moved [help-lock]\n" ++ codes "f:2:2: note: with the lock of this held, this step can be moved [help-lock]\n" }
    ensures one_stays { help_lines locking_program shelf_paths all_compound page [] (print_step 1) (one_step 2) ≡ codes "f:2:2: note: with the lock of this held, this step can be moved [help-lock]\n" }
    ensures other_stays { help_lines locking_program shelf_paths all_compound page [] (one_step 1) (print_step 2) ≡ codes "f:2:1: note: with the lock of this held, this step can be moved [help-lock]\n" }
    ensures none_stays { help_lines locking_program shelf_paths all_compound page [] (print_step 1) (print_step 2) ≡
        codes "f:2:1: note: no lock helps this step [help-none]\n" ++ codes "f:2:2: note: no lock helps this step [help-none]\n" }
    ensures note { help_note locking_program shelf_paths all_compound page 1 helps.Seen ≡ codes "f:2:1: note: no lock helps this step [help-none]\n" }
    ensures others { map (steps_lines locking_program shelf_paths all_compound page (λ m. []) [] 1 Atomic) (Wrong (one_step 1) ∷ Nothing ∷ []) ≡ [] ∷ [] ∷ [] }
    ensures overridden { steps_lines locking_program shelf_paths all_compound page (λ m. []) [] 1 Atomic (Overridden 0 Cmpd) ≡ codes "f:2:2: note: A.put overrides it, and is cmpd [overridden-by]\n" }
    ensures two { steps_lines locking_program shelf_paths all_compound page (λ m. []) [] 1 Atomic (Two (one_step 1) (one_step 2)) ≡
        codes "f:2:1: note: atomic step: takes the lock of this and gives it back [first-step]\n" ++ codes "f:2:2: note: a second one: takes the lock of this and gives it back [second-step]\n"
        ++ codes "f:2:2: note: between the two another thread may come in [gap-between]\n" ++ codes "f:1:1: note: with the lock of this held around all of it, A.main is atomic [help-around]\n" }
    ensures two_helps { steps_lines locking_program no_locks all_compound page (λ m. []) [] 1 Atomic (Two (one_step 1) (one_step 2)) ≡
        codes "f:2:1: note: atomic step: takes the lock of this and gives it back [first-step]\n" ++ codes "f:2:2: note: a second one: takes the lock of this and gives it back [second-step]\n"
        ++ codes "f:2:2: note: between the two another thread may come in [gap-between]\n"
        ++ codes "f:2:1: note: with the lock of this held, this step can be moved [help-lock]\n" ++ codes "f:2:2: note: with the lock of this held, this step can be moved [help-lock]\n" }
    ensures looped { steps_lines locking_program no_locks all_compound page (λ m. []) [] 1 Atomic (Looped (one_step 2) 0) ≡
        codes "f:2:2: note: atomic step: takes the lock of this and gives it back [repeated-step]\n"
        ++ codes "f:1:2: note: this loop makes it each time round, and between two times another thread may come in [gap-loop]\n"
        ++ codes "f:2:2: note: with the lock of this held, this step can be moved [help-lock]\n" }
    ensures looped_around { steps_lines locking_program shelf_paths all_compound page (λ m. []) [] 1 Atomic (Looped (one_step 2) 0) ≡
        codes "f:2:2: note: atomic step: takes the lock of this and gives it back [repeated-step]\n"
        ++ codes "f:1:2: note: this loop makes it each time round, and between two times another thread may come in [gap-loop]\n"
        ++ codes "f:1:1: note: with the lock of this held around all of it, A.main is atomic [help-around]\n" }
    ensures compound_around { steps_lines locking_program shelf_paths all_compound page (λ m. []) [] 1 Atomic (Compound (one_step 1)) ≡
        codes "f:2:1: note: compound step: takes the lock of this and gives it back [compound-step]\n" ++ codes "f:2:1: note: inside it another thread may come in [gap-inside]\n"
        ++ codes "f:1:1: note: with the lock of this held around all of it, A.main is atomic [help-around]\n" }
    ensures compound { steps_lines locking_program no_locks all_compound page (λ m. []) [] 1 Atomic (Compound (one_step 1)) ≡
        codes "f:2:1: note: compound step: takes the lock of this and gives it back [compound-step]\n" ++ codes "f:2:1: note: inside it another thread may come in [gap-inside]\n"
        ++ codes "f:2:1: note: with the lock of this held, this step can be moved [help-lock]\n" }
{}

/// The listing of all basics.
pub fn how_basics_are_listed()
    ensures movers { listing_from page 0 0 (Atomic ∷ Const ∷ Mover ∷ []) ≡ codes "f:1:2: atomic: A.put 0\n" ++ codes "f:2:2: mover: A.put 2\n" }
    ensures others { listing_from page 1 1 (Cmpd ∷ Error ∷ []) ≡ codes "f:2:1: cmpd: A.main 1\n" ++ codes "f:2:2: error: A.main 2\n" }
{}
