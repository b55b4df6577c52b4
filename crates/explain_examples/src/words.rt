//! Words of the lines, computed.
ghost use Rattle.std.specs.Prelude.{◌≡◌, true, false, [], ◌∷◌, map, Some, None, codes};
ghost use Rattle.algebra.specs.declared.basic.Basic.TheVariants.{Atomic, Cmpd};
ghost use Rattle.core_program.specs.Examples.{this_path};
ghost use Rattle.rules.specs.declared.guard.Guard.TheVariants as guard;
ghost use Rattle.explain.specs.declared.causes.Cause.TheVariants as cause;
ghost use Rattle.explain.specs.declared.deeds.Deed.TheVariants as deed;
ghost use Rattle.explain.specs.declared.deeds.Help.TheVariants as helps;
ghost use Rattle.explain.specs.declared.names.Lack.TheVariants as lack;
ghost use Rattle.explain.specs.Whys.{Wrong, Looped, Compound, Two, Overridden, Nothing};
ghost use Rattle.explain_text.specs.CauseTexts.{cause_text};
ghost use Rattle.explain_text.specs.Codes.{cause_code, ending, help_code, spoken_kind, step_code, step_lead, why_code};
ghost use Rattle.explain_text.specs.declared.codes.StepKind.TheVariants as kind;
ghost use Rattle.explain_text.specs.DeedTexts.{deed_text, help_text, may_stay};
ghost use Rattle.explain_text.specs.Pages.{advised};
ghost use Rattle.explain_text.specs.Words.{access_text, field_title, held_list_text, lack_text, path_in, slot_in};
ghost use Rattle.core_examples.specs.Fields.{path};
ghost use Rattle.explain_examples.specs.Page.{page, one_step, page_table};

/// Slots, paths, fields and held locks.
pub fn which_names_things_have()
    ensures slots { map (slot_in page) (0 ∷ 1 ∷ 2 ∷ []) ≡ codes "this" ∷ codes "x" ∷ [] ∷ [] }
    ensures paths { map (path_in page) (path 1 [] ∷ path 0 (1 ∷ 0 ∷ []) ∷ []) ≡ codes "x" ∷ codes "this.n.v" ∷ [] }
    ensures fields { map (field_title page_table) (0 ∷ 1 ∷ 5 ∷ []) ≡ codes "A.v" ∷ codes "A.n" ∷ [] ∷ [] }
    ensures accesses { map (λ r. access_text page r 0) (None ∷ Some (path 1 []) ∷ []) ≡ codes "A.v" ∷ codes "x.v" ∷ [] }
    ensures held { map (held_list_text page) ([] ∷ (path 1 [] ∷ []) ∷ (path 0 [] ∷ path 1 [] ∷ path 1 (1 ∷ []) ∷ []) ∷ []) ≡ codes "nothing" ∷ codes "x" ∷ codes "this, x, x.n" ∷ [] }
    ensures lacks { map (lack_text page) (lack.Variable 1 ∷ lack.Field 1 ∷ lack.Long ∷ lack.Value ∷ []) ≡
        codes "x isn't final" ∷ codes "A.n names no lock" ∷ codes "its path would have more than two fields" ∷ codes "it isn't reached by a variable and final fields" ∷ [] }
    ensures advice { map (λ fitting. lack_text (advised page fitting) (lack.Variable 1)) (Some (lack.Variable 1) ∷ Some (lack.Variable 2) ∷ Some (lack.Field 1) ∷ Some lack.Long ∷ None ∷ []) ≡
        codes "x isn't final" ∷ codes "x names no lock" ∷ codes "x names no lock" ∷ codes "x names no lock" ∷ codes "x names no lock" ∷ [] }
    ensures field_advice { map (λ fitting. lack_text (advised page fitting) (lack.Field 1)) (Some (lack.Field 1) ∷ Some (lack.Field 0) ∷ Some (lack.Variable 1) ∷ Some lack.Value ∷ None ∷ []) ≡
        codes "A.n isn't final" ∷ codes "A.n names no lock" ∷ codes "A.n names no lock" ∷ codes "A.n names no lock" ∷ codes "A.n names no lock" ∷ [] }
{}

/// What is wrong with an error.
pub fn how_causes_read()
    ensures accesses { map (cause_text page []) (cause.Bare (Some (path 1 [])) 0 false (path 1 []) None ∷ cause.Bare None 0 true (path 0 []) (Some (path 1 [])) ∷ []) ≡
        codes "x.v is guarded by x, which isn't held here; held: nothing" ∷ codes "A.v is guarded for writing by this, which is held here under another name only, x; held: nothing" ∷ [] }
    ensures unnamed { map (cause_text page (path 1 [] ∷ [])) (cause.Nameless 0 false (lack.Variable 1) ∷ cause.Nameless 0 true lack.Value ∷ []) ≡
        codes "A.v is guarded by a lock that has no name here, since x isn't final; held: x" ∷ codes "A.v is guarded for writing by a lock that has no name here, since it isn't reached by a variable and final fields; held: x" ∷ [] }
    ensures calls { map (cause_text page (path 1 [] ∷ [])) (cause.Lacking 0 this_path (path 0 (1 ∷ [])) None ∷ cause.LackingName 0 this_path (lack.Variable 1) ∷ cause.Refused 1 ∷ cause.Other ∷ []) ≡
        codes "calls A.put, which requires this: here that is this.n, which isn't held here; held: x" ∷ codes "calls A.put, which requires this: that has no name here, since x isn't final; held: x"
        ∷ codes "calls A.main, which is an error itself" ∷ codes "an error" ∷ [] }
{}

/// What a step does.
pub fn how_deeds_read()
    ensures accesses { map (deed_text page) (deed.Reads (Some (path 1 [])) 0 guard.Free ∷ deed.Writes None 0 (guard.WriteNamed (path 1 [])) ∷ deed.Reads None 0 guard.WriteUnnamed ∷ []) ≡
        codes "reads x.v, which nothing guards" ∷ codes "writes A.v, which is guarded for writing only by x" ∷ codes "reads A.v, which is guarded for writing only" ∷ [] }
    ensures guarded { map (λ g. deed_text page (deed.Writes (Some (path 1 [])) 0 g)) (guard.Final ∷ guard.Named (path 1 []) ∷ guard.Unnamed ∷ []) ≡ codes "writes x.v" ∷ codes "writes x.v" ∷ codes "writes x.v" ∷ [] }
    ensures calls { map (deed_text page) (deed.Calls 0 Atomic (Some (path 1 [])) ∷ deed.Calls 0 Cmpd None ∷ []) ≡ codes "calls A.put, which takes the lock of x and gives it back" ∷ codes "calls A.put, which is cmpd" ∷ [] }
    ensures others { map (deed_text page) (deed.Locks (path 0 (1 ∷ [])) ∷ deed.Prints ∷ deed.Starts ∷ deed.Other ∷ []) ≡
        codes "takes the lock of this.n and gives it back" ∷ codes "prints" ∷ codes "starts a thread" ∷ codes "a step" ∷ [] }
{}

/// Which lock would help.
pub fn how_help_reads()
    ensures locks { map (help_text page) (helps.Hold (path 1 []) None ∷ helps.Hold (path 0 []) (Some (path 1 [])) ∷ []) ≡
        codes "with the lock of x held, this step can be moved" ∷ codes "with the lock of this held, this step can be moved; it is held here under another name only, x" ∷ [] }
    ensures guards { map (help_text page) (helps.Unguarded ∷ helps.WritesOnly ∷ helps.Unnamed (lack.Variable 1) ∷ []) ≡
        codes "no lock helps this step: nothing guards the field" ∷ codes "no lock helps this step: the field is guarded for writing only, so it may be read at any time"
        ∷ codes "the lock that would help this step has no name here, since x isn't final" ∷ [] }
    ensures others { map (help_text page) (helps.ReceiverUnnamed (lack.Variable 1) ∷ helps.NoneNamed ∷ helps.Seen ∷ []) ≡
        codes "no one lock that has a name here helps this step, and x isn't final" ∷ codes "no one lock that has a name here helps this step" ∷ codes "no lock helps this step" ∷ [] }
    ensures stays { map (λ help. may_stay help (helps.Hold (path 1 []) None)) (helps.Unguarded ∷ helps.Seen ∷ helps.Hold (path 0 []) None ∷ []) ≡ true ∷ true ∷ false ∷ [] }
    ensures moves { map (may_stay helps.Seen) (helps.Unguarded ∷ helps.NoneNamed ∷ helps.Seen ∷ []) ≡ false ∷ false ∷ false ∷ [] }
{}

/// The codes of the lines.
pub fn which_codes_lines_have()
    ensures ends { ending (codes "two-steps") ≡ codes " [two-steps]\n" }
    ensures heads { map why_code (Wrong (one_step 1) ∷ Looped (one_step 1) 0 ∷ Compound (one_step 1) ∷ Two (one_step 1) (one_step 2) ∷ Overridden 0 Cmpd ∷ Nothing ∷ []) ≡
        codes "lock-error" ∷ codes "step-in-a-loop" ∷ codes "compound-call" ∷ codes "two-steps" ∷ codes "overriding-method" ∷ codes "no-reason" ∷ [] }
    ensures causes { map cause_code (cause.Bare None 0 false this_path None ∷ cause.Nameless 0 false lack.Long ∷ cause.Lacking 0 this_path this_path None ∷ cause.LackingName 0 this_path lack.Long ∷ cause.Refused 0 ∷ cause.Other ∷ []) ≡
        codes "guard-not-held" ∷ codes "guard-unnamed" ∷ codes "required-not-held" ∷ codes "required-unnamed" ∷ codes "calls-an-error" ∷ codes "other-error" ∷ [] }
    ensures spoken { map (λ b. map (λ k. spoken_kind k b) (kind.First ∷ kind.Second ∷ kind.Repeated ∷ kind.Compound ∷ [])) (false ∷ true ∷ []) ≡
        (kind.First ∷ kind.Second ∷ kind.Repeated ∷ kind.Compound ∷ []) ∷ (kind.Compound ∷ kind.Second ∷ kind.Compound ∷ kind.Compound ∷ []) ∷ [] }
    ensures leads { map step_lead (kind.First ∷ kind.Second ∷ kind.Repeated ∷ kind.Compound ∷ []) ≡ codes "atomic step: " ∷ codes "a second one: " ∷ codes "atomic step: " ∷ codes "compound step: " ∷ [] }
    ensures steps { map step_code (kind.First ∷ kind.Second ∷ kind.Repeated ∷ kind.Compound ∷ []) ≡ codes "first-step" ∷ codes "second-step" ∷ codes "repeated-step" ∷ codes "compound-step" ∷ [] }
    ensures helps { map help_code (helps.Hold this_path None ∷ helps.Unguarded ∷ helps.WritesOnly ∷ helps.Unnamed lack.Long ∷ helps.ReceiverUnnamed lack.Long ∷ helps.NoneNamed ∷ helps.Seen ∷ []) ≡
        codes "help-lock" ∷ codes "help-unguarded" ∷ codes "help-writes-only" ∷ codes "help-unnamed" ∷ codes "help-receiver-unnamed" ∷ codes "help-none-named" ∷ codes "help-none" ∷ [] }
{}
