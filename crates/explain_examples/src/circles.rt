//! How methods are told that call each other, computed.
ghost use Rattle.std.specs.Prelude.{◌≡◌, true, false, [], ◌∷◌, map, Some, None};
ghost use Rattle.algebra.specs.declared.basic.Basic.TheVariants.{Const, Mover, Atomic, Cmpd, Error};
ghost use Rattle.core_program.specs.Examples.{plain_method};
ghost use Rattle.core_examples.specs.Bodies.{nothing_held};
ghost use Rattle.explain.specs.declared.ranking.Bounds.TheVariants.{Declared, Strict};
ghost use Rattle.explain.specs.Explaining.{begins_compound, done_in_order};
ghost use Rattle.explain.specs.Grounds.{lead_at, lesser, level_at, lowered, rank_at, why_by};
ghost use Rattle.explain.specs.Leads.{RunsInCircle, is_grounded_by, is_reason, reason_lead, leads_below, limit_for};
ghost use Rattle.explain.specs.Programs.{explanations};
ghost use Rattle.explain.specs.Ranking.{first_grounds, ground_by, is_stuck_at, may_rank, open_rank};
ghost use Rattle.explain.specs.Whys.{Wrong, Looped, Compound, Two, Overridden, Nothing};
ghost use Rattle.explain_examples.specs.Circles.{back, circle, circle_ranks, turning};
ghost use Rattle.explain_examples.specs.Outlines.{outline, told_outline, compound, two};
ghost use Rattle.explain_examples.specs.Page.{locked_put, locking_program};
ghost use Rattle.explain_examples.specs.Shelf.{all_compound, call_visit, calling_main, shelf, shelf_levels, shelf_paths, write_visit};

/// What is told as it is leads in a circle. By ranks one of the two is told by its steps, and the other isn't told.
pub fn how_circles_are_told()
    ensures as_they_are { map told_outline (explanations circle shelf_paths all_compound (λ m. []) []) ≡
        record { method = 0; is_refused = true; limit = Atomic; found = Cmpd; why = compound 9 } ∷ record { method = 1; is_refused = false; limit = Atomic; found = Cmpd; why = compound 2 } ∷ [] }
    ensures by_ranks { map told_outline (explanations circle shelf_paths all_compound (λ m. []) circle_ranks) ≡ record { method = 0; is_refused = true; limit = Atomic; found = Cmpd; why = two 9 12 } ∷ [] }
    ensures other { outline (why_by circle shelf_paths all_compound (λ m. []) circle_ranks 1 back Atomic) ≡ compound 2 }
{}

/// How the ranks are found: at first each of the two leads to the other. By what is known before the first rank only `f` is more.
pub fn how_ranks_are_given()
    ensures first { first_grounds circle shelf_paths all_compound (λ m. []) Declared ≡
        record { rank = open_rank; level = None; lead = Some 1 } ∷ record { rank = open_rank; level = None; lead = Some 0 } ∷ [] }
    ensures none { map (may_rank (first_grounds circle shelf_paths all_compound (λ m. []) Declared) 1) (None ∷ Some (record { rank = open_rank; level = None; lead = Some 1 }) ∷ Some (record { rank = open_rank; level = None; lead = None }) ∷ Some (record { rank = 1; level = None; lead = None }) ∷ []) ≡ false ∷ false ∷ true ∷ false ∷ [] }
    ensures one { ground_by circle shelf_paths all_compound (λ m. []) (first_grounds circle shelf_paths all_compound (λ m. []) Declared) Atomic 1 0 turning ≡ Some (record { rank = 1; level = Some Atomic; lead = None }) }
    ensures other { ground_by circle shelf_paths all_compound (λ m. []) (first_grounds circle shelf_paths all_compound (λ m. []) Declared) Atomic 1 1 back ≡ None }
    ensures stuck { map (λ round. is_stuck_at circle shelf_paths all_compound (λ m. []) circle_ranks Atomic round 1 back) (1 ∷ 2 ∷ []) ≡ true ∷ true ∷ [] }
    ensures below { map (leads_below circle_ranks 2) (None ∷ Some 0 ∷ Some 1 ∷ Some 7 ∷ []) ≡ true ∷ true ∷ false ∷ true ∷ [] }
    ensures rows { map (rank_at circle_ranks) (0 ∷ 1 ∷ 2 ∷ []) ≡ 1 ∷ 2 ∷ 0 ∷ [] }
    ensures levels { map (level_at circle_ranks) (0 ∷ 1 ∷ 2 ∷ []) ≡ Some Atomic ∷ None ∷ None ∷ [] }
    ensures leads { map (lead_at circle_ranks) (0 ∷ 1 ∷ 2 ∷ []) ≡ None ∷ Some 0 ∷ None ∷ [] }
{}

/// What `f` and `g` are by each other runs into a circle. What `main` is by its own two writes doesn't, and a method that isn't there is none of
/// these.
pub fn what_runs_into_a_circle()
    ensures runs { RunsInCircle Declared circle shelf_paths all_compound (λ m. []) 0 }
    ensures ends { RunsInCircle Declared calling_main shelf_paths all_compound (λ m. []) 1 → ⊥ }
    ensures missing { RunsInCircle Declared circle shelf_paths all_compound (λ m. []) 2 → ⊥ }
{}

/// What is known before a rank, and what a reason leads to.
pub fn what_is_known()
    ensures lesser { map (λ b. lesser b Atomic) (Const ∷ Mover ∷ Atomic ∷ Cmpd ∷ Error ∷ []) ≡ Const ∷ Mover ∷ Atomic ∷ Atomic ∷ Atomic ∷ [] }
    ensures lowered { map (λ m. lowered all_compound circle_ranks 2 Atomic m nothing_held) (0 ∷ 1 ∷ 2 ∷ []) ≡ Cmpd ∷ Atomic ∷ Cmpd ∷ [] }
    ensures lead { map (reason_lead shelf shelf_paths) (Wrong (write_visit 1 None) ∷ Wrong (call_visit 1 6) ∷ Wrong (call_visit 1 9) ∷ Looped (call_visit 1 7) 0 ∷ Compound (call_visit 1 7) ∷ Two (call_visit 1 7) (call_visit 2 7) ∷ Overridden 8 Cmpd ∷ Nothing ∷ []) ≡
        None ∷ Some 6 ∷ None ∷ None ∷ Some 7 ∷ None ∷ Some 8 ∷ None ∷ [] }
    ensures reasons { map is_reason (Nothing ∷ Wrong (write_visit 1 None) ∷ Two (call_visit 1 7) (call_visit 2 7) ∷ []) ≡ false ∷ true ∷ true ∷ [] }
    ensures grounded { map (is_grounded_by circle shelf_paths circle_ranks 2) (Nothing ∷ Compound (call_visit 1 0) ∷ Compound (call_visit 1 1) ∷ []) ≡ false ∷ true ∷ false ∷ [] }
    ensures limits { map (λ m. limit_for Declared locking_program all_compound m (plain_method 0 0 false locked_put)) (0 ∷ []) ≡ Atomic ∷ [] }
    ensures strict { map (λ m. limit_for Strict locking_program (λ k H. Error) m (plain_method 0 0 false locked_put)) (0 ∷ 1 ∷ []) ≡ Atomic ∷ Cmpd ∷ [] }
{}

/// Of two steps the one first that is done first.
pub fn which_step_is_first()
    ensures order { map outline (done_in_order true (Two (write_visit 1 None) (call_visit 2 7)) ∷ done_in_order false (Two (write_visit 1 None) (call_visit 2 7)) ∷ done_in_order true (Compound (call_visit 2 7)) ∷ []) ≡ two 2 1 ∷ two 1 2 ∷ compound 2 ∷ [] }
    ensures begins { map (begins_compound shelf shelf_paths shelf_levels) ([] ∷ (call_visit 3 2 ∷ write_visit 4 None ∷ []) ∷ (write_visit 3 None ∷ call_visit 4 2 ∷ []) ∷ []) ≡ false ∷ true ∷ false ∷ [] }
{}
