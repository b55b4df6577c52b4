//! The open order of a schedule: which units commit, and where the others stand.
ghost use Rattle.std.specs.Prelude.{◌≡◌, ◌+◌, true, false, [], ◌∷◌, map};
ghost use Rattle.state.specs.declared.value.StepKind.TheVariants.{Both, Right, Left, Other};
ghost use Rattle.semantics.specs.Units.{units, schedule_of};
ghost use Rattle.reduction.specs.Committing.{commits, is_uncommitted, unit_thread, placed_by_thread, by_thread, open_units};
ghost use Rattle.serialise.specs.Spreading.{stays_open, committed_size, left_size, spread_committed, with_left, left_sizes, spread_threads};
ghost use Rattle.core_examples.specs.Entries.{entry_at};

/// A unit commits where it is whole, or has made a Left or Other step.
pub fn which_units_commit()
    ensures whole { commits (entry_at 0 0 Right true ∷ entry_at 1 0 Both false ∷ []) ≡ true }
    ensures left { commits (entry_at 0 0 Right true ∷ entry_at 1 0 Left true ∷ entry_at 2 0 Both true ∷ []) ≡ true }
    ensures other { commits (entry_at 0 0 Other true ∷ []) ≡ true }
    ensures not_yet { commits (entry_at 0 0 Right true ∷ entry_at 1 0 Both true ∷ []) ≡ false }
    ensures uncommitted { map is_uncommitted ((entry_at 0 0 Right true ∷ []) ∷ (entry_at 0 0 Left true ∷ []) ∷ []) ≡ true ∷ false ∷ [] }
    ensures threads { map unit_thread ([] ∷ (entry_at 4 3 Both true ∷ entry_at 5 3 Left true ∷ []) ∷ []) ≡ 0 ∷ 3 ∷ [] }
{}

/// Units by their threads.
pub fn how_threads_order_units()
    ensures alone { placed_by_thread (entry_at 7 2 Both true ∷ []) [] ≡ (entry_at 7 2 Both true ∷ []) ∷ [] }
    ensures before { placed_by_thread (entry_at 7 2 Both true ∷ []) ((entry_at 4 3 Both true ∷ []) ∷ []) ≡ (entry_at 7 2 Both true ∷ []) ∷ (entry_at 4 3 Both true ∷ []) ∷ [] }
    ensures behind { placed_by_thread (entry_at 4 3 Both true ∷ []) ((entry_at 7 2 Both true ∷ []) ∷ []) ≡ (entry_at 7 2 Both true ∷ []) ∷ (entry_at 4 3 Both true ∷ []) ∷ [] }
    ensures before_its_own { placed_by_thread (entry_at 4 3 Both true ∷ []) ((entry_at 7 3 Both true ∷ []) ∷ []) ≡ (entry_at 4 3 Both true ∷ []) ∷ (entry_at 7 3 Both true ∷ []) ∷ [] }
    ensures three { map unit_thread (by_thread ((entry_at 7 2 Both true ∷ []) ∷ (entry_at 4 3 Both true ∷ []) ∷ (entry_at 9 1 Both true ∷ []) ∷ [])) ≡ 1 ∷ 2 ∷ 3 ∷ [] }
{}

/// First the units that commit, by their commit places, and then the others, by their threads.
pub fn what_the_open_order_is()
    ensures nothing { open_units [] ≡ [] }
    ensures committed_first { schedule_of (open_units (units (entry_at 0 0 Right true ∷ entry_at 1 1 Both false ∷ entry_at 2 0 Both true ∷ []))) ≡ 1 ∷ 0 ∷ 0 ∷ [] }
    ensures by_commit_and_thread { schedule_of (open_units (units (entry_at 0 3 Right true ∷ entry_at 1 2 Right true ∷ entry_at 2 1 Right true ∷ entry_at 3 0 Other true ∷ entry_at 4 1 Left true ∷ entry_at 5 0 Both false ∷ []))) ≡ 0 ∷ 0 ∷ 1 ∷ 1 ∷ 2 ∷ 3 ∷ [] }
    ensures open_and_committed { schedule_of (open_units (units (entry_at 0 1 Other true ∷ entry_at 1 0 Other true ∷ entry_at 2 0 Both false ∷ []))) ≡ 1 ∷ 0 ∷ 0 ∷ [] }
{}

/// How many steps the unit has whose commit place is at a step, where it commits, and where it is left open.
pub fn which_units_are_left_open()
    ensures left_open { stays_open (record { thread = 0; kind = Right; inside = true }) ≡ true }
    ensures committed { stays_open (record { thread = 0; kind = Left; inside = true }) ≡ false }
    ensures whole { stays_open (record { thread = 0; kind = Both; inside = false }) ≡ false }
    ensures size { committed_size (λ place. place + 2) 3 (record { thread = 0; kind = Left; inside = true }) ≡ 5 }
    ensures none { committed_size (λ place. place + 2) 3 (record { thread = 0; kind = Right; inside = true }) ≡ 0 }
    ensures none_left { left_size (λ place. place + 2) 3 (record { thread = 0; kind = Left; inside = true }) ≡ 0 }
    ensures size_left { left_size (λ place. place + 2) 3 (record { thread = 0; kind = Right; inside = true }) ≡ 5 }
{}

/// The threads of the units that commit, in the order of their commit places; those of the others, by thread.
pub fn how_steps_are_spread()
    ensures committed { spread_committed (λ place. place + 1) 1 (record { thread = 7; kind = Left; inside = false } ∷ record { thread = 8; kind = Right; inside = true }
        ∷ record { thread = 9; kind = Both; inside = false } ∷ []) ≡ 7 ∷ 7 ∷ 9 ∷ 9 ∷ 9 ∷ 9 ∷ [] }
    ensures one_more { map (with_left 1 5 (λ thread. thread + 7)) (0 ∷ 1 ∷ 2 ∷ []) ≡ 7 ∷ 5 ∷ 9 ∷ [] }
    ensures of_the_first_thread { map (with_left 0 5 (λ thread. thread + 7)) (0 ∷ 1 ∷ []) ≡ 5 ∷ 8 ∷ [] }
    ensures nothing_more { map (with_left 1 0 (λ thread. thread + 7)) (0 ∷ 1 ∷ 2 ∷ []) ≡ 7 ∷ 8 ∷ 9 ∷ [] }
    ensures left { map (left_sizes (λ place. place + 2) 1 (record { thread = 0; kind = Right; inside = true } ∷ record { thread = 1; kind = Left; inside = true }
        ∷ record { thread = 2; kind = Both; inside = true } ∷ [])) (0 ∷ 1 ∷ 2 ∷ 3 ∷ []) ≡ 3 ∷ 0 ∷ 5 ∷ 0 ∷ [] }
    ensures by_thread { spread_threads 3 (2 ∷ 0 ∷ 1 ∷ []) ≡ 3 ∷ 3 ∷ 5 ∷ [] }
{}
