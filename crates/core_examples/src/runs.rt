//! Runs, where they stop, and rearrangements.
ghost use Rattle.std.specs.Prelude.{◌≡◌, [], ◌∷◌, ◌++◌, Some, None, replicate};
ghost use Rattle.core_program.specs.Examples.{counter, nested};
ghost use Rattle.state.specs.States.{Running, Done, initial};
ghost use Rattle.semantics.specs.Step.{Absent, IsDone};
ghost use Rattle.semantics.specs.Run.{run, run_from, StopsAt, IsRearrangement, IsUninterrupted, own_states};
ghost use Rattle.semantics.specs.Examples.{nested_after_eleven, one_worker};
ghost use Rattle.core_examples.specs.Seen.{four_fields};
ghost use Rattle.core_examples.specs.Insides.{entered_frame, two_ready};

/// Nothing runs to the state at the start; a run goes no further than the first entry that can't step.
pub fn where_runs_end()
    ensures nothing { run counter [] ≡ Some (initial counter) }
    ensures absent { run counter (1 ∷ []) ≡ None }
    ensures done { run nested (replicate 12 0) ≡ None }
    ensures in_two_parts { run_from nested nested_after_eleven [] ≡ Some nested_after_eleven }
    ensures stops { StopsAt nested (replicate 11 0 ++ 0 ∷ 1 ∷ []) 11 IsDone }
    ensures stops_at_absent { StopsAt counter (1 ∷ 0 ∷ []) 0 Absent }
{}

/// What a thread's own entries make of it, up to the first entry of any thread that can't step.
pub fn what_becomes_of_a_thread()
    ensures own { own_states four_fields two_ready 1 (0 ∷ 1 ∷ 0 ∷ 1 ∷ []) ≡ Some (Running (entered_frame ∷ [])) ∷ Some Done ∷ [] }
    ensures no_entry { own_states four_fields two_ready 1 (0 ∷ 0 ∷ []) ≡ [] }
    ensures stopped { own_states four_fields two_ready 1 (1 ∷ 2 ∷ 1 ∷ []) ≡ Some (Running (entered_frame ∷ [])) ∷ [] }
    ensures nothing { own_states four_fields two_ready 1 [] ≡ [] }
{}

/// A rearrangement has each entry as often.
pub fn which_schedules_are_rearrangements()
    ensures other_order { IsRearrangement (0 ∷ 1 ∷ 0 ∷ []) (0 ∷ 0 ∷ 1 ∷ []) }
    ensures one_more { IsRearrangement (0 ∷ []) (0 ∷ 0 ∷ []) → ⊥ }
    ensures other_thread { IsRearrangement (0 ∷ []) (1 ∷ []) → ⊥ }
{}

/// One thread after the other interrupts nobody, and neither does the end of a schedule; a schedule that doesn't run isn't uninterrupted.
pub fn which_schedules_interrupt_nobody()
    ensures one_worker { IsUninterrupted counter one_worker }
    ensures cut_off { IsUninterrupted nested (replicate 3 0) }
    ensures no_run { IsUninterrupted counter (1 ∷ []) → ⊥ }
{}
