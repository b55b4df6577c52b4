//! Units, commit places and the written order of entries.
ghost use Rattle.std.specs.Prelude.{◌≡◌, true, false, [], ◌∷◌, map};
ghost use Rattle.state.specs.declared.value.StepKind.TheVariants.{Both, Right, Left, Other, Bare};
ghost use Rattle.semantics.specs.Units.{are_kept, units, word_of, is_atomic_call, is_whole, commit_place, in_order, schedule_of};
ghost use Rattle.semantics.specs.Words.{moves_right, moves_left, is_other, is_reducible, fits_phase, next_phase};
ghost use Rattle.core_examples.specs.Entries.{entry_at};

/// An entry after which its thread stands inside belongs to the unit of the thread's next entry.
pub fn what_units_are()
    ensures alone { units (entry_at 0 0 Both false ∷ entry_at 1 0 Both false ∷ []) ≡ (entry_at 0 0 Both false ∷ []) ∷ (entry_at 1 0 Both false ∷ []) ∷ [] }
    ensures interleaved { units (entry_at 0 0 Both true ∷ entry_at 1 1 Both true ∷ entry_at 2 0 Both false ∷ entry_at 3 1 Both false ∷ []) ≡
        (entry_at 0 0 Both true ∷ entry_at 2 0 Both false ∷ []) ∷ (entry_at 1 1 Both true ∷ entry_at 3 1 Both false ∷ []) ∷ [] }
    ensures open_at_the_end { units (entry_at 0 0 Both true ∷ entry_at 1 1 Both false ∷ []) ≡ (entry_at 1 1 Both false ∷ []) ∷ (entry_at 0 0 Both true ∷ []) ∷ [] }
    ensures three { units (entry_at 0 0 Both true ∷ entry_at 1 1 Both false ∷ entry_at 2 0 Both true ∷ entry_at 3 0 Both false ∷ []) ≡
        (entry_at 1 1 Both false ∷ []) ∷ (entry_at 0 0 Both true ∷ entry_at 2 0 Both true ∷ entry_at 3 0 Both false ∷ []) ∷ [] }
    ensures word { word_of (entry_at 0 0 Right true ∷ entry_at 2 0 Left false ∷ []) ≡ Right ∷ Left ∷ [] }
    ensures call { is_atomic_call (entry_at 0 0 Both true ∷ entry_at 2 0 Both false ∷ []) ≡ true }
    ensures no_call { is_atomic_call (entry_at 0 0 Both false ∷ []) ≡ false }
    ensures whole { is_whole (entry_at 0 0 Both true ∷ entry_at 2 0 Both false ∷ []) ≡ true }
    ensures whole_after_three { is_whole (entry_at 0 0 Both true ∷ entry_at 1 0 Both true ∷ entry_at 2 0 Both false ∷ []) ≡ true }
    ensures cut_off { is_whole (entry_at 0 0 Both true ∷ entry_at 2 0 Both true ∷ []) ≡ false }
{}

/// A unit stands at its first Left or Other step, and at its last step where it has none: two calls that overlap with nothing but Both
/// are written by their last ones.
pub fn where_units_stand()
    ensures left { commit_place (entry_at 3 0 Right true ∷ entry_at 5 0 Left true ∷ entry_at 7 0 Both false ∷ []) ≡ 5 }
    ensures other { commit_place (entry_at 3 0 Both true ∷ entry_at 4 0 Other true ∷ entry_at 7 0 Left false ∷ []) ≡ 4 }
    ensures neither { commit_place (entry_at 3 0 Right true ∷ entry_at 5 0 Both true ∷ entry_at 7 0 Both false ∷ []) ≡ 7 }
    ensures by_the_last { schedule_of (in_order (units (entry_at 0 0 Both true ∷ entry_at 1 1 Both true ∷ entry_at 2 1 Both false ∷ entry_at 3 0 Both false ∷ []))) ≡ 1 ∷ 1 ∷ 0 ∷ 0 ∷ [] }
    ensures by_the_commit { schedule_of (in_order (units (entry_at 0 0 Other true ∷ entry_at 1 1 Other true ∷ entry_at 2 1 Both false ∷ entry_at 3 0 Both false ∷ []))) ≡ 0 ∷ 0 ∷ 1 ∷ 1 ∷ [] }
{}

/// Between an entry after which its thread stands inside and that thread's next one no other thread steps.
pub fn what_interrupts()
    ensures kept { are_kept (entry_at 0 0 Both true ∷ entry_at 1 0 Both false ∷ entry_at 2 1 Both true ∷ []) ≡ true }
    ensures kept_to_the_end { are_kept (entry_at 0 0 Both false ∷ entry_at 1 1 Both true ∷ entry_at 2 1 Both false ∷ []) ≡ true }
    ensures interrupted_later { are_kept (entry_at 0 0 Both true ∷ entry_at 1 0 Both true ∷ entry_at 2 1 Both false ∷ []) ≡ false }
    ensures interrupted_last { are_kept (entry_at 0 0 Both false ∷ entry_at 1 0 Both false ∷ entry_at 2 0 Both true ∷ entry_at 3 1 Both false ∷ []) ≡ false }
    ensures interrupted { are_kept (entry_at 0 0 Both true ∷ entry_at 1 1 Both false ∷ []) ≡ false }
    ensures outside { are_kept (entry_at 0 0 Both false ∷ entry_at 1 1 Both false ∷ []) ≡ true }
{}

/// No entries are no unit, no call, and cut off nothing.
pub fn what_no_entries_are()
    ensures kept { are_kept [] ≡ true }
    ensures units { units [] ≡ [] }
    ensures call { is_atomic_call [] ≡ false }
    ensures whole { is_whole [] ≡ true }
    ensures place { commit_place [] ≡ 0 }
    ensures order { schedule_of (in_order []) ≡ [] }
    ensures word { is_reducible [] ≡ true }
{}

/// Which kinds move right, and which left; within a call only those that move left come after its commit.
pub fn which_kinds_move()
    ensures right { map moves_right (Right ∷ Both ∷ Left ∷ Other ∷ Bare ∷ []) ≡ true ∷ true ∷ false ∷ false ∷ false ∷ [] }
    ensures left { map moves_left (Right ∷ Both ∷ Left ∷ Other ∷ Bare ∷ []) ≡ false ∷ true ∷ true ∷ false ∷ false ∷ [] }
    ensures other { map is_other (Right ∷ Both ∷ Left ∷ Other ∷ Bare ∷ []) ≡ false ∷ false ∷ false ∷ true ∷ false ∷ [] }
    ensures before { map (fits_phase false) (Right ∷ Both ∷ Left ∷ Other ∷ Bare ∷ []) ≡ true ∷ true ∷ true ∷ true ∷ false ∷ [] }
    ensures after { map (fits_phase true) (Right ∷ Both ∷ Left ∷ Other ∷ Bare ∷ []) ≡ false ∷ true ∷ true ∷ false ∷ false ∷ [] }
    ensures commits { next_phase (λ t. false) (entry_at 0 1 Left true) 1 ≡ true }
    ensures committed { next_phase (λ t. true) (entry_at 0 1 Both true) 1 ≡ true }
    ensures not_yet { next_phase (λ t. false) (entry_at 0 1 Both true) 1 ≡ false }
    ensures call_ended { next_phase (λ t. true) (entry_at 0 1 Left false) 1 ≡ false }
    ensures of_another { next_phase (λ t. true) (entry_at 0 1 Both true) 2 ≡ true }
    ensures of_another_one { next_phase (λ t. false) (entry_at 0 1 Left true) 2 ≡ false }
{}

/// Right movers, at most one step that is neither, left movers; Both stands anywhere, Bare nowhere.
pub fn which_words_are_reducible()
    ensures word { is_reducible (Both ∷ Right ∷ Both ∷ Other ∷ Both ∷ Left ∷ Both ∷ []) ≡ true }
    ensures without_other { is_reducible (Right ∷ Left ∷ Left ∷ []) ≡ true }
    ensures two_others { is_reducible (Other ∷ Other ∷ []) ≡ false }
    ensures right_after_left { is_reducible (Left ∷ Right ∷ []) ≡ false }
    ensures right_after_other { is_reducible (Other ∷ Right ∷ []) ≡ false }
    ensures other_after_left { is_reducible (Left ∷ Other ∷ []) ≡ false }
    ensures bare { is_reducible (Both ∷ Bare ∷ []) ≡ false }
{}
