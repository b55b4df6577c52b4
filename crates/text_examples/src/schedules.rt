//! The texts of schedules: what they write, where they go wrong, and how they are written.
ghost use Rattle.std.specs.Prelude.{◌≡◌, true, false, [], ◌∷◌, map, Some, None, codes};
ghost use Rattle.schedule.specs.Text.{blank, comment, single, group, spelled, is_schedule_blank, ends_entry, ends_comment, piece_count, piece_thread, piece_of, joined, total, piece_steps, IsSchedule};
ghost use Rattle.schedule.specs.Faults.{writes_number, first_digits, after_digits, begins_count, form_fault, HasFormFault, HasLengthFault};
ghost use Rattle.schedule.specs.Fronts.{ends_in_star, may_stand};
ghost use Rattle.schedule.specs.Written.{groups_of, group_text, written};
ghost use Rattle.schedule.specs.Comments.{commented, ends_line};
ghost use Rattle.text_examples.specs.Texts.{small_text};

/// The pieces of a text: how each is spelled, what may stand behind it, and which steps it gives.
pub fn what_pieces_are()
    ensures spelled { map spelled (blank 32 ∷ comment (codes " a") ∷ single 12 ∷ group 1 20 ∷ []) ≡ codes " " ∷ codes "# a" ∷ codes "12" ∷ codes "1*20" ∷ [] }
    ensures blanks { map is_schedule_blank (32 ∷ 9 ∷ 13 ∷ 10 ∷ 12 ∷ 11 ∷ []) ≡ true ∷ true ∷ true ∷ true ∷ false ∷ false ∷ [] }
    ensures behind_an_entry { map ends_entry (codes "" ∷ codes " 1" ∷ codes "#" ∷ codes "1" ∷ codes "*" ∷ []) ≡ true ∷ true ∷ true ∷ false ∷ false ∷ [] }
    ensures behind_a_comment { map ends_comment (codes "" ∷ codes "\n1" ∷ codes "\r" ∷ codes "1" ∷ []) ≡ true ∷ true ∷ false ∷ false ∷ [] }
    ensures counts { map piece_count (blank 32 ∷ comment [] ∷ single 7 ∷ group 7 3 ∷ []) ≡ 0 ∷ 0 ∷ 1 ∷ 3 ∷ [] }
    ensures threads { map piece_thread (blank 32 ∷ comment [] ∷ single 7 ∷ group 8 3 ∷ []) ≡ 0 ∷ 0 ∷ 7 ∷ 8 ∷ [] }
    ensures entries { piece_of 7 None ∷ piece_of 7 (Some 3) ∷ [] ≡ single 7 ∷ group 7 3 ∷ [] }
    ensures text { joined (single 1 ∷ blank 32 ∷ group 2 3 ∷ []) (codes "#") ≡ codes "1 2*3#" }
    ensures all_steps { total (single 1 ∷ blank 32 ∷ group 2 3 ∷ []) ≡ 4 }
    ensures schedule { piece_steps (single 1 ∷ blank 32 ∷ group 2 3 ∷ []) ≡ 1 ∷ 2 ∷ 2 ∷ 2 ∷ [] }
{}

/// Numbers are written without leading zeros and in their ranges.
pub fn which_numbers_are_written()
    ensures threads { map (writes_number 0 10) (codes "0" ∷ codes "9" ∷ codes "10" ∷ codes "00" ∷ codes "" ∷ []) ≡ true ∷ true ∷ false ∷ false ∷ false ∷ [] }
    ensures counts { map (writes_number 1 10) (codes "0" ∷ codes "1" ∷ codes "01" ∷ []) ≡ false ∷ true ∷ false ∷ [] }
    ensures low { map (writes_number 5 10) (codes "4" ∷ codes "5" ∷ []) ≡ false ∷ true ∷ [] }
    ensures digits { map first_digits (codes "12a3" ∷ codes "a" ∷ codes "12" ∷ []) ≡ codes "12" ∷ [] ∷ codes "12" ∷ [] }
    ensures behind { map after_digits (codes "12a3" ∷ codes "a" ∷ codes "12" ∷ []) ≡ codes "a3" ∷ codes "a" ∷ [] ∷ [] }
    ensures star { map begins_count (codes "*" ∷ codes "1*" ∷ codes "" ∷ []) ≡ true ∷ false ∷ false ∷ [] }
    ensures last_star { map (ends_in_star false) (codes "1*" ∷ codes "*1" ∷ codes "" ∷ []) ≡ true ∷ false ∷ false ∷ [] }
    ensures star_before { ends_in_star true [] ≡ true }
    ensures counts_may_stand { map (may_stand (codes "1*")) (codes "1" ∷ codes "18446744073709551615" ∷ codes "18446744073709551616" ∷ []) ≡ true ∷ true ∷ false ∷ [] }
    ensures may_stand { may_stand (codes "1*") (codes "0") ∷ may_stand (codes "1 ") (codes "0") ∷ may_stand [] (codes "4294967296") ∷ may_stand (codes "*") (codes "4294967296") ∷ [] ≡
        false ∷ true ∷ false ∷ true ∷ [] }
{}

/// Where an entry goes wrong, by the byte; blanks, comments and the end are no entry.
pub fn where_entries_go_wrong()
    ensures no_entry { map form_fault (codes "" ∷ codes " x" ∷ codes "#x" ∷ codes "\n" ∷ []) ≡ None ∷ None ∷ None ∷ None ∷ [] }
    ensures right { map form_fault (codes "1" ∷ codes "1 x" ∷ codes "4294967295" ∷ codes "1*2" ∷ codes "1*2#" ∷ codes "1*18446744073709551615" ∷ codes "0" ∷ codes "0*1" ∷ []) ≡
        None ∷ None ∷ None ∷ None ∷ None ∷ None ∷ None ∷ None ∷ [] }
    ensures thread { map form_fault (codes "x" ∷ codes "01" ∷ codes "4294967296" ∷ codes "*2" ∷ []) ≡ Some 0 ∷ Some 0 ∷ Some 0 ∷ Some 0 ∷ [] }
    ensures behind_the_thread { map form_fault (codes "12x" ∷ codes "1-" ∷ []) ≡ Some 2 ∷ Some 1 ∷ [] }
    ensures count { map form_fault (codes "1*" ∷ codes "1*x" ∷ codes "12*0" ∷ codes "1*01" ∷ codes "1*18446744073709551616" ∷ []) ≡ Some 2 ∷ Some 2 ∷ Some 3 ∷ Some 2 ∷ Some 2 ∷ [] }
    ensures behind_the_count { map form_fault (codes "1*23x" ∷ codes "1*2*3" ∷ []) ≡ Some 4 ∷ Some 3 ∷ [] }
{}

/// A whole text: its schedule, or its first fault.
pub fn what_texts_write()
    ensures schedule { IsSchedule small_text (0 ∷ 0 ∷ 1 ∷ []) }
    ensures nothing { IsSchedule (codes "") [] }
    ensures fault { HasFormFault (codes "0 1x") 3 }
    ensures too_long { HasLengthFault (codes "0 1*200000") 2 }
{}

/// A schedule is written as one line of groups; comments stand behind a `# ` on each line.
pub fn how_schedules_are_written()
    ensures groups { groups_of (0 ∷ 0 ∷ 1 ∷ 0 ∷ []) ≡ (0, 2) ∷ (1, 1) ∷ (0, 1) ∷ [] }
    ensures no_groups { groups_of [] ≡ [] }
    ensures group { map group_text ((3, 1) ∷ (3, 12) ∷ []) ≡ codes "3" ∷ codes "3*12" ∷ [] }
    ensures text { written (0 ∷ 0 ∷ 1 ∷ 2 ∷ 2 ∷ []) ≡ codes "0*2 1 2*2\n" }
    ensures nothing { written [] ≡ codes "\n" }
    ensures comments { commented (codes "a\n\nb") ≡ codes "# a\n# \n# b" }
    ensures no_comments { commented (codes "") ≡ codes "" }
    ensures ends { map ends_line (codes "" ∷ codes "a\n" ∷ codes "a\nb" ∷ codes "a" ∷ codes "ab" ∷ []) ≡ true ∷ true ∷ false ∷ false ∷ false ∷ [] }
{}
