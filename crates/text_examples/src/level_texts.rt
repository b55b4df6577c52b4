//! Lock levels as texts.
ghost use Rattle.std.specs.Prelude.{◌≡◌, [], ◌∷◌, map, Ok, Err, codes};
ghost use Rattle.books.specs.declared.stop.Kind.TheVariants.{Form};
ghost use Rattle.level_check.specs.Texts.{level_line_text, level_lines_text};
ghost use Rattle.level_check.specs.Reading.{first_word, name_at, level_at};

/// A line for each class: its name, a blank, its level.
pub fn how_levels_are_written()
    ensures line { level_line_text (record { name = codes "Buf"; level = 12 }) ≡ codes "Buf 12\n" }
    ensures lines { level_lines_text (record { name = codes "A"; level = 1 } ∷ record { name = codes "B"; level = 2 } ∷ []) ≡ codes "A 1\nB 2\n" }
    ensures nothing { level_lines_text [] ≡ [] }
{}

/// A name is one only where its blank follows; a level is a number from 1 on, and LF follows.
pub fn how_levels_are_read()
    ensures words { map first_word (codes "A1_b 2" ∷ codes "1a" ∷ codes "" ∷ codes "_" ∷ []) ≡ codes "A1_b" ∷ [] ∷ [] ∷ codes "_" ∷ [] }
    ensures name { name_at (codes "Buf 12\n") ≡ Ok (codes "Buf", codes "12\n") }
    ensures no_name { name_at (codes "1 2\n") ≡ Err (Form, codes "1 2\n") }
    ensures no_blank { name_at (codes "X! 2\n") ≡ Err (Form, codes "! 2\n") }
    ensures level { level_at (codes "12\nA") ≡ Ok (12, codes "A") }
    ensures last_level { level_at (codes "4294967295\n") ≡ Ok (4294967295, []) }
    ensures level_past_the_end { level_at (codes "4294967296\n") ≡ Err (Form, codes "4294967296\n") }
    ensures zero { level_at (codes "0\n") ≡ Err (Form, codes "0\n") }
    ensures leading_zero { level_at (codes "01\n") ≡ Err (Form, codes "01\n") }
    ensures no_end { level_at (codes "1 \n") ≡ Err (Form, codes " \n") }
{}
