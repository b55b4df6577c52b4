//! Certificates of refusal as texts.
ghost use Rattle.std.specs.Prelude.{◌≡◌, [], ◌∷◌, Some, None, Ok, Err, codes};
ghost use Rattle.algebra.specs.declared.basic.Basic.TheVariants.{Mover, Atomic};
ghost use Rattle.books.specs.declared.stop.Kind.TheVariants.{Form};
ghost use Rattle.refutation.specs.Texts.{held_text, certificate_line_text, blame_text};
ghost use Rattle.refutation.specs.Reading.{later_path, held_most, held_at, line_at, count_at, blame_at, first_certificate_fault};
ghost use Rattle.core_examples.specs.Fields.{path};
ghost use Rattle.text_examples.specs.Texts.{three_lines, three_text};

/// The count of the lines, the lines, and `end`.
pub fn how_certificates_are_written()
    ensures paths { held_text (path 0 [] ∷ path 1 (7 ∷ []) ∷ []) ≡ codes " 0 1.7" }
    ensures line { certificate_line_text (record { method = 3; found = Atomic; held = [] }) ≡ codes "3 atomic\n" }
    ensures all { blame_text three_lines ≡ three_text }
    ensures nothing { blame_text [] ≡ codes "blame 0\nend\n" }
{}

/// Lines as they are read, with the bytes behind them; held paths ascend.
pub fn how_certificates_are_read()
    ensures first_path { later_path None (codes "0\n") ≡ Ok (path 0 [], codes "\n") }
    ensures later_path { later_path (Some (path 0 [])) (codes "0.1\n") ≡ Ok (path 0 (1 ∷ []), codes "\n") }
    ensures same_path { later_path (Some (path 0 [])) (codes "0\n") ≡ Err (Form, codes "0\n") }
    ensures earlier_path { later_path (Some (path 1 [])) (codes "0\n") ≡ Err (Form, codes "0\n") }
    ensures paths { held_at None (codes " 0 1\n") ≡ Ok (path 0 [] ∷ path 1 [] ∷ [], codes "\n") }
    ensures no_paths { held_at None (codes "\n") ≡ Ok ([], codes "\n") }
    ensures falling_paths { held_at None (codes " 1 0\n") ≡ Err (Form, codes "0\n") }
    ensures line { line_at (codes "12 mover 0\n0") ≡ Ok (record { method = 12; found = Mover; held = path 0 [] ∷ [] }, codes "0") }
    ensures last_method { line_at (codes "4294967295 mover\n") ≡ Ok (record { method = 4294967295; found = Mover; held = [] }, []) }
    ensures method_past_the_end { line_at (codes "4294967296 mover\n") ≡ Err (Form, codes "4294967296 mover\n") }
    ensures last_count { count_at (codes "blame 4294967295\n") ≡ Ok (4294967295, []) }
    ensures count_past_the_end { count_at (codes "blame 4294967296\n") ≡ Err (Form, codes "4294967296\n") }
    ensures no_more_paths { held_most 0 None (codes " 0\n") ≡ Ok ([], codes " 0\n") }
    ensures all { blame_at three_text ≡ Ok (three_lines, []) }
{}

/// The first byte at which a text is no certificate's.
pub fn which_fault_of_a_certificate_is_first()
    ensures none { first_certificate_fault three_text ≡ None }
    ensures nothing { first_certificate_fault (codes "blame 0\nend\n") ≡ None }
    ensures empty { first_certificate_fault (codes "") ≡ Some 0 }
    ensures ends_early { first_certificate_fault (codes "blame 1\n0 atomic\nend") ≡ Some 20 }
    ensures goes_on { first_certificate_fault (codes "blame 0\nend\n ") ≡ Some 12 }
    ensures one_line_less { first_certificate_fault (codes "blame 1\nend\n") ≡ Some 8 }
    ensures one_line_more { first_certificate_fault (codes "blame 0\n0 atomic\nend\n") ≡ Some 8 }
    ensures basic { first_certificate_fault (codes "blame 1\n0 atom\nend\n") ≡ Some 14 }
    ensures falling_paths { first_certificate_fault (codes "blame 1\n0 mover 1 0\nend\n") ≡ Some 18 }
{}
