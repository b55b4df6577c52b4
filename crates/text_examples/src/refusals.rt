//! Certificates of refusal: what lines say, which lines follow, and what a pass writes.
ghost use Rattle.std.specs.Prelude.{◌≡◌, true, false, [], ◌∷◌, map, Some, None};
ghost use Rattle.algebra.specs.declared.basic.Basic.TheVariants.{Const, Mover, Atomic, Cmpd, Error};
ghost use Rattle.algebra.specs.HeldPaths.{has_path};
ghost use Rattle.core_program.specs.Core.{EmptyS};
ghost use Rattle.core_program.specs.Examples.{this_path, plain_method, counter};
ghost use Rattle.refutation.specs.declared.check.BlameWrong.TheVariants as wrong;
ghost use Rattle.refutation.specs.Lines.{covers, line_at, floor, runs_in, overrides, numbers, overriding, joined_over, body_effect, certified_up};
ghost use Rattle.refutation.specs.Certificates.{are_placed, is_placed, is_justified, bound_of, keeps_bound, breaks, IsCertificate};
ghost use Rattle.refutation.specs.Passes.{subsets_of, cells_in, cells_of, pass, Passes};
ghost use Rattle.refutation.specs.Wrongs.{IsWrongCertificate};
ghost use Rattle.core_examples.specs.Bodies.{nothing_held, this_held, one_path, both_relevant, with_required};
ghost use Rattle.core_examples.specs.Family.{family};
ghost use Rattle.core_examples.specs.Fields.{path};
ghost use Rattle.text_examples.specs.Twice.{twice_program, low_first, of_twice, of_counter, certificate_line, cell, inc_atomic, inc_mover, twice_compound, two_is_guarded};

/// A line says its basic of its method at each set whose relevant paths it has; all lines together say the greatest.
pub fn what_lines_say()
    ensures nothing_held { covers [] (this_path ∷ []) nothing_held ≡ true }
    ensures held_elsewhere { covers [] (this_path ∷ []) this_held ≡ false }
    ensures held_there { covers (this_path ∷ []) (this_path ∷ []) this_held ≡ true }
    ensures held_there_alone { covers (this_path ∷ []) (this_path ∷ []) nothing_held ≡ true }
    ensures not_relevant { covers [] [] this_held ≡ true }
    ensures one_of_two { covers (this_path ∷ []) (this_path ∷ one_path ∷ []) (has_path (this_path ∷ one_path ∷ [])) ≡ false }
    ensures line { line_at both_relevant (certificate_line 1 Atomic []) 1 nothing_held ≡ Atomic }
    ensures other_method { line_at both_relevant (certificate_line 1 Atomic []) 0 nothing_held ≡ Const }
    ensures other_set { line_at both_relevant (certificate_line 1 Atomic []) 1 this_held ≡ Const }
    ensures none { floor both_relevant [] 1 nothing_held ≡ Const }
    ensures greater_first { floor both_relevant (certificate_line 1 Atomic [] ∷ certificate_line 1 Mover [] ∷ []) 1 nothing_held ≡ Atomic }
    ensures greater_last { floor both_relevant (certificate_line 1 Mover [] ∷ certificate_line 1 Atomic [] ∷ []) 1 nothing_held ≡ Atomic }
{}

/// A method overrides another one that it isn't where its own class runs it for that.
pub fn which_methods_override()
    ensures no_class { runs_in family None 0 0 ≡ false }
    ensures own { runs_in family (Some 1) 2 0 ≡ true }
    ensures other { runs_in family (Some 1) 0 0 ≡ false }
    ensures overrides { overrides family 2 0 ≡ true }
    ensures itself { overrides family 0 0 ≡ false }
    ensures the_other_way { overrides family 0 2 ≡ false }
    ensures in_a_class_below { overrides family 3 0 ≡ false }
    ensures no_method { overrides family 9 0 ≡ false }
    ensures numbers { numbers 3 2 ≡ 3 ∷ 4 ∷ [] }
    ensures overriding { overriding family 0 ≡ 2 ∷ [] }
    ensures nothing { overriding family 1 ≡ [] }
    ensures the_first { overriding low_first 1 ≡ 0 ∷ [] }
{}

/// A call comes to what the method's body does, or to what is assigned to one that overrides it, at the paths that are relevant to that.
pub fn what_calls_come_to()
    ensures none { joined_over both_relevant two_is_guarded [] nothing_held ≡ Const }
    ensures greatest { joined_over both_relevant two_is_guarded (2 ∷ 3 ∷ []) this_held ≡ Atomic }
    ensures at_held_paths { joined_over both_relevant two_is_guarded (2 ∷ []) this_held ≡ Mover }
    ensures at_relevant_paths { joined_over of_twice two_is_guarded (2 ∷ []) this_held ≡ Error }
    ensures no_method { body_effect twice_program of_twice two_is_guarded None nothing_held ≡ Const }
    ensures body { certified_up twice_program of_twice [] 0 nothing_held ≡ Atomic }
    ensures body_under_the_lock { certified_up twice_program of_twice [] 0 this_held ≡ Mover }
    ensures nothing_said { certified_up twice_program of_twice [] 1 nothing_held ≡ Const }
    ensures two_atomic_calls { certified_up twice_program of_twice (inc_atomic ∷ []) 1 nothing_held ≡ Cmpd }
    ensures not_said_there { certified_up twice_program of_twice (inc_atomic ∷ []) 1 this_held ≡ Const }
    ensures two_movers { certified_up twice_program of_twice (inc_mover ∷ []) 1 this_held ≡ Mover }
    ensures two_movers_elsewhere { certified_up twice_program of_twice (inc_mover ∷ []) 1 nothing_held ≡ Mover }
    ensures overridden { certified_up family both_relevant (certificate_line 2 Atomic [] ∷ []) 0 nothing_held ≡ Atomic }
    ensures not_overridden { certified_up family both_relevant (certificate_line 2 Atomic [] ∷ []) 1 nothing_held ≡ Const }
{}

/// A line has its place at relevant paths that have the required ones; it follows where it says no more than a call comes to; and it breaks a bound where
/// it says more than its method may be.
pub fn which_lines_follow()
    ensures no_method { are_placed None (this_path ∷ []) [] ≡ false }
    ensures relevant { are_placed (Some (plain_method 0 0 false EmptyS)) (this_path ∷ []) (this_path ∷ []) ≡ true }
    ensures not_relevant { are_placed (Some (plain_method 0 0 false EmptyS)) (this_path ∷ []) (one_path ∷ []) ≡ false }
    ensures required { is_placed with_required both_relevant (certificate_line 0 Mover (this_path ∷ [])) ≡ true }
    ensures not_required { is_placed with_required both_relevant (certificate_line 0 Mover (one_path ∷ [])) ≡ false }
    ensures past_the_last { is_placed with_required both_relevant (certificate_line 1 Mover []) ≡ false }
    ensures follows { is_justified twice_program of_twice (inc_atomic ∷ []) twice_compound ≡ true }
    ensures says_less { is_justified twice_program of_twice (inc_atomic ∷ []) (certificate_line 1 Mover []) ≡ true }
    ensures too_early { is_justified twice_program of_twice [] twice_compound ≡ false }
    ensures from_the_lock { is_justified twice_program of_twice (inc_mover ∷ []) twice_compound ≡ false }
    ensures bounds { map bound_of (None ∷ Some (plain_method 0 0 false EmptyS) ∷ Some (plain_method 0 0 true EmptyS) ∷ []) ≡ Error ∷ Cmpd ∷ Atomic ∷ [] }
    ensures keeps { map (keeps_bound twice_program 1) (Atomic ∷ Cmpd ∷ []) ≡ true ∷ false ∷ [] }
    ensures keeps_the_other { map (keeps_bound twice_program 2) (Cmpd ∷ Error ∷ []) ≡ true ∷ false ∷ [] }
    ensures breaks { map (breaks twice_program) (None ∷ Some inc_atomic ∷ Some twice_compound ∷ []) ≡ false ∷ false ∷ true ∷ [] }
{}

/// The parts of a list ascend by the number whose bit i stands for the i-th path; a pass goes over them, method by method, and ends at a broken bound.
pub fn what_passes_write()
    ensures of_none { subsets_of [] ≡ [] ∷ [] }
    ensures of_two { subsets_of (this_path ∷ one_path ∷ []) ≡ [] ∷ (this_path ∷ []) ∷ (one_path ∷ []) ∷ (this_path ∷ one_path ∷ []) ∷ [] }
    ensures required { cells_in 3 (one_path ∷ []) (subsets_of (this_path ∷ one_path ∷ [])) ≡ cell 3 (one_path ∷ []) ∷ cell 3 (this_path ∷ one_path ∷ []) ∷ [] }
    ensures cells { cells_of twice_program of_twice ≡ cell 0 [] ∷ cell 0 (this_path ∷ []) ∷ cell 1 [] ∷ cell 1 (this_path ∷ []) ∷ cell 2 [] ∷ [] }
    ensures cells_with_required { cells_of with_required both_relevant ≡ cell 0 (this_path ∷ []) ∷ cell 0 (this_path ∷ one_path ∷ []) ∷ [] }
    ensures no_cells { pass twice_program of_twice [] (inc_atomic ∷ []) ≡ record { all = inc_atomic ∷ []; broken = false } }
    ensures said { pass twice_program of_twice (cell 0 [] ∷ []) (inc_atomic ∷ []) ≡ record { all = inc_atomic ∷ []; broken = false } }
    ensures first { pass twice_program of_twice (cells_of twice_program of_twice) [] ≡ record { all = inc_atomic ∷ inc_mover ∷ twice_compound ∷ []; broken = true } }
    ensures written { Passes twice_program of_twice [] (record { all = inc_atomic ∷ inc_mover ∷ twice_compound ∷ []; broken = true }) }
    ensures nothing_broken { Passes counter of_counter [] (record { all = inc_atomic ∷ inc_mover ∷ certificate_line 1 Atomic [] ∷ certificate_line 1 Mover (path 0 (1 ∷ []) ∷ []) ∷ certificate_line 2 Cmpd [] ∷ []; broken = false }) }
{}

/// A certificate, and lists of lines that are none, each with its first cause.
pub fn what_certificates_are()
    ensures certificate { IsCertificate twice_program of_twice (inc_atomic ∷ inc_mover ∷ twice_compound ∷ []) }
    ensures place { IsWrongCertificate twice_program of_twice (inc_atomic ∷ certificate_line 0 Mover (one_path ∷ []) ∷ []) (wrong.Place 2) }
    ensures place_before_step { IsWrongCertificate twice_program of_twice (twice_compound ∷ certificate_line 3 Const [] ∷ []) (wrong.Place 2) }
    ensures step { IsWrongCertificate twice_program of_twice (twice_compound ∷ []) (wrong.Step 1) }
    ensures step_from_the_lock { IsWrongCertificate twice_program of_twice (inc_mover ∷ twice_compound ∷ []) (wrong.Step 2) }
    ensures no_bound { IsWrongCertificate twice_program of_twice (inc_atomic ∷ []) wrong.NoBound }
    ensures nothing { IsWrongCertificate twice_program of_twice [] wrong.NoBound }
{}
