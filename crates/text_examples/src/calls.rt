//! Lines of `replay`, and the parts of a call of the program.
ghost use Rattle.std.specs.Prelude.{◌≡◌, pos, negsuc, [], ◌∷◌, map, Some, None, codes};
ghost use Rattle.state.specs.declared.value.Value.TheVariants.{Int};
ghost use Rattle.edge.specs.Faults.{next_count};
ghost use Rattle.schedule_commands.specs.Lines.{result_text, prints_text, call_line, calls_text, too_deep_call_line};
ghost use Rattle.edge.specs.Lines.{joined_texts, cannot_read_line, too_large_line};
ghost use Rattle.text_examples.specs.Names.{names, one_call, third};

/// What is told of each call that is evaluated by itself.
pub fn how_calls_are_told()
    ensures results { map result_text (None ∷ Some (Int (pos 4)) ∷ []) ≡ codes "void" ∷ codes "4" ∷ [] }
    ensures prints { prints_text (negsuc 4) ≡ codes " prints -5" }
    ensures line { call_line names (record { entry = 8; thread = 9; method = 0; on = third; result = Some (Int (pos 4)); prints = pos 1 ∷ pos 2 ∷ [] })
        ≡ codes "call 8 thread 9 Main.put on 1:2 gives 4 prints 1 prints 2\n" }
    ensures lines { calls_text names (record { entry = 0; thread = 1; method = 1; on = third; result = None; prints = [] } ∷ record { entry = 2; thread = 3; method = 1; on = third; result = None; prints = [] } ∷ [])
        ≡ codes "call 0 thread 1 Main.main on 1:2 gives void\ncall 2 thread 3 Main.main on 1:2 gives void\n" }
    ensures too_deep { too_deep_call_line 6 ≡ codes "entry 6: call is too deep\n" }
{}

/// A count of faults goes one up, and stands still at the last number of 64 bits.
pub fn how_faults_are_counted()
    ensures next { map next_count (0 ∷ 1 ∷ 18446744073709551614 ∷ 18446744073709551615 ∷ []) ≡ 1 ∷ 2 ∷ 18446744073709551615 ∷ 18446744073709551615 ∷ [] }
{}

/// Each part of a call is where it is looked for.
pub fn which_parts_a_call_has()
    ensures words { one_call.words ≡ codes "check" ∷ [] }
    ensures told { one_call.told (7 ∷ []) ≡ Some (7 ∷ []) }
    ensures files { one_call.files_before (7 ∷ []) ∷ one_call.files_after (7 ∷ []) ∷ [] ≡ 1 ∷ 2 ∷ [] }
    ensures sink { one_call.sink_before ∷ one_call.sink_after ∷ [] ≡ 3 ∷ 4 ∷ [] }
    ensures written { one_call.written_before ∷ one_call.written_after ∷ [] ≡ None ∷ Some (5 ∷ []) ∷ [] }
    ensures status { one_call.status ≡ 6 }
{}

/// Lines for files.
pub fn how_files_are_refused()
    ensures joined { joined_texts (codes "a" ∷ codes "bc" ∷ []) ≡ codes "abc" }
    ensures cannot_read { cannot_read_line (codes "a.java") ≡ codes "cannot read a.java\n" }
    ensures too_large { too_large_line (codes "a.java") ≡ codes "a.java is too large\n" }
{}
