//! Plain evaluation: what each expression and each statement gives in a plain state.
ghost use Rattle.std.specs.Prelude.{◌≡◌, pos, negsuc, true, false, [], ◌∷◌, map, Some, None};
ghost use Rattle.core_program.specs.declared.types.CoreOp.TheVariants.{Sub};
ghost use Rattle.core_program.specs.declared.types.CoreType.TheVariants as type;
ghost use Rattle.core_program.specs.Core.{EmptyS, NullE, ThisE, VarE, NotE, NegE, BinaryE, AndE, OrE, GetE, CallE, NewE, no_exprs, and_expr};
ghost use Rattle.core_program.specs.Core.{BlockS, LocalS, SetVarS, SetFieldS, DoS, IfS, WhileS, SyncS, ReturnS, PrintS, StartS, no_stmts, and_stmt};
ghost use Rattle.core_program.specs.Examples.{plain_method};
ghost use Rattle.state.specs.declared.value.Value.TheVariants.{Int, Truth, Null, Ref};
ghost use Rattle.state.specs.declared.value.Fault.TheVariants as fault;
ghost use Rattle.state.specs.States.{Ready, Running, Done, Faulted};
ghost use Rattle.semantics.specs.Step.{FieldIs, LockIs, Prints, Starts, changed};
ghost use Rattle.replay.specs.Plain.{plain_thread, plain_of};
ghost use Rattle.replay.specs.Answers.{Gives, Fails, Blocked, Short, Deep, GoesOn, Returns, ended_value, completed_normally, next_after};
ghost use Rattle.replay.specs.Evaluation.{most_number, most_depth, unless_full, field_written, write_field, start_thread, start_on, take_lock, give_lock, locked, synchronized, body_unless_deep, lower_of, call_result, asked_body};
ghost use Rattle.core_examples.specs.Seen.{here, there, four_fields, seven};
ghost use Rattle.core_examples.specs.Insides.{called_frame, with_threads};
ghost use Rattle.core_examples.specs.Fields.{path};
ghost use Rattle.core_examples.specs.Small.{one, two};
ghost use Rattle.text_examples.specs.Plain.{quiet, negated, own_slots, gives_depth, gives_slot, goes_with, goes_or_depth, hold_of, evaluated, statement_answer, ends_so, on, returned_end, missing, zero_divisor, yes, no, call_with_two, return_of};

/// A plain state has of each thread its status alone.
pub fn what_plain_states_are()
    ensures threads { map plain_thread (Ready here 3 ∷ Running (called_frame ∷ []) ∷ Done ∷ Faulted fault.Zero (called_frame ∷ []) ∷ []) ≡ Ready here 3 ∷ Running [] ∷ Done ∷ Faulted fault.Zero [] ∷ [] }
    ensures state { (plain_of (record (with_threads (Running (called_frame ∷ []) ∷ [])) { output = pos 3 ∷ [] })).threads ≡ Running [] ∷ [] }
    ensures output { (plain_of (record (with_threads []) { output = pos 3 ∷ [] })).output ≡ pos 3 ∷ [] }
{}

/// What comes after an answer, and what a body ends with.
pub fn what_comes_after()
    ensures given { negated (Gives (Int (pos 3)) quiet) ≡ Gives (Int (negsuc 2)) quiet }
    ensures failed { negated (Fails fault.Zero) ≡ Fails fault.Zero }
    ensures blocked { negated (Blocked there 1) ≡ Blocked there 1 }
    ensures short { negated Short ≡ Short }
    ensures deep { negated Deep ≡ Deep }
    ensures ends { map ended_value (GoesOn ∷ Returns None ∷ Returns (Some seven) ∷ []) ≡ Null ∷ Null ∷ seven ∷ [] }
    ensures goes_on { next_after GoesOn own_slots quiet (λ slots q. completed_normally [] q) ≡ ends_so (on []) }
    ensures returned { next_after (Returns (Some seven)) own_slots quiet (λ slots q. completed_normally [] q) ≡ ends_so (returned_end (Some seven)) }
    ensures results { map (λ e. call_result (Some type.Int) e) (GoesOn ∷ Returns (Some seven) ∷ []) ≡ Some Null ∷ Some seven ∷ [] }
    ensures no_result { call_result None (Returns (Some seven)) ≡ None }
    ensures limits { most_number ∷ most_depth ∷ [] ≡ 4294967295 ∷ 100 ∷ [] }
    ensures full { map (λ b. unless_full b (Gives seven quiet)) (true ∷ false ∷ []) ≡ Short ∷ Gives seven quiet ∷ [] }
{}

/// What expressions give.
pub fn what_expressions_give()
    ensures literals { map (evaluated None) (one ∷ yes ∷ NullE ∷ []) ≡ Gives (Int (pos 1)) quiet ∷ Gives (Truth true) quiet ∷ Gives Null quiet ∷ [] }
    ensures slots { map (evaluated None) (ThisE ∷ VarE 2 false type.Boolean ∷ missing ∷ []) ≡ Gives (Ref here) quiet ∷ Gives (Truth true) quiet ∷ Fails fault.Null ∷ [] }
    ensures one_value { map (evaluated None) (NotE yes ∷ NegE one ∷ []) ≡ Gives (Truth false) quiet ∷ Gives (Int (negsuc 0)) quiet ∷ [] }
    ensures two_values { map (evaluated None) (BinaryE Sub two one ∷ zero_divisor ∷ BinaryE Sub missing zero_divisor ∷ BinaryE Sub zero_divisor missing ∷ []) ≡ Gives (Int (pos 1)) quiet ∷ Fails fault.Zero ∷ Fails fault.Null ∷ Fails fault.Zero ∷ [] }
    ensures both { map (evaluated None) (AndE yes no ∷ AndE yes missing ∷ AndE no missing ∷ []) ≡ Gives (Truth false) quiet ∷ Fails fault.Null ∷ Gives (Truth false) quiet ∷ [] }
    ensures either { map (evaluated None) (OrE no yes ∷ OrE no missing ∷ OrE yes missing ∷ []) ≡ Gives (Truth true) quiet ∷ Fails fault.Null ∷ Gives (Truth true) quiet ∷ [] }
    ensures field_of_nothing { evaluated None (GetE NullE 1) ≡ Fails fault.Null }
    ensures field { evaluated None (GetE ThisE 2) ≡ Gives (Int (pos 3)) quiet }
    ensures no_class { evaluated None (NewE 9 (and_expr one no_exprs)) ≡ Fails fault.Null }
    ensures arguments_first { evaluated None (NewE 9 (and_expr zero_divisor (and_expr missing no_exprs))) ≡ Fails fault.Zero }
    ensures started { start_thread here (Some 3) quiet ≡ Gives tt (changed (Starts here 3) quiet) }
    ensures nothing_started { start_thread here None quiet ≡ Fails fault.Null }
{}

/// Single effects: a lock is taken once more by who holds it, and given back by nobody else; counts are limited.
pub fn what_single_effects_do()
    ensures free_lock { take_lock 5 here None quiet ≡ Gives tt (changed (LockIs here (Some (hold_of 1))) quiet) }
    ensures own_lock { take_lock 5 here (Some (hold_of 3)) quiet ≡ Gives tt (changed (LockIs here (Some (hold_of 4))) quiet) }
    ensures lock_of_another { take_lock 6 here (Some (hold_of 3)) quiet ≡ Blocked here 5 }
    ensures last_count { take_lock 5 here (Some (hold_of 4294967294)) quiet ≡ Gives tt (changed (LockIs here (Some (hold_of 4294967295))) quiet) }
    ensures no_more_counts { take_lock 5 here (Some (hold_of 4294967295)) quiet ≡ Short }
    ensures given_back { give_lock 5 here (Some (hold_of 3)) quiet ≡ Gives tt (changed (LockIs here (Some (hold_of 2))) quiet) }
    ensures freed { give_lock 5 here (Some (hold_of 1)) quiet ≡ Gives tt (changed (LockIs here None) quiet) }
    ensures not_held { give_lock 5 here None quiet ≡ Fails fault.Null }
    ensures held_by_another { give_lock 6 here (Some (hold_of 3)) quiet ≡ Fails fault.Null }
    ensures no_old_value { field_written here 2 seven None quiet ≡ Fails fault.Null }
    ensures new_value { field_written here 2 seven (Some Null) quiet ≡ Gives tt (changed (FieldIs here 2 seven) quiet) }
    ensures field_of_nothing { write_field four_fields 1 None seven quiet ≡ Fails fault.Null }
    ensures body_fails { locked 5 here (Fails fault.Zero) ≡ Fails fault.Zero }
    ensures nothing_locked { synchronized 5 None quiet (λ q. Short) ≡ Fails fault.Null }
    ensures nothing_to_start { start_on four_fields None quiet ≡ Fails fault.Null }
{}

/// What calls give: a call of a method that isn't there, or on what is no object, faults; a body takes a turn, and stands one call deeper.
pub fn what_calls_give()
    ensures no_method { evaluated (Some gives_depth) (call_with_two ThisE 9) ≡ Fails fault.Null }
    ensures no_method_of_the_class { evaluated (Some gives_depth) (call_with_two ThisE 1) ≡ Fails fault.Null }
    ensures no_receiver { evaluated (Some gives_depth) (call_with_two NullE 0) ≡ Fails fault.Null }
    ensures receiver_first { evaluated (Some gives_depth) (CallE missing 0 (and_expr zero_divisor no_exprs)) ≡ Fails fault.Null }
    ensures arguments_first { evaluated (Some gives_depth) (CallE NullE 0 (and_expr zero_divisor no_exprs)) ≡ Fails fault.Zero }
    ensures no_turns { evaluated None (call_with_two ThisE 0) ≡ Short }
    ensures deeper { evaluated (Some gives_depth) (call_with_two ThisE 0) ≡ Gives (Int (pos 8)) quiet }
    ensures receiver { evaluated (Some (gives_slot 0)) (call_with_two ThisE 0) ≡ Gives (Ref here) quiet }
    ensures second_argument { evaluated (Some (gives_slot 2)) (call_with_two ThisE 0) ≡ Gives (Int (pos 2)) quiet }
    ensures deepest { body_unless_deep four_fields 5 None 99 gives_depth true EmptyS own_slots quiet ≡ Gives (Int (pos 100)) quiet }
    ensures too_deep { body_unless_deep four_fields 5 None 100 gives_depth false EmptyS own_slots quiet ≡ Deep }
    ensures asked { asked_body four_fields 5 (Some (record (plain_method 0 0 false (return_of (VarE 1 true type.Int))) { result = Some type.Int; slots = 2 })) here (seven ∷ []) quiet 1 ≡ Gives (Some seven) quiet }
    ensures asked_without_turns { asked_body four_fields 5 (Some (plain_method 0 0 false EmptyS)) here [] quiet 0 ≡ Short }
    ensures asked_of_no_method { asked_body four_fields 5 None here [] quiet 1 ≡ Fails fault.Null }
{}

/// How statements end.
pub fn how_statements_end()
    ensures empty { statement_answer None EmptyS ≡ ends_so (on own_slots) }
    ensures block { statement_answer None (BlockS (and_stmt (return_of one) (and_stmt (return_of zero_divisor) no_stmts))) ≡ ends_so (returned_end (Some (Int (pos 1)))) }
    ensures block_goes_on { statement_answer None (BlockS (and_stmt (SetVarS 1 two) (and_stmt (return_of (VarE 1 false type.Int)) no_stmts))) ≡
        ends_so (record { end = Returns (Some (Int (pos 2))); slots = Ref here ∷ Int (pos 2) ∷ Truth true ∷ Ref there ∷ [] }) }
    ensures local { statement_answer None (LocalS 1 true type.Int two) ≡ ends_so (on (Ref here ∷ Int (pos 2) ∷ Truth true ∷ Ref there ∷ [])) }
    ensures assigned { statement_answer None (SetVarS 1 two) ≡ ends_so (on (Ref here ∷ Int (pos 2) ∷ Truth true ∷ Ref there ∷ [])) }
    ensures no_slot { map (statement_answer None) (LocalS 9 true type.Int two ∷ SetVarS 9 two ∷ []) ≡ Fails fault.Null ∷ Fails fault.Null ∷ [] }
    ensures object_first { statement_answer None (SetFieldS zero_divisor 1 missing) ≡ Fails fault.Zero }
    ensures value_before_the_object_is_used { statement_answer None (SetFieldS NullE 1 zero_divisor) ≡ Fails fault.Zero }
    ensures no_object { statement_answer None (SetFieldS NullE 1 one) ≡ Fails fault.Null }
    ensures value_dropped { statement_answer None (DoS one true) ≡ ends_so (on own_slots) }
    ensures branches { map (λ c. statement_answer None (IfS c (return_of one) (return_of two))) (yes ∷ no ∷ missing ∷ []) ≡ ends_so (returned_end (Some (Int (pos 1)))) ∷ ends_so (returned_end (Some (Int (pos 2)))) ∷ Fails fault.Null ∷ [] }
    ensures no_loop { statement_answer None (WhileS no EmptyS) ≡ ends_so (on own_slots) }
    ensures loop_without_turns { statement_answer None (WhileS yes EmptyS) ≡ Short }
    ensures loop_again { statement_answer (Some (goes_with [])) (WhileS yes EmptyS) ≡ ends_so (on []) }
    ensures loop_returned { statement_answer (Some gives_depth) (WhileS yes EmptyS) ≡ ends_so (returned_end (Some (Int (pos 7)))) }
    ensures loop_at_its_depth { statement_answer (Some goes_or_depth) (WhileS yes EmptyS) ≡ ends_so (returned_end (Some (Int (pos 7)))) }
    ensures loop_of_one_turn { statement_answer (lower_of four_fields 5 2) (WhileS (VarE 2 false type.Boolean) (SetVarS 2 no)) ≡ ends_so (on (Ref here ∷ Int (pos 1) ∷ Truth false ∷ Ref there ∷ [])) }
    ensures thread_of_turns { statement_answer (lower_of four_fields 5 2) (WhileS yes (SyncS (path 3 []) EmptyS)) ≡ Blocked there 1 }
    ensures lock_of_no_slot { statement_answer None (SyncS (path 9 []) EmptyS) ≡ Fails fault.Null }
    ensures lock_of_no_object { statement_answer None (SyncS (path 1 []) EmptyS) ≡ Fails fault.Null }
    ensures lock_through_no_object { statement_answer None (SyncS (path 1 (0 ∷ [])) EmptyS) ≡ Fails fault.Null }
    ensures held_lock { statement_answer None (SyncS (path 3 []) EmptyS) ≡ Blocked there 1 }
    ensures returned { map (statement_answer None) (ReturnS None ∷ return_of two ∷ []) ≡ ends_so (returned_end None) ∷ ends_so (returned_end (Some (Int (pos 2)))) ∷ [] }
    ensures printed { statement_answer None (PrintS two) ≡ Gives (on own_slots) (changed (Prints (pos 2)) quiet) }
    ensures started_on_nothing { statement_answer None (StartS NullE) ≡ Fails fault.Null }
    ensures started { statement_answer None (StartS ThisE) ≡ Gives (on own_slots) (changed (Starts here 0) quiet) }
{}
