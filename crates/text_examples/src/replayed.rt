//! Which call a thread's next step begins, and what is left of it on the operands.
ghost use Rattle.std.specs.Prelude.{◌≡◌, pos, true, false, [], ◌∷◌, map, Some, None};
ghost use Rattle.state.specs.declared.value.Value.TheVariants.{Int, Ref};
ghost use Rattle.state.specs.States.{Ready, Running, Done};
ghost use Rattle.state.specs.Work.{Call, Ret};
ghost use Rattle.replay.specs.Calls.{asked_target, asked_on, asked_call, asked_act, asked_next, asked_by, result_in, depth};
ghost use Rattle.core_examples.specs.Seen.{here, four_fields, two_parameters, seven, frame_with};
ghost use Rattle.text_examples.specs.Plain.{quiet, asked_of_object, two_operands, calling_next};

/// A call is of the method that runs for the receiver's class, with the arguments in order, the last of which stands on top.
pub fn which_calls_begin()
    ensures no_target { asked_target here (seven ∷ []) None ≡ None }
    ensures target { asked_target here (seven ∷ []) (Some 3) ≡ asked_of_object 3 (seven ∷ []) }
    ensures no_receiver { asked_on four_fields quiet 0 [] None ≡ None }
    ensures receiver { asked_on four_fields quiet 0 (seven ∷ []) (Some here) ≡ asked_of_object 0 (seven ∷ []) }
    ensures no_method { asked_call four_fields quiet 9 two_operands None ≡ None }
    ensures arguments { asked_call four_fields quiet 0 two_operands (Some two_parameters) ≡ asked_of_object 0 (Int (pos 1) ∷ Int (pos 2) ∷ []) }
    ensures other_action { asked_act four_fields quiet two_operands Ret ≡ None }
    ensures action { asked_act four_fields quiet two_operands (Call 0) ≡ asked_of_object 0 (Int (pos 1) ∷ Int (pos 2) ∷ []) }
    ensures no_action { asked_next four_fields quiet two_operands None ≡ None }
    ensures next { asked_next four_fields quiet two_operands (Some (Call 0, [])) ≡ asked_of_object 0 (Int (pos 1) ∷ Int (pos 2) ∷ []) }
{}

/// A thread that is ready begins its first method; one that runs what its innermost frame comes to next.
pub fn which_calls_threads_begin()
    ensures ready { asked_by four_fields quiet (Some (Ready here 1)) ≡ asked_of_object 1 [] }
    ensures running { asked_by four_fields quiet (Some (Running (calling_next ∷ frame_with [] ∷ []))) ≡ asked_of_object 0 (Int (pos 1) ∷ Int (pos 2) ∷ []) }
    ensures others { map (asked_by four_fields quiet) (None ∷ Some Done ∷ Some (Running []) ∷ []) ≡ None ∷ None ∷ None ∷ [] }
    ensures result { result_in true (Some (Running (frame_with (seven ∷ Ref here ∷ []) ∷ []))) ≡ Some seven }
    ensures no_result { result_in false (Some (Running (frame_with (seven ∷ []) ∷ []))) ≡ None }
    ensures result_of_others { map (result_in true) (None ∷ Some Done ∷ []) ≡ None ∷ None ∷ [] }
    ensures depths { map depth (None ∷ Some Done ∷ Some (Running (calling_next ∷ calling_next ∷ [])) ∷ []) ≡ 0 ∷ 0 ∷ 2 ∷ [] }
{}
