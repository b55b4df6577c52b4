//! What calls, returns, new objects and new threads come to.
ghost use Rattle.std.specs.Prelude.{◌≡◌, pos, [], ◌∷◌, None, replicate};
ghost use Rattle.core_program.specs.Core.{EmptyS};
ghost use Rattle.state.specs.declared.value.Fault.TheVariants as fault;
ghost use Rattle.state.specs.declared.value.StepKind.TheVariants.{Both, Other};
ghost use Rattle.state.specs.declared.value.Value.TheVariants.{Int, Null, Ref};
ghost use Rattle.state.specs.States.{Running, Done, Faulted};
ghost use Rattle.state.specs.Work.{St, Act, Call, New, Ret, Start};
ghost use Rattle.semantics.specs.Step.{Moves, Nothing, ObjectIs, Starts, act};
ghost use Rattle.core_examples.specs.Judged.{meetings, put_one};
ghost use Rattle.core_examples.specs.Seen.{four_fields, seven, minus_two, here, sees, does, goes_by, faults_with, frame_with, rest};

/// A call hands its arguments on in order, and the receiver object's class chooses the method that runs.
pub fn what_calls_do()
    ensures own { does (sees 0 None) (minus_two ∷ seven ∷ Ref here ∷ Int (pos 3) ∷ []) (Call 0) ≡ Moves (record {
      kind = Both;
      thread = Running (record { method = 0; slots = Ref here ∷ seven ∷ minus_two ∷ []; operands = []; work = St EmptyS ∷ Act Ret ∷ [] }
          ∷ record (frame_with (Int (pos 3) ∷ [])) { work = rest } ∷ []);
      change = Nothing;
    }) }
    ensures overriding { does (sees 1 None) (minus_two ∷ seven ∷ Ref here ∷ []) (Call 0) ≡ Moves (record {
      kind = Both;
      thread = Running (record { method = 1; slots = Ref here ∷ seven ∷ minus_two ∷ []; operands = []; work = St EmptyS ∷ Act Ret ∷ [] }
          ∷ record (frame_with []) { work = rest } ∷ []);
      change = Nothing;
    }) }
    ensures own_below { does (sees 1 None) (minus_two ∷ seven ∷ Ref here ∷ []) (Call 1) ≡ Moves (record {
      kind = Both;
      thread = Running (record { method = 1; slots = Ref here ∷ seven ∷ minus_two ∷ []; operands = []; work = St EmptyS ∷ Act Ret ∷ [] }
          ∷ record (frame_with []) { work = rest } ∷ []);
      change = Nothing;
    }) }
    ensures no_arguments { act meetings (sees 0 None) 0 (frame_with (Ref here ∷ seven ∷ [])) [] rest (Call 2) ≡ Moves (record {
      kind = Both;
      thread = Running (record { method = 2; slots = Ref here ∷ []; operands = []; work = St put_one ∷ Act Ret ∷ [] }
          ∷ record (frame_with (seven ∷ [])) { work = rest } ∷ []);
      change = Nothing;
    }) }
    ensures on_null { does (sees 0 None) (minus_two ∷ seven ∷ Null ∷ []) (Call 0) ≡ faults_with fault.Null (minus_two ∷ seven ∷ Null ∷ []) }
{}

/// With 1,000 frames a call faults for its depth, but for one on null, which is told before; with 999 it is entered.
pub fn what_depth_does()
    ensures depth { act four_fields (sees 0 None) 0 (frame_with (minus_two ∷ seven ∷ Ref here ∷ [])) (replicate 999 (frame_with [])) rest (Call 0) ≡
        Moves (record { kind = Both; thread = Faulted fault.Depth (frame_with (minus_two ∷ seven ∷ Ref here ∷ []) ∷ replicate 999 (frame_with [])); change = Nothing }) }
    ensures null_first { act four_fields (sees 0 None) 0 (frame_with (minus_two ∷ seven ∷ Null ∷ [])) (replicate 999 (frame_with [])) rest (Call 0) ≡
        Moves (record { kind = Both; thread = Faulted fault.Null (frame_with (minus_two ∷ seven ∷ Null ∷ []) ∷ replicate 999 (frame_with [])); change = Nothing }) }
    ensures one_less { act four_fields (sees 0 None) 0 (frame_with (minus_two ∷ seven ∷ Ref here ∷ [])) (replicate 998 (frame_with [])) rest (Call 0) ≡ Moves (record {
      kind = Both;
      thread = Running (record { method = 0; slots = Ref here ∷ seven ∷ minus_two ∷ []; operands = []; work = St EmptyS ∷ Act Ret ∷ [] }
          ∷ record (frame_with []) { work = rest } ∷ replicate 998 (frame_with []));
      change = Nothing;
    }) }
{}

/// A return hands its result to the frame below; the last frame's is its thread's end.
pub fn what_returns_do()
    ensures below { act four_fields (sees 0 None) 0 (frame_with (seven ∷ [])) (frame_with (minus_two ∷ []) ∷ []) rest Ret ≡
        Moves (record { kind = Both; thread = Running (frame_with (seven ∷ minus_two ∷ []) ∷ []); change = Nothing }) }
    ensures last { does (sees 0 None) (seven ∷ []) Ret ≡ Moves (record { kind = Both; thread = Done; change = Nothing }) }
{}

/// A new object has the thread's next address, the arguments in its final fields and 0 in its other ones; a thread that is started has
/// the `run` of the object's class, and the start is neither a right nor a left mover.
pub fn what_new_things_are()
    ensures object { does (sees 0 None) (seven ∷ minus_two ∷ []) (New 0) ≡ goes_by Both (Ref (record { thread = 0; count = 5 }) ∷ minus_two ∷ []) rest
        (ObjectIs (record { thread = 0; count = 5 }) (record { class = 0; values = seven ∷ Int (pos 0) ∷ Int (pos 0) ∷ Int (pos 0) ∷ [] })) }
    ensures thread { does (sees 0 None) (Ref here ∷ seven ∷ []) Start ≡ goes_by Other (seven ∷ []) rest (Starts here 0) }
    ensures no_run { does (sees 1 None) (Ref here ∷ []) Start ≡ faults_with fault.Null (Ref here ∷ []) }
    ensures of_null { does (sees 0 None) (Null ∷ []) Start ≡ faults_with fault.Null (Null ∷ []) }
{}
