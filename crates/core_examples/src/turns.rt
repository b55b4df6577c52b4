//! What a thread's turn comes to by its status, what changes with a step, and steps that no typed program makes.
ghost use Rattle.std.specs.Prelude.{◌≡◌, pos, true, false, [], ◌∷◌, Some, None, slice_get};
ghost use Rattle.std.specs.FinMap as map;
ghost use Rattle.core_program.specs.Core.{EmptyS};
ghost use Rattle.state.specs.declared.value.Fault.TheVariants as fault;
ghost use Rattle.state.specs.declared.value.StepKind.TheVariants.{Both, Other, Bare};
ghost use Rattle.state.specs.declared.value.Value.TheVariants.{Int, Null, Ref};
ghost use Rattle.state.specs.States.{Ready, Running, Done, Faulted};
ghost use Rattle.state.specs.Work.{St, Act, Push, Store, Get, Put, New, Call, Ret, Start};
ghost use Rattle.semantics.specs.Step.{Moves, Absent, IsDone, HadFaulted, Nothing, FieldIs, ObjectIs, LockIs, Prints, Starts, act, turn, seen_by, outcome, changed, moved, step, kind_of, access_kind};
ghost use Rattle.core_examples.specs.Fields.{nodes};
ghost use Rattle.core_examples.specs.Seen.{four_fields, two_pairs, object_of, here, there, seven, sees, held_so_often, does, faults_with, frame_with, rest};
ghost use Rattle.core_examples.specs.Small.{second_object, small, sees_two, sees_nothing};

/// A ready thread enters its method, a running one does its next action, and any other one has no step.
pub fn what_a_turn_is()
    ensures absent { turn four_fields (sees 0 None) 0 None ≡ Absent }
    ensures done { turn four_fields (sees 0 None) 0 (Some Done) ≡ IsDone }
    ensures faulted { turn four_fields (sees 0 None) 0 (Some (Faulted fault.Depth [])) ≡ HadFaulted fault.Depth }
    ensures ready { turn four_fields (sees 0 None) 0 (Some (Ready here 1)) ≡ Moves (record {
      kind = Both;
      thread = Running (record { method = 1; slots = Ref here ∷ Int (pos 0) ∷ Int (pos 0) ∷ []; operands = []; work = St EmptyS ∷ Act Ret ∷ [] } ∷ []);
      change = Nothing;
    }) }
    ensures ready_for_no_method { turn four_fields (sees 0 None) 0 (Some (Ready here 2)) ≡ Moves (record { kind = Both; thread = Faulted fault.Null []; change = Nothing }) }
    ensures running { turn four_fields (sees 0 None) 0 (Some (Running (record (frame_with []) { work = Act (Push seven) ∷ rest } ∷ frame_with [] ∷ []))) ≡
        Moves (record { kind = Both; thread = Running (record (frame_with (seven ∷ [])) { work = rest } ∷ frame_with [] ∷ []); change = Nothing }) }
    ensures nothing_left { turn four_fields (sees 0 None) 0 (Some (Running (frame_with [] ∷ []))) ≡ Moves (record { kind = Both; thread = Faulted fault.Null (frame_with [] ∷ []); change = Nothing }) }
    ensures no_frame { turn four_fields (sees 0 None) 0 (Some (Running [])) ≡ Moves (record { kind = Both; thread = Faulted fault.Null []; change = Nothing }) }
{}

/// Each change is made to the state, and nothing besides.
pub fn what_changes()
    ensures nothing { changed Nothing small ≡ small }
    ensures field { changed (FieldIs second_object 1 seven) small ≡ record small {
      heap = map.from_sorted ((here, object_of 0) ∷ (second_object, record { class = 0; values = Int (pos 1) ∷ seven ∷ Int (pos 3) ∷ Int (pos 4) ∷ [] }) ∷ (there, object_of 1) ∷ []);
    } }
    ensures object { changed (ObjectIs (record { thread = 1; count = 1 }) (object_of 0)) small ≡ record small {
      heap = map.from_sorted ((here, object_of 0) ∷ (second_object, object_of 0) ∷ (there, object_of 1) ∷ (record { thread = 1; count = 1 }, object_of 0) ∷ []);
    } }
    ensures lock { changed (LockIs here (held_so_often 2 1)) small ≡ record small {
      locks = map.from_sorted ((here, record { holder = 2; count = 1 }) ∷ (there, record { holder = 1; count = 2 }) ∷ []);
    } }
    ensures free { changed (LockIs there None) small ≡ record small { locks = map.from_sorted [] } }
    ensures printed { changed (Prints (pos 7)) small ≡ record small { output = pos 1 ∷ pos 7 ∷ [] } }
    ensures started { changed (Starts second_object 1) small ≡ record small { threads = Done ∷ Ready here 0 ∷ Done ∷ Ready second_object 1 ∷ [] } }
    ensures own_thread { moved 1 (record { kind = Both; thread = Done; change = Prints (pos 7) }) small ≡ record small { threads = Done ∷ Done ∷ Done ∷ []; output = pos 1 ∷ pos 7 ∷ [] } }
{}

/// A step has a kind and a state after it; a turn without a step has neither.
pub fn what_steps_are()
    ensures kind { kind_of four_fields small 1 ≡ Some Both }
    ensures no_kind { kind_of four_fields small 0 ≡ None }
    ensures no_step { step four_fields small 2 ≡ None }
    ensures past_the_end { outcome four_fields small 3 ≡ Absent }
    ensures state { step four_fields small 1 ≡ Some (record small {
      threads = Done ∷ Running (record { method = 0; slots = Ref here ∷ Int (pos 0) ∷ Int (pos 0) ∷ []; operands = []; work = St EmptyS ∷ Act Ret ∷ [] } ∷ []) ∷ Done ∷ [];
    }) }
{}

/// A thread sees all objects and locks, and how many objects it made itself.
pub fn what_a_thread_sees()
    ensures object { (seen_by 0 small).object_at there ≡ Some (object_of 1) }
    ensures no_object { (seen_by 0 small).object_at (record { thread = 0; count = 2 }) ≡ None }
    ensures lock { (seen_by 0 small).lock_at there ≡ held_so_often 1 2 }
    ensures free { (seen_by 0 small).lock_at here ≡ None }
    ensures made { (seen_by 0 small).made ≡ 2 }
    ensures made_by_another { (seen_by 1 small).made ≡ 1 }
{}

/// The lock of a guard that leads through fields is that of the object which these lead to.
pub fn whose_lock_a_guard_is()
    ensures this { access_kind nodes (sees_two here (held_so_often 0 1)) 0 false here (slice_get nodes.fields 4) ≡ Both }
    ensures one_field { access_kind nodes (sees_two there (held_so_often 0 1)) 0 false here (slice_get nodes.fields 5) ≡ Both }
    ensures another_object { access_kind nodes (sees_two here (held_so_often 0 1)) 0 false here (slice_get nodes.fields 5) ≡ Bare }
    ensures another_thread { access_kind nodes (sees_two there (held_so_often 1 1)) 0 false here (slice_get nodes.fields 5) ≡ Bare }
    ensures two_fields { access_kind nodes (sees_two here (held_so_often 0 1)) 0 false here (slice_get nodes.fields 7) ≡ Both }
    ensures null { access_kind nodes (sees_two here (held_so_often 0 1)) 0 false there (slice_get nodes.fields 5) ≡ Bare }
    ensures null_on_the_way { access_kind nodes (sees_two here (held_so_often 0 1)) 0 false there (slice_get nodes.fields 7) ≡ Bare }
    ensures of_writes { access_kind nodes (sees_two there (held_so_often 0 1)) 0 true here (slice_get nodes.fields 6) ≡ Other }
    ensures no_field { access_kind nodes sees_nothing 0 true here None ≡ Both }
{}

/// What isn't there as in a typed program faults like null.
pub fn what_is_not_there()
    ensures slot { does (sees 0 None) (seven ∷ []) (Store 3) ≡ faults_with fault.Null (seven ∷ []) }
    ensures field { does (sees 0 None) (Ref here ∷ []) (Get 4) ≡ faults_with fault.Null (Ref here ∷ []) }
    ensures written_field { does (sees 0 None) (seven ∷ Ref here ∷ []) (Put 4) ≡ faults_with fault.Null (seven ∷ Ref here ∷ []) }
    ensures class { does (sees 0 None) (seven ∷ []) (New 2) ≡ faults_with fault.Null (seven ∷ []) }
    ensures method { does (sees 0 None) (Ref here ∷ []) (Call 2) ≡ faults_with fault.Null (Ref here ∷ []) }
    ensures method_of_the_class { does (sees 0 None) (seven ∷ seven ∷ Ref here ∷ []) (Call 1) ≡ faults_with fault.Null (seven ∷ seven ∷ Ref here ∷ []) }
    ensures object { does sees_nothing (Ref here ∷ []) (Get 1) ≡ faults_with fault.Null (Ref here ∷ []) }
    ensures called_object { does sees_nothing (seven ∷ seven ∷ Ref here ∷ []) (Call 0) ≡ faults_with fault.Null (seven ∷ seven ∷ Ref here ∷ []) }
    ensures started_object { does sees_nothing (Ref here ∷ []) Start ≡ faults_with fault.Null (Ref here ∷ []) }
{}

/// A class may pair a method with none that is there, and be one that isn't there itself: only in programs that aren't typed.
pub fn what_no_typed_program_has()
    ensures missing_target { act two_pairs (sees 0 None) 0 (frame_with (seven ∷ seven ∷ Ref here ∷ [])) [] rest (Call 0) ≡ faults_with fault.Null (seven ∷ seven ∷ Ref here ∷ []) }
    ensures missing_class { does (sees 2 None) (Ref here ∷ []) Start ≡ faults_with fault.Null (Ref here ∷ []) }
    ensures missing_method { act four_fields (sees 0 None) 0 (record (frame_with (seven ∷ [])) { method = 2 }) (frame_with [] ∷ []) rest Ret ≡
        Moves (record { kind = Both; thread = Running (frame_with [] ∷ []); change = Nothing }) }
{}

/// A method without a result leaves the operands of the frame below as they are.
pub fn what_a_void_return_does()
    ensures { act nodes (sees 0 None) 0 (frame_with (seven ∷ [])) (frame_with (Null ∷ []) ∷ frame_with [] ∷ []) rest Ret ≡
        Moves (record { kind = Both; thread = Running (frame_with (Null ∷ []) ∷ frame_with [] ∷ []); change = Nothing }) }
{}
