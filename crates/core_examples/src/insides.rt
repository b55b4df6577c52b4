//! Who stands inside an atomic call.
ghost use Rattle.std.specs.Prelude.{◌≡◌, true, false, [], ◌∷◌, Some, None};
ghost use Rattle.core_program.specs.Examples.{counter};
ghost use Rattle.state.specs.declared.value.Fault.TheVariants as fault;
ghost use Rattle.state.specs.States.{Ready, Running, Done, Faulted};
ghost use Rattle.semantics.specs.Run.{is_inside, inside, open_thread};
ghost use Rattle.core_examples.specs.Insides.{called_frame, calling_frame, with_threads};
ghost use Rattle.core_examples.specs.Seen.{here};

/// A thread stands inside by any of its frames, also by an outer one while the top one isn't annotated; a faulted thread keeps its
/// frames, so it stands inside still; one that is ready or done stands nowhere.
pub fn who_stands_inside()
    ensures by_its_top_frame { is_inside counter (Running (called_frame ∷ [])) ≡ true }
    ensures by_an_outer_frame { is_inside counter (Running (calling_frame ∷ called_frame ∷ [])) ≡ true }
    ensures no_method { is_inside counter (Running (record calling_frame { method = 3 } ∷ [])) ≡ false }
    ensures not_inside { is_inside counter (Running (calling_frame ∷ [])) ≡ false }
    ensures faulted { is_inside counter (Faulted fault.Null (calling_frame ∷ called_frame ∷ [])) ≡ true }
    ensures ready { is_inside counter (Ready here 0) ≡ false }
    ensures done { is_inside counter Done ≡ false }
    ensures absent { inside counter (with_threads (Done ∷ [])) 1 ≡ false }
{}

/// Of two threads inside, the least is told.
pub fn which_thread_is_told()
    ensures least { open_thread counter (with_threads (Done ∷ Running (called_frame ∷ []) ∷ Running (called_frame ∷ []) ∷ [])) ≡ Some 1 }
    ensures none { open_thread counter (with_threads (Done ∷ Running (calling_frame ∷ []) ∷ Ready here 0 ∷ [])) ≡ None }
{}
