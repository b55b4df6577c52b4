//! Laws of a thread's turn.
ghost use Rattle.std.specs.Prelude.{◌≡◌, ◌||◌, ◌+◌, ℕ, Bool, List, Option, None, nat_lt};
ghost use Rattle.paths.specs.Paths.{PathData};
ghost use Rattle.core_program.specs.Core.{Program};
ghost use Rattle.rules.specs.Effect.{Assignment};
ghost use Rattle.state.specs.declared.value.Address.{Address};
ghost use Rattle.state.specs.Work.{Item};
ghost use Rattle.state.specs.States.{Frame, Thread};
ghost use Rattle.semantics.specs.Step.{Shared, turn};
ghost use Rattle.semantics.specs.Run.{is_inside_some};
ghost use Rattle.reduction.specs.Leads.{machine_memory};
ghost use Rattle.reduction.specs.Fits.{has_release, count_release};
ghost use Rattle.reduction.specs.Safe.{releases_in_work, count_frames, IsSafeThread};
ghost use Rattle.reduction.specs.Turn.{Accepted, Fine};

/// The turn of a safe thread, of an accepted program: what its step changes leaves the thread safe, its kind is one that the
/// phase admits, and other threads find their locks and final fields as before. A lock is held further out or released later
/// where there is at least one release of it.
pub fn turn_laws()
    ensures turn { (P : Program) (rel : ℕ → List PathData) (A : Assignment) → Accepted P rel A → (see : Shared) (t : ℕ) →
        see.object_at (record { thread = t; count = see.made }) ≡ None → (thread : Option Thread) (flag : Bool) →
        IsSafeThread P rel A (machine_memory P see.object_at) see.lock_at t flag thread → Fine P rel A see t (is_inside_some P thread) flag (turn P see t thread) }
    ensures counts { (a : Address) (more : List Item) (fs : List Frame) → (has_release a more || releases_in_work fs a) ≡ nat_lt 0 (count_release a more + count_frames a fs) }
{}
