//! What taking a lock and giving it back come to.
ghost use Rattle.std.specs.Prelude.{◌≡◌, [], ◌∷◌, None};
ghost use Rattle.core_program.specs.Core.{Stmt};
ghost use Rattle.state.specs.declared.value.Fault.TheVariants as fault;
ghost use Rattle.state.specs.declared.value.StepKind.TheVariants.{Both, Right, Left};
ghost use Rattle.state.specs.declared.value.Value.TheVariants.{Null, Ref};
ghost use Rattle.state.specs.Work.{St, Act, Acquire, Release};
ghost use Rattle.semantics.specs.Step.{LockIs, Waits};
ghost use Rattle.core_examples.specs.Seen.{here, sees, held_so_often, does, goes_by, faults_with, rest};

/// A free lock is taken by a right mover; one that the thread holds is taken once more, which moves both ways; for one that another
/// thread holds the thread waits.
pub fn what_taking_is()
    ensures free { (s : Stmt) → does (sees 0 None) (Ref here ∷ []) (Acquire s) ≡ goes_by Right [] (St s ∷ Act (Release here) ∷ rest) (LockIs here (held_so_often 0 1)) }
    ensures again { (s : Stmt) → does (sees 0 (held_so_often 0 2)) (Ref here ∷ []) (Acquire s) ≡ goes_by Both [] (St s ∷ Act (Release here) ∷ rest) (LockIs here (held_so_often 0 3)) }
    ensures of_another { (s : Stmt) → does (sees 0 (held_so_often 1 1)) (Ref here ∷ []) (Acquire s) ≡ Waits here 1 }
    ensures of_null { (s : Stmt) → does (sees 0 None) (Null ∷ []) (Acquire s) ≡ faults_with fault.Null (Null ∷ []) }
{}

/// A release that frees the lock is a left mover; any other one moves both ways. A thread gives back no lock that it doesn't hold.
pub fn what_giving_back_is()
    ensures last { does (sees 0 (held_so_often 0 1)) [] (Release here) ≡ goes_by Left [] rest (LockIs here None) }
    ensures not_last { does (sees 0 (held_so_often 0 3)) [] (Release here) ≡ goes_by Both [] rest (LockIs here (held_so_often 0 2)) }
    ensures of_another { does (sees 0 (held_so_often 1 1)) [] (Release here) ≡ faults_with fault.Null [] }
    ensures of_nobody { does (sees 0 None) [] (Release here) ≡ faults_with fault.Null [] }
{}
