//! The kinds of accesses, and what they read and write.
ghost use Rattle.std.specs.Prelude.{◌≡◌, pos, [], ◌∷◌, None};
ghost use Rattle.state.specs.declared.value.Fault.TheVariants as fault;
ghost use Rattle.state.specs.declared.value.StepKind.TheVariants.{Both, Other, Bare};
ghost use Rattle.state.specs.declared.value.Value.TheVariants.{Int, Null, Ref};
ghost use Rattle.state.specs.Work.{Get, Put};
ghost use Rattle.semantics.specs.Step.{Nothing, FieldIs};
ghost use Rattle.core_examples.specs.Seen.{seven, here, sees, held_so_often, does, goes_by, faults_with, rest};

/// Reads: of a final field Both, of one that nothing guards Other, of a guarded one Both with the lock and Bare without; where the
/// guard guards writes only, Both with the lock and Other without.
pub fn what_reads_are()
    ensures final_field { does (sees 0 None) (Ref here ∷ []) (Get 0) ≡ goes_by Both (Int (pos 1) ∷ []) rest Nothing }
    ensures free { does (sees 0 None) (Ref here ∷ []) (Get 1) ≡ goes_by Other (Int (pos 2) ∷ []) rest Nothing }
    ensures held { does (sees 0 (held_so_often 0 1)) (Ref here ∷ []) (Get 2) ≡ goes_by Both (Int (pos 3) ∷ []) rest Nothing }
    ensures not_held { does (sees 0 None) (Ref here ∷ []) (Get 2) ≡ goes_by Bare (Int (pos 3) ∷ []) rest Nothing }
    ensures held_by_another { does (sees 0 (held_so_often 1 1)) (Ref here ∷ []) (Get 2) ≡ goes_by Bare (Int (pos 3) ∷ []) rest Nothing }
    ensures write_guard_held { does (sees 0 (held_so_often 0 1)) (Ref here ∷ []) (Get 3) ≡ goes_by Both (Int (pos 4) ∷ []) rest Nothing }
    ensures write_guard_not_held { does (sees 0 None) (Ref here ∷ []) (Get 3) ≡ goes_by Other (Int (pos 4) ∷ []) rest Nothing }
    ensures of_null { does (sees 0 None) (Null ∷ []) (Get 0) ≡ faults_with fault.Null (Null ∷ []) }
{}

/// Writes: of a field that nothing guards Other, of a guarded one Both with the lock and Bare without; where the guard guards writes
/// only, Other with the lock and Bare without. A final field isn't written.
pub fn what_writes_are()
    ensures final_field { does (sees 0 None) (seven ∷ Ref here ∷ []) (Put 0) ≡ faults_with fault.Null (seven ∷ Ref here ∷ []) }
    ensures free { does (sees 0 None) (seven ∷ Ref here ∷ []) (Put 1) ≡ goes_by Other [] rest (FieldIs here 1 seven) }
    ensures held { does (sees 0 (held_so_often 0 2)) (seven ∷ Ref here ∷ []) (Put 2) ≡ goes_by Both [] rest (FieldIs here 2 seven) }
    ensures not_held { does (sees 0 None) (seven ∷ Ref here ∷ []) (Put 2) ≡ goes_by Bare [] rest (FieldIs here 2 seven) }
    ensures write_guard_held { does (sees 0 (held_so_often 0 1)) (seven ∷ Ref here ∷ []) (Put 3) ≡ goes_by Other [] rest (FieldIs here 3 seven) }
    ensures write_guard_not_held { does (sees 0 None) (seven ∷ Ref here ∷ []) (Put 3) ≡ goes_by Bare [] rest (FieldIs here 3 seven) }
    ensures of_null { does (sees 0 None) (seven ∷ Null ∷ []) (Put 1) ≡ faults_with fault.Null (seven ∷ Null ∷ []) }
{}
