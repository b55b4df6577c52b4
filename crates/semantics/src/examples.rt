//! Examples of runs, which the check computes.
ghost use Rattle.std.specs.Prelude.{◌≡◌, ◌==◌, [], ◌∷◌, ◌++◌, Some, map, filter, replicate};
ghost use Rattle.core_program.specs.Examples.{counter, nested, returns_locked, divides_by_zero, reads_unlocked};
ghost use Rattle.state.specs.declared.value.Fault.TheVariants.{Zero};
ghost use Rattle.state.specs.declared.value.StepKind.TheVariants.{Both, Right, Left, Other};
ghost use Rattle.semantics.specs.Step.{HadFaulted, outcome};
ghost use Rattle.semantics.specs.Run.{run, IsUninterrupted};
ghost use Rattle.semantics.specs.Units.{entries, units, in_order, commit_place, written_order};
ghost use Rattle.semantics.specs.Examples.{nested_after_five, nested_after_eleven, returning_after_six, returning_after_seven, returned, faulted_by_zero, one_worker, interleaved, one_after_the_other, counted_to_two};

/// One lock taken twice by one thread is held twice; after eleven steps the field is written and the lock is free.
pub fn a_lock_is_taken_twice()
    ensures five { run nested (replicate 5 0) ≡ Some nested_after_five }
    ensures eleven { run nested (replicate 11 0) ≡ Some nested_after_eleven }
{}

/// A `return` out of two `synchronized` releases both locks, each by a step of its own.
pub fn a_return_releases()
    ensures six { run returns_locked (replicate 6 0) ≡ Some returning_after_six }
    ensures seven { run returns_locked (replicate 7 0) ≡ Some returning_after_seven }
    ensures eight { run returns_locked (replicate 8 0) ≡ Some returned }
{}

/// A zero divisor faults the thread, which keeps its frames and steps no more.
pub fn a_zero_divisor_faults()
    ensures four { run divides_by_zero (replicate 4 0) ≡ Some faulted_by_zero }
    ensures no_more { outcome divides_by_zero faulted_by_zero 0 ≡ HadFaulted Zero }
{}

/// The kinds of a worker's fifteen steps: one acquire, and later one release, with nothing but Both beside them.
pub fn kinds_of_a_worker()
    ensures { let steps = filter (λ e. e.thread == 1) (entries counter one_worker) in
        map (λ e. e.kind) steps ≡ replicate 5 Both ++ Right ∷ replicate 6 Both ++ Left ∷ Both ∷ Both ∷ [] }
{}

/// A field whose guard guards writes only: a read without the lock is Other, one with the lock is Both, and a write with the
/// lock is Other.
///     class Main { int v write_guarded_by this;
///       void main() { System.out.println(this.v); synchronized (this) { this.v = 7; System.out.println(this.v); } } }
pub fn kinds_of_a_write_guard()
    ensures { map (λ e. e.kind) (entries reads_unlocked (replicate 14 0)) ≡
        Both ∷ Both ∷ Other ∷ Other ∷ Both ∷ Right ∷ Both ∷ Both ∷ Other ∷ Both ∷ Both ∷ Other ∷ Left ∷ Both ∷ [] }
{}

/// Two calls that overlap are two units; each stands at the place of its release.
pub fn units_of_two_workers()
    ensures places { map (λ u. map (λ e. e.place) u) (in_order (units (entries counter interleaved))) ≡
        (0 ∷ []) ∷ (1 ∷ []) ∷ (2 ∷ []) ∷ (3 ∷ []) ∷ (4 ∷ []) ∷ (5 ∷ []) ∷ (6 ∷ []) ∷ (7 ∷ []) ∷ (8 ∷ []) ∷ (9 ∷ [])
        ∷ (10 ∷ []) ∷ (11 ∷ []) ∷ (12 ∷ []) ∷ (14 ∷ []) ∷ (15 ∷ []) ∷ (16 ∷ [])
        ∷ (13 ∷ 18 ∷ 19 ∷ 21 ∷ 22 ∷ 23 ∷ 24 ∷ 25 ∷ 26 ∷ 27 ∷ 29 ∷ [])
        ∷ (17 ∷ 20 ∷ 28 ∷ 30 ∷ 31 ∷ 32 ∷ 33 ∷ 34 ∷ 35 ∷ 36 ∷ 37 ∷ [])
        ∷ (38 ∷ []) ∷ (39 ∷ []) ∷ [] }
    ensures commit_places { map commit_place (in_order (units (entries counter interleaved))) ≡
        0 ∷ 1 ∷ 2 ∷ 3 ∷ 4 ∷ 5 ∷ 6 ∷ 7 ∷ 8 ∷ 9 ∷ 10 ∷ 11 ∷ 12 ∷ 14 ∷ 15 ∷ 16 ∷ 27 ∷ 36 ∷ 38 ∷ 39 ∷ [] }
    ensures written { written_order counter interleaved ≡ one_after_the_other }
    ensures uninterrupted { IsUninterrupted counter one_after_the_other }
    ensures interrupted { ¬ (IsUninterrupted counter interleaved) }
    ensures runs { run counter interleaved ≡ Some counted_to_two }
    ensures runs_written { run counter one_after_the_other ≡ Some counted_to_two }
{}
