//! An example of a schedule that is kept, which the check computes.
ghost use Rattle.std.specs.Prelude.{◌≡◌, None};
ghost use Rattle.core_program.specs.Examples.{counter};
ghost use Rattle.state.specs.States.{initial};
ghost use Rattle.semantics.specs.Examples.{interleaved, counted_to_two};
ghost use Rattle.witness.specs.Walks.{walk};
ghost use Rattle.witness.specs.Witness.{IsStateKept};

use semantics::examples::units_of_two_workers;
use semantics::unit_laws;

/// Two calls that overlap: the schedule interrupts one of them, so it doesn't walk; and it is kept, since with the calls one
/// after the other it ends in the same state.
pub fn overlapping_calls_are_kept()
    ensures interrupted { walk counter (initial counter) None interleaved ≡ None }
    ensures kept { IsStateKept counter interleaved counted_to_two }
{
    units_of_two_workers();
    unit_laws();
}
