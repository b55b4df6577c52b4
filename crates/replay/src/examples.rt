//! Examples of evaluation, which the check computes.
ghost use Rattle.std.specs.Prelude.{◌≡◌, [], Some, replicate};
ghost use Rattle.std.specs.FinMap as map;
ghost use Rattle.core_program.specs.Examples.{divides_by_zero, nested};
ghost use Rattle.state.specs.declared.value.Fault.TheVariants.{Zero};
ghost use Rattle.state.specs.Memory.{Object, Hold};
ghost use Rattle.state.specs.States.{initial, main_address};
ghost use Rattle.semantics.specs.Examples.{nested_after_eleven};
ghost use Rattle.replay.specs.Plain.{Plain};
ghost use Rattle.replay.specs.Answers.{Fails, Blocked, Short, Deep};
ghost use Rattle.replay.specs.Evaluation.{evaluate};
ghost use Rattle.replay.specs.Calls.{IsCallAt};
ghost use Rattle.replay.specs.Examples.{loops, calls_itself};

/// A zero divisor fails, whatever the state. Without turns nothing is evaluated, and a loop that never ends is short with any
/// number of them. A method that calls itself is short with 100 turns, and deep with one more, since more than 100 calls are
/// then open. A lock that another thread holds blocks.
pub fn endings()
    ensures fails { (q : Plain) → evaluate divides_by_zero q 0 main_address 0 [] 1 ≡ Fails Zero }
    ensures no_turns { (q : Plain) → evaluate divides_by_zero q 0 main_address 0 [] 0 ≡ Short }
    ensures no_more_turns { (q : Plain) → evaluate loops q 0 main_address 0 [] 5 ≡ Short }
    ensures short { (q : Plain) (o : Object) → map.get q.heap main_address ≡ Some o → o.class ≡ 0 → evaluate calls_itself q 0 main_address 0 [] 100 ≡ Short }
    ensures deep { (q : Plain) (o : Object) → map.get q.heap main_address ≡ Some o → o.class ≡ 0 → evaluate calls_itself q 0 main_address 0 [] 101 ≡ Deep }
    ensures blocked { (q : Plain) (hold : Hold) → map.get q.locks main_address ≡ Some hold → hold.holder ≡ 1 → evaluate nested q 0 main_address 0 [] 1 ≡ Blocked main_address 1 }
{}

/// A schedule that is one atomic call: `main` is annotated, and takes its lock twice.
pub fn a_schedule_of_one_call()
    ensures { IsCallAt nested (replicate 11 0) 0 11 0 (initial nested) nested_after_eleven }
{}
