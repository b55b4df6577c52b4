//! Example programs are typed.
ghost use Rattle.core_program.specs.Typed.{IsTyped};
ghost use Rattle.core_program.specs.Examples.{counter, nested, returns_locked, divides_by_zero, reads_unlocked};

/// The example programs that other crates run and judge are typed.
pub fn examples_are_typed()
    ensures counter { IsTyped counter }
    ensures nested { IsTyped nested }
    ensures returns_locked { IsTyped returns_locked }
    ensures divides_by_zero { IsTyped divides_by_zero }
    ensures reads_unlocked { IsTyped reads_unlocked }
{}
