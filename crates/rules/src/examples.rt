//! Examples of effects, which the check computes.
ghost use Rattle.std.specs.Prelude.{◌≡◌, if◌then◌else◌};
ghost use Rattle.algebra.specs.declared.basic.Basic.TheVariants.{Mover, Atomic, Cmpd};
ghost use Rattle.algebra.specs.HeldPaths.{Held};
ghost use Rattle.core_program.specs.Examples.{counter, this_path, inc_body, run_body, main_body};
ghost use Rattle.rules.specs.Near.{rel_of};
ghost use Rattle.rules.specs.Effect.{effect};
ghost use Rattle.rules.specs.Rules.{IsAccepted};
ghost use Rattle.rules.specs.Examples.{counter_paths, counter_levels, cell_path, twice, twice_synchronized};

/// The bodies of the counter program, at each set of held paths.
pub fn effects_of_the_counter()
    ensures inc { (H : Held) → effect counter (rel_of counter_paths) counter_levels inc_body H ≡ (if H this_path then Mover else Atomic) }
    ensures run { (H : Held) → effect counter (rel_of counter_paths) counter_levels run_body H ≡ (if H cell_path then Mover else Atomic) }
    ensures main { (H : Held) → effect counter (rel_of counter_paths) counter_levels main_body H ≡ Cmpd }
{}

/// Two increments one after the other are a mover where the lock is held, else cmpd; under one lock they are atomic.
pub fn effects_of_two_increments()
    ensures twice { (H : Held) → effect counter (rel_of counter_paths) counter_levels twice H ≡ (if H this_path then Mover else Cmpd) }
    ensures synchronized { (H : Held) → effect counter (rel_of counter_paths) counter_levels twice_synchronized H ≡ (if H this_path then Mover else Atomic) }
{}

/// The counter program is accepted.
pub fn counter_is_accepted()
    ensures { IsAccepted counter }
{}
