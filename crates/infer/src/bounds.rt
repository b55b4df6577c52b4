//! The verdict: which method is the first to break its bound.
ghost use Rattle.std.specs.Prelude.{◌≡◌, ◌↔◌, ◌≤◌, ◌^◌, true, List, length, is_ok, OnOk, IfErr};
ghost use Rattle.core_program.specs.Typed.{IsTyped};
ghost use Rattle.core_program.specs.Views.{program_of};
ghost use Rattle.rules.specs.Near.{MethodPaths, AreRelevant, AreFew, rel_of};
ghost use Rattle.rules.specs.Rules.{IsAccepted};
ghost use Rattle.infer.specs.Least.{IsLeast};
ghost use Rattle.infer.specs.Verdicts.{AreKnown, assignment_of, IsFirstBroken, IsBrokenByAll, HoldBounds};

use algebra::{Algebra, Basic};
use core_program::CoreProgram;
use paths::MethodId;
use rules::bound_of;

/// What is assigned to each method, in source order.
#[derive(Drop)]
pub struct Inferred<A> {
    pub methods: Vec<A>,
}

/// A method whose bound is broken: the greatest basic that it may have at its required locks, and the one that it has.
#[derive(Clone, Copy, Debug, PartialEq, Eq)]
pub struct Broken {
    pub method: MethodId,
    pub declared: Basic,
    pub found: Basic,
}

/// Whether every method keeps its bound; else the first one in source order that breaks it. Of the least closed
/// assignment this is whether the program is accepted, and every closed assignment breaks that method's bound.
pub fn verdict<G: Algebra>(
    program: &CoreProgram,
    inferred: &Inferred<G::A>,
    algebra: &G,
) -> Result<(), Broken>
    requires known { AreKnown G.IsKnown algebra.now inferred.now.methods.items }
    requires few { length (program_of program.now).methods ≤ 2 ^ 32 }
    requires count { length inferred.now.methods.items ≡ length (program_of program.now).methods }

    // Of any assignment.
    ensures holds { OnOk result (HoldBounds (program_of program.now) (assignment_of G.value algebra.now inferred.now.methods.items)) }
    ensures broken { IfErr result (λ b.
        IsFirstBroken (program_of program.now) (assignment_of G.value algebra.now inferred.now.methods.items) b.method b.declared b.found) }

    // Of the least closed one of a typed program.
    ensures accepted { (sets : List MethodPaths) → IsTyped (program_of program.now) → AreRelevant (program_of program.now) sets → AreFew sets →
        IsLeast (program_of program.now) (rel_of sets) (assignment_of G.value algebra.now inferred.now.methods.items) →
        (is_ok result ≡ true) ↔ IsAccepted (program_of program.now) }
    ensures refuted { IfErr result (λ b. (sets : List MethodPaths) → IsTyped (program_of program.now) → AreRelevant (program_of program.now) sets →
        IsLeast (program_of program.now) (rel_of sets) (assignment_of G.value algebra.now inferred.now.methods.items) →
        IsBrokenByAll (program_of program.now) (rel_of sets) b.method) }
{
    for (m, method) in program.methods().iter().enumerate() {
        let found = algebra.at(&inferred.methods[m], method.requires_.as_slice());
        let declared = bound_of(method.annotated);
        if !found.below(declared) {
            return Err(Broken {
                method: MethodId(m as u32),
                declared,
                found,
            });
        }
    }
    Ok(())
}
