//! Where a part stands.
ghost use Rattle.std.specs.Prelude.{◌≡◌, IfOk};
ghost use Rattle.algebra.specs.HeldPaths.{Held};
ghost use Rattle.algebra.specs.Values.{Keeps};
ghost use Rattle.core_program.specs.Core.{Program};
ghost use Rattle.core_program.specs.Locks.{path_of};
ghost use Rattle.core_program.specs.Views.{expr_of, exprs_from, program_of, stmt_of};
ghost use Rattle.rules.specs.Mentions.{paths_of};
ghost use Rattle.effects.specs.Rules.{After, Called};

use algebra::Algebra;
use core_program::{CoreExpr, CoreProgram, CoreStmt};
use paths::MethodId;
use std::alloc::{AllocError as NoMemory, Global};

/// Where a part stands: the program, what the methods that it calls give, and what values are before a statement of a block. These
/// are the values that paths have under other names, which each caller of the rule makes in its own way.
pub trait Context<G: Algebra> {
    ghost IsReady: { Self → Type 0 };

    ghost plain: { Self → Program };

    ghost called: { Self → Called };

    ghost after: { Self → After };

    /// The program.
    fn program(&self) -> &CoreProgram
        ensures { program_of result.now ≡ plain self.now };

    /// What the callee gives at a call on this receiver with these arguments.
    fn call_value(
        &self,
        alloc: Global,
        algebra: &mut G,
        receiver: &CoreExpr,
        callee: MethodId,
        args: &[CoreExpr],
    ) -> Result<G::A, NoMemory>
        requires { IsReady self.now }
        ensures known { IfOk result (λ r. G.IsKnown algebra.new r) }
        ensures value { IfOk result (λ r. (H : Held) →
            G.value algebra.new r H ≡ called self.now callee (path_of (plain self.now) (expr_of receiver.now)) (paths_of (plain self.now) (exprs_from args.now)) H) }
        ensures keeps { Keeps G.IsKnown G.value algebra.old algebra.new };

    /// The value of the rest of a block, as it is before a statement.
    fn before(
        &self,
        alloc: Global,
        algebra: &mut G,
        s: &CoreStmt,
        rest: G::A,
    ) -> Result<G::A, NoMemory>
        requires ready { IsReady self.now }
        requires known { G.IsKnown algebra.old rest }
        ensures known { IfOk result (λ r. G.IsKnown algebra.new r) }
        ensures value { IfOk result (λ r. (H : Held) → G.value algebra.new r H ≡ G.value algebra.old rest (after self.now (stmt_of s.now) H)) }
        ensures keeps { Keeps G.IsKnown G.value algebra.old algebra.new };
}
