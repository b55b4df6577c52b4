//! Laws of the definitions.
ghost use Rattle.std.specs.Prelude.{◌≡◌, ◌<◌, ℕ, List, Some, Vec, Box, Contains};
ghost use Rattle.paths.specs.Paths.{PathData};
ghost use Rattle.std.specs.declared.alloc.Global.{Global};
ghost use Rattle.core_program.specs.declared.tree.CoreExpr.{CoreExpr, Call, New};
ghost use Rattle.core_program.specs.declared.tree.CoreStmt.{CoreStmt, Block};
ghost use Rattle.core_program.specs.Core.{Program, Expr, CallE, NewE, BlockS};
ghost use Rattle.core_program.specs.Locks.{path_of};
ghost use Rattle.core_program.specs.Types.{Variable, HasType, class_type};
ghost use Rattle.core_program.specs.Views.{expr_of, exprs_from, stmt_of, stmts_from};
ghost use Rattle.core_program.specs.Typed.{IsLock};

/// A `Vec` of parts is the list of these parts as plain data.
pub fn lists_as_plain_data()
    ensures call { (e : Box CoreExpr Global) (m : ℕ) (args : Vec CoreExpr Global) →
        expr_of (Call e m args) ≡ CallE (expr_of e.value) m (exprs_from args.items) }
    ensures new { (c : ℕ) (args : Vec CoreExpr Global) → expr_of (New c args) ≡ NewE c (exprs_from args.items) }
    ensures block { (body : Vec CoreStmt Global) → stmt_of (Block body) ≡ BlockS (stmts_from body.items) }
{}

/// The path of a typed expression of class type is one of a lock. Slots of variables are above that of `this`.
pub fn paths_are_locks()
    ensures { (P : Program) (class : ℕ) (scope : List Variable) → ((v : Variable) → Contains scope v → 0 < v.slot) →
        (e : Expr) (c : ℕ) (p : PathData) → HasType P class scope e (class_type c) → path_of P e ≡ Some p → IsLock P class scope p }
{}
