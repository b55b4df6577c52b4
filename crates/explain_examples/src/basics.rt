//! The basic of each part of a body, computed.
ghost use Rattle.std.specs.Prelude.{◌≡◌, true, false, [], ◌∷◌, map, Some, None};
ghost use Rattle.algebra.specs.declared.basic.Basic.TheVariants.{Const, Mover, Atomic, Cmpd};
ghost use Rattle.conditions.specs.Conditions.{LeafC, TestC};
ghost use Rattle.core_program.specs.declared.types.CoreOp.TheVariants.{Add};
ghost use Rattle.core_program.specs.Core.{NullE, TruthE, ThisE, NotE, NegE, BinaryE, AndE, OrE, GetE, CallE, NewE, no_exprs, and_expr};
ghost use Rattle.core_program.specs.Core.{EmptyS, BlockS, LocalS, SetVarS, SetFieldS, DoS, IfS, WhileS, SyncS, ReturnS, PrintS, StartS, no_stmts, and_stmt};
ghost use Rattle.core_program.specs.Examples.{this_path};
ghost use Rattle.explain.specs.Basics.{expr_basics, exprs_basics, stmt_basics};
ghost use Rattle.explain.specs.Shown.{shown};
ghost use Rattle.core_examples.specs.Bodies.{this_held, nothing_held};
ghost use Rattle.core_examples.specs.Small.{one};
ghost use Rattle.explain_examples.specs.Shelf.{shelf, shelf_type, shelf_paths, shelf_levels, plain, fixed, made, put_in};

/// Expressions, each part before its own parts.
pub fn which_basics_expressions_have()
    ensures leaves { map (λ e. expr_basics shelf shelf_paths shelf_levels e nothing_held) (one ∷ TruthE true ∷ NullE ∷ ThisE ∷ plain ∷ fixed ∷ made ∷ []) ≡
        (Const ∷ []) ∷ (Const ∷ []) ∷ (Const ∷ []) ∷ (Const ∷ []) ∷ (Mover ∷ []) ∷ (Const ∷ []) ∷ (Mover ∷ []) ∷ [] }
    ensures one_part { map (λ e. expr_basics shelf shelf_paths shelf_levels e nothing_held) (NotE plain ∷ NegE plain ∷ GetE plain 0 ∷ []) ≡ (Mover ∷ Mover ∷ []) ∷ (Mover ∷ Mover ∷ []) ∷ (Atomic ∷ Mover ∷ []) ∷ [] }
    ensures two_parts { map (λ e. expr_basics shelf shelf_paths shelf_levels e nothing_held) (BinaryE Add plain (GetE ThisE 0) ∷ AndE plain (GetE ThisE 0) ∷ OrE plain (GetE ThisE 0) ∷ []) ≡
        (Atomic ∷ Mover ∷ Atomic ∷ Const ∷ []) ∷ (Atomic ∷ Mover ∷ Atomic ∷ Const ∷ []) ∷ (Atomic ∷ Mover ∷ Atomic ∷ Const ∷ []) ∷ [] }
    ensures call { expr_basics shelf shelf_paths shelf_levels (CallE plain 2 (and_expr (GetE ThisE 0) (and_expr one no_exprs))) nothing_held ≡ Cmpd ∷ Mover ∷ Atomic ∷ Const ∷ Const ∷ [] }
    ensures new { expr_basics shelf shelf_paths shelf_levels (NewE 0 (and_expr (GetE ThisE 0) (and_expr one no_exprs))) nothing_held ≡ Atomic ∷ Atomic ∷ Const ∷ Const ∷ [] }
    ensures arguments { exprs_basics shelf shelf_paths shelf_levels (and_expr plain (and_expr one no_exprs)) nothing_held ≡ Mover ∷ Const ∷ [] }
{}

/// Statements, each part before its own parts; a lock counts inside its `synchronized`, and what a final local names behind it.
pub fn which_basics_statements_have()
    ensures simple { map (λ s. stmt_basics shelf shelf_paths shelf_levels s nothing_held) (EmptyS ∷ LocalS 1 false shelf_type (GetE ThisE 4) ∷ SetVarS 1 plain ∷ DoS plain false ∷ PrintS plain ∷ StartS made ∷ []) ≡
        (Const ∷ []) ∷ (Atomic ∷ Atomic ∷ Const ∷ []) ∷ (Mover ∷ Mover ∷ []) ∷ (Mover ∷ Mover ∷ []) ∷ (Atomic ∷ Mover ∷ []) ∷ (Atomic ∷ Mover ∷ []) ∷ [] }
    ensures returns { map (λ v. stmt_basics shelf shelf_paths shelf_levels (ReturnS v) nothing_held) (None ∷ Some plain ∷ []) ≡ (Const ∷ []) ∷ (Mover ∷ Mover ∷ []) ∷ [] }
    ensures put { stmt_basics shelf shelf_paths shelf_levels (SetFieldS plain 0 (GetE ThisE 0)) nothing_held ≡ Cmpd ∷ Mover ∷ Atomic ∷ Const ∷ [] }
    ensures branches { stmt_basics shelf shelf_paths shelf_levels (IfS plain (put_in 0) (PrintS one)) nothing_held ≡ Atomic ∷ Mover ∷ Atomic ∷ Const ∷ Const ∷ Atomic ∷ Const ∷ [] }
    ensures loops { stmt_basics shelf shelf_paths shelf_levels (WhileS plain (put_in 0)) nothing_held ≡ Cmpd ∷ Mover ∷ Atomic ∷ Const ∷ Const ∷ [] }
    ensures taken { stmt_basics shelf shelf_paths shelf_levels (SyncS this_path (put_in 1)) nothing_held ≡ Atomic ∷ Mover ∷ Const ∷ Const ∷ [] }
    ensures held { stmt_basics shelf shelf_paths shelf_levels (SyncS this_path (put_in 1)) this_held ≡ Mover ∷ Mover ∷ Const ∷ Const ∷ [] }
    ensures block { stmt_basics shelf shelf_paths shelf_levels (BlockS (and_stmt (LocalS 2 true shelf_type ThisE) (and_stmt (SetFieldS fixed 1 one) no_stmts))) this_held ≡ Mover ∷ Mover ∷ Const ∷ Mover ∷ Const ∷ Const ∷ [] }
{}

/// The assignment that trees show; const for a method without one.
pub fn what_trees_show()
    ensures taken { map (λ m. shown (LeafC Cmpd ∷ TestC this_path (LeafC Mover) (LeafC Atomic) ∷ []) m this_held) (0 ∷ 1 ∷ 2 ∷ []) ≡ Cmpd ∷ Mover ∷ Const ∷ [] }
    ensures free { shown (TestC this_path (LeafC Mover) (LeafC Atomic) ∷ []) 0 nothing_held ≡ Atomic }
{}
