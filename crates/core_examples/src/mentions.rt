//! What a body mentions that bears on locks.
ghost use Rattle.std.specs.Prelude.{◌≡◌, pos, true, false, [], ◌∷◌, Some, None};
ghost use Rattle.core_program.specs.declared.types.CoreOp.TheVariants.{Add};
ghost use Rattle.core_program.specs.Core.{IntE, TruthE, NullE, ThisE, VarE, NotE, NegE, BinaryE, AndE, OrE, GetE, CallE, NewE, no_exprs, and_expr};
ghost use Rattle.core_program.specs.Core.{EmptyS, BlockS, LocalS, SetVarS, SetFieldS, DoS, IfS, WhileS, SyncS, ReturnS, PrintS, StartS, no_stmts, and_stmt};
ghost use Rattle.rules.specs.Mentions.{Accesses, Calls, Locks, Names, expr_mentions, mentions};
ghost use Rattle.core_examples.specs.Fields.{path, node_type, of_this};

/// An expression mentions its accesses and calls, and those of its parts.
pub fn what_expressions_mention()
    ensures number { expr_mentions (IntE (pos 1)) ≡ [] }
    ensures truth { expr_mentions (TruthE true) ≡ [] }
    ensures null { expr_mentions NullE ≡ [] }
    ensures this { expr_mentions ThisE ≡ [] }
    ensures variable { expr_mentions (VarE 1 true node_type) ≡ [] }
    ensures opposite { expr_mentions (NotE (of_this 1)) ≡ Accesses ThisE 1 ∷ [] }
    ensures negated { expr_mentions (NegE (of_this 1)) ≡ Accesses ThisE 1 ∷ [] }
    ensures sum { expr_mentions (BinaryE Add (of_this 1) (of_this 2)) ≡ Accesses ThisE 1 ∷ Accesses ThisE 2 ∷ [] }
    ensures both { expr_mentions (AndE (of_this 1) (of_this 2)) ≡ Accesses ThisE 1 ∷ Accesses ThisE 2 ∷ [] }
    ensures either { expr_mentions (OrE (of_this 1) (of_this 2)) ≡ Accesses ThisE 1 ∷ Accesses ThisE 2 ∷ [] }
    ensures read { expr_mentions (GetE (of_this 0) 3) ≡ Accesses (of_this 0) 3 ∷ Accesses ThisE 0 ∷ [] }
    ensures call { expr_mentions (CallE (of_this 0) 7 (and_expr (of_this 1) (and_expr (of_this 2) no_exprs))) ≡
        Calls (of_this 0) 7 (and_expr (of_this 1) (and_expr (of_this 2) no_exprs)) ∷ Accesses ThisE 0 ∷ Accesses ThisE 1 ∷ Accesses ThisE 2 ∷ [] }
    ensures new_object { expr_mentions (NewE 0 (and_expr (of_this 1) no_exprs)) ≡ Accesses ThisE 1 ∷ [] }
{}

/// A statement mentions its lock, what a final local names, and what its parts mention.
pub fn what_statements_mention()
    ensures empty { mentions EmptyS ≡ [] }
    ensures block { mentions (BlockS (and_stmt (PrintS (of_this 1)) (and_stmt (PrintS (of_this 2)) no_stmts))) ≡ Accesses ThisE 1 ∷ Accesses ThisE 2 ∷ [] }
    ensures final_local { mentions (LocalS 4 true node_type (of_this 0)) ≡ Names 4 (of_this 0) ∷ Accesses ThisE 0 ∷ [] }
    ensures plain_local { mentions (LocalS 4 false node_type (of_this 0)) ≡ Accesses ThisE 0 ∷ [] }
    ensures assigned { mentions (SetVarS 4 (of_this 0)) ≡ Accesses ThisE 0 ∷ [] }
    ensures written { mentions (SetFieldS (of_this 0) 3 (of_this 1)) ≡ Accesses (of_this 0) 3 ∷ Accesses ThisE 0 ∷ Accesses ThisE 1 ∷ [] }
    ensures done { mentions (DoS (of_this 0) true) ≡ Accesses ThisE 0 ∷ [] }
    ensures branches { mentions (IfS (of_this 0) (PrintS (of_this 1)) (PrintS (of_this 2))) ≡ Accesses ThisE 0 ∷ Accesses ThisE 1 ∷ Accesses ThisE 2 ∷ [] }
    ensures repeated { mentions (WhileS (of_this 0) (PrintS (of_this 1))) ≡ Accesses ThisE 0 ∷ Accesses ThisE 1 ∷ [] }
    ensures lock { mentions (SyncS (path 0 (0 ∷ [])) (PrintS (of_this 1))) ≡ Locks (path 0 (0 ∷ [])) ∷ Accesses ThisE 1 ∷ [] }
    ensures returned { mentions (ReturnS (Some (of_this 0))) ≡ Accesses ThisE 0 ∷ [] }
    ensures returned_nothing { mentions (ReturnS None) ≡ [] }
    ensures printed { mentions (PrintS (of_this 0)) ≡ Accesses ThisE 0 ∷ [] }
    ensures started { mentions (StartS (of_this 0)) ≡ Accesses ThisE 0 ∷ [] }
{}
