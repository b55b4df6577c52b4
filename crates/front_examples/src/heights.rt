//! Heights of trees, and where expressions and statements begin.
ghost use Rattle.std.specs.Prelude.{◌≡◌, true, [], ◌∷◌, map, Some, None};
ghost use Rattle.syntax.specs.declared.tree.Op.TheVariants as O;
ghost use Rattle.syntax.specs.declared.tree.TypeName.TheVariants as Y;
ghost use Rattle.syntax.specs.Heights.{height, stmt_height, body_height, highest_body};
ghost use Rattle.syntax.specs.Limits.{most_height, most_tokens};
ghost use Rattle.syntax.specs.Offsets.{first_at, begins_at};
ghost use Rattle.syntax.specs.Trees.{NotE, BinaryE, CallE, NewE, more_exprs};
ghost use Rattle.syntax.specs.Trees.{EmptyS, BlockS, SetFieldS, IfS, IfElseS, WhileS, SyncS, ReturnS, PrintS, no_stmts, more_stmts, CtorM};
ghost use Rattle.front_examples.specs.Written.{x_name, x, seven_tree, this_lock, all_exprs, all_stmts, one_expr, one_stmt, field, method, class_tree};

/// Each node is one higher than its highest part, and parentheses are a node.
pub fn how_high_expressions_are()
    ensures each_kind { map height all_exprs ≡ 1 ∷ 1 ∷ 1 ∷ 1 ∷ 1 ∷ 1 ∷ 2 ∷ 2 ∷ 2 ∷ 2 ∷ 2 ∷ 2 ∷ 1 ∷ [] }
    ensures left { height (BinaryE O.Add (NotE x 1) seven_tree 5) ≡ 3 }
    ensures right { height (BinaryE O.Add seven_tree (NotE x 1) 5) ≡ 3 }
    ensures receiver { height (CallE (NotE x 1) x_name (one_expr seven_tree)) ≡ 3 }
    ensures argument { height (CallE x x_name (more_exprs seven_tree (one_expr (NotE x 1)))) ≡ 3 }
    ensures first_argument { height (NewE x_name (more_exprs (NotE x 1) (one_expr seven_tree)) 1) ≡ 3 }
{}

/// A statement is one higher than its highest part; the statements of a `synchronized` are a block, and so is a method's body.
pub fn how_high_statements_are()
    ensures each_kind { map stmt_height all_stmts ≡ 1 ∷ 1 ∷ 2 ∷ 2 ∷ 2 ∷ 2 ∷ 2 ∷ 2 ∷ 2 ∷ 2 ∷ 1 ∷ 2 ∷ 2 ∷ [] }
    ensures block { stmt_height (BlockS (more_stmts (EmptyS 1) (one_stmt (PrintS x 1))) 1) ≡ 3 }
    ensures block_back { stmt_height (BlockS (more_stmts (PrintS x 1) (one_stmt (EmptyS 1))) 1) ≡ 3 }
    ensures receiver { stmt_height (SetFieldS (NotE x 1) x_name seven_tree 1) ≡ 3 }
    ensures value { stmt_height (SetFieldS x x_name (NotE x 1) 1) ≡ 3 }
    ensures condition { map stmt_height (IfS (NotE x 1) (EmptyS 1) 1 ∷ IfElseS (NotE x 1) (EmptyS 1) (EmptyS 1) 1 ∷ WhileS (NotE x 1) (EmptyS 1) 1 ∷ []) ≡ 3 ∷ 3 ∷ 3 ∷ [] }
    ensures branches { map stmt_height (IfS x (PrintS x 1) 1 ∷ IfElseS x (PrintS x 1) (EmptyS 1) 1 ∷ IfElseS x (EmptyS 1) (PrintS x 1) 1 ∷ WhileS x (PrintS x 1) 1 ∷ []) ≡ 3 ∷ 3 ∷ 3 ∷ 3 ∷ [] }
    ensures synchronized { stmt_height (SyncS this_lock (one_stmt (PrintS x 1)) 1) ≡ 4 }
    ensures returned { stmt_height (ReturnS (Some x) 1) ≡ 2 }
    ensures members { map body_height (field true Y.Int x_name ∷ CtorM x_name [] [] ∷ method x_name [] None (one_stmt (PrintS x 1)) ∷ []) ≡ 0 ∷ 0 ∷ 3 ∷ [] }
    ensures program { highest_body (class_tree x_name (method x_name [] None (one_stmt (EmptyS 1)) ∷ method x_name [] None (one_stmt (PrintS x 1)) ∷ []) ∷ class_tree x_name [] ∷ []) ≡ 3 }
    ensures other_class { highest_body (class_tree x_name [] ∷ class_tree x_name (method x_name [] None (one_stmt (PrintS x 1)) ∷ method x_name [] None no_stmts ∷ []) ∷ []) ≡ 3 }
    ensures no_class { highest_body [] ≡ 0 }
    ensures no_member { highest_body (class_tree x_name [] ∷ []) ≡ 0 }
    ensures limits { most_height ∷ most_tokens ∷ [] ≡ 64 ∷ 262144 ∷ [] }
{}

/// Expressions and statements begin at their first tokens.
pub fn where_trees_begin()
    ensures expressions { map first_at all_exprs ≡ 1 ∷ 1 ∷ 1 ∷ 1 ∷ 1 ∷ 9 ∷ 1 ∷ 1 ∷ 1 ∷ 8 ∷ 9 ∷ 9 ∷ 1 ∷ [] }
    ensures statements { map begins_at all_stmts ≡ 1 ∷ 1 ∷ 1 ∷ 5 ∷ 9 ∷ 1 ∷ 1 ∷ 1 ∷ 1 ∷ 1 ∷ 1 ∷ 1 ∷ 1 ∷ [] }
{}
