//! The productions of the grammar: the tokens of a tree for each of them, and trees that no tokens spell.
ghost use Rattle.std.specs.Prelude.{true, false, List, [], ◌∷◌, Some, None, codes};
ghost use Rattle.lexer.specs.declared.tokens.Token.{Token};
ghost use Rattle.syntax.specs.declared.terminal.Terminal.TheVariants as T;
ghost use Rattle.syntax.specs.declared.tree.Op.TheVariants as O;
ghost use Rattle.syntax.specs.declared.tree.TypeName.TheVariants as Y;
ghost use Rattle.syntax.specs.Grammar.{Spells, SpellsLock, SpellsStmt, SpellsParam, SpellsCtorParam, SpellsBare, SpellsMember, SpellsClass, Grammar};
ghost use Rattle.syntax.specs.Tokens.{token, number_token};
ghost use Rattle.syntax.specs.Trees.{NumberE, LeastE, TruthE, NullE, ThisE, ParenE, NotE, NegE, BinaryE, GetE, CallE, NewE, no_exprs, more_exprs};
ghost use Rattle.syntax.specs.Trees.{BlockS, LocalS, SetVarS, SetFieldS, DoS, IfS, IfElseS, WhileS, SyncS, ReturnS, PrintS, StartS, no_stmts, more_stmts, FieldM, CtorM, MethodM};
ghost use Rattle.front_examples.specs.Written.{x_name, x, seven_tree, param, field_tree, field, method_tree, this_lock, lock_tree, one_expr, one_stmt, class_tree, class_below};
ghost use Rattle.front_examples.specs.Spelled.{x_token, seven_token, f, f_token, sum, empty, empty_token, full_method};

/// Expressions without parts, and those with one.
pub fn how_expressions_are_spelled()
    ensures number { Spells (NumberE 7 8) (seven_token ∷ []) }
    ensures too_large { (ts : List Token) → Spells (NumberE 2147483648 3) ts → ⊥ }
    ensures least { Spells (LeastE 3) (token T.Minus 3 ∷ number_token 2147483648 (codes "2147483648") 4 ∷ []) }
    ensures yes { Spells (TruthE true 3) (token T.True 3 ∷ []) }
    ensures never { Spells (TruthE false 3) (token T.False 3 ∷ []) }
    ensures null { Spells (NullE 3) (token T.Null 3 ∷ []) }
    ensures this { Spells (ThisE 3) (token T.This 3 ∷ []) }
    ensures variable { Spells x (x_token ∷ []) }
    ensures parentheses { Spells (ParenE x 8) (token T.OpenParen 8 ∷ x_token ∷ token T.CloseParen 10 ∷ []) }
    ensures opposite { Spells (NotE x 8) (token T.Bang 8 ∷ x_token ∷ []) }
    ensures negated { Spells (NegE x 8) (token T.Minus 8 ∷ x_token ∷ []) }
    ensures negated_twice { Spells (NegE (NotE x 8) 7) (token T.Minus 7 ∷ token T.Bang 8 ∷ x_token ∷ []) }
    ensures no_opposite_of_a_sum { (ts : List Token) → Spells (NotE sum 7) ts → ⊥ }
    ensures no_negated_sum { (ts : List Token) → Spells (NegE sum 7) ts → ⊥ }
    ensures field { Spells (GetE x f) (x_token ∷ token T.Dot 10 ∷ f_token ∷ []) }
    ensures no_field_of_a_sum { (ts : List Token) → Spells (GetE sum f) ts → ⊥ }
    ensures no_field_of_a_negated_one { (ts : List Token) → Spells (GetE (NegE x 8) f) ts → ⊥ }
    ensures call { Spells (CallE x f no_exprs) (x_token ∷ token T.Dot 10 ∷ f_token ∷ token T.OpenParen 12 ∷ token T.CloseParen 13 ∷ []) }
    ensures call_with_two { Spells (CallE x f (more_exprs x (one_expr seven_tree)))
        (x_token ∷ token T.Dot 10 ∷ f_token ∷ token T.OpenParen 12 ∷ x_token ∷ token T.Comma 14 ∷ seven_token ∷ token T.CloseParen 16 ∷ []) }
    ensures no_call_of_a_sum { (ts : List Token) → Spells (CallE sum f no_exprs) ts → ⊥ }
    ensures new_object { Spells (NewE f (one_expr x) 3) (token T.New 3 ∷ f_token ∷ token T.OpenParen 12 ∷ x_token ∷ token T.CloseParen 13 ∷ []) }
{}

/// Operators associate to the left, and a looser one isn't part of a tighter one.
pub fn how_operations_are_spelled()
    ensures to_the_left { Spells (BinaryE O.Sub (BinaryE O.Sub x x 10) seven_tree 12) (x_token ∷ token T.Minus 10 ∷ x_token ∷ token T.Minus 12 ∷ seven_token ∷ []) }
    ensures not_to_the_right { (ts : List Token) → Spells (BinaryE O.Sub x (BinaryE O.Sub x seven_tree 12) 10) ts → ⊥ }
    ensures tighter_on_the_right { Spells (BinaryE O.Add x (BinaryE O.Mul x seven_tree 12) 10) (x_token ∷ token T.Plus 10 ∷ x_token ∷ token T.Star 12 ∷ seven_token ∷ []) }
    ensures looser_on_the_left { (ts : List Token) → Spells (BinaryE O.Mul sum x 12) ts → ⊥ }
    ensures looser_on_the_right { (ts : List Token) → Spells (BinaryE O.Mul x sum 12) ts → ⊥ }
    ensures all_levels { Spells (BinaryE O.Or x (BinaryE O.And x (BinaryE O.Eq x (BinaryE O.Lt x (BinaryE O.Add x (BinaryE O.Rem x (NotE x 6) 5) 4) 3) 2) 1) 0)
        (x_token ∷ token T.OrOr 0 ∷ x_token ∷ token T.AndAnd 1 ∷ x_token ∷ token T.EqualTo 2 ∷ x_token ∷ token T.Less 3 ∷ x_token ∷ token T.Plus 4 ∷ x_token ∷ token T.Percent 5 ∷ token T.Bang 6 ∷ x_token ∷ []) }
{}

/// Locks, and statements of each kind.
pub fn how_statements_are_spelled()
    ensures this { SpellsLock this_lock (token T.This 5 ∷ []) }
    ensures lock { SpellsLock (lock_tree (Some x_name) (f ∷ f ∷ []) 9) (x_token ∷ token T.Dot 10 ∷ f_token ∷ token T.Dot 12 ∷ f_token ∷ []) }
    ensures empty { SpellsStmt empty (empty_token ∷ []) }
    ensures block { SpellsStmt (BlockS (more_stmts empty (one_stmt empty)) 3) (token T.OpenBrace 3 ∷ empty_token ∷ empty_token ∷ token T.CloseBrace 9 ∷ []) }
    ensures local { SpellsStmt (LocalS false Y.Int f seven_tree 3) (token T.Int 3 ∷ f_token ∷ token T.Assign 12 ∷ seven_token ∷ token T.Semicolon 14 ∷ []) }
    ensures final_local { SpellsStmt (LocalS true (Y.Class x_name) f seven_tree 3) (token T.Final 3 ∷ x_token ∷ f_token ∷ token T.Assign 12 ∷ seven_token ∷ token T.Semicolon 14 ∷ []) }
    ensures truth_local { SpellsStmt (LocalS false Y.Boolean f seven_tree 3) (token T.Boolean 3 ∷ f_token ∷ token T.Assign 12 ∷ seven_token ∷ token T.Semicolon 14 ∷ []) }
    ensures local_elsewhere { SpellsStmt (LocalS false Y.Int f seven_tree 4) (token T.Int 3 ∷ f_token ∷ token T.Assign 12 ∷ seven_token ∷ token T.Semicolon 14 ∷ []) → ⊥ }
    ensures assigned { SpellsStmt (SetVarS x_name seven_tree 10) (x_token ∷ token T.Assign 10 ∷ seven_token ∷ token T.Semicolon 14 ∷ []) }
    ensures written { SpellsStmt (SetFieldS x f seven_tree 12) (x_token ∷ token T.Dot 10 ∷ f_token ∷ token T.Assign 12 ∷ seven_token ∷ token T.Semicolon 14 ∷ []) }
    ensures no_written_field_of_a_sum { (ts : List Token) → SpellsStmt (SetFieldS sum f seven_tree 12) ts → ⊥ }
    ensures done { SpellsStmt (DoS (CallE x f no_exprs) 9) (x_token ∷ token T.Dot 10 ∷ f_token ∷ token T.OpenParen 12 ∷ token T.CloseParen 13 ∷ token T.Semicolon 14 ∷ []) }
    ensures no_expression_alone { (ts : List Token) → SpellsStmt (DoS x 9) ts → ⊥ }
    ensures branch { SpellsStmt (IfS x empty 3) (token T.If 3 ∷ token T.OpenParen 5 ∷ x_token ∷ token T.CloseParen 10 ∷ empty_token ∷ []) }
    ensures no_local_in_a_branch { (ts : List Token) → SpellsStmt (IfS x (LocalS false Y.Int f seven_tree 3) 3) ts → ⊥ }
    ensures branches { SpellsStmt (IfElseS x empty empty 3) (token T.If 3 ∷ token T.OpenParen 5 ∷ x_token ∷ token T.CloseParen 10 ∷ empty_token ∷ token T.Else 13 ∷ empty_token ∷ []) }
    ensures nearest_if { SpellsStmt (IfS x (IfElseS x empty empty 12) 3)
        (token T.If 3 ∷ token T.OpenParen 5 ∷ x_token ∷ token T.CloseParen 10 ∷ token T.If 12 ∷ token T.OpenParen 13 ∷ x_token ∷ token T.CloseParen 14 ∷ empty_token ∷ token T.Else 15 ∷ empty_token ∷ []) }
    ensures no_further_if { (ts : List Token) → SpellsStmt (IfElseS x (IfS x empty 12) empty 3) ts → ⊥ }
    ensures no_local_in_branches { (ts : List Token) → SpellsStmt (IfElseS x empty (LocalS false Y.Int f seven_tree 3) 3) ts → ⊥ }
    ensures repeated { SpellsStmt (WhileS x empty 3) (token T.While 3 ∷ token T.OpenParen 5 ∷ x_token ∷ token T.CloseParen 10 ∷ empty_token ∷ []) }
    ensures no_repeated_local { (ts : List Token) → SpellsStmt (WhileS x (LocalS false Y.Int f seven_tree 3) 3) ts → ⊥ }
    ensures locked { SpellsStmt (SyncS this_lock (one_stmt empty) 3)
        (token T.Synchronized 3 ∷ token T.OpenParen 4 ∷ token T.This 5 ∷ token T.CloseParen 6 ∷ token T.OpenBrace 7 ∷ empty_token ∷ token T.CloseBrace 9 ∷ []) }
    ensures returned { SpellsStmt (ReturnS None 3) (token T.Return 3 ∷ token T.Semicolon 9 ∷ []) }
    ensures value_returned { SpellsStmt (ReturnS (Some x) 3) (token T.Return 3 ∷ x_token ∷ token T.Semicolon 10 ∷ []) }
    ensures printed { SpellsStmt (PrintS x 3) (token T.System 3 ∷ token T.Dot 4 ∷ token T.Out 5 ∷ token T.Dot 6 ∷ token T.Println 7 ∷ token T.OpenParen 8 ∷ x_token ∷ token T.CloseParen 10 ∷ token T.Semicolon 11 ∷ []) }
    ensures started { SpellsStmt (StartS x 3) (token T.New 3 ∷ token T.Thread 4 ∷ token T.OpenParen 5 ∷ x_token ∷ token T.CloseParen 10 ∷ token T.Dot 11 ∷ token T.Start 12 ∷ token T.OpenParen 13 ∷ token T.CloseParen 14 ∷ token T.Semicolon 15 ∷ []) }
{}

/// Members, classes and programs. A final field has no guard, and `final` before a parameter of a constructor means nothing.
pub fn how_classes_are_spelled()
    ensures final_field { SpellsBare (field true Y.Int f) (token T.Final 3 ∷ token T.Int 4 ∷ f_token ∷ token T.Semicolon 12 ∷ []) }
    ensures plain_field { SpellsBare (field false Y.Int f) (token T.Int 4 ∷ f_token ∷ token T.Semicolon 12 ∷ []) }
    ensures guarded_field { SpellsBare (FieldM (record (field_tree false Y.Int f) { guard = Some this_lock })) (token T.Int 4 ∷ f_token ∷ token T.GuardedBy 12 ∷ token T.This 5 ∷ token T.Semicolon 14 ∷ []) }
    ensures write_guarded_field { SpellsBare (FieldM (record (field_tree false Y.Int f) { guard = Some this_lock; writes_only = true })) (token T.Int 4 ∷ f_token ∷ token T.WriteGuardedBy 12 ∷ token T.This 5 ∷ token T.Semicolon 14 ∷ []) }
    ensures no_guarded_final_field { (ts : List Token) → SpellsBare (FieldM (record (field_tree true Y.Int f) { guard = Some this_lock })) ts → ⊥ }
    ensures no_writes_without_guard { (ts : List Token) → SpellsBare (FieldM (record (field_tree false Y.Int f) { writes_only = true })) ts → ⊥ }
    ensures constructor { SpellsBare (CtorM x_name (param false Y.Int f ∷ param false Y.Boolean f ∷ []) ((f, x_name) ∷ []))
        (x_token ∷ token T.OpenParen 10 ∷ token T.Int 11 ∷ f_token ∷ token T.Comma 12 ∷ token T.Final 13 ∷ token T.Boolean 14 ∷ f_token ∷ token T.CloseParen 15 ∷ token T.OpenBrace 16
        ∷ token T.This 17 ∷ token T.Dot 18 ∷ f_token ∷ token T.Assign 19 ∷ x_token ∷ token T.Semicolon 20 ∷ token T.CloseBrace 21 ∷ []) }
    ensures no_final_parameter_of_a_constructor { (ts : List Token) → SpellsCtorParam (param true Y.Int f) ts → ⊥ }
    ensures final_parameter { SpellsParam (param true Y.Int f) (token T.Final 3 ∷ token T.Int 4 ∷ f_token ∷ []) }
    ensures plain_parameter { SpellsParam (param false Y.Int f) (token T.Int 4 ∷ f_token ∷ []) }
    ensures void_method { SpellsBare (MethodM (method_tree f [] None no_stmts)) (token T.Void 3 ∷ f_token ∷ token T.OpenParen 12 ∷ token T.CloseParen 13 ∷ token T.OpenBrace 14 ∷ token T.CloseBrace 99 ∷ []) }
    ensures method { SpellsBare (MethodM full_method)
        (token T.Atomic 2 ∷ token T.Int 3 ∷ f_token ∷ token T.OpenParen 12 ∷ token T.Final 13 ∷ token T.Int 14 ∷ x_token ∷ token T.CloseParen 15
        ∷ token T.Requires 16 ∷ token T.This 5 ∷ token T.Comma 17 ∷ x_token ∷ token T.OpenBrace 18 ∷ empty_token ∷ token T.CloseBrace 99 ∷ []) }
    ensures public_member { SpellsMember (field false Y.Int f) (token T.Public 2 ∷ token T.Int 4 ∷ f_token ∷ token T.Semicolon 12 ∷ []) }
    ensures plain_member { SpellsMember (field false Y.Int f) (token T.Int 4 ∷ f_token ∷ token T.Semicolon 12 ∷ []) }
    ensures class { SpellsClass (class_tree x_name []) (token T.Class 3 ∷ x_token ∷ token T.OpenBrace 10 ∷ token T.CloseBrace 11 ∷ []) }
    ensures class_below { SpellsClass (record (class_below x_name f (field false Y.Int f ∷ [])) { runnable = true })
        (token T.Public 2 ∷ token T.Class 3 ∷ x_token ∷ token T.Extends 10 ∷ f_token ∷ token T.Implements 12 ∷ token T.Runnable 13 ∷ token T.OpenBrace 14 ∷ token T.Int 15 ∷ f_token ∷ token T.Semicolon 16 ∷ token T.CloseBrace 17 ∷ []) }
    ensures no_class { Grammar [] [] }
    ensures two_classes { Grammar (token T.Class 3 ∷ x_token ∷ token T.OpenBrace 10 ∷ token T.CloseBrace 11 ∷ token T.Class 12 ∷ f_token ∷ token T.OpenBrace 13 ∷ token T.CloseBrace 14 ∷ [])
        (class_tree x_name [] ∷ class_tree f [] ∷ []) }
{}
