//! How the first item of a work list is opened until it is an action.
ghost use Rattle.std.specs.Prelude.{◌≡◌, pos, true, false, [], ◌∷◌, Some, None};
ghost use Rattle.core_program.specs.declared.types.CoreOp.TheVariants.{Sub};
ghost use Rattle.core_program.specs.declared.types.UnaryOp.TheVariants.{Not, Neg};
ghost use Rattle.core_program.specs.declared.types.CoreType.TheVariants as type;
ghost use Rattle.core_program.specs.Core.{Stmt, IntE, TruthE, NullE, ThisE, VarE, NotE, NegE, BinaryE, AndE, OrE, GetE, CallE, NewE, no_exprs, and_expr};
ghost use Rattle.core_program.specs.Core.{EmptyS, BlockS, LocalS, SetVarS, SetFieldS, DoS, IfS, WhileS, SyncS, ReturnS, PrintS, StartS, no_stmts, and_stmt};
ghost use Rattle.state.specs.declared.value.Value.TheVariants as value;
ghost use Rattle.state.specs.Work.{Ex, St, Act, Push, Load, Store, Drop, Unary, Binary, AndThen, OrElse, Choose, Loop, Get, Put, New, Call, Acquire, Release, Ret, Print, Start, unfolded};
ghost use Rattle.core_examples.specs.Fields.{path};
ghost use Rattle.core_examples.specs.Seen.{here, there, seven, rest};
ghost use Rattle.core_examples.specs.Small.{one, two, three};

/// An expression opens into its parts from left to right, and then its own action.
pub fn how_expressions_open()
    ensures number { unfolded (Ex (IntE (pos 7)) ∷ rest) ≡ Some (Push seven, rest) }
    ensures truth { unfolded (Ex (TruthE true) ∷ rest) ≡ Some (Push (value.Truth true), rest) }
    ensures null { unfolded (Ex NullE ∷ rest) ≡ Some (Push value.Null, rest) }
    ensures this { unfolded (Ex ThisE ∷ rest) ≡ Some (Load 0, rest) }
    ensures variable { unfolded (Ex (VarE 3 false type.Int) ∷ rest) ≡ Some (Load 3, rest) }
    ensures opposite { unfolded (Ex (NotE ThisE) ∷ rest) ≡ Some (Load 0, Act (Unary Not) ∷ rest) }
    ensures negated { unfolded (Ex (NegE ThisE) ∷ rest) ≡ Some (Load 0, Act (Unary Neg) ∷ rest) }
    ensures difference { unfolded (Ex (BinaryE Sub ThisE two) ∷ rest) ≡ Some (Load 0, Ex two ∷ Act (Binary Sub) ∷ rest) }
    ensures both { unfolded (Ex (AndE ThisE two) ∷ rest) ≡ Some (Load 0, Act (AndThen two) ∷ rest) }
    ensures either { unfolded (Ex (OrE ThisE two) ∷ rest) ≡ Some (Load 0, Act (OrElse two) ∷ rest) }
    ensures read { unfolded (Ex (GetE ThisE 5) ∷ rest) ≡ Some (Load 0, Act (Get 5) ∷ rest) }
    ensures call { unfolded (Ex (CallE ThisE 6 (and_expr two (and_expr three no_exprs))) ∷ rest) ≡ Some (Load 0, Ex two ∷ Ex three ∷ Act (Call 6) ∷ rest) }
    ensures new_object { unfolded (Ex (NewE 4 (and_expr ThisE (and_expr two no_exprs))) ∷ rest) ≡ Some (Load 0, Ex two ∷ Act (New 4) ∷ rest) }
    ensures plain_new_object { unfolded (Ex (NewE 4 no_exprs) ∷ rest) ≡ Some (New 4, rest) }
    ensures parts_in_parts { unfolded (Ex (GetE (BinaryE Sub ThisE two) 5) ∷ rest) ≡ Some (Load 0, Ex two ∷ Act (Binary Sub) ∷ Act (Get 5) ∷ rest) }
{}

/// A statement opens into its expressions and then its own action; an empty one and an empty block into what stands after them.
pub fn how_statements_open()
    ensures empty { unfolded (St EmptyS ∷ Act (Load 9) ∷ rest) ≡ Some (Load 9, rest) }
    ensures empty_block { unfolded (St (BlockS no_stmts) ∷ Act (Load 9) ∷ rest) ≡ Some (Load 9, rest) }
    ensures block { (s u : Stmt) → unfolded (St (BlockS (and_stmt (PrintS ThisE) (and_stmt s (and_stmt u no_stmts)))) ∷ rest) ≡ Some (Load 0, Act Print ∷ St s ∷ St u ∷ rest) }
    ensures empty_first { (s : Stmt) → unfolded (St (BlockS (and_stmt EmptyS (and_stmt (PrintS ThisE) (and_stmt s no_stmts)))) ∷ rest) ≡ Some (Load 0, Act Print ∷ St s ∷ rest) }
    ensures local { unfolded (St (LocalS 3 true type.Int ThisE) ∷ rest) ≡ Some (Load 0, Act (Store 3) ∷ rest) }
    ensures assigned { unfolded (St (SetVarS 3 ThisE) ∷ rest) ≡ Some (Load 0, Act (Store 3) ∷ rest) }
    ensures written { unfolded (St (SetFieldS ThisE 5 two) ∷ rest) ≡ Some (Load 0, Ex two ∷ Act (Put 5) ∷ rest) }
    ensures dropped { unfolded (St (DoS ThisE true) ∷ rest) ≡ Some (Load 0, Act Drop ∷ rest) }
    ensures done { unfolded (St (DoS ThisE false) ∷ rest) ≡ Some (Load 0, rest) }
    ensures branches { (s u : Stmt) → unfolded (St (IfS ThisE s u) ∷ rest) ≡ Some (Load 0, Act (Choose s u) ∷ rest) }
    ensures repeated { (s : Stmt) → unfolded (St (WhileS ThisE s) ∷ rest) ≡ Some (Load 0, Act (Loop ThisE s) ∷ rest) }
    ensures lock { (s : Stmt) → unfolded (St (SyncS (path 2 (5 ∷ 6 ∷ [])) s) ∷ rest) ≡ Some (Load 2, Act (Get 5) ∷ Act (Get 6) ∷ Act (Acquire s) ∷ rest) }
    ensures lock_of_this { (s : Stmt) → unfolded (St (SyncS (path 0 []) s) ∷ rest) ≡ Some (Load 0, Act (Acquire s) ∷ rest) }
    ensures returned { unfolded (St (ReturnS (Some ThisE)) ∷ rest) ≡ Some (Load 0, Act Ret ∷ rest) }
    ensures returned_nothing { unfolded (St (ReturnS None) ∷ rest) ≡ Some (Ret, rest) }
    ensures printed { unfolded (St (PrintS ThisE) ∷ rest) ≡ Some (Load 0, Act Print ∷ rest) }
    ensures started { unfolded (St (StartS ThisE) ∷ rest) ≡ Some (Load 0, Act Start ∷ rest) }
    ensures nothing_left { unfolded [] ≡ None }
    ensures nothing_but_empty { unfolded (St EmptyS ∷ St (BlockS no_stmts) ∷ []) ≡ None }
{}

/// A return first gives back the locks of the blocks that it leaves, the innermost first, and skips what else was left to do.
pub fn how_returns_open()
    ensures one_lock { unfolded (St (ReturnS None) ∷ Act Print ∷ Ex one ∷ Act (Release here) ∷ St EmptyS ∷ rest) ≡ Some (Release here, Act Ret ∷ St EmptyS ∷ rest) }
    ensures innermost { unfolded (Act Ret ∷ Act (Release there) ∷ Act (Release here) ∷ rest) ≡ Some (Release there, Act Ret ∷ Act (Release here) ∷ rest) }
    ensures no_lock { unfolded (Act Ret ∷ Act Print ∷ rest) ≡ Some (Ret, Act Print ∷ rest) }
    ensures other_action { unfolded (Act Print ∷ Act (Release here) ∷ rest) ≡ Some (Print, Act (Release here) ∷ rest) }
    ensures value_first { unfolded (St (ReturnS (Some ThisE)) ∷ Act (Release here) ∷ rest) ≡ Some (Load 0, Act Ret ∷ Act (Release here) ∷ rest) }
{}
