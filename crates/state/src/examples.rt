//! Examples of how work lists are opened.
ghost use Rattle.std.specs.Prelude.{◌≡◌, [], ◌∷◌, Some, None};
ghost use Rattle.core_program.specs.Core.{Stmt, EmptyS, BlockS, SyncS, ReturnS, WhileS, Expr, ThisE, no_stmts, and_stmt};
ghost use Rattle.state.specs.declared.value.Address.{Address};
ghost use Rattle.state.specs.Work.{Ex, St, Act, Load, Get, Acquire, Release, Loop, Ret, unfolded};

/// Empty statements and blocks open into nothing, a `synchronized` into reads of its lock, and a `return` inside
/// two of them into the first release.
pub fn how_work_is_opened()
    ensures nothing { unfolded (St (BlockS (and_stmt EmptyS no_stmts)) ∷ St EmptyS ∷ []) ≡ None }
    ensures next { (e : Expr) → unfolded (St (BlockS no_stmts) ∷ Ex ThisE ∷ Ex e ∷ []) ≡ Some (Load 0, Ex e ∷ []) }
    ensures synchronized { (s : Stmt) → unfolded (St (SyncS (record { root = 2; fields = 5 ∷ 6 ∷ [] }) s) ∷ []) ≡
        Some (Load 2, Act (Get 5) ∷ Act (Get 6) ∷ Act (Acquire s) ∷ []) }
    ensures repeated { (s : Stmt) → unfolded (St (WhileS ThisE s) ∷ []) ≡ Some (Load 0, Act (Loop ThisE s) ∷ []) }
    ensures out_of_two { (a b : Address) (s : Stmt) → unfolded (St (ReturnS None) ∷ St s ∷ Act (Release a) ∷ St s ∷ Act (Release b) ∷ Act Ret ∷ []) ≡
        Some (Release a, Act Ret ∷ St s ∷ Act (Release b) ∷ Act Ret ∷ []) }
{}
