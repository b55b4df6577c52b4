//! Terminals of the grammar, operators, and which expressions and statements stand where.
ghost use Rattle.std.specs.Prelude.{◌≡◌, true, false, [], ◌∷◌, map, codes};
ghost use Rattle.std.specs.List.{list_all};
ghost use Rattle.lexer.specs.declared.tokens.TokenKind.TheVariants as token_kind;
ghost use Rattle.syntax.specs.declared.terminal.Terminal.TheVariants as T;
ghost use Rattle.syntax.specs.Grammar.{level, sign_of, loose, is_postfix, is_local, open_if, may_be_statement, offset};
ghost use Rattle.syntax.specs.Tokens.{spelling, terminal_kind, guard_word, same_kind, is, token, name_token, number_token};
ghost use Rattle.syntax.specs.Trees.{EmptyS, IfS, IfElseS, WhileS};
ghost use Rattle.front_examples.specs.Written.{all_ops, all_exprs, all_stmts, x_name, x};

/// How each terminal is written.
pub fn how_terminals_are_written()
    ensures members { map spelling (T.Public ∷ T.Class ∷ T.Extends ∷ T.Implements ∷ T.Runnable ∷ T.Final ∷ T.GuardedBy ∷ T.WriteGuardedBy ∷ T.This ∷ T.Atomic ∷ T.Void ∷ T.Requires ∷ T.Int ∷ T.Boolean ∷ []) ≡
        codes "public" ∷ codes "class" ∷ codes "extends" ∷ codes "implements" ∷ codes "Runnable" ∷ codes "final" ∷ codes "guarded_by" ∷ codes "write_guarded_by" ∷ codes "this"
        ∷ codes "atomic" ∷ codes "void" ∷ codes "requires" ∷ codes "int" ∷ codes "boolean" ∷ [] }
    ensures statements { map spelling (T.If ∷ T.Else ∷ T.While ∷ T.Synchronized ∷ T.Return ∷ T.System ∷ T.New ∷ T.Thread ∷ T.True ∷ T.False ∷ T.Null ∷ T.Out ∷ T.Println ∷ T.Start ∷ []) ≡
        codes "if" ∷ codes "else" ∷ codes "while" ∷ codes "synchronized" ∷ codes "return" ∷ codes "System" ∷ codes "new" ∷ codes "Thread" ∷ codes "true" ∷ codes "false"
        ∷ codes "null" ∷ codes "out" ∷ codes "println" ∷ codes "start" ∷ [] }
    ensures signs { map spelling (T.OpenParen ∷ T.CloseParen ∷ T.OpenBrace ∷ T.CloseBrace ∷ T.Semicolon ∷ T.Comma ∷ T.Dot ∷ T.Assign ∷ T.Bang ∷ []) ≡
        codes "(" ∷ codes ")" ∷ codes "{" ∷ codes "}" ∷ codes ";" ∷ codes "," ∷ codes "." ∷ codes "=" ∷ codes "!" ∷ [] }
    ensures operators { map (λ op. spelling (sign_of op)) all_ops ≡
        codes "||" ∷ codes "&&" ∷ codes "==" ∷ codes "!=" ∷ codes "<" ∷ codes "<=" ∷ codes ">" ∷ codes ">=" ∷ codes "+" ∷ codes "-" ∷ codes "*" ∷ codes "/" ∷ codes "%" ∷ [] }
    ensures guards { map (λ writes. spelling (guard_word writes)) (false ∷ true ∷ []) ≡ codes "guarded_by" ∷ codes "write_guarded_by" ∷ [] }
{}

/// Terminals are reserved words and signs, but for three names.
pub fn of_which_kind_terminals_are()
    ensures words { list_all (λ t. same_kind (terminal_kind t) token_kind.Word) (T.Public ∷ T.Class ∷ T.Extends ∷ T.Implements ∷ T.Runnable ∷ T.Final ∷ T.GuardedBy ∷ T.WriteGuardedBy ∷ T.This ∷ T.Atomic
        ∷ T.Void ∷ T.Requires ∷ T.Int ∷ T.Boolean ∷ T.If ∷ T.Else ∷ T.While ∷ T.Synchronized ∷ T.Return ∷ T.System ∷ T.New ∷ T.Thread ∷ T.True ∷ T.False ∷ T.Null ∷ []) ≡ true }
    ensures names { map terminal_kind (T.Out ∷ T.Println ∷ T.Start ∷ []) ≡ token_kind.Name ∷ token_kind.Name ∷ token_kind.Name ∷ [] }
    ensures signs { list_all (λ t. same_kind (terminal_kind t) token_kind.Sign) (T.OpenParen ∷ T.CloseParen ∷ T.OpenBrace ∷ T.CloseBrace ∷ T.Semicolon ∷ T.Comma ∷ T.Dot ∷ T.Assign ∷ T.EqualTo ∷ T.NotEqual
        ∷ T.Less ∷ T.LessEqual ∷ T.Greater ∷ T.GreaterEqual ∷ T.Plus ∷ T.Minus ∷ T.Star ∷ T.Slash ∷ T.Percent ∷ T.Bang ∷ T.AndAnd ∷ T.OrOr ∷ []) ≡ true }
    ensures one_kind { map (same_kind token_kind.Name) (token_kind.Name ∷ token_kind.Word ∷ token_kind.Number 1 ∷ token_kind.Sign ∷ []) ≡ true ∷ false ∷ false ∷ false ∷ [] }
    ensures other_kind { map (same_kind token_kind.Word) (token_kind.Name ∷ token_kind.Word ∷ token_kind.Number 1 ∷ token_kind.Sign ∷ []) ≡ false ∷ true ∷ false ∷ false ∷ [] }
    ensures third_kind { map (same_kind token_kind.Sign) (token_kind.Name ∷ token_kind.Word ∷ token_kind.Number 1 ∷ token_kind.Sign ∷ []) ≡ false ∷ false ∷ false ∷ true ∷ [] }
    ensures no_numbers { map (same_kind (token_kind.Number 1)) (token_kind.Name ∷ token_kind.Word ∷ token_kind.Number 1 ∷ token_kind.Sign ∷ []) ≡ false ∷ false ∷ false ∷ false ∷ [] }
    ensures terminal { is T.If (token T.If 7) ≡ true }
    ensures other_terminal { is T.If (token T.Else 7) ≡ false }
    ensures other_text { is T.Out (name_token x_name) ≡ false }
    ensures other_kind_of_token { is T.Out (record { kind = token_kind.Word; text = codes "out"; at = 0 }) ≡ false }
    ensures terminal_token { token T.Dot 7 ≡ record { kind = token_kind.Sign; text = codes "."; at = 7 } }
    ensures name { name_token x_name ≡ record { kind = token_kind.Name; text = codes "x"; at = 9 } }
    ensures number { number_token 7 (codes "7") 3 ≡ record { kind = token_kind.Number 7; text = codes "7"; at = 3 } }
    ensures first_offset { offset (token T.Dot 7 ∷ token T.Dot 8 ∷ []) ≡ 7 }
    ensures no_offset { offset [] ≡ 0 }
{}

/// How loosely operators bind, from `||` down to `* / %`; any other expression binds tightest. A `.` may follow what is no operation.
pub fn how_expressions_bind()
    ensures operators { map level all_ops ≡ 6 ∷ 5 ∷ 4 ∷ 4 ∷ 3 ∷ 3 ∷ 3 ∷ 3 ∷ 2 ∷ 2 ∷ 1 ∷ 1 ∷ 1 ∷ [] }
    ensures expressions { map loose all_exprs ≡ 0 ∷ 0 ∷ 0 ∷ 0 ∷ 0 ∷ 0 ∷ 0 ∷ 0 ∷ 0 ∷ 2 ∷ 0 ∷ 0 ∷ 0 ∷ [] }
    ensures postfixes { map is_postfix all_exprs ≡ true ∷ false ∷ true ∷ true ∷ true ∷ true ∷ true ∷ false ∷ false ∷ false ∷ true ∷ true ∷ true ∷ [] }
    ensures calls { map may_be_statement all_exprs ≡ false ∷ false ∷ false ∷ false ∷ false ∷ false ∷ false ∷ false ∷ false ∷ false ∷ false ∷ true ∷ true ∷ [] }
{}

/// A declaration stands in blocks alone, and what ends in an `if` without `else` not before an `else`.
pub fn where_statements_stand()
    ensures locals { map is_local all_stmts ≡ false ∷ false ∷ true ∷ false ∷ false ∷ false ∷ false ∷ false ∷ false ∷ false ∷ false ∷ false ∷ false ∷ [] }
    ensures open_ifs { map open_if all_stmts ≡ false ∷ false ∷ false ∷ false ∷ false ∷ false ∷ true ∷ false ∷ false ∷ false ∷ false ∷ false ∷ false ∷ [] }
    ensures in_an_else { open_if (IfElseS x (EmptyS 0) (IfS x (EmptyS 0) 0) 0) ≡ true }
    ensures in_a_then { open_if (IfElseS x (IfS x (EmptyS 0) 0) (EmptyS 0) 0) ≡ false }
    ensures in_a_loop { open_if (WhileS x (IfS x (EmptyS 0) 0) 0) ≡ true }
{}
