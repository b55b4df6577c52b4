//! The tokens of whole texts, and their first faults: each piece is the longest that begins where the one before it ends.
ghost use Rattle.std.specs.Prelude.{◌++◌, [], ◌∷◌, codes, replicate};
ghost use Rattle.lexer.specs.declared.tokens.TokenKind.TheVariants as kind;
ghost use Rattle.lexer.specs.declared.faults.LexFault.TheVariants as fault;
ghost use Rattle.lexer.specs.Tokens.{Tokens, FirstFault};
ghost use Rattle.front_examples.specs.Cut.{token_cut};

/// Words, names, numbers and signs; blanks and comments are none.
pub fn which_tokens_texts_have()
    ensures nothing { Tokens (codes "") [] }
    ensures blanks { Tokens (codes " \t\n /**/ //") [] }
    ensures local { Tokens (codes "int a9=10; // x") (token_cut kind.Word (codes "int") 0 ∷ token_cut kind.Name (codes "a9") 4 ∷ token_cut kind.Sign (codes "=") 6 ∷ token_cut (kind.Number 10) (codes "10") 7 ∷ token_cut kind.Sign (codes ";") 9 ∷ []) }
    ensures zeros { Tokens (codes "007") (token_cut (kind.Number 0) (codes "0") 0 ∷ token_cut (kind.Number 0) (codes "0") 1 ∷ token_cut (kind.Number 7) (codes "7") 2 ∷ []) }
    ensures minuses { Tokens (codes "a---b") (token_cut kind.Name (codes "a") 0 ∷ token_cut kind.Sign (codes "--") 1 ∷ token_cut kind.Sign (codes "-") 3 ∷ token_cut kind.Name (codes "b") 4 ∷ []) }
    ensures equals { Tokens (codes "<===") (token_cut kind.Sign (codes "<=") 0 ∷ token_cut kind.Sign (codes "==") 2 ∷ []) }
    ensures word_in_a_name { Tokens (codes "ifx/*/ */if") (token_cut kind.Name (codes "ifx") 0 ∷ token_cut kind.Word (codes "if") 9 ∷ []) }
    ensures line_comment { Tokens (codes "a//b\nc") (token_cut kind.Name (codes "a") 0 ∷ token_cut kind.Name (codes "c") 5 ∷ []) }
    ensures number_before_a_name { Tokens (codes "1a") (token_cut (kind.Number 1) (codes "1") 0 ∷ token_cut kind.Name (codes "a") 1 ∷ []) }
    ensures quotient { Tokens (codes "a/b") (token_cut kind.Name (codes "a") 0 ∷ token_cut kind.Sign (codes "/") 1 ∷ token_cut kind.Name (codes "b") 2 ∷ []) }
    ensures longest_name { Tokens (replicate 64 97) (token_cut kind.Name (replicate 64 97) 0 ∷ []) }
{}

/// The first fault from the left.
pub fn which_fault_comes_first()
    ensures character { FirstFault (codes "a $") (fault.BadCharacter 2) }
    ensures half_a_sign { FirstFault (codes "&&&") (fault.BadCharacter 2) }
    ensures open_comment { FirstFault (codes "a /* b*") (fault.OpenComment 2) }
    ensures closed_too_early { FirstFault (codes "/*/") (fault.OpenComment 0) }
    ensures number { FirstFault (codes "1 2147483649") (fault.LiteralTooLarge 2) }
    ensures name { FirstFault (codes ";" ++ replicate 65 97) (fault.NameTooLong 1) }
    ensures leftmost { FirstFault (codes "# /*") (fault.BadCharacter 0) }
    ensures none { FirstFault (codes "a") (fault.BadCharacter 0) → ⊥ }
{}
