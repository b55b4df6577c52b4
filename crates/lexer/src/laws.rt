//! What holds of the tokens of every text.

ghost use Rattle.std.specs.Prelude.{◌≡◌, ℕ, ◌+◌, ◌⊎◌, true, List, ◌∷◌, ◌++◌, length, All};
ghost use Rattle.lexer.specs.declared.tokens.Token.{Token};
ghost use Rattle.lexer.specs.declared.faults.LexFault.{LexFault};
ghost use Rattle.lexer.specs.Tokens.{Tokens, FirstFault, LaidFrom, IsSlice, Ascend, IsOfKind, TokensFrom};
ghost use Rattle.lexer.specs.declared.tokens.TokenKind.{TokenKind};
ghost use Rattle.lexer.specs.Pieces.{is_blank, is_blanks};
ghost use Rattle.lexer.specs.Written.{stops, may_follow};

/// A text has at most one list of tokens or one first fault, and its tokens are slices of it in order, with blanks and comments between them.
pub fn token_laws()
    ensures one_list { (text : List ℕ) (ts us : List Token) → Tokens text ts → Tokens text us → ts ≡ us }
    ensures one_fault { (text : List ℕ) (f g : LexFault) → FirstFault text f → FirstFault text g → f ≡ g }
    ensures never_both { (text : List ℕ) (ts : List Token) (its : LexFault) → Tokens text ts → FirstFault text its → ⊥ }
    ensures no_memory_fault { (text : List ℕ) → FirstFault text LexFault.NoMemory → ⊥ }
    ensures told { (text : List ℕ) → ((ts : List Token) × Tokens text ts) ⊎ ((its : LexFault) × FirstFault text its) }
    ensures laid { (text : List ℕ) (ts : List Token) → Tokens text ts → LaidFrom text 0 ts }
    ensures kinds { (text : List ℕ) (ts : List Token) → Tokens text ts → All (λ t. IsOfKind t.kind t.text) ts }
    ensures slices { (text : List ℕ) (ts : List Token) → Tokens text ts → All (IsSlice text) ts }
    ensures ascend { (text : List ℕ) (ts : List Token) → Tokens text ts → Ascend 0 ts }
{}

/// How the tokens of a written text are told, from its end to its start: for those who print sources.
pub fn writing_laws()
    ensures token { (kind : TokenKind) (bytes rest : List ℕ) (at : ℕ) (ts : List Token) → IsOfKind kind bytes → may_follow kind bytes rest ≡ true
        → TokensFrom rest (at + length bytes) ts → TokensFrom (bytes ++ rest) at (record { kind = kind; text = bytes; at = at } ∷ ts) }
    ensures blanks { (bytes rest : List ℕ) (at : ℕ) (ts : List Token) → is_blanks bytes ≡ true → stops is_blank rest ≡ true
        → TokensFrom rest (at + length bytes) ts → TokensFrom (bytes ++ rest) at ts }
{}
