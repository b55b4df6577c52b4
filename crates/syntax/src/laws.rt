//! Where the names of a tree stand.

ghost use Rattle.std.specs.Prelude.{ℕ, List};
ghost use Rattle.std.specs.List.{All, Contains};
ghost use Rattle.lexer.specs.declared.tokens.Token.{Token};
ghost use Rattle.lexer.specs.Tokens.{IsSlice, Tokens};
ghost use Rattle.syntax.specs.Grammar.{Grammar};
ghost use Rattle.syntax.specs.Names.{names_of_program};
ghost use Rattle.syntax.specs.Tokens.{name_token};
ghost use Rattle.syntax.specs.Trees.{ProgramTree};

use lexer::token_laws;

/// Each name of a tree is the text of a token, at its offset, and so it is the slice of the source there.
pub fn name_laws()
    ensures of_tokens { (tree : ProgramTree) (ts : List Token) → Grammar ts tree → All (λ n. Contains ts (name_token n)) (names_of_program tree) }
    ensures slices { (source : List ℕ) (tree : ProgramTree) (ts : List Token) → Tokens source ts → Grammar ts tree
        → All (λ n. IsSlice source (name_token n)) (names_of_program tree) }
{
    token_laws();
}
