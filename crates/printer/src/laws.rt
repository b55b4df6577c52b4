//! What holds of canonical text.

ghost use Rattle.std.specs.Prelude.{ℕ, List};
ghost use Rattle.lexer.specs.declared.tokens.Token.{Token};
ghost use Rattle.lexer.specs.Tokens.{Tokens};
ghost use Rattle.syntax.specs.Grammar.{Grammar};
ghost use Rattle.printer.specs.Printing.{canonical, program_lexemes};
ghost use Rattle.printer.specs.Reprinted.{AreLexemes, AreTokensOf, ReadsBack};
ghost use Rattle.syntax.specs.Trees.{ProgramTree};

/// The canonical text of a tree is cut into the tree's tokens again, and the canonical text of a tree that some source
/// has reads back as that tree but for offsets. Both hold however long the text is.
pub fn printing_laws()
    ensures cut { (tree : ProgramTree) → AreLexemes (program_lexemes tree) → (ts : List Token) × Tokens (canonical tree) ts × AreTokensOf (program_lexemes tree) ts }
    ensures reads_back { (tree : ProgramTree) (source : List ℕ) (ts : List Token) → Tokens source ts → Grammar ts tree → ReadsBack (canonical tree) tree }
{}
