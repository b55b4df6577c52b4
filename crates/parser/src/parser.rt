//! From tokens to a tree.

ghost use Rattle.std.specs.Prelude.{◌≡◌, ℕ, ◌≤◌, length, List, IfOk, IsErrOf, MatchResult};
ghost use Rattle.std.specs.List.{All, Contains};
ghost use Rattle.syntax.specs.Faults.{IsTooDeep, IsUnexpected};
ghost use Rattle.syntax.specs.Grammar.{Grammar};
ghost use Rattle.syntax.specs.Limits.{most_tokens};
ghost use Rattle.syntax.specs.Names.{names_of_program};
ghost use Rattle.syntax.specs.Tokens.{name_token};
ghost use Rattle.syntax.specs.Trees.{ProgramTree};
ghost use Rattle.syntax.specs.Views.{program_tree};

use crate::faults::ParseFault;
use crate::lexeme::{Lexeme, lexemes};
use crate::program::classes;
use crate::stop::{Stop, SyntaxFault};
use lexer::Token;
use std::alloc::Global;
use syntax::Program;

/// The tree of the tokens.
///
/// The grammar is Java's of classes, statements and expressions, restated for a small language; an `else` belongs to the
/// nearest `if`. A text may have both faults, at different places; then either may be told. The depth of the recursion is
/// bounded by the limit of height, and the work is linear in the number of tokens.
pub fn parse<'a>(alloc: Global, tokens: &[Token<'a>]) -> Result<Program<'a>, ParseFault>
    requires { length tokens.now ≤ most_tokens }
    // What is answered is in the grammar.
    ensures found { IfOk result (λ program. Grammar tokens.now (program_tree program)) }
    // What is in the grammar is answered, unless memory runs out.
    ensures only { (tree : ProgramTree) → Grammar tokens.now tree →
        MatchResult result (λ program. program_tree program ≡ tree) (λ fault. fault ≡ ParseFault.NoMemory) }
    // Each name is the text of a token at its offset, and so a slice of the source.
    ensures names { IfOk result (λ program. All (λ n. Contains tokens.now (name_token n)) (names_of_program (program_tree program))) }
    ensures unexpected { (place : ℕ) → IsErrOf result (ParseFault.Unexpected place) → IsUnexpected tokens.now place }
    ensures too_deep { (place : ℕ) → IsErrOf result (ParseFault.TooDeep place) → IsTooDeep tokens.now place }
{
    match lexemes(alloc, tokens) {
        Ok(lexemes) => read(alloc, lexemes.as_slice()),
        Err(_) => Err(ParseFault::NoMemory),
    }
}

/// The tree of the lexemes.
#[tactic(auto, using(crate::proofs::Whole::read_right, crate::proofs::Whole::read_only, crate::proofs::Whole::unexpected_right, crate::proofs::Whole::deep_right, crate::proofs::Whole::place_fits))]
fn read<'a>(alloc: Global, tokens: &[Lexeme<'a>]) -> Result<Program<'a>, ParseFault>
    requires { length tokens.now ≤ most_tokens }
    ensures found { IfOk result (λ program. Grammar tokens.now (program_tree program)) }
    ensures only { (tree : ProgramTree) → Grammar tokens.now tree →
        MatchResult result (λ program. program_tree program ≡ tree) (λ fault. fault ≡ ParseFault.NoMemory) }
    ensures names { IfOk result (λ program. All (λ n. Contains tokens.now (name_token n)) (names_of_program (program_tree program))) }
    ensures unexpected { (place : ℕ) → IsErrOf result (ParseFault.Unexpected place) → IsUnexpected tokens.now place }
    ensures too_deep { (place : ℕ) → IsErrOf result (ParseFault.TooDeep place) → IsTooDeep tokens.now place }
{
    match classes(alloc, tokens) {
        Ok((classes, _)) => Ok(Program { classes }),
        Err(Stop::Memory) => Err(ParseFault::NoMemory),
        Err(Stop::Fault(fault, rest)) => {
            let place = (tokens.len() - rest.len()) as u32;
            match fault {
                SyntaxFault::Unexpected => Err(ParseFault::Unexpected(place)),
                SyntaxFault::TooDeep => Err(ParseFault::TooDeep(place)),
            }
        }
    }
}

/// The laws of what `parse` answers: tokens have at most one tree, and at most one of them is the unexpected one.
pub fn parse_laws()
    ensures one_tree { (tokens : List Token) (one other : ProgramTree) → Grammar tokens one → Grammar tokens other → one ≡ other }
    ensures one_place { (tokens : List Token) (one other : ℕ) → IsUnexpected tokens one → IsUnexpected tokens other → one ≡ other }
{}
