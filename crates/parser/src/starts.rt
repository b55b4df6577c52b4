//! The tokens with which statements begin.

ghost use Rattle.std.specs.Prelude.{◌≡◌, ◌&&◌};
ghost use Rattle.parser.specs.Combine.{starts};
ghost use Rattle.parser.specs.Words.{is_name};
ghost use Rattle.parser.specs.Statements.{begins_statement as may_begin_statement, block_goes_on as may_go_on, begins_local};

use crate::lexeme::Lexeme;
use crate::tokens::{is_leaf, is_name_token};
use syntax::Terminal;

fn begins_local_token(token: &Lexeme) -> bool
    ensures { result ≡ begins_local token.now }
{
    token.is(Terminal::Final) || token.is(Terminal::Int) || token.is(Terminal::Boolean)
}

#[tactic(auto, unfolding(crate::specs::Statements::begins_statement))]
fn begins_statement_token(token: &Lexeme, in_block: bool) -> bool
    ensures { result ≡ may_begin_statement in_block token.now }
{
    token.is(Terminal::OpenBrace)
        || token.is(Terminal::Semicolon)
        || token.is(Terminal::If)
        || token.is(Terminal::While)
        || token.is(Terminal::Synchronized)
        || token.is(Terminal::Return)
        || token.is(Terminal::System)
        || token.is(Terminal::New)
        || token.is(Terminal::OpenParen)
        || is_leaf(token)
        || (in_block && begins_local_token(token))
}

/// Whether a token that may begin a statement stands first; in a block it may be a declaration.
pub fn begins_statement(tokens: &[Lexeme], in_block: bool) -> bool
    ensures { result ≡ starts (may_begin_statement in_block) tokens.now }
{
    match tokens {
        [token, ..] => begins_statement_token(token, in_block),
        [] => false,
    }
}

/// Whether a declaration may stand here and a token that begins one does.
pub fn begins_declaration(tokens: &[Lexeme], in_block: bool) -> bool
    ensures { result ≡ starts (λ x. in_block && begins_local x) tokens.now }
{
    match tokens {
        [token, ..] => in_block && begins_local_token(token),
        [] => false,
    }
}

/// Whether a declaration may stand here and a second name says that it does.
pub fn begins_second_name(tokens: &[Lexeme], in_block: bool) -> bool
    ensures { result ≡ starts (λ x. in_block && is_name x) tokens.now }
{
    match tokens {
        [token, ..] => in_block && is_name_token(token),
        [] => false,
    }
}

/// Whether something stands before the closing brace.
pub fn goes_on(tokens: &[Lexeme]) -> bool
    ensures { result ≡ starts may_go_on tokens.now }
{
    match tokens {
        [token, ..] => !token.is(Terminal::CloseBrace),
        [] => false,
    }
}
