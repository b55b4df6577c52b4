//! Reads the text and the tree of a source, or tells its first fault.

ghost use Rattle.std.specs.Prelude.{◌≡◌, ◌≤◌, ◌⊎◌, length, MatchResult};
ghost use Rattle.std.specs.Str.{IsValidUpTo};
ghost use Rattle.lexer.specs.Limits.{longest_source};
ghost use Rattle.lexer.specs.Tokens.{Tokens, FirstFault};
ghost use Rattle.syntax.specs.Faults.{IsUnexpected, IsTooDeep};
ghost use Rattle.syntax.specs.Views.{program_tree};
ghost use Rattle.sources.specs.Refusals.{IsRightEnd};
ghost use Rattle.sources.specs.Programs.{IsProgram, NoProgram, token_offset};

use crate::refusal::{SourceEnd, refuse};
use lexer::{LexFault, NotText, Token, lex, utf8_text};
use parser::{ParseFault, parse};
use report::SourceFault;
use std::alloc::Global;
use syntax::Program;

fn not_text(bytes: &[u8], fault: NotText) -> SourceEnd
    requires small { length bytes.now ≤ longest_source }
    requires front { IsValidUpTo bytes.now fault.at }
    ensures { IsRightEnd (NoProgram bytes.now) result }
{
    let Ok(front) = utf8_text(&bytes[..fault.at as usize]) else {
        unreachable!()
    };
    refuse(front, &SourceFault::Text(fault))
}

/// The text that the bytes of a source are. Takes no memory.
pub fn text_of(bytes: &[u8]) -> Result<&str, SourceEnd>
    requires { length bytes.now ≤ longest_source }
    ensures { MatchResult result (λ text. text.now ≡ bytes.now) (IsRightEnd (NoProgram bytes.now)) }
{
    match utf8_text(bytes) {
        Ok(text) => Ok(text),
        Err(fault) => Err(not_text(bytes, fault)),
    }
}

fn no_tokens(text: &str, fault: LexFault) -> SourceEnd
    requires small { length text.now ≤ longest_source }
    requires first { FirstFault text.now fault }
    ensures { IsRightEnd (NoProgram text.now) result }
{
    refuse(text, &SourceFault::Lex(fault))
}

/// The tokens of a text.
fn tokens_of<'a>(alloc: Global, text: &'a str) -> Result<Vec<Token<'a>>, SourceEnd>
    requires { length text.now ≤ longest_source }
    ensures { MatchResult result (λ tokens. Tokens text.now tokens.items) (IsRightEnd (NoProgram text.now)) }
{
    match lex(alloc, text) {
        Ok(tokens) => Ok(tokens),
        Err(LexFault::NoMemory) => Err(SourceEnd::NoMemory),
        Err(fault) => Err(no_tokens(text, fault)),
    }
}

/// The offset of a token, or the length of the text for its end.
fn offset_of(text: &str, tokens: &[Token], place: u32) -> u32
    requires { length text.now ≤ longest_source }
    ensures { result ≡ token_offset text.now tokens.now place }
{
    match tokens.get(place as usize) {
        Some(token) => token.at,
        None => text.len() as u32,
    }
}

/// The end of a text for a fault at one of its tokens.
fn no_tree(text: &str, tokens: &[Token], fault: ParseFault, place: u32) -> SourceEnd
    requires small { length text.now ≤ longest_source }
    requires cut { Tokens text.now tokens.now }
    requires stands { ((fault ≡ ParseFault.Unexpected place) × IsUnexpected tokens.now place) ⊎ ((fault ≡ ParseFault.TooDeep place) × IsTooDeep tokens.now place) }
    ensures { IsRightEnd (NoProgram text.now) result }
{
    let at = offset_of(text, tokens, place);
    refuse(text, &SourceFault::Parse { fault, at })
}

/// The tree that the grammar relates to the tokens of a text.
pub fn tree_of<'a>(alloc: Global, text: &'a str) -> Result<Program<'a>, SourceEnd>
    requires { length text.now ≤ longest_source }
    ensures { MatchResult result (λ tree. IsProgram text.now (program_tree tree)) (IsRightEnd (NoProgram text.now)) }
{
    let tokens = tokens_of(alloc, text)?;
    match parse(alloc, tokens.as_slice()) {
        Ok(tree) => Ok(tree),
        Err(ParseFault::NoMemory) => Err(SourceEnd::NoMemory),
        Err(ParseFault::Unexpected(place)) => {
            let fault = ParseFault::Unexpected(place);
            Err(no_tree(text, tokens.as_slice(), fault, place))
        }
        Err(ParseFault::TooDeep(place)) => {
            let fault = ParseFault::TooDeep(place);
            Err(no_tree(text, tokens.as_slice(), fault, place))
        }
    }
}
