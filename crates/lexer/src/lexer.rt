//! Cuts a source into its tokens.

ghost use Rattle.std.specs.Prelude.{◌≡◌, ◌+◌, ◌<◌, ◌≤◌, ◌++◌, ◌⊎◌, true, List, length, nat_lt, Option, Some, None, Ok, IfOk, IfErr, MatchResult, OnOk, IsUtf8, take, drop, if◌then◌else◌};
ghost use Rattle.std.specs.Str.Parse.{digits_value};
ghost use Rattle.lexer.specs.declared.tokens.Token.{Token};
ghost use Rattle.lexer.specs.declared.faults.LexFault.{LexFault};
ghost use Rattle.lexer.specs.Limits.{greatest_literal, longest_source};
ghost use Rattle.lexer.specs.Pieces.{is_piece, is_number};
ghost use Rattle.lexer.specs.Tokens.{word_kind, meaning, Tokens, FirstFault, FaultFrom, Longest};
ghost use Rattle.lexer.specs.Reading.{longest_piece as find, IsCut, tokens_of};

use crate::faults::LexFault;
use crate::pieces::{Front, Piece, find_front};
use crate::tokens::{Token, TokenKind};
use crate::words::is_reserved;
use std::alloc::{AllocError as NoMemory, Global};

/// How many bytes a source may have. Whoever reads a source sees to it.
pub const LONGEST_SOURCE: u32 = 262_144;

/// The greatest number that a source may write.
pub const GREATEST_LITERAL: u32 = 2_147_483_648;

/// How many bytes a word may have.
const LONGEST_WORD: usize = 64;

/// The number that the digits write, where it isn't too large.
fn literal(digits: &str) -> Option<u32>
    requires { is_number digits.now ≡ true }
    ensures { result ≡ (if nat_lt greatest_literal (digits_value 10 digits.now) then None else Some (digits_value 10 digits.now)) }
{
    match digits.parse::<u32>() {
        Ok(value) => (value <= GREATEST_LITERAL).then_some(value),
        Err(_) => None,
    }
}

fn word_kind(word: &str) -> TokenKind
    ensures { result ≡ word_kind word.now }
{
    if is_reserved(word) {
        TokenKind::Word
    } else {
        TokenKind::Name
    }
}

/// What a piece at an offset means: no token, a token of some kind, or a fault.
fn meaning(kind: Piece, text: &str, at: u32) -> Result<Option<TokenKind>, LexFault>
    requires { is_piece kind text.now ≡ true }
    ensures { result ≡ meaning kind text.now at }
{
    match kind {
        Piece::Blanks | Piece::Comment => Ok(None),
        Piece::OpenComment => Err(LexFault::OpenComment(at)),
        Piece::Word if text.len() > LONGEST_WORD => Err(LexFault::NameTooLong(at)),
        Piece::Word => Ok(Some(word_kind(text))),
        Piece::Number => match literal(text) {
            Some(value) => Ok(Some(TokenKind::Number(value))),
            None => Err(LexFault::LiteralTooLarge(at)),
        },
        Piece::Sign => Ok(Some(TokenKind::Sign)),
    }
}

/// The piece at the start of a text, the kind of token that it is, if it is one, and what follows.
#[derive(Clone, Copy)]
struct Cut<'a> {
    token: Option<TokenKind>,
    piece: &'a str,
    rest: &'a str,
}

/// Splits a text where its longest piece ends.
fn split(text: &str, front: Front) -> (&str, &str)
    requires { find text.now ≡ Some front }
    ensures piece { result.0.now ≡ take front.len text.now }
    ensures rest { result.1.now ≡ drop front.len text.now }
    ensures longest { Longest text.now result.0.now result.1.now front.kind }
{
    text.split_at(front.len)
}

/// Cuts the longest piece from the start of a text.
fn first_cut(text: &str, at: u32) -> Result<Cut<'_>, LexFault>
    requires some { 0 < length text.now }
    requires small { length text.now ≤ longest_source }
    ensures cut { IfOk result (λ c. IsCut text.now at c.token c.piece.now c.rest.now) }
    ensures text { IfOk result (λ c. IsUtf8 c.rest.now) }
    ensures fault { IfErr result (FaultFrom text.now at) }
{
    let Some(front) = find_front(text.as_bytes()) else {
        return Err(LexFault::BadCharacter(at));
    };
    let (piece, rest) = split(text, front);
    let token = meaning(front.kind, piece, at)?;
    Ok(Cut { token, piece, rest })
}

/// Adds the token that a piece is, if it is one.
fn keep<'a>(tokens: &mut Vec<Token<'a>>, cut: &Cut<'a>, at: u32) -> Result<(), NoMemory>
    ensures { OnOk result (tokens.new.items ≡ tokens.old.items ++ tokens_of cut.now.token cut.now.piece.now at) }
{
    if let Some(kind) = cut.token {
        let text = cut.piece;
        tokens.push(Token { kind, text, at })?;
    }
    Ok(())
}

/// Cuts a text from the left, piece by piece.
fn cut_all<'a>(alloc: Global, text: &'a str) -> Result<Vec<Token<'a>>, LexFault>
    requires { length text.now ≤ longest_source }
    ensures tokens { IfOk result (λ ts. Tokens text.now ts.items) }
    ensures fault { IfErr result (λ e. (e ≡ LexFault.NoMemory) ⊎ FirstFault text.now e) }
{
    let mut tokens = Vec::new(alloc);
    let mut rest = text;
    let mut at: u32 = 0;
    while !rest.is_empty() {
        let cut = first_cut(rest, at)?;
        keep(&mut tokens, &cut, at)?;
        at += cut.piece.len() as u32;
        rest = cut.rest;
    }
    Ok(tokens)
}

/// The tokens of a source, or its first fault. As in Java's lexical grammar, the longest piece is cut off each time.
/// Offsets count bytes from 0. Blanks and comments give no token. The text of each token is a slice of the source.
/// Takes memory for the list alone, and time linear in the source.
pub fn lex<'a>(alloc: Global, text: &'a str) -> Result<Vec<Token<'a>>, LexFault>
    requires { length text.now ≤ longest_source }
    ensures tokens { IfOk result (λ found. Tokens text.now found.items) }
    ensures tokens_given { (ts : List Token) → Tokens text.now ts → MatchResult result (λ found. found.items ≡ ts) (λ e. e ≡ LexFault.NoMemory) }
    ensures fault { IfErr result (λ e. (e ≡ LexFault.NoMemory) ⊎ FirstFault text.now e) }
    ensures fault_told { (its : LexFault) → FirstFault text.now its → MatchResult result (λ _. ⊥) (λ e. (e ≡ LexFault.NoMemory) ⊎ (e ≡ its)) }
{
    cut_all(alloc, text)
}
