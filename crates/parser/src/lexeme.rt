//! Tokens whose terminals are told apart once, before they are read.

ghost use Rattle.std.specs.Prelude.{◌≡◌, [], ◌∷◌, IfOk, IfSome, codes};
ghost use Rattle.std.specs.List.{find};
ghost use Rattle.std.specs.Str.{bytes_eq};
ghost use Rattle.syntax.specs.Tokens.{is as is_at, terminal_kind, spelling};
ghost use Rattle.parser.specs.Lexemes.{IsRank, name_rank as name_rank_of, terminal_number};

use lexer::{Token, TokenKind};
use std::alloc::{AllocError, Global};
use std::marker::Model;
use syntax::Terminal;

/// The terminals, in the order of their numbers.
const TERMINALS: [Terminal; 50] = [
    Terminal::Public,
    Terminal::Class,
    Terminal::Extends,
    Terminal::Implements,
    Terminal::Runnable,
    Terminal::Final,
    Terminal::GuardedBy,
    Terminal::WriteGuardedBy,
    Terminal::This,
    Terminal::Atomic,
    Terminal::Void,
    Terminal::Requires,
    Terminal::Int,
    Terminal::Boolean,
    Terminal::If,
    Terminal::Else,
    Terminal::While,
    Terminal::Synchronized,
    Terminal::Return,
    Terminal::System,
    Terminal::New,
    Terminal::Thread,
    Terminal::True,
    Terminal::False,
    Terminal::Null,
    Terminal::Out,
    Terminal::Println,
    Terminal::Start,
    Terminal::OpenParen,
    Terminal::CloseParen,
    Terminal::OpenBrace,
    Terminal::CloseBrace,
    Terminal::Semicolon,
    Terminal::Comma,
    Terminal::Dot,
    Terminal::Assign,
    Terminal::EqualTo,
    Terminal::NotEqual,
    Terminal::Less,
    Terminal::LessEqual,
    Terminal::Greater,
    Terminal::GreaterEqual,
    Terminal::Plus,
    Terminal::Minus,
    Terminal::Star,
    Terminal::Slash,
    Terminal::Percent,
    Terminal::Bang,
    Terminal::AndAnd,
    Terminal::OrOr,
];

/// The number of a token that is no terminal's.
const NO_TERMINAL: u32 = 50;

/// A token, and the number of the terminal that it is. It is seen in contracts as the token.
#[derive(Drop)]
pub struct Lexeme<'a> {
    pub kind: TokenKind,
    pub text: &'a str,
    pub at: u32,
    rank: u32,
}

impl<'a> Model for Lexeme<'a> {
    ghost use Rattle.lexer.specs.declared.tokens.Token.{Token as TokenData};
    ghost use Rattle.parser.specs.Lexemes.{IsRank};

    ghost Value = { TokenData };

    ghost view = { λ t. record { kind = t.kind; text = t.text.now; at = t.at } };

    ghost invariant = { λ t. IsRank (record { kind = t.kind; text = t.text.now; at = t.at }) t.rank };
}

impl<'a> Lexeme<'a> {
    /// Whether it is the terminal's.
    #[inline(always)]
    pub fn is(&self, terminal: Terminal) -> bool
        ensures { result ≡ is_at terminal self.now }
    {
        self.rank == rank(terminal)
    }
}

/// The number of a terminal.
#[inline(always)]
fn rank(terminal: Terminal) -> u32
    ensures { result ≡ terminal_number terminal }
{
    terminal as u32
}

/// The terminal that a sign of one byte is, if it is one.
fn one_byte(byte: u8) -> Option<Terminal>
    ensures { IfSome result (λ t. (terminal_kind t ≡ TokenKind.Sign) × (spelling t ≡ byte ∷ [])) }
{
    match byte {
        b'(' => Some(Terminal::OpenParen),
        b')' => Some(Terminal::CloseParen),
        b'{' => Some(Terminal::OpenBrace),
        b'}' => Some(Terminal::CloseBrace),
        b';' => Some(Terminal::Semicolon),
        b',' => Some(Terminal::Comma),
        b'.' => Some(Terminal::Dot),
        b'=' => Some(Terminal::Assign),
        b'<' => Some(Terminal::Less),
        b'>' => Some(Terminal::Greater),
        b'+' => Some(Terminal::Plus),
        b'-' => Some(Terminal::Minus),
        b'*' => Some(Terminal::Star),
        b'/' => Some(Terminal::Slash),
        b'%' => Some(Terminal::Percent),
        b'!' => Some(Terminal::Bang),
        _ => None,
    }
}

/// The terminal that a sign of two bytes is, if it is one.
fn two_bytes(first: u8, second: u8) -> Option<Terminal>
    ensures { IfSome result (λ t. (terminal_kind t ≡ TokenKind.Sign) × (spelling t ≡ first ∷ second ∷ [])) }
{
    match (first, second) {
        (b'=', b'=') => Some(Terminal::EqualTo),
        (b'!', b'=') => Some(Terminal::NotEqual),
        (b'<', b'=') => Some(Terminal::LessEqual),
        (b'>', b'=') => Some(Terminal::GreaterEqual),
        (b'&', b'&') => Some(Terminal::AndAnd),
        (b'|', b'|') => Some(Terminal::OrOr),
        _ => None,
    }
}

/// The terminal that a sign is, if it is one.
fn sign(text: &[u8]) -> Option<Terminal>
    ensures { IfSome result (λ t. (terminal_kind t ≡ TokenKind.Sign) × (spelling t ≡ text.now)) }
{
    match text {
        [byte] => one_byte(*byte),
        [first, second] => two_bytes(*first, *second),
        _ => None,
    }
}

/// The terminal that a reserved word is, if it is one of at most ten letters.
fn word(text: &[u8]) -> Option<Terminal>
    ensures { IfSome result (λ t. (terminal_kind t ≡ TokenKind.Word) × (spelling t ≡ text.now)) }
{
    match text {
        b"public" => Some(Terminal::Public),
        b"class" => Some(Terminal::Class),
        b"extends" => Some(Terminal::Extends),
        b"implements" => Some(Terminal::Implements),
        b"Runnable" => Some(Terminal::Runnable),
        b"final" => Some(Terminal::Final),
        b"guarded_by" => Some(Terminal::GuardedBy),
        b"this" => Some(Terminal::This),
        b"atomic" => Some(Terminal::Atomic),
        b"void" => Some(Terminal::Void),
        b"requires" => Some(Terminal::Requires),
        b"int" => Some(Terminal::Int),
        b"boolean" => Some(Terminal::Boolean),
        b"if" => Some(Terminal::If),
        b"else" => Some(Terminal::Else),
        b"while" => Some(Terminal::While),
        b"return" => Some(Terminal::Return),
        b"System" => Some(Terminal::System),
        b"new" => Some(Terminal::New),
        b"Thread" => Some(Terminal::Thread),
        b"true" => Some(Terminal::True),
        b"false" => Some(Terminal::False),
        b"null" => Some(Terminal::Null),
        _ => None,
    }
}

/// The only terminal of more than ten letters that a reserved word can be.
fn longest_word(text: &[u8]) -> Terminal {
    if text.len() == 16 {
        Terminal::WriteGuardedBy
    } else {
        Terminal::Synchronized
    }
}

/// The terminal that the token is, if it is one.
fn searched(token: &Token) -> Option<Terminal>
    ensures { result ≡ find (λ t. is_at t token.now) TERMINALS }
{
    TERMINALS
        .iter()
        .copied()
        .find(|terminal| terminal.matches(token))
}

/// The number of the terminal that the token is, which is searched among all.
#[inline(never)]
#[tactic(auto, using(crate::proofs::Ranks::found_ranked, crate::proofs::Ranks::none_found_ranked))]
fn search_rank(token: &Token) -> u32
    ensures { IsRank token.now result }
{
    match searched(token) {
        Some(found) => rank(found),
        None => NO_TERMINAL,
    }
}

/// The number of the terminal that a reserved word is. The two longest are guessed by their length and then compared.
#[tactic(auto, using(crate::proofs::Ranks::spelled_ranked, crate::proofs::Ranks::terminal_ranked))]
fn word_rank(token: &Token) -> u32
    requires { token.now.kind ≡ TokenKind.Word }
    ensures { IsRank token.now result }
{
    let text = token.text.as_bytes();
    if let Some(found) = word(text) {
        return rank(found);
    }
    let longest = longest_word(text);
    if longest.matches(token) {
        return rank(longest);
    }
    search_rank(token)
}

/// The number of the terminal that a sign is.
#[tactic(auto, using(crate::proofs::Ranks::spelled_ranked))]
fn sign_rank(token: &Token) -> u32
    requires { token.now.kind ≡ TokenKind.Sign }
    ensures { IsRank token.now result }
{
    match sign(token.text.as_bytes()) {
        Some(found) => rank(found),
        None => search_rank(token),
    }
}

fn is_out(text: &[u8]) -> bool
    ensures { result ≡ bytes_eq text.now (codes "out") }
{
    match text {
        [b'o', rest @ ..] => rest == b"ut".as_slice(),
        _ => false,
    }
}

fn is_println(text: &[u8]) -> bool
    ensures { result ≡ bytes_eq text.now (codes "println") }
{
    match text {
        [b'p', rest @ ..] => rest == b"rintln".as_slice(),
        _ => false,
    }
}

fn is_start(text: &[u8]) -> bool
    ensures { result ≡ bytes_eq text.now (codes "start") }
{
    match text {
        [b's', rest @ ..] => rest == b"tart".as_slice(),
        _ => false,
    }
}

/// The number of the terminal that a name is.
fn name_rank(text: &[u8]) -> u32
    ensures { result ≡ name_rank_of text.now }
{
    if is_out(text) {
        return rank(Terminal::Out);
    }
    if is_println(text) {
        return rank(Terminal::Println);
    }
    if is_start(text) {
        return rank(Terminal::Start);
    }
    NO_TERMINAL
}

/// The number of the terminal that the token is.
#[tactic(auto, using(crate::proofs::Ranks::number_ranked, crate::proofs::Ranks::name_ranked))]
fn rank_at(token: &Token) -> u32
    ensures { IsRank token.now result }
{
    match token.kind {
        TokenKind::Name => name_rank(token.text.as_bytes()),
        TokenKind::Word => word_rank(token),
        TokenKind::Sign => sign_rank(token),
        TokenKind::Number(_) => NO_TERMINAL,
    }
}

/// The token with its number.
fn ranked<'a>(token: &Token<'a>) -> Lexeme<'a>
    ensures { result ≡ token.now }
{
    let rank = rank_at(token);
    Lexeme {
        kind: token.kind,
        text: token.text,
        at: token.at,
        rank,
    }
}

/// The tokens with their numbers.
pub fn lexemes<'a>(alloc: Global, tokens: &[Token<'a>]) -> Result<Vec<Lexeme<'a>>, AllocError>
    ensures { IfOk result (λ all. all.items ≡ tokens.now) }
{
    let mut all = Vec::with_capacity(alloc, tokens.len())?;
    for token in tokens {
        all.push(ranked(token))?;
    }
    Ok(all)
}
