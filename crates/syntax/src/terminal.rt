//! The tokens that the grammar names.

ghost use Rattle.std.specs.Prelude.{◌≡◌};
ghost use Rattle.syntax.specs.Tokens.{is, terminal_kind, same_kind, spelling};

use lexer::{Token, TokenKind};

/// A token that the grammar names: a reserved word, a sign, or one of three names.
#[derive(Clone, Copy, Debug, PartialEq, Eq)]
pub enum Terminal {
    Public,
    Class,
    Extends,
    Implements,
    Runnable,
    Final,
    GuardedBy,
    WriteGuardedBy,
    This,
    Atomic,
    Void,
    Requires,
    Int,
    Boolean,
    If,
    Else,
    While,
    Synchronized,
    Return,
    System,
    New,
    Thread,
    True,
    False,
    Null,
    Out,
    Println,
    Start,
    OpenParen,
    CloseParen,
    OpenBrace,
    CloseBrace,
    Semicolon,
    Comma,
    Dot,
    Assign,
    EqualTo,
    NotEqual,
    Less,
    LessEqual,
    Greater,
    GreaterEqual,
    Plus,
    Minus,
    Star,
    Slash,
    Percent,
    Bang,
    AndAnd,
    OrOr,
}

impl Terminal {
    /// The text of the terminal.
    #[inline(always)]
    pub fn text(self) -> &'static str
        ensures { result.now ≡ spelling self }
    {
        match self {
            Terminal::Public => "public",
            Terminal::Class => "class",
            Terminal::Extends => "extends",
            Terminal::Implements => "implements",
            Terminal::Runnable => "Runnable",
            Terminal::Final => "final",
            Terminal::GuardedBy => "guarded_by",
            Terminal::WriteGuardedBy => "write_guarded_by",
            Terminal::This => "this",
            Terminal::Atomic => "atomic",
            Terminal::Void => "void",
            Terminal::Requires => "requires",
            Terminal::Int => "int",
            Terminal::Boolean => "boolean",
            Terminal::If => "if",
            Terminal::Else => "else",
            Terminal::While => "while",
            Terminal::Synchronized => "synchronized",
            Terminal::Return => "return",
            Terminal::System => "System",
            Terminal::New => "new",
            Terminal::Thread => "Thread",
            Terminal::True => "true",
            Terminal::False => "false",
            Terminal::Null => "null",
            Terminal::Out => "out",
            Terminal::Println => "println",
            Terminal::Start => "start",
            Terminal::OpenParen => "(",
            Terminal::CloseParen => ")",
            Terminal::OpenBrace => "{",
            Terminal::CloseBrace => "}",
            Terminal::Semicolon => ";",
            Terminal::Comma => ",",
            Terminal::Dot => ".",
            Terminal::Assign => "=",
            Terminal::EqualTo => "==",
            Terminal::NotEqual => "!=",
            Terminal::Less => "<",
            Terminal::LessEqual => "<=",
            Terminal::Greater => ">",
            Terminal::GreaterEqual => ">=",
            Terminal::Plus => "+",
            Terminal::Minus => "-",
            Terminal::Star => "*",
            Terminal::Slash => "/",
            Terminal::Percent => "%",
            Terminal::Bang => "!",
            Terminal::AndAnd => "&&",
            Terminal::OrOr => "||",
        }
    }

    #[inline(always)]
    fn kind(self) -> TokenKind
        ensures { result ≡ terminal_kind self }
    {
        match self {
            Terminal::Out | Terminal::Println | Terminal::Start => TokenKind::Name,
            Terminal::OpenParen
            | Terminal::CloseParen
            | Terminal::OpenBrace
            | Terminal::CloseBrace
            | Terminal::Semicolon
            | Terminal::Comma
            | Terminal::Dot
            | Terminal::Assign
            | Terminal::EqualTo
            | Terminal::NotEqual
            | Terminal::Less
            | Terminal::LessEqual
            | Terminal::Greater
            | Terminal::GreaterEqual
            | Terminal::Plus
            | Terminal::Minus
            | Terminal::Star
            | Terminal::Slash
            | Terminal::Percent
            | Terminal::Bang
            | Terminal::AndAnd
            | Terminal::OrOr => TokenKind::Sign,
            _ => TokenKind::Word,
        }
    }

    /// Whether a token is this terminal's. At a given terminal this is two comparisons of numbers and one of a few bytes.
    #[inline(always)]
    pub fn matches(self, token: &Token) -> bool
        ensures { result ≡ is self token.now }
    {
        is_same_kind(token.kind, self.kind()) && token.text == self.text()
    }
}

#[inline(always)]
fn is_same_kind(one: TokenKind, other: TokenKind) -> bool
    ensures { result ≡ same_kind one other }
{
    matches!(
        (one, other),
        (TokenKind::Name, TokenKind::Name)
            | (TokenKind::Word, TokenKind::Word)
            | (TokenKind::Sign, TokenKind::Sign)
    )
}
