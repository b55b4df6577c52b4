//! Single tokens at the front of a list.

ghost use Rattle.std.specs.Prelude.{◌≡◌, Ok, true, false, IfSome, IfNone};
ghost use Rattle.syntax.specs.Grammar.{level as level_of, offset as offset_of};
ghost use Rattle.syntax.specs.Tokens.{is};
ghost use Rattle.parser.specs.Answer.{Gives};
ghost use Rattle.parser.specs.Combine.{first, flag as flag_at, starts, take_one};
ghost use Rattle.parser.specs.Words.{a_least, a_name, a_number, an_op, is_least, is_name, may_be_number, is_any_op, is_op, op_of};
ghost use Rattle.parser.specs.Expressions.{begins_expression as may_begin_expression, is_leaf as may_be_leaf, stands_alone as stands_alone_at};

use crate::lexeme::Lexeme;
use crate::stop::{Stop, SyntaxFault};
use lexer::{GREATEST_LITERAL, TokenKind};
use syntax::{Name, Op, Terminal};

/// Whether the terminal stands first.
#[inline(always)]
pub fn begins(tokens: &[Lexeme], terminal: Terminal) -> bool
    ensures { result ≡ starts (is terminal) tokens.now }
{
    match tokens {
        [token, ..] => token.is(terminal),
        [] => false,
    }
}

/// Takes the terminal, and gives its offset.
#[inline(always)]
pub fn take<'t, 'a>(
    tokens: &'t [Lexeme<'a>],
    terminal: Terminal,
) -> Result<(u32, &'t [Lexeme<'a>]), Stop<'t, 'a>>
    ensures { Gives (λ x. (x.0, x.1.now)) result (take_one terminal tokens.now) }
{
    match tokens {
        [token, rest @ ..] if token.is(terminal) => Ok((token.at, rest)),
        _ => Err(Stop::Fault(SyntaxFault::Unexpected, tokens)),
    }
}

/// Takes the terminal where it stands first, and gives its offset.
#[inline(always)]
pub fn accept<'t, 'a>(
    tokens: &'t [Lexeme<'a>],
    terminal: Terminal,
) -> Option<(u32, &'t [Lexeme<'a>])>
    ensures taken { IfSome result (λ x. (starts (is terminal) tokens.now ≡ true) × (take_one terminal tokens.now ≡ Ok (x.0, x.1.now))) }
    ensures another { IfNone result (starts (is terminal) tokens.now ≡ false) }
{
    match tokens {
        [token, rest @ ..] if token.is(terminal) => Some((token.at, rest)),
        _ => None,
    }
}

/// Takes the terminal where it stands first.
#[inline(always)]
pub fn flag<'t, 'a>(tokens: &'t [Lexeme<'a>], terminal: Terminal) -> (bool, &'t [Lexeme<'a>])
    ensures { (result.0, result.1.now) ≡ flag_at terminal tokens.now }
{
    match tokens {
        [token, rest @ ..] if token.is(terminal) => (true, rest),
        _ => (false, tokens),
    }
}

/// The offset of the first token, or 0.
pub fn offset(tokens: &[Lexeme]) -> u32
    ensures { result ≡ offset_of tokens.now }
{
    match tokens {
        [token, ..] => token.at,
        [] => 0,
    }
}

/// Whether the token is a name.
pub fn is_name_token(token: &Lexeme) -> bool
    ensures { result ≡ is_name token.now }
{
    match token.kind {
        TokenKind::Name => true,
        TokenKind::Word | TokenKind::Number(_) | TokenKind::Sign => false,
    }
}

fn is_number_token(token: &Lexeme) -> bool
    ensures { result ≡ may_be_number token.now }
{
    match token.kind {
        TokenKind::Number(value) => value < GREATEST_LITERAL,
        TokenKind::Name | TokenKind::Word | TokenKind::Sign => false,
    }
}

fn is_least_token(token: &Lexeme) -> bool
    ensures { result ≡ is_least token.now }
{
    match token.kind {
        TokenKind::Number(value) => value == GREATEST_LITERAL,
        TokenKind::Name | TokenKind::Word | TokenKind::Sign => false,
    }
}

/// Whether a name stands first.
pub fn begins_name(tokens: &[Lexeme]) -> bool
    ensures { result ≡ starts is_name tokens.now }
{
    match tokens {
        [token, ..] => is_name_token(token),
        [] => false,
    }
}

/// Whether a number up to 2147483647 stands first.
pub fn begins_number(tokens: &[Lexeme]) -> bool
    ensures { result ≡ starts may_be_number tokens.now }
{
    match tokens {
        [token, ..] => is_number_token(token),
        [] => false,
    }
}

/// Whether 2147483648 stands first, which is the least number behind a `-`.
pub fn begins_least(tokens: &[Lexeme]) -> bool
    ensures { result ≡ starts is_least tokens.now }
{
    match tokens {
        [token, ..] => is_least_token(token),
        [] => false,
    }
}

/// Takes a name.
pub fn name<'t, 'a>(tokens: &'t [Lexeme<'a>]) -> Result<(Name<'a>, &'t [Lexeme<'a>]), Stop<'t, 'a>>
    ensures { Gives (λ x. (x.0, x.1.now)) result (first a_name tokens.now) }
{
    match tokens {
        [token, rest @ ..] if is_name_token(token) => {
            let text = token.text;
            Ok((Name { text, at: token.at }, rest))
        }
        _ => Err(Stop::Fault(SyntaxFault::Unexpected, tokens)),
    }
}

/// Takes a number up to 2147483647, and gives it and its offset.
pub fn number<'t, 'a>(
    tokens: &'t [Lexeme<'a>],
) -> Result<((u32, u32), &'t [Lexeme<'a>]), Stop<'t, 'a>>
    ensures { Gives (λ x. (x.0, x.1.now)) result (first a_number tokens.now) }
{
    match tokens {
        [token, rest @ ..] => match token.kind {
            TokenKind::Number(value) if value < GREATEST_LITERAL => Ok(((value, token.at), rest)),
            _ => Err(Stop::Fault(SyntaxFault::Unexpected, tokens)),
        },
        [] => Err(Stop::Fault(SyntaxFault::Unexpected, tokens)),
    }
}

/// Takes the number 2147483648, and gives its offset.
pub fn least<'t, 'a>(tokens: &'t [Lexeme<'a>]) -> Result<(u32, &'t [Lexeme<'a>]), Stop<'t, 'a>>
    ensures { Gives (λ x. (x.0, x.1.now)) result (first a_least tokens.now) }
{
    match tokens {
        [token, rest @ ..] if is_least_token(token) => Ok((token.at, rest)),
        _ => Err(Stop::Fault(SyntaxFault::Unexpected, tokens)),
    }
}

/// The operator that a token is.
#[tactic(auto, unfolding(crate::specs::Words::op_of))]
fn operator_of(token: &Lexeme) -> Option<Op>
    ensures { result ≡ op_of token.now }
{
    if token.is(Terminal::Star) {
        Some(Op::Mul)
    } else if token.is(Terminal::Slash) {
        Some(Op::Div)
    } else if token.is(Terminal::Percent) {
        Some(Op::Rem)
    } else if token.is(Terminal::Plus) {
        Some(Op::Add)
    } else if token.is(Terminal::Minus) {
        Some(Op::Sub)
    } else if token.is(Terminal::Less) {
        Some(Op::Lt)
    } else if token.is(Terminal::LessEqual) {
        Some(Op::Le)
    } else if token.is(Terminal::Greater) {
        Some(Op::Gt)
    } else if token.is(Terminal::GreaterEqual) {
        Some(Op::Ge)
    } else if token.is(Terminal::EqualTo) {
        Some(Op::Eq)
    } else if token.is(Terminal::NotEqual) {
        Some(Op::Ne)
    } else if token.is(Terminal::AndAnd) {
        Some(Op::And)
    } else if token.is(Terminal::OrOr) {
        Some(Op::Or)
    } else {
        None
    }
}

/// How loosely an operator binds, from 1 to 6.
fn level(op: Op) -> u32
    ensures { result ≡ level_of op }
{
    match op {
        Op::Mul | Op::Div | Op::Rem => 1,
        Op::Add | Op::Sub => 2,
        Op::Lt | Op::Le | Op::Gt | Op::Ge => 3,
        Op::Eq | Op::Ne => 4,
        Op::And => 5,
        Op::Or => 6,
    }
}

/// Whether an operator stands first.
pub fn begins_any_operator(tokens: &[Lexeme]) -> bool
    ensures { result ≡ starts is_any_op tokens.now }
{
    match tokens {
        [token, ..] => operator_of(token).is_some(),
        [] => false,
    }
}

/// Whether an operator of the level stands first.
pub fn begins_operator(tokens: &[Lexeme], levels: u32) -> bool
    ensures { result ≡ starts (is_op levels) tokens.now }
{
    match tokens {
        [token, ..] => match operator_of(token) {
            Some(op) => level(op) == levels,
            None => false,
        },
        [] => false,
    }
}

/// Takes an operator of the level, and gives it and its offset.
pub fn operator<'t, 'a>(
    tokens: &'t [Lexeme<'a>],
    levels: u32,
) -> Result<((Op, u32), &'t [Lexeme<'a>]), Stop<'t, 'a>>
    ensures { Gives (λ x. (x.0, x.1.now)) result (first (an_op levels) tokens.now) }
{
    match tokens {
        [token, rest @ ..] => match operator_of(token) {
            Some(op) if level(op) == levels => Ok(((op, token.at), rest)),
            _ => Err(Stop::Fault(SyntaxFault::Unexpected, tokens)),
        },
        [] => Err(Stop::Fault(SyntaxFault::Unexpected, tokens)),
    }
}

/// Whether the first token is an operand by itself, so that no part of an expression has to be asked for behind it.
#[tactic(auto, unfolding(crate::specs::Expressions::stands_alone))]
pub fn stands_alone(tokens: &[Lexeme]) -> bool
    ensures { result ≡ stands_alone_at tokens.now }
{
    match tokens {
        [token, rest @ ..] => {
            !(token.is(Terminal::Bang)
                || token.is(Terminal::Minus)
                || token.is(Terminal::OpenParen)
                || token.is(Terminal::New)
                || begins(rest, Terminal::Dot)
                || begins_any_operator(rest))
        }
        [] => false,
    }
}

/// Whether the token is an expression by itself.
pub fn is_leaf(token: &Lexeme) -> bool
    ensures { result ≡ may_be_leaf token.now }
{
    is_number_token(token)
        || token.is(Terminal::True)
        || token.is(Terminal::False)
        || token.is(Terminal::Null)
        || token.is(Terminal::This)
        || is_name_token(token)
}

#[tactic(auto, unfolding(crate::specs::Expressions::begins_expression))]
fn begins_expression_token(token: &Lexeme) -> bool
    ensures { result ≡ may_begin_expression token.now }
{
    token.is(Terminal::OpenParen)
        || token.is(Terminal::New)
        || token.is(Terminal::Bang)
        || token.is(Terminal::Minus)
        || is_leaf(token)
}

/// Whether a token that may begin an expression stands first.
pub fn begins_expression(tokens: &[Lexeme]) -> bool
    ensures { result ≡ starts may_begin_expression tokens.now }
{
    match tokens {
        [token, ..] => begins_expression_token(token),
        [] => false,
    }
}
