//! Types, fields and locks.

ghost use Rattle.std.specs.Prelude.{◌≡◌, ◌<◌, Ok, true, false, length, IfOk, IfSome};
ghost use Rattle.syntax.specs.Tokens.{is};
ghost use Rattle.syntax.specs.Views.{lock_of};
ghost use Rattle.parser.specs.Answer.{Gives};
ghost use Rattle.parser.specs.Combine.{item_step, several, starts};
ghost use Rattle.parser.specs.Words.{field_name as field_name_at, lock as lock_at, type_name as type_name_at};

use crate::lexeme::Lexeme;
use crate::stop::Stop;
use crate::tokens::{accept, begins, name, take};
use std::alloc::Global;
use syntax::{Lock, Name, Terminal, TypeName};

/// Reads `int`, `boolean` or the name of a class.
#[tactic(auto, unfolding(crate::specs::Words::type_name))]
pub fn type_name<'t, 'a>(
    tokens: &'t [Lexeme<'a>],
) -> Result<(TypeName<'a>, &'t [Lexeme<'a>]), Stop<'t, 'a>>
    ensures { Gives (λ x. (x.0, x.1.now)) result (type_name_at tokens.now) }
{
    if let Some((_, rest)) = accept(tokens, Terminal::Int) {
        return Ok((TypeName::Int, rest));
    }
    if let Some((_, rest)) = accept(tokens, Terminal::Boolean) {
        return Ok((TypeName::Boolean, rest));
    }
    let (class, rest) = name(tokens)?;
    Ok((TypeName::Class(class), rest))
}

/// A dot and a name.
#[tactic(auto, unfolding(crate::specs::Words::field_name))]
pub fn field_name<'t, 'a>(
    tokens: &'t [Lexeme<'a>],
) -> Result<(Name<'a>, &'t [Lexeme<'a>]), Stop<'t, 'a>>
    ensures { Gives (λ x. (x.0, x.1.now)) result (field_name_at tokens.now) }
{
    let (_, rest) = take(tokens, Terminal::Dot)?;
    name(rest)
}

/// A dot and a name with neither arguments nor another dot behind them, where these stand here.
#[tactic(auto, unfolding(crate::specs::Words::field_name))]
pub fn last_field<'t, 'a>(tokens: &'t [Lexeme<'a>]) -> Option<(Name<'a>, &'t [Lexeme<'a>])>
    ensures dot { IfSome result (λ x. starts (is Terminal.Dot) tokens.now ≡ true) }
    ensures field { IfSome result (λ x. field_name_at tokens.now ≡ Ok (x.0, x.1.now)) }
    ensures no_arguments { IfSome result (λ x. starts (is Terminal.OpenParen) x.1.now ≡ false) }
    ensures no_dot { IfSome result (λ x. starts (is Terminal.Dot) x.1.now ≡ false) }
{
    let (_, behind) = accept(tokens, Terminal::Dot)?;
    let Ok((field, rest)) = name(behind) else {
        return None;
    };
    if begins(rest, Terminal::OpenParen) || begins(rest, Terminal::Dot) {
        return None;
    }
    Some((field, rest))
}

/// One field more behind the root of a lock.
#[tactic(auto, using(crate::proofs::Fields::field_shorter))]
fn next_field<'t, 'a>(
    so_far: (Vec<Name<'a>>, &'t [Lexeme<'a>]),
) -> Result<(Vec<Name<'a>>, &'t [Lexeme<'a>]), Stop<'t, 'a>>
    ensures tree { Gives (λ x. (x.0.items, x.1.now)) result (item_step field_name_at so_far.entry.0.items so_far.entry.1.now) }
    ensures shorter { IfOk result (λ x. length x.1.now < length so_far.entry.1.now) }
{
    let (mut items, rest) = so_far;
    let (item, rest) = field_name(rest)?;
    items.push(item)?;
    Ok((items, rest))
}

/// The fields behind the root of a lock.
#[tactic(auto, using(crate::proofs::Fields::field_more, crate::proofs::Fields::field_done))]
fn fields<'t, 'a>(
    alloc: Global,
    tokens: &'t [Lexeme<'a>],
) -> Result<(Vec<Name<'a>>, &'t [Lexeme<'a>]), Stop<'t, 'a>>
    ensures { Gives (λ x. (x.0.items, x.1.now)) result (several (is Terminal.Dot) field_name_at tokens.now) }
{
    let mut list = (Vec::new(alloc), tokens);
    while begins(list.1, Terminal::Dot) {
        list = next_field(list)?;
    }
    Ok(list)
}

/// Reads a lock: `this` or a name, and the fields behind it.
#[tactic(auto, unfolding(crate::specs::Words::lock))]
pub fn lock<'t, 'a>(
    alloc: Global,
    tokens: &'t [Lexeme<'a>],
) -> Result<(Lock<'a>, &'t [Lexeme<'a>]), Stop<'t, 'a>>
    ensures { Gives (λ x. (lock_of x.0, x.1.now)) result (lock_at tokens.now) }
{
    if let Some((at, rest)) = accept(tokens, Terminal::This) {
        let (fields, rest) = fields(alloc, rest)?;
        return Ok((
            Lock {
                root: None,
                fields,
                at,
            },
            rest,
        ));
    }
    let (root, rest) = name(tokens)?;
    let at = root.at;
    let (fields, rest) = fields(alloc, rest)?;
    Ok((
        Lock {
            root: Some(root),
            fields,
            at,
        },
        rest,
    ))
}
