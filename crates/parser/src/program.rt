//! Classes, and programs of them.

ghost use Rattle.std.specs.Prelude.{◌≡◌, ◌<◌, map, length, true, IfOk};
ghost use Rattle.syntax.specs.Views.{class_of, member_of};
ghost use Rattle.parser.specs.Answer.{Gives};
ghost use Rattle.parser.specs.Combine.{item_step, several, starts};
ghost use Rattle.parser.specs.Statements.{block_goes_on as may_go_on};
ghost use Rattle.parser.specs.Members.{class_at, extended as extended_at, member as member_at, program as program_at, runnable as runnable_at};

use crate::lexeme::Lexeme;
use crate::member::member;
use crate::starts::goes_on;
use crate::stop::Stop;
use crate::tokens::{accept, flag, name, take};
use std::alloc::Global;
use syntax::{Class, Member, Name, Terminal};

/// One member more of a class.
#[tactic(auto, using(crate::proofs::MemberLoops::member_shorter))]
fn next_member<'t, 'a>(
    alloc: Global,
    so_far: (Vec<Member<'a>>, &'t [Lexeme<'a>]),
) -> Result<(Vec<Member<'a>>, &'t [Lexeme<'a>]), Stop<'t, 'a>>
    ensures tree { Gives (λ x. (map member_of x.0.items, x.1.now)) result (item_step member_at (map member_of so_far.entry.0.items) so_far.entry.1.now) }
    ensures shorter { IfOk result (λ x. length x.1.now < length so_far.entry.1.now) }
{
    let (mut items, rest) = so_far;
    let (item, rest) = member(alloc, rest)?;
    items.push(item)?;
    Ok((items, rest))
}

#[tactic(auto, using(crate::proofs::MemberLoops::member_more, crate::proofs::MemberLoops::member_done))]
fn members<'t, 'a>(
    alloc: Global,
    tokens: &'t [Lexeme<'a>],
) -> Result<(Vec<Member<'a>>, &'t [Lexeme<'a>]), Stop<'t, 'a>>
    ensures { Gives (λ x. (map member_of x.0.items, x.1.now)) result (several may_go_on member_at tokens.now) }
{
    let mut list = (Vec::new(alloc), tokens);
    while goes_on(list.1) {
        list = next_member(alloc, list)?;
    }
    Ok(list)
}

/// `implements Runnable`, or nothing.
#[tactic(auto, unfolding(crate::specs::Members::runnable))]
fn runnable<'t, 'a>(tokens: &'t [Lexeme<'a>]) -> Result<(bool, &'t [Lexeme<'a>]), Stop<'t, 'a>>
    ensures { Gives (λ x. (x.0, x.1.now)) result (runnable_at tokens.now) }
{
    if let Some((_, rest)) = accept(tokens, Terminal::Implements) {
        let (_, rest) = take(rest, Terminal::Runnable)?;
        return Ok((true, rest));
    }
    Ok((false, tokens))
}

/// The name of the class that a class extends, or nothing.
#[tactic(auto, unfolding(crate::specs::Members::extended))]
fn extended<'t, 'a>(
    tokens: &'t [Lexeme<'a>],
) -> Result<(Option<Name<'a>>, &'t [Lexeme<'a>]), Stop<'t, 'a>>
    ensures { Gives (λ x. (x.0, x.1.now)) result (extended_at tokens.now) }
{
    if let Some((_, rest)) = accept(tokens, Terminal::Extends) {
        let (above, rest) = name(rest)?;
        return Ok((Some(above), rest));
    }
    Ok((None, tokens))
}

#[tactic(auto, unfolding(crate::specs::Members::class_at))]
fn class<'t, 'a>(
    alloc: Global,
    tokens: &'t [Lexeme<'a>],
) -> Result<(Class<'a>, &'t [Lexeme<'a>]), Stop<'t, 'a>>
    ensures { Gives (λ x. (class_of x.0, x.1.now)) result (class_at tokens.now) }
{
    let (_, rest) = flag(tokens, Terminal::Public);
    let (_, rest) = take(rest, Terminal::Class)?;
    let (name, rest) = name(rest)?;
    let (above, rest) = extended(rest)?;
    let (runnable, rest) = runnable(rest)?;
    let (_, rest) = take(rest, Terminal::OpenBrace)?;
    let (members, rest) = members(alloc, rest)?;
    let (_, rest) = take(rest, Terminal::CloseBrace)?;
    Ok((
        Class {
            name,
            above,
            runnable,
            members,
        },
        rest,
    ))
}

/// One class more.
#[tactic(auto, using(crate::proofs::MemberLoops::class_shorter))]
fn next_class<'t, 'a>(
    alloc: Global,
    so_far: (Vec<Class<'a>>, &'t [Lexeme<'a>]),
) -> Result<(Vec<Class<'a>>, &'t [Lexeme<'a>]), Stop<'t, 'a>>
    ensures tree { Gives (λ x. (map class_of x.0.items, x.1.now)) result (item_step class_at (map class_of so_far.entry.0.items) so_far.entry.1.now) }
    ensures shorter { IfOk result (λ x. length x.1.now < length so_far.entry.1.now) }
{
    let (mut items, rest) = so_far;
    let (item, rest) = class(alloc, rest)?;
    items.push(item)?;
    Ok((items, rest))
}

/// The classes, up to the end of the tokens.
#[tactic(auto, unfolding(crate::specs::Members::program), using(crate::proofs::MemberLoops::class_more, crate::proofs::MemberLoops::class_done))]
pub fn classes<'t, 'a>(
    alloc: Global,
    tokens: &'t [Lexeme<'a>],
) -> Result<(Vec<Class<'a>>, &'t [Lexeme<'a>]), Stop<'t, 'a>>
    ensures { Gives (λ x. (map class_of x.0.items, x.1.now)) result (program_at tokens.now) }
{
    let mut list = (Vec::new(alloc), tokens);
    while stands(list.1) {
        list = next_class(alloc, list)?;
    }
    Ok(list)
}

/// Whether a token is left.
fn stands(tokens: &[Lexeme]) -> bool
    ensures { result ≡ starts (λ x. true) tokens.now }
{
    !tokens.is_empty()
}
