//! Members of classes.

ghost use Rattle.std.specs.Prelude.{◌<◌, map, length, IfOk};
ghost use Rattle.std.specs.Option.{option_map};
ghost use Rattle.syntax.specs.Views.{lock_of, member_of};
ghost use Rattle.parser.specs.Answer.{Gives};
ghost use Rattle.parser.specs.Combine.{comma_step, item_step, several};
ghost use Rattle.parser.specs.Words.{lock as lock_at};
ghost use Rattle.parser.specs.Statements.{block_goes_on as may_go_on};
ghost use Rattle.parser.specs.Members.{bare_member as bare_member_at, ctor_rest as ctor_rest_at, field_rest as field_rest_at, final_field as final_field_at, guard as guard_at, member as member_at, method_rest as method_rest_at, named_member as named_member_at, param as param_at, param_list as param_list_at, params as params_at, plain_method as plain_method_at, required as required_at, result_type as result_type_at, set as set_at, typed_rest as typed_rest_at};

use crate::compound::{Braces, block};
use crate::lexeme::Lexeme;
use crate::starts::goes_on;
use crate::stop::Stop;
use crate::tokens::{accept, begins, begins_name, flag, name, take};
use crate::words::{field_name, lock, type_name};
use std::alloc::Global;
use syntax::{Lock, MOST_HEIGHT, Member, Name, Param, Terminal, TypeName};

/// A parameter. A constructor's is never final, whatever its text says.
#[tactic(auto, unfolding(crate::specs::Members::param))]
fn param<'t, 'a>(
    tokens: &'t [Lexeme<'a>],
    of_ctor: bool,
) -> Result<(Param<'a>, &'t [Lexeme<'a>]), Stop<'t, 'a>>
    ensures { Gives (λ x. (x.0, x.1.now)) result (param_at of_ctor tokens.now) }
{
    let (says_final, rest) = flag(tokens, Terminal::Final);
    let (ty, rest) = type_name(rest)?;
    let (name, rest) = name(rest)?;
    Ok((
        Param {
            is_final: says_final && !of_ctor,
            ty,
            name,
        },
        rest,
    ))
}

/// One parameter more, behind its comma.
#[tactic(auto, using(crate::proofs::MemberLoops::param_shorter, crate::proofs::Loops::take_shorter))]
fn next_param<'t, 'a>(
    so_far: (Vec<Param<'a>>, &'t [Lexeme<'a>]),
    of_ctor: bool,
) -> Result<(Vec<Param<'a>>, &'t [Lexeme<'a>]), Stop<'t, 'a>>
    ensures tree { Gives (λ x. (x.0.items, x.1.now)) result (comma_step (param_at of_ctor) so_far.entry.0.items so_far.entry.1.now) }
    ensures shorter { IfOk result (λ x. length x.1.now < length so_far.entry.1.now) }
{
    let (mut items, rest) = so_far;
    let (_, rest) = take(rest, Terminal::Comma)?;
    let (item, rest) = param(rest, of_ctor)?;
    items.push(item)?;
    Ok((items, rest))
}

/// Parameters with commas between them, or none.
#[tactic(auto, unfolding(crate::specs::Members::param_list), using(crate::proofs::MemberLoops::param_more, crate::proofs::MemberLoops::param_done))]
fn param_list<'t, 'a>(
    alloc: Global,
    tokens: &'t [Lexeme<'a>],
    of_ctor: bool,
) -> Result<(Vec<Param<'a>>, &'t [Lexeme<'a>]), Stop<'t, 'a>>
    ensures { Gives (λ x. (x.0.items, x.1.now)) result (param_list_at of_ctor tokens.now) }
{
    let mut list = (Vec::new(alloc), tokens);
    if begins(tokens, Terminal::CloseParen) {
        return Ok(list);
    }
    let (first, rest) = param(tokens, of_ctor)?;
    list.0.push(first)?;
    list.1 = rest;
    while begins(list.1, Terminal::Comma) {
        list = next_param(list, of_ctor)?;
    }
    Ok(list)
}

/// Parameters in parentheses.
#[tactic(auto, unfolding(crate::specs::Members::params))]
fn params<'t, 'a>(
    alloc: Global,
    tokens: &'t [Lexeme<'a>],
    of_ctor: bool,
) -> Result<(Vec<Param<'a>>, &'t [Lexeme<'a>]), Stop<'t, 'a>>
    ensures { Gives (λ x. (x.0.items, x.1.now)) result (params_at of_ctor tokens.now) }
{
    let (_, rest) = take(tokens, Terminal::OpenParen)?;
    let (items, rest) = param_list(alloc, rest, of_ctor)?;
    let (_, rest) = take(rest, Terminal::CloseParen)?;
    Ok((items, rest))
}

/// One required lock more, behind its comma.
#[tactic(auto, using(crate::proofs::MemberLoops::lock_shorter, crate::proofs::Loops::take_shorter))]
fn next_lock<'t, 'a>(
    alloc: Global,
    so_far: (Vec<Lock<'a>>, &'t [Lexeme<'a>]),
) -> Result<(Vec<Lock<'a>>, &'t [Lexeme<'a>]), Stop<'t, 'a>>
    ensures tree { Gives (λ x. (map lock_of x.0.items, x.1.now)) result (comma_step lock_at (map lock_of so_far.entry.0.items) so_far.entry.1.now) }
    ensures shorter { IfOk result (λ x. length x.1.now < length so_far.entry.1.now) }
{
    let (mut items, rest) = so_far;
    let (_, rest) = take(rest, Terminal::Comma)?;
    let (item, rest) = lock(alloc, rest)?;
    items.push(item)?;
    Ok((items, rest))
}

/// The locks that a method requires, or none.
#[tactic(auto, unfolding(crate::specs::Members::required), using(crate::proofs::MemberLoops::lock_more, crate::proofs::MemberLoops::lock_done))]
fn required<'t, 'a>(
    alloc: Global,
    tokens: &'t [Lexeme<'a>],
) -> Result<(Vec<Lock<'a>>, &'t [Lexeme<'a>]), Stop<'t, 'a>>
    ensures { Gives (λ x. (map lock_of x.0.items, x.1.now)) result (required_at tokens.now) }
{
    let mut list = (Vec::new(alloc), tokens);
    let Some((_, rest)) = accept(tokens, Terminal::Requires) else {
        return Ok(list);
    };
    let (first, rest) = lock(alloc, rest)?;
    list.0.push(first)?;
    list.1 = rest;
    while begins(list.1, Terminal::Comma) {
        list = next_lock(alloc, list)?;
    }
    Ok(list)
}

/// What stands behind the name of a method.
#[tactic(auto, unfolding(crate::specs::Members::method_rest))]
fn method_rest<'t, 'a>(
    alloc: Global,
    atomic: bool,
    returns: Option<TypeName<'a>>,
    name: Name<'a>,
    tokens: &'t [Lexeme<'a>],
) -> Result<(Member<'a>, &'t [Lexeme<'a>]), Stop<'t, 'a>>
    ensures { Gives (λ x. (member_of x.0, x.1.now)) result (method_rest_at atomic returns.entry name.entry tokens.now) }
{
    let (params, rest) = params(alloc, tokens, false)?;
    let (requires_, rest) = required(alloc, rest)?;
    let (inside, rest) = block(alloc, rest, MOST_HEIGHT)?;
    let Braces {
        at: _,
        statements,
        end,
    } = inside;
    Ok((
        Member::Method {
            atomic,
            result: returns,
            name,
            params,
            requires_,
            body: statements,
            end,
        },
        rest,
    ))
}

/// An assignment of a constructor: the field, and the parameter.
#[tactic(auto, unfolding(crate::specs::Members::set))]
fn set<'t, 'a>(
    tokens: &'t [Lexeme<'a>],
) -> Result<((Name<'a>, Name<'a>), &'t [Lexeme<'a>]), Stop<'t, 'a>>
    ensures { Gives (λ x. (x.0, x.1.now)) result (set_at tokens.now) }
{
    let (_, rest) = take(tokens, Terminal::This)?;
    let (field, rest) = field_name(rest)?;
    let (_, rest) = take(rest, Terminal::Assign)?;
    let (parameter, rest) = name(rest)?;
    let (_, rest) = take(rest, Terminal::Semicolon)?;
    Ok(((field, parameter), rest))
}

/// One assignment more of a constructor.
#[tactic(auto, using(crate::proofs::MemberLoops::set_shorter))]
fn next_set<'t, 'a>(
    so_far: (Vec<(Name<'a>, Name<'a>)>, &'t [Lexeme<'a>]),
) -> Result<(Vec<(Name<'a>, Name<'a>)>, &'t [Lexeme<'a>]), Stop<'t, 'a>>
    ensures tree { Gives (λ x. (x.0.items, x.1.now)) result (item_step set_at so_far.entry.0.items so_far.entry.1.now) }
    ensures shorter { IfOk result (λ x. length x.1.now < length so_far.entry.1.now) }
{
    let (mut items, rest) = so_far;
    let (item, rest) = set(rest)?;
    items.push(item)?;
    Ok((items, rest))
}

#[tactic(auto, using(crate::proofs::MemberLoops::set_more, crate::proofs::MemberLoops::set_done))]
fn sets<'t, 'a>(
    alloc: Global,
    tokens: &'t [Lexeme<'a>],
) -> Result<(Vec<(Name<'a>, Name<'a>)>, &'t [Lexeme<'a>]), Stop<'t, 'a>>
    ensures { Gives (λ x. (x.0.items, x.1.now)) result (several may_go_on set_at tokens.now) }
{
    let mut list = (Vec::new(alloc), tokens);
    while goes_on(list.1) {
        list = next_set(list)?;
    }
    Ok(list)
}

/// What stands behind the name of a constructor.
#[tactic(auto, unfolding(crate::specs::Members::ctor_rest))]
fn ctor_rest<'t, 'a>(
    alloc: Global,
    name: Name<'a>,
    tokens: &'t [Lexeme<'a>],
) -> Result<(Member<'a>, &'t [Lexeme<'a>]), Stop<'t, 'a>>
    ensures { Gives (λ x. (member_of x.0, x.1.now)) result (ctor_rest_at name.entry tokens.now) }
{
    let (params, rest) = params(alloc, tokens, true)?;
    let (_, rest) = take(rest, Terminal::OpenBrace)?;
    let (sets, rest) = sets(alloc, rest)?;
    let (_, rest) = take(rest, Terminal::CloseBrace)?;
    Ok((Member::Ctor { name, params, sets }, rest))
}

/// The lock that guards a field, or none, and whether it guards writes alone.
#[tactic(auto, unfolding(crate::specs::Members::guard))]
fn guard<'t, 'a>(
    alloc: Global,
    tokens: &'t [Lexeme<'a>],
) -> Result<((Option<Lock<'a>>, bool), &'t [Lexeme<'a>]), Stop<'t, 'a>>
    ensures { Gives (λ x. ((option_map lock_of x.0.0, x.0.1), x.1.now)) result (guard_at tokens.now) }
{
    if let Some((_, rest)) = accept(tokens, Terminal::GuardedBy) {
        let (held, rest) = lock(alloc, rest)?;
        return Ok(((Some(held), false), rest));
    }
    if let Some((_, rest)) = accept(tokens, Terminal::WriteGuardedBy) {
        let (held, rest) = lock(alloc, rest)?;
        return Ok(((Some(held), true), rest));
    }
    Ok(((None, false), tokens))
}

/// What stands behind the name of a field.
#[tactic(auto, unfolding(crate::specs::Members::field_rest))]
fn field_rest<'t, 'a>(
    alloc: Global,
    ty: TypeName<'a>,
    name: Name<'a>,
    tokens: &'t [Lexeme<'a>],
) -> Result<(Member<'a>, &'t [Lexeme<'a>]), Stop<'t, 'a>>
    ensures { Gives (λ x. (member_of x.0, x.1.now)) result (field_rest_at ty.entry name.entry tokens.now) }
{
    let ((guard, writes_only), rest) = guard(alloc, tokens)?;
    let (_, rest) = take(rest, Terminal::Semicolon)?;
    Ok((
        Member::Field {
            is_final: false,
            ty,
            name,
            guard,
            writes_only,
        },
        rest,
    ))
}

/// What stands behind the type of a field or a method.
#[tactic(auto, unfolding(crate::specs::Members::typed_rest))]
fn typed_rest<'t, 'a>(
    alloc: Global,
    ty: TypeName<'a>,
    tokens: &'t [Lexeme<'a>],
) -> Result<(Member<'a>, &'t [Lexeme<'a>]), Stop<'t, 'a>>
    ensures { Gives (λ x. (member_of x.0, x.1.now)) result (typed_rest_at ty.entry tokens.now) }
{
    let (name, rest) = name(tokens)?;
    if begins(rest, Terminal::OpenParen) {
        return method_rest(alloc, false, Some(ty), name, rest);
    }
    field_rest(alloc, ty, name, rest)
}

#[tactic(auto, unfolding(crate::specs::Members::final_field))]
fn final_field<'t, 'a>(
    tokens: &'t [Lexeme<'a>],
) -> Result<(Member<'a>, &'t [Lexeme<'a>]), Stop<'t, 'a>>
    ensures { Gives (λ x. (member_of x.0, x.1.now)) result (final_field_at tokens.now) }
{
    let (_, rest) = take(tokens, Terminal::Final)?;
    let (ty, rest) = type_name(rest)?;
    let (name, rest) = name(rest)?;
    let (_, rest) = take(rest, Terminal::Semicolon)?;
    Ok((
        Member::Field {
            is_final: true,
            ty,
            name,
            guard: None,
            writes_only: false,
        },
        rest,
    ))
}

/// The type of a result, or `void`.
#[tactic(auto, unfolding(crate::specs::Members::result_type))]
fn result_type<'t, 'a>(
    tokens: &'t [Lexeme<'a>],
) -> Result<(Option<TypeName<'a>>, &'t [Lexeme<'a>]), Stop<'t, 'a>>
    ensures { Gives (λ x. (x.0, x.1.now)) result (result_type_at tokens.now) }
{
    if let Some((_, rest)) = accept(tokens, Terminal::Void) {
        return Ok((None, rest));
    }
    let (ty, rest) = type_name(tokens)?;
    Ok((Some(ty), rest))
}

#[tactic(auto, unfolding(crate::specs::Members::plain_method))]
fn plain_method<'t, 'a>(
    alloc: Global,
    atomic: bool,
    tokens: &'t [Lexeme<'a>],
) -> Result<(Member<'a>, &'t [Lexeme<'a>]), Stop<'t, 'a>>
    ensures { Gives (λ x. (member_of x.0, x.1.now)) result (plain_method_at atomic tokens.now) }
{
    let (returns, rest) = result_type(tokens)?;
    let (name, rest) = name(rest)?;
    method_rest(alloc, atomic, returns, name, rest)
}

/// A constructor, or a member whose type is a class.
#[tactic(auto, unfolding(crate::specs::Members::named_member))]
fn named_member<'t, 'a>(
    alloc: Global,
    tokens: &'t [Lexeme<'a>],
) -> Result<(Member<'a>, &'t [Lexeme<'a>]), Stop<'t, 'a>>
    ensures { Gives (λ x. (member_of x.0, x.1.now)) result (named_member_at tokens.now) }
{
    let (first, rest) = name(tokens)?;
    if begins(rest, Terminal::OpenParen) {
        return ctor_rest(alloc, first, rest);
    }
    typed_rest(alloc, TypeName::Class(first), rest)
}

/// A member behind its `public`.
#[tactic(auto, unfolding(crate::specs::Members::bare_member))]
fn bare_member<'t, 'a>(
    alloc: Global,
    tokens: &'t [Lexeme<'a>],
) -> Result<(Member<'a>, &'t [Lexeme<'a>]), Stop<'t, 'a>>
    ensures { Gives (λ x. (member_of x.0, x.1.now)) result (bare_member_at tokens.now) }
{
    if begins(tokens, Terminal::Final) {
        return final_field(tokens);
    }
    if let Some((_, rest)) = accept(tokens, Terminal::Atomic) {
        return plain_method(alloc, true, rest);
    }
    if begins(tokens, Terminal::Void) {
        return plain_method(alloc, false, tokens);
    }
    if begins_name(tokens) {
        return named_member(alloc, tokens);
    }
    let (ty, rest) = type_name(tokens)?;
    typed_rest(alloc, ty, rest)
}

#[tactic(auto, unfolding(crate::specs::Members::member))]
pub(crate) fn member<'t, 'a>(
    alloc: Global,
    tokens: &'t [Lexeme<'a>],
) -> Result<(Member<'a>, &'t [Lexeme<'a>]), Stop<'t, 'a>>
    ensures { Gives (λ x. (member_of x.0, x.1.now)) result (member_at tokens.now) }
{
    let (_, rest) = flag(tokens, Terminal::Public);
    bare_member(alloc, rest)
}
