//! Expressions. `high` is the height that is still allowed, and bounds the depth of the recursion.

ghost use Rattle.std.specs.Prelude.{◌≡◌, ◌<◌, ◌≤◌, map, length, IfOk};
ghost use Rattle.syntax.specs.Heights.{height as height_of, heights};
ghost use Rattle.syntax.specs.Limits.{most_height};
ghost use Rattle.syntax.specs.Views.{expr_tree, exprs_from};
ghost use Rattle.parser.specs.Answer.{Gives};
ghost use Rattle.parser.specs.Combine.{comma_step};
ghost use Rattle.parser.specs.Expressions.{arguments as arguments_at, below, call_arguments, chain_at, dots as dots_at, member_rest as member_rest_at, member_step as member_step_at, negated as negated_at, new_rest as new_rest_at, parenthesised as parenthesised_at, postfix as postfix_at, primary as primary_at, unary as unary_at};

use crate::levels::operations;
use crate::lexeme::Lexeme;
use crate::nodes::{Arguments, Parsed, leaf, make_call, make_new};
use crate::stop::{Stop, SyntaxFault};
use crate::tokens::{
    accept, begins, begins_expression, begins_least, least, name, stands_alone, take,
};
use crate::words::{field_name, last_field};
use std::alloc::Global;
use syntax::{Expr, Name, Terminal};

/// The levels of binary operators.
pub const LEVELS: u32 = 6;

/// One argument more, behind its comma.
#[cycle(expression)]
#[tactic(auto, using(crate::proofs::Loops::take_shorter, crate::proofs::Loops::chain_shorter, crate::proofs::Loops::heights_pushed))]
fn next_argument<'t, 'a>(
    alloc: Global,
    so_far: Arguments<'t, 'a>,
    high: u32,
) -> Result<Arguments<'t, 'a>, Stop<'t, 'a>>
    requires high { high ≤ most_height }
    requires positive { 0 < high }
    requires height { so_far.height ≡ heights (exprs_from (map expr_tree so_far.items.items)) }
    requires limit { so_far.height < high }
    ensures tree { Gives (λ x. (map expr_tree x.items.items, x.rest.now)) result (comma_step (below high 6) (map expr_tree so_far.entry.items.items) so_far.entry.rest.now) }
    ensures height { IfOk result (λ x. x.height ≡ heights (exprs_from (map expr_tree x.items.items))) }
    ensures limit { IfOk result (λ x. x.height < high) }
    ensures shorter { IfOk result (λ x. length x.rest.now < length so_far.entry.rest.now) }
{
    let Arguments {
        mut items,
        height,
        rest,
    } = so_far;
    let (_, rest) = take(rest, Terminal::Comma)?;
    let argument = chain(alloc, rest, high - 1, LEVELS)?;
    items.push(Box::into_inner(argument.tree))?;
    Ok(Arguments {
        items,
        height: height.max(argument.height),
        rest: argument.rest,
    })
}

/// Arguments up to the closing parenthesis.
#[cycle(expression)]
#[tactic(auto, unfolding(crate::specs::Expressions::arguments), using(crate::proofs::Loops::argument_more, crate::proofs::Loops::argument_done))]
fn argument_list<'t, 'a>(
    alloc: Global,
    tokens: &'t [Lexeme<'a>],
    high: u32,
) -> Result<Arguments<'t, 'a>, Stop<'t, 'a>>
    requires high { high ≤ most_height }
    requires positive { 0 < high }
    ensures tree { Gives (λ x. (map expr_tree x.items.items, x.rest.now)) result (arguments_at high (below high) tokens.now) }
    ensures height { IfOk result (λ x. x.height ≡ heights (exprs_from (map expr_tree x.items.items))) }
    ensures limit { IfOk result (λ x. x.height < high) }
{
    let mut list = Arguments {
        items: Vec::new(alloc),
        height: 0,
        rest: tokens,
    };
    if begins(tokens, Terminal::CloseParen) {
        return Ok(list);
    }
    let argument = chain(alloc, tokens, high - 1, LEVELS)?;
    list.items.push(Box::into_inner(argument.tree))?;
    list.height = argument.height;
    list.rest = argument.rest;
    while begins(list.rest, Terminal::Comma) {
        list = next_argument(alloc, list, high)?;
    }
    Ok(list)
}

/// Arguments in parentheses.
#[cycle(expression)]
#[tactic(auto, unfolding(crate::specs::Expressions::call_arguments))]
fn arguments_in_parentheses<'t, 'a>(
    alloc: Global,
    tokens: &'t [Lexeme<'a>],
    high: u32,
) -> Result<Arguments<'t, 'a>, Stop<'t, 'a>>
    requires high { high ≤ most_height }
    requires positive { 0 < high }
    ensures tree { Gives (λ x. (map expr_tree x.items.items, x.rest.now)) result (call_arguments high (below high) tokens.now) }
    ensures height { IfOk result (λ x. x.height ≡ heights (exprs_from (map expr_tree x.items.items))) }
    ensures limit { IfOk result (λ x. x.height < high) }
{
    let (_, rest) = take(tokens, Terminal::OpenParen)?;
    let list = argument_list(alloc, rest, high)?;
    let Arguments {
        items,
        height,
        rest,
    } = list;
    let (_, rest) = take(rest, Terminal::CloseParen)?;
    Ok(Arguments {
        items,
        height,
        rest,
    })
}

/// What stands behind `new`, which is at the offset `at`.
#[cycle(expression)]
#[tactic(auto, unfolding(crate::specs::Expressions::new_rest))]
pub fn new_rest<'t, 'a>(
    alloc: Global,
    tokens: &'t [Lexeme<'a>],
    high: u32,
    at: u32,
) -> Result<Parsed<'t, 'a>, Stop<'t, 'a>>
    requires high { high ≤ most_height }
    requires positive { 0 < high }
    ensures tree { Gives (λ x. (expr_tree x.tree.value, x.rest.now)) result (new_rest_at high (below high) at tokens.now) }
    ensures height { IfOk result (λ x. x.height ≡ height_of (expr_tree x.tree.value)) }
    ensures limit { IfOk result (λ x. x.height ≤ high) }
{
    let (class, rest) = name(tokens)?;
    let Arguments {
        items,
        height,
        rest,
    } = arguments_in_parentheses(alloc, rest, high)?;
    Ok(Parsed {
        tree: Box::new(alloc, make_new(class, items, at))?,
        height: height + 1,
        rest,
    })
}

/// An expression in parentheses.
#[cycle(expression)]
#[tactic(auto, unfolding(crate::specs::Expressions::parenthesised))]
fn parenthesised<'t, 'a>(
    alloc: Global,
    tokens: &'t [Lexeme<'a>],
    high: u32,
) -> Result<Parsed<'t, 'a>, Stop<'t, 'a>>
    requires high { high ≤ most_height }
    requires positive { 0 < high }
    ensures tree { Gives (λ x. (expr_tree x.tree.value, x.rest.now)) result (parenthesised_at high (below high) tokens.now) }
    ensures height { IfOk result (λ x. x.height ≡ height_of (expr_tree x.tree.value)) }
    ensures limit { IfOk result (λ x. x.height ≤ high) }
{
    let (at, rest) = take(tokens, Terminal::OpenParen)?;
    let Parsed { tree, height, rest } = chain(alloc, rest, high - 1, LEVELS)?;
    let (_, rest) = take(rest, Terminal::CloseParen)?;
    Ok(Parsed {
        tree: Box::new(alloc, Expr::Paren(tree, at))?,
        height: height + 1,
        rest,
    })
}

/// Reads an expression in parentheses, a `new`, or an expression without parts, of at most this height.
#[cycle(expression)]
#[tactic(auto, unfolding(crate::specs::Expressions::primary))]
pub fn primary<'t, 'a>(
    alloc: Global,
    tokens: &'t [Lexeme<'a>],
    high: u32,
) -> Result<Parsed<'t, 'a>, Stop<'t, 'a>>
    requires high { high ≤ most_height }
    requires positive { 0 < high }
    ensures tree { Gives (λ x. (expr_tree x.tree.value, x.rest.now)) result (primary_at high (below high) tokens.now) }
    ensures height { IfOk result (λ x. x.height ≡ height_of (expr_tree x.tree.value)) }
    ensures limit { IfOk result (λ x. x.height ≤ high) }
{
    if begins(tokens, Terminal::OpenParen) {
        return parenthesised(alloc, tokens, high);
    }
    if let Some((at, rest)) = accept(tokens, Terminal::New) {
        return new_rest(alloc, rest, high, at);
    }
    leaf(alloc, tokens)
}

/// What stands behind a dot and a name: arguments, or nothing.
#[cycle(expression)]
#[tactic(auto, unfolding(crate::specs::Expressions::member_rest))]
fn member_rest<'t, 'a>(
    alloc: Global,
    receiver: Box<Expr<'a>>,
    height: u32,
    member: Name<'a>,
    tokens: &'t [Lexeme<'a>],
    high: u32,
) -> Result<Parsed<'t, 'a>, Stop<'t, 'a>>
    requires high { high ≤ most_height }
    requires positive { 0 < high }
    requires height { height ≡ height_of (expr_tree receiver.value) }
    requires limit { height < high }
    ensures tree { Gives (λ x. (expr_tree x.tree.value, x.rest.now)) result (member_rest_at high (below high) (expr_tree receiver.entry.value) member.entry tokens.now) }
    ensures height { IfOk result (λ x. x.height ≡ height_of (expr_tree x.tree.value)) }
    ensures limit { IfOk result (λ x. x.height ≤ high) }
    ensures grows { IfOk result (λ x. height < x.height) }
{
    if begins(tokens, Terminal::OpenParen) {
        let list = arguments_in_parentheses(alloc, tokens, high)?;
        let Arguments {
            items,
            height: highest,
            rest,
        } = list;
        return Ok(Parsed {
            tree: Box::new(alloc, make_call(receiver, member, items))?,
            height: height.max(highest) + 1,
            rest,
        });
    }
    Ok(Parsed {
        tree: Box::new(alloc, Expr::Get(receiver, member))?,
        height: height + 1,
        rest: tokens,
    })
}

/// A field or a call behind a receiver.
#[cycle(expression)]
#[tactic(auto, unfolding(crate::specs::Expressions::member_step))]
fn member<'t, 'a>(
    alloc: Global,
    receiver: Parsed<'t, 'a>,
    high: u32,
) -> Result<Parsed<'t, 'a>, Stop<'t, 'a>>
    requires high { high ≤ most_height }
    requires positive { 0 < high }
    requires height { receiver.height ≡ height_of (expr_tree receiver.tree.value) }
    ensures tree { Gives (λ x. (expr_tree x.tree.value, x.rest.now)) result (member_step_at high (below high) (expr_tree receiver.entry.tree.value) receiver.entry.rest.now) }
    ensures height { IfOk result (λ x. x.height ≡ height_of (expr_tree x.tree.value)) }
    ensures limit { IfOk result (λ x. x.height ≤ high) }
    ensures grows { IfOk result (λ x. receiver.entry.height < x.height) }
{
    let Parsed { tree, height, rest } = receiver;
    if high <= height {
        return Err(Stop::Fault(SyntaxFault::TooDeep, rest));
    }
    let (member, rest) = field_name(rest)?;
    member_rest(alloc, tree, height, member, rest, high)
}

/// The fields and calls behind an expression.
#[cycle(expression)]
#[tactic(auto, unfolding(crate::specs::Expressions::dots), using(crate::proofs::Loops::member_more, crate::proofs::Loops::member_done))]
pub fn dots<'t, 'a>(
    alloc: Global,
    front: Parsed<'t, 'a>,
    high: u32,
) -> Result<Parsed<'t, 'a>, Stop<'t, 'a>>
    requires high { high ≤ most_height }
    requires positive { 0 < high }
    requires height { front.height ≡ height_of (expr_tree front.tree.value) }
    requires limit { front.height ≤ high }
    ensures tree { Gives (λ x. (expr_tree x.tree.value, x.rest.now)) result (dots_at high (below high) (expr_tree front.entry.tree.value) front.entry.rest.now) }
    ensures height { IfOk result (λ x. x.height ≡ height_of (expr_tree x.tree.value)) }
    ensures limit { IfOk result (λ x. x.height ≤ high) }
{
    let mut whole = front;
    while begins(whole.rest, Terminal::Dot) {
        whole = member(alloc, whole, high)?;
    }
    Ok(whole)
}

/// What an expression begins with, and all dots behind that. Most often there is none, or one field.
#[cycle(expression)]
#[tactic(auto, unfolding(crate::specs::Expressions::postfix), using(crate::proofs::AtOnce::dots_field))]
fn postfix<'t, 'a>(
    alloc: Global,
    tokens: &'t [Lexeme<'a>],
    high: u32,
) -> Result<Parsed<'t, 'a>, Stop<'t, 'a>>
    requires high { high ≤ most_height }
    requires positive { 0 < high }
    ensures tree { Gives (λ x. (expr_tree x.tree.value, x.rest.now)) result (postfix_at high (below high) tokens.now) }
    ensures height { IfOk result (λ x. x.height ≡ height_of (expr_tree x.tree.value)) }
    ensures limit { IfOk result (λ x. x.height ≤ high) }
{
    let front = primary(alloc, tokens, high)?;
    if front.height < high {
        if let Some((field, rest)) = last_field(front.rest) {
            let Parsed {
                tree,
                height,
                rest: _,
            } = front;
            return Ok(Parsed {
                tree: Box::new(alloc, Expr::Get(tree, field))?,
                height: height + 1,
                rest,
            });
        }
    }
    dots(alloc, front, high)
}

/// What stands behind a `-` at the offset `at`.
#[cycle(expression)]
#[tactic(auto, unfolding(crate::specs::Expressions::negated))]
fn negated<'t, 'a>(
    alloc: Global,
    tokens: &'t [Lexeme<'a>],
    high: u32,
    at: u32,
) -> Result<Parsed<'t, 'a>, Stop<'t, 'a>>
    requires high { high ≤ most_height }
    requires positive { 0 < high }
    ensures tree { Gives (λ x. (expr_tree x.tree.value, x.rest.now)) result (negated_at high (below high) at tokens.now) }
    ensures height { IfOk result (λ x. x.height ≡ height_of (expr_tree x.tree.value)) }
    ensures limit { IfOk result (λ x. x.height ≤ high) }
{
    if begins_least(tokens) {
        let (_, rest) = least(tokens)?;
        return Ok(Parsed {
            tree: Box::new(alloc, Expr::Least(at))?,
            height: 1,
            rest,
        });
    }
    let Parsed { tree, height, rest } = chain(alloc, tokens, high - 1, 0)?;
    Ok(Parsed {
        tree: Box::new(alloc, Expr::Neg(tree, at))?,
        height: height + 1,
        rest,
    })
}

#[cycle(expression)]
#[tactic(auto, unfolding(crate::specs::Expressions::unary))]
pub(crate) fn unary<'t, 'a>(
    alloc: Global,
    tokens: &'t [Lexeme<'a>],
    high: u32,
) -> Result<Parsed<'t, 'a>, Stop<'t, 'a>>
    requires high { high ≤ most_height }
    requires positive { 0 < high }
    ensures tree { Gives (λ x. (expr_tree x.tree.value, x.rest.now)) result (unary_at high (below high) tokens.now) }
    ensures height { IfOk result (λ x. x.height ≡ height_of (expr_tree x.tree.value)) }
    ensures limit { IfOk result (λ x. x.height ≤ high) }
{
    if let Some((at, rest)) = accept(tokens, Terminal::Bang) {
        let Parsed { tree, height, rest } = chain(alloc, rest, high - 1, 0)?;
        return Ok(Parsed {
            tree: Box::new(alloc, Expr::Not(tree, at))?,
            height: height + 1,
            rest,
        });
    }
    if let Some((at, rest)) = accept(tokens, Terminal::Minus) {
        return negated(alloc, rest, high, at);
    }
    postfix(alloc, tokens, high)
}

/// An expression at most `high` nodes high, whose operators are of the first levels.
#[cycle(expression)]
#[tactic(auto, using(crate::proofs::Loops::chain_zero, crate::proofs::Loops::chain_positive, crate::proofs::AtOnce::chain_alone))]
pub fn chain<'t, 'a>(
    alloc: Global,
    tokens: &'t [Lexeme<'a>],
    high: u32,
    levels: u32,
) -> Result<Parsed<'t, 'a>, Stop<'t, 'a>>
    requires high { high ≤ most_height }
    requires levels { levels ≤ 6 }
    ensures tree { Gives (λ x. (expr_tree x.tree.value, x.rest.now)) result (chain_at high levels tokens.now) }
    ensures height { IfOk result (λ x. x.height ≡ height_of (expr_tree x.tree.value)) }
    ensures limit { IfOk result (λ x. x.height ≤ high) }
{
    if high == 0 {
        if begins_expression(tokens) {
            return Err(Stop::Fault(SyntaxFault::TooDeep, tokens));
        }
        return Err(Stop::Fault(SyntaxFault::Unexpected, tokens));
    }
    if stands_alone(tokens) {
        return leaf(alloc, tokens);
    }
    operations(alloc, tokens, high, levels)
}
