//! Operators between operands, level by level. `high` is the height that is still allowed.

ghost use Rattle.std.specs.Prelude.{◌≡◌, ◌-◌, ◌<◌, ◌≤◌, IfOk};
ghost use Rattle.syntax.specs.Heights.{height as height_of};
ghost use Rattle.syntax.specs.Limits.{most_height};
ghost use Rattle.syntax.specs.Views.{expr_tree};
ghost use Rattle.parser.specs.Answer.{Gives};
ghost use Rattle.parser.specs.Combine.{loop};
ghost use Rattle.parser.specs.Words.{is_op};
ghost use Rattle.parser.specs.Expressions.{below, chain_with, op_step};

use crate::expression::{chain, unary};
use crate::lexeme::Lexeme;
use crate::nodes::{Parsed, make_binary};
use crate::stop::{Stop, SyntaxFault};
use crate::tokens::{begins_any_operator, begins_operator, operator};
use std::alloc::Global;

/// An operator and its right operand, behind the left one.
#[cycle(expression)]
#[tactic(auto, unfolding(crate::specs::Expressions::op_step))]
fn operation<'t, 'a>(
    alloc: Global,
    left: Parsed<'t, 'a>,
    high: u32,
    levels: u32,
) -> Result<Parsed<'t, 'a>, Stop<'t, 'a>>
    requires high { high ≤ most_height }
    requires positive { 0 < high }
    requires levels { levels < 6 }
    requires height { left.height ≡ height_of (expr_tree left.tree.value) }
    ensures tree { Gives (λ x. (expr_tree x.tree.value, x.rest.now)) result (op_step high (below high) levels (expr_tree left.entry.tree.value) left.entry.rest.now) }
    ensures height { IfOk result (λ x. x.height ≡ height_of (expr_tree x.tree.value)) }
    ensures limit { IfOk result (λ x. x.height ≤ high) }
    ensures grows { IfOk result (λ x. left.entry.height < x.height) }
{
    let Parsed {
        tree: operand,
        height,
        rest,
    } = left;
    if high <= height {
        return Err(Stop::Fault(SyntaxFault::TooDeep, rest));
    }
    let ((op, at), rest) = operator(rest, levels + 1)?;
    let right = chain(alloc, rest, high - 1, levels)?;
    let Parsed {
        tree,
        height: other,
        rest,
    } = right;
    Ok(Parsed {
        tree: Box::new(alloc, make_binary(op, operand, tree, at))?,
        height: height.max(other) + 1,
        rest,
    })
}

/// Operators of one level and their right operands, behind an operand of the levels before it.
#[cycle(expression)]
#[tactic(auto, using(crate::proofs::Loops::operation_more, crate::proofs::Loops::operation_done))]
fn operators<'t, 'a>(
    alloc: Global,
    front: Parsed<'t, 'a>,
    high: u32,
    levels: u32,
) -> Result<Parsed<'t, 'a>, Stop<'t, 'a>>
    requires high { high ≤ most_height }
    requires positive { 0 < high }
    requires first { 0 < levels }
    requires levels { levels ≤ 6 }
    requires height { front.height ≡ height_of (expr_tree front.tree.value) }
    requires limit { front.height ≤ high }
    ensures tree { Gives (λ x. (expr_tree x.tree.value, x.rest.now)) result (loop (is_op levels) (op_step high (below high) (levels - 1)) (expr_tree front.entry.tree.value) front.entry.rest.now) }
    ensures height { IfOk result (λ x. x.height ≡ height_of (expr_tree x.tree.value)) }
    ensures limit { IfOk result (λ x. x.height ≤ high) }
{
    let mut whole = front;
    while begins_operator(whole.rest, levels) {
        whole = operation(alloc, whole, high, levels - 1)?;
    }
    Ok(whole)
}

/// Operands with operators of the first levels between them. Where no operator stands, no level is asked.
#[cycle(expression)]
#[tactic(auto, using(crate::proofs::Loops::chain_levels, crate::proofs::Loops::levels_more, crate::proofs::Loops::levels_done, crate::proofs::Loops::levels_quiet))]
pub(crate) fn operations<'t, 'a>(
    alloc: Global,
    tokens: &'t [Lexeme<'a>],
    high: u32,
    levels: u32,
) -> Result<Parsed<'t, 'a>, Stop<'t, 'a>>
    requires high { high ≤ most_height }
    requires positive { 0 < high }
    requires levels { levels ≤ 6 }
    ensures tree { Gives (λ x. (expr_tree x.tree.value, x.rest.now)) result (chain_with high (below high) levels tokens.now) }
    ensures height { IfOk result (λ x. x.height ≡ height_of (expr_tree x.tree.value)) }
    ensures limit { IfOk result (λ x. x.height ≤ high) }
{
    let mut whole = unary(alloc, tokens, high)?;
    let mut done = 0;
    while done < levels {
        if !begins_any_operator(whole.rest) {
            return Ok(whole);
        }
        whole = operators(alloc, whole, high, done + 1)?;
        done += 1;
    }
    Ok(whole)
}
