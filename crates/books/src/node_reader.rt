//! Derivations at the front of a text.
ghost use Rattle.std.specs.Prelude.{◌≡◌, ◌≤◌, ◌^◌, if◌then◌else◌};
ghost use Rattle.books.specs.Combine.{begins as begins_with};
ghost use Rattle.books.specs.Faults.{Gives};
ghost use Rattle.books.specs.Passing.{pass_node, pass_premise, pass_several};

use crate::front::{begins, expect_byte};
use crate::names::first_word;
use crate::numbers::number;
use crate::stop::{Kind, Stop};

/// Passes over a node with at most `room` nodes within each other, whose numbers are below `count`.
#[tactic(auto, unfolding(crate::specs::Passing::pass_node), using(crate::proofs::PassLemmas::premises_more, crate::proofs::PassLemmas::premises_done))]
#[cycle(nodes)]
pub fn node<'a>(text: &'a [u8], count: u64, room: u32) -> Result<&'a [u8], Stop<'a>>
    requires { count ≤ 2 ^ 32 }
    ensures { Gives (λ r. (tt {0}, r.now)) result (pass_node count room text.now) }
{
    if room == 0 {
        return Err(beyond(text));
    }
    let rest = expect_byte(text, b'(')?;
    let (_, rest) = first_word(rest)?;
    let (_, rest) = number(rest, count)?;
    let rest = premises(rest, count, room - 1)?;
    expect_byte(rest, b')')
}

/// Passes over nodes side by side, each after a blank.
#[tactic(auto, using(crate::proofs::PassLemmas::premises_more, crate::proofs::PassLemmas::premises_done, crate::proofs::PassLemmas::premises_shorter))]
#[cycle(nodes)]
fn premises<'a>(text: &'a [u8], count: u64, room: u32) -> Result<&'a [u8], Stop<'a>>
    requires { count ≤ 2 ^ 32 }
    ensures { Gives (λ r. (tt {0}, r.now)) result (pass_several 32 (pass_premise (pass_node count room)) text.now) }
{
    let mut rest = text;
    while begins(rest, b' ') {
        rest = premise(rest, count, room)?;
    }
    Ok(rest)
}

/// Passes over a node after a blank.
#[cycle(nodes)]
fn premise<'a>(text: &'a [u8], count: u64, room: u32) -> Result<&'a [u8], Stop<'a>>
    requires { count ≤ 2 ^ 32 }
    ensures { Gives (λ r. (tt {0}, r.now)) result (pass_premise (pass_node count room) text.now) }
{
    let rest = expect_byte(text, b' ')?;
    node(rest, count, room)
}

/// Why no node stands where no height is left.
fn beyond(text: &[u8]) -> Stop<'_>
    ensures kind { result.kind ≡ (if begins_with 40 text.now then Kind.TooDeep else Kind.Form) }
    ensures rest { result.rest.now ≡ text.now }
{
    let kind = if begins(text, b'(') {
        Kind::TooDeep
    } else {
        Kind::Form
    };
    Stop { kind, rest: text }
}
