//! The steps of a walk.
ghost use Rattle.std.specs.Prelude.{◌≡◌, Some, None, IfOk, IfSome, slice_get};
ghost use Rattle.forest.specs.Walks.{BeginsAt, Leads, after};

use crate::left::Left;
use std::alloc::{AllocError as NoMemory, Global};

/// A step of a walk: down to a node from the one above it, or from a node up to the one above it.
#[derive(Clone, Copy)]
pub enum Step {
    Down(usize),
    Up(usize),
}

/// Where a step leads to: a node, or above all roots.
pub fn after(above: &[Option<usize>], step: Step) -> Option<usize>
    ensures { result ≡ after above.now step }
{
    match step {
        Step::Down(node) => Some(node),
        Step::Up(node) => *above.get(node)?,
    }
}

/// A walk that begins above all roots. It goes down to each node that a root leads to once, and up from it once: so it
/// is linear in the nodes. A node that no root leads to, as on a circle, isn't met.
pub fn walk(alloc: Global, above: &[Option<usize>]) -> Result<Vec<Step>, NoMemory>
    ensures { IfOk result (λ steps. Leads above.now None steps.items) }
{
    let mut left = Left::all(alloc, above)?;
    let mut steps = Vec::new(alloc);
    let mut at = None;
    for _ in 0..above.len().saturating_mul(2) {
        let Some(step) = next_step(above, at, &mut left) else {
            return Ok(steps);
        };
        steps.push(step)?;
        at = after(above, step);
    }
    Ok(steps)
}

/// The next step: down, where a node is left right below; else up. None where the walk is done.
fn next_step(above: &[Option<usize>], at: Option<usize>, left: &mut Left) -> Option<Step>
    ensures { IfSome result (BeginsAt above.now at) }
{
    match next_down(above, at, left) {
        Some(node) => Some(Step::Down(node)),
        None => Some(Step::Up(at?)),
    }
}

/// The next node right below this place.
fn next_down(above: &[Option<usize>], at: Option<usize>, left: &mut Left) -> Option<usize>
    ensures { IfSome result (λ node. slice_get above.now node ≡ Some at) }
{
    let node = left.take_below(at)?;
    // What is left is a hint.
    if *above.get(node)? == at {
        Some(node)
    } else {
        None
    }
}
