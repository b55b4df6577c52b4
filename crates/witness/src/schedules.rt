//! The schedule that leads to a node: what was stepped from node to node.
ghost use Rattle.std.specs.Prelude.{◌≡◌, ◌++◌, ℕ, List, reverse, IfOk, OnOk};
ghost use Rattle.witness.specs.Searching.{IsScheduleTo};

use crate::node::{Node, copied};
use std::alloc::{AllocError as NoMemory, Global};

/// Adds steps to a schedule that is written backwards.
fn add_backwards(alloc: Global, schedule: &mut Vec<u32>, steps: &[u32]) -> Result<(), NoMemory>
    ensures { OnOk result (schedule.new.items ≡ schedule.old.items ++ reverse steps.now) }
{
    let mut backwards = copied(alloc, steps)?;
    backwards.reverse();
    schedule.extend_from_slice(backwards.as_slice())?;
    Ok(())
}

/// The schedule that leads to the node at this place.
pub(crate) fn schedule_to(
    alloc: Global,
    nodes: &[Node<'_>],
    place: usize,
) -> Result<Vec<u32>, NoMemory>
    requires { (schedule : List ℕ) × IsScheduleTo nodes.now place schedule }
    ensures { (schedule : List ℕ) → IsScheduleTo nodes.now place schedule → IfOk result (λ found. found.items ≡ schedule) }
{
    let mut schedule = Vec::new(alloc);
    let mut at = place;
    'nodes: while at > 0 {
        let node = &nodes[at];
        add_backwards(alloc, &mut schedule, node.steps.as_slice())?;
        at = node.from;
    }
    schedule.reverse();
    Ok(schedule)
}
