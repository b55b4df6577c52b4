//! Going on from a node where one thread alone has to be looked at.
ghost use Rattle.std.specs.Prelude.{◌≡◌, ◌<◌, true, Some, None, IfSome, OnOk};
ghost use Rattle.witness.specs.Walks.{allows};
ghost use Rattle.witness.specs.Nodes.{left_at};
ghost use Rattle.witness.specs.Searching.{IsNode, IsAlone, IsLone, IsPassed};

use crate::node::{Node, advance, can_step};
use crate::search::{Search, is_end};
use crate::table::allows;
use crate::unseen::is_unseen;
use std::alloc::{AllocError as NoMemory, Global};

/// The most steps that are passed before a node.
const MOST_PASSED: u32 = 1_000;

/// Whether a thread has a step that nobody else sees, and entries are left for it.
pub(crate) fn is_alone(search: &Search<'_>, node: &Node<'_>, thread: u32) -> bool
    requires { IsNode search.now node.now }
    ensures allowed { result ≡ true → allows search.now.counted (left_at node.now) thread ≡ true }
    ensures alone { result ≡ true → IsAlone search.now node.now thread None }
{
    if !allows(search.counted, node.left.as_slice(), thread) {
        return false;
    }
    is_unseen(&node.machine, search.code, thread)
}

/// The least thread with a step that nobody else sees, of which entries are left.
fn first_unseen(search: &Search<'_>, node: &Node<'_>) -> Option<u32>
    requires { IsNode search.now node.now }
    ensures { IfSome result (λ t. (allows search.now.counted (left_at node.now) t ≡ true) × IsAlone search.now node.now t None) }
{
    let mut thread = 0u32;
    'threads: for _ in node.machine.threads() {
        if is_alone(search, node, thread) {
            return Some(thread);
        }
        thread = thread.saturating_add(1);
    }
    None
}

/// The thread that has to go on, where entries are left for it, and no end that is looked for is passed.
fn busy_alone(search: &Search<'_>, node: &Node<'_>, thread: u32) -> Option<u32>
    requires busy { node.now.busy ≡ Some thread }
    requires few { node.now.machine.made < 4294967295 }
    ensures { IfSome result (IsLone search.now node.now) }
{
    if !allows(search.counted, node.left.as_slice(), thread) {
        return None;
    }
    if is_end(search, node) {
        return None;
    }
    Some(thread)
}

/// The thread that goes on alone.
fn lone(search: &Search<'_>, node: &Node<'_>) -> Option<u32>
    requires { IsNode search.now node.now }
    ensures { IfSome result (IsLone search.now node.now) }
{
    if !can_step(&node.machine) {
        return None;
    }
    match node.busy {
        None => first_unseen(search, node),
        Some(thread) => busy_alone(search, node, thread),
    }
}

/// Goes on while one thread goes on alone.
pub(crate) fn pass(alloc: Global, search: &Search<'_>, node: &mut Node<'_>) -> Result<(), NoMemory>
    requires { IsNode search.now node.old }
    ensures { OnOk result (IsPassed search.now node.old node.new) }
{
    'steps: for _ in 0..MOST_PASSED {
        let Some(thread) = lone(search, node) else {
            return Ok(());
        };
        if !advance(alloc, node, thread)? {
            return Ok(());
        }
    }
    Ok(())
}
