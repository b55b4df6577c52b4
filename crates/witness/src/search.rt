//! The search: nodes are expanded one after the other, and each state is looked at once.
ghost use Rattle.std.specs.Prelude.{◌≡◌, ◌≤◌, ◌<◌, ℕ, Some, None, true, false, vec_len, slice_get, IfOk};
ghost use Rattle.state.specs.States.{State, initial};
ghost use Rattle.witness.specs.declared.node.Node.{Node};
ghost use Rattle.witness.specs.Judging.{AreLike, IsGoal};
ghost use Rattle.witness.specs.Nodes.{left_at, Covers, IsTwin};
ghost use Rattle.witness.specs.Searching.{IsNextNode, AreNodes, InSet, IsNodeAdded, IsNodeReached, IsFollowed, IsExpanded, IsFound, start_left, searched};

use crate::goal::{Goal, is_like};
use crate::judge::Judged;
use crate::node::{Node, can_step, child, is_twin};
use crate::passing::pass;
use crate::places::{Places, key_of};
use crate::schedules::schedule_to;
use crate::table::is_used_up;
use compile::CodeTable;
use core_program::CoreProgram;
use std::alloc::{AllocError as NoMemory, Global};

/// What is searched: a program with its code, the entries that are left at the start, whether they are counted, the end that is
/// looked for, and how many states are seen at most.
#[derive(Clone, Copy)]
pub(crate) struct Search<'s> {
    pub(crate) program: &'s CoreProgram,
    pub(crate) code: &'s CodeTable,
    pub(crate) left: &'s [u32],
    pub(crate) counted: bool,
    pub(crate) goal: Goal<'s>,
    pub(crate) most: u32,
}

/// Whether one of the nodes is the same as this one, which has this key, but for the steps that led there.
fn is_known(nodes: &[Node<'_>], places: &Places, key: u32, node: &Node<'_>) -> bool
    ensures { result ≡ true → (k : ℕ) × (n : Node) × (slice_get nodes.now k ≡ Some n) × IsTwin n node.now }
{
    let mut place = places.last(key);
    'chain: for _ in 0..nodes.len() {
        let Some(other) = nodes.get(place) else {
            return false;
        };
        if is_twin(other, node) {
            return true;
        }
        place = places.before(place);
    }
    false
}

/// Adds a node, where it isn't there already, and answers whether there was room.
fn add<'p>(
    search: &Search<'_>,
    nodes: &mut Vec<Node<'p>>,
    places: &mut Places,
    node: Node<'p>,
) -> Result<bool, NoMemory>
    requires most { vec_len nodes.old ≤ search.now.most }
    requires nodes { AreNodes search.now nodes.old.items }
    requires node { IsNextNode search.now nodes.old.items node }
    ensures added { IfOk result (IsNodeAdded search.now nodes.old.items nodes.new.items node.entry) }
    ensures most { vec_len nodes.new ≤ search.now.most }
    ensures longer { vec_len nodes.old ≤ vec_len nodes.new }
    ensures full { IfOk result (λ room. room ≡ false → vec_len nodes.new ≡ search.now.most) }
{
    let key = key_of(&node.machine);
    if is_known(nodes.as_slice(), places, key, &node) {
        return Ok(true);
    }
    if nodes.len() >= search.most as usize {
        return Ok(false);
    }
    if !can_step(&node.machine) {
        return Err(NoMemory);
    }
    places.add(key)?;
    nodes.push(node)?;
    Ok(true)
}

/// Goes on alone from a node, and adds the one to which that leads.
fn add_passed<'p>(
    alloc: Global,
    search: &Search<'_>,
    nodes: &mut Vec<Node<'p>>,
    places: &mut Places,
    node: Node<'p>,
) -> Result<bool, NoMemory>
    requires most { vec_len nodes.old ≤ search.now.most }
    requires nodes { AreNodes search.now nodes.old.items }
    requires node { IsNextNode search.now nodes.old.items node }
    ensures added { IfOk result (IsNodeReached search.now nodes.old.items nodes.new.items node.entry) }
    ensures most { vec_len nodes.new ≤ search.now.most }
    ensures longer { vec_len nodes.old ≤ vec_len nodes.new }
    ensures full { IfOk result (λ room. room ≡ false → vec_len nodes.new ≡ search.now.most) }
{
    let mut node = node;
    pass(alloc, search, &mut node)?;
    add(search, nodes, places, node)
}

/// Adds the node behind a step of this thread from the node at this place, where there is one that interrupts nobody, and
/// answers whether there was room.
fn follow<'p>(
    alloc: Global,
    search: &Search<'_>,
    nodes: &mut Vec<Node<'p>>,
    places: &mut Places,
    place: usize,
    thread: u32,
) -> Result<bool, NoMemory>
    requires within { place < vec_len nodes.old }
    requires most { vec_len nodes.old ≤ search.now.most }
    requires small { search.now.most ≤ 4294967295 }
    requires nodes { AreNodes search.now nodes.old.items }
    ensures followed { IfOk result (IsFollowed search.now nodes.old.items nodes.new.items place thread) }
    ensures most { vec_len nodes.new ≤ search.now.most }
    ensures longer { vec_len nodes.old ≤ vec_len nodes.new }
    ensures full { IfOk result (λ room. room ≡ false → vec_len nodes.new ≡ search.now.most) }
{
    match child(alloc, &nodes[place], place, search.counted, thread)? {
        Some(node) => add_passed(alloc, search, nodes, places, node),
        None => Ok(true),
    }
}

/// Does that for each thread.
fn expand<'p>(
    alloc: Global,
    search: &Search<'_>,
    nodes: &mut Vec<Node<'p>>,
    places: &mut Places,
    place: usize,
) -> Result<bool, NoMemory>
    requires within { place < vec_len nodes.old }
    requires most { vec_len nodes.old ≤ search.now.most }
    requires small { search.now.most ≤ 4294967295 }
    requires nodes { AreNodes search.now nodes.old.items }
    ensures expanded { IfOk result (IsExpanded search.now nodes.old.items nodes.new.items place) }
    ensures most { vec_len nodes.new ≤ search.now.most }
    ensures full { IfOk result (λ room. room ≡ false → vec_len nodes.new ≡ search.now.most) }
{
    let threads = nodes[place].machine.thread_count();
    for thread in 0..threads {
        if !follow(alloc, search, nodes, places, place, thread as u32)? {
            return Ok(false);
        }
    }
    Ok(true)
}

/// Whether no entry is left at a node, and its state is like the end that is looked for.
pub(crate) fn is_end(search: &Search<'_>, node: &Node<'_>) -> bool
    ensures like { (q e : State) → IsGoal search.now.goal q → Covers node.now e node.now.busy (left_at node.now) → result ≡ true → AreLike search.now.goal.by q e }
    ensures used { result ≡ true → (t : ℕ) → left_at node.now t ≡ 0 }
    ensures told { (q e : State) → IsGoal search.now.goal q → Covers node.now e node.now.busy (left_at node.now) → AreLike search.now.goal.by q e → ((t : ℕ) → left_at node.now t ≡ 0) → result ≡ true }
{
    if !is_used_up(node.left.as_slice()) {
        return false;
    }
    is_like(&search.goal, &node.machine)
}

/// Expands the nodes one after the other, up to one at an end that is looked for.
pub(crate) fn explore<'p>(
    alloc: Global,
    search: &Search<'_>,
    nodes: &mut Vec<Node<'p>>,
    places: &mut Places,
) -> Result<Judged, NoMemory>
    requires most { vec_len nodes.old ≤ search.now.most }
    requires small { search.now.most ≤ 4294967295 }
    requires nodes { AreNodes search.now nodes.old.items }
    requires start { InSet nodes.old.items (initial (searched search.now)) None (start_left search.now) }
    ensures { (q : State) → IsGoal search.now.goal q → IfOk result (IsFound search.now q) }
{
    let mut place = 0;
    'places: while place < nodes.len() {
        if is_end(search, &nodes[place]) {
            return Ok(Judged::Kept(schedule_to(alloc, nodes.as_slice(), place)?));
        }
        if !expand(alloc, search, nodes, places, place)? {
            return Ok(Judged::Undecided { seen: search.most });
        }
        place += 1;
    }
    Ok(Judged::Broken)
}
