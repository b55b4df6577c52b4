//! The judge.
ghost use Rattle.std.specs.Prelude.{◌≤◌, length, IfOk};
ghost use Rattle.core_program.specs.Views.{program_of};
ghost use Rattle.state.specs.States.{State};
ghost use Rattle.compile.specs.IsCode.{IsCodeOf};
ghost use Rattle.witness.specs.Judging.{AreLike, IsGoal, IsJudged, IsJudgedWhole};
ghost use Rattle.witness.specs.Searching.{IsFound, searched};

use crate::direct::direct_order;
use crate::goal::Goal;
use crate::node::start;
use crate::places::{Places, key_of};
use crate::search::{Search, explore};
use crate::table::counts_of;
use compile::CodeTable;
use core_program::CoreProgram;
use std::alloc::{AllocError as NoMemory, Global};

/// What is told of a schedule: an order that keeps its promises; that there is none; or neither, where as many states were seen
/// as may be.
#[derive(Drop)]
pub enum Judged {
    Kept(Vec<u32>),
    Broken,
    Undecided { seen: u32 },
}

/// Makes the first node, and searches.
fn begin<'p>(alloc: Global, search: &Search<'p>) -> Result<Judged, NoMemory>
    requires code { IsCodeOf (searched search.now) search.now.code.now.code.items search.now.code.now.entry.items search.now.code.now.room.items }
    requires most { 1 ≤ search.now.most }
    requires small { search.now.most ≤ 4294967295 }
    ensures { (q : State) → IsGoal search.now.goal q → IfOk result (IsFound search.now q) }
{
    let node = start(alloc, search.program, search.code, search.left)?;
    let mut places = Places::new(alloc)?;
    places.add(key_of(&node.machine))?;
    let mut nodes = Vec::new(alloc);
    nodes.push(node)?;
    explore(alloc, search, &mut nodes, &mut places)
}

/// Whether a schedule that ends so has an order: a rearrangement that interrupts no atomic call, and ends in a like state.
/// At most this many states are seen.
pub fn judge_orders(
    alloc: Global,
    program: &CoreProgram,
    code: &CodeTable,
    schedule: &[u32],
    goal: Goal<'_>,
    most: u32,
) -> Result<Judged, NoMemory>
    requires code { IsCodeOf (program_of program.now) code.now.code.items code.now.entry.items code.now.room.items }
    requires size { length schedule.now ≤ 200000 }
    requires most { 1 ≤ most }
    ensures { (q : State) → IsGoal goal.entry q → IfOk result (IsJudged (program_of program.now) (AreLike goal.entry.by) most schedule.now q) }
{
    let left = counts_of(alloc, schedule)?;
    let search = Search {
        program,
        code,
        left: left.as_slice(),
        counted: true,
        goal,
        most,
    };
    if let Some(order) = direct_order(alloc, &search, schedule)? {
        return Ok(Judged::Kept(order));
    }
    begin(alloc, &search)
}

/// Whether any schedule at all that interrupts no atomic call ends in a state like this one. At most this many states are seen.
pub fn judge_ways(
    alloc: Global,
    program: &CoreProgram,
    code: &CodeTable,
    goal: Goal<'_>,
    most: u32,
) -> Result<Judged, NoMemory>
    requires code { IsCodeOf (program_of program.now) code.now.code.items code.now.entry.items code.now.room.items }
    requires most { 1 ≤ most }
    ensures { (q : State) → IsGoal goal.entry q → IfOk result (IsJudgedWhole (program_of program.now) (AreLike goal.entry.by) most q) }
{
    let none = Vec::new(alloc);
    let search = Search {
        program,
        code,
        left: none.as_slice(),
        counted: false,
        goal,
        most,
    };
    begin(alloc, &search)
}
