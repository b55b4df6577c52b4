//! Methods laid in one list, depth first: a walk goes down from each method to those of which it is the next one that
//! they override. What it lays between going down to a method and up from it overrides that method, and is its range.
ghost use Rattle.std.specs.Prelude.{◌≡◌, ℕ, List, Option, Some, None, IfOk, OnOk, length, map, replicate, slice_get};
ghost use Rattle.forest.specs.Walks.{Leads, above_in, after};
ghost use Rattle.rules.specs.declared.ranges.Range.{Range};
ghost use Rattle.rules.specs.Ranges.{AreSound, IsLaid, empty_range, in_range, step_begin};
ghost use Rattle.rules.specs.Search.{rows_of};

use crate::overriding::method_at;
use crate::ranges::Range;
use forest::{Step, walk};
use paths::MethodId;
use std::alloc::{AllocError as NoMemory, Global};

/// Methods in one list, and for each a range of it.
#[derive(Drop)]
pub struct Laid {
    pub order: Vec<MethodId>,
    pub ranges: Vec<Range>,
}

/// The methods that a walk meets, and for each a range of methods that lead to it by what they override next.
pub fn walk_laid(alloc: Global, nexts: &[Option<usize>]) -> Result<Laid, NoMemory>
    ensures { IfOk result (λ laid. AreSound nexts.now laid.order.items laid.ranges.items) }
{
    let steps = walk(alloc, nexts)?;
    let mut begun = none_begun(alloc, nexts.len())?;
    let mut ranges = none_ended(alloc, nexts.len())?;
    let mut order = Vec::new(alloc);
    lay_all(
        steps.as_slice(),
        &mut order,
        begun.as_mut_slice(),
        ranges.as_mut_slice(),
    )?;
    Ok(Laid { order, ranges })
}

/// So many methods whose ranges haven't begun.
fn none_begun(alloc: Global, count: usize) -> Result<Vec<Option<usize>>, NoMemory>
    ensures { IfOk result (λ begun. begun.items ≡ replicate count None) }
{
    vec![in alloc; None; count]
}

/// So many empty ranges.
fn none_ended(alloc: Global, count: usize) -> Result<Vec<Range>, NoMemory>
    ensures { IfOk result (λ ranges. ranges.items ≡ replicate count empty_range) }
{
    vec![in alloc; Range { first: 0, count: 0 }; count]
}

/// Rows of methods, laid one behind the other.
pub fn rows_laid(alloc: Global, rows: &[Vec<MethodId>]) -> Result<Laid, NoMemory>
    ensures { IfOk result (λ laid. map (in_range laid.order.items) laid.ranges.items ≡ rows_of rows.now) }
{
    let mut order = Vec::new(alloc);
    let mut ranges = Vec::new(alloc);
    for row in rows {
        let range = Range {
            first: order.len(),
            count: row.len(),
        };
        ranges.push(range)?;
        order.extend_from_slice(row.as_slice())?;
    }
    Ok(Laid { order, ranges })
}

/// Goes all of these steps.
fn lay_all(
    steps: &[Step],
    order: &mut Vec<MethodId>,
    begun: &mut [Option<usize>],
    ranges: &mut [Range],
) -> Result<(), NoMemory>
    ensures { OnOk result ((nexts : List (Option ℕ)) → Leads nexts None steps.now → IsLaid nexts None order.old.items begun.old ranges.old → AreSound nexts order.new.items ranges.new) }
{
    for step in steps {
        lay(*step, order, begun, ranges)?;
    }
    Ok(())
}

/// Goes a step.
fn lay(
    step: Step,
    order: &mut Vec<MethodId>,
    begun: &mut [Option<usize>],
    ranges: &mut [Range],
) -> Result<(), NoMemory>
    ensures { OnOk result ((nexts : List (Option ℕ)) → IsLaid nexts (step_begin nexts step) order.old.items begun.old ranges.old → IsLaid nexts (after nexts step) order.new.items begun.new ranges.new) }
{
    match step {
        Step::Down(node) => go_down(node, order, begun),
        Step::Up(node) => {
            go_up(node, order.len(), begun, ranges);
            Ok(())
        }
    }
}

/// Goes down to a method: lays it, and its range begins behind it.
fn go_down(
    node: usize,
    order: &mut Vec<MethodId>,
    begun: &mut [Option<usize>],
) -> Result<(), NoMemory>
    ensures { OnOk result ((nexts : List (Option ℕ)) (ranges : List Range) → IsLaid nexts (above_in nexts node) order.old.items begun.old ranges → IsLaid nexts (Some node) order.new.items begun.new ranges) }
{
    order.push(method_at(node)?)?;
    put_begun(begun, node, Some(order.len()));
    Ok(())
}

/// Goes up from a method: its range ends.
fn go_up(node: usize, count: usize, begun: &mut [Option<usize>], ranges: &mut [Range])
    ensures { (nexts : List (Option ℕ)) (order : List ℕ) → count ≡ length order → IsLaid nexts (Some node) order begun.old ranges.old → IsLaid nexts (above_in nexts node) order begun.new ranges.new }
{
    let Some(first) = begun_at(begun, node) else {
        return;
    };
    let range = Range {
        first,
        count: count.saturating_sub(first),
    };
    put_range(ranges, node, range);
    put_begun(begun, node, None);
}

/// Where the range of a method began, where it has no end yet.
fn begun_at(begun: &[Option<usize>], node: usize) -> Option<usize>
    ensures { result ≡ above_in begun.now node }
{
    *begun.get(node)?
}

/// Writes where the range of a method began, where there is a cell for it.
fn put_begun(begun: &mut [Option<usize>], node: usize, first: Option<usize>)
    ensures here { (found : ℕ) → above_in begun.new node ≡ Some found → first ≡ Some found }
    ensures others { (other : ℕ) → (other ≡ node → ⊥) → above_in begun.new other ≡ above_in begun.old other }
{
    if node < begun.len() {
        begun[node] = first;
    }
}

/// Writes the range of a method, where there is a cell for it.
fn put_range(ranges: &mut [Range], node: usize, range: Range)
    ensures here { (found : Range) → slice_get ranges.new node ≡ Some found → found ≡ range }
    ensures others { (other : ℕ) → (other ≡ node → ⊥) → slice_get ranges.new other ≡ slice_get ranges.old other }
{
    if node < ranges.len() {
        ranges[node] = range;
    }
}
