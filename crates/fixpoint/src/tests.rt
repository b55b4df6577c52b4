//! Reachability in a graph of a few nodes, by the sweeps.
ghost use Rattle.std.specs.Prelude.{◌≡◌, ◌∷◌, [], max, map, sum, nat_le, slice_get, slice_index, unwrap_or, vec_len};
ghost use Rattle.std.specs.Option.{option_map};

use crate::*;
use std::alloc::{AllocError as NoMemory, Global};
use std::test::Fail;

/// Nodes that are marked as soon as one of the two nodes before them is. It gives up when its rises are spent.
#[derive(Drop)]
struct Reach {
    marks: Vec<u8>,
    before: Vec<(usize, usize)>,
    rises: u64,
    ghost paired: { vec_len before ≡ vec_len marks },
}

/// The mark of a node; none for a node that is not there.
fn mark_at(marks: &[u8], node: usize) -> u8
    ensures { result ≡ slice_index marks.now node }
{
    marks.get(node).copied().unwrap_or(0)
}

impl Rising for Reach {
    ghost marks = { λ s. map (λ mark. mark ∷ []) s.marks.items };

    ghost met = { λ s x node. nat_le (unwrap_or (option_map (λ pair.
        max (sum (unwrap_or (slice_get x pair.0) [])) (sum (unwrap_or (slice_get x pair.1) []))) (slice_get s.before.items node)) 0)
        (sum (unwrap_or (slice_get x node) [])) };

    ghost left = { λ s. s.rises };

    fn cells(&self) -> usize {
        self.marks.len()
    }

    fn room(&self) -> u64 {
        self.rises
    }

    fn raise(&mut self, _alloc: Global, cell: usize) -> Result<bool, NoMemory> {
        let (first, second) = self.before[cell];
        let mark = mark_at(&self.marks, first).max(mark_at(&self.marks, second));
        if mark <= mark_at(&self.marks, cell) {
            return Ok(false);
        }
        if self.rises == 0 {
            return Err(NoMemory);
        }
        self.marks[cell] = mark;
        self.rises -= 1;
        Ok(true)
    }
}

/// The marks after the sweeps, through the bound.
fn reached<R: Rising>(alloc: Global, rising: &mut R) -> bool {
    least(alloc, rising).is_ok()
}

#[test]
fn the_nodes_behind_a_marked_one_are_reached(rt: HostRuntime) -> Result<(), Fail> {
    // 0 -> 3 -> 1, and 2 <-> 4 apart from them
    let before = [(0, 0), (3, 3), (4, 2), (0, 4), (2, 2)];
    for (rises, ok, marks) in [(2, true, [1, 1, 0, 1, 0]), (1, false, [1, 0, 0, 1, 0])] {
        let mut reach = Reach {
            marks: [1, 0, 0, 0, 0].to_vec(rt.alloc())?,
            before: before.to_vec(rt.alloc())?,
            rises,
        };
        assert_eq!(rt; reached(rt.alloc(), &mut reach), ok);
        assert_eq!(rt; reach.marks.as_slice(), marks.as_slice());
    }
    Ok(())
}
