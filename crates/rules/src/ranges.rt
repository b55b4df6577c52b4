//! Ranges of one list of methods: each is the row of a method. A test on them tells that no row misses a method.
ghost use Rattle.std.specs.Prelude.{◌≡◌, ◌<◌, ℕ, true, Some, length, slice_get};
ghost use Rattle.forest.specs.Walks.{above_in};
ghost use Rattle.rules.specs.Ranges.{in_range, range_at, Lies, LiesIn, LieBelowNext};

use paths::MethodId;

/// So many items of a list, from a place on.
#[derive(Clone, Copy)]
pub struct Range {
    pub first: usize,
    pub count: usize,
}

/// What stands in a range.
pub fn in_range(order: &[MethodId], range: Range) -> &[MethodId]
    ensures { result.now ≡ in_range order.now range }
{
    let behind = &order[range.first.min(order.len())..];
    &behind[..range.count.min(behind.len())]
}

/// The range of a method; an empty one where it has none.
pub fn range_at(ranges: &[Range], method: usize) -> Range
    ensures { result ≡ range_at ranges.now method }
{
    match ranges.get(method) {
        Some(range) => *range,
        None => Range { first: 0, count: 0 },
    }
}

/// Whether each method stands right before its own range, and with that in the range of the next one that it
/// overrides.
pub fn lie_below_next(nexts: &[Option<usize>], order: &[MethodId], ranges: &[Range]) -> bool
    ensures { result ≡ true → LieBelowNext nexts.now order.now ranges.now }
{
    for over in 0..nexts.len() {
        if !lies_below_next(nexts, order, ranges, over) {
            return false;
        }
    }
    true
}

/// Whether a method lies in the range of the next one that it overrides, where there is one.
fn lies_below_next(
    nexts: &[Option<usize>],
    order: &[MethodId],
    ranges: &[Range],
    over: usize,
) -> bool
    requires { over < length nexts.now }
    ensures { result ≡ true → (m : ℕ) → above_in nexts.now over ≡ Some m → LiesIn order.now ranges.now over m }
{
    match nexts[over] {
        Some(m) => lies_in(order, range_at(ranges, over), range_at(ranges, m), over),
        None => true,
    }
}

/// Whether a method stands right before its own range, and with that in another one.
fn lies_in(order: &[MethodId], own: Range, other: Range, over: usize) -> bool
    ensures { result ≡ true → Lies order.now own other over }
{
    if own.first <= other.first {
        return false;
    }
    let ahead = own.first - other.first;
    ahead <= other.count && own.count <= other.count - ahead && is_at(order, own.first - 1, over)
}

/// Whether a method stands at a place.
fn is_at(order: &[MethodId], place: usize, method: usize) -> bool
    ensures { result ≡ true → slice_get order.now place ≡ Some method }
{
    match order.get(place) {
        Some(found) => found.0 as usize == method,
        None => false,
    }
}
