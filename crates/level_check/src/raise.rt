//! What links ask of levels.
ghost use Rattle.std.specs.Prelude.{◌≡◌, not, slice_get};
ghost use Rattle.level_check.specs.Rises.{has_level, are_met, are_met_from, raised_level, all_raised, raised_from};

use crate::link::Link;

/// Whether a cell has at least this level, or isn't there.
fn has_level(levels: &[u32], cell: usize, level: u32) -> bool
    ensures { result ≡ has_level (slice_get levels.now cell) level }
{
    match levels.get(cell) {
        Some(own) => level <= *own,
        None => true,
    }
}

/// Whether links from a cell of this level have got what they ask.
fn are_met(levels: &[u32], from: u32, links: &[Link]) -> bool
    ensures { result ≡ are_met levels.now from links.now }
{
    for link in links {
        if !has_level(levels, link.to, from.max(link.level)) {
            return false;
        }
    }
    true
}

/// Raises the level of a cell to this, where it is lower.
fn raise(levels: &mut [u32], cell: usize, level: u32)
    ensures { levels.new ≡ raised_level levels.old cell level }
{
    if !has_level(levels, cell, level) {
        levels[cell] = level;
    }
}

/// Raises levels to what links from a cell of this level ask.
fn raise_all(levels: &mut [u32], from: u32, links: &[Link])
    ensures { levels.new ≡ all_raised levels.old from links.now }
{
    for link in links {
        raise(levels, link.to, from.max(link.level));
    }
}

/// The level of a cell, if it is there.
fn level_at(levels: &[u32], cell: usize) -> Option<u32>
    ensures { result ≡ slice_get levels.now cell }
{
    levels.get(cell).copied()
}

/// Raises levels to what the links of a cell ask, and says whether one of them asked for more.
pub(crate) fn raise_links(levels: &mut [u32], cell: usize, links: &[Link]) -> bool
    ensures exact { result ≡ not (are_met_from levels.old (slice_get levels.old cell) links.now) }
    ensures levels { levels.new ≡ raised_from levels.old (slice_get levels.old cell) links.now }
{
    let Some(from) = level_at(levels, cell) else {
        return false;
    };
    if are_met(levels, from, links) {
        return false;
    }
    raise_all(levels, from, links);
    true
}
