//! The nodes that a walk has still to go down to.
use std::alloc::{AllocError as NoMemory, Global};

/// The nodes that are left: a list of those right below each place. `first` has its first, and `next` has for each node
/// the one behind it. Place 0 is above all roots, place n + 1 is node n.
#[derive(Drop)]
pub struct Left {
    first: Vec<Option<usize>>,
    next: Vec<Option<usize>>,
}

/// The number of a place.
fn place_of(at: Option<usize>) -> usize {
    match at {
        Some(node) => node.saturating_add(1),
        None => 0,
    }
}

/// What a list has at a place.
fn read(cells: &[Option<usize>], place: usize) -> Option<usize> {
    *cells.get(place)?
}

/// Writes into a list at a place, where there is one.
fn write(cells: &mut [Option<usize>], place: usize, value: Option<usize>) {
    if place < cells.len() {
        cells[place] = value;
    }
}

/// So many cells with nothing in them.
fn empty(alloc: Global, count: usize) -> Result<Vec<Option<usize>>, NoMemory> {
    let mut cells = Vec::new(alloc);
    for _ in 0..count {
        cells.push(None)?;
    }
    Ok(cells)
}

impl Left {
    /// All nodes.
    pub fn all(alloc: Global, above: &[Option<usize>]) -> Result<Left, NoMemory> {
        let mut left = Left {
            first: empty(alloc, above.len().saturating_add(1))?,
            next: empty(alloc, above.len())?,
        };
        for place in 0..above.len() {
            let node = above.len() - 1 - place;
            left.put(above[node], node);
        }
        Ok(left)
    }

    /// Puts a node in front of those right below this place.
    fn put(&mut self, at: Option<usize>, node: usize) {
        let place = place_of(at);
        let behind = read(self.first.as_slice(), place);
        write(self.next.as_mut_slice(), node, behind);
        write(self.first.as_mut_slice(), place, Some(node));
    }

    /// Takes the first of the nodes right below this place.
    pub fn take_below(&mut self, at: Option<usize>) -> Option<usize> {
        let place = place_of(at);
        let node = read(self.first.as_slice(), place)?;
        let behind = read(self.next.as_slice(), node);
        write(self.first.as_mut_slice(), place, behind);
        Some(node)
    }
}
