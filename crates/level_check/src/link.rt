//! Links from cell to cell.
ghost use Rattle.std.specs.Prelude.{◌≡◌, map, IfOk};

use std::alloc::{AllocError as NoMemory, Global};
use std::marker::Model;

/// A link to a cell, under a level: the cell's level is at least this one, and at least that of the cell where the link begins.
#[derive(Clone, Copy, Drop)]
pub struct Link {
    pub to: usize,
    pub level: u32,
}

/// The links of one cell.
#[derive(Drop)]
pub struct CellLinks {
    pub(crate) links: Vec<Link>,
    pub(crate) targets: Vec<usize>,
}

impl Model for CellLinks {
    ghost use Rattle.std.specs.Prelude.{◌≡◌, List, map};
    ghost use Rattle.level_check.specs.declared.link.Link.{Link};

    ghost Value = { List Link };

    ghost view = { λ r. r.links.items };

    ghost invariant = { λ r. r.targets.items ≡ map (λ l. l.to) r.links.items };
}

impl CellLinks {
    /// The row of these links.
    pub fn of(alloc: Global, links: Vec<Link>) -> Result<CellLinks, NoMemory>
        ensures { IfOk result (λ row. row ≡ links.items) }
    {
        let targets = targets(alloc, links.as_slice())?;
        Ok(CellLinks { links, targets })
    }
}

/// The cells that links lead to.
fn targets(alloc: Global, links: &[Link]) -> Result<Vec<usize>, NoMemory>
    ensures { IfOk result (λ targets. targets.items ≡ map (λ l. l.to) links.now) }
{
    let mut targets = Vec::new(alloc);
    for link in links {
        targets.push(link.to)?;
    }
    Ok(targets)
}
