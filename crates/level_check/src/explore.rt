//! The contexts that are reached, each once, with the links from each to those that its walk calls.
ghost use Rattle.std.specs.Prelude.{◌≡◌, ◌<◌, ◌∷◌, Some, length, map, IfOk, OnOk};
ghost use Rattle.core_program.specs.Typed.{IsTyped};
ghost use Rattle.core_program.specs.Views.{program_of};
ghost use Rattle.algebra.specs.HeldPaths.{has_path};
ghost use Rattle.level_check.specs.Told.{Calls, told_level_of};
ghost use Rattle.level_check.specs.Bodies.{told_from};
ghost use Rattle.level_check.specs.Cells.{runs_of, queue_of, AreFirstCells, AreAdded, IsLinked, AreFollowed, AreAllFollowed};

use crate::cells::{Cell, Cells};
use crate::judged::{Judged, seen_in};
use crate::link::{CellLinks, Link};
use crate::told::{Callee, Seen};
use core_program::CoreProgram;
use effects::copied;
use paths::MethodId;
use std::alloc::{AllocError as NoMemory, Global};

/// `main`, and the method that runs for `run` of each class.
fn first_methods(alloc: Global, program: &CoreProgram) -> Result<Vec<MethodId>, NoMemory>
    ensures { IfOk result (λ methods. methods.items ≡ (program_of program.now).main ∷ runs_of (program_of program.now).classes) }
{
    let mut methods = Vec::new(alloc);
    methods.push(program.main)?;
    for class in program.classes() {
        if let Some(run) = class.run {
            methods.push(run)?;
        }
    }
    Ok(methods)
}

/// The cells of these methods alone with nothing held, under level 0.
fn cells_of(alloc: Global, methods: &[MethodId]) -> Result<Cells, NoMemory>
    ensures { IfOk result (λ cells. AreFirstCells methods.now (queue_of cells)) }
{
    let mut cells = Cells::new(alloc);
    for method in methods {
        let callee = Callee {
            method: *method,
            alone: true,
        };
        let cell = Cell {
            callee,
            held: Vec::new(alloc),
        };
        cells.add(cell, 0)?;
    }
    Ok(cells)
}

/// The cells where threads begin.
pub(crate) fn first_cells(alloc: Global, program: &CoreProgram) -> Result<Cells, NoMemory>
    ensures { IfOk result (λ cells. AreFirstCells ((program_of program.now).main ∷ runs_of (program_of program.now).classes) (queue_of cells)) }
{
    let methods = first_methods(alloc, program)?;
    cells_of(alloc, methods.as_slice())
}

/// Adds this cell, for a call at this level, where the caller is called under `from`. Adds the link to it.
fn add_call(
    cell: Cell,
    under: u32,
    from: u32,
    cells: &mut Cells,
    links: &mut Vec<Link>,
) -> Result<(), NoMemory>
    ensures { OnOk result (IsLinked (Calls cell.callee (has_path cell.held.items) under) from (queue_of cells.old) (queue_of cells.new) links.old.items links.new.items) }
{
    let to = cells.add(cell, from.max(under))?;
    links.push(Link { to, level: under })?;
    Ok(())
}

/// Adds the cell and the link of what a walk comes to, where it is a call.
fn add_visit(
    alloc: Global,
    visit: &Seen,
    from: u32,
    cells: &mut Cells,
    links: &mut Vec<Link>,
) -> Result<(), NoMemory>
    ensures { OnOk result (IsLinked (told_level_of visit.now) from (queue_of cells.old) (queue_of cells.new) links.old.items links.new.items) }
{
    match visit {
        Seen::Comes {
            callee,
            held,
            under,
        } => {
            let cell = Cell {
                callee: *callee,
                held: copied(alloc, held.as_slice())?,
            };
            add_call(cell, *under, from, cells, links)
        }
        Seen::Bad { .. } => Ok(()),
    }
}

/// Adds the cells that a walk calls, where it begins under this level. Gives the links to them.
fn add_calls(
    alloc: Global,
    seen: &[Seen],
    from: u32,
    cells: &mut Cells,
) -> Result<CellLinks, NoMemory>
    requires { length cells.old.levels.items ≡ length cells.old.known.keys }
    ensures { IfOk result (λ row. AreAdded (map told_level_of seen.now) from (queue_of cells.old) (queue_of cells.new) row) }
{
    let mut links = Vec::new(alloc);
    for visit in seen {
        add_visit(alloc, visit, from, cells, &mut links)?;
    }
    CellLinks::of(alloc, links)
}

/// Adds the cells that the walk of the cell at this place calls. Gives the links to them.
fn follow(
    alloc: Global,
    judged: &Judged<'_>,
    at: usize,
    cells: &mut Cells,
) -> Result<CellLinks, NoMemory>
    requires typed { IsTyped (program_of judged.now.program.now) }
    requires size { length cells.old.levels.items ≡ length cells.old.known.keys }
    requires there { at < length cells.old.levels.items }
    ensures { IfOk result (AreFollowed (told_from judged.now) (queue_of cells.old) at (queue_of cells.new)) }
{
    let from = cells.levels[at];
    let Some(cell) = cells.known.get_index(at) else {
        return CellLinks::of(alloc, Vec::new(alloc));
    };
    let seen = seen_in(alloc, judged, cell.callee, cell.held.as_slice(), 0)?;
    add_calls(alloc, seen.as_slice(), from, cells)
}

/// Follows all cells, also those that are added. Gives the links of each.
pub(crate) fn follow_all(
    alloc: Global,
    judged: &Judged<'_>,
    cells: &mut Cells,
) -> Result<Vec<CellLinks>, NoMemory>
    requires typed { IsTyped (program_of judged.now.program.now) }
    requires size { length cells.old.levels.items ≡ length cells.old.known.keys }
    ensures { IfOk result (λ rows. AreAllFollowed (told_from judged.now) (queue_of cells.old) (queue_of cells.new) rows.items) }
{
    let mut rows = Vec::new(alloc);
    'cells: while rows.len() < cells.levels.len() {
        let row = follow(alloc, judged, rows.len(), cells)?;
        rows.push(row)?;
    }
    Ok(rows)
}
