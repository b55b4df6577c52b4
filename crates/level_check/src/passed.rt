//! What held paths are called in a callee.
ghost use Rattle.std.specs.Prelude.{◌≡◌, ◌∷◌, ◌++◌, IfOk, OnOk};
ghost use Rattle.algebra.specs.HeldPaths.{has_path, holds_at};
ghost use Rattle.core_program.specs.Locks.{path_of};
ghost use Rattle.core_program.specs.Views.{program_of, expr_of, exprs_from};
ghost use Rattle.effects.specs.HeldLists.{local_names};
ghost use Rattle.paths.specs.Renamings.{under_call};
ghost use Rattle.rules.specs.Mentions.{paths_of};
ghost use Rattle.level_check.specs.Passed.{held_names_from};

use core_program::{CoreProgram, path_of};
use effects::{Called, local_name};
use paths::Path;
use std::alloc::{AllocError as NoMemory, Global};

/// What the held paths are called in the callee of a call: the paths there whose names at the call are held.
pub(crate) fn names_in_callee(
    alloc: Global,
    program: &CoreProgram,
    call: &Called<'_>,
    held: &[Path],
) -> Result<Vec<Path>, NoMemory>
    ensures { IfOk result (λ names. let P = program_of program.now in
        has_path names.items ≡ (λ q. holds_at (under_call (path_of P (expr_of call.now.receiver.now)) (paths_of P (exprs_from call.now.args.now)) q) (has_path held.now))) }
{
    let passed = passed_paths(alloc, program, call)?;
    let mut names = Vec::new(alloc);
    for place in 0..passed.len() {
        add_names(slot_at(place)?, &passed[place], held, &mut names)?;
    }
    Ok(names)
}

/// The path of the receiver and of each argument, or none.
fn passed_paths(
    alloc: Global,
    program: &CoreProgram,
    call: &Called<'_>,
) -> Result<Vec<Option<Path>>, NoMemory>
    ensures { IfOk result (λ paths. let P = program_of program.now in
        paths.items ≡ path_of P (expr_of call.now.receiver.now) ∷ paths_of P (exprs_from call.now.args.now)) }
{
    let mut paths = Vec::new(alloc);
    paths.push(path_of(program, call.receiver))?;
    for arg in call.args {
        paths.push(path_of(program, arg))?;
    }
    Ok(paths)
}

/// The slot at a place. There is no memory for more arguments than slots.
fn slot_at(place: usize) -> Result<u16, NoMemory>
    ensures { IfOk result (λ slot. slot ≡ place) }
{
    match u16::try_from(place) {
        Ok(slot) => Ok(slot),
        Err(_) => Err(NoMemory),
    }
}

/// Adds what the held paths are called from a slot, where what is passed for it has this path or none.
fn add_names(
    slot: u16,
    start: &Option<Path>,
    held: &[Path],
    names: &mut Vec<Path>,
) -> Result<(), NoMemory>
    ensures { OnOk result (names.new.items ≡ names.old.items ++ held_names_from slot start.now held.now) }
{
    match start {
        Some(start) => add_local_names(slot, start, held, names),
        None => Ok(()),
    }
}

/// Adds what the held paths are called from a slot, where what is passed for it has this path.
fn add_local_names(
    slot: u16,
    start: &Path,
    held: &[Path],
    names: &mut Vec<Path>,
) -> Result<(), NoMemory>
    ensures { OnOk result (names.new.items ≡ names.old.items ++ local_names slot start.now held.now) }
{
    for path in held {
        if let Some(name) = local_name(slot, start, path) {
            names.push(name)?;
        }
    }
    Ok(())
}
