//! What a callee's relevant paths are called at a call.
ghost use Rattle.std.specs.Prelude.{◌≡◌, map, IfOk};
ghost use Rattle.paths.specs.Renamings.{under_call};
ghost use Rattle.core_program.specs.Locks.{path_of};
ghost use Rattle.core_program.specs.Views.{program_of, expr_of, exprs_from};
ghost use Rattle.rules.specs.Mentions.{paths_of};
ghost use Rattle.rules.specs.Near.{rel_of};

use crate::sets::RelevantSets;
use core_program::{CoreExpr, CoreProgram, path_of};
use paths::{MethodId, Path, Renaming, under_call};
use std::alloc::{AllocError as NoMemory, Global};

/// Each relevant path of the callee with its name at a call on this receiver with these arguments.
pub fn renaming_at(
    alloc: Global,
    program: &CoreProgram,
    sets: &RelevantSets,
    receiver: &CoreExpr,
    callee: MethodId,
    args: &[CoreExpr],
) -> Result<Renaming, NoMemory>
    ensures { IfOk result (λ renaming.
        let P = program_of program.now in
        let receiver_path = path_of P (expr_of receiver.now) in
        let arg_paths = paths_of P (exprs_from args.now) in
        renaming ≡ map (λ q. (q, under_call receiver_path arg_paths q)) (rel_of sets.now callee)) }
{
    let receiver_path = path_of(program, receiver);
    let arg_paths = paths_of(alloc, program, args)?;
    let mut pairs = Vec::new(alloc);
    for path in sets.rel(callee) {
        pairs.push((
            path.copy(),
            under_call(path, receiver_path.as_ref(), arg_paths.as_slice()),
        ))?;
    }
    Ok(Renaming { pairs })
}

/// The path of each argument, or none.
fn paths_of(
    alloc: Global,
    program: &CoreProgram,
    args: &[CoreExpr],
) -> Result<Vec<Option<Path>>, NoMemory>
    ensures { IfOk result (λ paths. paths.items ≡ paths_of (program_of program.now) (exprs_from args.now)) }
{
    let mut paths = Vec::new(alloc);
    for arg in args {
        paths.push(path_of(program, arg))?;
    }
    Ok(paths)
}
