//! Who stands inside an atomic call.
ghost use Rattle.std.specs.Prelude.{◌≡◌, position, reverse, slice_get};
ghost use Rattle.std.specs.Option.{option_map};
ghost use Rattle.core_program.specs.Views.{program_of};
ghost use Rattle.state.specs.Frames.{frames_in};
ghost use Rattle.semantics.specs.Run.{is_annotated};
ghost use Rattle.machine.specs.Inside.{method_inside, cell_inside};

use core_program::CoreProgram;
use paths::MethodId;
use state::ThreadCell;

/// Whether a method is annotated `atomic`; a missing one isn't.
pub fn is_annotated(program: &CoreProgram, method: MethodId) -> bool
    ensures { result ≡ is_annotated (slice_get (program_of program.now).methods method) }
{
    match program.methods.get(method.0 as usize) {
        Some(found) => found.annotated,
        None => false,
    }
}

/// Whether the frame of a thread at a depth belongs to an annotated method; the outermost has the depth 0.
fn depth_inside(program: &CoreProgram, cell: &ThreadCell, depth: usize) -> bool
    ensures { result ≡ method_inside (program_of program.now) (option_map (λ f. f.method) (slice_get (reverse (frames_in cell.now)) depth)) }
{
    match cell.method_at(depth) {
        Some(method) => is_annotated(program, method),
        None => false,
    }
}

/// Whether some frame of a thread belongs to an annotated method.
pub(crate) fn stands_inside(program: &CoreProgram, cell: &ThreadCell) -> bool
    ensures { result ≡ cell_inside (program_of program.now) cell.now }
{
    let frames = cell.frames();
    let mut depth = 0;
    while depth < frames {
        if depth_inside(program, cell, depth) {
            return true;
        }
        depth += 1;
    }
    false
}

/// The first of some threads that stands inside.
pub(crate) fn first_inside(program: &CoreProgram, threads: &[ThreadCell]) -> Option<usize>
    ensures { result ≡ position (cell_inside (program_of program.now)) threads.now }
{
    threads.iter().position(|cell| stands_inside(program, cell))
}
