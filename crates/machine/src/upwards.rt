//! What runs for a call, looked for up the line of a class: one class after the other is passed.
ghost use Rattle.std.specs.Prelude.{◌≡◌, ℕ, Some, slice_get};
ghost use Rattle.core_program.specs.Core.{Program};
ghost use Rattle.core_program.specs.Dispatch.{inherited_target, target_of};
ghost use Rattle.core_program.specs.Views.{program_of};
ghost use Rattle.machine.specs.Upwards.{runs_below, look_tells};

use core_program::{CoreClass, CoreProgram};
use paths::{ClassId, MethodId};

/// What a look up the line of a class comes to.
#[derive(Clone, Copy)]
pub(crate) enum Look {
    /// This runs, or nothing.
    Ends(Option<MethodId>),
    /// What runs for this class decides, and this is the nearest method with the name below it.
    GoesOn(ClassId, Option<MethodId>),
}

/// What runs below classes whose nearest method of the name is this one, where that runs above them.
pub(crate) fn runs_below(nearest: Option<MethodId>, above: Option<MethodId>) -> Option<MethodId>
    ensures { result ≡ runs_below nearest above }
{
    match above {
        Some(above) => Some(nearest.unwrap_or(above)),
        None => None,
    }
}

/// The look goes on to the class above, if there is one.
fn goes_on(above: Option<ClassId>, nearest: Option<MethodId>) -> Look
    ensures { (P : Program) (m : ℕ) → look_tells P m result ≡ runs_below nearest (inherited_target P above m) }
{
    match above {
        Some(above) => Look::GoesOn(above, nearest),
        None => Look::Ends(None),
    }
}

/// Passes a class, below which this is the nearest method of the name.
pub(crate) fn pass(
    program: &CoreProgram,
    class: ClassId,
    nearest: Option<MethodId>,
    method: MethodId,
    name: u32,
) -> Look
    requires { slice_get program.now.names.items method ≡ Some name }
    ensures { look_tells (program_of program.now) method result ≡ runs_below nearest (target_of (program_of program.now) class method) }
{
    let Some(found) = program.class_at(class) else {
        return Look::Ends(None);
    };
    match program.own_named(name, found) {
        Some(own) => {
            if own == method {
                Look::Ends(Some(nearest.unwrap_or(method)))
            } else {
                goes_on(found.above, Some(nearest.unwrap_or(own)))
            }
        }
        None => goes_on(found.above, nearest),
    }
}
