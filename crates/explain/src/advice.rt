//! Which variable or field should be final, so that a lock of an explained method has a name and the method is what it may be.

ghost use Rattle.std.specs.Prelude.{◌≡◌, option_map, IfOk};
ghost use Rattle.core_program.specs.Views.{method_of, program_of};
ghost use Rattle.rules.specs.Near.{rel_of};
ghost use Rattle.std.specs.Option.{option_copied};
ghost use Rattle.explain.specs.Finalising.{final_variable_fits};
ghost use Rattle.explain.specs.Fitting.{final_fits, first_lack, fitting, fitting_of, lack_in_cause, lack_in_help, lack_of_error, lack_of_step, lacking_final};
ghost use Rattle.explain.specs.Views.{explained_data, visit_of, why_data};

use crate::causes::{Cause, cause_of};
use crate::deeds::{Help, help_of};
use crate::explaining::Why;
use crate::final_fields::FinalFields;
use crate::finals::{assigns, final_stmt};
use crate::found::Visited;
use crate::names::{Alias, Lack};
use crate::program::{Explained, method_at};
use crate::walk::Walk;
use crate::wrapping::body_effect;
use algebra::Basic;
use core_program::CoreMethod;
use effects::Assigned;
use rules::RelevantSets;
use std::alloc::{AllocError as NoMemory, Global};

/// The variable or the field that isn't final, where an expression has no path since it isn't.
fn lacking_final(lack: Lack) -> Option<Lack>
    ensures { result ≡ lacking_final lack }
{
    match lack {
        Lack::Variable(slot) => Some(Lack::Variable(slot)),
        Lack::Field(field) => Some(Lack::Field(field)),
        Lack::Long | Lack::Value => None,
    }
}

/// That by which a lock has no name, where that is what is wrong.
fn lack_in_cause(cause: &Cause) -> Option<Lack>
    ensures { result ≡ lack_in_cause cause.now }
{
    match cause {
        Cause::Nameless(_, _, lack) => lacking_final(*lack),
        Cause::LackingName(_, _, lack) => lacking_final(*lack),
        Cause::Bare(_, _, _, _, _)
        | Cause::Lacking(_, _, _, _)
        | Cause::Refused(_)
        | Cause::Other => None,
    }
}

/// That by which the lock that would help has no name.
fn lack_in_help(help: &Help) -> Option<Lack>
    ensures { result ≡ lack_in_help help.now }
{
    match help {
        Help::Unnamed(lack) => lacking_final(*lack),
        Help::ReceiverUnnamed(lack) => lacking_final(*lack),
        Help::Hold(_, _) | Help::Unguarded | Help::WritesOnly | Help::NoneNamed | Help::Seen =>
            None,
    }
}

/// That of a part that is an error by itself.
fn lack_of_error<A: Assigned>(
    walk: &Walk<'_, A>,
    aliases: &[Alias],
    error: &Visited<'_>,
) -> Result<Option<Lack>, NoMemory>
    ensures { IfOk result (λ lack. lack ≡ lack_of_error (program_of walk.now.program.now) (rel_of walk.now.sets.now) (A.Assigned.assigned walk.now.assigned.now) aliases.now (visit_of error.now)) }
{
    let cause = cause_of(walk, aliases, error.part, error.held.as_slice())?;
    Ok(lack_in_cause(&cause))
}

/// That of a step.
fn lack_of_step<A: Assigned>(
    walk: &Walk<'_, A>,
    aliases: &[Alias],
    step: &Visited<'_>,
) -> Result<Option<Lack>, NoMemory>
    ensures { IfOk result (λ lack. lack ≡ lack_of_step (program_of walk.now.program.now) (rel_of walk.now.sets.now) (A.Assigned.assigned walk.now.assigned.now) aliases.now (visit_of step.now)) }
{
    let help = help_of(walk, aliases, step.part, step.held.as_slice())?;
    Ok(lack_in_help(&help))
}

/// That of the first part of a reason that has one.
fn first_lack<A: Assigned>(
    walk: &Walk<'_, A>,
    aliases: &[Alias],
    why: &Why<'_>,
) -> Result<Option<Lack>, NoMemory>
    ensures { IfOk result (λ lack. lack ≡ first_lack (program_of walk.now.program.now) (rel_of walk.now.sets.now) (A.Assigned.assigned walk.now.assigned.now) aliases.now (why_data why.now)) }
{
    match why {
        Why::Wrong(error) => lack_of_error(walk, aliases, error),
        Why::Looped(step, _) => lack_of_step(walk, aliases, step),
        Why::Compound(step) => lack_of_step(walk, aliases, step),
        Why::Two(first, second) => {
            if let Some(lack) = lack_of_step(walk, aliases, first)? {
                return Ok(Some(lack));
            }
            lack_of_step(walk, aliases, second)
        }
        Why::Overridden(_, _) | Why::Nothing => Ok(None),
    }
}

/// Whether nothing assigns to a variable of a method again, and with it final the body is at most this.
fn final_variable_fits<A: Assigned>(
    walk: &Walk<'_, A>,
    method: &CoreMethod,
    limit: Basic,
    slot: u16,
) -> Result<bool, NoMemory>
    ensures { IfOk result (λ b. b ≡ final_variable_fits (program_of walk.now.program.now) (rel_of walk.now.sets.now) (A.Assigned.assigned walk.now.assigned.now) (method_of method.now) limit slot) }
{
    if assigns(slot, &method.body) {
        return Ok(false);
    }
    let body = final_stmt(walk.alloc, slot, &method.body)?;
    let own = body_effect(walk, &body, method.requires_.as_slice())?;
    Ok(own.below(limit))
}

/// Whether it helps a method, which may be at most this, to make a variable or a field final, of the program of this walk.
fn final_fits<A: Assigned>(
    finals: &mut FinalFields<'_>,
    walk: &Walk<'_, A>,
    method: &CoreMethod,
    limit: Basic,
    lack: &Lack,
) -> Result<bool, NoMemory>
    requires { walk.now.program.now ≡ finals.old }
    ensures kept { finals.new ≡ finals.old }
    ensures fits { IfOk result (λ b. b ≡ final_fits (program_of finals.old) (rel_of walk.now.sets.now) (A.Assigned.assigned walk.now.assigned.now) (method_of method.now) limit lack.now) }
{
    match lack {
        Lack::Variable(slot) => final_variable_fits(walk, method, limit, *slot),
        Lack::Field(field) => finals.fits(walk, method, limit, *field),
        Lack::Long | Lack::Value => Ok(false),
    }
}

/// This variable or field, where there is one and it helps a method, which may be at most this, to make it final.
fn fitting_of<A: Assigned>(
    finals: &mut FinalFields<'_>,
    walk: &Walk<'_, A>,
    method: Option<&CoreMethod>,
    limit: Basic,
    lack: Option<Lack>,
) -> Result<Option<Lack>, NoMemory>
    requires { walk.now.program.now ≡ finals.old }
    ensures kept { finals.new ≡ finals.old }
    ensures fits { IfOk result (λ found. found ≡ fitting_of (program_of finals.old) (rel_of walk.now.sets.now) (A.Assigned.assigned walk.now.assigned.now) (option_map method_of (option_copied method.entry)) limit lack) }
{
    let Some(method) = method else {
        return Ok(None);
    };
    let Some(lack) = lack else {
        return Ok(None);
    };
    if final_fits(finals, walk, method, limit, &lack)? {
        return Ok(Some(lack));
    }
    Ok(None)
}

/// The first variable or field by which an explained method lacks the name of a lock, where it helps to make that final, in the program of
/// these fields, by these relevant paths and this assignment.
pub fn fitting<A: Assigned>(
    alloc: Global,
    finals: &mut FinalFields<'_>,
    sets: &RelevantSets,
    assigned: &A,
    aliases: &[Alias],
    x: &Explained<'_>,
) -> Result<Option<Lack>, NoMemory>
    ensures kept { finals.new ≡ finals.old }
    ensures fits { IfOk result (λ lack. lack ≡ fitting (program_of finals.old) (rel_of sets.now) (A.Assigned.assigned assigned.now) aliases.now (explained_data x.now)) }
{
    let walk = Walk {
        alloc,
        program: finals.program(),
        sets,
        assigned,
    };
    let lack = first_lack(&walk, aliases, &x.why)?;
    let method = method_at(walk.program, x.method);
    fitting_of(finals, &walk, method, x.limit, lack)
}
