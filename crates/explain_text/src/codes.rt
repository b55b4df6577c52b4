//! How the lines end: each kind of line has a code.

ghost use Rattle.std.specs.Prelude.{◌≡◌};
ghost use Rattle.explain.specs.Views.{why_data};
ghost use Rattle.explain_text.specs.Codes.{cause_code, ending, help_code, spoken_kind, step_code, step_lead, why_code};

use explain::{Cause, Help, Why};

/// Which step of an explanation a line tells.
#[derive(Clone, Copy)]
pub enum StepKind {
    /// The first of two.
    First,
    /// The second of two.
    Second,
    /// One that a loop repeats.
    Repeated,
    /// One that is compound by itself.
    Compound,
}

/// The kind whose words stand before a step.
pub(crate) fn spoken_kind(kind: StepKind, is_compound: bool) -> StepKind
    ensures { result ≡ spoken_kind kind is_compound }
{
    match (kind, is_compound) {
        (StepKind::First, true) => StepKind::Compound,
        (StepKind::First, false) => StepKind::First,
        (StepKind::Second, _) => StepKind::Second,
        (StepKind::Repeated, true) => StepKind::Compound,
        (StepKind::Repeated, false) => StepKind::Repeated,
        (StepKind::Compound, _) => StepKind::Compound,
    }
}

/// The words before what a step does.
pub(crate) fn step_lead(kind: StepKind) -> &'static str
    ensures { result.now ≡ step_lead kind }
{
    match kind {
        StepKind::First | StepKind::Repeated => "atomic step: ",
        StepKind::Second => "a second one: ",
        StepKind::Compound => "compound step: ",
    }
}

/// The end of the line of a step.
pub(crate) fn step_ending(kind: StepKind) -> &'static str
    ensures { result.now ≡ ending (step_code kind) }
{
    match kind {
        StepKind::First => " [first-step]\n",
        StepKind::Second => " [second-step]\n",
        StepKind::Repeated => " [repeated-step]\n",
        StepKind::Compound => " [compound-step]\n",
    }
}

/// The end of the line of a method that is told for this reason.
pub(crate) fn why_ending(why: &Why<'_>) -> &'static str
    ensures { result.now ≡ ending (why_code (why_data why.now)) }
{
    match why {
        Why::Wrong(_) => " [lock-error]\n",
        Why::Looped(_, _) => " [step-in-a-loop]\n",
        Why::Compound(_) => " [compound-call]\n",
        Why::Two(_, _) => " [two-steps]\n",
        Why::Overridden(_, _) => " [overriding-method]\n",
        Why::Nothing => " [no-reason]\n",
    }
}

/// The end of the line of an error with this cause.
pub(crate) fn cause_ending(cause: &Cause) -> &'static str
    ensures { result.now ≡ ending (cause_code cause.now) }
{
    match cause {
        Cause::Bare(_, _, _, _, _) => " [guard-not-held]\n",
        Cause::Nameless(_, _, _) => " [guard-unnamed]\n",
        Cause::Lacking(_, _, _, _) => " [required-not-held]\n",
        Cause::LackingName(_, _, _) => " [required-unnamed]\n",
        Cause::Refused(_) => " [calls-an-error]\n",
        Cause::Other => " [other-error]\n",
    }
}

/// The end of the line of what would help a step.
pub(crate) fn help_ending(help: &Help) -> &'static str
    ensures { result.now ≡ ending (help_code help.now) }
{
    match help {
        Help::Hold(_, _) => " [help-lock]\n",
        Help::Unguarded => " [help-unguarded]\n",
        Help::WritesOnly => " [help-writes-only]\n",
        Help::Unnamed(_) => " [help-unnamed]\n",
        Help::ReceiverUnnamed(_) => " [help-receiver-unnamed]\n",
        Help::NoneNamed => " [help-none-named]\n",
        Help::Seen => " [help-none]\n",
    }
}
