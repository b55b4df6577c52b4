//! How the relevant paths of a method stand to those of one that it overrides.
ghost use Rattle.std.specs.Prelude.{◌≡◌, ◌++◌, ◌∷◌, [], true};
ghost use Rattle.algebra.specs.HeldPaths.{Held};
ghost use Rattle.rules.specs.Rules.{AtMost};
ghost use Rattle.refutation.specs.Tables.{table_entry};
ghost use Rattle.refutation.specs.Steps.{IsAlong, entry_along};

use algebra::{Basic, front, half, has};
use arrayvec::ArrayVec;
use paths::Path;

/// The next path of two lists: in both, in the first alone, or in the second alone.
#[derive(Clone, Copy, Default, PartialEq, Eq)]
pub(crate) enum Step {
    #[default]
    Both,
    First,
    Second,
}

/// How two lists stand to each other, from the front.
pub(crate) type Alignment = ArrayVec<Step, 16>;

/// Adds a step, if there is room for it.
fn took(steps: &mut Alignment, step: Step) -> bool
    ensures { result ≡ true → steps.new.items ≡ steps.old.items ++ step ∷ [] }
{
    steps.try_push(step).is_ok()
}

/// Adds how the second list stands to the first, which is the rest of a whole one, and says whether it could. Where both ascend and have
/// at most eight paths it can.
pub(crate) fn align(whole: &[Path], rel: &[Path], its: &[Path], steps: &mut Alignment) -> bool
    ensures { result ≡ true → IsAlong whole.now rel.now its.now steps.old.items steps.new.items }
{
    let Some((path, behind)) = its.split_first() else {
        return true;
    };
    let Some((first, rest)) = rel.split_first() else {
        return !has(whole, path) && took(steps, Step::Second) && align(whole, rel, behind, steps);
    };
    if first.same(path) {
        return took(steps, Step::Both) && align(whole, rest, behind, steps);
    }
    if has(whole, path) {
        return took(steps, Step::First) && align(whole, rest, its, steps);
    }
    took(steps, Step::Second) && align(whole, rel, behind, steps)
}

/// Whether two lists have the same steps.
pub(crate) fn same_steps(steps: &[Step], others: &[Step]) -> bool
    ensures { result ≡ true → steps.now ≡ others.now }
{
    let Some((step, rest)) = steps.split_first() else {
        return others.is_empty();
    };
    match others.split_first() {
        Some((other, behind)) => *step == *other && same_steps(rest, behind),
        None => false,
    }
}

/// Whether a basic is at most each of a table of these paths.
fn is_below_all(found: Basic, rel: &[Path], table: &[Basic]) -> bool
    ensures { result ≡ true → (H : Held) → AtMost found (table_entry rel.now table.now H) }
{
    match rel.split_first() {
        Some((_, rest)) => {
            is_below_all(found, rest, half(table, false))
                && is_below_all(found, rest, half(table, true))
        }
        None => found.below(front(table)),
    }
}

/// Whether what a table says along some steps is at most what another says, which is of these paths.
pub(crate) fn is_within(steps: &[Step], rel: &[Path], from: &[Basic], table: &[Basic]) -> bool
    ensures { result ≡ true → (H : Held) → AtMost (entry_along steps.now rel.now from.now H) (table_entry rel.now table.now H) }
{
    let Some((step, behind)) = steps.split_first() else {
        return is_below_all(front(from), rel, table);
    };
    match step {
        Step::Second => is_within(behind, rel, half(from, false), table),
        Step::First => {
            let Some((_, rest)) = rel.split_first() else {
                return false;
            };
            is_within(behind, rest, from, half(table, false))
                && is_within(behind, rest, from, half(table, true))
        }
        Step::Both => {
            let Some((_, rest)) = rel.split_first() else {
                return false;
            };
            is_within(behind, rest, half(from, false), half(table, false))
                && is_within(behind, rest, half(from, true), half(table, true))
        }
    }
}
