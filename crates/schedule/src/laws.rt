//! What a fault of form is, and what comments change.
ghost use Rattle.std.specs.Prelude.{◌≡◌, ◌⊎◌, ◌++◌, ℕ, List, true, false, suc, length, take};
ghost use Rattle.schedule.specs.Comments.{commented, ends_line};
ghost use Rattle.schedule.specs.Faults.{HasFormFault};
ghost use Rattle.schedule.specs.Fronts.{IsFrontOfSchedule, NoNumber, ends_in_star};
ghost use Rattle.schedule.specs.Text.{IsSchedule};
ghost use Rattle.schedule.specs.Written.{written};

/// What a fault of form is, apart from how a text is read: some text of pieces begins with the bytes before its place, and none
/// with the byte there as well, unless a number that may not stand there begins there, or the text ends there behind a `*`.
pub fn form_laws()
    ensures before { (text : List ℕ) (place : ℕ) → HasFormFault text place → IsFrontOfSchedule (take place text) }
    ensures at { (text : List ℕ) (place : ℕ) → HasFormFault text place →
        ((IsFrontOfSchedule (take (suc place) text) → ⊥) ⊎ (NoNumber text place ⊎ ((place ≡ length text) × (ends_in_star false text ≡ true)))) }
{}

/// A text behind a schedule changes nothing where each of its lines is a comment, and the schedule's last line ends with LF, as
/// that of a written schedule does.
pub fn comment_laws()
    ensures same { (text comment schedule : List ℕ) → IsSchedule text schedule → ends_line text ≡ true → IsSchedule (text ++ commented comment) schedule }
    ensures written { (schedule : List ℕ) → ends_line (written schedule) ≡ true }
{}
