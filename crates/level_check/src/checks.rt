//! What is asked of levels that were read.
ghost use Rattle.std.specs.Prelude.{◌≡◌, ◌<◌, ◌^◌, ◌==◌, ℕ, length, position, IfSome, IfNone};
ghost use Rattle.core_program.specs.Views.{program_of};
ghost use Rattle.levels.specs.Walks.{level_in};
ghost use Rattle.levels.specs.SlotTypes.{AreMarked};
ghost use Rattle.level_check.specs.Faults.{Differs};
ghost use Rattle.level_check.specs.Kept.{differs};

use crate::lines::level_of;
use core_program::CoreProgram;
use paths::ClassId;

/// The first place at which there is no level.
pub(crate) fn first_missing(levels: &[u32]) -> Option<usize>
    ensures { result ≡ position (λ level. level == 0) levels.now }
{
    levels.iter().position(|level| *level == 0)
}

/// Whether a class has another level than the class above it, if there is one.
fn differs(levels: &[u32], class: ClassId, above: Option<ClassId>) -> bool
    ensures { result ≡ differs (level_in levels.now) class above }
{
    match above {
        Some(above) => level_of(levels, class) != level_of(levels, above),
        None => false,
    }
}

/// The first class that has another level than the class that it extends.
pub(crate) fn first_unequal(levels: &[u32], program: &CoreProgram) -> Option<ClassId>
    requires { length (program_of program.now).classes < 2 ^ 32 }
    ensures none { IfNone result (AreMarked (program_of program.now) (level_in levels.now)) }
    ensures differs { IfSome result (Differs (program_of program.now) levels.now) }
    ensures earlier { IfSome result (λ c. (d : ℕ) → d < c → Differs (program_of program.now) levels.now d → ⊥) }
{
    let mut id = 0_u32;
    for class in program.classes() {
        if differs(levels, ClassId(id), class.above) {
            return Some(ClassId(id));
        }
        id += 1;
    }
    None
}
