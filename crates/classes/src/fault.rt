//! Why a program has no class table.

ghost use Rattle.std.specs.Prelude.{◌≡◌};
ghost use Rattle.classes.specs.declared.fault.ClassFault.TheVariants.{NoMemory as OutOfMemory};
ghost use Rattle.classes.specs.Faults.{class_fault_offset, class_fault_rank, class_fault_place};

use crate::first::{FaultPlace, Placed};
use std::alloc::{AllocError, AllocFailed};

/// A fault of a program's classes, with the offset in bytes, from 0, at which it stands.
#[derive(Clone, Copy, Debug, PartialEq, Eq)]
pub enum ClassFault {
    /// A class, a field or method of a class, or a parameter of a method or constructor has a name that stood before, or
    /// a field has the name of an inherited one. The offset is that of the later name.
    Twice(u32),
    /// The type of a field, parameter or result, or the name after `extends`, is no class of the program. The offset is
    /// that of this name.
    UnknownClass(u32),
    /// A class with final fields has no constructor, at the class's name; or a constructor isn't the one that assigns
    /// the final fields of its class in order, at the constructor's name.
    BadConstructor(u32),
    /// No class `Main` without final fields has a void method `main` without parameters and without `requires`, own or
    /// inherited.
    NoMain,
    /// A class that says `implements Runnable`, or an ancestor of which does, has no void method `run` without parameters
    /// and without `requires`, own or inherited.
    /// The offset is that of the class's name.
    NoRun(u32),
    /// The 33rd field of a class, inherited ones counted first, or the 17th parameter of a method or constructor. The
    /// offset is that of its name.
    TooMany(u32),
    NoMemory,
    /// A class that is its own ancestor, or that has such an ancestor. The offset is that of the class's name.
    Circle(u32),
    /// A method overrides one with other types or `final` marks of parameters, another result, `atomic` only on one of
    /// them, or with other locks in `requires`. The offset is that of the method's name.
    BadOverride(u32),
}

impl ClassFault {
    fn offset(self) -> u64
        ensures { result ≡ class_fault_offset self }
    {
        match self {
            ClassFault::Twice(at)
            | ClassFault::UnknownClass(at)
            | ClassFault::BadConstructor(at)
            | ClassFault::NoRun(at)
            | ClassFault::TooMany(at)
            | ClassFault::Circle(at)
            | ClassFault::BadOverride(at) => at as u64,
            ClassFault::NoMain | ClassFault::NoMemory => 1 << 32,
        }
    }

    fn rank(self) -> u8
        ensures { result ≡ class_fault_rank self }
    {
        match self {
            ClassFault::Twice(_) => 0,
            ClassFault::UnknownClass(_) => 1,
            ClassFault::BadConstructor(_) => 2,
            ClassFault::NoRun(_) => 3,
            ClassFault::TooMany(_) => 4,
            ClassFault::Circle(_) => 5,
            ClassFault::BadOverride(_) => 6,
            ClassFault::NoMain => 7,
            ClassFault::NoMemory => 8,
        }
    }
}

impl Placed for ClassFault {
    ghost place_of = { class_fault_place };

    fn place(self) -> FaultPlace {
        FaultPlace {
            offset: self.offset(),
            rank: self.rank(),
        }
    }
}

impl From<AllocError> for ClassFault {
    ghost from_gives = { λ _ e. e ≡ OutOfMemory };

    fn from(_error: AllocError) -> ClassFault {
        ClassFault::NoMemory
    }
}

impl<T: Drop> From<AllocFailed<T>> for ClassFault {
    ghost from_gives = { λ _ e. e ≡ OutOfMemory };

    fn from(_error: AllocFailed<T>) -> ClassFault {
        ClassFault::NoMemory
    }
}
