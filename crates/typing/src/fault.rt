//! Why a program has no core program.

ghost use Rattle.std.specs.Prelude.{◌≡◌};
ghost use Rattle.typing.specs.declared.fault.TypeFault.TheVariants.{NoMemory as OutOfMemory};
ghost use Rattle.typing.specs.Faults.{type_fault_offset, type_fault_rank, type_fault_place};

use classes::{FaultPlace, Placed};
use std::alloc::{AllocError, AllocFailed};

/// A fault of a program's types, with the offset in bytes, from 0, at which it stands.
#[derive(Clone, Copy, Debug, PartialEq, Eq)]
pub enum TypeFault {
    /// A variable that isn't in scope, a type or `new` of no class, or a field or method that the receiver's class lacks.
    /// The offset is that of the name.
    UnknownName(u32),
    /// The parts of a node have types, and no rule gives the node one. The offset is that of the node's sign, name or word.
    NoRule(u32),
    /// A final local, parameter or field is assigned. The offset is that of its name.
    FinalAssigned(u32),
    /// A lock expression doesn't stand for a lock. The offset is that of its first token.
    NotALock(u32),
    /// The body of a method with a result can complete. The offset is that of the closing brace.
    MissingReturn(u32),
    /// A statement of a block stands after one that can't complete. The offset is that of its first token.
    Unreachable(u32),
    /// A method declares a 65th local. The offset is that of its name.
    TooManyLocals(u32),
    /// A local has the name of a local or parameter in scope. The offset is that of its name.
    Redeclared(u32),
    NoMemory,
}

impl TypeFault {
    fn offset(self) -> u64
        ensures { result ≡ type_fault_offset self }
    {
        match self {
            TypeFault::UnknownName(at)
            | TypeFault::NoRule(at)
            | TypeFault::FinalAssigned(at)
            | TypeFault::NotALock(at)
            | TypeFault::MissingReturn(at)
            | TypeFault::Unreachable(at)
            | TypeFault::TooManyLocals(at)
            | TypeFault::Redeclared(at) => at as u64,
            TypeFault::NoMemory => 1 << 32,
        }
    }

    fn rank(self) -> u8
        ensures { result ≡ type_fault_rank self }
    {
        match self {
            TypeFault::UnknownName(_) => 1,
            TypeFault::NoRule(_) => 2,
            TypeFault::FinalAssigned(_) => 3,
            TypeFault::NotALock(_) => 4,
            TypeFault::MissingReturn(_) => 5,
            TypeFault::Unreachable(_) => 6,
            TypeFault::TooManyLocals(_) => 7,
            TypeFault::Redeclared(_) => 8,
            TypeFault::NoMemory => 9,
        }
    }
}

impl Placed for TypeFault {
    ghost place_of = { type_fault_place };

    fn place(self) -> FaultPlace {
        FaultPlace {
            offset: self.offset(),
            rank: self.rank(),
        }
    }
}

impl From<AllocError> for TypeFault {
    ghost from_gives = { λ _ e. e ≡ OutOfMemory };

    fn from(_error: AllocError) -> TypeFault {
        TypeFault::NoMemory
    }
}

impl<T: Drop> From<AllocFailed<T>> for TypeFault {
    ghost from_gives = { λ _ e. e ≡ OutOfMemory };

    fn from(_error: AllocFailed<T>) -> TypeFault {
        TypeFault::NoMemory
    }
}
