//! What a thread does next.
use paths::{ClassId, FieldId, MethodId};
use state::{Address, Fault, Value};

/// What a running thread does next, decided before anything is changed. `place` is where its frame goes on.
#[derive(Clone, Copy, PartialEq, Eq, Debug)]
pub enum Deed {
    /// The thread faults.
    Fails(Fault),
    /// Operands are dropped, and one is given or none.
    Goes {
        drops: usize,
        gives: Option<Value>,
        place: u32,
    },
    /// A slot gets the topmost operand, which is dropped.
    Stores {
        slot: u16,
        value: Value,
        place: u32,
    },
    /// A field is read, and its value takes the place of the object.
    Reads {
        address: Address,
        field: FieldId,
        value: Value,
        place: u32,
    },
    /// A field is written, and value and object are dropped.
    Writes {
        address: Address,
        field: FieldId,
        index: u16,
        value: Value,
        place: u32,
    },
    /// An object is made, and takes the place of the arguments.
    Makes {
        class: ClassId,
        arguments: usize,
        place: u32,
    },
    /// A method is entered on an object, and the arguments and the receiver are dropped.
    Enters {
        method: MethodId,
        arguments: usize,
        address: Address,
        place: u32,
        entry: u32,
        room: u32,
    },
    /// A lock is taken; `again` where the thread held it before.
    Takes {
        address: Address,
        again: bool,
        place: u32,
    },
    /// Another thread holds the lock that the thread wants.
    Waits {
        address: Address,
        holder: u32,
    },
    /// The last taken lock is given back; `frees` where it is free then.
    Gives {
        address: Address,
        frees: bool,
        place: u32,
    },
    /// The frame is taken away; the one below gets the result or none.
    Returns {
        gives: Option<Value>,
    },
    /// A number is printed.
    Prints {
        number: i32,
        place: u32,
    },
    /// A thread is started on an object.
    Starts {
        address: Address,
        method: MethodId,
        place: u32,
    },
}

/// Why a thread didn't step: no thread has this number, it is done, it had faulted, its next action is an acquire of a lock
/// that another thread holds, or memory was wanting.
#[derive(Clone, Copy, PartialEq, Eq, Debug)]
pub enum StepEnd {
    Absent,
    Done,
    Faulted(Fault),
    Waits { address: Address, holder: u32 },
    NoMemory,
}

/// What a thread's turn comes to, decided before anything is changed.
#[derive(Clone, Copy, PartialEq, Eq, Debug)]
pub enum Turn {
    /// There is no step.
    Ends(StepEnd),
    /// The thread faults.
    Fails(Fault),
    /// A ready thread enters its method, which begins at this place and wants this much room.
    Enters {
        address: Address,
        method: MethodId,
        entry: u32,
        room: u32,
    },
    /// A running thread starts another on an object; `place` is where its own frame goes on.
    Starts {
        address: Address,
        method: MethodId,
        place: u32,
    },
    /// A running thread does something else.
    Does(Deed),
}
