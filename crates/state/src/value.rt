//! Values, addresses, faults, the status of a thread and the kinds of steps.

/// The address of an object: the thread that made it, and how many objects that thread had made before.
/// The object of the class `Main` that stands at the start has the address 0:0.
#[derive(Clone, Copy, PartialEq, Eq, PartialOrd, Ord, Debug)]
pub struct Address {
    pub thread: u32,
    pub count: u32,
}

/// A value of a variable, a field or an operand.
#[derive(Clone, Copy, PartialEq, Eq, Debug)]
pub enum Value {
    Int(i32),
    Truth(bool),
    Null,
    Ref(Address),
}

/// Why a thread faulted: it followed `null`, it divided by zero, or it had too many frames.
#[derive(Clone, Copy, PartialEq, Eq, Debug)]
pub enum Fault {
    Null,
    Zero,
    Depth,
}

/// The status of a thread.
#[derive(Clone, Copy, PartialEq, Eq, Debug)]
pub enum ThreadState {
    Ready,
    Running,
    Done,
    Faulted(Fault),
}

/// The kind of a step, after Lipton (1975): whether it may change places with its neighbours of other threads.
#[derive(Clone, Copy, PartialEq, Eq, Debug)]
pub enum StepKind {
    /// Both ways, as a step that no other thread can see.
    Both,
    /// With the step after it, as the acquire of a lock.
    Right,
    /// With the step before it, as the release of a lock.
    Left,
    /// With neither.
    Other,
    /// An access to a guarded field without its guard.
    Bare,
}
