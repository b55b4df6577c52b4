//! Why reading stops.
ghost use Rattle.std.specs.Prelude.{◌≡◌, ◌-◌, ◌<◌, ◌^◌, length};
ghost use Rattle.books.specs.Faults.{fault_at};

use std::alloc::{AllocError, AllocFailed};

/// Why bytes are no book. Places count bytes from 0.
#[derive(Clone, Copy, Debug, PartialEq, Eq)]
pub enum BookFault {
    /// No book goes on with this byte, or the bytes end here too early, or a number out of range or a tree that isn't canonical
    /// begins here.
    Form(u32),
    /// This bracket is the 65th open one.
    TooDeep(u32),
    /// There was no memory for the book.
    NoMemory,
}

impl From<AllocError> for BookFault {
    ghost use Rattle.std.specs.Prelude.{◌≡◌};
    ghost use Rattle.books.specs.declared.stop.BookFault.TheVariants as faults;

    ghost from_gives = { λ _ fault. fault ≡ faults.NoMemory };

    fn from(_: AllocError) -> Self {
        BookFault::NoMemory
    }
}

/// What kind of fault a text has.
#[derive(Clone, Copy, Debug, PartialEq, Eq)]
pub enum Kind {
    Form,
    TooDeep,
}

/// A fault, and the text from its first byte on.
#[derive(Clone, Copy)]
pub struct Stop<'a> {
    pub kind: Kind,
    pub rest: &'a [u8],
}

/// A part of a book was not built: there was no memory for it, or its text is no book's. Reading with no memory tells which.
#[derive(Clone, Copy)]
pub struct Unbuilt;

impl<'a> From<Stop<'a>> for Unbuilt {
    fn from(_: Stop<'a>) -> Self {
        Unbuilt
    }
}

impl From<AllocError> for Unbuilt {
    fn from(_: AllocError) -> Self {
        Unbuilt
    }
}

impl<T: Drop> From<AllocFailed<T>> for Unbuilt {
    fn from(_: AllocFailed<T>) -> Self {
        Unbuilt
    }
}

/// The fault where reading stopped in a text of this length.
pub fn fault_in(size: usize, stop: Stop<'_>) -> BookFault
    requires { size < 2 ^ 32 }
    ensures { result ≡ fault_at stop.entry.kind (size - length stop.entry.rest.now) }
{
    let place = size.saturating_sub(stop.rest.len()) as u32;
    match stop.kind {
        Kind::Form => BookFault::Form(place),
        Kind::TooDeep => BookFault::TooDeep(place),
    }
}
