//! The exit status of the program.

ghost use Rattle.std.specs.Prelude.{◌≡◌};

use sources::Ending;

/// How the program ends.
#[derive(Clone, Copy, Debug, PartialEq, Eq)]
pub enum Status {
    /// As the command on the files ended.
    Ended(Ending),
    /// A named file can't be read.
    CannotRead,
    /// The text can't be written.
    CannotWrite,
    /// Memory was refused.
    NoMemory,
    /// The words are no row.
    Usage,
    /// A named file has more bytes than it may have.
    TooLarge,
}

impl Status {
    ghost use Rattle.commands.specs.Commands.{exit_status};

    /// The number that the program exits with.
    pub fn code(self) -> u8
        ensures { result ≡ exit_status self }
    {
        match self {
            Status::Ended(ending) => ending.code(),
            Status::CannotRead => 6,
            Status::CannotWrite => 7,
            Status::NoMemory => 8,
            Status::Usage => 9,
            Status::TooLarge => 10,
        }
    }
}
