//! How a run ends.

ghost use Rattle.std.specs.Prelude.{◌≡◌};

/// How a run ends.
#[derive(Clone, Copy, PartialEq, Eq)]
pub enum Status {
    /// The input was read to its end, if there is one, and the whole text was written.
    Ok,
    /// The words of the command line aren't a command.
    BadWords,
    /// The script has a fault.
    BadScript,
    /// The log has a fault.
    BadLog,
    /// A read failed.
    ReadFault,
    /// A write or the flush failed.
    WriteFault,
    /// Out of memory.
    NoMemory,
    /// The input is longer than the command's limit.
    TooLong,
    /// The script has more transactions, writes or rows than a log may have.
    Limit,
}

impl Status {
    ghost use Rattle.c5_driver.specs.Numbers.{status_number};

    /// The exit status of the program, 0 to 9.
    pub fn number(self) -> u8
        ensures { result ≡ status_number self }
    {
        match self {
            Status::Ok => 0,
            Status::BadWords => 2,
            Status::BadScript => 3,
            Status::BadLog => 4,
            Status::ReadFault => 5,
            Status::WriteFault => 6,
            Status::NoMemory => 7,
            Status::TooLong => 8,
            Status::Limit => 9,
        }
    }
}
