//! Why a run ends without its text.

ghost use Rattle.std.specs.Prelude.{◌≡◌};
ghost use Rattle.c5_driver.specs.Refusals.{status_of};

use crate::status::Status;
use c5_definitions::{Excess, LogFault, ScriptFault};

/// Why a run ends without its text.
#[derive(Clone, Copy)]
pub enum Refusal {
    /// The words of the command line aren't a command.
    BadWords,
    /// A read failed.
    ReadFault,
    /// The input is longer than the command's limit.
    TooLong,
    /// Out of memory.
    NoMemory,
    /// The first fault of the script.
    BadScript(ScriptFault),
    /// The first fault of the log.
    BadLog(LogFault),
    /// The first limit that the script exceeds.
    Limit(Excess),
}

impl Refusal {
    /// The status that the run ends with.
    pub fn status(self) -> Status
        ensures { result ≡ status_of self }
    {
        match self {
            Refusal::BadWords => Status::BadWords,
            Refusal::ReadFault => Status::ReadFault,
            Refusal::TooLong => Status::TooLong,
            Refusal::NoMemory => Status::NoMemory,
            Refusal::BadScript(_) => Status::BadScript,
            Refusal::BadLog(_) => Status::BadLog,
            Refusal::Limit(_) => Status::Limit,
        }
    }
}
