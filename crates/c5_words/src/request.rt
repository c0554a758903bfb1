//! What the words ask for.

use crate::command::Command;
use crate::options::Options;

/// What a list of words asks for.
#[derive(Clone, Copy)]
pub enum Request {
    /// A run of a command over an input.
    Run {
        /// The command that the positional word names.
        command: Command,
        /// The numbers of the options.
        options: Options,
    },
    /// The summary of a generated script, which the word `gen` asks for. It reads no input.
    Generate {
        /// The numbers of the options.
        options: Options,
    },
    /// The text of help.
    Help,
    /// The text of the version.
    Version,
}

/// Why a list of words gives no request.
#[derive(Clone, Copy)]
pub enum WordsFault {
    /// The words ask for nothing that the program does.
    Refused,
    /// Out of memory. It may come for any words.
    NoMemory,
}
