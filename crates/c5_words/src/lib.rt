//! The words of the command line: what they ask for, and the texts of help and version.
#![tactic(auto)]

mod command;
mod options;
mod parsing;
mod program;
mod request;
mod texts;

pub use command::Command;
pub use options::{DEFAULT_COUNT, Options};
pub use parsing::request_of;
pub use request::{Request, WordsFault};
pub use texts::{help_text, version_text};

#[cfg(test)]
mod tests;
