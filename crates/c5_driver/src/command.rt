//! How much each command reads.

ghost use Rattle.std.specs.Prelude.{◌≡◌};
ghost use Rattle.c5_driver.specs.Commands.{input_limit};

use c5_rows::{MAX_LOG_BYTES, MAX_SCRIPT_BYTES};
use c5_words::Command;

/// The most bytes that the command reads.
pub fn input_limit(command: Command) -> usize
    ensures { result ≡ input_limit command }
{
    match command {
        Command::Apply => MAX_LOG_BYTES,
        Command::Primary => MAX_SCRIPT_BYTES,
        Command::Backup => MAX_LOG_BYTES,
        Command::Clone => MAX_SCRIPT_BYTES,
        Command::Turns => MAX_SCRIPT_BYTES,
    }
}
