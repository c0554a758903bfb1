//! Reading a whole script.

ghost use Rattle.std.specs.Prelude.{◌≡◌, ◌≤◌, length};
ghost use Rattle.c5_definitions.specs.Script.{after_numbered, script_of};
ghost use Rattle.c5_script.specs.Parsing.{ParsesTo};
ghost use Rattle.c5_rows.specs.Sizes.{max_log_bytes};

use crate::fault::LineError;
use crate::lines::first_line;
use crate::partial::PartialScript;
use crate::script::Script;
use crate::word::Word;
use crate::words::words_in;
use c5_definitions::{ScriptFault, ScriptKind};
use std::alloc::Global;
use thiserror::Error;

/// Why no script was read.
#[derive(Clone, Copy, Debug, Error)]
pub enum ParseFault {
    /// The first fault of the script.
    #[error("line {} of the script is faulty: {:?}", .0.line, .0.kind)]
    Bad(ScriptFault),
    /// Memory was refused.
    #[error("memory was refused")]
    NoMemory,
}

impl ParseFault {
    ghost use Rattle.c5_script.specs.Parsing.{parse_fault_on};

    // Why a line of this number was not taken.
    pub(crate) fn on_line(line: u32, error: LineError) -> Self
        ensures { result ≡ parse_fault_on line error }
    {
        match error {
            LineError::Fault(kind) => ParseFault::Bad(ScriptFault { line, kind }),
            LineError::NoMemory => ParseFault::NoMemory,
        }
    }
}

// Takes the line of this number. Its words are held in `words`.
fn take_line<'a>(
    script: &mut PartialScript,
    words: &mut Vec<Word<'a>>,
    number: u32,
    line: &'a [u8],
) -> Result<(), ParseFault>
    ensures { ParsesTo (λ _. script.new) result (after_numbered number script.old line.now) }
{
    if let Err(error) = words_in(line, words) {
        return Err(ParseFault::on_line(number, error));
    }
    match script.take_line(words) {
        Ok(()) => Ok(()),
        Err(error) => Err(ParseFault::on_line(number, error)),
    }
}

/// Reads a script. `Bad` has the first fault of the bytes, which comes if and only if they have
/// one.
pub fn parse(alloc: Global, bytes: &[u8]) -> Result<Script, ParseFault>
    requires { length bytes.now ≤ max_log_bytes }
    ensures { ParsesTo (λ script. script) result (script_of bytes.now) }
{
    let mut script = PartialScript::new(alloc);
    let mut words = Vec::new(alloc);
    let mut rest = bytes;
    let mut number = 1;
    while !rest.is_empty() {
        let (line, behind) = first_line(rest);
        take_line(&mut script, &mut words, number, line)?;
        rest = behind;
        number += 1;
    }
    match script.finish() {
        Some(script) => Ok(script),
        None => Err(ParseFault::Bad(ScriptFault {
            line: number,
            kind: ScriptKind::Unclosed,
        })),
    }
}
