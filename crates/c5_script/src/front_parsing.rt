//! Reading the script before a log.

ghost use Rattle.std.specs.Prelude.{◌≡◌, ◌≤◌, Ok, length};
ghost use Rattle.c5_definitions.specs.Script.{after_front_numbered, front_of};
ghost use Rattle.c5_script.specs.Front.{front_line_of};
ghost use Rattle.c5_script.specs.Parsing.{ParsesTo};
ghost use Rattle.c5_rows.specs.Sizes.{max_log_bytes};

use crate::lines::first_line;
use crate::parsing::ParseFault;
use crate::partial::{PartialScript, Taken};
use crate::script::Script;
use crate::word::Word;
use crate::words::words_in;
use c5_definitions::{ScriptFault, ScriptKind};
use std::alloc::Global;

/// A script, and what follows the line that ends it.
#[derive(Drop)]
pub struct Front<'a> {
    pub script: Script,
    /// The bytes after the `log` line.
    pub rest: &'a [u8],
}

// Takes the line of this number, which may end the script. Its words are held in `words`.
fn take_front_line<'a>(
    script: &mut PartialScript,
    words: &mut Vec<Word<'a>>,
    number: u32,
    line: &'a [u8],
) -> Result<Taken, ParseFault>
    ensures step { ParsesTo (front_line_of script.new) result
        (after_front_numbered number script.old line.now) }
    ensures log { result ≡ Ok Taken.Log → script.new ≡ script.old }
{
    if let Err(error) = words_in(line, words) {
        return Err(ParseFault::on_line(number, error));
    }
    match script.take_front_line(words) {
        Ok(taken) => Ok(taken),
        Err(error) => Err(ParseFault::on_line(number, error)),
    }
}

/// Reads the script up to the first line that is accepted as a `log` line, and gives the bytes
/// after that.
/// `Bad` has the first fault of the bytes, which comes if and only if they have one.
pub fn parse_front(alloc: Global, bytes: &[u8]) -> Result<Front<'_>, ParseFault>
    requires { length bytes.now ≤ max_log_bytes }
    ensures { ParsesTo (λ front. (front.script, front.rest.now)) result (front_of bytes.now) }
{
    let mut script = PartialScript::new(alloc);
    let mut words = Vec::new(alloc);
    let mut rest = bytes;
    let mut number = 1;
    while !rest.is_empty() {
        let (line, behind) = first_line(rest);
        match take_front_line(&mut script, &mut words, number, line)? {
            Taken::More => {}
            Taken::Log => {
                return match script.finish() {
                    Some(script) => Ok(Front {
                        script,
                        rest: behind,
                    }),
                    None => unreachable!(),
                };
            }
        }
        rest = behind;
        number += 1;
    }
    Err(ParseFault::Bad(ScriptFault {
        line: number,
        kind: ScriptKind::Unclosed,
    }))
}
