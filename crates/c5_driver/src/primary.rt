//! The command `primary`: the log of a serial run of a script.

ghost use Rattle.std.specs.Prelude.{◌≡◌, List, None, IfOk};
ghost use Rattle.c5_rows.specs.declared.writes.Txn.{Txn};
ghost use Rattle.c5_definitions.specs.Lawful.{Spells};
ghost use Rattle.c5_definitions.specs.Limits.{excess_of};
ghost use Rattle.c5_definitions.specs.Outputs.{no_rows};
ghost use Rattle.c5_definitions.specs.SerialRun.{SerialRun};
ghost use Rattle.c5_words.specs.Meaning.{AreOptions};
ghost use Rattle.c5_driver.specs.Meanings.{MakesText};
ghost use Rattle.c5_driver.specs.Uses.{source_use};

use crate::command::input_limit;
use crate::logs::{bytes_of, run_of};
use crate::refusal::Refusal;
use crate::scripts::script_from;
use c5_io::Source;
use c5_rows::NoMemory;
use c5_script::Script;
use c5_words::{Command, Options};
use std::alloc::Global;
use std::thread::Threads;

// The log of the bodies, run from no rows.
fn log_of_run<R: Threads + Sync>(
    rt: &R,
    alloc: Global,
    script: &Script,
    options: Options,
) -> Result<Vec<u8>, NoMemory>
    requires within { excess_of script.now ≡ None }
    requires options { AreOptions options }
    ensures { IfOk result (λ text. (txns : List Txn)
        × SerialRun script.now.bodies no_rows txns
        × Spells text.items script.now.tables txns) }
{
    let txns = run_of(rt, alloc, script, options.threads)?;
    let text = bytes_of(alloc, script, &txns)?;
    Ok(text)
}

/// The log of a serial run of the script that the source gives, or why there is none.
pub fn primary<R: Threads + Sync, S: Source>(
    rt: &R,
    alloc: Global,
    options: Options,
    source: &mut S,
) -> Result<Vec<u8>, Refusal>
    requires { AreOptions options }
    ensures { MakesText Command.Primary options
        (source_use S.left S.faults source.old source.new) result }
{
    let script = script_from(alloc, source, input_limit(Command::Primary))?;
    match log_of_run(rt, alloc, &script, options) {
        Ok(text) => Ok(text),
        Err(NoMemory) => Err(Refusal::NoMemory),
    }
}
