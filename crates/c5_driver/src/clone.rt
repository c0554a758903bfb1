//! The command `clone`: the order of a script's run, the replies to its reads, and the rows.

ghost use Rattle.std.specs.Prelude.{◌≡◌, None, IfOk};
ghost use Rattle.c5_definitions.specs.Limits.{excess_of};
ghost use Rattle.c5_driver.specs.Cloning.{IsCloneOf};
ghost use Rattle.c5_driver.specs.Meanings.{MakesText};
ghost use Rattle.c5_words.specs.Meaning.{AreOptions};
ghost use Rattle.c5_driver.specs.Uses.{source_use};

use crate::command::input_limit;
use crate::logs::{decoded_run, run_of};
use crate::orders::order_of;
use crate::refusal::Refusal;
use crate::replaying::{push_replayed, replay_within};
use crate::scripts::script_from;
use c5_io::Source;
use c5_rows::NoMemory;
use c5_script::Script;
use c5_words::{Command, Options};
use std::alloc::Global;
use std::thread::Threads;

// The order of a run of the script, the replies and the rows.
fn text_of_clone<R: Threads + Sync>(
    rt: &R,
    alloc: Global,
    script: &Script,
    options: Options,
) -> Result<Vec<u8>, NoMemory>
    requires within { excess_of script.now ≡ None }
    requires options { AreOptions options }
    ensures { IfOk result (λ text. IsCloneOf script.now text.items) }
{
    let txns = run_of(rt, alloc, script, options.threads)?;
    let mut text = order_of(alloc, &txns)?;
    let log = decoded_run(alloc, script, &txns)?;
    drop(txns);
    let total = log.transactions();
    let replayed = replay_within(rt, alloc, script, &log, options)?;
    drop(log);
    push_replayed(alloc, &mut text, script, replayed, total)?;
    Ok(text)
}

/// The order of a run of the script that the source gives, the replies to its reads and the rows,
/// or why there is no such text.
pub fn clone<R: Threads + Sync, S: Source>(
    rt: &R,
    alloc: Global,
    options: Options,
    source: &mut S,
) -> Result<Vec<u8>, Refusal>
    requires { AreOptions options }
    ensures { MakesText Command.Clone options
        (source_use S.left S.faults source.old source.new) result }
{
    let script = script_from(alloc, source, input_limit(Command::Clone))?;
    match text_of_clone(rt, alloc, &script, options) {
        Ok(text) => Ok(text),
        Err(NoMemory) => Err(Refusal::NoMemory),
    }
}
