//! The command `turns`: what `clone` prints, with one worker after the other by the script's
//! schedule, and how many writes were put off.

ghost use Rattle.std.specs.Prelude.{◌≡◌, ◌≤◌, ◌++◌, None, IfOk, OnOk};
ghost use Rattle.std.specs.List.{All, flat_map};
ghost use Rattle.c5_rows.specs.declared.answer.Reply.{Reply as ReplyValue};
ghost use Rattle.c5_definitions.specs.Limits.{excess_of};
ghost use Rattle.c5_definitions.specs.Outputs.{no_rows, reply_text};
ghost use Rattle.c5_definitions.specs.Texts.{rows_text};
ghost use Rattle.c5_definitions.specs.TurnTexts.{put_off_text, turns_text};
ghost use Rattle.c5_replay.specs.TurnReplays.{IsTurnReplay};
ghost use Rattle.c5_driver.specs.LogLimits.{excess_of_log};
ghost use Rattle.c5_driver.specs.Meanings.{MakesText};
ghost use Rattle.c5_driver.specs.Uses.{source_use};
ghost use Rattle.c5_words.specs.Meaning.{AreOptions};

use crate::command::input_limit;
use crate::limits::plan_within;
use crate::logs::{decoded_run, serial_run_of};
use crate::orders::order_of;
use crate::refusal::Refusal;
use crate::replaying::push_replies_and_rows;
use crate::scripts::script_from;
use c5_frames::LogBuffer;
use c5_io::Source;
use c5_replay::{ReplayFault, TurnReport, replay_turns};
use c5_rows::{NoMemory, Rows};
use c5_script::Script;
use c5_text::put_off_text;
use c5_words::{Command, Options};
use std::alloc::Global;

// Replays the log from no rows, by the script's schedule.
fn report_of(
    alloc: Global,
    script: &Script,
    log: &LogBuffer,
    options: Options,
) -> Result<TurnReport, NoMemory>
    requires limits { excess_of_log log.now.txns ≡ None }
    requires options { AreOptions options }
    ensures { IfOk result (λ r. IsTurnReplay log.now options.workers no_rows script.now.reads
        script.now.turns r.replies r.rows r.put_off) }
{
    let plan = match plan_within(log) {
        Ok(plan) => plan,
        Err(_) => unreachable!(),
    };
    let start = Rows::new(alloc);
    match replay_turns(
        alloc,
        &plan,
        options.workers,
        &start,
        script.reads(),
        script.turns(),
    ) {
        Ok(report) => Ok(report),
        Err(ReplayFault::NoMemory) => Err(NoMemory),
        Err(ReplayFault::Rows) => unreachable!(),
    }
}

// Appends how many writes were put off.
fn push_put_off(alloc: Global, text: &mut Vec<u8>, count: u64) -> Result<(), NoMemory>
    ensures { OnOk result (text.new.items ≡ text.old.items ++ put_off_text count) }
{
    let line = put_off_text(alloc, count)?;
    text.extend_from_slice(&line)?;
    Ok(())
}

// Appends what a replay by a schedule gave.
fn push_report(
    alloc: Global,
    text: &mut Vec<u8>,
    script: &Script,
    report: TurnReport,
    total: u32,
) -> Result<(), NoMemory>
    requires { All (λ (reply : ReplyValue). reply.place ≤ total) report.replies }
    ensures { OnOk result (text.new.items ≡ text.old.items
        ++ (flat_map (reply_text script.now.tables total) report.replies
        ++ rows_text script.now.tables report.rows)
        ++ put_off_text report.put_off) }
{
    let TurnReport {
        replies,
        rows,
        put_off,
        ..
    } = report;
    push_replies_and_rows(alloc, text, script.schema(), replies, rows, total)?;
    push_put_off(alloc, text, put_off)
}

// The order of the script's bodies, the replies and the rows by its schedule, and how many writes
// were put off.
fn text_of_turns(alloc: Global, script: &Script, options: Options) -> Result<Vec<u8>, NoMemory>
    requires within { excess_of script.now ≡ None }
    requires options { AreOptions options }
    ensures { IfOk result (λ text. text.items ≡ turns_text script.now options.workers) }
{
    let txns = serial_run_of(alloc, script)?;
    let mut text = order_of(alloc, &txns)?;
    let log = decoded_run(alloc, script, &txns)?;
    drop(txns);
    let total = log.transactions();
    let report = report_of(alloc, script, &log, options)?;
    drop(log);
    push_report(alloc, &mut text, script, report, total)?;
    Ok(text)
}

/// The order of the bodies of the script that the source gives, the replies to its reads and the
/// rows by its schedule, and how many writes were put off; or why there is no such text.
pub fn turns<S: Source>(alloc: Global, options: Options, source: &mut S) -> Result<Vec<u8>, Refusal>
    requires { AreOptions options }
    ensures { MakesText Command.Turns options
        (source_use S.left S.faults source.old source.new) result }
{
    let script = script_from(alloc, source, input_limit(Command::Turns))?;
    match text_of_turns(alloc, &script, options) {
        Ok(text) => Ok(text),
        Err(NoMemory) => Err(Refusal::NoMemory),
    }
}
