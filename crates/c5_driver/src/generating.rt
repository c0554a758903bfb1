//! The command `gen`: the summary of the log, the rows and the replies of a generated script.

ghost use Rattle.std.specs.Prelude.{◌≡◌, ◌≤◌, None, IfOk};
ghost use Rattle.c5_rows.specs.Sizes.{max_transactions};
ghost use Rattle.c5_definitions.specs.Generated.{generated_script};
ghost use Rattle.c5_definitions.specs.Limits.{excess_of};
ghost use Rattle.c5_definitions.specs.Summaries.{generated_summary, summary_text};
ghost use Rattle.c5_definitions.specs.TurnTexts.{txns_in_number_order};
ghost use Rattle.c5_gen.specs.Laws.{IsSummary};
ghost use Rattle.c5_words.specs.Meaning.{AreOptions};
ghost use Rattle.c5_driver.specs.Figures.{summary_in};
ghost use Rattle.c5_driver.specs.Generating.{EndsWith, gen_ending};
ghost use Rattle.c5_driver.specs.LogLimits.{excess_of_log};
ghost use Rattle.c5_driver.specs.Replaying.{IsReplayOver};

use crate::figures::{Figures, figures_of, figures_text};
use crate::logs::{decoded_run, serial_run_of};
use crate::replaying::replay_within;
use c5_frames::LogBuffer;
use c5_gen::{limits_law, script_of, summary_law};
use c5_replay::Replayed;
use c5_rows::NoMemory;
use c5_script::Script;
use c5_words::Options;
use std::alloc::Global;
use std::thread::Threads;

// The script of a count.
fn script_within(alloc: Global, count: u32) -> Result<Script, NoMemory>
    requires some { 1 ≤ count }
    requires few { count ≤ max_transactions }
    ensures script { IfOk result (λ script. script ≡ generated_script count) }
    ensures within { IfOk result (λ script. excess_of script ≡ None) }
{
    let script = script_of(alloc, count)?;
    limits_law();
    Ok(script)
}

// The log of the script's bodies, run in the order of their numbers and decoded from its bytes.
fn log_of_run(alloc: Global, script: &Script) -> Result<LogBuffer, NoMemory>
    requires within { excess_of script.now ≡ None }
    ensures tables { IfOk result (λ log. log.tables ≡ script.now.tables) }
    ensures txns { IfOk result (λ log. log.txns ≡ txns_in_number_order script.now) }
    ensures limits { IfOk result (λ log. excess_of_log log.txns ≡ None) }
{
    let txns = serial_run_of(alloc, script)?;
    let log = decoded_run(alloc, script, &txns)?;
    Ok(log)
}

// The counts of a generated script's log, of its replies and of the rows after it.
fn figures_over(
    alloc: Global,
    count: u32,
    script: &Script,
    log: &LogBuffer,
    replayed: &Replayed,
) -> Result<Figures, NoMemory>
    requires some { 1 ≤ count }
    requires script { script.now ≡ generated_script count }
    requires tables { log.now.tables ≡ script.now.tables }
    requires txns { log.now.txns ≡ txns_in_number_order script.now }
    requires replayed { IsReplayOver script.now log.now.txns
        replayed.now.replies replayed.now.rows }
    ensures text { IfOk result
        (λ figures. summary_text (summary_in figures) ≡ generated_summary count) }
    ensures counts { IfOk result (λ figures. IsSummary count (summary_in figures)) }
{
    summary_law();
    let replies = replayed.replies.as_slice();
    let figures = figures_of(alloc, log, &replayed.rows, replies)?;
    Ok(figures)
}

/// The summary of the script of `options.count`: it is run in the order of its transactions'
/// numbers, its log is decoded from its bytes and replayed, and log, rows and replies are counted.
/// The text is determined by the count, whatever the number of workers. Only out of memory is an
/// error.
pub fn generated_text<R: Threads + Sync>(
    rt: &R,
    alloc: Global,
    options: Options,
) -> Result<Vec<u8>, NoMemory>
    requires { AreOptions options }
    ensures text { IfOk result (λ text. text.items ≡ generated_summary options.count) }
    ensures ending { IfOk result (λ text. EndsWith gen_ending text.items) }
{
    let script = script_within(alloc, options.count)?;
    let log = log_of_run(alloc, &script)?;
    let replayed = replay_within(rt, alloc, &script, &log, options)?;
    let figures = figures_over(alloc, options.count, &script, &log, &replayed)?;
    let text = figures_text(alloc, &figures)?;
    Ok(text)
}
