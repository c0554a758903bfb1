//! The replies and the rows of a replay.

ghost use Rattle.std.specs.Prelude.{◌≡◌, ◌≤◌, ◌<◌, ◌++◌, ℕ, List, Err, None, length, option_map};
ghost use Rattle.std.specs.Prelude.{IfErr, IfOk, OnOk};
ghost use Rattle.std.specs.List.{All, flat_map};
ghost use Rattle.c5_rows.specs.Sizes.{max_rows};
ghost use Rattle.c5_rows.specs.State.{after_txns};
ghost use Rattle.c5_rows.specs.declared.answer.Reply.{Reply as ReplyValue};
ghost use Rattle.c5_definitions.specs.Outputs.{no_rows, reply_text};
ghost use Rattle.c5_definitions.specs.Texts.{rows_text};
ghost use Rattle.c5_definitions.specs.WriteNumbers.{names_in};
ghost use Rattle.c5_definitions.specs.WriteNumbers.{row_count};
ghost use Rattle.c5_words.specs.Meaning.{AreOptions};
ghost use Rattle.c5_driver.specs.Inputs.{IsRefusedBy};
ghost use Rattle.c5_driver.specs.LogLimits.{excess_of_log};
ghost use Rattle.c5_driver.specs.Replaying.{IsReplayOver};
ghost use Rattle.c5_driver.specs.declared.refusal.Refusal.TheVariants.{Limit};

use crate::limits::plan_within;
use crate::refusal::Refusal;
use c5_definitions::Excess;
use c5_frames::LogBuffer;
use c5_io::OpenGate;
use c5_plan::Plan;
use c5_replay::{ReplayFault, Replayed, replay};
use c5_rows::{NoMemory, Replies, Reply, Rows, Schema};
use c5_script::Script;
use c5_text::{push_rows, reply_text};
use c5_words::Options;
use std::alloc::Global;
use std::thread::Threads;

// Appends a reply.
fn push_reply(
    alloc: Global,
    text: &mut Vec<u8>,
    schema: &Schema,
    reply: &Reply,
    total: u32,
) -> Result<(), NoMemory>
    requires { reply.now.place ≤ total }
    ensures { OnOk result (text.new.items
        ≡ text.old.items ++ reply_text schema.now total reply.now) }
{
    let lines = reply_text(alloc, schema, reply, total)?;
    text.extend_from_slice(&lines)?;
    Ok(())
}

// Appends replies.
fn push_replies(
    alloc: Global,
    text: &mut Vec<u8>,
    schema: &Schema,
    replies: &[Reply],
    total: u32,
) -> Result<(), NoMemory>
    requires { All (λ (reply : ReplyValue). reply.place ≤ total) replies.now }
    ensures { OnOk result (text.new.items
        ≡ text.old.items ++ flat_map (reply_text schema.now total) replies.now) }
{
    for reply in replies {
        push_reply(alloc, text, schema, reply, total)?;
    }
    Ok(())
}

// Replays the log from no rows. `Rows` if and only if it writes more than 65,536 different rows.
fn replay_of<R: Threads + Sync>(
    rt: &R,
    alloc: Global,
    script: &Script,
    plan: &Plan<'_>,
    options: Options,
) -> Result<Replayed, ReplayFault>
    requires tables { plan.now.tables ≡ script.now.tables }
    requires options { AreOptions options }
    ensures replayed { IfOk result
        (λ r. IsReplayOver script.now plan.now.txns r.replies r.rows) }
    ensures rows { result ≡ Err ReplayFault.Rows → max_rows < row_count (names_in plan.now.txns) }
    ensures few { OnOk result (row_count (names_in plan.now.txns) ≤ max_rows) }
{
    let start = Rows::new(alloc);
    replay(
        rt,
        alloc,
        plan,
        options.workers,
        &start,
        script.reads(),
        &OpenGate,
    )
}

/// Replays a log from no rows, or says which limit it exceeds.
pub fn replay_log<R: Threads + Sync>(
    rt: &R,
    alloc: Global,
    script: &Script,
    log: &LogBuffer,
    options: Options,
) -> Result<Replayed, Refusal>
    requires tables { log.now.tables ≡ script.now.tables }
    requires options { AreOptions options }
    ensures replayed { IfOk result
        (λ r. IsReplayOver script.now log.now.txns r.replies r.rows) }
    ensures within { OnOk result (excess_of_log log.now.txns ≡ None) }
    ensures refused { IfErr result
        (λ refusal. IsRefusedBy (option_map Limit (excess_of_log log.now.txns)) refusal) }
{
    let plan = match plan_within(log) {
        Ok(plan) => plan,
        Err(excess) => return Err(Refusal::Limit(excess)),
    };
    match replay_of(rt, alloc, script, &plan, options) {
        Ok(replayed) => Ok(replayed),
        Err(ReplayFault::Rows) => Err(Refusal::Limit(Excess::Rows)),
        Err(ReplayFault::NoMemory) => Err(Refusal::NoMemory),
    }
}

/// Replays a log that exceeds no limit from no rows.
pub fn replay_within<R: Threads + Sync>(
    rt: &R,
    alloc: Global,
    script: &Script,
    log: &LogBuffer,
    options: Options,
) -> Result<Replayed, NoMemory>
    requires tables { log.now.tables ≡ script.now.tables }
    requires limits { excess_of_log log.now.txns ≡ None }
    requires options { AreOptions options }
    ensures { IfOk result (λ r. IsReplayOver script.now log.now.txns r.replies r.rows) }
{
    let plan = match plan_within(log) {
        Ok(plan) => plan,
        Err(_) => unreachable!(),
    };
    match replay_of(rt, alloc, script, &plan, options) {
        Ok(replayed) => Ok(replayed),
        Err(ReplayFault::NoMemory) => Err(NoMemory),
        Err(ReplayFault::Rows) => unreachable!(),
    }
}

/// Appends the replies, each at a place of at most `total`, and the rows.
pub fn push_replies_and_rows(
    alloc: Global,
    text: &mut Vec<u8>,
    schema: &Schema,
    replies: Replies,
    rows: Rows,
    total: u32,
) -> Result<(), NoMemory>
    requires { All (λ (reply : ReplyValue). reply.place ≤ total) replies }
    ensures { OnOk result (text.new.items ≡ text.old.items
        ++ (flat_map (reply_text schema.now total) replies ++ rows_text schema.now rows)) }
{
    push_replies(alloc, text, schema, replies.as_slice(), total)?;
    drop(replies);
    push_rows(text, schema, &rows)
}

/// Appends what a replay gave, with each reply at a place of at most `total`.
pub fn push_replayed(
    alloc: Global,
    text: &mut Vec<u8>,
    script: &Script,
    replayed: Replayed,
    total: u32,
) -> Result<(), NoMemory>
    requires { All (λ (reply : ReplyValue). reply.place ≤ total) replayed.replies }
    ensures { OnOk result (text.new.items ≡ text.old.items
        ++ (flat_map (reply_text script.now.tables total) replayed.replies
        ++ rows_text script.now.tables replayed.rows)) }
{
    let Replayed { replies, rows, .. } = replayed;
    push_replies_and_rows(alloc, text, script.schema(), replies, rows, total)
}
