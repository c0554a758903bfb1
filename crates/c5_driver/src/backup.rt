//! The command `backup`: the replies to a script's reads over a log, and the rows.

ghost use Rattle.std.specs.Prelude.{◌≡◌, ◌≤◌, ◌++◌, [], None, true, length, drop, option_map};
ghost use Rattle.std.specs.Prelude.{Ok, IfOk, IfErr, OnOk};
ghost use Rattle.std.specs.List.{All, flat_map};
ghost use Rattle.c5_rows.specs.Sizes.{max_log_bytes};
ghost use Rattle.c5_rows.specs.declared.answer.Reply.{Reply as ReplyValue};
ghost use Rattle.c5_definitions.specs.Items.{log_of};
ghost use Rattle.c5_definitions.specs.Lawful.{Spells};
ghost use Rattle.c5_definitions.specs.Outputs.{reply_text};
ghost use Rattle.c5_definitions.specs.Script.{front_of};
ghost use Rattle.c5_definitions.specs.Texts.{rows_text};
ghost use Rattle.c5_driver.specs.Backups.{AreScriptAndLog, IsLogOver};
ghost use Rattle.c5_driver.specs.Inputs.{IsRefusedBy};
ghost use Rattle.c5_driver.specs.LogLimits.{excess_of_log};
ghost use Rattle.c5_driver.specs.Meanings.{backup_refusal, log_refusal_over, other_tables};
ghost use Rattle.c5_driver.specs.Meanings.{IsBackup, MakesText};
ghost use Rattle.c5_driver.specs.Replaying.{PrintsReplay};
ghost use Rattle.c5_driver.specs.declared.refusal.Refusal.TheVariants.{Limit};
ghost use Rattle.c5_words.specs.Meaning.{AreOptions};
ghost use Rattle.c5_driver.specs.SameTables.{are_same_tables};
ghost use Rattle.c5_driver.specs.Uses.{source_use};

use crate::command::input_limit;
use crate::decoding::{decoder_of, log_in};
use crate::reading::read_bytes;
use crate::refusal::Refusal;
use crate::replaying::{push_replayed, replay_log};
use c5_definitions::{LogFault, LogKind};
use c5_frames::LogBuffer;
use c5_io::Source;
use c5_replay::Replayed;
use c5_rows::{NoMemory, Schema};
use c5_script::{ParseFault, Script, parse_front};
use c5_words::{Command, Options};
use std::alloc::Global;
use std::thread::Threads;

// Whether they have the same tables.
fn have_same_tables(schema: &Schema, log: &LogBuffer) -> bool
    ensures value { result ≡ are_same_tables schema.now log.now.tables }
    ensures same { result ≡ true → schema.now ≡ log.now.tables }
{
    *schema == *log.schema()
}

// The log of these bytes, if its tables are those of the schema.
fn log_over(alloc: Global, schema: &Schema, bytes: Vec<u8>) -> Result<LogBuffer, Refusal>
    requires { length bytes.items ≤ max_log_bytes }
    ensures log { IfOk result (λ log. IsLogOver schema.now bytes.items log) }
    ensures refused { IfErr result
        (λ refusal. IsRefusedBy (log_refusal_over schema.now bytes.items) refusal) }
{
    let decoder = decoder_of(alloc, bytes)?;
    let log = log_in(decoder)?;
    if have_same_tables(schema, &log) {
        Ok(log)
    } else {
        Err(Refusal::BadLog(LogFault {
            offset: 4,
            kind: LogKind::Header,
        }))
    }
}

// The script that the bytes begin with, and how many bytes it has; or why it is refused.
fn script_of(alloc: Global, bytes: &[u8]) -> Result<(Script, usize), Refusal>
    requires { length bytes.now ≤ max_log_bytes }
    ensures read { IfOk result (λ r. front_of bytes.now ≡ Ok (r.0, drop r.1 bytes.now)) }
    ensures within { IfOk result (λ r. r.1 ≤ length bytes.now) }
    ensures refused { IfErr result (λ refusal. IsRefusedBy (backup_refusal bytes.now) refusal) }
{
    match parse_front(alloc, bytes) {
        Ok(front) => {
            let rest = front.rest.len();
            Ok((front.script, bytes.len() - rest))
        }
        Err(ParseFault::Bad(fault)) => Err(Refusal::BadScript(fault)),
        Err(ParseFault::NoMemory) => Err(Refusal::NoMemory),
    }
}

// The bytes after the first `count`, at the same place in memory.
fn after(mut bytes: Vec<u8>, count: usize) -> Vec<u8>
    requires { count ≤ length bytes.items }
    ensures { result.items ≡ drop count bytes.items }
{
    drop(bytes.drain(..count));
    bytes
}

// The script of these bytes and the log that follows it, or why they are refused.
fn script_and_log(alloc: Global, bytes: Vec<u8>) -> Result<(Script, LogBuffer), Refusal>
    requires { length bytes.items ≤ max_log_bytes }
    ensures read { IfOk result (λ r. AreScriptAndLog bytes.items r.0 r.1) }
    ensures refused { IfErr result (λ refusal. IsRefusedBy (backup_refusal bytes.items) refusal) }
{
    let (script, count) = script_of(alloc, &bytes)?;
    let log = log_over(alloc, script.schema(), after(bytes, count))?;
    Ok((script, log))
}

// The text of what a replay gave, with each reply at a place of at most `total`.
fn text_of_replayed(
    alloc: Global,
    script: &Script,
    replayed: Replayed,
    total: u32,
) -> Result<Vec<u8>, NoMemory>
    requires { All (λ (reply : ReplyValue). reply.place ≤ total) replayed.replies }
    ensures { IfOk result (λ text. text.items
        ≡ flat_map (reply_text script.now.tables total) replayed.replies
        ++ rows_text script.now.tables replayed.rows) }
{
    let mut text = Vec::new(alloc);
    push_replayed(alloc, &mut text, script, replayed, total)?;
    Ok(text)
}

// The replies and the rows over the log, or the limit that it exceeds. The log is dropped before
// they are printed.
fn text_over<R: Threads + Sync>(
    rt: &R,
    alloc: Global,
    script: &Script,
    log: LogBuffer,
    options: Options,
) -> Result<Vec<u8>, Refusal>
    requires tables { log.tables ≡ script.now.tables }
    requires options { AreOptions options }
    ensures text { IfOk result (λ text. PrintsReplay script.now log.txns [] text.items) }
    ensures within { OnOk result (excess_of_log log.txns ≡ None) }
    ensures refused { IfErr result
        (λ refusal. IsRefusedBy (option_map Limit (excess_of_log log.txns)) refusal) }
{
    let total = log.transactions();
    let replayed = match replay_log(rt, alloc, script, &log, options) {
        Ok(replayed) => replayed,
        Err(refusal) => return Err(refusal),
    };
    drop(log);
    match text_of_replayed(alloc, script, replayed, total) {
        Ok(text) => Ok(text),
        Err(NoMemory) => Err(Refusal::NoMemory),
    }
}

// The replies and the rows over a script and the log that follows it, or why they are refused.
fn text_of_backup<R: Threads + Sync>(
    rt: &R,
    alloc: Global,
    bytes: Vec<u8>,
    options: Options,
) -> Result<Vec<u8>, Refusal>
    requires bytes { length bytes.items ≤ max_log_bytes }
    requires options { AreOptions options }
    ensures text { IfOk result (λ text. IsBackup bytes.items text.items) }
    ensures accepted { OnOk result (backup_refusal bytes.items ≡ None) }
    ensures refused { IfErr result (λ refusal. IsRefusedBy (backup_refusal bytes.items) refusal) }
{
    let (script, log) = match script_and_log(alloc, bytes) {
        Ok(read) => read,
        Err(refusal) => return Err(refusal),
    };
    text_over(rt, alloc, &script, log, options)
}

/// The replies to the reads of the script that the source gives, over the log that follows it, and
/// the rows; or why there is no such text.
pub fn backup<R: Threads + Sync, S: Source>(
    rt: &R,
    alloc: Global,
    options: Options,
    source: &mut S,
) -> Result<Vec<u8>, Refusal>
    requires { AreOptions options }
    ensures { MakesText Command.Backup options
        (source_use S.left S.faults source.old source.new) result }
{
    let bytes = read_bytes(alloc, source, input_limit(Command::Backup))?;
    text_of_backup(rt, alloc, bytes, options)
}
