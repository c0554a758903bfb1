//! The command `apply`: the rows after a whole log.

ghost use Rattle.std.specs.Prelude.{◌≡◌, ◌≤◌, ◌++◌, None, length, IfOk, IfErr, OnOk};
ghost use Rattle.std.specs.FinMap.{empty};
ghost use Rattle.std.specs.List.{All};
ghost use Rattle.c5_rows.specs.Order.{row_name_cmp};
ghost use Rattle.c5_rows.specs.State.{after_txns, rows_of};
ghost use Rattle.c5_definitions.specs.Texts.{rows_text};
ghost use Rattle.c5_definitions.specs.WriteNumbers.{names_in};
ghost use Rattle.c5_frames.specs.Index.{writes_of};
ghost use Rattle.c5_plan.specs.Written.{AreWrittenRows};
ghost use Rattle.c5_driver.specs.Inputs.{IsRefusedBy};
ghost use Rattle.c5_driver.specs.LastWrites.{entry_of_written, entries_left, HasWrite};
ghost use Rattle.c5_driver.specs.Meanings.{IsRowsAfter, log_refusal, MakesText};
ghost use Rattle.c5_driver.specs.Uses.{source_use};

use crate::command::input_limit;
use crate::decoding::{decoder_of_source, log_in};
use crate::limits::rows_within;
use crate::refusal::Refusal;
use c5_frames::{Decoder, LogBuffer};
use c5_io::Source;
use c5_plan::WrittenRow;
use c5_rows::{NoMemory, RowEntry, Schema};
use c5_text::rows_text;
use c5_words::{Command, Options};
use std::alloc::Global;

// Adds the row that its last write leaves, if that is a put.
fn push_left(
    entries: &mut Vec<RowEntry>,
    log: &LogBuffer,
    written: &WrittenRow,
) -> Result<(), NoMemory>
    requires { HasWrite (writes_of log.now.txns) written.now }
    ensures { OnOk result (entries.new.items
        ≡ entries.old.items ++ entry_of_written (writes_of log.now.txns) written.now) }
{
    match log.write(written.last).row() {
        Some(row) => entries.push(RowEntry {
            name: written.name,
            row: row.to_row(),
        })?,
        None => {}
    }
    Ok(())
}

// The rows that the last writes leave.
fn entries_left(
    alloc: Global,
    log: &LogBuffer,
    rows: &[WrittenRow],
) -> Result<Vec<RowEntry>, NoMemory>
    requires { All (HasWrite (writes_of log.now.txns)) rows.now }
    ensures { IfOk result
        (λ entries. entries.items ≡ entries_left (writes_of log.now.txns) rows.now) }
{
    let mut entries = Vec::new(alloc);
    for row in rows {
        push_left(&mut entries, log, row)?;
    }
    Ok(entries)
}

// The schema of a log and the rows after it. The log is dropped before they are printed, so that it
// and the text aren't in memory at once.
fn entries_after(
    alloc: Global,
    log: LogBuffer,
    rows: &[WrittenRow],
) -> Result<(Schema, Vec<RowEntry>), NoMemory>
    requires { AreWrittenRows rows.now (names_in log.txns) }
    ensures schema { IfOk result (λ r. r.0 ≡ log.tables) }
    ensures entries { IfOk result
        (λ r. r.1.items ≡ rows_of (after_txns log.txns (empty {R = row_name_cmp}))) }
{
    let schema = *log.schema();
    let entries = entries_left(alloc, &log, rows)?;
    Ok((schema, entries))
}

fn text_after(alloc: Global, log: LogBuffer, rows: &[WrittenRow]) -> Result<Vec<u8>, NoMemory>
    requires { AreWrittenRows rows.now (names_in log.txns) }
    ensures { IfOk result (λ text.
        text.items ≡ rows_text log.tables (after_txns log.txns (empty {R = row_name_cmp}))) }
{
    let (schema, entries) = entries_after(alloc, log, rows)?;
    rows_text(alloc, &schema, &entries)
}

// The text of the rows after the log that the decoder has taken, or why there is none.
fn text_of_log(alloc: Global, decoder: Decoder) -> Result<Vec<u8>, Refusal>
    ensures text { IfOk result (λ text. IsRowsAfter decoder text.items) }
    ensures accepted { OnOk result (log_refusal decoder ≡ None) }
    ensures refused { IfErr result (λ refusal. IsRefusedBy (log_refusal decoder) refusal) }
{
    let log = log_in(decoder)?;
    let rows = rows_within(alloc, &log)?;
    match text_after(alloc, log, &rows) {
        Ok(text) => Ok(text),
        Err(NoMemory) => Err(Refusal::NoMemory),
    }
}

/// The text of the rows after the log that the source gives, or why there is none.
pub fn apply<S: Source>(alloc: Global, options: Options, source: &mut S) -> Result<Vec<u8>, Refusal>
    ensures { MakesText Command.Apply options
        (source_use S.left S.faults source.old source.new) result }
{
    let decoder = decoder_of_source(alloc, source, input_limit(Command::Apply))?;
    text_of_log(alloc, decoder)
}
