//! What is written to the sink.

ghost use Rattle.std.specs.Prelude.{◌≡◌, ◌++◌, [], is_ok, OnOk};
ghost use Rattle.std.specs.Io.KnownBytes.{Appends, Keeps};
ghost use Rattle.c5_rows.specs.Counts.{HasCause};
ghost use Rattle.c5_driver.specs.Printed.{AppendsPrefix, PrintsText, PrintsLine};
ghost use Rattle.c5_driver.specs.Refusals.{line_of, limit_line, log_ending, place_line};
ghost use Rattle.c5_driver.specs.Refusals.{script_ending};
ghost use Rattle.c5_driver.specs.Uses.{sink_use};

use crate::refusal::Refusal;
use crate::status::Status;
use c5_definitions::{Excess, LogKind, ScriptKind};
use c5_io::{Failed, Sink, write_all};
use itoa::Buffer;

// Flushes.
fn finish<K: Sink>(sink: &mut K) -> Result<(), Failed>
    ensures kept { Keeps (K.held sink.old) (K.held sink.new) }
    ensures flushed { K.flushed sink.new ≡ is_ok result }
    ensures cause { HasCause (K.faults sink.old) (K.faults sink.new) result }
{
    sink.flush()
}

/// Writes the whole text and flushes. Returns `Ok`, or `WriteFault` if a call failed.
pub fn print<K: Sink>(sink: &mut K, text: &[u8]) -> Status
    ensures { PrintsText result (sink_use K.held K.faults K.flushed sink.old sink.new) text.now }
{
    match write_all(sink, text) {
        Ok(()) => {}
        Err(Failed) => return Status::WriteFault,
    }
    match finish(sink) {
        Ok(()) => Status::Ok,
        Err(Failed) => Status::WriteFault,
    }
}

// Writes a line and flushes. A failed call is ignored.
fn report<K: Sink>(sink: &mut K, line: &[u8])
    ensures { PrintsLine (sink_use K.held K.faults K.flushed sink.old sink.new) line.now }
{
    match write_all(sink, line) {
        Ok(()) => {
            let _ = finish(sink);
        }
        Err(Failed) => {}
    }
}

// Writes three parts of a line, one after the other, up to the first failure.
fn write_parts<K: Sink>(
    sink: &mut K,
    start: &[u8],
    middle: &[u8],
    ending: &[u8],
) -> Result<(), Failed>
    ensures written { AppendsPrefix (K.held sink.old) (K.held sink.new)
        (start.now ++ middle.now ++ ending.now) }
    ensures whole { OnOk result (Appends (K.held sink.old) (K.held sink.new)
        (start.now ++ middle.now ++ ending.now)) }
    ensures cause { HasCause (K.faults sink.old) (K.faults sink.new) result }
{
    write_all(sink, start)?;
    write_all(sink, middle)?;
    write_all(sink, ending)?;
    Ok(())
}

// Writes a line with a number in its middle and flushes. A failed call is ignored.
fn report_place<K: Sink>(sink: &mut K, start: &[u8], place: u32, ending: &[u8])
    ensures { PrintsLine (sink_use K.held K.faults K.flushed sink.old sink.new)
        (place_line start.now place ending.now) }
{
    let mut digits = Buffer::new();
    match write_parts(sink, start, digits.format(place).as_bytes(), ending) {
        Ok(()) => {
            let _ = finish(sink);
        }
        Err(Failed) => {}
    }
}

// The end of the line that reports a fault of a log.
fn ending_of_log(kind: LogKind) -> &'static [u8]
    ensures { result.now ≡ log_ending kind }
{
    match kind {
        LogKind::Magic => b" magic\n",
        LogKind::Header => b" header\n",
        LogKind::Length => b" length\n",
        LogKind::Kind => b" kind\n",
        LogKind::Table => b" table\n",
        LogKind::Key => b" key\n",
        LogKind::Cell => b" cell\n",
        LogKind::Order => b" order\n",
        LogKind::Stamp => b" stamp\n",
        LogKind::Count => b" count\n",
        LogKind::End => b" end\n",
        LogKind::Cut => b" cut\n",
        LogKind::After => b" after\n",
    }
}

// The end of the line that reports a fault of a script.
fn ending_of_script(kind: ScriptKind) -> &'static [u8]
    ensures { result.now ≡ script_ending kind }
{
    match kind {
        ScriptKind::Byte => b" byte\n",
        ScriptKind::Quote => b" quote\n",
        ScriptKind::Word => b" word\n",
        ScriptKind::Limit => b" limit\n",
        ScriptKind::Count => b" count\n",
        ScriptKind::Name => b" name\n",
        ScriptKind::Table => b" table\n",
        ScriptKind::Key => b" key\n",
        ScriptKind::Column => b" column\n",
        ScriptKind::WrongType => b" type\n",
        ScriptKind::Number => b" number\n",
        ScriptKind::Unclosed => b" unclosed\n",
    }
}

// The line of a limit.
fn line_of_limit(excess: Excess) -> &'static [u8]
    ensures { result.now ≡ limit_line excess }
{
    match excess {
        Excess::Transactions => b"limit transactions\n",
        Excess::Writes => b"limit writes\n",
        Excess::Rows => b"limit rows\n",
    }
}

/// Writes the line of a refusal, if it has one, and flushes. A failed call is ignored.
pub fn refuse<K: Sink>(sink: &mut K, refusal: Refusal)
    ensures line { PrintsLine (sink_use K.held K.faults K.flushed sink.old sink.new)
        (line_of refusal) }
    ensures untouched { line_of refusal ≡ [] → sink.new ≡ sink.old }
{
    match refusal {
        Refusal::BadWords => report(sink, b"bad words\n"),
        Refusal::TooLong => report(sink, b"too long\n"),
        Refusal::BadScript(fault) => report_place(
            sink,
            b"bad script line ",
            fault.line,
            ending_of_script(fault.kind),
        ),
        Refusal::BadLog(fault) => {
            report_place(
                sink,
                b"bad log at ",
                fault.offset,
                ending_of_log(fault.kind),
            )
        }
        Refusal::Limit(excess) => report(sink, line_of_limit(excess)),
        Refusal::ReadFault | Refusal::NoMemory => {}
    }
}
