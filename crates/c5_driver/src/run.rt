//! The top call.

ghost use Rattle.std.specs.Prelude.{◌≡◌, IfSome, map, string_bytes};
ghost use Rattle.c5_words.specs.Meaning.{meaning_of};
ghost use Rattle.c5_words.specs.Meaning.{AreOptions};
ghost use Rattle.c5_driver.specs.Meanings.{MakesText};
ghost use Rattle.c5_driver.specs.Runs.{Ends, ProgramEnds, PrintsNothing, PrintsSummary};
ghost use Rattle.c5_driver.specs.Runs.{ProgramCompletes, ReadsNothing, Headline};
ghost use Rattle.c5_driver.specs.Uses.{source_use, sink_use};

use crate::apply::apply;
use crate::backup::backup;
use crate::clone::clone;
use crate::generating::generated_text;
use crate::primary::primary;
use crate::printing::{print, refuse};
use crate::refusal::Refusal;
use crate::status::Status;
use crate::turns::turns;
use c5_io::{Sink, Source};
use c5_rows::NoMemory;
use c5_words::{Command, Options, Request, WordsFault, help_text, request_of, version_text};
use std::alloc::Global;
use std::thread::Threads;

// The text that the command makes of the source's bytes, or why there is none.
fn text_of<R: Threads + Sync, S: Source>(
    rt: &R,
    alloc: Global,
    command: Command,
    options: Options,
    source: &mut S,
) -> Result<Vec<u8>, Refusal>
    requires { AreOptions options }
    ensures { MakesText command options
        (source_use S.left S.faults source.old source.new) result }
{
    match command {
        Command::Apply => apply(alloc, options, source),
        Command::Primary => primary(rt, alloc, options, source),
        Command::Backup => backup(rt, alloc, options, source),
        Command::Clone => clone(rt, alloc, options, source),
        Command::Turns => turns(alloc, options, source),
    }
}

// Runs a command.
fn run<R: Threads + Sync, S: Source, K: Sink>(
    rt: &R,
    alloc: Global,
    command: Command,
    options: Options,
    source: &mut S,
    sink: &mut K,
) -> Status
    requires { AreOptions options }
    ensures ends { Ends command options result
        (source_use S.left S.faults source.old source.new)
        (sink_use K.held K.faults K.flushed sink.old sink.new) }
    ensures unwritten { PrintsNothing result → sink.new ≡ sink.old }
{
    match text_of(rt, alloc, command, options, source) {
        Ok(text) => print(sink, &text),
        Err(refusal) => {
            refuse(sink, refusal);
            refusal.status()
        }
    }
}

// Prints the summary of a generated script.
fn summarize<R: Threads + Sync, K: Sink>(
    rt: &R,
    alloc: Global,
    options: Options,
    sink: &mut K,
) -> Status
    requires { AreOptions options }
    ensures ends { PrintsSummary options.count result
        (sink_use K.held K.faults K.flushed sink.old sink.new) }
    ensures unwritten { PrintsNothing result → sink.new ≡ sink.old }
{
    match generated_text(rt, alloc, options) {
        Ok(text) => print(sink, &text),
        Err(NoMemory) => Status::NoMemory,
    }
}

/// Does all that the program does: takes the words of the command line after the program's name,
/// reads the source, writes the sink, and returns how the run ended.
pub fn c5<R: Threads + Sync, S: Source, K: Sink>(
    rt: &R,
    alloc: Global,
    words: &[String],
    source: &mut S,
    sink: &mut K,
) -> Status
    // If `clone` succeeds, it has printed an order that names each transaction of the script once;
    // the rows are those after running them one by one in that order; each reply answers from the
    // rows after exactly its place of those transactions, never fewer than its session's reply
    // before.
    ensures headline { Headline (meaning_of (map string_bytes words.now)) result
        (source_use S.left S.faults source.old source.new)
        (sink_use K.held K.faults K.flushed sink.old sink.new) }

    // What was read and what was written, by the status.
    ensures ends { ProgramEnds (meaning_of (map string_bytes words.now)) result
        (source_use S.left S.faults source.old source.new)
        (sink_use K.held K.faults K.flushed sink.old sink.new) }

    // Nothing is read if the words are refused or ask for a summary or a page; with ReadFault and
    // NoMemory nothing is written.
    ensures unread { ReadsNothing (meaning_of (map string_bytes words.now))
        → source.new ≡ source.old }
    ensures unwritten { PrintsNothing result → sink.new ≡ sink.old }

    // An accepted input gives Ok or NoMemory, if no read and no write failed; without an input any
    // run does.
    ensures complete { IfSome (meaning_of (map string_bytes words.now))
        (λ request. ProgramCompletes request result
        (source_use S.left S.faults source.old source.new)
        (sink_use K.held K.faults K.flushed sink.old sink.new)) }
{
    match request_of(alloc, words) {
        Ok(Request::Run { command, options }) => run(rt, alloc, command, options, source, sink),
        Ok(Request::Generate { options }) => summarize(rt, alloc, options, sink),
        Ok(Request::Help) => print(sink, help_text().as_bytes()),
        Ok(Request::Version) => print(sink, version_text().as_bytes()),
        Err(WordsFault::Refused) => {
            refuse(sink, Refusal::BadWords);
            Status::BadWords
        }
        Err(WordsFault::NoMemory) => Status::NoMemory,
    }
}
