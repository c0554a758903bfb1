//! The program: standard input, standard output and the words of the command line, given to the top
//! call.
#![tactic(auto)]

ghost use Rattle.std.specs.Prelude.{◌≡◌};
ghost use Rattle.c5.specs.Advice.{advice_of};

use c5_driver::{Status, c5};
use c5_io::{StdSink, StdSource};
use std::alloc::Global;
use std::io::ErrorKind;
use std::process::ExitCode;
use std::rt::Env;
use std::thread::Threads;
use std::{env, io};

// The words after the program's name.
fn words<R: Env + AllocGlobal>(rt: &R, alloc: Global) -> io::Result<Vec<String>> {
    Ok(env::args(rt)?.skip(1).collect(alloc)?)
}

// What went wrong and what to do, for a run whose output doesn't say it, for bad words only what to
// do; empty for any other.
fn advice(status: Status) -> &'static str
    ensures { result.now ≡ advice_of status }
{
    match status {
        Status::BadWords => "try c5 --help",
        Status::ReadFault => "reading standard input failed, so nothing was written; \
            check the input and run it again",
        Status::WriteFault => "writing standard output failed, so the result isn't whole; \
            run it again with another output",
        Status::NoMemory => "out of memory, so nothing was written; \
            run it again with more memory or a smaller input",
        Status::Ok | Status::BadScript | Status::BadLog | Status::TooLong | Status::Limit => "",
    }
}

// Writes one line to standard error: what went wrong, with bad words in quotes, and what to do.
fn explain(rt: &HostRuntime, status: Status, words: &[String]) -> io::Result<()> {
    let advice = advice(status);
    if advice.is_empty() {
        return Ok(());
    }
    eprint!(rt; "c5: ")?;
    if status == Status::BadWords {
        // A word alone that is refused is no command, unless it is an option.
        let what = match words {
            [word] if !word.starts_with('-') => "no such command",
            _ => "bad words",
        };
        eprint!(rt; "{what}")?;
        for word in words {
            eprint!(rt; " {word:?}")?;
        }
        eprint!(rt; "; ")?;
    }
    eprintln!(rt; "{advice}")
}

fn main(rt: HostRuntime) -> ExitCode {
    let alloc = rt.alloc();
    let (status, words) = match words(&rt, alloc) {
        Ok(words) => (run(&rt, &rt, alloc, &words), words),
        Err(error) if error.kind() == ErrorKind::OutOfMemory => {
            (Status::NoMemory, Vec::new(alloc))
        }
        // Words that aren't UTF-8 aren't a command.
        Err(_) => (run(&rt, &rt, alloc, &[]), Vec::new(alloc)),
    };
    // If this fails too, the exit status still reports it.
    let _ = explain(&rt, status, &words);
    ExitCode::from(status.number())
}

fn run<R: Threads + Sync>(rt: &R, host: &HostRuntime, alloc: Global, words: &[String]) -> Status {
    let mut source = StdSource::new(host.stdin());
    let mut sink = StdSink::new(host.stdout());
    c5(rt, alloc, words, &mut source, &mut sink)
}
