//! The command line as `clap` sees it: one word, and three options that take a number.

ghost use Rattle.std.specs.Prelude.{◌≡◌, false, IfOk};
ghost use Rattle.clap.specs.Words.{IsPlain, IsPlainArg, app_of, rule_of};
ghost use Rattle.c5_words.specs.Program.{program, command_rule, threads_rule, workers_rule};
ghost use Rattle.c5_words.specs.Program.{count_rule};

use c5_rows::{MAX_THREADS, MAX_TRANSACTIONS, MAX_WORKERS, NoMemory};
use clap::{Arg, Command, value_parser};
use std::alloc::Global;

// With a version `clap` knows `--version` and `-V`. The program prints `version_text`.
const VERSION: &str = "0.1.0";

// The word that names a command.
fn command_word<'a>(alloc: Global) -> Arg<'a>
    ensures rule { rule_of result ≡ command_rule }
    ensures global { result.global ≡ false }
    ensures plain { IsPlainArg result }
{
    Arg::new(alloc, "command").required(true)
}

// The option `--threads`.
fn threads_option<'a>(alloc: Global) -> Arg<'a>
    ensures rule { rule_of result ≡ threads_rule }
    ensures global { result.global ≡ false }
    ensures plain { IsPlainArg result }
{
    Arg::new(alloc, "threads")
        .long("threads")
        .value_parser(value_parser!(u64).range(1..=i64::from(MAX_THREADS)))
}

// The option `--workers`.
fn workers_option<'a>(alloc: Global) -> Arg<'a>
    ensures rule { rule_of result ≡ workers_rule }
    ensures global { result.global ≡ false }
    ensures plain { IsPlainArg result }
{
    Arg::new(alloc, "workers")
        .long("workers")
        .value_parser(value_parser!(u64).range(1..=i64::from(MAX_WORKERS)))
}

// The option `--count`.
fn count_option<'a>(alloc: Global) -> Arg<'a>
    ensures rule { rule_of result ≡ count_rule }
    ensures global { result.global ≡ false }
    ensures plain { IsPlainArg result }
{
    Arg::new(alloc, "count")
        .long("count")
        .value_parser(value_parser!(u64).range(1..=MAX_TRANSACTIONS as i64))
}

/// The command line of the program, as `clap` takes it.
pub fn program<'a>(alloc: Global) -> Result<Command<'a>, NoMemory>
    ensures program { IfOk result (λ command. app_of command ≡ program) }
    ensures plain { IfOk result IsPlain }
{
    let command = Command::new(alloc, "c5")
        .no_binary_name(true)
        .version(VERSION)
        .arg(command_word(alloc))?
        .arg(threads_option(alloc))?
        .arg(workers_option(alloc))?
        .arg(count_option(alloc))?;
    Ok(command)
}
