//! The request that a list of words is.

ghost use Rattle.std.specs.Prelude.{◌≡◌, ◌≤◌, ⊤, Err, map, codes, string_bytes, IfOk, IfSome};
ghost use Rattle.clap.specs.Words.{found_of, one_text, rows_of};
ghost use Rattle.clap.specs.Values.{IsUnsignedIn};
ghost use Rattle.c5_rows.specs.Sizes.{max_threads, max_workers};
ghost use Rattle.c5_words.specs.Program.{max_count};
ghost use Rattle.c5_words.specs.Meaning.{Answers, AreOptions, IsWithin, meaning_of, option_number};
ghost use Rattle.c5_words.specs.Meaning.{request_for, request_in, run_of};

use crate::command::command_in;
use crate::options::{DEFAULT_COUNT, Options};
use crate::program::program;
use crate::request::{Request, WordsFault};
use clap::ArgMatches;
use clap::error::ErrorKind;
use std::alloc::Global;

// The number of the option of this name, `default` if it isn't given.
fn number_given(matches: &ArgMatches<'_>, name: &str, default: u32) -> u32
    requires { IfSome (one_text (found_of matches.now) name.now) (IsUnsignedIn 1 max_count) }
    ensures { result ≡ option_number name.now default (rows_of (found_of matches.now)) }
{
    matches.get_one::<u32>(name).unwrap_or(default)
}

// The run that a word asks for; `None` if it names no command.
fn request_in(options: Options, word: &str) -> Option<Request>
    requires { AreOptions options }
    ensures meaning { result ≡ request_in options word.now }
    ensures within { IfSome result IsWithin }
{
    if word == "gen" {
        return Some(Request::Generate { options });
    }
    match command_in(word) {
        Some(command) => Some(Request::Run { command, options }),
        None => None,
    }
}

// The run that words ask for, if `clap` accepts them.
fn run_of(matches: &ArgMatches<'_>) -> Result<Request, WordsFault>
    requires threads { IfSome (one_text (found_of matches.now) (codes "threads"))
        (IsUnsignedIn 1 max_threads) }
    requires workers { IfSome (one_text (found_of matches.now) (codes "workers"))
        (IsUnsignedIn 1 max_workers) }
    requires count { IfSome (one_text (found_of matches.now) (codes "count"))
        (IsUnsignedIn 1 max_count) }
    ensures meaning { Answers (run_of (rows_of (found_of matches.now))) result }
    ensures within { IfOk result IsWithin }
{
    let options = Options {
        threads: number_given(matches, "threads", 1),
        workers: number_given(matches, "workers", 1),
        count: number_given(matches, "count", DEFAULT_COUNT),
    };
    match matches.get_str("command") {
        Some(word) => match request_in(options, word) {
            Some(request) => Ok(request),
            None => Err(WordsFault::Refused),
        },
        None => Err(WordsFault::Refused),
    }
}

// The request of words that `clap` answers with an error of this kind.
fn request_for(kind: ErrorKind) -> Result<Request, WordsFault>
    ensures meaning { Answers (request_for kind) result }
    ensures memory { kind ≡ ErrorKind.OutOfMemory → result ≡ Err WordsFault.NoMemory }
    ensures within { IfOk result IsWithin }
{
    match kind {
        ErrorKind::DisplayHelp => Ok(Request::Help),
        ErrorKind::DisplayVersion => Ok(Request::Version),
        ErrorKind::OutOfMemory => Err(WordsFault::NoMemory),
        _ => Err(WordsFault::Refused),
    }
}

/// The request that these words are, without the program's name. `NoMemory` may come for any words;
/// any other answer is exactly what the words mean, and `Refused` says that they aren't one.
pub fn request_of(alloc: Global, words: &[String]) -> Result<Request, WordsFault>
    ensures meaning { Answers (meaning_of (map string_bytes words.now)) result }
    ensures within { IfOk result IsWithin }
{
    let program = match program(alloc) {
        Ok(program) => program,
        Err(_) => return Err(WordsFault::NoMemory),
    };
    match program.try_get_matches_from(words) {
        Ok(matches) => run_of(&matches),
        Err(error) => request_for(error.kind()),
    }
}
