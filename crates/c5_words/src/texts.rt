//! The texts that the program prints of itself.

ghost use Rattle.std.specs.Prelude.{◌≡◌};
ghost use Rattle.c5_words.specs.Texts.{help_text, version_text};

// What `--help` prints.
static HELP: &str = "\
Replays the log of a database's primary on a backup.

usage: c5 COMMAND [OPTIONS] < INPUT

commands:
  apply      reads a log; prints the rows after it
  primary    reads a script; writes the log of its transactions
  backup     reads a script, a line `log`, a log; prints the replies, then the rows
  clone      reads a script; prints the order of its run, the replies, the rows
  turns      the same, each step in the order of the script's schedule
  gen        reads nothing; runs and replays a script that it makes; prints its totals

options:
  --threads N    threads of a run, 1 to 16, default 1 (primary, clone)
  --workers N    workers of a replay, 1 to 16, default 1 (backup, clone, turns, gen)
  --count N      transactions to make, 1 to 65536, default 1000 (gen)
  -h, --help     prints this text, and reads nothing
  -V, --version  prints the version, and reads nothing

An option may be before or after the command, as --threads 4 or --threads=4, and is
given at most once. A value out of its range is refused, also if the command doesn't
use the option.

exit status:
  0  success
  2  bad words
  3  bad script: line L KIND
  4  bad log: at OFFSET KIND
  5  a read failed
  6  a write failed
  7  out of memory
  8  the input is too long
  9  a limit is exceeded

examples:
  c5 apply < examples/transfers.log
  c5 clone --threads 4 --workers 4 < examples/transfers.c5s
";

// What `--version` prints.
static VERSION: &str = "c5 0.1.0\n";

/// The text that `--help` prints: the commands, the options, the exit statuses and two examples.
#[tactic(auto, unfolding(crate::specs::Texts::help_text))]
pub fn help_text() -> &'static str
    ensures { result.now ≡ help_text }
{
    HELP
}

/// The text that `--version` prints: one line, the program's name and its version.
#[tactic(auto, unfolding(crate::specs::Texts::version_text))]
pub fn version_text() -> &'static str
    ensures { result.now ≡ version_text }
{
    VERSION
}
