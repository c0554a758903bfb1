//! The commands, and their names.

ghost use Rattle.std.specs.Prelude.{◌≡◌};
ghost use Rattle.c5_words.specs.Names.{command_in};

/// What the program is asked to do with an input.
#[derive(Clone, Copy)]
pub enum Command {
    /// Prints the rows after a whole log.
    Apply,
    /// Runs a script's transactions, and writes their log.
    Primary,
    /// Replays a log on a backup, and answers the reads of a script.
    Backup,
    /// Runs a script on a primary and replays its log on a backup, with threads.
    Clone,
    /// Runs a script in order and replays its log step by step, in the order of its schedule.
    Turns,
}

/// The command of this name; `None` if the word names none.
pub fn command_in(word: &str) -> Option<Command>
    ensures { result ≡ command_in word.now }
{
    if word == "apply" {
        return Some(Command::Apply);
    }
    if word == "primary" {
        return Some(Command::Primary);
    }
    if word == "backup" {
        return Some(Command::Backup);
    }
    if word == "clone" {
        return Some(Command::Clone);
    }
    if word == "turns" {
        return Some(Command::Turns);
    }
    None
}
