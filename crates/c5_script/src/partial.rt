//! A script that is read in part.

ghost use Rattle.std.specs.Prelude.{◌≡◌, Ok, IsTrue, Some, None, if◌then◌else◌};
ghost use Rattle.c5_definitions.specs.ScriptSoFar.{script_start, parts_of, is_closed, is_outside};
ghost use Rattle.c5_definitions.specs.ScriptSoFar.{has_table};
ghost use Rattle.c5_definitions.specs.Statements.{end_line, known_line, after_line, is_log_line};
ghost use Rattle.c5_definitions.specs.Statements.{after_front_line};
ghost use Rattle.c5_script.specs.Partial.{block_of, script_so_far, BlockFits};
ghost use Rattle.c5_script.specs.Words.{held_words};
ghost use Rattle.c5_script.specs.Taking.{StepsTo};

use crate::block::OpenBlock;
use crate::closing::close;
use crate::fault::LineError;
use crate::headings::add_outside;
use crate::inside::add_line;
use crate::script::Script;
use crate::word::Word;
use c5_definitions::ScriptKind;
use std::alloc::Global;
use std::marker::Model;
use std::mem;

/// What has been read of a script so far.
#[derive(Drop)]
pub(crate) struct PartialScript {
    alloc: Global,
    // `None` before the first table.
    script: Option<Script>,
    block: OpenBlock,
}

impl Model for PartialScript {
    ghost use Rattle.c5_definitions.specs.ScriptSoFar.{ScriptSoFar};
    ghost use Rattle.c5_script.specs.Partial.{script_so_far, BlockFits};

    ghost Value = { ScriptSoFar };

    ghost view = { λ p. script_so_far p.script p.block };

    ghost invariant = { λ p. BlockFits p.script p.block };
}

/// Whether a line ended the script.
#[derive(Clone, Copy, PartialEq, Eq)]
pub(crate) enum Taken {
    /// The script goes on after the line.
    More,
    /// The line was the `log` line.
    Log,
}

fn is_outside(block: &OpenBlock) -> bool
    ensures { result ≡ is_outside (block_of block.now) }
{
    matches!(block, OpenBlock::Outside)
}

fn has_table(script: &Option<Script>) -> bool
    ensures { result ≡ has_table (script_so_far script.now OpenBlock.Outside) }
{
    match script {
        Some(script) => !script.schema().tables().is_empty(),
        None => false,
    }
}

#[tactic(auto, unfolding(c5_definitions::specs::Statements::end_line))]
fn add_end(
    script: &mut Option<Script>,
    block: &mut OpenBlock,
    words: &[Word],
) -> Result<(), LineError>
    requires { BlockFits script.old block.old }
    ensures step { StepsTo (λ _. script_so_far script.new block.new) result
        (end_line (block_of block.old) (script_so_far script.old block.old)
        (held_words words.now)) }
    ensures fits { BlockFits script.new block.new }
{
    let open = mem::replace(block, OpenBlock::Outside);
    match script {
        Some(script) => close(script, open, words),
        None => Err(LineError::Fault(ScriptKind::Word)),
    }
}

#[tactic(auto, unfolding(c5_definitions::specs::Statements::known_line))]
fn add_known(
    alloc: Global,
    script: &mut Option<Script>,
    block: &mut OpenBlock,
    first: &[u8],
    words: &[Word],
) -> Result<(), LineError>
    requires { BlockFits script.old block.old }
    ensures step { StepsTo (λ _. script_so_far script.new block.new) result
        (known_line (script_so_far script.old block.old) first.now (held_words words.now)) }
    ensures fits { BlockFits script.new block.new }
{
    if first == b"end".as_slice() {
        return add_end(script, block, words);
    }
    if is_outside(block) {
        return add_outside(alloc, script, block, first, words);
    }
    match script {
        Some(script) => add_line(alloc, script, block, first, words),
        None => Err(LineError::Fault(ScriptKind::Word)),
    }
}

impl PartialScript {
    ghost use Rattle.c5_script.specs.Front.{front_line_of};

    /// Before the first line.
    pub(crate) fn new(alloc: Global) -> Self
        ensures { result ≡ script_start }
    {
        PartialScript {
            alloc,
            script: None,
            block: OpenBlock::Outside,
        }
    }

    /// Takes a line of these words. `Fault` if and only if the line fails a test, with the kind of
    /// the first. What has been read after an `Err` isn't said.
    #[tactic(auto, unfolding(c5_definitions::specs::Statements::after_line))]
    pub(crate) fn take_line(&mut self, words: &[Word]) -> Result<(), LineError>
        ensures { StepsTo (λ _. self.new) result (after_line self.old (held_words words.now)) }
    {
        match words {
            [] => Ok(()),
            [Word::Quoted(_text), ..] => Err(LineError::Fault(ScriptKind::Word)),
            [Word::Bare(first), others @ ..] => {
                add_known(self.alloc, &mut self.script, &mut self.block, first, others)
            }
        }
    }

    fn is_log_line(&self, words: &[Word]) -> bool
        ensures { result ≡ is_log_line self.now (held_words words.now) }
    {
        match words {
            [Word::Bare(first), ..] if *first == b"log".as_slice() => {
                is_outside(&self.block) && has_table(&self.script)
            }
            _ => false,
        }
    }

    /// Takes a line of these words, which may be the `log` line. `Fault` if and only if the line
    /// fails a test, with the kind of the first. What has been read after an `Err` isn't said.
    #[tactic(auto, unfolding(c5_definitions::specs::Statements::after_front_line, c5_definitions::specs::Statements::log_line))]
    pub(crate) fn take_front_line(&mut self, words: &[Word]) -> Result<Taken, LineError>
        ensures step { StepsTo (front_line_of self.new) result
            (after_front_line self.old (held_words words.now)) }
        ensures log { result ≡ Ok Taken.Log → self.new ≡ self.old }
    {
        if self.is_log_line(words) {
            return match words {
                [_] => Ok(Taken::Log),
                _ => Err(LineError::Fault(ScriptKind::Count)),
            };
        }
        self.take_line(words)?;
        Ok(Taken::More)
    }

    /// The script; `None` if and only if a block is open or there is no table.
    #[tactic(auto, unfolding(c5_definitions::specs::ScriptSoFar::is_closed))]
    pub(crate) fn finish(self) -> Option<Script>
        ensures { result ≡ (if is_closed self then Some (parts_of self) else None) }
    {
        let OpenBlock::Outside = self.block else {
            return None;
        };
        let script = self.script?;
        let _schema = script.schema();
        Some(script)
    }
}
