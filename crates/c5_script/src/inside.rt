//! Lines of the open block.

ghost use Rattle.std.specs.Prelude.{Some, [], IfOk};
ghost use Rattle.c5_definitions.specs.FitsScript.{BodyFits};
ghost use Rattle.c5_definitions.specs.ScriptSoFar.{in_txn, in_read};
ghost use Rattle.c5_definitions.specs.Statements.{inside_line};
ghost use Rattle.c5_script.specs.Partial.{block_of, BlockFits, FitsAsRead};
ghost use Rattle.c5_script.specs.Taking.{StepsTo};
ghost use Rattle.c5_script.specs.Words.{held_words};

use crate::block::OpenBlock;
use crate::blocks::ReadBlock;
use crate::bodies::Body;
use crate::fault::LineError;
use crate::questions::question;
use crate::script::Script;
use crate::statements::add_statement;
use crate::word::Word;
use c5_definitions::ScriptKind;
use std::alloc::Global;

#[tactic(auto, unfolding(c5_definitions::specs::Statements::inside_line))]
fn next_statement(
    script: &Script,
    body: &mut Body,
    first: &[u8],
    words: &[Word],
) -> Result<(), LineError>
    requires { BodyFits script.now.tables body.old }
    ensures step { StepsTo (λ _. in_txn body.new) result
        (inside_line (in_txn body.old) script.now.tables first.now (held_words words.now)) }
    ensures fits { BodyFits script.now.tables body.new }
{
    add_statement(body, script.schema().tables(), first, words)
}

#[tactic(auto, unfolding(c5_definitions::specs::Statements::inside_line))]
fn first_question(
    alloc: Global,
    script: &Script,
    session: u32,
    first: &[u8],
    words: &[Word],
) -> Result<ReadBlock, LineError>
    requires { FitsAsRead script.now session [] }
    ensures step { StepsTo (λ read. in_read read.session read.lines) result
        (inside_line (in_read session []) script.now.tables first.now (held_words words.now)) }
    ensures fits { IfOk result (λ read. FitsAsRead script.now read.session read.lines) }
{
    let line = question(script.schema().tables(), 0, first, words)?;
    let read = ReadBlock::new(alloc, session, line)?;
    Ok(read)
}

#[tactic(auto, unfolding(c5_definitions::specs::Statements::inside_line))]
fn next_question(
    script: &Script,
    read: &mut ReadBlock,
    first: &[u8],
    words: &[Word],
) -> Result<(), LineError>
    requires { FitsAsRead script.now read.old.session read.old.lines }
    ensures step { StepsTo (λ _. in_read read.new.session read.new.lines) result
        (inside_line (in_read read.old.session read.old.lines) script.now.tables first.now
        (held_words words.now)) }
    ensures fits { FitsAsRead script.now read.new.session read.new.lines }
{
    let count = read.lines().len();
    let line = question(script.schema().tables(), count, first, words)?;
    read.push(line)?;
    Ok(())
}

/// Takes a line of the open block that doesn't close it.
#[tactic(auto, unfolding(c5_definitions::specs::Statements::inside_line))]
pub(crate) fn add_line(
    alloc: Global,
    script: &Script,
    block: &mut OpenBlock,
    first: &[u8],
    words: &[Word],
) -> Result<(), LineError>
    requires { BlockFits (Some script.now) block.old }
    ensures step { StepsTo (λ _. block_of block.new) result
        (inside_line (block_of block.old) script.now.tables first.now (held_words words.now)) }
    ensures fits { BlockFits (Some script.now) block.new }
{
    match block {
        OpenBlock::Outside => Err(LineError::Fault(ScriptKind::Word)),
        OpenBlock::Txn(body) => next_statement(script, body, first, words),
        OpenBlock::Opened(session) => {
            let read = first_question(alloc, script, *session, first, words)?;
            *block = OpenBlock::Read(read);
            Ok(())
        }
        OpenBlock::Read(read) => next_question(script, read, first, words),
    }
}
