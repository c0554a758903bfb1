//! Lines that close a block.

ghost use Rattle.std.specs.Prelude.{◌≡◌, Some};
ghost use Rattle.c5_definitions.specs.Statements.{end_line};
ghost use Rattle.c5_script.specs.Partial.{block_of, script_so_far, BlockFits};
ghost use Rattle.c5_script.specs.Taking.{StepsTo};
ghost use Rattle.c5_script.specs.Words.{held_words};

use crate::block::OpenBlock;
use crate::blocks::ReadBlock;
use crate::bodies::Body;
use crate::fault::LineError;
use crate::script::Script;
use crate::word::Word;
use c5_definitions::ScriptKind;

#[tactic(auto, unfolding(c5_definitions::specs::Statements::end_line))]
fn close_txn(script: &mut Script, body: Body, words: &[Word]) -> Result<(), LineError>
    requires { BlockFits (Some script.old) (OpenBlock.Txn body) }
    ensures { StepsTo (λ _. script_so_far (Some script.new) OpenBlock.Outside) result
        (end_line (block_of (OpenBlock.Txn body))
        (script_so_far (Some script.old) (OpenBlock.Txn body)) (held_words words.now)) }
{
    if !words.is_empty() {
        return Err(LineError::Fault(ScriptKind::Count));
    }
    script.push_body(body)?;
    Ok(())
}

#[tactic(auto, unfolding(c5_definitions::specs::Statements::end_line))]
fn close_read(script: &mut Script, read: ReadBlock, words: &[Word]) -> Result<(), LineError>
    requires { BlockFits (Some script.old) (OpenBlock.Read read) }
    ensures { StepsTo (λ _. script_so_far (Some script.new) OpenBlock.Outside) result
        (end_line (block_of (OpenBlock.Read read))
        (script_so_far (Some script.old) (OpenBlock.Read read)) (held_words words.now)) }
{
    if !words.is_empty() {
        return Err(LineError::Fault(ScriptKind::Count));
    }
    script.push_read(read)?;
    Ok(())
}

/// Closes the block.
#[tactic(auto, unfolding(c5_definitions::specs::Statements::end_line))]
pub(crate) fn close(script: &mut Script, block: OpenBlock, words: &[Word]) -> Result<(), LineError>
    requires { BlockFits (Some script.old) block }
    ensures { StepsTo (λ _. script_so_far (Some script.new) OpenBlock.Outside) result
        (end_line (block_of block) (script_so_far (Some script.old) block) (held_words words.now)) }
{
    match block {
        OpenBlock::Outside => Err(LineError::Fault(ScriptKind::Word)),
        OpenBlock::Txn(body) => close_txn(script, body, words),
        OpenBlock::Opened(_session) => Err(LineError::Fault(ScriptKind::Limit)),
        OpenBlock::Read(read) => close_read(script, read, words),
    }
}
