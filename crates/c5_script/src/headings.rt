//! Lines outside blocks.

ghost use Rattle.std.specs.Prelude.{◌+◌, ◌≡◌, ◌≤◌, ◌<◌, ◌++◌, ◌∷◌, [], None, Some, IsTrue, length};
ghost use Rattle.std.specs.Prelude.{IfOk, OnOk};
ghost use Rattle.c5_rows.specs.Sizes.{max_columns, max_tables, max_sessions, max_reads};
ghost use Rattle.c5_rows.specs.Sizes.{max_statements, max_turn_words};
ghost use Rattle.c5_rows.specs.Tables.{table_number};
ghost use Rattle.c5_definitions.specs.ScriptSoFar.{in_txn, in_read, is_heading};
ghost use Rattle.c5_definitions.specs.Places.{turn_in, each_in};
ghost use Rattle.c5_definitions.specs.Statements.{new_table, table_words, table_line, heading_line};
ghost use Rattle.c5_definitions.specs.Statements.{outside_line, txn_words, read_words, read_line};
ghost use Rattle.c5_definitions.specs.Statements.{turns_words, turns_line, later_line};
ghost use Rattle.c5_script.specs.Partial.{script_so_far, with_turns, BlockFits};
ghost use Rattle.c5_script.specs.Taking.{StepsTo};
ghost use Rattle.c5_definitions.specs.Steps.{Gives};
ghost use Rattle.c5_script.specs.Words.{held_word, held_words};

use crate::block::OpenBlock;
use crate::bodies::Body;
use crate::fault::LineError;
use crate::lists::column_types;
use crate::places::{new_name, session, turn};
use crate::script::Script;
use crate::word::Word;
use c5_definitions::ScriptKind;
use c5_rows::{MAX_COLUMNS, MAX_READS, MAX_TABLES, MAX_TURN_WORDS, Schema, TableDef};
use std::alloc::Global;

/// The most words of a table's line after its first one: the name and the types.
const MAX_TABLE_WORDS: usize = 1 + MAX_COLUMNS;

#[tactic(auto, unfolding(c5_definitions::specs::Statements::new_table))]
fn table_of(tables: &[TableDef], word: Word, types: &[Word]) -> Result<TableDef, ScriptKind>
    requires tables { length tables.now ≤ max_tables }
    requires some { 1 ≤ length types.now }
    requires few { length types.now ≤ max_columns }
    ensures value { result ≡ new_table tables.now (held_word word.entry) (held_words types.now) }
    ensures new { IfOk result (λ table. table_number table.name tables.now ≡ None) }
{
    let name = new_name(tables, word)?;
    let columns = column_types(types)?;
    Ok(TableDef { name, columns })
}

#[tactic(auto, unfolding(c5_definitions::specs::Statements::table_words))]
fn table_in(tables: &[TableDef], words: &[Word]) -> Result<TableDef, ScriptKind>
    requires tables { length tables.now ≤ max_tables }
    requires few { length words.now ≤ 1 + max_columns }
    ensures value { result ≡ table_words tables.now (held_words words.now) }
    ensures new { IfOk result (λ table. table_number table.name tables.now ≡ None) }
{
    match words {
        [] | [_] => Err(ScriptKind::Count),
        [name, types @ ..] => table_of(tables, *name, types),
    }
}

/// The table of a line, which is added to these.
#[tactic(auto, unfolding(c5_definitions::specs::Statements::table_line))]
pub(crate) fn new_table(tables: &[TableDef], words: &[Word]) -> Result<TableDef, ScriptKind>
    requires { length tables.now ≤ max_tables }
    ensures value { result ≡ table_line tables.now (held_words words.now) }
    ensures new { IfOk result (λ table. table_number table.name tables.now ≡ None) }
    ensures room { OnOk result (length tables.now < max_tables) }
{
    if tables.len() >= MAX_TABLES || words.len() > MAX_TABLE_WORDS {
        return Err(ScriptKind::Limit);
    }
    table_in(tables, words)
}

// Whether a line may open a transaction.
#[tactic(auto, unfolding(c5_definitions::specs::Statements::txn_words))]
fn check_txn(words: &[Word]) -> Result<(), ScriptKind>
    ensures { Gives (λ _. in_txn []) result (txn_words (held_words words.now)) }
{
    match words {
        [] => Ok(()),
        _ => Err(ScriptKind::Count),
    }
}

#[tactic(auto, unfolding(c5_definitions::specs::Statements::read_words))]
fn read_of(words: &[Word]) -> Result<u32, ScriptKind>
    ensures read { Gives (λ session. in_read session []) result
        (read_words (held_words words.now)) }
    ensures session { IfOk result (λ session. (1 ≤ session) × (session ≤ max_sessions)) }
{
    match words {
        [word] => session(*word),
        _ => Err(ScriptKind::Count),
    }
}

/// The session of a read block that a line opens after `count` others.
#[tactic(auto, unfolding(c5_definitions::specs::Statements::read_line))]
pub(crate) fn new_read(count: usize, words: &[Word]) -> Result<u32, ScriptKind>
    ensures read { Gives (λ session. in_read session []) result
        (read_line count (held_words words.now)) }
    ensures session { IfOk result (λ session. (1 ≤ session) × (session ≤ max_sessions)) }
    ensures room { OnOk result (count < max_reads) }
{
    if count >= MAX_READS {
        return Err(ScriptKind::Limit);
    }
    read_of(words)
}

fn push_turns(script: &mut Script, words: &[Word]) -> Result<(), LineError>
    requires room { length script.old.turns + length words.now ≤ max_turn_words }
    ensures { StepsTo (λ _. script.new) result
        (with_turns script.old (each_in turn_in (held_words words.now))) }
{
    for word in words {
        let turn = turn(*word)?;
        script.push_turn(turn)?;
    }
    Ok(())
}

#[tactic(auto, unfolding(c5_definitions::specs::Statements::turns_words))]
fn turns_in(script: &mut Script, words: &[Word]) -> Result<(), LineError>
    requires room { length script.old.turns + length words.now ≤ max_turn_words }
    ensures { StepsTo (λ _. script.new) result
        (with_turns script.old (turns_words (held_words words.now))) }
{
    match words {
        [] => Err(LineError::Fault(ScriptKind::Count)),
        [_, ..] => push_turns(script, words),
    }
}

/// Adds the words of a line to the schedule.
#[tactic(auto, unfolding(c5_definitions::specs::Statements::turns_line))]
pub(crate) fn add_turns(script: &mut Script, words: &[Word]) -> Result<(), LineError>
    ensures { StepsTo (λ _. script.new) result
        (with_turns script.old (turns_line (length script.old.turns) (held_words words.now))) }
{
    if script.turns().len() + words.len() > MAX_TURN_WORDS {
        return Err(LineError::Fault(ScriptKind::Limit));
    }
    turns_in(script, words)
}

// How many statements the transaction before has: a guess for the next one, which then has its
// memory at once.
fn statements_before(script: &Script) -> usize
    ensures { result ≤ max_statements }
{
    match script.bodies().last() {
        Some(body) => body.statements().len(),
        None => 0,
    }
}

/// Takes a line outside blocks, once there is a table.
#[tactic(auto, unfolding(c5_definitions::specs::Statements::later_line))]
pub(crate) fn add_standing(
    alloc: Global,
    script: &mut Script,
    block: &mut OpenBlock,
    first: &[u8],
    words: &[Word],
) -> Result<(), LineError>
    requires { block.old ≡ OpenBlock.Outside }
    ensures step { StepsTo (λ _. script_so_far (Some script.new) block.new) result
        (later_line (script_so_far (Some script.old) block.old) first.now
        (held_words words.now)) }
    ensures fits { BlockFits (Some script.new) block.new }
{
    if first == b"txn".as_slice() {
        check_txn(words)?;
        let body = Body::with_capacity(alloc, statements_before(script))?;
        *block = OpenBlock::Txn(body);
        Ok(())
    } else if first == b"read".as_slice() {
        let session = new_read(script.reads().len(), words)?;
        *block = OpenBlock::Opened(session);
        Ok(())
    } else if first == b"turns".as_slice() {
        add_turns(script, words)
    } else {
        Err(LineError::Fault(ScriptKind::Word))
    }
}

// The tables so far.
fn tables_of(script: &Option<Script>) -> &[TableDef]
    ensures value { result.now ≡ (script_so_far script.now OpenBlock.Outside).tables }
    ensures few { length result.now ≤ max_tables }
{
    match script {
        Some(script) => script.schema().tables(),
        None => &[],
    }
}

// Whether no transaction, read block or schedule was accepted.
fn is_heading(script: &Option<Script>) -> bool
    ensures { result ≡ is_heading (script_so_far script.now OpenBlock.Outside) }
{
    match script {
        Some(script) => {
            script.bodies().is_empty() && script.reads().is_empty() && script.turns().is_empty()
        }
        None => true,
    }
}

// Adds a table.
fn push_table(alloc: Global, script: &mut Option<Script>, table: TableDef)
    requires heading { IsTrue (is_heading (script_so_far script.old OpenBlock.Outside)) }
    requires room { length (script_so_far script.old OpenBlock.Outside).tables < max_tables }
    requires new { table_number table.name (script_so_far script.old OpenBlock.Outside).tables
        ≡ None }
    ensures { script_so_far script.new OpenBlock.Outside
        ≡ record (script_so_far script.old OpenBlock.Outside)
        { tables = (script_so_far script.old OpenBlock.Outside).tables ++ table ∷ [] } }
{
    match script {
        Some(script) => script.push_table(table),
        None => *script = Some(Script::new(alloc, Schema::one(table))),
    }
}

#[tactic(auto, unfolding(c5_definitions::specs::Statements::heading_line))]
fn add_table(alloc: Global, script: &mut Option<Script>, words: &[Word]) -> Result<(), LineError>
    requires { IsTrue (is_heading (script_so_far script.old OpenBlock.Outside)) }
    ensures { StepsTo (λ _. script_so_far script.new OpenBlock.Outside) result
        (heading_line (script_so_far script.old OpenBlock.Outside) (held_words words.now)) }
{
    let table = new_table(tables_of(script), words)?;
    push_table(alloc, script, table);
    Ok(())
}

/// Takes a line outside blocks.
#[tactic(auto, unfolding(c5_definitions::specs::Statements::outside_line))]
pub(crate) fn add_outside(
    alloc: Global,
    script: &mut Option<Script>,
    block: &mut OpenBlock,
    first: &[u8],
    words: &[Word],
) -> Result<(), LineError>
    requires { block.old ≡ OpenBlock.Outside }
    ensures step { StepsTo (λ _. script_so_far script.new block.new) result
        (outside_line (script_so_far script.old OpenBlock.Outside) first.now
        (held_words words.now)) }
    ensures fits { BlockFits script.new block.new }
{
    if first == b"table".as_slice() && is_heading(script) {
        return add_table(alloc, script, words);
    }
    match script {
        Some(script) => {
            let _schema = script.schema();
            add_standing(alloc, script, block, first, words)
        }
        None => Err(LineError::Fault(ScriptKind::Word)),
    }
}
