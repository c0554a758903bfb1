//! The statements of a transaction. Each is added to the body by the function that reads it: a
//! statement has more than 300 bytes, and each function that handed it on would copy it.

ghost use Rattle.std.specs.Prelude.{◌≡◌, ◌≤◌, ◌<◌, ◌∷◌, [], length, OnErr};
ghost use Rattle.c5_rows.specs.Sizes.{max_tables, max_statements};
ghost use Rattle.c5_definitions.specs.FitsScript.{BodyFits};
ghost use Rattle.c5_definitions.specs.ScriptSoFar.{in_txn};
ghost use Rattle.c5_definitions.specs.Statements.{put_statement, put_words, del_words, need_words};
ghost use Rattle.c5_definitions.specs.Statements.{add_words, copy_words, form_of, statement_words};
ghost use Rattle.c5_definitions.specs.Statements.{statement_line};
ghost use Rattle.c5_script.specs.Forms.{form_held};
ghost use Rattle.c5_script.specs.Partial.{with_statement};
ghost use Rattle.c5_script.specs.Taking.{StepsTo};
ghost use Rattle.c5_definitions.specs.Steps.{Gives};
ghost use Rattle.c5_script.specs.Words.{held_word, held_words};

use crate::bodies::Body;
use crate::fault::LineError;
use crate::lists::read_row;
use crate::places::{columns, int_column, key, number, rel, row_name};
use crate::word::Word;
use c5_definitions::{ScriptKind, Statement};
use c5_rows::{Cell, MAX_STATEMENTS, Row, RowName, TableDef};

/// How many statements a transaction has at most.

#[tactic(auto, unfolding(c5_definitions::specs::Statements::put_statement))]
#[inline(never)]
fn put_of(
    body: &mut Body,
    tables: &[TableDef],
    table: Word,
    key: Word,
    cells: &[Word],
) -> Result<(), LineError>
    requires tables { length tables.now ≤ max_tables }
    requires room { length body.old < max_statements }
    requires some { 1 ≤ length cells.now }
    ensures step { StepsTo (λ _. in_txn body.new) result
        (with_statement body.old
        (put_statement tables.now (held_word table.entry) (held_word key.entry)
        (held_words cells.now))) }
    ensures err { OnErr result (body.new ≡ body.old) }
{
    let name = row_name(tables, table, key)?;
    let mut row = Row::one(Cell::Int(0));
    read_row(&mut row, columns(tables, name.table), cells)?;
    body.push(Statement::Put { name, row })?;
    Ok(())
}

#[tactic(auto, unfolding(c5_definitions::specs::Statements::put_words))]
fn put(body: &mut Body, tables: &[TableDef], words: &[Word]) -> Result<(), LineError>
    requires tables { length tables.now ≤ max_tables }
    requires room { length body.old < max_statements }
    ensures step { StepsTo (λ _. in_txn body.new) result
        (with_statement body.old (put_words tables.now (held_words words.now))) }
    ensures err { OnErr result (body.new ≡ body.old) }
{
    match words {
        [] | [_] | [_, _] => Err(LineError::Fault(ScriptKind::Count)),
        [table, key, cells @ ..] => put_of(body, tables, *table, *key, cells),
    }
}

#[tactic(auto, unfolding(c5_definitions::specs::Statements::del_words))]
#[inline(never)]
fn del(body: &mut Body, tables: &[TableDef], words: &[Word]) -> Result<(), LineError>
    requires tables { length tables.now ≤ max_tables }
    requires room { length body.old < max_statements }
    ensures step { StepsTo (λ _. in_txn body.new) result
        (with_statement body.old (del_words tables.now (held_words words.now))) }
    ensures err { OnErr result (body.new ≡ body.old) }
{
    let [table, key] = words else {
        return Err(LineError::Fault(ScriptKind::Count));
    };
    let name = row_name(tables, *table, *key)?;
    body.push(Statement::Del { name })?;
    Ok(())
}

#[tactic(auto, unfolding(c5_definitions::specs::Statements::need_words))]
#[inline(never)]
fn need_of(
    body: &mut Body,
    tables: &[TableDef],
    table: Word,
    key: Word,
    column: Word,
    relation: Word,
    limit: Word,
) -> Result<(), LineError>
    requires tables { length tables.now ≤ max_tables }
    requires room { length body.old < max_statements }
    ensures step { StepsTo (λ _. in_txn body.new) result
        (with_statement body.old
        (need_words tables.now (held_word table.entry ∷ held_word key.entry ∷ held_word column.entry
        ∷ held_word relation.entry ∷ held_word limit.entry ∷ []))) }
    ensures err { OnErr result (body.new ≡ body.old) }
{
    let name = row_name(tables, table, key)?;
    let col = int_column(columns(tables, name.table), column)?;
    let rel = rel(relation)?;
    let n = number(limit)?;
    body.push(Statement::Need { name, col, rel, n })?;
    Ok(())
}

#[tactic(auto, unfolding(c5_definitions::specs::Statements::need_words))]
fn need(body: &mut Body, tables: &[TableDef], words: &[Word]) -> Result<(), LineError>
    requires tables { length tables.now ≤ max_tables }
    requires room { length body.old < max_statements }
    ensures step { StepsTo (λ _. in_txn body.new) result
        (with_statement body.old (need_words tables.now (held_words words.now))) }
    ensures err { OnErr result (body.new ≡ body.old) }
{
    match words {
        [table, key, column, relation, limit] => {
            need_of(body, tables, *table, *key, *column, *relation, *limit)
        }
        _ => Err(LineError::Fault(ScriptKind::Count)),
    }
}

#[tactic(auto, unfolding(c5_definitions::specs::Statements::add_words))]
#[inline(never)]
fn add_of(
    body: &mut Body,
    tables: &[TableDef],
    table: Word,
    key: Word,
    column: Word,
    amount: Word,
) -> Result<(), LineError>
    requires tables { length tables.now ≤ max_tables }
    requires room { length body.old < max_statements }
    ensures step { StepsTo (λ _. in_txn body.new) result
        (with_statement body.old
        (add_words tables.now (held_word table.entry ∷ held_word key.entry ∷ held_word column.entry
        ∷ held_word amount.entry ∷ []))) }
    ensures err { OnErr result (body.new ≡ body.old) }
{
    let name = row_name(tables, table, key)?;
    let col = int_column(columns(tables, name.table), column)?;
    let n = number(amount)?;
    body.push(Statement::Add { name, col, n })?;
    Ok(())
}

#[tactic(auto, unfolding(c5_definitions::specs::Statements::add_words))]
fn add(body: &mut Body, tables: &[TableDef], words: &[Word]) -> Result<(), LineError>
    requires tables { length tables.now ≤ max_tables }
    requires room { length body.old < max_statements }
    ensures step { StepsTo (λ _. in_txn body.new) result
        (with_statement body.old (add_words tables.now (held_words words.now))) }
    ensures err { OnErr result (body.new ≡ body.old) }
{
    match words {
        [table, key, column, amount] => add_of(body, tables, *table, *key, *column, *amount),
        _ => Err(LineError::Fault(ScriptKind::Count)),
    }
}

#[tactic(auto, unfolding(c5_definitions::specs::Statements::copy_words))]
#[inline(never)]
fn copy_of(
    body: &mut Body,
    tables: &[TableDef],
    table: Word,
    from: Word,
    to: Word,
) -> Result<(), LineError>
    requires tables { length tables.now ≤ max_tables }
    requires room { length body.old < max_statements }
    ensures step { StepsTo (λ _. in_txn body.new) result
        (with_statement body.old
        (copy_words tables.now (held_word table.entry ∷ held_word from.entry ∷ held_word to.entry
        ∷ []))) }
    ensures err { OnErr result (body.new ≡ body.old) }
{
    let from = row_name(tables, table, from)?;
    let key = key(to)?;
    let to = RowName {
        table: from.table,
        key,
    };
    body.push(Statement::Copy { from, to })?;
    Ok(())
}

#[tactic(auto, unfolding(c5_definitions::specs::Statements::copy_words))]
fn copy(body: &mut Body, tables: &[TableDef], words: &[Word]) -> Result<(), LineError>
    requires tables { length tables.now ≤ max_tables }
    requires room { length body.old < max_statements }
    ensures step { StepsTo (λ _. in_txn body.new) result
        (with_statement body.old (copy_words tables.now (held_words words.now))) }
    ensures err { OnErr result (body.new ≡ body.old) }
{
    match words {
        [table, from, to] => copy_of(body, tables, *table, *from, *to),
        _ => Err(LineError::Fault(ScriptKind::Count)),
    }
}

// Which statement a line is.
#[derive(Clone, Copy)]
enum Form {
    Put,
    Del,
    Need,
    Add,
    Copy,
}

#[tactic(auto, unfolding(c5_definitions::specs::Statements::form_of))]
fn form_of(first: &[u8]) -> Result<Form, ScriptKind>
    ensures { Gives form_held result (form_of first.now) }
{
    if first == b"put".as_slice() {
        Ok(Form::Put)
    } else if first == b"del".as_slice() {
        Ok(Form::Del)
    } else if first == b"need".as_slice() {
        Ok(Form::Need)
    } else if first == b"add".as_slice() {
        Ok(Form::Add)
    } else if first == b"copy".as_slice() {
        Ok(Form::Copy)
    } else {
        Err(ScriptKind::Word)
    }
}

#[tactic(auto, unfolding(c5_definitions::specs::Statements::statement_words))]
fn statement_of(
    body: &mut Body,
    tables: &[TableDef],
    form: Form,
    words: &[Word],
) -> Result<(), LineError>
    requires tables { length tables.now ≤ max_tables }
    requires room { length body.old < max_statements }
    ensures step { StepsTo (λ _. in_txn body.new) result
        (with_statement body.old
        (statement_words (form_held form) tables.now (held_words words.now))) }
    ensures err { OnErr result (body.new ≡ body.old) }
{
    match form {
        Form::Put => put(body, tables, words),
        Form::Del => del(body, tables, words),
        Form::Need => need(body, tables, words),
        Form::Add => add(body, tables, words),
        Form::Copy => copy(body, tables, words),
    }
}

/// Adds the statement of a line to the body.
#[tactic(auto, unfolding(c5_definitions::specs::Statements::statement_line))]
pub(crate) fn add_statement(
    body: &mut Body,
    tables: &[TableDef],
    first: &[u8],
    words: &[Word],
) -> Result<(), LineError>
    requires tables { length tables.now ≤ max_tables }
    requires fits { BodyFits tables.now body.old }
    ensures step { StepsTo (λ _. in_txn body.new) result
        (with_statement body.old
        (statement_line tables.now (length body.old) first.now (held_words words.now))) }
    ensures fits { BodyFits tables.now body.new }
{
    let form = form_of(first)?;
    if body.statements().len() >= MAX_STATEMENTS {
        return Err(LineError::Fault(ScriptKind::Limit));
    }
    statement_of(body, tables, form, words)
}
