//! The test of a word by its place on the line.

ghost use Rattle.std.specs.Prelude.{◌≡◌, ◌≤◌, None, length, IfOk};
ghost use Rattle.c5_definitions.specs.FitsScript.{IsTurn};
ghost use Rattle.c5_rows.specs.Sizes.{max_columns, max_tables, max_sessions, max_workers};
ghost use Rattle.c5_definitions.specs.Numerals.{turn_number_of};
ghost use Rattle.c5_rows.specs.Tables.{IsSchema, table_number};
ghost use Rattle.c5_definitions.specs.Places.{new_name_in, type_in, table_in, key_in, row_name_in};
ghost use Rattle.c5_definitions.specs.Places.{int_in, cell_in, found_or, columns_of, column_in};
ghost use Rattle.c5_definitions.specs.Places.{rel_in, session_in, turn_in, int_column_of};
ghost use Rattle.c5_script.specs.Words.{held_word};

use crate::numerals::{number_of, turn_number_of};
use crate::word::Word;
use c5_definitions::{Rel, ScriptKind, TurnWord};
use c5_rows::{
    Cell, CellType, Key, MAX_SESSIONS, RowName, TableDef, TableName, TextCell, find_table,
};

/// The name of a new table.
#[tactic(auto, unfolding(c5_definitions::specs::Places::new_name_in))]
pub(crate) fn new_name(tables: &[TableDef], word: Word) -> Result<TableName, ScriptKind>
    requires { length tables.now ≤ max_tables }
    ensures value { result ≡ new_name_in tables.now (held_word word.entry) }
    ensures new { IfOk result (λ name. table_number name tables.now ≡ None) }
{
    let Word::Bare(bytes) = word else {
        return Err(ScriptKind::Name);
    };
    let Ok(name) = TableName::new(bytes) else {
        return Err(ScriptKind::Name);
    };
    match find_table(tables, name.bytes()) {
        Some(_) => Err(ScriptKind::Name),
        None => Ok(name),
    }
}

/// The type of a column.
#[tactic(auto, unfolding(c5_definitions::specs::Places::type_in))]
pub(crate) fn column_type(word: Word) -> Result<CellType, ScriptKind>
    ensures { result ≡ type_in (held_word word.entry) }
{
    let Word::Bare(bytes) = word else {
        return Err(ScriptKind::WrongType);
    };
    if bytes == b"int".as_slice() {
        Ok(CellType::Int)
    } else if bytes == b"text".as_slice() {
        Ok(CellType::Text)
    } else {
        Err(ScriptKind::WrongType)
    }
}

/// The number of the table that the word names.
#[tactic(auto, unfolding(c5_definitions::specs::Places::table_in))]
pub(crate) fn table(tables: &[TableDef], word: Word) -> Result<u8, ScriptKind>
    requires { length tables.now ≤ max_tables }
    ensures { result ≡ table_in tables.now (held_word word.entry) }
{
    let Word::Bare(name) = word else {
        return Err(ScriptKind::Table);
    };
    match find_table(tables, name) {
        Some(number) => Ok(number),
        None => Err(ScriptKind::Table),
    }
}

/// The key of a row.
#[tactic(auto, unfolding(c5_definitions::specs::Places::key_in))]
pub(crate) fn key(word: Word) -> Result<Key, ScriptKind>
    ensures { result ≡ key_in (held_word word.entry) }
{
    let Word::Bare(bytes) = word else {
        return Err(ScriptKind::Key);
    };
    match Key::new(bytes) {
        Ok(key) => Ok(key),
        Err(_) => Err(ScriptKind::Key),
    }
}

/// The name of a row.
#[tactic(auto, unfolding(c5_definitions::specs::Places::row_name_in))]
pub(crate) fn row_name(
    tables: &[TableDef],
    table_word: Word,
    key_word: Word,
) -> Result<RowName, ScriptKind>
    requires { length tables.now ≤ max_tables }
    ensures { result ≡ row_name_in tables.now (held_word table_word.entry)
        (held_word key_word.entry) }
{
    let table = table(tables, table_word)?;
    let key = key(key_word)?;
    Ok(RowName { table, key })
}

/// A number.
#[tactic(auto, unfolding(c5_definitions::specs::Places::int_in))]
pub(crate) fn number(word: Word) -> Result<i64, ScriptKind>
    ensures { result ≡ int_in (held_word word.entry) }
{
    let Word::Bare(bytes) = word else {
        return Err(ScriptKind::Number);
    };
    match number_of(bytes) {
        Some(number) => Ok(number),
        None => Err(ScriptKind::Number),
    }
}

#[tactic(auto, unfolding(c5_definitions::specs::Places::cell_in))]
fn int_cell(word: Word) -> Result<Cell, ScriptKind>
    ensures { result ≡ cell_in CellType.Int (held_word word.entry) }
{
    let Word::Bare(bytes) = word else {
        return Err(ScriptKind::WrongType);
    };
    match number_of(bytes) {
        Some(number) => Ok(Cell::Int(number)),
        None => Err(ScriptKind::Number),
    }
}

#[tactic(auto, unfolding(c5_definitions::specs::Places::cell_in))]
fn text_cell(word: Word) -> Result<Cell, ScriptKind>
    ensures { result ≡ cell_in CellType.Text (held_word word.entry) }
{
    let Word::Quoted(bytes) = word else {
        return Err(ScriptKind::WrongType);
    };
    match TextCell::new(bytes) {
        Ok(text) => Ok(Cell::Txt(text)),
        Err(_) => Err(ScriptKind::Limit),
    }
}

/// A cell of a column of this type.
#[tactic(auto, unfolding(c5_definitions::specs::Places::cell_in))]
pub(crate) fn cell(column: CellType, word: Word) -> Result<Cell, ScriptKind>
    ensures { result ≡ cell_in column (held_word word.entry) }
{
    match column {
        CellType::Int => int_cell(word),
        CellType::Text => text_cell(word),
    }
}

/// The columns of the table of this number; none if there is no such table.
pub(crate) fn columns(tables: &[TableDef], number: u8) -> &[CellType]
    ensures value { result.now ≡ columns_of tables.now number }
    ensures few { length result.now ≤ max_columns }
{
    match tables.get(number as usize) {
        Some(table) => table.columns.types(),
        None => &[],
    }
}

#[tactic(auto, unfolding(c5_definitions::specs::Places::int_column_of))]
fn column_numbered(columns: &[CellType], column: u8) -> Result<u8, ScriptKind>
    ensures { result ≡ int_column_of columns.now column }
{
    match columns.get(column as usize) {
        Some(CellType::Int) => Ok(column),
        Some(CellType::Text) => Err(ScriptKind::WrongType),
        None => Err(ScriptKind::Column),
    }
}

/// The number of a column of the type Int.
#[tactic(auto, unfolding(c5_definitions::specs::Places::column_in))]
pub(crate) fn int_column(columns: &[CellType], word: Word) -> Result<u8, ScriptKind>
    ensures { result ≡ column_in columns.now (held_word word.entry) }
{
    match word {
        Word::Bare([digit]) if digit.is_ascii_digit() => column_numbered(columns, *digit - b'0'),
        _ => Err(ScriptKind::Column),
    }
}

/// How to compare.
#[tactic(auto, unfolding(c5_definitions::specs::Places::rel_in))]
pub(crate) fn rel(word: Word) -> Result<Rel, ScriptKind>
    ensures { result ≡ rel_in (held_word word.entry) }
{
    let Word::Bare(bytes) = word else {
        return Err(ScriptKind::Word);
    };
    if bytes == b"lt".as_slice() {
        Ok(Rel::Lt)
    } else if bytes == b"le".as_slice() {
        Ok(Rel::Le)
    } else if bytes == b"eq".as_slice() {
        Ok(Rel::Eq)
    } else if bytes == b"ge".as_slice() {
        Ok(Rel::Ge)
    } else if bytes == b"gt".as_slice() {
        Ok(Rel::Gt)
    } else {
        Err(ScriptKind::Word)
    }
}

/// A session.
#[tactic(auto, unfolding(c5_definitions::specs::Places::session_in))]
pub(crate) fn session(word: Word) -> Result<u32, ScriptKind>
    ensures value { result ≡ session_in (held_word word.entry) }
    ensures range { IfOk result (λ session. (1 ≤ session) × (session ≤ max_sessions)) }
{
    let number = number(word)?;
    if number >= 1 && number <= i64::from(MAX_SESSIONS) {
        Ok(number as u32)
    } else {
        Err(ScriptKind::Number)
    }
}

fn turn_number(digits: &[u8]) -> Result<u32, ScriptKind>
    ensures value { result ≡ found_or ScriptKind.Number (turn_number_of digits.now) }
    ensures range { IfOk result (λ n. (1 ≤ n) × (n ≤ max_workers) × (n ≤ max_sessions)) }
{
    match turn_number_of(digits) {
        Some(number) => Ok(number),
        None => Err(ScriptKind::Number),
    }
}

/// A step of the schedule.
#[tactic(auto, unfolding(c5_definitions::specs::Places::turn_in))]
pub(crate) fn turn(word: Word) -> Result<TurnWord, ScriptKind>
    ensures value { result ≡ turn_in (held_word word.entry) }
    ensures range { IfOk result IsTurn }
{
    match word {
        Word::Bare([b'w', digits @ ..]) => {
            let worker = turn_number(digits)?;
            Ok(TurnWord::Worker(worker))
        }
        Word::Bare([b's', digits @ ..]) => {
            let session = turn_number(digits)?;
            Ok(TurnWord::Session(session))
        }
        Word::Bare([b'v']) => Ok(TurnWord::Visible),
        _ => Err(ScriptKind::Number),
    }
}
