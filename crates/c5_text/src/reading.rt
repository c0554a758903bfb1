//! Reading the line of a row.

ghost use Rattle.std.specs.Prelude.{◌≡◌, ◌≤◌, length, ℕ, Some, IfSome, IfNone, slice_get};
ghost use Rattle.c5_rows.specs.Sizes.{max_columns};
ghost use Rattle.c5_rows.specs.Tables.{IsSchema};
ghost use Rattle.c5_rows.specs.Bytes.{IsTableName};
ghost use Rattle.c5_rows.specs.declared.rows.RowEntry.{RowEntry};
ghost use Rattle.c5_definitions.specs.Texts.{line_text, IsRowOf};
ghost use Rattle.c5_text.specs.Reading.{GivesOption, bytes_before, rest_after_byte, printed_int_of};
ghost use Rattle.c5_text.specs.Reading.{printed_int_at, printed_text_at, printed_cell_at};
ghost use Rattle.c5_text.specs.Reading.{printed_row_at, printed_entry_at, printed_line_at};

use c5_rows::{
    Cell, CellType, Key, MAX_COLUMNS, Row, RowEntry, RowName, Schema, TableDef, TextCell,
    find_table,
};
use itoa::Buffer;

// How many bytes come before the first byte `stop`; all of them if there is none.
#[tactic(auto, unfolding(crate::specs::Reading::bytes_before))]
pub(crate) fn count_before(stop: u8, bytes: &[u8]) -> usize
    ensures value { result ≡ bytes_before stop bytes.now }
    ensures within { result ≤ length bytes.now }
{
    for (count, byte) in bytes.iter().enumerate() {
        if *byte == stop {
            return count;
        }
    }
    bytes.len()
}

// The bytes after the byte `first`.
#[tactic(auto, unfolding(crate::specs::Reading::rest_after_byte))]
pub(crate) fn after_byte(first: u8, bytes: &[u8]) -> Option<&[u8]>
    ensures { GivesOption (λ x. x.now) result (rest_after_byte first bytes.now) }
{
    match bytes {
        [byte, rest @ ..] if *byte == first => Some(rest),
        _ => None,
    }
}

// The number that is written so, and in no other way.
#[tactic(auto, unfolding(crate::specs::Reading::printed_int_of))]
fn int_in(bytes: &[u8]) -> Option<i64>
    ensures { result ≡ printed_int_of bytes.now }
{
    let Ok(text) = std::str::from_utf8(bytes) else {
        return None;
    };
    let Ok(number) = text.parse::<i64>() else {
        return None;
    };
    if Buffer::new().format(number).as_bytes() != bytes {
        return None;
    }
    Some(number)
}

#[tactic(auto, unfolding(crate::specs::Reading::printed_int_at))]
fn int_cell(bytes: &[u8]) -> Option<(Cell, &[u8])>
    ensures { GivesOption (λ x. (x.0, x.1.now)) result (printed_int_at bytes.now) }
{
    let (digits, rest) = bytes.split_at(count_before(b' ', bytes));
    match int_in(digits) {
        Some(number) => Some((Cell::Int(number), rest)),
        None => None,
    }
}

#[tactic(auto, unfolding(crate::specs::Reading::printed_text_at))]
fn text_cell(quoted: &[u8]) -> Option<(Cell, &[u8])>
    ensures { GivesOption (λ x. (x.0, x.1.now)) result (printed_text_at quoted.now) }
{
    let Some(bytes) = after_byte(b'"', quoted) else {
        return None;
    };
    let (text, rest) = bytes.split_at(count_before(b'"', bytes));
    let Ok(text) = TextCell::new(text) else {
        return None;
    };
    match after_byte(b'"', rest) {
        Some(rest) => Some((Cell::Txt(text), rest)),
        None => None,
    }
}

// A blank and a cell, and the bytes after them.
#[tactic(auto, unfolding(crate::specs::Reading::printed_cell_at))]
fn cell_in(cell_type: CellType, bytes: &[u8]) -> Option<(Cell, &[u8])>
    ensures { GivesOption (λ x. (x.0, x.1.now)) result (printed_cell_at cell_type bytes.now) }
{
    let Some(bytes) = after_byte(b' ', bytes) else {
        return None;
    };
    match cell_type {
        CellType::Int => int_cell(bytes),
        CellType::Text => text_cell(bytes),
    }
}

// The row whose cells, one for each column, are exactly these bytes.
fn row_in(columns: &[CellType], bytes: &[u8]) -> Option<Row>
    requires some { 1 ≤ length columns.now }
    requires few { length columns.now ≤ max_columns }
    ensures { result ≡ printed_row_at columns.now bytes.now }
{
    let mut cells = [Cell::Int(0); MAX_COLUMNS];
    let mut rest = bytes;
    for (column, cell_type) in columns.iter().enumerate() {
        let (cell, after) = match cell_in(*cell_type, rest) {
            Some(found) => found,
            None => return None,
        };
        cells[column] = cell;
        rest = after;
    }
    if !rest.is_empty() {
        return None;
    }
    Row::new(&cells[..columns.len()])
}

// The row of which this follows the table's name.
#[tactic(auto, unfolding(crate::specs::Reading::printed_entry_at))]
fn entry_in(tables: &[TableDef], number: u8, rest: &[u8]) -> Option<RowEntry>
    ensures { result ≡ printed_entry_at tables.now number rest.now }
{
    let Some(table) = tables.get(number as usize) else {
        return None;
    };
    let Some(bytes) = after_byte(b' ', rest) else {
        return None;
    };
    let (key, cells) = bytes.split_at(count_before(b' ', bytes));
    let Ok(key) = Key::new(key) else {
        return None;
    };
    let Some(row) = row_in(table.columns.types(), cells) else {
        return None;
    };
    let name = RowName { table: number, key };
    Some(RowEntry { name, row })
}

#[tactic(auto, unfolding(crate::specs::Reading::printed_line_at))]
fn line_in(tables: &[TableDef], line: &[u8]) -> Option<RowEntry>
    requires { IsSchema tables.now }
    ensures { result ≡ printed_line_at tables.now line.now }
{
    let (name, rest) = line.split_at(count_before(b' ', line));
    let Some(number) = find_table(tables, name) else {
        return None;
    };
    entry_in(tables, number, rest)
}

// Reads the name of each table: so it is known that no name has a blank.
fn read_names(tables: &[TableDef])
    ensures { (number : ℕ) (table : _) → slice_get tables.now number ≡ Some table
        → IsTableName table.name }
{
    for table in tables {
        table.name.bytes();
    }
}

/// Reads a row's line, without its line end. `None` if and only if the line is the text of no row
/// of the schema.
pub fn read_row(schema: &Schema, line: &[u8]) -> Option<RowEntry>
    ensures found { IfSome result
        (λ entry. (line.now ≡ line_text schema.now entry) × IsRowOf schema.now entry) }
    ensures none { IfNone result
        ((entry : RowEntry) → IsRowOf schema.now entry → line.now ≡ line_text schema.now entry
        → ⊥) }
    ensures only { (entry : RowEntry) → IsRowOf schema.now entry
        → line.now ≡ line_text schema.now entry → result ≡ Some entry }
{
    let tables = schema.tables();
    read_names(tables);
    line_in(tables, line)
}
