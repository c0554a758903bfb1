//! The lines of all rows, and then the line with their number.

ghost use Rattle.std.specs.Prelude.{◌≡◌, ◌++◌, OnOk, IfOk};
ghost use Rattle.c5_definitions.specs.Texts.{count_line, entries_text, row_line};
ghost use Rattle.c5_definitions.specs.Texts.{rows_text as text_of_rows};

use crate::lines::push_row;
use c5_rows::{NoMemory, Row, RowEntry, RowName, Rows, Schema, TableDef};
use itoa::Buffer;
use std::alloc::Global;

// Appends the line with the number of rows.
fn push_count(out: &mut Vec<u8>, count: usize) -> Result<(), NoMemory>
    ensures { OnOk result (out.new.items ≡ out.old.items ++ count_line count) }
{
    out.extend_from_slice(b"rows ")?;
    out.extend_from_slice(Buffer::new().format(count).as_bytes())?;
    out.push(b'\n')?;
    Ok(())
}

// Appends the line of a row.
fn push_line(
    out: &mut Vec<u8>,
    tables: &[TableDef],
    name: &RowName,
    row: &Row,
) -> Result<(), NoMemory>
    ensures { OnOk result (out.new.items ≡ out.old.items
        ++ row_line tables.now (record { name = name.now; row = row.now })) }
{
    push_row(out, tables, name, row)?;
    out.push(b'\n')?;
    Ok(())
}

/// The text of rows: a line for each, in the order of the slice, and then the line `rows N`.
///
/// A line has the table's name, the key and the cells, with one blank between two of them. If
/// the schema has no table of the row's number, the line begins with the blank before the key.
pub fn rows_text(alloc: Global, schema: &Schema, rows: &[RowEntry]) -> Result<Vec<u8>, NoMemory>
    ensures { IfOk result (λ text. text.items ≡ entries_text schema.now rows.now) }
{
    let tables = schema.tables();
    let mut text = Vec::new(alloc);
    for entry in rows {
        push_line(&mut text, tables, &entry.name, &entry.row)?;
    }
    push_count(&mut text, rows.len())?;
    Ok(text)
}

/// Appends the text of a map of rows, as [`rows_text`] has it of a list. It takes memory for the
/// text alone.
pub fn push_rows(out: &mut Vec<u8>, schema: &Schema, rows: &Rows) -> Result<(), NoMemory>
    ensures { OnOk result (out.new.items ≡ out.old.items
        ++ text_of_rows schema.now rows.now) }
{
    let tables = schema.tables();
    for (name, row) in rows.iter() {
        push_line(out, tables, name, row)?;
    }
    push_count(out, rows.len())?;
    Ok(())
}
