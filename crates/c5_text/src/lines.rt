//! The lines of rows, without their line ends.

ghost use Rattle.std.specs.Prelude.{◌≡◌, ◌++◌, slice_get, OnOk};
ghost use Rattle.c5_definitions.specs.Texts.{table_name_text, name_text, line_text};

use crate::cells::push_cells;
use c5_rows::{NoMemory, Row, RowName, TableDef};

// Appends the name of the table of this number, if there is one.
fn push_name(out: &mut Vec<u8>, tables: &[TableDef], number: u8) -> Result<(), NoMemory>
    ensures { OnOk result (out.new.items ≡ out.old.items
        ++ table_name_text (slice_get tables.now number)) }
{
    if let Some(table) = tables.get(number as usize) {
        out.extend_from_slice(table.name.bytes())?;
    }
    Ok(())
}

// Appends the name of a row.
pub(crate) fn push_row_name(
    out: &mut Vec<u8>,
    tables: &[TableDef],
    name: &RowName,
) -> Result<(), NoMemory>
    ensures { OnOk result (out.new.items ≡ out.old.items ++ name_text tables.now name.now) }
{
    push_name(out, tables, name.table)?;
    out.push(b' ')?;
    out.extend_from_slice(name.key.bytes())?;
    Ok(())
}

// Appends the name of a row and its cells.
pub(crate) fn push_row(
    out: &mut Vec<u8>,
    tables: &[TableDef],
    name: &RowName,
    row: &Row,
) -> Result<(), NoMemory>
    ensures { OnOk result (out.new.items ≡ out.old.items
        ++ line_text tables.now (record { name = name.now; row = row.now })) }
{
    push_row_name(out, tables, name)?;
    push_cells(out, row.cells())?;
    Ok(())
}
