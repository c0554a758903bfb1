//! Writes and rows where they lie in the bytes of a log.

ghost use Rattle.std.specs.Prelude.{◌≡◌, ◌<◌, ◌≤◌, List, Some, Ok, length, slice_get, option_map};
ghost use Rattle.std.specs.Option.{option_and_then};
ghost use Rattle.c5_rows.specs.Sizes.{max_columns};
ghost use Rattle.c5_rows.specs.declared.tables.TableDef.{TableDef};
ghost use Rattle.c5_rows.specs.declared.writes.Write.{Write};
ghost use Rattle.c5_definitions.specs.Frames.{frame_at, write};
ghost use Rattle.c5_frames.specs.Refs.{row_of_change, put_cells_of, text_bytes_of};

use crate::cells::{cell_in, row_in, text_in};
use crate::payload::NameRef;
use c5_rows::{Cell, Change, Columns, HeldRow, Key, Row, RowName, TableDef};
use std::marker::Model;

/// A row, where its cells lie in the bytes of a log. Columns count from 0.
#[derive(Drop)]
pub struct RowRef<'a> {
    columns: Columns,
    bytes: &'a [u8],
}

impl<'a> Model for RowRef<'a> {
    ghost use Rattle.std.specs.Prelude.{List};
    ghost use Rattle.c5_rows.specs.declared.cells.Cell.{Cell};
    ghost use Rattle.c5_frames.specs.Refs.{cells_held, HoldRow};

    ghost Value = { List Cell };

    ghost view = { λ r. cells_held r.columns r.bytes.now };

    ghost invariant = { λ r. HoldRow r.columns r.bytes.now };
}

impl<'a> RowRef<'a> {
    /// The number of cells.
    pub fn len(&self) -> u8
        ensures value { result ≡ length self.now }
        ensures some { 1 ≤ length self.now }
        ensures few { length self.now ≤ max_columns }
    {
        let _bytes = self.bytes;
        self.columns.types().len() as u8
    }

    /// The cell of column `col`.
    pub fn cell(&self, col: u8) -> Cell
        requires { col < length self.now }
        ensures { slice_get self.now col ≡ Some result }
    {
        cell_in(self.columns.types(), self.bytes, col as usize)
    }

    /// The bytes of the text in column `col`; `None` if and only if the column holds numbers.
    pub fn text(&self, col: u8) -> Option<&'a [u8]>
        requires { col < length self.now }
        ensures { option_map (λ text. text.now) result
            ≡ option_and_then text_bytes_of (slice_get self.now col) }
    {
        text_in(self.columns.types(), self.bytes, col as usize)
    }

    /// The row itself.
    pub fn to_row(&self) -> Row
        ensures { result ≡ self.now }
    {
        row_in(self.columns.types(), self.bytes)
    }
}

impl<'a> HeldRow for RowRef<'a> {
    ghost row_held = { λ row. row };

    fn to_row(&self) -> Row {
        row_in(self.columns.types(), self.bytes)
    }
}

/// A write, where it lies in the bytes of a log.
#[derive(Drop)]
pub struct WriteRef<'a> {
    table: u8,
    key: &'a [u8],
    columns: Columns,
    // The op byte, and the cells of a put.
    bytes: &'a [u8],
}

impl<'a> Model for WriteRef<'a> {
    ghost use Rattle.c5_rows.specs.declared.writes.Write.{Write};
    ghost use Rattle.c5_frames.specs.Refs.{change_held, HoldWrite};

    ghost Value = { Write };

    ghost view = { λ w. record {
      name = record { table = w.table; key = w.key.now };
      change = change_held w.columns w.bytes.now;
    } };

    ghost invariant = { λ w. HoldWrite w.key.now w.columns w.bytes.now };
}

// The bytes of a put's cells.
fn put_in(bytes: &[u8]) -> Option<&[u8]>
    ensures { option_map (λ cells. cells.now) result ≡ put_cells_of bytes.now }
{
    match bytes {
        [0, cells @ ..] => Some(cells),
        _ => None,
    }
}

impl<'a> WriteRef<'a> {
    /// The number of the table.
    pub fn table(&self) -> u8
        ensures { result ≡ self.now.name.table }
    {
        self.table
    }

    /// The bytes of the key.
    pub fn key(&self) -> &'a [u8]
        ensures { result.now ≡ self.now.name.key }
    {
        self.key
    }

    /// The name of the row.
    pub fn name(&self) -> RowName
        ensures { result ≡ self.now.name }
    {
        match Key::new(self.key) {
            Ok(key) => RowName {
                table: self.table,
                key,
            },
            Err(_) => unreachable!(),
        }
    }

    /// The row of a put; `None` if and only if the row becomes absent.
    pub fn row(&self) -> Option<RowRef<'a>>
        ensures { result ≡ row_of_change self.now.change }
    {
        match put_in(self.bytes) {
            Some(bytes) => Some(RowRef {
                columns: self.columns,
                bytes,
            }),
            None => None,
        }
    }

    /// What becomes of the row.
    pub fn change(&self) -> Change
        ensures { result ≡ self.now.change }
    {
        match self.row() {
            Some(row) => Change::Put(row.to_row()),
            None => Change::Gone,
        }
    }
}

/// The name of the write that a payload holds.
pub fn name_in<'a>(payload: &'a [u8]) -> NameRef<'a>
    requires { (tables : List TableDef) × (w : Write)
        × (frame_at tables payload.now ≡ Ok (write w)) }
    ensures table { (tables : List TableDef) (w : Write)
        → frame_at tables payload.now ≡ Ok (write w) → result.table ≡ w.name.table }
    ensures key { (tables : List TableDef) (w : Write) → frame_at tables payload.now ≡ Ok (write w)
        → result.key.now ≡ w.name.key }
{
    let length = payload[2] as usize;
    NameRef {
        table: payload[1],
        key: &payload[3..3 + length],
    }
}

/// The write that a payload holds.
pub fn write_ref<'a>(tables: &[TableDef], payload: &'a [u8]) -> WriteRef<'a>
    requires { (w : Write) × (frame_at tables.now payload.now ≡ Ok (write w)) }
    ensures { frame_at tables.now payload.now ≡ Ok (write result) }
{
    let name = name_in(payload);
    let columns = tables[name.table as usize].columns;
    WriteRef {
        table: name.table,
        key: name.key,
        columns,
        bytes: &payload[3 + name.key.len()..],
    }
}
