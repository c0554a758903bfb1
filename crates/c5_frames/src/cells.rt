//! Cells where they lie in bytes that passed their tests.

ghost use Rattle.std.specs.Prelude.{◌≡◌, ◌<◌, ◌≤◌, [], Some, Ok, length, drop, slice_get};
ghost use Rattle.std.specs.Prelude.{option_map};
ghost use Rattle.std.specs.Option.{option_and_then};
ghost use Rattle.c5_rows.specs.Sizes.{max_columns};
ghost use Rattle.c5_rows.specs.declared.cells.Cell.TheVariants.{Txt};
ghost use Rattle.c5_definitions.specs.Frames.{int_at, text_at, cell_at, cells_at};
ghost use Rattle.c5_frames.specs.Payloads.{unread};
ghost use Rattle.c5_frames.specs.Refs.{Reads, HoldRow, cells_held, text_bytes_of};

use crate::numbers::i64_in;
use c5_rows::{Cell, CellType, Row, TextCell};

// The number, and the bytes after it.
#[tactic(auto, unfolding(c5_definitions::specs::Frames::int_at))]
fn first_int(bytes: &[u8]) -> (i64, &[u8])
    requires { Reads (int_at bytes.now) }
    ensures { int_at bytes.now ≡ Ok (Cell.Int result.0, result.1.now) }
{
    (i64_in(bytes), &bytes[8..])
}

// The text, and the bytes after it.
fn first_text(bytes: &[u8]) -> (&[u8], &[u8])
    requires { Reads (text_at bytes.now) }
    ensures { text_at bytes.now ≡ Ok (Cell.Txt result.0.now, result.1.now) }
{
    match bytes {
        [length, rest @ ..] => rest.split_at(*length as usize),
        [] => unreachable!(),
    }
}

// The cell, and the bytes after it.
#[tactic(auto, unfolding(c5_definitions::specs::Frames::cell_at))]
fn first_cell(cell_type: CellType, bytes: &[u8]) -> (Cell, &[u8])
    requires { Reads (cell_at cell_type bytes.now) }
    ensures { cell_at cell_type bytes.now ≡ Ok (result.0, result.1.now) }
{
    match cell_type {
        CellType::Int => {
            let (n, rest) = first_int(bytes);
            (Cell::Int(n), rest)
        }
        CellType::Text => {
            let (text, rest) = first_text(bytes);
            match TextCell::new(text) {
                Ok(text) => (Cell::Txt(text), rest),
                Err(_) => unreachable!(),
            }
        }
    }
}

// The bytes after the cell.
#[tactic(auto, unfolding(c5_definitions::specs::Frames::cell_at))]
fn after_cell(cell_type: CellType, bytes: &[u8]) -> &[u8]
    requires { Reads (cell_at cell_type bytes.now) }
    ensures { unread (cell_at cell_type bytes.now) ≡ Ok result.now }
{
    match cell_type {
        CellType::Int => first_int(bytes).1,
        CellType::Text => first_text(bytes).1,
    }
}

// Where the cells from this column on lie.
fn cells_from<'a>(columns: &[CellType], bytes: &'a [u8], col: usize) -> &'a [u8]
    requires row { HoldRow columns.now bytes.now }
    requires column { col < length columns.now }
    ensures { cells_at (drop col columns.now) result.now
        ≡ Ok (drop col (cells_held columns.now bytes.now), []) }
{
    let mut rest = bytes;
    for cell_type in &columns[..col] {
        rest = after_cell(*cell_type, rest);
    }
    rest
}

/// The cell of this column.
pub fn cell_in(columns: &[CellType], bytes: &[u8], col: usize) -> Cell
    requires row { HoldRow columns.now bytes.now }
    requires column { col < length columns.now }
    ensures { slice_get (cells_held columns.now bytes.now) col ≡ Some result }
{
    let rest = cells_from(columns, bytes, col);
    first_cell(columns[col], rest).0
}

/// The text of this column, `None` if and only if its type is another.
pub fn text_in<'a>(columns: &[CellType], bytes: &'a [u8], col: usize) -> Option<&'a [u8]>
    requires row { HoldRow columns.now bytes.now }
    requires column { col < length columns.now }
    ensures { option_map (λ text. text.now) result
        ≡ option_and_then text_bytes_of (slice_get (cells_held columns.now bytes.now) col) }
{
    let rest = cells_from(columns, bytes, col);
    match columns[col] {
        CellType::Int => None,
        CellType::Text => Some(first_text(rest).0),
    }
}

/// The row of all the cells.
// Inlined, its large locals would cost each caller their size, even when there is no row.
#[inline(never)]
pub fn row_in(columns: &[CellType], bytes: &[u8]) -> Row
    requires row { HoldRow columns.now bytes.now }
    requires some { 1 ≤ length columns.now }
    requires few { length columns.now ≤ max_columns }
    ensures { result ≡ cells_held columns.now bytes.now }
{
    let (first, unread) = first_cell(columns[0], bytes);
    let mut row = Row::one(first);
    let mut rest = unread;
    for column in 1..columns.len() {
        let (cell, after) = first_cell(columns[column], rest);
        row.push(cell);
        rest = after;
    }
    row
}
