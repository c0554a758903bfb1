//! Cells, and rows of them.

ghost use Rattle.std.specs.Prelude.{◌≡◌, ◌≤◌, ◌<◌, ◌++◌, ◌∷◌, [], length, slice_set};
ghost use Rattle.c5_rows.specs.Cells.{type_of, row_or_none};
ghost use Rattle.c5_rows.specs.Sizes.{max_columns};

use crate::names::TextCell;
use crate::padded::{Blank, Padded};
use crate::sizes::MAX_COLUMNS;
use std::marker::Model;

/// The type of a column.
#[derive(Clone, Copy, Debug, PartialEq, Eq)]
pub enum CellType {
    /// Whole numbers of 64 bits with a sign.
    Int,
    /// Texts of 0 to 32 bytes.
    Text,
}

/// The value of one column in one row.
#[derive(Clone, Copy, Debug, PartialEq, Eq)]
pub enum Cell {
    /// A whole number.
    Int(i64),
    /// A text.
    Txt(TextCell),
}

impl Cell {
    /// The type of the column that the cell fits.
    pub fn cell_type(&self) -> CellType
        ensures { result ≡ type_of self.now }
    {
        match self {
            Cell::Int(_) => CellType::Int,
            Cell::Txt(_) => CellType::Text,
        }
    }
}

impl Blank for CellType {
    ghost use Rattle.c5_rows.specs.declared.cells.CellType.TheVariants.{Int};

    ghost blank_value = { Int };

    fn blank() -> Self {
        CellType::Int
    }
}

impl Blank for Cell {
    ghost use Rattle.std.specs.Prelude.{pos};
    ghost use Rattle.c5_rows.specs.declared.cells.Cell.TheVariants.{Int};

    ghost blank_value = { Int (pos 0) };

    fn blank() -> Self {
        Cell::Int(0)
    }
}

/// A row: 1 to 8 cells, held in the value itself.
#[derive(Clone, Copy, Debug, PartialEq, Eq)]
pub struct Row {
    cells: Padded<Cell, MAX_COLUMNS>,
}

impl Model for Row {
    ghost use Rattle.std.specs.Prelude.{◌≤◌, List, length};
    ghost use Rattle.c5_rows.specs.declared.cells.Cell.{Cell};

    ghost Value = { List Cell };

    ghost view = { λ r. r.cells };

    ghost invariant = { λ r. 1 ≤ length r.cells };

    ghost inverse = { λ items. record { cells = items } };
}

impl Row {
    /// The row of one cell.
    pub fn one(cell: Cell) -> Self
        ensures { result ≡ cell ∷ [] }
    {
        let mut cells = Padded::new();
        cells.push(cell);
        Row { cells }
    }

    /// Adds a cell at the end.
    pub fn push(&mut self, cell: Cell)
        requires { length self.old < max_columns }
        ensures { self.new ≡ self.old ++ cell ∷ [] }
    {
        self.cells.push(cell);
    }

    /// The row of these cells; `None` if there are fewer than 1 or more than 8.
    pub fn new(cells: &[Cell]) -> Option<Self>
        ensures { result ≡ row_or_none cells.now }
    {
        if cells.is_empty() || cells.len() > MAX_COLUMNS {
            return None;
        }
        Some(Row {
            cells: Padded::copied(cells),
        })
    }

    /// The cells, in the order of the columns.
    pub fn cells(&self) -> &[Cell]
        ensures value { result.now ≡ self.now }
        ensures some { 1 ≤ length self.now }
        ensures few { length self.now ≤ max_columns }
    {
        self.cells.as_slice()
    }

    /// The row with another cell in column `col`, counted from 0.
    pub fn with(&self, col: u8, cell: Cell) -> Self
        requires { col < length self.now }
        ensures { result ≡ slice_set self.now col cell }
    {
        let mut row = *self;
        row.set(col, cell);
        row
    }

    /// Replaces the cell in column `col`, counted from 0.
    pub fn set(&mut self, col: u8, cell: Cell)
        requires { col < length self.old }
        ensures { self.new ≡ slice_set self.old col cell }
    {
        self.cells.set(col, cell);
    }
}
