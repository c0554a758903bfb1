//! Which writes fit a schema.

ghost use Rattle.std.specs.Prelude.{◌≡◌, ◌↔◌, IsTrue, map};
ghost use Rattle.c5_rows.specs.Cells.{type_of};
ghost use Rattle.c5_rows.specs.Fitting.{FitsColumns, FitsTables};

use crate::cells::{Cell, CellType};
use crate::tables::Schema;
use crate::writes::{Change, Write};

fn has_type(cell: &Cell, column: CellType) -> bool
    ensures { IsTrue result ↔ (type_of cell.now ≡ column) }
{
    cell.cell_type() == column
}

// Whether the cells have the types, one for one.
fn have_types(cells: &[Cell], types: &[CellType]) -> bool
    ensures { IsTrue result ↔ (map type_of cells.now ≡ types.now) }
{
    if cells.len() != types.len() {
        return false;
    }
    for (column, cell) in cells.iter().enumerate() {
        if !has_type(cell, types[column]) {
            return false;
        }
    }
    true
}

impl Schema {
    /// Whether the table of the write exists and, for a put, its cells have the types of the
    /// columns.
    pub fn fits(&self, write: &Write) -> bool
        ensures { IsTrue result ↔ FitsTables self.now write.now }
    {
        match self.tables().get(write.name.table as usize) {
            Some(table) => match &write.change {
                Change::Put(row) => have_types(row.cells(), table.columns.types()),
                Change::Gone => true,
            },
            None => false,
        }
    }
}
