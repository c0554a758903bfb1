//! The text of cells.

ghost use Rattle.std.specs.Prelude.{◌≡◌, ◌∷◌, ◌++◌, OnOk};
ghost use Rattle.std.specs.List.{flat_map};
ghost use Rattle.c5_definitions.specs.Texts.{cell_text};

use c5_rows::{Cell, NoMemory};
use itoa::Buffer;

// Appends a blank and the cell.
fn push_cell(out: &mut Vec<u8>, cell: &Cell) -> Result<(), NoMemory>
    ensures { OnOk result (out.new.items ≡ out.old.items ++ 32 ∷ cell_text cell.now) }
{
    match cell {
        Cell::Int(number) => {
            out.push(b' ')?;
            out.extend_from_slice(Buffer::new().format(*number).as_bytes())?;
        }
        Cell::Txt(text) => {
            out.extend_from_slice(b" \"")?;
            out.extend_from_slice(text.bytes())?;
            out.push(b'"')?;
        }
    }
    Ok(())
}

// Appends a blank and the cell, for each cell.
pub(crate) fn push_cells(out: &mut Vec<u8>, cells: &[Cell]) -> Result<(), NoMemory>
    ensures { OnOk result (out.new.items ≡ out.old.items
        ++ flat_map (λ cell. 32 ∷ cell_text cell) cells.now) }
{
    for cell in cells {
        push_cell(out, cell)?;
    }
    Ok(())
}
