//! One row at a place.

ghost use Rattle.std.specs.Prelude.{◌≡◌, ◌≤◌, ◌∷◌, [], OnOk};
ghost use Rattle.std.specs.FinMap as map;
ghost use Rattle.c5_rows.specs.State.{state_after};
ghost use Rattle.c5_reads.specs.Looks.{OnlyLooks, LooksForNames};
ghost use Rattle.c5_reads.specs.Reading.{with_row};
ghost use Rattle.c5_reads.specs.RowLaw.{row_or_before};

use crate::law::last_write_law;
use c5_board::{Board, BoardPass};
use c5_chains::{At, find, value_at};
use c5_definitions::number_law;
use c5_rows::{NoMemory, Row, RowName, Rows};
use std::alloc::Global;

/// The row that the log left, or that of the start if the log has no write of it up to there.
pub fn row_or_start(at: At<'_>, start: &Rows, name: &RowName) -> Option<Row>
    ensures { result ≡ row_or_before at.entry (map.get start.now name.now) }
{
    match at {
        At::Put(row) => Some(row.to_row()),
        At::Gone => None,
        At::Before => start.get(name).copied(),
    }
}

/// The row of this name after the first `place` transactions. Its number is found by its name.
pub fn row_after(
    board: &Board<'_>,
    pass: &mut BoardPass,
    start: &Rows,
    place: u32,
    name: &RowName,
) -> Option<Row>
    requires pass { pass.old.board ≡ board.now }
    requires place { place ≤ pass.old.place }
    ensures row { result ≡ map.get (state_after start.now board.now.log.txns place) name.now }
    ensures pass { OnlyLooks pass.old pass.new }
    ensures looks { LooksForNames pass.old pass.new (name.now ∷ []) place }
{
    number_law();
    last_write_law();
    let _place = pass.place();
    match find(board, pass, name) {
        Some(row) => row_or_start(value_at(board, pass, row, place), start, name),
        None => row_or_start(At::Before, start, name),
    }
}

/// Sets a row, or removes it.
pub fn set_row(
    alloc: Global,
    rows: &mut Rows,
    name: &RowName,
    row: Option<Row>,
) -> Result<(), NoMemory>
    ensures { OnOk result (rows.new ≡ with_row name.now row rows.old) }
{
    match row {
        Some(row) => rows.put(name, Box::new(alloc, row)?)?,
        None => rows.remove(name),
    }
    Ok(())
}
