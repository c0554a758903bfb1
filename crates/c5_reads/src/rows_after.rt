//! All rows at a place.

ghost use Rattle.std.specs.Prelude.{◌≡◌, ◌≤◌, ◌==◌, ◌++◌, ◌-◌, [], ◌∷◌, IfOk, OnOk};
ghost use Rattle.c5_rows.specs.State.{state_after};
ghost use Rattle.c5_definitions.specs.WriteNumbers.{row_of, end_of};
ghost use Rattle.c5_board.specs.declared.known.Look.TheVariants.{LoadRecord};
ghost use Rattle.c5_board.specs.Boards.{names, record_of};
ghost use Rattle.c5_reads.specs.Looks.{OnlyLooks, LooksForRows};
ghost use Rattle.c5_reads.specs.Filling.{IsFilled, LooksForWrite};

use crate::answering::ReadOrigin;
use crate::finding::{row_or_start, set_row};
use crate::law::last_write_law;
use c5_board::{Board, BoardPass};
use c5_chains::value_at;
use c5_definitions::number_law;
use c5_rows::{NoMemory, Rows};
use std::alloc::Global;

// Whether w is the first write of its row, by its record.
fn is_first(board: &Board<'_>, pass: &mut BoardPass, w: u32) -> bool
    requires pass { pass.old.board ≡ board.now }
    requires some { 1 ≤ w }
    requires write { w ≤ pass.old.scheduled }
    ensures first { result ≡ (row_of (names board.now) w == w) }
    ensures pass { pass.new ≡ record pass.old {
      looks = pass.old.looks ++ LoadRecord w (record_of (names board.now) w) ∷ [];
    } }
{
    board.load_record(pass, w).row == w
}

// Sets the row of write w, if w is the first write of the row.
fn fill(
    alloc: Global,
    board: &Board<'_>,
    pass: &mut BoardPass,
    origin: &ReadOrigin<'_>,
    w: u32,
    rows: &mut Rows,
) -> Result<(), NoMemory>
    requires pass { pass.old.board ≡ board.now }
    requires place { origin.now.place ≤ pass.old.place }
    requires some { 1 ≤ w }
    requires write { w ≤ end_of board.now.log.txns origin.now.place }
    requires filled { IsFilled (names board.now) origin.now.start.now
        (state_after origin.now.start.now board.now.log.txns origin.now.place) rows.old (w - 1) }
    ensures filled { OnOk result (IsFilled (names board.now) origin.now.start.now
        (state_after origin.now.start.now board.now.log.txns origin.now.place) rows.new w) }
    ensures pass { OnlyLooks pass.old pass.new }
    ensures looks { LooksForWrite pass.old pass.new w }
{
    number_law();
    last_write_law();
    let _place = pass.place();
    if !is_first(board, pass, w) {
        return Ok(());
    }
    let name = board.plan().log().write(w).name();
    let at = value_at(board, pass, w, origin.place);
    set_row(alloc, rows, &name, row_or_start(at, origin.start, &name))
}

/// The rows after the first `place` transactions of the log, which begins with the rows `start`.
/// The pass knows that the place is visible. Each write up to the place is looked at once, and each
/// row once more. Only out of memory is an error.
pub fn rows_at(
    alloc: Global,
    board: &Board<'_>,
    pass: &mut BoardPass,
    start: &Rows,
    place: u32,
) -> Result<Rows, NoMemory>
    requires pass { pass.old.board ≡ board.now }
    requires place { place ≤ pass.old.place }
    ensures rows { IfOk result
        (λ rows. rows ≡ state_after start.now board.now.log.txns place) }
    ensures pass { OnlyLooks pass.old pass.new }
    ensures looks { OnOk result (LooksForRows pass.old pass.new place) }
{
    number_law();
    last_write_law();
    let _place = pass.place();
    let origin = ReadOrigin { start, place };
    let mut rows = start.copied()?;
    for before in 0..board.plan().end(place) {
        fill(alloc, board, pass, &origin, before + 1, &mut rows)?;
    }
    Ok(rows)
}
