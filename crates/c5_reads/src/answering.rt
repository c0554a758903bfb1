//! The rows of a read block at a place.

ghost use Rattle.std.specs.Prelude.{◌≡◌, ◌≤◌, ◌∷◌, [], OnOk, IfOk};
ghost use Rattle.std.specs.FinMap as map;
ghost use Rattle.c5_rows.specs.State.{state_after};
ghost use Rattle.c5_definitions.specs.Answers.{table_names, names_of_line, asked_names};
ghost use Rattle.c5_definitions.specs.Answers.{answer_of};
ghost use Rattle.c5_reads.specs.Looks.{OnlyLooks, LooksForNames, LooksForRead};
ghost use Rattle.c5_reads.specs.Reading.{with_row, with_rows};

use crate::finding::{row_after, set_row};
use c5_board::{Board, BoardPass};
use c5_definitions::ReadLine;
use c5_eval::answer_rows;
use c5_rows::{Answer, Key, NoMemory, RowName, Rows};
use c5_script::ReadBlock;
use std::alloc::Global;
use std::marker::Model;

/// The state after the first `place` transactions, with the rows before the log.
#[derive(Clone, Copy)]
pub struct ReadOrigin<'a> {
    pub start: &'a Rows,
    pub place: u32,
}

// Adds the row of this name, if there is one.
fn load_row(
    alloc: Global,
    board: &Board<'_>,
    pass: &mut BoardPass,
    origin: &ReadOrigin<'_>,
    name: &RowName,
    rows: &mut Rows,
) -> Result<(), NoMemory>
    requires pass { pass.old.board ≡ board.now }
    requires place { origin.now.place ≤ pass.old.place }
    ensures rows { OnOk result (rows.new ≡ with_rows
        (state_after origin.now.start.now board.now.log.txns origin.now.place)
        (name.now ∷ []) rows.old) }
    ensures pass { OnlyLooks pass.old pass.new }
    ensures looks { LooksForNames pass.old pass.new (name.now ∷ []) origin.now.place }
{
    let row = row_after(board, pass, origin.start, origin.place, name);
    set_row(alloc, rows, name, row)
}

// Adds the rows of these keys of a table.
fn load_keys(
    alloc: Global,
    board: &Board<'_>,
    pass: &mut BoardPass,
    origin: &ReadOrigin<'_>,
    table: u8,
    keys: &[Key],
    rows: &mut Rows,
) -> Result<(), NoMemory>
    requires pass { pass.old.board ≡ board.now }
    requires place { origin.now.place ≤ pass.old.place }
    ensures rows { OnOk result (rows.new ≡ with_rows
        (state_after origin.now.start.now board.now.log.txns origin.now.place)
        (table_names table keys.now) rows.old) }
    ensures pass { OnlyLooks pass.old pass.new }
    ensures looks { OnOk result
        (LooksForNames pass.old pass.new (table_names table keys.now) origin.now.place) }
{
    for key in keys {
        let name = RowName { table, key: *key };
        load_row(alloc, board, pass, origin, &name, rows)?;
    }
    Ok(())
}

// Adds the rows that a line asks for.
fn load_line(
    alloc: Global,
    board: &Board<'_>,
    pass: &mut BoardPass,
    origin: &ReadOrigin<'_>,
    line: &ReadLine,
    rows: &mut Rows,
) -> Result<(), NoMemory>
    requires pass { pass.old.board ≡ board.now }
    requires place { origin.now.place ≤ pass.old.place }
    ensures rows { OnOk result (rows.new ≡ with_rows
        (state_after origin.now.start.now board.now.log.txns origin.now.place)
        (names_of_line line.now) rows.old) }
    ensures pass { OnlyLooks pass.old pass.new }
    ensures looks { OnOk result
        (LooksForNames pass.old pass.new (names_of_line line.now) origin.now.place) }
{
    match line {
        ReadLine::OneRow { name } => load_row(alloc, board, pass, origin, name, rows),
        ReadLine::SumOf { table, keys, .. } => {
            load_keys(alloc, board, pass, origin, *table, keys.as_slice(), rows)
        }
    }
}

// The rows that the lines ask for.
fn load_lines(
    alloc: Global,
    board: &Board<'_>,
    pass: &mut BoardPass,
    origin: &ReadOrigin<'_>,
    lines: &[ReadLine],
) -> Result<Rows, NoMemory>
    requires pass { pass.old.board ≡ board.now }
    requires place { origin.now.place ≤ pass.old.place }
    ensures rows { IfOk result (λ rows. rows ≡ with_rows
        (state_after origin.now.start.now board.now.log.txns origin.now.place)
        (asked_names lines.now) map.empty) }
    ensures pass { OnlyLooks pass.old pass.new }
    ensures looks { OnOk result
        (LooksForNames pass.old pass.new (asked_names lines.now) origin.now.place) }
{
    let mut rows = Rows::new(alloc);
    for line in lines {
        load_line(alloc, board, pass, origin, line, &mut rows)?;
    }
    Ok(rows)
}

/// What the rows after the first transactions answer to a read block.
pub fn answer_at(
    alloc: Global,
    board: &Board<'_>,
    pass: &mut BoardPass,
    origin: &ReadOrigin<'_>,
    read: &ReadBlock,
) -> Result<Answer, NoMemory>
    requires pass { pass.old.board ≡ board.now }
    requires place { origin.now.place ≤ pass.old.place }
    ensures answer { IfOk result (λ answer. answer ≡ answer_of read.now
        (state_after origin.now.start.now board.now.log.txns origin.now.place)) }
    ensures pass { OnlyLooks pass.old pass.new }
    ensures looks { OnOk result (LooksForRead pass.old pass.new read.now origin.now.place) }
{
    let rows = load_lines(alloc, board, pass, origin, read.lines())?;
    answer_rows(alloc, read, &rows)
}
