//! The scheduler.

ghost use Rattle.std.specs.Prelude.{◌≡◌, ◌<◌, ◌+◌, ◌^◌, IfOk};
ghost use Rattle.c5_board.specs.Boards.{names};
ghost use Rattle.c5_workers.specs.Schedules.{FitsSchedule, FitsNew, TakesTurn, OnlySchedules};
ghost use Rattle.c5_workers.specs.Scheduling.{IsLastOfEach, IsReadyToRecord, IsNext, PlacesNext};
ghost use Rattle.c5_workers.specs.Scheduling.{rows_with};

use crate::schedule_turn::ScheduleTurn;
use c5_board::{Board, BoardPass, Record};
use c5_chains::{PathEnd, follow_path};
use c5_definitions::number_law;
use c5_rows::{MAX_ROWS, NoMemory};
use std::alloc::Global;

/// Schedules the writes of a log, one after the other.
#[derive(Drop)]
pub struct Scheduler {
    // For each row, at the place of its first write, its last number that is scheduled.
    last: Vec<u32>,
    scheduled: u32,
    rows: u32,
}

// Records the next write, which is of this row, and schedules it.
fn record_next(board: &Board<'_>, pass: &mut BoardPass, last: &mut [u32], w: u32, row: u32)
    requires pass { pass.old.board ≡ board.now }
    requires ready { IsReadyToRecord pass.old last.old w row }
    ensures pass { pass.new ≡ record pass.old { written = w; scheduled = w } }
    ensures last { IsLastOfEach (names board.now) last.new w }
{
    number_law();
    let _place = pass.place();
    let place = row as usize - 1;
    let link = Record {
        row,
        predecessor: last[place],
    };
    board.store_record(pass, w, link);
    board.store_scheduled(pass, w);
    last[place] = w;
}

// The number of the row of the next write, after the row was stored in the index if that is its
// first write;
// `None` if it is the first of one row too many.
fn place_next(board: &Board<'_>, pass: &mut BoardPass, w: u32, rows: u32) -> Option<u32>
    requires pass { pass.old.board ≡ board.now }
    requires next { IsNext pass.old w }
    ensures { PlacesNext pass.old pass.new w rows result }
{
    number_law();
    let _place = pass.place();
    let name = board.plan().log().write(w).name();
    match follow_path(board, pass, &name) {
        PathEnd::Row(row) => Some(row),
        PathEnd::Free(_) if rows as usize == MAX_ROWS => None,
        PathEnd::Free(bucket) => {
            board.store_bucket(pass, bucket, w);
            Some(w)
        }
    }
}

// The number of rows with that of write w.
fn rows_with(rows: u32, w: u32, row: u32) -> u32
    requires { rows + 1 < 2 ^ 32 }
    ensures { result ≡ rows_with rows w row }
{
    if row == w { rows + 1 } else { rows }
}

impl Scheduler {
    /// A scheduler of the board's log, of which nothing is scheduled. It has room for one number
    /// per write.
    pub fn new(alloc: Global, board: &Board<'_>) -> Result<Scheduler, NoMemory>
        ensures { IfOk result (λ scheduler. FitsNew scheduler board.now) }
    {
        number_law();
        let last = vec![in alloc; 0; board.writes() as usize]?;
        Ok(Scheduler {
            last,
            scheduled: 0,
            rows: 0,
        })
    }

    /// Schedules the next write: stores its row in the index if it is the row's first write, then
    /// its record, and then the scheduled word. `Done` if and only if each write is scheduled; else
    /// `Rows` if and only if the next write is the first of one row too many.
    pub fn turn(&mut self, board: &Board<'_>, pass: &mut BoardPass) -> ScheduleTurn
        requires pass { pass.old.board ≡ board.now }
        requires fits { FitsSchedule self.old pass.old }
        ensures fits { FitsSchedule self.new pass.new }
        ensures turn { TakesTurn pass.old pass.new result }
        ensures only { OnlySchedules pass.old pass.new }
    {
        let _place = pass.place();
        if self.scheduled == board.writes() {
            return ScheduleTurn::Done;
        }
        let w = self.scheduled + 1;
        let Some(row) = place_next(board, pass, w, self.rows) else {
            return ScheduleTurn::Rows;
        };
        record_next(board, pass, self.last.as_mut_slice(), w, row);
        self.scheduled = w;
        self.rows = rows_with(self.rows, w, row);
        ScheduleTurn::Did { w }
    }
}
