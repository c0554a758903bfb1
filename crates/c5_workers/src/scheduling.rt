//! A whole log is scheduled.

ghost use Rattle.std.specs.Prelude.{◌≡◌};
ghost use Rattle.c5_workers.specs.Schedules.{FitsSchedule, SchedulesAll};
ghost use Rattle.c5_workers.specs.Scheduling.{RowsAreFirstWrites};

use crate::schedule_turn::{ScheduleEnd, ScheduleTurn};
use crate::scheduler::Scheduler;
use c5_board::{Board, BoardPass};

/// The first writes of a log are as many as the rows that it writes.
pub fn first_write_law()
    ensures { RowsAreFirstWrites }
{}

/// Schedules the writes that are left. `Rows` if and only if the log writes more than 65,536 rows:
/// then the writes before the first one of one row too many are scheduled.
pub fn schedule_all(
    board: &Board<'_>,
    pass: &mut BoardPass,
    scheduler: &mut Scheduler,
) -> ScheduleEnd
    requires pass { pass.old.board ≡ board.now }
    requires fits { FitsSchedule scheduler.old pass.old }
    ensures fits { FitsSchedule scheduler.new pass.new }
    ensures end { SchedulesAll pass.old pass.new result }
{
    first_write_law();
    let _place = pass.place();
    loop {
        match scheduler.turn(board, pass) {
            ScheduleTurn::Did { .. } => {}
            ScheduleTurn::Rows => return ScheduleEnd::Rows,
            ScheduleTurn::Done => return ScheduleEnd::Done,
        }
    }
}
