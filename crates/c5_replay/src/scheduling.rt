//! The scheduler's part.

ghost use Rattle.std.specs.Prelude.{◌≡◌};
ghost use Rattle.c5_workers.specs.Schedules.{FitsSchedule};
ghost use Rattle.c5_replay.specs.Parts.{IsPassWith};

use c5_board::{Board, BoardPass};
use c5_io::{Gate, Role};
use c5_workers::{ScheduleTurn, Scheduler};

/// Takes turns of the scheduler until each write is scheduled or the next one is of one row too
/// many. Passes the gate before each turn.
pub fn schedule<G: Gate>(
    board: &Board<'_>,
    gate: &G,
    pass: &mut BoardPass,
    scheduler: &mut Scheduler,
)
    requires pass { pass.old.board ≡ board.now }
    requires fits { FitsSchedule scheduler.old pass.old }
    ensures pass { IsPassWith board.now pass.old.roles pass.new }
    ensures fits { FitsSchedule scheduler.new pass.new }
{
    for turn in 1..u64::MAX {
        gate.pass(Role::Scheduler, turn);
        match scheduler.turn(board, pass) {
            ScheduleTurn::Did { .. } => {}
            ScheduleTurn::Rows => return,
            ScheduleTurn::Done => return,
        }
    }
}
