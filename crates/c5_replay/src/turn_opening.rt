//! The state of a replay by a schedule before its first word.

ghost use Rattle.std.specs.Prelude.{◌≡◌, ◌≤◌, ◌<◌, IfOk, OnOk, Err};
ghost use Rattle.c5_rows.specs.Sizes.{max_rows, max_sessions, max_workers};
ghost use Rattle.c5_definitions.specs.Turns.{turn_start};
ghost use Rattle.c5_definitions.specs.WriteNumbers.{row_count};
ghost use Rattle.c5_board.specs.Boards.{names, write_count};
ghost use Rattle.c5_board.specs.First.{first_pass};
ghost use Rattle.c5_workers.specs.Schedules.{FitsNew, OnlySchedules};
ghost use Rattle.c5_replay.specs.TurnStates.{AreNewWorkers, AreNewSessions, FitsTurns, machine_of};
ghost use Rattle.c5_replay.specs.declared.fault.ReplayFault.TheVariants as faults;

use crate::fault::ReplayFault;
use crate::session_turns::SessionTurns;
use crate::shared::Shared;
use crate::turning::Turning;
use c5_board::{Board, BoardPass};
use c5_rows::{MAX_SESSIONS, NoMemory};
use c5_workers::{ScheduleEnd, Scheduler, Worker, schedule_all};
use std::alloc::Global;

// Workers 1 to the last, which have tried nothing.
fn new_workers(alloc: Global, workers: u32) -> Result<Vec<Worker>, NoMemory>
    requires { workers ≤ max_workers }
    ensures { IfOk result (λ list. AreNewWorkers workers workers list.items) }
{
    let mut list = Vec::with_capacity(alloc, workers as usize)?;
    for before in 0..workers {
        list.push(Worker::new(alloc, before + 1, workers)?)?;
    }
    Ok(list)
}

// Sessions 1 to 16, which have looked at no block.
fn new_sessions(alloc: Global) -> Result<Vec<SessionTurns>, NoMemory>
    ensures { IfOk result (λ list. AreNewSessions max_sessions list.items) }
{
    let mut list = Vec::with_capacity(alloc, MAX_SESSIONS as usize)?;
    for before in 0..MAX_SESSIONS {
        list.push(SessionTurns {
            session: before + 1,
            looked: 0,
            replies: Vec::new(alloc),
        })?;
    }
    Ok(list)
}

// Schedules the whole log on a new board.
fn schedule_whole(
    board: &Board<'_>,
    mut pass: BoardPass,
    mut scheduler: Scheduler,
) -> Result<BoardPass, ReplayFault>
    requires pass { pass ≡ first_pass board.now }
    requires scheduler { FitsNew scheduler board.now }
    ensures pass { IfOk result (OnlySchedules (first_pass board.now)) }
    ensures scheduled { IfOk result (λ p. p.scheduled ≡ write_count board.now) }
    ensures few { OnOk result (row_count (names board.now) ≤ max_rows) }
    ensures rows { result ≡ Err faults.Rows → max_rows < row_count (names board.now) }
{
    match schedule_all(board, &mut pass, &mut scheduler) {
        ScheduleEnd::Done => Ok(pass),
        ScheduleEnd::Rows => Err(ReplayFault::Rows),
    }
}

/// The state before the first word: each write is scheduled. `Rows` if and only if the log writes
/// too many rows.
pub fn open_turns(
    alloc: Global,
    shared: &Shared<'_>,
    pass: BoardPass,
    scheduler: Scheduler,
) -> Result<Turning, ReplayFault>
    requires pass { pass ≡ first_pass shared.now.board.now }
    requires scheduler { FitsNew scheduler shared.now.board.now }
    ensures fits { IfOk result (FitsTurns shared.now.board.now shared.now.start.now
        shared.now.reads.now) }
    ensures machine { IfOk result
        (λ t. machine_of t ≡ turn_start shared.now.board.now.workers) }
    ensures few { OnOk result (row_count (names shared.now.board.now) ≤ max_rows) }
    ensures rows { result ≡ Err faults.Rows → max_rows < row_count (names shared.now.board.now) }
{
    let workers = new_workers(alloc, shared.board.workers())?;
    let sessions = new_sessions(alloc)?;
    let pass = schedule_whole(shared.board, pass, scheduler)?;
    Ok(Turning {
        pass,
        workers,
        sessions,
        put_off: 0,
    })
}
