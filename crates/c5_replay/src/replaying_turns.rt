//! The replay of a log by a schedule.

ghost use Rattle.std.specs.Prelude.{◌≡◌, ◌≤◌, ◌<◌, length, Err, IfOk, OnOk};
ghost use Rattle.c5_rows.specs.Sizes.{max_reads, max_rows, max_workers};
ghost use Rattle.c5_definitions.specs.WriteNumbers.{names_in};
ghost use Rattle.c5_definitions.specs.WriteNumbers.{row_count};
ghost use Rattle.c5_board.specs.Boards.{IsWorker};
ghost use Rattle.c5_replay.specs.Replays.{HasReplayed};
ghost use Rattle.c5_replay.specs.TurnReplays.{IsTurnReplay, missed_first};
ghost use Rattle.c5_replay.specs.declared.fault.ReplayFault.TheVariants as faults;

use crate::closing::close;
use crate::fault::ReplayFault;
use crate::left_reads::take_all_left;
use crate::shared::Shared;
use crate::turn_opening::open_turns;
use crate::turning::take_words;
use c5_board::{Board, BoardPass};
use c5_definitions::TurnWord;
use c5_plan::Plan;
use c5_reads::rows_at;
use c5_rows::{Replies, Rows};
use c5_script::ReadBlock;
use c5_workers::Scheduler;
use std::alloc::Global;

/// What a replay by a schedule gives.
#[derive(Drop)]
pub struct TurnReport {
    /// The replies to the read blocks, by ascending session, those of a session in the order of its
    /// blocks.
    pub replies: Replies,
    /// The rows after the whole log.
    pub rows: Rows,
    /// How many writes were put off.
    pub put_off: u64,
    /// A pass of the board with all roles.
    pub pass: BoardPass,
}

/// Replays a log from these rows with so many workers, 1 to 16, by a schedule, and answers read
/// blocks. One thread takes all turns, so the same arguments always give the same report.
///
/// Each write is scheduled before the first word. A word is a turn of a worker, or the visible
/// place advances, or the next read of a session is taken at the visible place. The word of a
/// worker or a session that isn't there, or of a session without a read that is left, does nothing.
/// After the words come rounds, at least one, until each write is installed: each worker takes a
/// turn, and then the visible place advances. At last the reads that are left are taken.
///
/// `Rows` only if the log writes more than 65,536 rows; such a log is never replayed. Else only out
/// of memory is an error.
pub fn replay_turns(
    alloc: Global,
    plan: &Plan<'_>,
    workers: u32,
    start: &Rows,
    reads: &[ReadBlock],
    turns: &[TurnWord],
) -> Result<TurnReport, ReplayFault>
    requires workers { IsWorker max_workers workers }
    requires reads { length reads.now ≤ max_reads }
    ensures run { IfOk result (λ r. IsTurnReplay plan.now workers start.now reads.now turns.now
        r.replies r.rows r.put_off) }
    ensures pass { IfOk result (λ r. HasReplayed plan.now workers reads.now r.replies r.pass) }
    ensures missed { IfOk result
        (λ r. r.put_off ≡ missed_first (names_in plan.now.txns) r.pass.looks) }
    ensures rows { result ≡ Err faults.Rows → max_rows < row_count (names_in plan.now.txns) }
    ensures few { OnOk result (row_count (names_in plan.now.txns) ≤ max_rows) }
{
    let (board, pass) = Board::new(alloc, plan, workers)?;
    let scheduler = Scheduler::new(alloc, &board)?;
    let shared = Shared {
        board: &board,
        start,
        reads,
    };
    let mut turning = open_turns(alloc, &shared, pass, scheduler)?;
    take_words(alloc, &shared, &mut turning, turns)?;
    close(&shared, &mut turning);
    let mut pass = turning.pass;
    let replies = take_all_left(alloc, &shared, &mut pass, turning.sessions)?;
    let place = pass.place();
    let rows = rows_at(alloc, &board, &mut pass, start, place)?;
    Ok(TurnReport {
        replies,
        rows,
        put_off: turning.put_off,
        pass,
    })
}
