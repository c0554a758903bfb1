//! The replay of a log.

ghost use Rattle.std.specs.Prelude.{◌≡◌, ◌≤◌, ◌<◌, length, Err, IfOk, OnOk};
ghost use Rattle.c5_rows.specs.Sizes.{max_reads, max_rows, max_sessions, max_workers};
ghost use Rattle.c5_definitions.specs.WriteNumbers.{names_in};
ghost use Rattle.c5_definitions.specs.WriteNumbers.{row_count};
ghost use Rattle.c5_board.specs.Boards.{IsWorker};
ghost use Rattle.c5_replay.specs.Parts.{HaveSessionsUpTo};
ghost use Rattle.c5_replay.specs.Replays.{IsReplay, HasReplayed};
ghost use Rattle.c5_replay.specs.declared.fault.ReplayFault.TheVariants as faults;

use crate::fault::ReplayFault;
use crate::finishing::finish_all;
use crate::joining::join_all;
use crate::playing::play_all;
use crate::shared::Shared;
use crate::splitting::split_all;
use c5_board::{Board, BoardPass};
use c5_io::Gate;
use c5_plan::Plan;
use c5_reads::rows_at;
use c5_rows::{Replies, Rows};
use c5_script::ReadBlock;
use c5_workers::Scheduler;
use std::alloc::Global;
use std::thread::Threads;

/// What a replay gives.
#[derive(Drop)]
pub struct Replayed {
    /// The replies to the read blocks, by ascending session, those of a session in the order of its
    /// blocks.
    pub replies: Replies,
    /// The rows after the whole log.
    pub rows: Rows,
    /// A pass of the board with all roles.
    pub pass: BoardPass,
}

// The greatest session that has a read, or 0.
fn last_session(reads: &[ReadBlock]) -> u32
    ensures few { result ≤ max_sessions }
    ensures all { HaveSessionsUpTo result reads.now }
{
    let mut last = 0;
    for read in reads {
        last = last.max(read.session());
    }
    last
}

/// Replays a log from these rows with so many workers, 1 to 16, and answers read blocks meanwhile,
/// each by the rows at a place that is visible then.
///
/// The scheduler, the snapshotter, the workers and the sessions up to the last that has a read run
/// in threads of their own if they can be made. Each passes the gate before each of its turns, which count from 1; a turn of a
/// session is one block. A worker or the snapshotter ends early if 1,000 turns in a row have
/// brought nothing; what is left then is done once all have ended.
///
/// `Rows` only if the log writes more than 65,536 rows; such a log is never replayed. Else only out
/// of memory is an error.
pub fn replay<G: Gate, R: Threads + Sync>(
    rt: &R,
    alloc: Global,
    plan: &Plan<'_>,
    workers: u32,
    start: &Rows,
    reads: &[ReadBlock],
    gate: &G,
) -> Result<Replayed, ReplayFault>
    requires workers { IsWorker max_workers workers }
    requires reads { length reads.now ≤ max_reads }
    ensures replayed { IfOk result
        (λ r. IsReplay plan.now start.now reads.now r.replies r.rows) }
    ensures pass { IfOk result
        (λ r. HasReplayed plan.now workers reads.now r.replies r.pass) }
    ensures rows { result ≡ Err faults.Rows → max_rows < row_count (names_in plan.now.txns) }
    ensures few { OnOk result (row_count (names_in plan.now.txns) ≤ max_rows) }
{
    let (board, pass) = Board::new(alloc, plan, workers)?;
    let scheduler = Scheduler::new(alloc, &board)?;
    let shared = Shared {
        board: &board,
        start,
        reads,
    };
    let sessions = last_session(reads);
    let (rest, parts) = split_all(alloc, &board, pass, scheduler, sessions)?;
    let ends = play_all(rt, alloc, shared, gate, parts)?;
    let mut joined = join_all(alloc, &shared, rest, ends, sessions)?;
    finish_all(
        &shared,
        &mut joined.pass,
        joined.workers.as_mut_slice(),
        &joined.replies,
    );
    let place = joined.pass.place();
    let rows = rows_at(alloc, &board, &mut joined.pass, start, place)?;
    Ok(Replayed {
        replies: joined.replies,
        rows,
        pass: joined.pass,
    })
}
