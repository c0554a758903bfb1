//! The words of a schedule.

ghost use Rattle.std.specs.Prelude.{◌≡◌, ◌<◌, OnOk, length, true};
ghost use Rattle.c5_board.specs.Boards.{names, write_count};
ghost use Rattle.c5_definitions.specs.Turns.{after_session, after_visible, after_word, after_words};
ghost use Rattle.c5_definitions.specs.Turns.{after_worker_turn, is_all_done};
ghost use Rattle.c5_workers.specs.Finishing.{AreWorkersOf};
ghost use Rattle.c5_replay.specs.Mirrors.{put_offs};
ghost use Rattle.c5_replay.specs.TurnStates.{AreSessions, FitsTurns, TakesReadAt, TakesTurnAt};
ghost use Rattle.c5_replay.specs.TurnStates.{machine_of};

use crate::session_turns::{SessionTurns, take_next};
use crate::shared::Shared;
use c5_board::{Board, BoardPass};
use c5_definitions::{TurnWord, number_law};
use c5_rows::{MAX_SESSIONS, NoMemory};
use c5_snapshot::advance;
use c5_workers::{WorkTurn, Worker};
use std::alloc::Global;

/// The state of a replay by a schedule.
#[derive(Drop)]
pub struct Turning {
    /// A pass of the board with all roles.
    pub pass: BoardPass,
    /// The workers, worker 1 first.
    pub workers: Vec<Worker>,
    /// The sessions, session 1 first.
    pub sessions: Vec<SessionTurns>,
    /// How many writes were put off.
    pub put_off: u64,
}

// How many writes a turn put off.
fn put_offs(turn: WorkTurn) -> u32
    ensures { result ≡ put_offs turn }
{
    match turn {
        WorkTurn::Did { put_off, .. } => put_off,
        WorkTurn::NotYet { .. } => 0,
        WorkTurn::Done => 0,
    }
}

// The worker at a place takes a turn.
fn turn_at(
    board: &Board<'_>,
    pass: &mut BoardPass,
    workers: &mut [Worker],
    place: usize,
) -> WorkTurn
    requires pass { pass.old.board ≡ board.now }
    requires workers { AreWorkersOf pass.old workers.old }
    requires place { place < length workers.old }
    ensures { TakesTurnAt pass.old pass.new workers.old workers.new place result }
{
    let turn = workers[place].turn(board, pass);
    let _place = pass.place();
    turn
}

/// Worker i takes a turn, if there is such a worker.
pub fn take_worker_turn(shared: &Shared<'_>, turning: &mut Turning, i: u32)
    requires fits { FitsTurns shared.now.board.now shared.now.start.now shared.now.reads.now
        turning.old }
    ensures fits { FitsTurns shared.now.board.now shared.now.start.now shared.now.reads.now
        turning.new }
    ensures machine { machine_of turning.new
        ≡ after_worker_turn (names shared.now.board.now) (machine_of turning.old) i }
{
    if i == 0 {
        return;
    }
    if i > shared.board.workers() {
        return;
    }
    number_law();
    let _writes = shared.board.writes();
    let did = turn_at(
        shared.board,
        &mut turning.pass,
        turning.workers.as_mut_slice(),
        (i - 1) as usize,
    );
    turning.put_off += put_offs(did) as u64;
}

/// The visible place advances. Returns whether each write is installed: then, and only then, it is
/// the last place.
pub fn take_visible_turn(shared: &Shared<'_>, turning: &mut Turning) -> bool
    requires fits { FitsTurns shared.now.board.now shared.now.start.now shared.now.reads.now
        turning.old }
    ensures fits { FitsTurns shared.now.board.now shared.now.start.now shared.now.reads.now
        turning.new }
    ensures machine { machine_of turning.new
        ≡ after_visible shared.now.board.now.log.txns (machine_of turning.old) }
    ensures all { result ≡ is_all_done (write_count shared.now.board.now)
        turning.new.pass.installed }
    ensures last { result ≡ true
        → turning.new.pass.place ≡ length shared.now.board.now.log.txns }
{
    number_law();
    let _workers = shared.board.workers();
    let _place = turning.pass.place();
    advance(shared.board, &mut turning.pass);
    turning.pass.place() == shared.board.plan().log().transactions()
}

// The session at a place takes its next read, if one is left.
fn read_at(
    alloc: Global,
    shared: &Shared<'_>,
    pass: &mut BoardPass,
    sessions: &mut [SessionTurns],
    place: usize,
) -> Result<(), NoMemory>
    requires pass { pass.old.board ≡ shared.now.board.now }
    requires role { pass.old.snapshot ≡ true }
    requires sessions { AreSessions pass.old shared.now.start.now shared.now.reads.now 0
        sessions.old }
    requires place { place < length sessions.old }
    ensures { OnOk result (TakesReadAt pass.old pass.new shared.now.start.now
        shared.now.reads.now sessions.old sessions.new place) }
{
    take_next(alloc, shared, pass, &mut sessions[place])?;
    Ok(())
}

/// The session's next read, if there is such a session and one is left, is taken at the visible
/// place.
pub fn take_session_turn(
    alloc: Global,
    shared: &Shared<'_>,
    turning: &mut Turning,
    session: u32,
) -> Result<(), NoMemory>
    requires fits { FitsTurns shared.now.board.now shared.now.start.now shared.now.reads.now
        turning.old }
    ensures fits { OnOk result (FitsTurns shared.now.board.now shared.now.start.now
        shared.now.reads.now turning.new) }
    ensures machine { OnOk result (machine_of turning.new
        ≡ after_session shared.now.reads.now (machine_of turning.old) session) }
{
    if session == 0 {
        return Ok(());
    }
    if session > MAX_SESSIONS {
        return Ok(());
    }
    read_at(
        alloc,
        shared,
        &mut turning.pass,
        turning.sessions.as_mut_slice(),
        (session - 1) as usize,
    )?;
    Ok(())
}

// Takes one word.
fn take_word(
    alloc: Global,
    shared: &Shared<'_>,
    turning: &mut Turning,
    word: TurnWord,
) -> Result<(), NoMemory>
    requires fits { FitsTurns shared.now.board.now shared.now.start.now shared.now.reads.now
        turning.old }
    ensures fits { OnOk result (FitsTurns shared.now.board.now shared.now.start.now
        shared.now.reads.now turning.new) }
    ensures machine { OnOk result (machine_of turning.new ≡ after_word
        shared.now.board.now.log.txns shared.now.reads.now (machine_of turning.old) word) }
{
    match word {
        TurnWord::Worker(i) => {
            take_worker_turn(shared, turning, i);
            Ok(())
        }
        TurnWord::Visible => {
            take_visible_turn(shared, turning);
            Ok(())
        }
        TurnWord::Session(session) => take_session_turn(alloc, shared, turning, session),
    }
}

/// Takes the words of a schedule, in order.
pub fn take_words(
    alloc: Global,
    shared: &Shared<'_>,
    turning: &mut Turning,
    turns: &[TurnWord],
) -> Result<(), NoMemory>
    requires fits { FitsTurns shared.now.board.now shared.now.start.now shared.now.reads.now
        turning.old }
    ensures fits { OnOk result (FitsTurns shared.now.board.now shared.now.start.now
        shared.now.reads.now turning.new) }
    ensures machine { OnOk result (machine_of turning.new ≡ after_words
        shared.now.board.now.log.txns shared.now.reads.now (machine_of turning.old) turns.now) }
{
    for word in turns {
        take_word(alloc, shared, turning, *word)?;
    }
    Ok(())
}
