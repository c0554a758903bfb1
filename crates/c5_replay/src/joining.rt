//! The passes of the parts are joined once the parts have ended.

ghost use Rattle.std.specs.Prelude.{◌≡◌, ◌++◌, ◌-◌, ◌≤◌, ◌<◌, [], true, IfOk, OnOk, Err, drop};
ghost use Rattle.c5_rows.specs.Sizes.{max_rows, max_sessions};
ghost use Rattle.c5_definitions.specs.WriteNumbers.{names_in};
ghost use Rattle.c5_definitions.specs.WriteNumbers.{row_count};
ghost use Rattle.c5_board.specs.Boards.{names, write_count};
ghost use Rattle.c5_replay.specs.Joins.{IsJoined, HaveReplied, HaveWorked, AreAllJoined};
ghost use Rattle.c5_replay.specs.Parts.{IsPassWith, IsNextEnd, HaveEnded, HasEnded, all_roles};
ghost use Rattle.c5_replay.specs.Parts.{HaveSessionsUpTo, session_roles, worker_roles};
ghost use Rattle.c5_io.specs.declared.gate.Role.TheVariants as roles;
ghost use Rattle.c5_replay.specs.declared.fault.ReplayFault.TheVariants as faults;

use crate::fault::ReplayFault;
use crate::part::Part;
use crate::shared::Shared;
use c5_board::BoardPass;
use c5_io::Role;
use c5_rows::{NoMemory, Replies, Reply};
use c5_workers::{ScheduleEnd, Worker, schedule_all};
use std::alloc::Global;
use std::collections::VecDeque;

/// The ends of the parts that aren't joined yet, in order.
type Ends = VecDeque<Result<Part, NoMemory>>;

/// What the ends of all parts come to.
#[derive(Drop)]
pub struct Joined {
    pub pass: BoardPass,
    pub workers: Vec<Worker>,
    pub replies: Replies,
}

// The end of the next part, which has this role.
fn next_end(shared: &Shared<'_>, ends: &mut Ends, role: Role) -> Result<Part, NoMemory>
    requires next { IsNextEnd shared.now.board.now shared.now.start.now shared.now.reads.now role
        ends.old.items }
    ensures end { HasEnded shared.now.board.now shared.now.start.now shared.now.reads.now role
        result }
    ensures ends { ends.new.items ≡ drop 1 ends.old.items }
{
    match ends.pop_front() {
        Some(end) => end,
        None => unreachable!(),
    }
}

// Joins the scheduler's pass, after the rest of the log is scheduled.
fn join_scheduler(
    shared: &Shared<'_>,
    pass: BoardPass,
    ends: &mut Ends,
) -> Result<BoardPass, ReplayFault>
    requires pass { IsPassWith shared.now.board.now [] pass }
    requires next { IsNextEnd shared.now.board.now shared.now.start.now shared.now.reads.now
        roles.Scheduler ends.old.items }
    ensures ends { ends.new.items ≡ drop 1 ends.old.items }
    ensures pass { IfOk result (IsPassWith shared.now.board.now []) }
    ensures role { IfOk result (λ joined. joined.scheduler ≡ true) }
    ensures scheduled { IfOk result
        (λ joined. write_count shared.now.board.now ≤ joined.scheduled) }
    ensures few { OnOk result (row_count (names shared.now.board.now) ≤ max_rows) }
    ensures rows { result ≡ Err faults.Rows → max_rows < row_count (names shared.now.board.now) }
{
    match next_end(shared, ends, Role::Scheduler)? {
        Part::Scheduler {
            pass: mut own,
            mut scheduler,
        } => match schedule_all(shared.board, &mut own, &mut scheduler) {
            ScheduleEnd::Done => Ok(shared.board.join(pass, own)),
            ScheduleEnd::Rows => Err(ReplayFault::Rows),
        },
        _ => unreachable!(),
    }
}

// Joins the snapshotter's pass.
fn join_snapshot(
    shared: &Shared<'_>,
    pass: BoardPass,
    ends: &mut Ends,
) -> Result<BoardPass, NoMemory>
    requires pass { IsPassWith shared.now.board.now [] pass }
    requires next { IsNextEnd shared.now.board.now shared.now.start.now shared.now.reads.now
        roles.Snapshot ends.old.items }
    ensures ends { ends.new.items ≡ drop 1 ends.old.items }
    ensures pass { IfOk result (IsPassWith shared.now.board.now []) }
    ensures role { IfOk result (λ joined. joined.snapshot ≡ true) }
    ensures joined { IfOk result (IsJoined pass) }
{
    match next_end(shared, ends, Role::Snapshot)? {
        Part::Snapshot { pass: own } => Ok(shared.board.join(pass, own)),
        _ => unreachable!(),
    }
}

/// Adds replies at the end.
pub fn append(replies: &mut Replies, more: Vec<Reply>) -> Result<(), NoMemory>
    ensures { OnOk result (replies.new ≡ replies.old ++ more.items) }
{
    for reply in more {
        replies.push(reply)?;
    }
    Ok(())
}

// Joins the pass of the next session, and adds its replies.
fn join_session(
    shared: &Shared<'_>,
    pass: BoardPass,
    ends: &mut Ends,
    replies: &mut Replies,
    session: u32,
) -> Result<BoardPass, NoMemory>
    requires some { 1 ≤ session }
    requires pass { IsPassWith shared.now.board.now [] pass }
    requires next { IsNextEnd shared.now.board.now shared.now.start.now shared.now.reads.now
        (roles.Session session) ends.old.items }
    requires replied { HaveReplied pass shared.now.start.now shared.now.reads.now (session - 1)
        replies.old }
    ensures ends { ends.new.items ≡ drop 1 ends.old.items }
    ensures pass { IfOk result (IsPassWith shared.now.board.now []) }
    ensures joined { IfOk result (IsJoined pass) }
    ensures replied { IfOk result (λ joined. HaveReplied joined shared.now.start.now
        shared.now.reads.now session replies.new) }
{
    match next_end(shared, ends, Role::Session(session))? {
        Part::Session {
            pass: own,
            replies: more,
            ..
        } => {
            append(replies, more)?;
            Ok(shared.board.join(pass, own))
        }
        _ => unreachable!(),
    }
}

// Joins the passes of so many sessions. The replies are by ascending session.
fn join_sessions(
    shared: &Shared<'_>,
    mut pass: BoardPass,
    ends: &mut Ends,
    replies: &mut Replies,
    sessions: u32,
) -> Result<BoardPass, NoMemory>
    requires pass { IsPassWith shared.now.board.now [] pass }
    requires ends { HaveEnded shared.now.board.now shared.now.start.now shared.now.reads.now
        (session_roles sessions ++ worker_roles shared.now.board.now.workers) ends.old.items }
    requires none { replies.old ≡ [] }
    ensures ends { OnOk result (HaveEnded shared.now.board.now shared.now.start.now
        shared.now.reads.now (worker_roles shared.now.board.now.workers) ends.new.items) }
    ensures pass { IfOk result (IsPassWith shared.now.board.now []) }
    ensures joined { IfOk result (IsJoined pass) }
    ensures replied { IfOk result (λ joined. HaveReplied joined shared.now.start.now
        shared.now.reads.now sessions replies.new) }
{
    for before in 0..sessions {
        pass = join_session(shared, pass, ends, replies, before + 1)?;
    }
    Ok(pass)
}

// Joins the pass of the next worker, and adds it to the others.
fn join_worker(
    shared: &Shared<'_>,
    pass: BoardPass,
    ends: &mut Ends,
    workers: &mut Vec<Worker>,
    i: u32,
) -> Result<BoardPass, NoMemory>
    requires some { 1 ≤ i }
    requires worked { HaveWorked shared.now.board.now pass (i - 1) workers.old.items }
    requires next { IsNextEnd shared.now.board.now shared.now.start.now shared.now.reads.now
        (roles.Worker i) ends.old.items }
    ensures ends { ends.new.items ≡ drop 1 ends.old.items }
    ensures worked { IfOk result
        (λ joined. HaveWorked shared.now.board.now joined i workers.new.items) }
    ensures joined { IfOk result (IsJoined pass) }
{
    match next_end(shared, ends, Role::Worker(i))? {
        Part::Worker {
            pass: own,
            worker,
            ..
        } => {
            let _place = pass.place();
            let _own_place = own.place();
            workers.push(worker)?;
            Ok(shared.board.join(pass, own))
        }
        _ => unreachable!(),
    }
}

// Joins the passes of all workers, and lists these in order.
fn join_workers(
    alloc: Global,
    shared: &Shared<'_>,
    mut pass: BoardPass,
    ends: &mut Ends,
) -> Result<(BoardPass, Vec<Worker>), NoMemory>
    requires pass { IsPassWith shared.now.board.now [] pass }
    requires ends { HaveEnded shared.now.board.now shared.now.start.now shared.now.reads.now
        (worker_roles shared.now.board.now.workers) ends.old.items }
    ensures worked { IfOk result (λ joined. HaveWorked shared.now.board.now joined.0
        shared.now.board.now.workers joined.1.items) }
    ensures joined { IfOk result (λ joined. IsJoined pass joined.0) }
{
    let mut workers = Vec::with_capacity(alloc, shared.board.workers() as usize)?;
    for before in 0..shared.board.workers() {
        pass = join_worker(shared, pass, ends, &mut workers, before + 1)?;
    }
    Ok((pass, workers))
}

/// Joins the passes of all parts with the rest of the board's pass; so many sessions have parts,
/// and no read is of a later one. `Rows` if and only if the log writes too many rows.
pub fn join_all(
    alloc: Global,
    shared: &Shared<'_>,
    rest: BoardPass,
    ends: Vec<Result<Part, NoMemory>>,
    sessions: u32,
) -> Result<Joined, ReplayFault>
    requires rest { IsPassWith shared.now.board.now [] rest }
    requires few_sessions { sessions ≤ max_sessions }
    requires sessions { HaveSessionsUpTo sessions shared.now.reads.now }
    requires ends { HaveEnded shared.now.board.now shared.now.start.now shared.now.reads.now
        (all_roles sessions shared.now.board.now.workers) ends.items }
    ensures joined { IfOk result (λ joined. AreAllJoined shared.now.board.now shared.now.start.now
        shared.now.reads.now joined.pass joined.workers.items joined.replies) }
    ensures few { OnOk result (row_count (names shared.now.board.now) ≤ max_rows) }
    ensures rows { result ≡ Err faults.Rows → max_rows < row_count (names shared.now.board.now) }
{
    let mut ends = VecDeque::from_vec(ends);
    let mut replies = Replies::new(alloc);
    let pass = join_scheduler(shared, rest, &mut ends)?;
    let pass = join_snapshot(shared, pass, &mut ends)?;
    let pass = join_sessions(shared, pass, &mut ends, &mut replies, sessions)?;
    let (pass, workers) = join_workers(alloc, shared, pass, &mut ends)?;
    Ok(Joined {
        pass,
        workers,
        replies,
    })
}
