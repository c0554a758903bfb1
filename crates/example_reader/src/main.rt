//! Installs a log by a scheduler, two workers and a snapshot, each on a thread of its own, while
//! the main thread reads a row; prints the row at the end.
#![tactic(auto)]

ghost use Rattle.std.specs.Prelude.{◌≡◌, ◌≤◌, true, length, IfOk};
ghost use Rattle.std.specs.List.{AllByRecursion};
ghost use Rattle.c5_rows.specs.Sizes.{max_log_bytes};
ghost use Rattle.c5_workers.specs.Work.{FitsWorker};
ghost use Rattle.example_reader.specs.Jobs.{IsJob, IsNewSchedule, IsNewWork, last_reply};

use c5_board::{Board, BoardPass};
use c5_frames::{Decoder, LogBuffer};
use c5_plan::plan;
use c5_reads::ReadSession;
use c5_rows::{AnswerLine, Cell, Key, NoMemory, Reply, RowName, Rows};
use c5_script::{ReadBlock, ReadLine};
use c5_snapshot::advance;
use c5_workers::{Scheduler, WorkTurn, Worker, schedule_all};
use std::alloc::Global;
use std::sync::Wait;
use std::thread::Threads;
use std::{io, thread};

// The log of examples/transfers.c5s: three accounts, and transfers between them.
const LOG: [u8; 239] = [
    0x43, 0x35, 0x4c, 0x31, // C5L1
    0x01, 0x04, 0x61, 0x63, 0x63, 0x74, 0x01, 0x01, // one table, acct, of one Int column
    0x00, 0x00, 0x00, 0x11, 0x57, 0x00, 0x05, 0x61, 0x6c, 0x69, 0x63, 0x65, 0x00, // put alice
    0x00, 0x00, 0x00, 0x00, 0x00, 0x00, 0x00, 0x64, // 100
    0x00, 0x00, 0x00, 0x0f, 0x57, 0x00, 0x03, 0x62, 0x6f, 0x62, 0x00, // put bob
    0x00, 0x00, 0x00, 0x00, 0x00, 0x00, 0x00, 0x14, // 20
    0x00, 0x00, 0x00, 0x11, 0x57, 0x00, 0x05, 0x63, 0x61, 0x72, 0x6f, 0x6c, 0x00, // put carol
    0x00, 0x00, 0x00, 0x00, 0x00, 0x00, 0x00, 0x00, // 0
    0x00, 0x00, 0x00, 0x11, 0x43, 0x00, 0x00, 0x00, 0x00, // commit mark, script number 0
    0x00, 0x00, 0x00, 0x00, 0x00, 0x00, 0x00, 0x01, // stamp 1
    0x00, 0x00, 0x00, 0x03, // 3 writes
    0x00, 0x00, 0x00, 0x11, 0x57, 0x00, 0x05, 0x61, 0x6c, 0x69, 0x63, 0x65, 0x00, // put alice
    0x00, 0x00, 0x00, 0x00, 0x00, 0x00, 0x00, 0x46, // 70
    0x00, 0x00, 0x00, 0x0f, 0x57, 0x00, 0x03, 0x62, 0x6f, 0x62, 0x00, // put bob
    0x00, 0x00, 0x00, 0x00, 0x00, 0x00, 0x00, 0x32, // 50
    0x00, 0x00, 0x00, 0x11, 0x43, 0x00, 0x00, 0x00, 0x01, // commit mark, script number 1
    0x00, 0x00, 0x00, 0x00, 0x00, 0x00, 0x00, 0x02, // stamp 2
    0x00, 0x00, 0x00, 0x02, // 2 writes
    0x00, 0x00, 0x00, 0x11, 0x43, 0x00, 0x00, 0x00, 0x02, // commit mark, script number 2
    0x00, 0x00, 0x00, 0x00, 0x00, 0x00, 0x00, 0x03, // stamp 3
    0x00, 0x00, 0x00, 0x00, // 0 writes
    0x00, 0x00, 0x00, 0x09, 0x57, 0x00, 0x05, 0x63, 0x61, 0x72, 0x6f, 0x6c, 0x01, // carol is gone
    0x00, 0x00, 0x00, 0x10, 0x57, 0x00, 0x04, 0x64, 0x6f, 0x72, 0x61, 0x00, // put dora
    0x00, 0x00, 0x00, 0x00, 0x00, 0x00, 0x00, 0x32, // 50
    0x00, 0x00, 0x00, 0x11, 0x43, 0x00, 0x00, 0x00, 0x03, // commit mark, script number 3
    0x00, 0x00, 0x00, 0x00, 0x00, 0x00, 0x00, 0x04, // stamp 4
    0x00, 0x00, 0x00, 0x02, // 2 writes
    0x00, 0x00, 0x00, 0x05, 0x45, 0x00, 0x00, 0x00, 0x04, // end mark, 4 transactions
];

/// What a thread does, with the pass that it needs.
#[derive(Drop)]
pub enum Job {
    /// Schedules the writes.
    Schedule {
        scheduler: Scheduler,
        pass: BoardPass,
    },
    /// Installs the writes of one worker.
    Install {
        worker: Worker,
        pass: BoardPass,
    },
    /// Makes transactions visible.
    Show {
        pass: BoardPass,
    },
}

// Installs the writes of a worker, until none is left.
fn install<W: Wait>(rt: &W, board: &Board<'_>, pass: &mut BoardPass, worker: &mut Worker)
    requires pass { pass.old.board ≡ board.now }
    requires fits { FitsWorker worker.old pass.old }
{
    for _ in rt.forever() {
        match worker.turn(board, pass) {
            WorkTurn::Done => return,
            WorkTurn::Did { .. } | WorkTurn::NotYet { .. } => {}
        }
    }
}

// Makes transactions visible, until all are.
fn show<W: Wait>(rt: &W, board: &Board<'_>, pass: &mut BoardPass)
    requires pass { pass.old.board ≡ board.now }
    requires role { pass.old.snapshot ≡ true }
{
    let all = board.plan().log().transactions();
    for _ in rt.forever() {
        if advance(board, pass).place == all {
            return;
        }
    }
}

// Does a job.
fn run<W: Wait>(rt: &W, board: &Board<'_>, job: Job)
    requires { IsJob board.now job }
{
    match job {
        Job::Schedule {
            mut scheduler,
            mut pass,
        } => {
            schedule_all(board, &mut pass, &mut scheduler);
        }
        Job::Install {
            mut worker,
            mut pass,
        } => install(rt, board, &mut pass, &mut worker),
        Job::Show { mut pass } => show(rt, board, &mut pass),
    }
}

// Does the jobs, each on a thread of its own.
fn run_all<R: Threads + Wait + Sync>(
    rt: &R,
    board: &Board<'_>,
    jobs: Vec<Job>,
) -> Result<(), NoMemory>
    requires { AllByRecursion (IsJob board.now) jobs.items }
{
    thread::map_vec(
        rt,
        jobs,
        &move |job: Job| -> ()
            requires { IsJob board.now job }
        { run(rt, board, job) },
    )?;
    Ok(())
}

// Reads until all transactions are visible, and returns the last reply.
fn read_to_end<W: Wait>(
    rt: &W,
    alloc: Global,
    board: &Board<'_>,
    pass: BoardPass,
    read: &ReadBlock,
) -> Result<Reply, NoMemory>
    requires { pass.board ≡ board.now }
    ensures { IfOk result (λ reply. reply ≡ last_reply board.now.log read.now) }
{
    let all = board.plan().log().transactions();
    let start = Rows::new(alloc);
    let mut session = ReadSession::new(read.session(), &start);
    let mut pass = pass;
    for _ in rt.forever() {
        let view = session.begin(board, &mut pass);
        let reply = session.answer(alloc, board, &mut pass, &view, read)?;
        if view.place == all {
            return Ok(reply);
        }
    }
    unreachable!()
}

// The log of these bytes; `None` if they aren't a log, or if memory runs out.
fn decode(alloc: Global, bytes: &[u8]) -> Option<LogBuffer>
    requires { length bytes.now ≤ max_log_bytes }
{
    let mut decoder = Decoder::new(alloc);
    match decoder.feed(bytes) {
        Ok(()) => {}
        Err(_) => return None,
    }
    match decoder.finish() {
        Ok(log) => Some(log),
        Err(_) => None,
    }
}

// The question for one row of the first table, by session 1.
fn question(alloc: Global, key: &[u8]) -> Option<ReadBlock> {
    let Ok(key) = Key::new(key) else {
        return None;
    };
    let name = RowName { table: 0, key };
    match ReadBlock::new(alloc, 1, ReadLine::OneRow { name }) {
        Ok(read) => Some(read),
        Err(_) => None,
    }
}

// Installs the log while the row is read; returns the last reply.
fn read_while_installing<R: Threads + Wait + Sync>(
    rt: &R,
    alloc: Global,
    log: &LogBuffer,
    read: &ReadBlock,
) -> Option<Reply> {
    let Ok(plan) = plan(log) else {
        return None;
    };
    let Ok((board, pass)) = Board::new(alloc, &plan, 2) else {
        return None;
    };
    let (pass, first) = board.split_worker(pass, 1);
    let (pass, second) = board.split_worker(pass, 2);
    let (pass, show) = board.split_snapshot(pass);
    let (reader, schedule) = board.split_scheduler(pass);
    let Ok(jobs) = jobs_of(alloc, &board, schedule, first, second, show) else {
        return None;
    };
    let shared = &board;
    let installing = move || -> Result<(), NoMemory>
        requires { AllByRecursion (IsJob shared.now) jobs.items }
    { run_all(rt, shared, jobs) };
    let reading = move || -> Result<Reply, NoMemory>
        requires { reader.board ≡ shared.now }
    { read_to_end(rt, alloc, shared, reader, read) };
    let (done, reply) = thread::join(rt, installing, reading);
    match (done, reply) {
        (Ok(()), Ok(reply)) => Some(reply),
        _ => None,
    }
}

// The jobs of the scheduler, both workers and the snapshot, with these passes.
fn jobs_of(
    alloc: Global,
    board: &Board<'_>,
    schedule: BoardPass,
    first: BoardPass,
    second: BoardPass,
    show: BoardPass,
) -> Result<Vec<Job>, NoMemory>
    requires workers { board.now.workers ≡ 2 }
    requires schedule { IsNewSchedule board.now schedule }
    requires first { IsNewWork board.now 1 first }
    requires second { IsNewWork board.now 2 second }
    requires show { (show.board ≡ board.now) × (show.snapshot ≡ true) }
    ensures { IfOk result (λ jobs. AllByRecursion (IsJob board.now) jobs.items) }
{
    let mut jobs = Vec::with_capacity(alloc, 4)?;
    jobs.push(Job::Schedule {
        scheduler: Scheduler::new(alloc, board)?,
        pass: schedule,
    })?;
    jobs.push(Job::Install {
        worker: Worker::new(alloc, 1, 2)?,
        pass: first,
    })?;
    jobs.push(Job::Install {
        worker: Worker::new(alloc, 2, 2)?,
        pass: second,
    })?;
    jobs.push(Job::Show { pass: show })?;
    Ok(jobs)
}

// The number in the first column of the row that the reply found.
fn number_of(reply: &Reply) -> Option<i64> {
    match reply.answer.as_slice().first() {
        Some(AnswerLine::Found { row, .. }) => match row.cells().first() {
            Some(Cell::Int(n)) => Some(*n),
            _ => None,
        },
        _ => None,
    }
}

fn main(rt: HostRuntime) -> io::Result<()> {
    let alloc = rt.alloc();
    let Some(log) = decode(alloc, LOG.as_slice()) else {
        return println!(rt; "no log");
    };
    let Some(read) = question(alloc, b"alice") else {
        return println!(rt; "no memory");
    };
    let Some(reply) = read_while_installing(&rt, alloc, &log, &read) else {
        return println!(rt; "no reply");
    };
    match number_of(&reply) {
        Some(n) => println!(rt; "alice has {n} after {} transactions", reply.place),
        None => println!(rt; "no row"),
    }
}
