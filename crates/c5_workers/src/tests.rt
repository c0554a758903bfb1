ghost use Rattle.std.specs.Prelude.{◌≡◌, ◌≤◌, [], ◌∷◌, true, length, IfOk};
ghost use Rattle.c5_board.specs.Boards.{write_count};
ghost use Rattle.c5_workers.specs.Schedules.{FitsSchedule};
ghost use Rattle.c5_workers.specs.Work.{FitsWorker};

use super::*;
use c5_board::{Board, BoardPass};
use c5_chains::{At, find, value_at};
use c5_frames::{Decoder, LogBuffer};
use c5_plan::{Plan, plan};
use c5_rows::{Cell, Key, NoMemory, RowName};
use c5_snapshot::advance;
use std::alloc::Global;
use std::process::Abort;
use std::test::Fail;
use std::thread::{join, yield_now};

// The table `acct` of one Int column, and three transactions that put 1, 2 and 3 into its row `a`.
pub const ONE_ROW: &[u8] = b"C5L1\x01\x04acct\x01\x01\
    \0\0\0\x0dW\0\x01a\0\0\0\0\0\0\0\0\x01\
    \0\0\0\x11C\0\0\0\0\0\0\0\0\0\0\0\x01\0\0\0\x01\
    \0\0\0\x0dW\0\x01a\0\0\0\0\0\0\0\0\x02\
    \0\0\0\x11C\0\0\0\x01\0\0\0\0\0\0\0\x02\0\0\0\x01\
    \0\0\0\x0dW\0\x01a\0\0\0\0\0\0\0\0\x03\
    \0\0\0\x11C\0\0\0\x02\0\0\0\0\0\0\0\x03\0\0\0\x01\
    \0\0\0\x05E\0\0\0\x03";

// The same table, and two transactions that put 1 into `a` and 2 into `b`.
const TWO_ROWS: &[u8] = b"C5L1\x01\x04acct\x01\x01\
    \0\0\0\x0dW\0\x01a\0\0\0\0\0\0\0\0\x01\
    \0\0\0\x11C\0\0\0\0\0\0\0\0\0\0\0\x01\0\0\0\x01\
    \0\0\0\x0dW\0\x01b\0\0\0\0\0\0\0\0\x02\
    \0\0\0\x11C\0\0\0\x01\0\0\0\0\0\0\0\x02\0\0\0\x01\
    \0\0\0\x05E\0\0\0\x02";

pub fn log(alloc: Global, bytes: &[u8]) -> Result<LogBuffer, Fail>
    requires { length bytes.now ≤ 10000 }
{
    let mut decoder = Decoder::new(alloc);
    decoder.feed(bytes).ok().ok_or("no fault")?;
    Ok(decoder.finish().ok().ok_or("a log")?)
}

pub fn row_name(key: &[u8]) -> Result<RowName, Fail> {
    Ok(RowName {
        table: 0,
        key: Key::new(key)?,
    })
}

// A board of two workers with a log that is wholly scheduled.
pub fn scheduled<'p>(alloc: Global, plan: &'p Plan<'p>) -> Result<(Board<'p>, BoardPass), NoMemory>
    ensures board { IfOk result (λ made. made.1.board ≡ made.0) }
    ensures workers { IfOk result (λ made. made.0.workers ≡ 2) }
    ensures roles { IfOk result (λ made. made.1.roles ≡ 1 ∷ 2 ∷ []) }
    ensures installed { IfOk result (λ made. made.1.installed ≡ []) }
    ensures snapshot { IfOk result (λ made. made.1.snapshot ≡ true) }
    ensures scheduled { IfOk result (λ made. made.1.scheduled ≡ write_count made.0) }
{
    let (board, mut pass) = Board::new(alloc, plan, 2)?;
    let mut scheduler = Scheduler::new(alloc, &board)?;
    match schedule_all(&board, &mut pass, &mut scheduler) {
        ScheduleEnd::Done => Ok((board, pass)),
        ScheduleEnd::Rows => Err(NoMemory),
    }
}

// The passes of two workers, with these workers, and what is left.
#[derive(Drop)]
struct Parts {
    rest: BoardPass,
    first: BoardPass,
    one: Worker,
    second: BoardPass,
    two: Worker,
}

fn split(alloc: Global, board: &Board<'_>, pass: BoardPass) -> Result<Parts, NoMemory>
    requires pass { pass.board ≡ board.now }
    requires workers { board.now.workers ≡ 2 }
    requires roles { pass.roles ≡ 1 ∷ 2 ∷ [] }
    requires installed { pass.installed ≡ [] }
    ensures first { IfOk result (λ parts. parts.first.board ≡ board.now) }
    ensures one { IfOk result (λ parts. FitsWorker parts.one parts.first) }
    ensures second { IfOk result (λ parts. parts.second.board ≡ board.now) }
    ensures two { IfOk result (λ parts. FitsWorker parts.two parts.second) }
    ensures rest { IfOk result (λ parts. parts.rest.board ≡ board.now) }
    ensures snapshot { IfOk result (λ parts. parts.rest.snapshot ≡ pass.snapshot) }
{
    let one = Worker::new(alloc, 1, 2)?;
    let two = Worker::new(alloc, 2, 2)?;
    let (rest, first) = board.split_worker(pass, 1);
    let (rest, second) = board.split_worker(rest, 2);
    Ok(Parts {
        rest,
        first,
        one,
        second,
        two,
    })
}

fn turn(board: &Board<'_>, pass: &mut BoardPass, worker: &mut Worker) -> WorkTurn
    requires pass { pass.old.board ≡ board.now }
    requires fits { FitsWorker worker.old pass.old }
    ensures pass { pass.new.board ≡ board.now }
    ensures fits { FitsWorker worker.new pass.new }
{
    worker.turn(board, pass)
}

// All writes are installed by a pass that has installed none.
pub fn finished(
    alloc: Global,
    board: &Board<'_>,
    mut pass: BoardPass,
) -> Result<BoardPass, NoMemory>
    requires pass { pass.board ≡ board.now }
    requires workers { board.now.workers ≡ 2 }
    requires roles { pass.roles ≡ 1 ∷ 2 ∷ [] }
    requires installed { pass.installed ≡ [] }
    requires scheduled { pass.scheduled ≡ write_count board.now }
    ensures board { IfOk result (λ after. after.board ≡ board.now) }
    ensures snapshot { IfOk result (λ after. after.snapshot ≡ pass.snapshot) }
{
    let one = Worker::new(alloc, 1, 2)?;
    let two = Worker::new(alloc, 2, 2)?;
    let mut workers = [one, two];
    finish(board, &mut pass, workers.as_mut_slice());
    Ok(pass)
}

// The cell of the one column of a row after so many transactions, if the row is there.
pub fn cell_at(board: &Board<'_>, pass: &mut BoardPass, name: &RowName, place: u32) -> Option<Cell>
    requires pass { pass.old.board ≡ board.now }
    ensures pass { pass.new.board ≡ board.now }
{
    let row = find(board, pass, name)?;
    if place > pass.place() {
        return None;
    }
    match value_at(board, pass, row, place) {
        At::Put(row) => row.to_row().cells().first().copied(),
        _ => None,
    }
}

// The row of the first write, of which the pass has place 1: its cell at that place, and nothing of
// the log before it.
fn reads_first_row(rt: &impl Abort, board: &Board<'_>, pass: &mut BoardPass) -> Result<(), Fail>
    requires board { pass.old.board ≡ board.now }
    requires place { 1 ≤ pass.old.place }
{
    let name = row_name(b"a")?;
    let row = find(board, pass, &name).ok_or("a row")?;
    assert_eq!(rt; row, 1);
    let At::Put(put) = value_at(board, pass, row, 1) else {
        panic!(rt; "the first transaction put it")
    };
    assert!(rt; put.to_row().cells().first().copied() == Some(Cell::Int(1)));
    let At::Before = value_at(board, pass, row, 0) else {
        panic!(rt; "no write is before the first transaction")
    };
    Ok(())
}

#[test]
fn a_worker_tries_again_what_it_put_off(rt: HostRuntime) -> Result<(), Fail> {
    let log = log(rt.alloc(), ONE_ROW)?;
    let plan = plan(&log).ok().ok_or("a plan")?;
    let (board, pass) = scheduled(rt.alloc(), &plan)?;
    let Parts {
        mut rest,
        mut first,
        mut one,
        mut second,
        mut two,
    } = split(rt.alloc(), &board, pass)?;
    let none = WorkTurn::Did {
        installed: 0,
        put_off: 1,
    };
    let one_more = WorkTurn::Did {
        installed: 1,
        put_off: 0,
    };
    assert!(rt; turn(&board, &mut second, &mut two) == none);
    assert!(rt; turn(&board, &mut first, &mut one) == one_more);
    assert!(rt; turn(&board, &mut second, &mut two) == one_more);
    assert!(rt; turn(&board, &mut second, &mut two) == WorkTurn::Done);
    let advanced = advance(&board, &mut rest);
    assert!(rt; advanced.place == 2 && advanced.least == 3);
    reads_first_row(&rt, &board, &mut rest)
}

// The pass of worker 1 with its worker, and what is left, with the scheduler.
#[derive(Drop)]
struct Waiting {
    rest: BoardPass,
    scheduler: Scheduler,
    first: BoardPass,
    one: Worker,
}

fn split_first(alloc: Global, board: &Board<'_>, pass: BoardPass) -> Result<Waiting, NoMemory>
    requires pass { pass.board ≡ board.now }
    requires workers { board.now.workers ≡ 2 }
    requires roles { pass.roles ≡ 1 ∷ 2 ∷ [] }
    requires installed { pass.installed ≡ [] }
    requires scheduler { pass.scheduler ≡ true }
    requires none { (pass.scheduled ≡ 0) × (pass.written ≡ 0) × (pass.indexed ≡ 0) }
    ensures first { IfOk result (λ parts. parts.first.board ≡ board.now) }
    ensures one { IfOk result (λ parts. FitsWorker parts.one parts.first) }
    ensures rest { IfOk result (λ parts. parts.rest.board ≡ board.now) }
    ensures scheduler { IfOk result (λ parts. FitsSchedule parts.scheduler parts.rest) }
{
    let one = Worker::new(alloc, 1, 2)?;
    let scheduler = Scheduler::new(alloc, board)?;
    let (rest, first) = board.split_worker(pass, 1);
    Ok(Waiting {
        rest,
        scheduler,
        first,
        one,
    })
}

#[test]
fn a_worker_waits_for_the_scheduler(rt: HostRuntime) -> Result<(), Fail> {
    let log = log(rt.alloc(), ONE_ROW)?;
    let plan = plan(&log).ok().ok_or("a plan")?;
    let (board, pass) = Board::new(rt.alloc(), &plan, 2)?;
    let mut parts = split_first(rt.alloc(), &board, pass)?;
    let waits = WorkTurn::NotYet { scheduled: 0 };
    assert!(rt; turn(&board, &mut parts.first, &mut parts.one) == waits);
    let scheduled = parts.scheduler.turn(&board, &mut parts.rest);
    assert!(rt; scheduled == ScheduleTurn::Did { w: 1 });
    let installs = WorkTurn::Did {
        installed: 1,
        put_off: 0,
    };
    assert!(rt; turn(&board, &mut parts.first, &mut parts.one) == installs);
    Ok(())
}

#[test]
fn a_row_is_read_at_its_place(rt: HostRuntime) -> Result<(), Fail> {
    let log = log(rt.alloc(), ONE_ROW)?;
    let plan = plan(&log).ok().ok_or("a plan")?;
    let (board, pass) = scheduled(rt.alloc(), &plan)?;
    let mut pass = finished(rt.alloc(), &board, pass)?;
    let name = row_name(b"a")?;
    let advanced = advance(&board, &mut pass);
    assert!(rt; advanced.place == 3 && advanced.least == 4);
    assert!(rt; cell_at(&board, &mut pass, &name, 0).is_none());
    assert!(rt; cell_at(&board, &mut pass, &name, 2) == Some(Cell::Int(2)));
    Ok(())
}

#[test]
fn a_row_is_found_once_it_is_scheduled(rt: HostRuntime) -> Result<(), Fail> {
    let log = log(rt.alloc(), TWO_ROWS)?;
    let plan = plan(&log).ok().ok_or("a plan")?;
    let name = row_name(b"b")?;
    let (board, mut pass) = Board::new(rt.alloc(), &plan, 1)?;
    assert!(rt; find(&board, &mut pass, &name).is_none());
    let (board, mut pass) = scheduled(rt.alloc(), &plan)?;
    assert!(rt; find(&board, &mut pass, &name) == Some(2));
    let other = row_name(b"c")?;
    assert!(rt; find(&board, &mut pass, &other).is_none());
    Ok(())
}

// Makes turns until the worker is done, or gives up after many of them. How many writes it
// installed.
fn work(board: &Board<'_>, mut pass: BoardPass, mut worker: Worker) -> u32
    requires pass { pass.board ≡ board.now }
    requires fits { FitsWorker worker pass }
{
    let mut all = 0u32;
    for _ in 0..1_000_000u32 {
        match turn(board, &mut pass, &mut worker) {
            WorkTurn::Did { installed, .. } => all = all.saturating_add(installed),
            WorkTurn::NotYet { .. } => {}
            WorkTurn::Done => break,
        }
        yield_now();
    }
    all
}

#[test]
fn two_threads_install_a_row(rt: HostRuntime) -> Result<(), Fail> {
    let log = log(rt.alloc(), ONE_ROW)?;
    let plan = plan(&log).ok().ok_or("a plan")?;
    let (board, pass) = scheduled(rt.alloc(), &plan)?;
    let Parts {
        mut rest,
        first,
        one,
        second,
        two,
    } = split(rt.alloc(), &board, pass)?;
    let shared = &board;
    let (a, b) = join(
        &rt,
        move || -> u32
            requires pass { first.board ≡ shared.now }
            requires fits { FitsWorker one first }
        { work(shared, first, one) },
        move || -> u32
            requires pass { second.board ≡ shared.now }
            requires fits { FitsWorker two second }
        { work(shared, second, two) },
    );
    assert!(rt; a == 2 && b == 1);
    assert!(rt; advance(&board, &mut rest).place == 3);
    Ok(())
}
