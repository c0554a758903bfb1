//! Decodes a generated log of 262,144 writes to 65,536 rows, schedules and installs them on one
//! thread and makes them visible, and prints the counts. Each word on its command line leaves out
//! a last part: one stops it once the board is made, two once the log is decoded, three once the
//! log is generated.
#![tactic(auto)]

mod generated;

ghost use Rattle.std.specs.Prelude.{◌≡◌, [], ◌∷◌, true, IfOk, OnOk};
ghost use Rattle.c5_board.specs.Boards.{write_count};
ghost use Rattle.c5_board.specs.First.{first_pass};

use c5_board::{Board, BoardPass};
use c5_frames::{Decoder, LogBuffer};
use c5_plan::{Plan, plan};
use c5_rows::{MAX_LOG_BYTES, NoMemory};
use c5_snapshot::advance;
use c5_workers::{ScheduleEnd, Scheduler, Worker, finish, schedule_all};
use generated::generated_log;
use std::alloc::Global;
use std::rt::Env;
use std::{env, io};

// How many of the last parts are left out: the number of words after the program's name.
fn parts_left_out<R: Env + AllocGlobal>(rt: &R) -> io::Result<usize> {
    Ok(env::args(rt)?.len().saturating_sub(1))
}

// `None` if it isn't a log, or out of memory.
fn decoded(alloc: Global, bytes: &[u8]) -> Option<LogBuffer> {
    if bytes.len() > MAX_LOG_BYTES {
        return None;
    }
    let mut decoder = Decoder::new(alloc);
    decoder.feed(bytes).ok()?;
    decoder.finish().ok()
}

// Schedules the whole log. Whether its rows are few enough.
fn scheduled(alloc: Global, board: &Board<'_>, pass: &mut BoardPass) -> Result<bool, NoMemory>
    requires pass { pass.old ≡ first_pass board.now }
    ensures board { IfOk result (λ all. pass.new.board ≡ board.now) }
    ensures roles { IfOk result (λ all. pass.new.roles ≡ pass.old.roles) }
    ensures installed { IfOk result (λ all. pass.new.installed ≡ []) }
    ensures snapshot { IfOk result (λ all. pass.new.snapshot ≡ true) }
    ensures scheduled { IfOk result
        (λ all. all ≡ true → pass.new.scheduled ≡ write_count board.now) }
{
    let mut scheduler = Scheduler::new(alloc, board)?;
    match schedule_all(board, pass, &mut scheduler) {
        ScheduleEnd::Done => Ok(true),
        ScheduleEnd::Rows => Ok(false),
    }
}

// Installs all writes by a pass that has installed none, for two workers.
fn installed(alloc: Global, board: &Board<'_>, pass: &mut BoardPass) -> Result<(), NoMemory>
    requires pass { pass.old.board ≡ board.now }
    requires workers { board.now.workers ≡ 2 }
    requires roles { pass.old.roles ≡ 1 ∷ 2 ∷ [] }
    requires installed { pass.old.installed ≡ [] }
    requires scheduled { pass.old.scheduled ≡ write_count board.now }
    ensures board { OnOk result (pass.new.board ≡ board.now) }
    ensures snapshot { OnOk result (pass.new.snapshot ≡ pass.old.snapshot) }
{
    let one = Worker::new(alloc, 1, 2)?;
    let two = Worker::new(alloc, 2, 2)?;
    let mut workers = [one, two];
    finish(board, pass, workers.as_mut_slice());
    Ok(())
}

// The place that is visible once all writes of the log are installed; 0 if it has too many rows,
// or if the board is only made.
fn visible_place(alloc: Global, plan: &Plan<'_>, only_made: bool) -> Result<u32, NoMemory> {
    let (board, mut pass) = Board::new(alloc, plan, 2)?;
    if only_made {
        return Ok(0);
    }
    if !scheduled(alloc, &board, &mut pass)? {
        return Ok(0);
    }
    installed(alloc, &board, &mut pass)?;
    Ok(advance(&board, &mut pass).place)
}

fn main(rt: HostRuntime) -> io::Result<()> {
    let left_out = parts_left_out(&rt)?;
    let Ok(bytes) = generated_log(rt.alloc()) else {
        return println!(rt; "no memory");
    };
    if left_out > 2 {
        return println!(rt; "{} bytes", bytes.len());
    }
    let Some(log) = decoded(rt.alloc(), bytes.as_slice()) else {
        return println!(rt; "no log");
    };
    println!(rt;
        "{} transactions, {} writes",
        log.transactions(),
        log.writes()
    )?;
    if left_out > 1 {
        return Ok(());
    }
    let Ok(plan) = plan(&log) else {
        return println!(rt; "no plan");
    };
    match visible_place(rt.alloc(), &plan, left_out > 0) {
        Ok(place) => println!(rt; "{place} transactions are visible"),
        Err(NoMemory) => println!(rt; "no memory"),
    }
}
