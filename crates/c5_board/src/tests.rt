ghost use Rattle.std.specs.Prelude.{◌≡◌, ◌≤◌, ◌<◌, [], ◌∷◌, true, false, length, IfOk};
ghost use Rattle.c5_rows.specs.Numbers.{is_among};
ghost use Rattle.c5_board.specs.Boards.{write_count};

use super::*;
use c5_frames::{Decoder, LogBuffer};
use c5_plan::plan;
use std::alloc::Global;
use std::test::Fail;

// The table `acct` of one Int column, and one transaction that puts 10 into its row `a`.
const ONE: [u8; 59] = [
    0x43, 0x35, 0x4c, 0x31, 0x01, 0x04, 0x61, 0x63, 0x63, 0x74, 0x01, 0x01, //
    0x00, 0x00, 0x00, 0x0d, 0x57, 0x00, 0x01, 0x61, 0x00, 0x00, 0x00, 0x00, 0x00, 0x00, 0x00, 0x00,
    0x0a, //
    0x00, 0x00, 0x00, 0x11, 0x43, 0x00, 0x00, 0x00, 0x00, 0x00, 0x00, 0x00, 0x00, 0x00, 0x00, 0x00,
    0x01, 0x00, 0x00, 0x00, 0x01, //
    0x00, 0x00, 0x00, 0x05, 0x45, 0x00, 0x00, 0x00, 0x01,
];

fn one_log(alloc: Global) -> Result<LogBuffer, Fail> {
    let mut decoder = Decoder::new(alloc);
    match decoder.feed(ONE.as_slice()) {
        Ok(()) => {}
        Err(_) => return Err(Fail::from("the decoder refused the log")),
    }
    match decoder.finish() {
        Ok(log) => Ok(log),
        Err(_) => Err(Fail::from("a log")),
    }
}

// Schedules write 1: its slot, its record, and then the scheduled word.
fn schedule_first(board: &Board<'_>, pass: &mut BoardPass)
    requires pass { pass.old.board ≡ board.now }
    requires role { pass.old.scheduler ≡ true }
    requires scheduled { pass.old.scheduled ≡ 0 }
    requires written { pass.old.written ≡ 0 }
    requires indexed { pass.old.indexed ≡ 0 }
    requires some { 1 ≤ write_count board.now }
    ensures { pass.new ≡ record pass.old { scheduled = 1; written = 1; indexed = 1 } }
{
    let name = board.plan().log().write(1).name();
    let slot = board.start(&name);
    board.store_bucket(pass, slot, 1);
    board.store_record(
        pass,
        1,
        Record {
            row: 1,
            predecessor: 0,
        },
    );
    board.store_scheduled(pass, 1);
}

// Installs write 1, if it is scheduled, and stores the progress of the one worker.
fn install_first(board: &Board<'_>, pass: &mut BoardPass) -> bool
    requires pass { pass.old.board ≡ board.now }
    requires one { board.now.workers ≡ 1 }
    requires role { is_among 1 pass.old.roles ≡ true }
    requires none { pass.old.installed ≡ [] }
    ensures board { pass.new.board ≡ board.now }
{
    if board.load_scheduled(pass) < 1 {
        return false;
    }
    let link = board.load_record(pass, 1);
    match board.exchange_head(pass, 1, link) {
        Ok(()) => {
            board.store_progress(pass, 1, 2);
            true
        }
        Err(_) => false,
    }
}

// Makes the first transaction visible, if the one worker's progress is above its one write.
fn show_first(board: &Board<'_>, pass: &mut BoardPass) -> bool
    requires pass { pass.old.board ≡ board.now }
    requires one { board.now.workers ≡ 1 }
    requires role { pass.old.snapshot ≡ true }
    requires some { 1 ≤ length board.now.log.txns }
    requires few { write_count board.now ≤ 1 }
    requires place { pass.old.place ≤ 1 }
    ensures board { pass.new.board ≡ board.now }
{
    let progress = board.load_progress(pass, 1);
    if progress < 2 {
        return false;
    }
    board.store_visible(pass, 1);
    true
}

// What a reader finds of the first row: the visible place, the bucket of its name, and its head.
fn read_first(board: &Board<'_>, pass: &mut BoardPass) -> (u32, u32, u32)
    requires pass { pass.old.board ≡ board.now }
    requires some { 1 ≤ write_count board.now }
    ensures board { pass.new.board ≡ board.now }
{
    let name = board.plan().log().write(1).name();
    let place = board.load_visible(pass);
    let first = board.load_bucket(pass, board.start(&name));
    let head = board.load_head(pass, 1);
    (place, first, head)
}

#[test]
fn a_write_is_scheduled_installed_and_visible(rt: HostRuntime) -> Result<(), Fail> {
    let log = one_log(rt.alloc())?;
    let Ok(plan) = plan(&log) else {
        return Err(Fail::from("within its limits"));
    };
    let (board, pass) = Board::new(rt.alloc(), &plan, 1)?;
    assert_eq!(rt; board.plan().log().transactions(), 1);
    assert_eq!(rt; board.writes(), 1);
    assert_eq!(rt; board.workers(), 1);
    assert_eq!(rt; board.buckets(), 2);
    let (pass, mut scheduler) = board.split_scheduler(pass);
    let (pass, mut worker) = board.split_worker(pass, 1);
    let (pass, mut snapshot) = board.split_snapshot(pass);
    let (pass, mut reader) = board.split_reader(pass);
    schedule_first(&board, &mut scheduler);
    assert!(rt; install_first(&board, &mut worker));
    assert!(rt; show_first(&board, &mut snapshot));
    assert_eq!(rt; read_first(&board, &mut reader), (1, 1, 1));
    assert_eq!(rt; pass.place(), 0);
    let pass = board.join(pass, scheduler);
    let pass = board.join(pass, worker);
    let pass = board.join(pass, snapshot);
    let pass = board.join(pass, reader);
    assert_eq!(rt; pass.place(), 1);
    Ok(())
}
