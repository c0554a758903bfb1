ghost use Rattle.std.specs.Prelude.{◌≡◌, ◌≤◌, [], ◌∷◌, true, length, IfOk};
ghost use Rattle.c5_rows.specs.Numbers.{is_among};
ghost use Rattle.c5_board.specs.Boards.{write_count};

use super::*;
use c5_board::{Board, BoardPass, Record};
use c5_frames::{Decoder, LogBuffer};
use c5_plan::plan;
use c5_rows::{Answer, AnswerLine, Cell, Key, Row, RowName, Rows};
use c5_script::{Keys, ReadBlock, ReadLine};
use std::alloc::Global;
use std::test::Fail;

// The table `acct` of one Int column, and one transaction that puts 10 into its row `a`.
const ONE: [u8; 59] = [
    0x43, 0x35, 0x4c, 0x31, 0x01, 0x04, 0x61, 0x63, 0x63, 0x74, 0x01, 0x01, //
    0x00, 0x00, 0x00, 0x0d, 0x57, 0x00, 0x01, 0x61, 0x00, 0x00, 0x00, 0x00, 0x00, 0x00, 0x00, 0x00,
    0x0a, //
    0x00, 0x00, 0x00, 0x11, 0x43, 0x00, 0x00, 0x00, 0x00, 0x00, 0x00, 0x00, 0x00, 0x00, 0x00, 0x00,
    0x01, 0x00, 0x00, 0x00, 0x01, //
    0x00, 0x00, 0x00, 0x05, 0x45, 0x00, 0x00, 0x00, 0x01,
];

fn one_log(alloc: Global) -> Result<LogBuffer, Fail> {
    let mut decoder = Decoder::new(alloc);
    match decoder.feed(ONE.as_slice()) {
        Ok(()) => {}
        Err(_) => return Err(Fail::from("a fault")),
    }
    match decoder.finish() {
        Ok(log) => Ok(log),
        Err(_) => Err(Fail::from("a log")),
    }
}

fn name(key: &[u8]) -> Result<RowName, Fail> {
    Ok(RowName {
        table: 0,
        key: Key::new(key)?,
    })
}

fn number(n: i64) -> Result<Row, Fail> {
    Ok(Row::new(&[Cell::Int(n)]).ok_or("one cell")?)
}

// Rows before the log: 2 in `a`, and 3 in `b`.
fn start(alloc: Global) -> Result<Rows, Fail> {
    let mut rows = Rows::new(alloc);
    rows.put(&name(b"a")?, Box::new(alloc, number(2)?)?)?;
    rows.put(&name(b"b")?, Box::new(alloc, number(3)?)?)?;
    Ok(rows)
}

// The row `a`, and the sum of `a`, `a`, `x`, which is absent, and `b`.
fn block(alloc: Global) -> Result<ReadBlock, Fail>
    ensures { IfOk result (λ block. block.session ≡ 4) }
{
    let mut read = ReadBlock::new(alloc, 4, ReadLine::OneRow { name: name(b"a")? })?;
    let mut keys = Keys::one(Key::new(b"a")?);
    keys.push(Key::new(b"a")?);
    keys.push(Key::new(b"x")?);
    keys.push(Key::new(b"b")?);
    if read.lines().len() < 16 {
        read.push(ReadLine::SumOf {
            table: 0,
            col: 0,
            keys,
        })?;
    }
    Ok(read)
}

// Whether the answer says that `a` is `n`, and that the sum is this.
fn says(answer: &Answer, n: i64, sum: i128) -> Result<bool, Fail> {
    let found = AnswerLine::Found {
        name: name(b"a")?,
        row: number(n)?,
    };
    let lines = answer.as_slice();
    Ok(
        lines.len() == 2
            && lines.first() == Some(&found)
            && lines.last() == Some(&AnswerLine::Sum(sum)),
    )
}

// Schedules write 1: its slot, its record, and then the scheduled word.
fn schedule_first(board: &Board<'_>, pass: &mut BoardPass)
    requires pass { pass.old.board ≡ board.now }
    requires role { pass.old.scheduler ≡ true }
    requires scheduled { pass.old.scheduled ≡ 0 }
    requires written { pass.old.written ≡ 0 }
    requires indexed { pass.old.indexed ≡ 0 }
    requires some { 1 ≤ write_count board.now }
{
    let name = board.plan().log().write(1).name();
    let slot = board.start(&name);
    board.store_bucket(pass, slot, 1);
    board.store_record(
        pass,
        1,
        Record {
            row: 1,
            predecessor: 0,
        },
    );
    board.store_scheduled(pass, 1);
}

// Installs write 1, if it is scheduled, and stores the progress of the one worker.
fn install_first(board: &Board<'_>, pass: &mut BoardPass) -> bool
    requires pass { pass.old.board ≡ board.now }
    requires one { board.now.workers ≡ 1 }
    requires role { is_among 1 pass.old.roles ≡ true }
    requires none { pass.old.installed ≡ [] }
{
    if board.load_scheduled(pass) < 1 {
        return false;
    }
    let link = board.load_record(pass, 1);
    match board.exchange_head(pass, 1, link) {
        Ok(()) => {
            board.store_progress(pass, 1, 2);
            true
        }
        Err(_) => false,
    }
}

// Makes the first transaction visible, if the one worker's progress is above its one write.
fn show_first(board: &Board<'_>, pass: &mut BoardPass) -> bool
    requires pass { pass.old.board ≡ board.now }
    requires one { board.now.workers ≡ 1 }
    requires role { pass.old.snapshot ≡ true }
    requires some { 1 ≤ length board.now.log.txns }
    requires few { write_count board.now ≤ 1 }
    requires place { pass.old.place ≤ 1 }
{
    let progress = board.load_progress(pass, 1);
    if progress < 2 {
        return false;
    }
    board.store_visible(pass, 1);
    true
}

// Whether the answer at the view says that `a` is `n`, and that the sum is this.
fn answers(
    session: &ReadSession<'_>,
    alloc: Global,
    board: &Board<'_>,
    pass: &mut BoardPass,
    view: &View,
    n: i64,
    sum: i128,
) -> Result<bool, Fail>
    requires pass { pass.old.board ≡ board.now }
    requires place { view.now.place ≤ pass.old.place }
    requires session { session.now.session ≡ 4 }
    ensures board { pass.new.board ≡ pass.old.board }
    ensures place { pass.new.place ≡ pass.old.place }
{
    let read = block(alloc)?;
    let reply = session.answer(alloc, board, pass, view, &read)?;
    Ok(reply.session == 4 && reply.place == view.place && says(&reply.answer, n, sum)?)
}

// Whether the rows at the place are `a`, which is `n`, and `b`, which is 3.
fn has_rows(
    alloc: Global,
    board: &Board<'_>,
    pass: &mut BoardPass,
    start: &Rows,
    place: u32,
    n: i64,
) -> Result<bool, Fail>
    requires pass { pass.old.board ≡ board.now }
    requires place { place ≤ pass.old.place }
    ensures board { pass.new.board ≡ pass.old.board }
    ensures place { pass.new.place ≡ pass.old.place }
{
    let rows = rows_at(alloc, board, pass, start, place)?;
    Ok(
        rows.len() == 2
            && rows.get(&name(b"a")?) == Some(&number(n)?)
            && rows.get(&name(b"b")?) == Some(&number(3)?),
    )
}

#[test]
fn a_session_reads_at_its_views(rt: HostRuntime) -> Result<(), Fail> {
    let alloc = rt.alloc();
    let log = one_log(alloc)?;
    let start = start(alloc)?;
    let Ok(plan) = plan(&log) else {
        return Err(Fail::from("within its limits"));
    };
    let (board, pass) = Board::new(alloc, &plan, 1)?;
    assert_eq!(rt; board.plan().log().transactions(), 1);
    assert_eq!(rt; board.writes(), 1);
    let (pass, mut scheduler) = board.split_scheduler(pass);
    let (pass, mut worker) = board.split_worker(pass, 1);
    let (mut reader, mut snapshot) = board.split_snapshot(pass);
    let mut session = ReadSession::new(4, &start);
    let before = session.begin(&board, &mut reader);
    schedule_first(&board, &mut scheduler);
    assert!(rt; install_first(&board, &mut worker));
    assert!(rt; show_first(&board, &mut snapshot));
    let after = session.begin(&board, &mut reader);
    assert_eq!(rt; before.place, 0);
    assert_eq!(rt; after.place, 1);
    // The old view still has the rows before the log.
    assert!(rt; answers(&session, alloc, &board, &mut reader, &before, 2, 7)?);
    assert!(rt; answers(&session, alloc, &board, &mut reader, &after, 10, 23)?);
    assert!(rt; has_rows(alloc, &board, &mut reader, &start, 0, 2)?);
    assert!(rt; has_rows(alloc, &board, &mut reader, &start, 1, 10)?);
    Ok(())
}
