ghost use Rattle.std.specs.Prelude.{◌≤◌, length};

use super::*;
use c5_definitions::{ReadLine, TurnWord};
use c5_frames::{Decoder, LogBuffer};
use c5_io::{Gate, OpenGate, Role};
use c5_plan::plan;
use c5_rows::{AnswerLine, Cell, Key, Reply, Row, RowName, Rows};
use c5_script::ReadBlock;
use std::alloc::Global;
use std::sync::atomic::{AtomicBool, AtomicU64, Ordering};
use std::test::Fail;
use std::thread::yield_now;

// The table `acct` of one Int column, and two transactions: a put of 1 into `a`, and of 2 into `b`.
const TWO_ROWS: &[u8] = b"C5L1\x01\x04acct\x01\x01\
    \0\0\0\x0dW\0\x01a\0\0\0\0\0\0\0\0\x01\
    \0\0\0\x11C\0\0\0\0\0\0\0\0\0\0\0\x01\0\0\0\x01\
    \0\0\0\x0dW\0\x01b\0\0\0\0\0\0\0\0\x02\
    \0\0\0\x11C\0\0\0\x01\0\0\0\0\0\0\0\x02\0\0\0\x01\
    \0\0\0\x05E\0\0\0\x02";

// Three transactions that put 1, 2 and 3 into `a`.
const ONE_ROW: &[u8] = b"C5L1\x01\x04acct\x01\x01\
    \0\0\0\x0dW\0\x01a\0\0\0\0\0\0\0\0\x01\
    \0\0\0\x11C\0\0\0\0\0\0\0\0\0\0\0\x01\0\0\0\x01\
    \0\0\0\x0dW\0\x01a\0\0\0\0\0\0\0\0\x02\
    \0\0\0\x11C\0\0\0\x01\0\0\0\0\0\0\0\x02\0\0\0\x01\
    \0\0\0\x0dW\0\x01a\0\0\0\0\0\0\0\0\x03\
    \0\0\0\x11C\0\0\0\x02\0\0\0\0\0\0\0\x03\0\0\0\x01\
    \0\0\0\x05E\0\0\0\x03";

// A transaction that puts 1 into `a` and 2 into `b`.
const TWO_WRITES: &[u8] = b"C5L1\x01\x04acct\x01\x01\
    \0\0\0\x0dW\0\x01a\0\0\0\0\0\0\0\0\x01\
    \0\0\0\x0dW\0\x01b\0\0\0\0\0\0\0\0\x02\
    \0\0\0\x11C\0\0\0\0\0\0\0\0\0\0\0\x01\0\0\0\x02\
    \0\0\0\x05E\0\0\0\x01";

// A hold ends after so many looks at whether it may.
const MAX_HOLD: u32 = 10_000_000;

fn log(alloc: Global, bytes: &[u8]) -> Result<LogBuffer, Fail>
    requires { length bytes.now ≤ 1000 }
{
    let mut decoder = Decoder::new(alloc);
    decoder.feed(bytes).ok().ok_or("no fault")?;
    Ok(decoder.finish().ok().ok_or("a log")?)
}

fn name(key: &[u8]) -> Result<RowName, Fail> {
    Ok(RowName {
        table: 0,
        key: Key::new(key)?,
    })
}

// A read of one row of the table.
fn read_of(alloc: Global, session: u32, key: &[u8]) -> Result<ReadBlock, Fail>
    requires least { 1 ≤ session }
    requires most { session ≤ 16 }
{
    let name = name(key)?;
    Ok(ReadBlock::new(alloc, session, ReadLine::OneRow { name })?)
}

// Whether the reply to a read of one row is its number, or that it is absent if there is none.
fn answers(reply: &Reply, key: &[u8], n: Option<i64>) -> Result<bool, Fail> {
    let name = name(key)?;
    let want = match n {
        Some(n) => AnswerLine::Found {
            name,
            row: Row::one(Cell::Int(n)),
        },
        None => AnswerLine::Absent { name },
    };
    let lines = reply.answer.as_slice();
    Ok(lines.len() == 1 && lines[0] == want)
}

// A number that is there from this place on.
fn since(first: u32, n: i64, place: u32) -> Option<i64> {
    if place >= first { Some(n) } else { None }
}

// The greatest turn that each role has reached.
#[derive(Drop)]
struct Turns {
    scheduler: AtomicU64,
    first: AtomicU64,
    second: AtomicU64,
    snapshot: AtomicU64,
    session: AtomicU64,
    late: AtomicBool,
}

impl Turns {
    fn none() -> Turns {
        Turns {
            scheduler: AtomicU64::new(0),
            first: AtomicU64::new(0),
            second: AtomicU64::new(0),
            snapshot: AtomicU64::new(0),
            session: AtomicU64::new(0),
            late: AtomicBool::new(false),
        }
    }

    // The turn that a role reaches is noted.
    fn reach(&self, role: Role, turn: u64) {
        match role {
            Role::Scheduler => self.scheduler.store(turn, Ordering::SeqCst),
            Role::Worker(1) => self.first.store(turn, Ordering::SeqCst),
            Role::Worker(_) => self.second.store(turn, Ordering::SeqCst),
            Role::Snapshot => self.snapshot.store(turn, Ordering::SeqCst),
            Role::Session(_) => self.session.store(turn, Ordering::SeqCst),
            Role::Primary(_) => {}
        }
    }

    // Holds its caller until the other has reached this turn.
    fn hold(&self, other: &AtomicU64, turn: u64) {
        for _ in 0..MAX_HOLD {
            if other.load(Ordering::SeqCst) >= turn {
                return;
            }
            yield_now();
        }
        self.late.store(true, Ordering::SeqCst);
    }
}

// Sessions, the snapshotter and workers wait for one another.
#[derive(Drop)]
struct AllTogether {
    turns: Turns,
}

impl Gate for AllTogether {
    fn pass(&self, role: Role, turn: u64) {
        let turns = &self.turns;
        turns.reach(role, turn);
        match (role, turn) {
            (Role::Worker(1), 1) => turns.hold(&turns.scheduler, 3),
            (Role::Snapshot, 1) => turns.hold(&turns.first, 2),
            (Role::Session(1), 1) => turns.hold(&turns.snapshot, 2),
            (Role::Worker(2), 1) => turns.hold(&turns.session, 2),
            (Role::Worker(1), 2) => turns.hold(&turns.snapshot, 1),
            (Role::Session(1), 2) => turns.hold(&turns.second, 1),
            _ => {}
        }
    }
}

// The scheduler and worker 1 wait for each other.
#[derive(Drop)]
struct SchedulerBeside {
    turns: Turns,
}

impl Gate for SchedulerBeside {
    fn pass(&self, role: Role, turn: u64) {
        let turns = &self.turns;
        turns.reach(role, turn);
        match (role, turn) {
            (Role::Scheduler, 2) => turns.hold(&turns.first, 2),
            (Role::Worker(1), 3) => turns.hold(&turns.scheduler, 2),
            _ => {}
        }
    }
}

#[test]
fn each_part_runs_beside_the_others(rt: HostRuntime) -> Result<(), Fail> {
    let alloc = rt.alloc();
    let log = log(alloc, TWO_ROWS)?;
    let plan = plan(&log).ok().ok_or("a plan")?;
    let start = Rows::new(alloc);
    let reads = [read_of(alloc, 1, b"a")?, read_of(alloc, 1, b"a")?];
    let gate = AllTogether {
        turns: Turns::none(),
    };
    let replayed = replay(&rt, alloc, &plan, 2, &start, &reads, &gate)
        .ok()
        .ok_or("a replay")?;
    assert!(rt; !gate.turns.late.load(Ordering::SeqCst));
    assert!(rt; gate.turns.scheduler.load(Ordering::SeqCst) >= 3);
    assert!(rt; gate.turns.first.load(Ordering::SeqCst) >= 2);
    assert!(rt; gate.turns.second.load(Ordering::SeqCst) >= 1);
    assert!(rt; gate.turns.snapshot.load(Ordering::SeqCst) >= 2);
    assert!(rt; gate.turns.session.load(Ordering::SeqCst) >= 2);
    let replies = replayed.replies.as_slice();
    assert!(rt; replies.len() == 2);
    assert_eq!(rt; replies[0].place, 1);
    assert!(rt; answers(&replies[0], b"a", Some(1))?);
    assert!(rt; answers(&replies[1], b"a", Some(1))?);
    Ok(())
}

#[test]
fn the_scheduler_runs_beside_a_worker(rt: HostRuntime) -> Result<(), Fail> {
    let alloc = rt.alloc();
    let log = log(alloc, TWO_ROWS)?;
    let plan = plan(&log).ok().ok_or("a plan")?;
    let start = Rows::new(alloc);
    let gate = SchedulerBeside {
        turns: Turns::none(),
    };
    let replayed = replay(&rt, alloc, &plan, 2, &start, &[], &gate)
        .ok()
        .ok_or("a replay")?;
    assert!(rt; !gate.turns.late.load(Ordering::SeqCst));
    assert!(rt; gate.turns.scheduler.load(Ordering::SeqCst) >= 2);
    assert!(rt; gate.turns.first.load(Ordering::SeqCst) >= 2);
    assert_eq!(rt; replayed.rows.len(), 2);
    Ok(())
}

#[test]
fn replies_are_by_ascending_session(rt: HostRuntime) -> Result<(), Fail> {
    let alloc = rt.alloc();
    let log = log(alloc, TWO_ROWS)?;
    let plan = plan(&log).ok().ok_or("a plan")?;
    let start = Rows::new(alloc);
    let reads = [
        read_of(alloc, 2, b"b")?,
        read_of(alloc, 1, b"a")?,
        read_of(alloc, 2, b"c")?,
    ];
    let replayed = replay(&rt, alloc, &plan, 3, &start, &reads, &OpenGate)
        .ok()
        .ok_or("a replay")?;
    let replies = replayed.replies.as_slice();
    assert!(rt; replies.len() == 3);
    assert_eq!(rt; replies[0].session, 1);
    assert_eq!(rt; replies[1].session, 2);
    assert_eq!(rt; replies[2].session, 2);
    assert!(rt; replies[1].place <= replies[2].place);
    assert!(rt; answers(&replies[0], b"a", since(1, 1, replies[0].place))?);
    assert!(rt; answers(&replies[1], b"b", since(2, 2, replies[1].place))?);
    assert!(rt; answers(&replies[2], b"c", None)?);
    assert_eq!(rt; replayed.pass.place(), 2);
    let rows = replayed.rows.list(alloc)?;
    assert!(rt; rows.len() == 2);
    assert_eq!(rt; rows[0].name.key.bytes(), b"a".as_slice());
    assert_eq!(rt; rows[0].row.cells(), [Cell::Int(1)].as_slice());
    assert_eq!(rt; rows[1].row.cells(), [Cell::Int(2)].as_slice());
    Ok(())
}

#[test]
fn a_write_waits_for_its_predecessor(rt: HostRuntime) -> Result<(), Fail> {
    let alloc = rt.alloc();
    let log = log(alloc, ONE_ROW)?;
    let plan = plan(&log).ok().ok_or("a plan")?;
    let start = Rows::new(alloc);
    let reads = [
        read_of(alloc, 1, b"a")?,
        read_of(alloc, 1, b"a")?,
        read_of(alloc, 1, b"a")?,
    ];
    let turns = [
        TurnWord::Worker(2),
        TurnWord::Visible,
        TurnWord::Session(1),
        TurnWord::Worker(1),
        TurnWord::Worker(2),
        TurnWord::Visible,
        TurnWord::Session(1),
        TurnWord::Worker(1),
        TurnWord::Visible,
        TurnWord::Session(1),
    ];
    let report = replay_turns(alloc, &plan, 2, &start, &reads, &turns)
        .ok()
        .ok_or("a replay")?;
    let replies = report.replies.as_slice();
    assert!(rt; replies.len() == 3);
    assert_eq!(rt; replies[0].place, 0);
    assert_eq!(rt; replies[1].place, 2);
    assert_eq!(rt; replies[2].place, 3);
    assert!(rt; answers(&replies[0], b"a", None)?);
    assert!(rt; answers(&replies[1], b"a", Some(2))?);
    assert!(rt; answers(&replies[2], b"a", Some(3))?);
    assert_eq!(rt; report.put_off, 1);
    assert_eq!(rt; report.rows.len(), 1);
    Ok(())
}

#[test]
fn rounds_and_left_reads_follow_the_words(rt: HostRuntime) -> Result<(), Fail> {
    let alloc = rt.alloc();
    let log = log(alloc, TWO_WRITES)?;
    let plan = plan(&log).ok().ok_or("a plan")?;
    let start = Rows::new(alloc);
    let reads = [read_of(alloc, 1, b"a")?, read_of(alloc, 1, b"b")?];
    let turns = [
        TurnWord::Worker(2),
        TurnWord::Worker(3),
        TurnWord::Visible,
        TurnWord::Session(0),
        TurnWord::Session(1),
    ];
    let report = replay_turns(alloc, &plan, 2, &start, &reads, &turns)
        .ok()
        .ok_or("a replay")?;
    let replies = report.replies.as_slice();
    assert!(rt; replies.len() == 2);
    assert_eq!(rt; replies[0].place, 0);
    assert_eq!(rt; replies[1].place, 1);
    assert!(rt; answers(&replies[0], b"a", None)?);
    assert!(rt; answers(&replies[1], b"b", Some(2))?);
    assert_eq!(rt; report.put_off, 0);
    assert_eq!(rt; report.rows.len(), 2);
    Ok(())
}
